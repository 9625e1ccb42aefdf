ghost use Rattle.language.specs.Check.{CheckAgrees, OneType};
ghost use Rattle.language.specs.Job.{AdvancesAdd, CallsLaw, EndedStays, LawfulSuits, SpentStays, StepsCounted};
ghost use Rattle.language.specs.Machine.{DivisionLaw, LinksEnough};
ghost use Rattle.language.specs.Points.{PartsSee};
ghost use Rattle.language.specs.Safety.{CallSafety, Exchange, PassesComputed, Safety, WholeSafety};
ghost use Rattle.language.specs.Samples.{Samples};
ghost use Rattle.language.specs.Step.{StepAgrees, Stop29, StopsAgree};
ghost use Rattle.language.specs.TypeOf.{TypeOfAgrees};

// Nothing is computed here: each contract is a theorem, so that the check asks for its proof.

// The computed type of an expression is the one that the typing rules give.
pub fn typing_stands()
    ensures { TypeOfAgrees }
{}

// The computed type of a sheet is the one that the rules give.
pub fn check_stands()
    ensures { CheckAgrees }
{}

// An expression and a sheet have one type at most.
pub fn one_type_stands()
    ensures { OneType }
{}

// That a sheet has a type can be told by a test.
pub fn passing_stands()
    ensures { PassesComputed }
{}

// The step function does what the step rules say, and nothing else.
pub fn steps_stand()
    ensures { StepAgrees }
{}

// A step stops with 29 exactly when no rule has its premises.
pub fn no_rule_stands()
    ensures { Stop29 }
{}

// When a step stops, and with which number.
pub fn stops_stand()
    ensures { StopsAgree }
{}

// A quotient is the exact one, cut off toward zero.
pub fn division_stands()
    ensures { DivisionLaw }
{}

// A search for a name that followed more links would find no more.
pub fn links_stand()
    ensures { LinksEnough }
{}

// An advance and then another are one by the sum of their allowances.
pub fn advances_stand()
    ensures { AdvancesAdd }
{}

// An advance counts no more steps than its allowance and the limit, and all of them while the job goes on.
pub fn counts_stand()
    ensures { StepsCounted }
{}

// An ended job stays as it is and leaves whatever tables are lent.
pub fn ended_stands()
    ensures { EndedStays }
{}

// A job that has made all its steps stays as it is.
pub fn spent_stands()
    ensures { SpentStays }
{}

// Over whole logs: status and finish change nothing, two advances are one, an end is answered ever after.
pub fn call_laws_stand()
    ensures { CallsLaw }
{}

// Each part of a sheet's tree has one environment, that of its root.
pub fn parts_stand()
    ensures { PartsSee }
{}

// Every lawful pantry is among those that safety speaks of.
pub fn lawful_stands()
    ensures { LawfulSuits }
{}

// No job of a typed sheet stops for want of a rule, and every closing value fits the sheet's type.
pub fn safety_stands()
    ensures { Safety }
{}

// The same a call at a time, as the contract of each call of a job can cite it.
pub fn calls_stand()
    ensures { CallSafety }
{}

// A module's body may be exchanged for another that its interface accepts.
pub fn exchange_stands()
    ensures { Exchange }
{}

// Safety and exchange in one statement.
pub fn whole_stands()
    ensures { WholeSafety }
{}

// The sample sheets, and values that fit a type and values that do not.
pub fn samples_stand()
    ensures { Samples }
{}
