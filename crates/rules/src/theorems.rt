ghost use Rattle.rules.specs.Laws.{Accepting, DistinctTypes, Exchanging, LargerTables};
ghost use Rattle.rules.specs.Laws.{PassingComplete, PassingExact, PassingSound, RefusingSound};
ghost use Rattle.rules.specs.Samples.{Samples};

// Nothing is computed here: each contract is a theorem, so that the check asks for its proof.

// A sheet passes with a type exactly when the typing rules give that type and no limit or table is exceeded.
pub fn passing_stands()
    ensures { PassingExact }
{}

// What passes has its type by the typing rules, and the type table has the sheet's distinct types.
pub fn soundness_stands()
    ensures { PassingSound }
{}

// What has a type by the typing rules passes with it, or a limit or a table is exceeded.
pub fn completeness_stands()
    ensures { PassingComplete }
{}

// A refusal with 8 to 14 says that the rules give no type. One with 15, 22 or 23 says that, or that just this limit or table is exceeded.
pub fn refusals_stand()
    ensures { RefusingSound }
{}

// Larger tables keep a passing answer.
pub fn larger_tables_stand()
    ensures { LargerTables }
{}

// The type table has each type that the sheet's parts form, once.
pub fn distinct_types_stand()
    ensures { DistinctTypes }
{}

// What an interface accepts is told by the check as by the typing rules.
pub fn acceptance_stands()
    ensures { Accepting }
{}

// A module's body may be exchanged for another that its interface accepts.
pub fn exchange_stands()
    ensures { Exchanging }
{}

// The sample sheets.
pub fn samples_stand()
    ensures { Samples }
{}
