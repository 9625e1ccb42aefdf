// Nothing is computed here: each contract is a theorem, so that the check asks for its proof.
ghost use Rattle.grammar.specs.Laws.{EndsLast, LaysNodes, OneReading, PlanStands, ReadHolds, ReadsExactly, ReadsSpelled};
ghost use Rattle.grammar.specs.Laws.{RefusesFirst, TreeStands};
ghost use Rattle.grammar.specs.Samples.{Samples};

// A text is read as a sheet exactly when its words are that sheet by the grammar, within the limits.
pub fn reading_stands()
    ensures { ReadsExactly }
{}

// The same words are one sheet at most.
pub fn one_reading_stands()
    ensures { OneReading }
{}

// A refusal 5 stands at the first word with which no sheet goes on.
pub fn refusal_stands()
    ensures { RefusesFirst }
{}

// A table in which the sheet that was read is laid stands for it.
pub fn tree_stands()
    ensures { TreeStands }
{}

// The sample texts are read as they should.
pub fn samples_stand()
    ensures { Samples }
{}

// What a reader does to a table is to lay the sheet's nodes in it.
pub fn nodes_stand()
    ensures { LaysNodes }
{}

// The names of a sheet that was read are the parts of the text at their places.
pub fn spelling_stands()
    ensures { ReadsSpelled }
{}

// A text's words end at its length, trailing blanks and comments included.
pub fn ends_stand()
    ensures { EndsLast }
{}

// The plan of the nodes of a sheet that was read stands for that sheet.
pub fn plan_stands()
    ensures { PlanStands }
{}

// A read sheet holds the one sheet that its text is read as, in its tree and in the plan of its tree.
pub fn read_sheet_stands()
    ensures { ReadHolds }
{}
