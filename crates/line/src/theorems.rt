ghost use Rattle.line.specs.Answers.{ReasonKept};
ghost use Rattle.line.specs.Laws.{LineTells, OneLine};
ghost use Rattle.line.specs.Samples.{Samples};

// Nothing is computed here: each contract is a theorem, so that the check asks for its proof.

// The line tells the outcome: where two lines are the same, so is what they tell of.
pub fn line_tells()
    ensures { LineTells }
{}

// The line is one line, with single spaces between its words.
pub fn one_line_stands()
    ensures { OneLine }
{}

// The stop of a job tells the reason that the machine gave.
pub fn reason_kept()
    ensures { ReasonKept }
{}

// The sample lines.
pub fn samples_stand()
    ensures { Samples }
{}
