ghost use Rattle.std.specs.Prelude.{◌≡◌};
ghost use Rattle.language.specs.Machine.{stop_number};
ghost use Rattle.job.specs.Maps.{reason_of};
ghost use Rattle.job.specs.declared.reasons.Reason.TheVariants.{NoAnswer as NoAnswerOf};

use pantry::faults::NoAnswer;

// Why a job stops.
#[derive(Clone, Copy, Debug, PartialEq, Eq)]
pub enum Reason {
    NoCell,
    NoFrame,
    TooLarge,
    DivideByZero,
    NoAnswer(NoAnswer),
    NoRule,
}

impl From<NoAnswer> for Reason {
    ghost from_gives = { λ f r. r ≡ NoAnswerOf f };

    fn from(f: NoAnswer) -> Reason {
        Reason::NoAnswer(f)
    }
}

impl Reason {
    // The number that the stop goes by. By cases: one that carries a fault has no number of its own.
    pub fn number(self) -> u8
        ensures { result ≡ stop_number (reason_of self) }
    {
        match self {
            Reason::NoCell => 24,
            Reason::NoFrame => 25,
            Reason::TooLarge => 26,
            Reason::DivideByZero => 27,
            Reason::NoAnswer(_) => 28,
            Reason::NoRule => 29,
        }
    }
}
