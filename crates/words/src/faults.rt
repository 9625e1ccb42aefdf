ghost use Rattle.std.specs.Prelude.{◌≡◌};
ghost use Rattle.words.specs.Shown.{number_of, place_of, Measured};

// A text has at most so many bytes.
pub const LONGEST: usize = 32_768;

// Why a text is refused, and where.
#[derive(Clone, Copy, Debug, PartialEq, Eq)]
pub enum Fault {
    TooLong,
    Stray(usize),
    LongName(usize),
    LargeNumber(usize),
}

impl Fault {
    // By cases: one that carries a place has no number of its own.
    pub fn number(self) -> usize
        ensures { result ≡ number_of self }
    {
        match self {
            Fault::TooLong => 1,
            Fault::Stray(_) => 2,
            Fault::LongName(_) => 3,
            Fault::LargeNumber(_) => 4,
        }
    }

    pub fn place(self) -> usize
        ensures { result ≡ place_of self }
    {
        match self {
            Fault::TooLong => LONGEST,
            Fault::Stray(place) | Fault::LongName(place) | Fault::LargeNumber(place) => place,
        }
    }
}

// Whether a text is short enough to be read.
pub fn measured(text: &[u8]) -> Result<(), Fault>
    ensures { Measured text.now result }
{
    if text.len() > LONGEST {
        return Err(Fault::TooLong);
    }
    Ok(())
}
