ghost use Rattle.std.specs.Prelude.{◌≡◌};
ghost use Rattle.rules.specs.Faults.{number_of, place_of};

// The one refusal that a check gives, with its place in the text.
#[derive(Clone, Copy, Debug, PartialEq, Eq)]
pub enum CheckFault {
    Repeated(u16),
    UnknownValue(u16),
    UnknownType(u16),
    Unwanted(u16),
    NoArrow(u16),
    Missing(u16),
    Mismatch(u16),
    TooDeep(u16),
    TypesFull(u16),
    ScopeFull(u16),
}

impl CheckFault {
    // By cases, as the definition names them.
    pub fn number(self) -> u8
        ensures { result ≡ number_of self }
    {
        match self {
            CheckFault::Repeated(_) => 8,
            CheckFault::UnknownValue(_) => 9,
            CheckFault::UnknownType(_) => 10,
            CheckFault::Unwanted(_) => 11,
            CheckFault::NoArrow(_) => 12,
            CheckFault::Missing(_) => 13,
            CheckFault::Mismatch(_) => 14,
            CheckFault::TooDeep(_) => 15,
            CheckFault::TypesFull(_) => 22,
            CheckFault::ScopeFull(_) => 23,
        }
    }

    pub fn place(self) -> u16
        ensures { result ≡ place_of self }
    {
        match self {
            CheckFault::Repeated(at)
            | CheckFault::UnknownValue(at)
            | CheckFault::UnknownType(at)
            | CheckFault::Unwanted(at)
            | CheckFault::NoArrow(at)
            | CheckFault::Missing(at)
            | CheckFault::Mismatch(at)
            | CheckFault::TooDeep(at)
            | CheckFault::TypesFull(at)
            | CheckFault::ScopeFull(at) => at,
        }
    }
}
