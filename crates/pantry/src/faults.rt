ghost use Rattle.std.specs.Prelude.{◌≡◌};
ghost use Rattle.pantry.specs.Faults.{refusal_of};

// The pantry has no answer of this entry for this argument.
#[derive(Clone, Copy, Debug, PartialEq, Eq)]
pub struct NoAnswer {
    pub entry: u8,
    pub argument: i32,
}

// Why an item file is refused: it is no item file, or its first unlawful record begins at this place.
#[derive(Clone, Copy, Debug, PartialEq, Eq)]
pub enum LoadFault {
    NoItemFile,
    BadRecord(usize),
}

impl LoadFault {
    // By cases: one that carries a place has no number of its own.
    pub fn number(self) -> u8
        ensures { result ≡ (refusal_of self).number }
    {
        match self {
            LoadFault::NoItemFile => 16,
            LoadFault::BadRecord(_) => 17,
        }
    }

    pub fn place(self) -> usize
        ensures { result ≡ (refusal_of self).place }
    {
        match self {
            LoadFault::NoItemFile => 0,
            LoadFault::BadRecord(place) => place,
        }
    }

    pub fn layer(self) -> &'static [u8]
        ensures { result.now ≡ (refusal_of self).layer }
    {
        b"items"
    }
}
