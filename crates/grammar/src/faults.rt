ghost use Rattle.std.specs.Prelude.{◌≡◌, Some};
ghost use Rattle.grammar.specs.declared.faults.Fault.TheVariants.{Word};
ghost use Rattle.grammar.specs.Faults.{layer_name, refusal_of};

use std::fmt;
use words::Fault as WordFault;

// Why a text is refused, with the place: an unlawful word, a word or an end of the text with which no sheet goes on, a 49th level, a 33rd
// module, a part for which the tree has no place.
#[derive(Clone, Copy, Debug, PartialEq, Eq)]
pub enum Fault {
    Word(WordFault),
    Unexpected(usize),
    TooDeep(usize),
    TooManyModules(usize),
    TreeFull(usize),
}

// The layer that refuses.
#[derive(Clone, Copy, Debug, PartialEq, Eq)]
pub enum Layer {
    Words,
    Grammar,
}

impl fmt::Display for Layer {
    ghost output = { λ layer. Some (layer_name layer) };

    fn fmt<W: fmt::Write>(&self, f: &mut fmt::Formatter<W>) -> fmt::Result {
        f.write_str(match self {
            Layer::Words => "words",
            Layer::Grammar => "grammar",
        })
    }
}

impl From<WordFault> for Fault {
    ghost from_gives = { λ w f. f ≡ Word w };

    fn from(w: WordFault) -> Fault {
        Fault::Word(w)
    }
}

impl Fault {
    // What the refusal is known by. By cases: one that carries a place has no number of its own.
    pub fn number(self) -> u8
        ensures { result ≡ (refusal_of self).number }
    {
        match self {
            Fault::Word(fault) => fault.number() as u8,
            Fault::Unexpected(_) => 5,
            Fault::TooDeep(_) => 6,
            Fault::TooManyModules(_) => 7,
            Fault::TreeFull(_) => 21,
        }
    }

    // Its place in the text.
    pub fn place(self) -> usize
        ensures { result ≡ (refusal_of self).place }
    {
        match self {
            Fault::Word(fault) => fault.place(),
            Fault::Unexpected(at)
            | Fault::TooDeep(at)
            | Fault::TooManyModules(at)
            | Fault::TreeFull(at) => at,
        }
    }

    pub fn layer(self) -> Layer
        ensures { result ≡ (refusal_of self).layer }
    {
        match self {
            Fault::Word(_) => Layer::Words,
            _ => Layer::Grammar,
        }
    }
}
