ghost use Rattle.std.specs.Prelude.{◌≡◌};
ghost use Rattle.line.specs.Faults.{check_refusal, grammar_refusal, items_refusal, layer_of, line_refusal, words_refusal};

use crate::outcomes::{Layer, Refusal};
use grammar::faults::{Fault as GrammarFault, Layer as TextLayer};
use pantry::faults::LoadFault;
use rules::faults::CheckFault;
use words::Fault as WordFault;

// The buffer is too short for the line.
#[derive(Clone, Copy, PartialEq, Eq, Debug)]
pub struct TooShort;

impl From<TooShort> for Refusal {
    ghost from_gives = { λ _ r. r ≡ line_refusal };

    fn from(_: TooShort) -> Refusal {
        Refusal {
            number: 30,
            place: 0,
            layer: Layer::Line,
        }
    }
}

impl From<WordFault> for Refusal {
    ghost from_gives = { λ fault r. r ≡ words_refusal fault };

    fn from(fault: WordFault) -> Refusal {
        GrammarFault::from(fault).into()
    }
}

impl From<TextLayer> for Layer {
    ghost from_gives = { λ layer r. r ≡ layer_of layer };

    fn from(layer: TextLayer) -> Layer {
        match layer {
            TextLayer::Words => Layer::Words,
            TextLayer::Grammar => Layer::Grammar,
        }
    }
}

impl From<GrammarFault> for Refusal {
    ghost from_gives = { λ fault r. r ≡ grammar_refusal fault };

    fn from(fault: GrammarFault) -> Refusal {
        Refusal {
            number: fault.number(),
            place: fault.place(),
            layer: fault.layer().into(),
        }
    }
}

impl From<CheckFault> for Refusal {
    ghost from_gives = { λ fault r. r ≡ check_refusal fault };

    fn from(fault: CheckFault) -> Refusal {
        Refusal {
            number: fault.number(),
            place: usize::from(fault.place()),
            layer: Layer::Check,
        }
    }
}

impl From<LoadFault> for Refusal {
    ghost from_gives = { λ fault r. r ≡ items_refusal fault };

    fn from(fault: LoadFault) -> Refusal {
        Refusal {
            number: fault.number(),
            place: fault.place(),
            layer: Layer::Items,
        }
    }
}
