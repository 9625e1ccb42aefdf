ghost use Rattle.std.specs.Prelude.{◌≡◌};
ghost use Rattle.pantry.specs.Meaning.{answered};
ghost use Rattle.pantry.specs.Factors.{energy, factors as meant, GivesEnergy};
ghost use Rattle.pantry.specs.FactorLaws.{factors_lawful};

use crate::entries::{Answer, Entry, Kind, MAX_FIGURE};
use crate::pantries::Pantry;

// The energy factors of Annex XIV of Regulation (EU) No 1169/2011.
#[derive(Clone, Copy)]
pub struct Factors;

// The factor pantry.
pub fn factor_pantry() -> Factors
    ensures { GivesEnergy meant }
{
    Factors
}

// A nutrient: the entry that gives its energy, and its kcal for each gram.
#[derive(Clone, Copy)]
struct Nutrient {
    name: &'static [u8],
    factor: u32,
}

const NUTRIENTS: [Nutrient; 5] = [
    Nutrient {
        name: b"fat-kcal",
        factor: 9,
    },
    Nutrient {
        name: b"carb-kcal",
        factor: 4,
    },
    Nutrient {
        name: b"protein-kcal",
        factor: 4,
    },
    Nutrient {
        name: b"alcohol-kcal",
        factor: 7,
    },
    Nutrient {
        name: b"fibre-kcal",
        factor: 2,
    },
];

// factor times grams, both in tenths; the limit lies below the type's, so it is tested
fn kcal(factor: u32, grams: i32) -> Option<Answer>
    ensures { answered result ≡ energy factor grams }
{
    let product = u32::try_from(grams).ok()?.checked_mul(factor)?;
    if product > MAX_FIGURE {
        return None;
    }
    Some(Answer::Number(product as i32))
}

impl Pantry for Factors {
    ghost meaning = { λ _. meant };

    ghost lawful = { λ _. factors_lawful };

    fn count(&self) -> usize {
        NUTRIENTS.len()
    }

    fn entry(&self, i: usize) -> Option<Entry<'_>> {
        let nutrient = NUTRIENTS.get(i)?;
        Some(Entry {
            name: nutrient.name,
            kind: Kind::FigureByItem,
        })
    }

    fn fetch(&self, i: usize, argument: i32) -> Option<Answer> {
        kcal(NUTRIENTS.get(i)?.factor, argument)
    }
}
