ghost use Rattle.std.specs.Prelude.{◌≡◌};
ghost use Rattle.words.specs.Shown.{width_of};

use crate::keywords::Keyword;
use crate::marks::Mark;

// A part of the text that spells a word, and its place.
#[derive(Clone, Copy, Debug, PartialEq, Eq)]
pub struct Word<'a> {
    pub text: &'a [u8],
    pub place: usize,
}

// A word as the cursor hands it on; a mark has its place alone, since its kind tells its bytes.
#[derive(Clone, Copy, Debug, PartialEq, Eq)]
pub enum Token<'a> {
    Name(Word<'a>),
    Number(Word<'a>),
    Key(Keyword, Word<'a>),
    Sign(Mark, usize),
}

impl<'a> Token<'a> {
    // How many bytes of the text a word takes.
    pub(crate) fn width(self) -> usize
        ensures { result ≡ width_of self.entry }
    {
        match self {
            Token::Name(w) | Token::Number(w) | Token::Key(_, w) => w.text.len(),
            Token::Sign(Mark::Arrow, _) => 2,
            Token::Sign(_, _) => 1,
        }
    }
}
