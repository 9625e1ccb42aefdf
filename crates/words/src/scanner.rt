ghost use Rattle.std.specs.Prelude.{◌≡◌, ◌+◌, ◌<◌, ◌≤◌, false, length, take, drop, slice_index};
ghost use Rattle.words.specs.Classes.{class_of};
ghost use Rattle.words.specs.Spelling.{mark_of};
ghost use Rattle.words.specs.Words.{gap, goes, name_run, digit_run, named};
ghost use Rattle.words.specs.Words.{numbered, dashed, marked, first, scan, next_place, Small};
ghost use Rattle.words.specs.Shown.{shown, shown_word, Moves, Part};
ghost use Rattle.words.specs.Laws.{Laws};
ghost use Rattle.words.specs.Samples.{Samples};

use crate::classes::{Class, class_of};
use crate::faults::Fault;
use crate::keywords::keyword_of;
use crate::marks::{Mark, mark_of};
use crate::numbers::magnitude;
use crate::tokens::{Token, Word};

// A name has at most so many bytes.
const LONGEST_NAME: usize = 16;

// The byte at `i`, and 0 past the end.
fn byte_at(rest: &[u8], i: usize) -> u8
    ensures { result ≡ slice_index rest.now i }
{
    rest.get(i).copied().unwrap_or(0)
}

// How many bytes of `rest` stand before its first word: blanks and comments.
fn gap_len(rest: &[u8]) -> usize
    ensures value { result ≡ gap false rest.now }
    ensures within { result ≤ length rest.now }
{
    let mut comment = false;
    for (n, &b) in rest.iter().enumerate() {
        match class_of(b) {
            _ if comment => comment = b != b'\n',
            Class::Blank => {}
            Class::Percent => comment = true,
            _ => return n,
        }
    }
    rest.len()
}

// Whether a byte goes on with a name, where `behind` stands behind it: a dash directly before `>` does not.
fn goes_on(b: u8, behind: &[u8]) -> bool
    ensures { result ≡ goes (class_of b) behind.now }
{
    match class_of(b) {
        Class::Letter | Class::Digit | Class::Query => true,
        Class::Dash => byte_at(behind, 0) != b'>',
        _ => false,
    }
}

// How many bytes of `rest` go on with a name.
fn name_len(rest: &[u8]) -> usize
    ensures value { result ≡ name_run rest.now }
    ensures within { result ≤ length rest.now }
{
    // Not by `position`: a step may look at the next byte too.
    for (n, &b) in rest.iter().enumerate() {
        if !goes_on(b, &rest[n + 1..]) {
            return n;
        }
    }
    rest.len()
}

// How many digits `rest` begins with.
fn digits_len(rest: &[u8]) -> usize
    ensures value { result ≡ digit_run rest.now }
    ensures within { result ≤ length rest.now }
{
    rest.iter()
        .take_while(|&&b| class_of(b) == Class::Digit)
        .count()
}

// A reader of words: the text, and where it stands in it.
#[derive(Drop)]
pub struct Cursor<'a> {
    text: &'a [u8],
    at: usize,
    ghost within: { at ≤ length text.now },
}

impl<'a> Cursor<'a> {
    // A reader at the start of a text.
    pub fn over(text: &'a [u8]) -> Cursor<'a>
        ensures text { result.text.now ≡ text.now }
        ensures at { result.at ≡ 0 }
        ensures laws { Laws }
        ensures samples { Samples }
    {
        Cursor { text, at: 0 }
    }

    // The next word, or none at the text's end, or a fault, at which the reader stays.
    #[tactic(auto, unfolding(crate::specs::Words::scan, crate::specs::Words::start))]
    pub fn next(&mut self) -> Result<Option<Token<'a>>, Fault>
        ensures reads { shown result ≡ scan self.old.text.now self.old.at }
        ensures stands { self.new.at ≡ next_place self.old.text.now self.old.at }
        ensures same { self.new.text.now ≡ self.old.text.now }
        ensures moves { Moves self.old.at self.new.at result }
        ensures small { Small (shown result) }
        ensures part { Part self.old.text.now self.old.at result }
    {
        self.at += gap_len(self.rest());
        let token = self.word()?;
        if let Some(t) = token {
            self.at += t.width();
        }
        Ok(token)
    }

    // The text from here on.
    fn rest(&self) -> &'a [u8]
        ensures { result.now ≡ drop self.now.at self.now.text.now }
    {
        &self.text[self.at..]
    }

    // The word that begins here, or none at the text's end.
    fn word(&self) -> Result<Option<Token<'a>>, Fault>
        ensures { shown result ≡ first self.now.at (drop self.now.at self.now.text.now) }
    {
        let &[b, ..] = self.rest() else {
            return Ok(None);
        };
        // A match and no table of closures: not every class begins a word.
        let token = match class_of(b) {
            Class::Letter => self.name()?,
            Class::Digit => self.number(0)?,
            Class::Dash => self.dash()?,
            Class::Mark => self.mark(b)?,
            _ => return Err(Fault::Stray(self.at)),
        };
        Ok(Some(token))
    }

    // The name or keyword that begins here.
    fn name(&self) -> Result<Token<'a>, Fault>
        ensures { let rest = drop self.now.at self.now.text.now in
            shown_word result ≡ named self.now.at (take (name_run rest) rest) }
    {
        let rest = self.rest();
        let n = name_len(rest);
        if n > LONGEST_NAME {
            return Err(Fault::LongName(self.at));
        }
        let word = Word {
            text: &rest[..n],
            place: self.at,
        };
        Ok(match keyword_of(word.text) {
            Some(k) => Token::Key(k, word),
            None => Token::Name(word),
        })
    }

    // The number that begins here, its sign taking `sign` bytes.
    fn number(&self, sign: usize) -> Result<Token<'a>, Fault>
        requires { sign ≤ length (drop self.now.at self.now.text.now) }
        ensures { shown_word result ≡ numbered self.now.at sign (drop self.now.at self.now.text.now) }
    {
        let rest = self.rest();
        let end = sign + digits_len(&rest[sign..]);
        if class_of(byte_at(rest, end)) == Class::Letter {
            return Err(Fault::Stray(self.at + end));
        }
        magnitude(&rest[sign..end]).ok_or(Fault::LargeNumber(self.at))?;
        Ok(Token::Number(Word {
            text: &rest[..end],
            place: self.at,
        }))
    }

    // The word that begins here with a dash: a number, an arrow or a minus.
    fn dash(&self) -> Result<Token<'a>, Fault>
        requires { 0 < length (drop self.now.at self.now.text.now) }
        ensures { shown_word result ≡ dashed self.now.at (drop self.now.at self.now.text.now) }
    {
        let next = byte_at(self.rest(), 1);
        if class_of(next) == Class::Digit {
            return self.number(1);
        }
        let mark = match char::from(next) {
            '>' => Mark::Arrow,
            _ => Mark::Minus,
        };
        Ok(Token::Sign(mark, self.at))
    }

    // The mark of the one byte that stands here.
    fn mark(&self, b: u8) -> Result<Token<'a>, Fault>
        ensures { shown_word result ≡ marked self.now.at (mark_of b) }
    {
        let mark = mark_of(b).ok_or(Fault::Stray(self.at))?;
        Ok(Token::Sign(mark, self.at))
    }
}
