ghost use Rattle.std.specs.Prelude.{◌≡◌};
ghost use Rattle.grammar.specs.Steps.{next_of, TokenFits};
ghost use Rattle.grammar.specs.Readers.{Kept, NextDone, Gives};
ghost use Rattle.grammar.specs.Laying.{word_m, name_m, place_m};

use crate::expected::Expected;
use crate::faults::Fault;
use crate::next::Next;
use crate::placed::Placed;
use crate::reader::{PLACES, Reader};
use language::spans::Span;
use words::{Token, figure};

// What comes next, by the cursor's answer; `end` is where the text ends.
fn next_of(token: Option<Token>, end: u16) -> Next
    requires { TokenFits token }
    ensures { result ≡ next_of end token.entry }
{
    match token {
        None => Next::End { at: end },
        Some(Token::Name(word)) => Next::Name {
            name: Span {
                place: word.place as u16,
                len: word.text.len() as u16,
            },
        },
        Some(Token::Number(word)) => Next::Number {
            at: word.place as u16,
            value: figure(word.text).unwrap(),
        },
        Some(Token::Key(key, word)) => Next::Key {
            at: word.place as u16,
            key,
        },
        Some(Token::Sign(mark, place)) => Next::Sign {
            at: place as u16,
            mark,
        },
    }
}

impl<'t> Reader<'t, '_> {
    // The next word, or the text's end.
    pub fn next(&mut self) -> Result<Next, Fault>
        ensures kept { Kept self.old self.new }
        ensures reads { NextDone result self.old self.new }
    {
        let token = self.words.next()?;
        Ok(next_of(token, self.end))
    }

    // Goes past one mark or keyword.
    pub fn expect<E: Expected>(&mut self, want: E) -> Result<(), Fault>
        ensures { Gives (word_m (E.symbol want)) result self.old self.new }
    {
        let next = self.next()?;
        if !want.is(next) {
            return Err(next.unexpected());
        }
        Ok(())
    }

    // Goes past one name.
    pub fn name(&mut self) -> Result<Span, Fault>
        ensures { Gives name_m result self.old self.new }
    {
        let next = self.next()?;
        match next {
            Next::Name { name } => Ok(name),
            _ => Err(next.unexpected()),
        }
    }

    // Puts a part into the next free place; `at` is where it stands in the text.
    pub fn place<P: Placed>(&mut self, part: P, at: u16) -> Result<u16, Fault>
        ensures { Gives (place_m (P.as_node part) at) result self.old self.new }
    {
        let used = self.used;
        if used >= self.tree.len() || used >= PLACES {
            return Err(Fault::TreeFull(usize::from(at)));
        }
        self.tree[used] = part.node();
        self.used = used + 1;
        Ok(used as u16)
    }
}
