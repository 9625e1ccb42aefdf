ghost use Rattle.std.specs.Prelude.{◌≡◌};
ghost use Rattle.words.specs.Lexing.{tally_of, shown_tally};

use crate::faults::{Fault, measured};
use crate::scanner::Cursor;

// How many words a text has, or its first fault.
pub fn tally(text: &[u8]) -> Result<usize, Fault>
    ensures { shown_tally result ≡ tally_of text.now }
{
    measured(text)?;
    let mut cursor = Cursor::over(text);
    let mut count = 0;
    // Not an iterator: a cursor stays at a fault, and would give it for ever.
    while cursor.next()?.is_some() {
        count += 1;
    }
    Ok(count)
}
