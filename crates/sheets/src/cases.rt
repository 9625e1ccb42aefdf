ghost use Rattle.std.specs.Prelude.{◌<◌, IfSome};

use anyhow::{Context, bail};
use pantry::loading::EMPTY_FILE;
use results::Setup;
use std::alloc::{AllocError, Global};

// A sheet under way: its name, its text, its item file, and what it runs with.
#[derive(Drop)]
pub struct Case {
    pub name: Vec<u8>,
    pub text: Vec<u8>,
    pub items: Vec<u8>,
    pub setup: Setup,
}

impl Case {
    pub fn new(heap: Global) -> Result<Case, AllocError> {
        Ok(Case {
            name: Vec::new(heap),
            text: Vec::new(heap),
            items: EMPTY_FILE.to_vec(heap)?,
            setup: Setup::PANEL,
        })
    }

    // One line of the data file that is about a sheet.
    pub fn change(&mut self, heap: Global, word: &[u8], argument: &[u8]) -> anyhow::Result<()> {
        match word {
            b"sheet" => {
                *self = Case::new(heap)?;
                self.name.extend_from_slice(argument)?;
            }
            b"text" => self.text.extend_from_slice(argument)?,
            b"bytes" => append(&mut self.text, argument)?,
            b"items" => {
                self.items.clear();
                append(&mut self.items, argument)?;
            }
            b"again" => {
                let (times, digits) = split(argument);
                let times = number_of(times)?;
                // Bytes that stand no time are not looked at.
                if times > 0 {
                    let mut bytes = Vec::new(heap);
                    append(&mut bytes, digits)?;
                    for _ in 0..times {
                        self.text.extend_from_slice(&bytes)?;
                    }
                }
            }
            b"set" => {
                let (key, digits) = split(argument);
                set(&mut self.setup, key, number_of(digits)?)?;
            }
            _ => bail!("a line begins with an unknown word"),
        }
        Ok(())
    }
}

// What stands before the first blank, and what stands behind it.
pub fn split(line: &[u8]) -> (&[u8], &[u8]) {
    match line.iter().position(|b| *b == b' ') {
        Some(at) => (&line[..at], &line[at + 1..]),
        None => (line, &[]),
    }
}

// The value of a hexadecimal digit; a capital is none.
fn digit(byte: u8) -> Option<u8>
    ensures { IfSome result (λ d. d < 16) }
{
    match byte {
        b'0'..=b'9' => Some(byte - b'0'),
        b'a'..=b'f' => Some(byte - b'a' + 10),
        _ => None,
    }
}

// The byte that two digits stand for.
fn byte_of([high, low]: [u8; 2]) -> Option<u8> {
    Some(digit(high)? * 16 + digit(low)?)
}

// Appends the bytes that are told in pairs of digits. A digit at the end without another says nothing. Not by `hex`, which takes capitals.
fn append(to: &mut Vec<u8>, digits: &[u8]) -> anyhow::Result<()> {
    let (pairs, _) = digits.as_chunks::<2>();
    for pair in pairs {
        let Some(byte) = byte_of(*pair) else {
            bail!("a byte is not told by two digits");
        };
        to.push(byte)?;
    }
    Ok(())
}

// The number that is told in digits alone; no digits tell 0.
fn number_of(digits: &[u8]) -> anyhow::Result<u32> {
    digits
        .iter()
        .try_fold(0u32, |sum, b| {
            let digit = char::from(*b).to_digit(10)?;
            sum.checked_mul(10)?.checked_add(digit)
        })
        .context("a number is not told in digits")
}

// Sets a table's length, the allowance or the buffer's length.
fn set(setup: &mut Setup, key: &[u8], number: u32) -> anyhow::Result<()> {
    let places = number as usize;
    match key {
        b"allowance" => setup.allowance = number,
        b"tree" => setup.tree = places,
        b"types" => setup.types = places,
        b"scope" => setup.scope = places,
        b"cells" => setup.cells = places,
        b"frames" => setup.frames = places,
        b"buffer" => setup.buffer = places,
        _ => bail!("an unknown thing is set"),
    }
    Ok(())
}
