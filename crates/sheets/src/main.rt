// Runs the sheets of the data file `sheets.txt`, which says how it is written, and prints the line of each.
#![tactic(auto)]

mod cases;

use cases::{Case, split};
use std::fs;
use std::io::Write;

// What one line of the data file says.
fn follow(rt: &HostRuntime, case: &mut Case, line: &[u8]) -> anyhow::Result<()> {
    let mut out = rt.stdout();
    let (word, argument) = split(line);
    match word {
        [] | [b'#', ..] => {}
        b"group" => {
            out.write_all(b"== ")?;
            out.write_all(argument)?;
            out.write_all(b"\n")?;
        }
        b"run" => {
            let line = results::line(rt.alloc(), &case.items, &case.text, case.setup)?;
            out.write_all(&case.name)?;
            out.write_all(b": ")?;
            out.write_all(&line)?;
        }
        _ => case.change(rt.alloc(), word, argument)?,
    }
    Ok(())
}

fn main(rt: HostRuntime) -> anyhow::Result<()> {
    let data = fs::read(&rt, "sheets.txt")?;
    let mut case = Case::new(rt.alloc())?;
    for line in data.split(|b| *b == b'\n') {
        follow(&rt, &mut case, line)?;
    }
    Ok(())
}
