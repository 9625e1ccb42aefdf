// Reads the item file of its working folder and a sheet from the standard input, and prints the line on them.
#![tactic(auto)]

use pantry::loading::EMPTY_FILE;
use std::io::{Read, Write};
use std::{fs, io};

// The bytes of the item file; where there is none, those of a file without records.
fn items(rt: &HostRuntime) -> io::Result<Vec<u8>> {
    match fs::read(rt, "items.nut") {
        Err(e) if e.kind() == io::ErrorKind::NotFound => Ok(EMPTY_FILE.to_vec(rt.alloc())?),
        read => read,
    }
}

fn run(rt: &HostRuntime) -> anyhow::Result<()> {
    let file = items(rt)?;
    let mut text = Vec::new(rt.alloc());
    rt.stdin().read_to_end(&mut text)?;
    let line = results::line(rt.alloc(), &file, &text, results::panel())?;
    rt.stdout().write_all(&line)?;
    Ok(())
}

fn main(rt: HostRuntime) -> anyhow::Result<()> {
    run(&rt)
}
