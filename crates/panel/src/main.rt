// Reads a sheet from the standard input and prints one line on it.
#![tactic(auto)]

use grammar::Node;
use std::io::Read;

// How many places the tree table has.
const PLACES: usize = 2048;

fn run(rt: &HostRuntime) -> anyhow::Result<()> {
    let heap = rt.alloc();
    let mut text = Vec::new(heap);
    rt.stdin().read_to_end(&mut text)?;
    let mut tree = vec![in heap; Node::Blank; PLACES]?;
    let line = panels::line(heap, &text, &mut tree)?;
    println!(rt; "{line}")?;
    Ok(())
}

fn main(rt: HostRuntime) -> anyhow::Result<()> {
    run(&rt)
}
