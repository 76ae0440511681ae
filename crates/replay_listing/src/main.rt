// Runs lists of lines, and compares what is written with what a model of document 01 in Rust answers to them
// (compare/sample makes the answers). Each list is a file NAME.in with its answers in NAME.out.
#![tactic(auto)]

ghost use Rattle.std.specs.Prelude.{IfOk, ◌≡◌};
ghost use Rattle.listing.specs.Program.{output};

use std::alloc::Global;
use std::{fs, io};

const NAMES: [&str; 20] = [
    "nothing",
    "opens",
    "malformed",
    "ends",
    "joins",
    "caps",
    "drops",
    "regions",
    "tags",
    "extents",
    "names",
    "block12",
    "block13",
    "block14",
    "block15",
    "block16",
    "unaligned",
    "highest",
    "room",
    "fits",
];

// What the program writes for an input.
fn answers(alloc: Global, input: &[u8]) -> io::Result<Vec<u8>>
    ensures { IfOk result (λ text. text.items ≡ output input.now) }
{
    let mut text = Vec::new(alloc);
    let mut rest = input;
    listing::run(&mut rest, &mut text)?;
    Ok(text)
}

// How many lines a text has.
fn lines(text: &[u8]) -> usize {
    text.iter().filter(|&&b| b == b'\n').count()
}

fn main(rt: HostRuntime) -> io::Result<()> {
    for name in NAMES {
        let input = fs::read(&rt, format!(in rt.alloc(); "{name}.in")?)?;
        let due = fs::read(&rt, format!(in rt.alloc(); "{name}.out")?)?;
        let text = answers(rt.alloc(), &input)?;
        let count = lines(&due);
        if text.as_slice() == due.as_slice() {
            println!(rt; "{name}: {count} lines, as the model answers")?;
        } else {
            println!(rt; "{name}: not as the model answers")?;
        }
    }
    Ok(())
}
