// Replaying the cases of standard input, and telling on standard output how many are answered alike.
ghost use Rattle.std.specs.Prelude.{◌≤◌, length};
ghost use Rattle.sample.specs.Sample.{Read};

use crate::{Case, Cases, Tally, numbers_in};
use std::io;

// What answers cases one after another.
pub trait Replay {
    // Whether a case is answered alike, or nothing where no module answers it.
    fn replay(&mut self, case: Case<'_>) -> Option<bool>;
}

// Replays the cases of standard input, and writes of each module how many are answered alike. A line
// that can't be written is missing where the output is compared.
pub fn run(
    rt: &(impl Input + Print),
    replay: &mut impl Replay,
    modules: &[(&str, u64)],
    whom: &str,
) {
    let mut words = words_room();
    let n = numbers_read(rt, &mut words);
    tell(rt, replayed(&words[..n], replay), modules, whom)
}

fn words_room() -> [u64; 40000] {
    [0; 40000]
}

// Counts the cases of each module, and those that are answered alike.
fn replayed(words: &[u64], replay: &mut impl Replay) -> Tally {
    let mut tally = Tally::new();
    for case in Cases(words) {
        tally = tally.with(case, replay.replay(case));
    }
    tally
}

fn text_room() -> [u8; 250000] {
    [0; 250000]
}

// The numbers of standard input at the front of words, as many as fit; answers how many. Where the text
// or its numbers may have been cut, that is told.
fn numbers_read(rt: &(impl Input + Print), words: &mut [u64]) -> usize
    ensures { Read words.old words.new result }
{
    let mut text = text_room();
    let got = filled(&mut rt.reader(), &mut text);
    let n = numbers_in(&text[..got], words);
    if got == text.len() || n == words.len() {
        let _told = println!(rt; "the sample may be cut");
    }
    n
}

// Reads until room is full, the input ends or a read fails; answers how many bytes it read.
fn filled(reader: &mut impl io::Read, room: &mut [u8]) -> usize
    ensures { result ≤ length room.new }
{
    let mut got = 0;
    // No for: how many reads there are depends on how many bytes each gives.
    while got < room.len() {
        let n = reader.read(&mut room[got..]).unwrap_or(0);
        if n == 0 {
            break;
        }
        got += n;
    }
    got
}

// Writes of each module, by its name and number, how many of its cases are answered alike, and how many
// there are.
fn tell(rt: &impl Print, tally: Tally, modules: &[(&str, u64)], whom: &str) {
    for (name, number) in modules {
        let count = tally.count(*number);
        let _told = println!(rt; "{name} {count} as by {whom}");
    }
}
