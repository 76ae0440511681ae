// The numbers of a text, for the programs that replay stored answers of the Rust.
#![tactic(auto)]

mod cases;
mod number;
pub mod report;
mod tally;
pub mod words;

ghost use Rattle.std.specs.Prelude.{true, ◌≡◌, ◌+◌, ◌-◌, ◌≤◌, min, length};
ghost use Rattle.sample.specs.Sample.{is_digit, with_digit, finished, Filled};
ghost use Rattle.sample.specs.Inner.{fill, Reads};

pub use cases::{Case, Cases};
pub use number::Number;
pub use tally::{Count, Tally};

// How many numbers were read, and the value so far of the one that is begun.
#[derive(Clone, Copy)]
struct Reading {
    count: usize,
    begun: Option<u64>,
}

// The decimal numbers of text, in order, at the front of out, as many as fit; answers how many. Any
// byte that is no digit ends a number. A number past 2^64 - 1 is read as 2^64 - 1.
pub fn numbers_in(text: &[u8], out: &mut [u64]) -> usize
    ensures { Filled text.now out.old out.new result }
{
    let mut reading = Reading {
        count: 0,
        begun: None,
    };
    for &byte in text {
        reading = read(out, reading, byte);
    }
    put(out, reading.count, reading.begun)
}

fn read(out: &mut [u64], reading: Reading, byte: u8) -> Reading
    requires { reading.count ≤ length out.old }
    ensures { Reads byte reading out.old result out.new }
{
    if byte.is_ascii_digit() {
        return Reading {
            count: reading.count,
            begun: Some(longer(reading.begun.unwrap_or(0), byte)),
        };
    }
    Reading {
        count: put(out, reading.count, reading.begun),
        begun: None,
    }
}

// Writes a number that has ended to a place, where there are both; answers the next place.
#[tactic(auto, unfolding(crate::specs::Inner::fill))]
fn put(out: &mut [u64], place: usize, number: Option<u64>) -> usize
    requires { place ≤ length out.old }
    ensures slots { out.new ≡ fill out.old place (finished number) }
    ensures next { result ≡ min (place + length (finished number)) (length out.old) }
{
    match number {
        Some(n) if place < out.len() => {
            out[place] = n;
            place + 1
        }
        _ => place,
    }
}

// value with one more digit.
fn longer(value: u64, digit: u8) -> u64
    requires { is_digit digit ≡ true }
    ensures { result ≡ with_digit value (digit - 48) }
{
    let d = u64::from(digit - b'0');
    value.saturating_mul(10).saturating_add(d)
}
