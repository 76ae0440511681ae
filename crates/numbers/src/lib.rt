// What several crates want: a sum held against a limit, the step of a halving search, the test for a power
// of two, pairs of a list, one list copied over another, and the reasons for a refusal.
#![tactic(auto)]

mod copied;
mod paired;
mod refusal;

ghost use Rattle.std.specs.Prelude.{cond, ◌≡◌, ◌+◌, ◌-◌, ltb};
ghost use Rattle.numbers.specs.Sums.{stop};
ghost use Rattle.numbers.specs.Powers.{is_power_of_two};

pub use copied::copy;
pub use paired::pairs_of;
pub use refusal::{Refusal, number_in};

const HALF: usize = 0x7fff_ffff_ffff_ffff;

// Whether a + b passes limit.
pub fn passes(a: u64, b: u64, limit: u64) -> bool
    ensures { result ≡ ltb limit (a + b) }
{
    if limit < a {
        return true;
    }
    limit - a < b
}

// Whether n is a power of two: it is not 0, and has one bit alone.
pub fn is_power_of_two(n: u64) -> bool
    ensures { result ≡ is_power_of_two n }
{
    if n == 0 {
        return false;
    }
    n & (n - 1) == 0
}

fn step_or_stop(lo: usize, step: usize, up: bool) -> usize
    ensures { result ≡ stop (lo + cond up step 0) }
{
    if up { lo.saturating_add(step) } else { lo }
}

// lo + step where up, else lo, or 2^64 - 1 where the sum passes it. A search would guess a branch by up
// wrong every other time, so the step is shifted; numbers that are far too large are tested for first, and never come.
pub fn advance(lo: usize, step: usize, up: bool) -> usize
    ensures { result ≡ stop (lo + cond up step 0) }
{
    if lo > HALF || step > HALF {
        return step_or_stop(lo, step, up);
    }
    let more = (step << (up as usize)) - step;
    lo + more
}
