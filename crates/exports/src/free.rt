// Flat functions of the free map. A map is two numbers: how many gaps it has, and tail.
ghost use Rattle.std.specs.Prelude.{◌≡◌};
ghost use Rattle.freemap.specs.Bytes.{free_of};
ghost use Rattle.freemap.specs.Fit.{fit_of};
ghost use Rattle.freemap.specs.Gaps.{Complemented};
ghost use Rattle.flat.specs.Flat.{flat_answer};
ghost use Rattle.exports.specs.Flat.{free_from, HandedOut, FlatHanded, FlatFit};

use flat::{FlatAnswer, FlatOption};
use freemap::FreeMap;
use numbers::{Refusal, number_in};

// Writes a map into the lent numbers, since C takes no `Result`; answers document 01's refusal, 0 where there
// is none.
fn hand_out(answer: Result<FreeMap, Refusal>, count: &mut usize, tail: &mut u64) -> u64
    ensures { HandedOut answer result (free_from count.old tail.old) (free_from count.new tail.new) }
{
    if let Ok(map) = answer {
        *count = map.count;
        *tail = map.tail;
    }
    number_in(answer)
}

#[unsafe(no_mangle)]
pub extern "C" fn fundravai_complement(
    table: u64,
    len: u64,
    allocated: &mut [u64],
    gaps: &mut [u64],
    count: &mut usize,
    tail: &mut u64,
) -> u64
    ensures { FlatHanded (Complemented table len allocated.old allocated.new gaps.old gaps.new) result (free_from count.old tail.old) (free_from count.new tail.new) }
{
    let answer = FreeMap::complement(table, len, allocated, gaps);
    hand_out(answer, count, tail)
}

// The place goes back as a number or none, the refusal into a lent number.
#[unsafe(no_mangle)]
pub extern "C" fn fundravai_first_fit(
    count: usize,
    tail: u64,
    gaps: &[u64],
    len: u64,
    align: u64,
    skew: u64,
    refusal: &mut u64,
) -> FlatOption
    ensures { FlatFit (fit_of (free_from count tail) gaps.now len align skew) refusal.new result }
{
    let fit = FreeMap { count, tail }.first_fit(gaps, len, align, skew);
    *refusal = number_in(fit);
    fit.unwrap_or(None).into()
}

#[unsafe(no_mangle)]
pub extern "C" fn fundravai_free_bytes(count: usize, tail: u64, gaps: &[u64]) -> FlatAnswer
    ensures { result ≡ flat_answer (free_of (free_from count tail) gaps.now) }
{
    FreeMap { count, tail }.free_bytes(gaps).into()
}

#[unsafe(no_mangle)]
pub extern "C" fn fundravai_tail(count: usize, tail: u64) -> u64
    ensures { result ≡ tail }
{
    FreeMap { count, tail }.tail()
}
