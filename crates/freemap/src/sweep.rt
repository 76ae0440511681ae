// The gaps that ranges in order leave, one pass over the ranges.
ghost use Rattle.std.specs.Prelude.{◌≡◌, ◌+◌, ◌*◌, ◌<◌, length};
ghost use Rattle.numbers.specs.Pairs.{pairs};
ghost use Rattle.freemap.specs.Inner.{Noted, Swept};

use crate::FreeMap;

// Writes the gap from start up to end behind count others, where it has a byte; answers how many
// there are then.
fn note(gaps: &mut [u64], count: usize, start: u64, end: u64) -> usize
    requires { 2 * count + 1 < length gaps.old }
    ensures { Noted gaps.old gaps.new count start end result }
{
    if start < end {
        gaps[2 * count] = start;
        gaps[2 * count + 1] = end - start;
        return count + 1;
    }
    count
}

// Writes the gaps of the bytes from table_end up to len, given the ranges in order.
pub(crate) fn sweep(table_end: u64, len: u64, ranges: &[u64], gaps: &mut [u64]) -> FreeMap
    requires { length (pairs ranges.now) < length (pairs gaps.old) }
    ensures { Swept table_end len (pairs ranges.now) gaps.old gaps.new result }
{
    let (ranges, _) = ranges.as_chunks::<2>();
    let mut at = table_end;
    let mut count = 0;
    for &[offset, bytes] in ranges {
        if bytes == 0 {
            continue;
        }
        count = note(gaps, count, at, offset.min(len));
        at = at.max(offset.saturating_add(bytes));
    }
    count = note(gaps, count, at, len);
    FreeMap { count, tail: at }
}
