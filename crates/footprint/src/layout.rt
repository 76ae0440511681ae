// The footprint in scratch: laid out, sorted, and searched for ranges that overlap.
ghost use Rattle.std.specs.Prelude.{◌≡◌, ◌+◌, ◌*◌, ◌≤◌, false, length, true};
ghost use Rattle.numbers.specs.Pairs.{pairs};
ghost use Rattle.sort.specs.Sort.{Ascending};
ghost use Rattle.footprint.specs.Inner.{neighbours_meet, LaidOut};

use crate::{Entry, Limits, block_of};
use numbers::copy;
use sort::sort_pairs;

// Whether a range begins before the one in front of it ends.
fn overlapping(s: &[u64]) -> bool
    requires { Ascending (pairs s.now) }
    ensures { result ≡ neighbours_meet (pairs s.now) }
{
    let (pairs, _) = s.as_chunks::<2>();
    for i in 1..pairs.len() {
        let [before, len] = pairs[i - 1];
        let [offset, _] = pairs[i];
        if offset - before < len {
            return true;
        }
    }
    false
}

// Whether each range ends where the next one begins, or before: they are sorted then, and don't overlap.
fn apart(s: &[u64]) -> bool
    ensures { result ≡ true → Ascending (pairs s.now) × (neighbours_meet (pairs s.now) ≡ false) }
{
    let (pairs, _) = s.as_chunks::<2>();
    for i in 1..pairs.len() {
        let [before, len] = pairs[i - 1];
        let [offset, _] = pairs[i];
        if offset < before || offset - before < len {
            return false;
        }
    }
    true
}

// Fills s with the footprint, sorted; answers whether it overlaps itself. As elsewhere behind refusal 2, the
// block's log is asked for as at most 16: a type for that would be made of a plain number at each call.
pub(crate) fn lay_out(limits: Limits, entry: Entry, extents: &[u64], s: &mut [u64]) -> bool
    requires { (limits.log2_block ≤ 16) × (length s.old ≡ 2 * (entry.extent_count + 2)) × (2 * entry.extent_count ≤ length extents.now) }
    ensures { LaidOut limits entry extents.now s.new result }
{
    let block = block_of(limits.log2_block);
    s[0] = entry.header_a;
    s[1] = block;
    s[2] = entry.header_b;
    s[3] = block;
    let committed = s.len() - 4;
    copy(&extents[..committed], &mut s[4..]);
    if apart(s) {
        return false;
    }
    let _sorted = sort_pairs(s);
    overlapping(s)
}
