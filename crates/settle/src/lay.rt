// The ranges of all records in scratch, for n ranges: the pair k is the start of the range k with k
// itself, to be sorted; the pair n + k is its end with the place of its record.
ghost use Rattle.std.specs.Prelude.{map, ℕ, ◌+◌, ◌≤◌, length};
ghost use Rattle.numbers.specs.Pairs.{pairs};
ghost use Rattle.settle.specs.Laying.{Laid};
ghost use Rattle.settle.specs.Regions.{lent_of, piece, pieces_from, regions_of};
ghost use Rattle.settle.specs.Settle.{range_count};

use crate::complete::Complete;
use sort::pair::{Pair, pair_at, put_pair};

// Lays the ranges of one record from the place first on.
fn lay(ranges: &[u64], owner: usize, first: usize, n: usize, s: &mut [u64])
    requires { (first + length (pairs ranges.now) ≤ n) × (n + n ≤ length (pairs s.old)) }
    ensures { (seq : ℕ) → Laid (map (piece owner seq) (pairs ranges.now)) first n s.old s.new }
{
    for k in 0..ranges.len() / 2 {
        let range = pair_at(ranges, k);
        put_pair(
            s,
            first + k,
            Pair {
                left: range.left,
                right: (first + k) as u64,
            },
        );
        put_pair(
            s,
            n + (first + k),
            Pair {
                left: range.left.saturating_add(range.right),
                right: owner as u64,
            },
        );
    }
}

// And those of all records, the first of which has the place owner.
pub(crate) fn lay_all(complete: Complete<'_>, owner: usize, first: usize, n: usize, s: &mut [u64])
    requires { (complete.records.count + owner ≤ 2048) × (first + range_count (lent_of complete.records) ≤ n) × (n + n ≤ length (pairs s.old)) }
    ensures { Laid (pieces_from owner (regions_of (lent_of complete.entry.records))) first n s.old s.new }
{
    let records = complete.records;
    let mut at = 0;
    for i in 0..records.count {
        let own = records.counts[i] as usize;
        lay(
            &records.ranges[2 * at..2 * (at + own)],
            owner + i,
            first + at,
            n,
            s,
        );
        at += own;
    }
}
