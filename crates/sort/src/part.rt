// The pairs of a slice in two parts, for a search that need not have them in order.
ghost use Rattle.std.specs.Prelude.{◌≡◌, MatchOption, is_none};
ghost use Rattle.numbers.specs.Pairs.{pairs};
ghost use Rattle.sort.specs.Part.{PartedAt, whole};

use crate::pair::Pair;
use crate::split::{partition, pivot};

// How many pairs the front has: those of a lower offset than this one, which some pair has.
#[derive(Clone, Copy)]
pub struct Part {
    pub offset: u64,
    pub front: usize,
}

// Parts the pairs at the offset of one that is likely to stand near the middle of the sorted list; a list of odd
// length, or of 16 pairs at most, is left whole.
pub fn part_pairs(s: &mut [u64]) -> Option<Part>
    ensures none { is_none result ≡ whole s.old }
    ensures parted { MatchOption result (s.new ≡ s.old) (λ p. PartedAt (pairs s.old) (pairs s.new) p.offset p.front) }
{
    if s.len() % 2 != 0 {
        return None;
    }
    if s.len() < 34 {
        return None;
    }
    let offset = pivot(s).left;
    let front = partition(
        s,
        Pair {
            left: offset,
            right: 0,
        },
    );
    Some(Part { offset, front })
}
