// First fit beside ranges in any order: of a part of the bytes that has too few free ones nothing is put in order.
ghost use Rattle.std.specs.Prelude.{◌≡◌, ◌≤◌, ◌+◌, ◌%◌, length, MatchOption};
ghost use Rattle.numbers.specs.Pairs.{pairs};
ghost use Rattle.plan_record.specs.Inner.{Sought, Cuts, crowded};

use crate::Reply;
use freemap::FreeMap;
use freemap::sum::bytes_of;
use sort::part::part_pairs;

// So many bytes, at a multiple of the block.
#[derive(Clone, Copy)]
pub(crate) struct Piece {
    pub(crate) n: u64,
    pub(crate) block: u64,
}

// Where the bytes are parted, how many ranges lie below, and how often they may be parted again.
#[derive(Clone, Copy)]
struct Cut {
    offset: u64,
    front: usize,
    depth: usize,
}

// Parts ranges that are worth it.
fn parted(ranges: &mut [u64], depth: usize) -> Option<Cut>
    ensures { MatchOption result (ranges.new ≡ ranges.old) (λ c. Cuts (pairs ranges.old) (pairs ranges.new) depth c) }
{
    if depth == 0 || ranges.len() <= 96 {
        return None;
    }
    let part = part_pairs(ranges)?;
    Some(Cut {
        offset: part.offset,
        front: part.front,
        depth: depth - 1,
    })
}

impl Piece {
    // Whether the bytes from lo up to hi are too few for it beside those of the ranges.
    #[tactic(auto, unfolding(crate::specs::Inner::crowded))]
    fn crowded(self, lo: u64, hi: u64, ranges: &[u64]) -> bool
        ensures { result ≡ crowded lo hi self.n (pairs ranges.now) }
    {
        hi.saturating_sub(lo).saturating_sub(bytes_of(ranges)) < self.n
    }

    // First fit among all gaps.
    fn in_order(self, lo: u64, hi: u64, ranges: &mut [u64], gaps: &mut [u64]) -> Reply
        requires { (length ranges.old % 2 ≡ 0) × (length ranges.old + 2 ≤ length gaps.old) }
        ensures { Sought lo hi self.n self.block (pairs ranges.old) result }
    {
        let map = FreeMap::complement(lo, hi, ranges, gaps)?;
        map.first_fit(gaps, self.n, self.block, 0)
    }

    // The lowest place from lo on, below hi. Of the two parts the lower one is searched first, unless it is too
    // crowded; where it has no place after all, the other is not parted any more.
    pub(crate) fn lowest(
        self,
        lo: u64,
        hi: u64,
        ranges: &mut [u64],
        gaps: &mut [u64],
        depth: usize,
    ) -> Reply
        requires { (length ranges.old % 2 ≡ 0) × (length ranges.old + 2 ≤ length gaps.old) }
        ensures { Sought lo hi self.n self.block (pairs ranges.old) result }
    {
        let Some(cut) = parted(ranges, depth) else {
            return self.in_order(lo, hi, ranges, gaps);
        };
        let Cut {
            offset,
            front,
            depth,
        } = cut;
        if self.crowded(lo, offset, &ranges[0..2 * front]) {
            return self.lowest(offset, hi, &mut ranges[2 * front..], gaps, depth);
        }
        match self.lowest(lo, offset, &mut ranges[0..2 * front], gaps, depth) {
            Ok(None) => self.in_order(offset, hi, &mut ranges[2 * front..], gaps),
            Ok(Some(at)) => Ok(Some(at)),
            Err(refusal) => Err(refusal),
        }
    }
}
