// Free space: the gaps that allocated ranges leave of a container, and the search for a place among
// them, lowest address first.
#![tactic(auto)]

mod search;
pub mod sum;
mod sweep;

ghost use Rattle.std.specs.Prelude.{◌≡◌, true, false, MatchResult};
ghost use Rattle.freemap.specs.Bytes.{free_of};
ghost use Rattle.freemap.specs.Fit.{fit_of};
ghost use Rattle.freemap.specs.Gaps.{Complemented, gaps_in, too_few};
ghost use Rattle.numbers.specs.Pairs.{ranges_in};
ghost use Rattle.numbers.specs.Refusals.{told};

use numbers::{Refusal, is_power_of_two};
use search::search;
use sum::sum_bytes;
use sweep::sweep;

// The free space of a container. Its gaps stand in a list that its holder lends to each call, as
// pairs (offset, length) in rising order.
#[derive(Clone, Copy)]
pub struct FreeMap {
    // How many gaps there are; the list may be longer.
    pub count: usize,
    // The greatest of table end and all ends of ranges of length above 0.
    pub tail: u64,
}

impl FreeMap {
    // The free space of a container of len bytes whose table ends at table_end, given every allocated
    // range. The ranges may overlap and come in any order; they are sorted in place. Writes the gaps.
    pub fn complement(
        table_end: u64,
        len: u64,
        allocated: &mut [u64],
        gaps: &mut [u64],
    ) -> Result<FreeMap, Refusal>
        ensures { Complemented table_end len allocated.old allocated.new gaps.old gaps.new result }
    {
        if allocated.len() % 2 != 0 || gaps.len() / 2 <= allocated.len() / 2 {
            return Err(Refusal::Lists);
        }
        let _sorted = sort::sort_pairs(allocated);
        Ok(sweep(table_end, len, allocated, gaps))
    }

    // The gaps of a list that the record counts.
    fn gaps_in(self, gaps: &[u64]) -> Result<&[[u64; 2]], Refusal>
        ensures { MatchResult result (λ gs. (too_few self gaps.now ≡ false) × (ranges_in gs.now ≡ gaps_in self gaps.now)) (λ e. (too_few self gaps.now ≡ true) × (e ≡ Refusal.Lists)) }
    {
        let (pairs, _) = gaps.as_chunks::<2>();
        if pairs.len() < self.count {
            return Err(Refusal::Lists);
        }
        Ok(&pairs[..self.count])
    }

    // Where len bytes fit in the first gap that allows it, at + skew a multiple of align.
    pub fn first_fit(
        self,
        gaps: &[u64],
        len: u64,
        align: u64,
        skew: u64,
    ) -> Result<Option<u64>, Refusal>
        ensures { told result ≡ fit_of self gaps.now len align skew }
    {
        let gaps = self.gaps_in(gaps)?;
        if !is_power_of_two(align) {
            return Err(Refusal::Block);
        }
        Ok(search(gaps, len, align - 1, skew))
    }

    // The lengths of the gaps together.
    pub fn free_bytes(self, gaps: &[u64]) -> Result<u64, Refusal>
        ensures { told result ≡ free_of self gaps.now }
    {
        Ok(sum_bytes(self.gaps_in(gaps)?))
    }

    // The greatest of table end and all ends of ranges of length above 0.
    pub fn tail(self) -> u64
        ensures { result ≡ self.tail }
    {
        self.tail
    }
}
