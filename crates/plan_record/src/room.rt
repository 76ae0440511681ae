// Where the next piece goes: first fit among the gaps that the footprints leave.
ghost use Rattle.std.specs.Prelude.{◌≡◌, ◌+◌, ◌*◌, ◌≤◌, fold, length, min};
ghost use Rattle.numbers.specs.Pairs.{pairs};
ghost use Rattle.numbers.specs.Sums.{stop};
ghost use Rattle.plan_record.specs.Inner.{laid_all, MostRanges};
ghost use Rattle.plan_record.specs.Plan.{places};
ghost use Rattle.plan_record.specs.Promises.{Fits, Places};

use crate::footprints::Rows;
use crate::search::Piece;
use crate::{Plan, Region, Reply};
use footprint::{Limits, block_of};
use numbers::Refusal;

// How often the ranges are parted at most: as often as 3,968 of them need where each part has half of them, and
// half as often again.
const MOST_CUTS: usize = 10;

// How many ranges the footprints of regions have, or a few more; a region has 62 at most.
fn ranges_of(regions: &[Region]) -> usize
    ensures { result ≡ fold (λ s r. stop (stop (s + 2) + min r.extent_count 60)) 0 regions.now }
{
    regions.iter().fold(0usize, |sum, region| {
        sum.saturating_add(2)
            .saturating_add(region.extent_count.min(60))
    })
}

impl Plan {
    // How many ranges there are at most.
    fn most_ranges(&self) -> usize
        ensures { MostRanges self.now result }
    {
        ranges_of(&self.regions[..self.counted()])
    }

    // First fit of n bytes, with room for the ranges and the gaps.
    fn fit_among(&self, n: u64, rows: Rows<'_>, ranges: &mut [u64], gaps: &mut [u64]) -> Reply
        requires { (2 * length (laid_all self.now rows.extents.now) ≤ length ranges.old) × (length ranges.old + 2 ≤ length gaps.old) }
        ensures { Fits self.now n rows.entry.extents.now result }
    {
        let count = self.lay_footprints(rows, ranges);
        let end = 2 * count;
        let block = block_of(self.limits.log2_block);
        let Limits {
            table_end,
            file_len,
            ..
        } = self.limits;
        Piece { n, block }.lowest(table_end, file_len, &mut ranges[0..end], gaps, MOST_CUTS)
    }

    // The same, with the room of its own. Its arrays are cleared at every call, so a plan of few ranges takes
    // short ones.
    fn fit_within<const RANGES: usize, const GAPS: usize>(&self, n: u64, rows: Rows<'_>) -> Reply
        requires { (2 * length (laid_all self.now rows.extents.now) ≤ RANGES) × (RANGES + 2 ≤ GAPS) × (GAPS ≤ 7938) }
        ensures { Fits self.now n rows.entry.extents.now result }
    {
        let mut ranges = [0u64; RANGES];
        let mut gaps = [0u64; GAPS];
        self.fit_among(n, rows, &mut ranges, &mut gaps)
    }

    fn fit_by_count(&self, n: u64, rows: Rows<'_>) -> Reply
        ensures { Fits self.now n rows.entry.extents.now result }
    {
        match self.most_ranges() {
            0..=124 => self.fit_within::<248, 250>(n, rows),
            125..=496 => self.fit_within::<992, 994>(n, rows),
            497..=992 => self.fit_within::<1984, 1986>(n, rows),
            993..=1984 => self.fit_within::<3968, 3970>(n, rows),
            _ => self.fit_within::<7936, 7938>(n, rows),
        }
    }

    // The lowest free span of n bytes that starts at a multiple of the block.
    pub fn place(&self, n: u64, extents: &[u64]) -> Reply
        ensures { Places self.now n extents.now result }
    {
        if extents.len() < 7680 {
            return Err(Refusal::Lists);
        }
        self.fit_by_count(n, Rows { extents })
    }
}
