// The footprints of the regions, one behind the other, as pairs of a lent list.
ghost use Rattle.std.specs.Prelude.{◌≡◌, ◌+◌, ◌*◌, ◌≤◌, min, length};
ghost use Rattle.numbers.specs.Pairs.{pairs};
ghost use Rattle.plan_record.specs.Plan.{places, regions_of};
ghost use Rattle.plan_record.specs.Inner.{laid, Lays, laid_all, region_extents};

use crate::{Plan, Region};
use footprint::block_of;
use sort::pair::{Pair, pair_at, put_pair};

// The extents that a plan is lent: 64 rows of 60 places, or more.
#[derive(Clone, Copy)]
pub(crate) struct Rows<'a> {
    pub(crate) extents: &'a [u64],
    ghost roomy: { places ≤ length (pairs extents.now) },
}

impl Region {
    // Its row; a record that no call handed back may name one that is not there.
    pub fn own_row(self) -> usize
        ensures { result ≡ min self.row 63 }
    {
        self.row.min(63)
    }

    // How many extents it has; a row has no more than 60.
    pub fn own_count(self) -> usize
        ensures { result ≡ min self.extent_count 60 }
    {
        self.extent_count.min(60)
    }
}

// Writes the extents of a region into the pairs of out from at on.
pub(crate) fn lay_extents(region: Region, rows: Rows<'_>, out: &mut [u64], at: usize)
    requires { at ≤ 4096 }
    ensures { Lays out.old out.new at (region_extents rows.entry.extents.now region) }
{
    let n = region.own_count();
    let first = 60 * region.own_row();
    for k in 0..n {
        put_pair(out, at + k, pair_at(rows.extents, first + k));
    }
}

// Writes a footprint into the pairs of out from at on; answers where it ends.
fn lay(region: Region, block: u64, rows: Rows<'_>, out: &mut [u64], at: usize) -> usize
    requires { at ≤ 4000 }
    ensures lays { Lays out.old out.new at (laid block rows.entry.extents.now region) }
    ensures value { result ≡ at + length (laid block rows.entry.extents.now region) }
{
    let a = region.header_a;
    let b = region.header_b;
    put_pair(
        out,
        at,
        Pair {
            left: a,
            right: block,
        },
    );
    put_pair(
        out,
        at + 1,
        Pair {
            left: b,
            right: block,
        },
    );
    lay_extents(region, rows, out, at + 2);
    at + 2 + region.own_count()
}

impl Plan {
    // Writes the footprints of all regions into the pairs of out; answers how many ranges there are.
    pub(crate) fn lay_footprints(&self, rows: Rows<'_>, out: &mut [u64]) -> usize
        ensures lays { Lays out.old out.new 0 (laid_all self.now rows.entry.extents.now) }
        ensures value { (result ≡ length (laid_all self.now rows.entry.extents.now)) × (result ≤ 62 * length (regions_of self.now)) }
    {
        let n = self.counted();
        let block = block_of(self.limits.log2_block);
        let mut at = 0;
        for region in &self.regions[..n] {
            at = lay(*region, block, rows, out, at);
        }
        at
    }
}
