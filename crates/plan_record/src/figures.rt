// The bytes that are held and free.
ghost use Rattle.std.specs.Prelude.{◌≡◌, ◌+◌, fold};
ghost use Rattle.numbers.specs.Sums.{stop};
ghost use Rattle.plan_record.specs.Promises.{HeldTold, FreeTold, LogicalTold, PhysicalTold, LastTold, CountTold};

use crate::{Plan, Region};
use footprint::block_of;

// The capacities of regions together, as two numbers: two sums take turns, so that no addition waits for the one
// before it.
fn capacities(regions: &[Region]) -> (u64, u64)
    ensures { result ≡ fold (λ s r. (s.1, stop (s.0 + r.map.capacity))) (0, 0) regions.now }
{
    regions.iter().fold((0u64, 0u64), |(sum, other), region| {
        (other, sum.saturating_add(region.map.capacity))
    })
}

impl Plan {
    // Two blocks and the capacity of each region.
    pub fn held(&self) -> u64
        ensures { HeldTold self.now result }
    {
        let two = 2 * block_of(self.limits.log2_block);
        let count = self.counted();
        let (a, b) = capacities(&self.regions[..count]);
        (two * count as u64).saturating_add(a).saturating_add(b)
    }

    // The held bytes, and what they leave of the container behind its table.
    pub fn held_and_free(&self) -> (u64, u64)
        ensures held { HeldTold self.now result.0 }
        ensures free { FreeTold self.now result.1 }
    {
        let held = self.held();
        let behind = self.limits.file_len.saturating_sub(self.limits.table_end);
        (held, behind.saturating_sub(held))
    }

    pub fn free(&self) -> u64
        ensures { FreeTold self.now result }
    {
        self.held_and_free().1
    }

    // The published bytes of a tag's regions.
    pub fn logical(&self, tag: u32) -> u64
        ensures { LogicalTold self.now tag result }
    {
        self.accounts.row(tag).logical
    }

    // The bytes of a tag's footprints.
    pub fn physical(&self, tag: u32) -> u64
        ensures { PhysicalTold self.now tag result }
    {
        self.accounts.row(tag).physical
    }

    // The last sequence number.
    pub fn last_number(&self) -> u64
        ensures { LastTold self.now result }
    {
        self.last
    }

    // How many regions there are.
    pub fn region_count(&self) -> usize
        ensures { CountTold self.now result }
    {
        self.counted()
    }
}
