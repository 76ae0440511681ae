// Usage of one tag: what its regions hold, what is reserved for it, its cap, and the rules by which a
// call changes it. Beside them, what a region occupies.
#![tactic(auto)]

ghost use Rattle.std.specs.Prelude.{◌≡◌, ◌+◌, leb};
ghost use Rattle.tagspace.specs.Extent.{extent_len};
ghost use Rattle.tagspace.specs.Row.{blank, add_usage, remove_usage, reserve, unreserve, set_cap, fits};

// Usage of one tag.
#[derive(Clone, Copy)]
pub struct TagSpace {
    pub tag: u32,
    // Data bytes of the tag's regions.
    pub logical: u64,
    // Bytes that the tag's regions occupy in the container, headers included.
    pub physical: u64,
    // Bytes reserved for the tag and not yet provisioned.
    pub reserved: u64,
    // The most bytes that its regions and reservations may hold together, if there is such a limit.
    pub cap: Option<u64>,
}

// What a region occupies, two header blocks and the data; None past 2^64 - 1.
#[tactic(auto, using(crate::proofs::Amounts::extent_none, crate::proofs::Amounts::extent_some))]
pub fn extent_len(data_size: u64, block: u64) -> Option<u64>
    ensures { result ≡ extent_len data_size block }
{
    block.checked_mul(2)?.checked_add(data_size)
}

// Whether a + b + c is at most limit.
fn at_most(a: u64, b: u64, c: u64, limit: u64) -> bool
    ensures { result ≡ leb (a + b + c) limit }
{
    limit
        .checked_sub(a)
        .and_then(|left| left.checked_sub(b))
        .is_some_and(|left| c <= left)
}

impl TagSpace {
    // The row of a tag that nothing was posted to.
    pub fn blank(tag: u32) -> TagSpace
        ensures { result ≡ blank tag }
    {
        TagSpace {
            tag,
            logical: 0,
            physical: 0,
            reserved: 0,
            cap: None,
        }
    }

    // The row with one usage more. This and those that follow are document 01's rules, each by itself.
    pub fn add_usage(mut self, logical: u64, physical: u64) -> TagSpace
        ensures { result ≡ add_usage logical physical self }
    {
        self.logical = self.logical.saturating_add(logical);
        self.physical = self.physical.saturating_add(physical);
        self
    }

    // The row with one usage less.
    pub fn remove_usage(mut self, logical: u64, physical: u64) -> TagSpace
        ensures { result ≡ remove_usage logical physical self }
    {
        self.logical = self.logical.saturating_sub(logical);
        self.physical = self.physical.saturating_sub(physical);
        self
    }

    // The row with so many bytes more reserved.
    pub fn reserve(mut self, bytes: u64) -> TagSpace
        ensures { result ≡ reserve bytes self }
    {
        self.reserved = self.reserved.saturating_add(bytes);
        self
    }

    // The row with so many bytes less reserved.
    pub fn unreserve(mut self, bytes: u64) -> TagSpace
        ensures { result ≡ unreserve bytes self }
    {
        self.reserved = self.reserved.saturating_sub(bytes);
        self
    }

    // The row with another cap, or none.
    pub fn set_cap(self, cap: Option<u64>) -> TagSpace
        ensures { result ≡ set_cap cap self }
    {
        TagSpace { cap, ..self }
    }

    // Whether extra bytes more are within the cap.
    #[tactic(auto, unfolding(crate::specs::Row::fits, crate::specs::Row::allows))]
    pub fn fits(self, extra: u64) -> bool
        ensures { result ≡ fits extra self }
    {
        match self.cap {
            None => true,
            Some(limit) => at_most(self.physical, self.reserved, extra, limit),
        }
    }

    // Counts one usage more in a row that its holder lends.
    pub fn count_usage(&mut self, logical: u64, physical: u64)
        ensures { self.new ≡ add_usage logical physical self.old }
    {
        *self = self.add_usage(logical, physical);
    }

    // Counts one usage less in it.
    pub fn uncount_usage(&mut self, logical: u64, physical: u64)
        ensures { self.new ≡ remove_usage logical physical self.old }
    {
        *self = self.remove_usage(logical, physical);
    }
}
