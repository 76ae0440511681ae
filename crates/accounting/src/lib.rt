// Usage by tag: the rows of all tags in one record.
#![tactic(auto)]

mod entries;
mod table;

ghost use Rattle.std.specs.Prelude.{◌≡◌, get_or, Err};
ghost use Rattle.accounting.specs.Entries.{Counts, no_tags, usages, ready_usages, differ, added_len, removed_len};
ghost use Rattle.tagspace.specs.Row.{blank, add_usage, remove_usage, set_cap};
ghost use Rattle.accounting.specs.Table.{Valid, Posts, Asks, accounts_of, table_of, on_row, reserving, unreserving, row_of};

pub use entries::Usage;
use entries::{count_all, extent_len_or};
use numbers::Refusal;
use tagspace::TagSpace;

const TOP: u64 = 0xffff_ffff_ffff_ffff;

// The number of the state Ready in a region table.
const READY: u8 = 1;

// The most tags.
pub(crate) const MOST: usize = 96;

// The accounts of all tags. Rows stand in tag order; those at and past the count are blank. There is no
// heap, so the rows are an array with a count.
#[derive(Clone, Copy)]
pub struct Accounting {
    pub rows: [TagSpace; 96],
    pub count: usize,
    // Bytes reserved and not yet provisioned, all tags.
    pub reserved: u64,
}

// The accounts after a call, and whether it was accepted. A refused posting hands them back as they
// were, a refused list those of no tag, so the answer stands beside them. This and the next are two structs
// and not one over the answer's type: each is named wherever it is promised.
#[derive(Clone, Copy)]
pub struct Posted {
    pub answer: Result<(), Refusal>,
    pub accounts: Accounting,
}

// The same of a question, with whether the bytes fit.
#[derive(Clone, Copy)]
pub struct Asked {
    pub answer: Result<bool, Refusal>,
    pub accounts: Accounting,
}

// A refused list.
pub(crate) fn refused(refusal: Refusal) -> Posted
    ensures { result ≡ record { answer = Err refusal; accounts = accounts_of no_tags } }
{
    Posted {
        answer: Err(refusal),
        accounts: Accounting::empty(),
    }
}

impl Accounting {
    // The accounts of no tag.
    pub fn empty() -> Accounting
        ensures { (result ≡ accounts_of no_tags) × Valid result }
    {
        let blank = TagSpace::blank(0);
        Accounting {
            rows: [blank; 96],
            count: 0,
            reserved: 0,
        }
    }

    // The accounts of a region table, by its Ready entries. Their states, tags and data sizes stand in
    // three lists.
    pub fn from_entries(states: &[u8], tags: &[u32], data_sizes: &[u64], block: u64) -> Posted
        ensures { Counts (differ tags.now states.now data_sizes.now) (ready_usages block states.now tags.now data_sizes.now) result }
    {
        if tags.len() != states.len() {
            return refused(Refusal::Lists);
        }
        if tags.len() != data_sizes.len() {
            return refused(Refusal::Lists);
        }
        count_all(tags.len(), |i| {
            if states[i] != READY {
                return None;
            }
            let logical = data_sizes[i];
            Some(Usage {
                tag: tags[i],
                logical,
                physical: extent_len_or(logical, block, TOP),
            })
        })
    }

    // The accounts of regions. Their tags, data bytes and occupied bytes stand in three lists.
    pub fn from_usage(tags: &[u32], logical: &[u64], physical: &[u64]) -> Posted
        ensures { Counts (differ tags.now logical.now physical.now) (usages tags.now logical.now physical.now) result }
    {
        if tags.len() != logical.len() {
            return refused(Refusal::Lists);
        }
        if tags.len() != physical.len() {
            return refused(Refusal::Lists);
        }
        count_all(tags.len(), |i| {
            Some(Usage {
                tag: tags[i],
                logical: logical[i],
                physical: physical[i],
            })
        })
    }

    // Counts a region of a tag.
    pub fn add_usage(mut self, tag: u32, logical: u64, physical: u64) -> Posted
        ensures { Posts self (on_row tag (add_usage logical physical)) result }
    {
        let answer = self.count_usage(tag, logical, physical);
        Posted {
            answer,
            accounts: self,
        }
    }

    // Stops counting a region of a tag.
    pub fn remove_usage(mut self, tag: u32, logical: u64, physical: u64) -> Posted
        ensures { Posts self (on_row tag (remove_usage logical physical)) result }
    {
        let answer = self.uncount_usage(tag, logical, physical);
        Posted {
            answer,
            accounts: self,
        }
    }

    // Counts a table entry.
    pub fn add(self, tag: u32, data_size: u64, block: u64) -> Posted
        ensures { Posts self (on_row tag (add_usage data_size (added_len data_size block))) result }
    {
        self.add_usage(tag, data_size, extent_len_or(data_size, block, TOP))
    }

    // Stops counting a table entry.
    pub fn remove(self, tag: u32, data_size: u64, block: u64) -> Posted
        ensures { Posts self (on_row tag (remove_usage data_size (removed_len data_size block))) result }
    {
        self.remove_usage(tag, data_size, extent_len_or(data_size, block, 0))
    }

    // Whether extra bytes more are within a tag's cap.
    pub fn fits(mut self, tag: u32, extra: u64) -> Asked
        ensures { Asks self tag extra result }
    {
        let answer = self.ask(tag, extra);
        Asked {
            answer,
            accounts: self,
        }
    }

    // Reserves bytes for a tag.
    pub fn reserve(mut self, tag: u32, bytes: u64) -> Posted
        ensures { Posts self (reserving tag bytes) result }
    {
        let answer = self.post_reserve(tag, bytes);
        Posted {
            answer,
            accounts: self,
        }
    }

    // Takes back bytes that were reserved for a tag.
    pub fn unreserve(mut self, tag: u32, bytes: u64) -> Posted
        ensures { Posts self (unreserving tag bytes) result }
    {
        let answer = self.post_unreserve(tag, bytes);
        Posted {
            answer,
            accounts: self,
        }
    }

    // Sets a tag's cap, or clears it.
    pub fn set_cap(mut self, tag: u32, cap: Option<u64>) -> Posted
        ensures { Posts self (on_row tag (set_cap cap)) result }
    {
        let answer = self.limit(tag, cap);
        Posted {
            answer,
            accounts: self,
        }
    }

    // Bytes reserved and not yet provisioned, all tags.
    pub fn reserved(&self) -> u64
        ensures { result ≡ (table_of self.now).total }
    {
        self.reserved
    }

    // The row of a tag, a blank one where it has none.
    pub fn row(&self, tag: u32) -> TagSpace
        ensures { Valid self.now → result ≡ row_of tag (table_of self.now).rows }
    {
        match self.find(tag) {
            Ok(at) => self.rows[at],
            Err(_) => TagSpace::blank(tag),
        }
    }

    // The row at a place in tag order, a blank one behind the last.
    #[tactic(auto, using(crate::proofs::Tables::row_of_record, crate::proofs::Tables::row_behind_all))]
    pub fn row_at(&self, i: usize) -> TagSpace
        ensures { Valid self.now → result ≡ get_or (table_of self.now).rows i (blank 0) }
    {
        if i < MOST {
            return self.rows[i];
        }
        TagSpace::blank(0)
    }
}
