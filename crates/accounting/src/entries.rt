// The accounts of a region table, usage by usage.
ghost use Rattle.std.specs.Prelude.{ℕ, ◌≡◌, ◌<◌, false, Option};
ghost use Rattle.accounting.specs.Entries.{Counts, or_else};
ghost use Rattle.accounting.specs.Inner.{gathered};
ghost use Rattle.accounting.specs.declared.entries.Usage.{Usage};
ghost use Rattle.tagspace.specs.Extent.{extent_len};

use crate::{Accounting, Posted, refused};
use tagspace::extent_len;

// One region's usage.
#[derive(Clone, Copy)]
pub struct Usage {
    pub tag: u32,
    pub logical: u64,
    pub physical: u64,
}

// What a region occupies, or another number where that is past 2^64 - 1.
pub(crate) fn extent_len_or(data_size: u64, block: u64, other: u64) -> u64
    ensures { result ≡ or_else other (extent_len data_size block) }
{
    extent_len(data_size, block).unwrap_or(other)
}

// The accounts after each usage in turn, of n places that may have one. Where a row was found last is noted by a hash of its
// tag: most usages need no search then.
pub(crate) fn count_all<F: Fn(usize) -> Option<Usage>>(n: usize, usage_at: F) -> Posted
    requires { (i : ℕ) → i < n → F.pre usage_at i }
    ensures { (us : ℕ → Option Usage) → ((i : ℕ) (u : Option Usage) → i < n → F.post usage_at i u → u ≡ us i) → Counts false (gathered us 0 n) result }
{
    let mut accounts = Accounting::empty();
    let mut places = [0u8; 256];
    for i in 0..n {
        let Some(usage) = usage_at(i) else { continue };
        let slot = (usage.tag.wrapping_mul(0x9e37_79b1) >> 24) as usize;
        let found = accounts.find_near(usage.tag, places[slot] as usize);
        places[slot] = found.unwrap_or(0).min(255) as u8;
        let counted = accounts.post_found(
            found,
            usage.tag,
            |row| row.add_usage(usage.logical, usage.physical),
        );
        if let Err(refusal) = counted {
            return refused(refusal);
        }
    }
    Posted {
        answer: Ok(()),
        accounts,
    }
}
