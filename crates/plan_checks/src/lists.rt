// Refusals 1, 2 and 3, which are tested over all records.
ghost use Rattle.std.specs.Prelude.{◌≤◌, ◌≡◌, ◌||◌, ◌&&◌, ◌+◌, not, eqb, ltb, length, map, sum, ℕ};
ghost use Rattle.std.specs.List.{list_any};
ghost use Rattle.model.specs.Open.{lists_fail_in, logs_fail_in, length_fails};
ghost use Rattle.plan_checks.specs.Opening.{opening_from};

use crate::Opening;
use footprint::{Limits, max_extents};
use plan_record::Record;

// Whether a record counts too many extents, in its entry or its header, or has too long a name.
fn some_over(records: &[Record], most: usize) -> bool
    ensures { result ≡ list_any (λ r. ltb 60 r.entry.extent_count || ltb 24 r.name.len || ltb most r.header.extent_count) records.now }
{
    records.iter().any(|one| {
        one.entry.extent_count > 60 || one.name.len > 24 || one.header.extent_count as usize > most
    })
}

// How many extents the headers list.
fn all_listed(records: &[Record]) -> usize
    requires { length records.now ≤ 64 }
    ensures { result ≡ sum (map (λ r. r.header.extent_count) records.now) }
{
    records
        .iter()
        .map(|one| one.header.extent_count as usize)
        .sum()
}

// How many ranges the footprints have.
fn all_ranges(records: &[Record]) -> usize
    requires { length records.now ≤ 64 }
    ensures { result ≡ sum (map (λ r. r.entry.extent_count + 2) records.now) }
{
    records
        .iter()
        .map(|one| one.entry.extent_count as usize + 2)
        .sum()
}

// Refusal 1.
#[tactic(auto, using(crate::proofs::Listing::lists_by))]
pub(crate) fn lists_fail(opening: Opening<'_>, scratch: usize, places: usize) -> bool
    ensures { result ≡ lists_fail_in (opening_from opening.entry scratch places) }
{
    let records = opening.records;
    let listed = opening.listed.len();
    if records.len() > 64 || some_over(records, max_extents(opening.limits.log2_block)) {
        return true;
    }
    if listed % 2 != 0 || listed / 2 != all_listed(records) {
        return true;
    }
    scratch / 16 < all_ranges(records) || places < 64
}

// Whether a header's block log is neither 9 nor the container's.
fn some_other(records: &[Record], own: u8) -> bool
    ensures { result ≡ list_any (λ r. not (eqb r.header.log2_block 9) && not (eqb r.header.log2_block own)) records.now }
{
    records.iter().any(|one| one.header.log2_block != 9 && one.header.log2_block != own)
}

// Refusal 2.
#[tactic(auto, using(crate::proofs::Logging::logs_by))]
pub(crate) fn logs_fail(opening: Opening<'_>) -> bool
    ensures { (scratch places : ℕ) → result ≡ logs_fail_in (opening_from opening.entry scratch places) }
{
    let own = opening.limits.log2_block;
    !(12..=16).contains(&own) || some_other(opening.records, own)
}

// Refusal 3.
#[tactic(auto, unfolding(model::specs::Open::length_fails))]
pub(crate) fn length_fails(limits: Limits) -> bool
    ensures { result ≡ length_fails limits }
{
    limits.file_len < limits.table_end || limits.file_len > 0x7fff_ffff_ffff_ffff
}
