// The tests on the records: refusals 1, 2, 4 and 5 to 10.
ghost use Rattle.std.specs.Prelude.{◌≡◌, ◌^◌, ◌≤◌, min, max};
ghost use Rattle.footprint.specs.Footprint.{lists_fail, logs_fail, block_fails, entry_fails, count_fails, header_tests};
ghost use Rattle.numbers.specs.Refusals.{first, refusal_in};
ghost use Rattle.footprint.specs.Footprint as spec;

use crate::extents::some_empty;
use crate::{Entry, Header, Limits, RegionKind, block_of, max_extents};
use numbers::{Refusal, passes};

// A log held to 12..16.
pub(crate) fn held(log2: u8) -> u8
    ensures { result ≡ max 12 (min log2 16) }
{
    log2.clamp(12, 16)
}

// Refusal 1.
pub(crate) fn lists_fail(
    limits: Limits,
    entry: Entry,
    header: Header,
    extents: &[u64],
    places: usize,
) -> bool
    ensures { result ≡ lists_fail limits entry header extents.now places }
{
    let most = max_extents(limits.log2_block);
    let committed = entry.extent_count as usize;
    let listed = header.extent_count as usize;
    if extents.len() % 2 != 0 {
        return true;
    }
    if extents.len() / 2 != listed {
        return true;
    }
    if committed > most {
        return true;
    }
    if listed > most {
        return true;
    }
    places < 2 * (committed + 2)
}

// Refusal 2.
#[tactic(auto, unfolding(crate::specs::Footprint::logs_fail))]
pub(crate) fn logs_fail(limits: Limits, header: Header) -> bool
    ensures { result ≡ logs_fail limits header }
{
    !(12..=16).contains(&limits.log2_block)
        || header.log2_block != 9 && header.log2_block != limits.log2_block
}

// A header block at the given place is not aligned or not wholly inside the span.
#[tactic(auto, unfolding(crate::specs::Footprint::block_fails))]
fn misplaced(entry: Entry, block: u64, at: u64) -> bool
    requires { 1 ≤ block }
    ensures { result ≡ block_fails block entry at }
{
    at % block != 0 || at < entry.span_start || passes(at, block, entry.span_end)
}

// Refusal 4.
pub(crate) fn entry_fails(limits: Limits, entry: Entry, extents: &[u64]) -> bool
    requires { limits.log2_block ≤ 16 }
    ensures { result ≡ entry_fails limits entry extents.now }
{
    if limits.table_end > entry.span_start {
        return true;
    }
    if entry.span_start > entry.span_end {
        return true;
    }
    if entry.span_end > limits.file_len {
        return true;
    }
    let block = block_of(limits.log2_block);
    if misplaced(entry, block, entry.header_a) {
        return true;
    }
    if misplaced(entry, block, entry.header_b) {
        return true;
    }
    if near(entry.header_a, entry.header_b, block) {
        return true;
    }
    if entry.data_size > entry.capacity {
        return true;
    }
    let (pairs, _) = extents.as_chunks::<2>();
    some_empty(pairs, entry.extent_count as usize)
}

// Whether a and b are less than a block apart.
fn near(a: u64, b: u64, block: u64) -> bool
    ensures { result ≡ spec.near block a b }
{
    a.abs_diff(b) < block
}

// Refusal 9.
fn count_fails(entry: Entry, header: Header) -> bool
    ensures { result ≡ count_fails entry header }
{
    if header.extent_count == entry.extent_count {
        return false;
    }
    if entry.kind == RegionKind::Slot {
        return true;
    }
    header.extent_count as u64 != entry.extent_count as u64 + 1
}

// Refusals 5 to 10.
pub(crate) fn check_header(id: u64, entry: Entry, header: Header) -> Result<(), Refusal>
    requires { header.log2_block ≤ 16 }
    ensures { refusal_in result ≡ first (header_tests id entry header) }
{
    if header.region_id != id {
        return Err(Refusal::NumbersDiffer);
    }
    if header.kind != entry.kind {
        return Err(Refusal::KindsDiffer);
    }
    if header.flags != entry.flags {
        return Err(Refusal::FlagsDiffer);
    }
    if !header.ready {
        return Err(Refusal::NotReady);
    }
    if count_fails(entry, header) {
        return Err(Refusal::HeaderCount);
    }
    if entry.data_size % block_of(header.log2_block) != 0 {
        return Err(Refusal::NoMultiple);
    }
    Ok(())
}
