// A region's footprint: the rules between a table entry, its region header and the container that
// decide whether the region is usable, and the byte ranges it then occupies.
#![tactic(auto)]

mod extents;
mod layout;
mod records;

ghost use Rattle.std.specs.Prelude.{◌≡◌, ◌≤◌, ◌<◌, ◌^◌, min, length, Ok, Err, IfOk, MatchResult};
ghost use Rattle.numbers.specs.Refusals.{refusal_in};
ghost use Rattle.footprint.specs.Footprint.{kind_code, kind_in, max_extents, answer_of, check_of, Filled, Checked};
ghost use Rattle.footprint.specs.Inner.{before_last};

use extents::check_extents;
use layout::lay_out;
use numbers::Refusal;
use records::{check_header, entry_fails, held, lists_fail, logs_fail};

// What a region is for.
#[derive(Clone, Copy, Debug, PartialEq, Eq)]
pub enum RegionKind {
    Append = 1,
    Page = 2,
    Slot = 3,
}

impl RegionKind {
    // Its number in the table.
    #[tactic(auto, unfolding(crate::specs::Footprint::kind_code))]
    pub fn code(self) -> u8
        ensures { result ≡ kind_code self }
    {
        self as u8
    }
}

impl TryFrom<u64> for RegionKind {
    type Error = ();

    ghost try_from_gives = { λ code r. r ≡ kind_in code };

    #[tactic(auto, unfolding(crate::specs::Footprint::kind_in))]
    fn try_from(code: u64) -> Result<RegionKind, ()> {
        match code {
            1 => Ok(RegionKind::Append),
            2 => Ok(RegionKind::Page),
            3 => Ok(RegionKind::Slot),
            _ => Err(()),
        }
    }
}

// What the check needs from the container: the log of its block, where its table ends, its length.
#[derive(Clone, Copy)]
pub struct Limits {
    pub log2_block: u8,
    pub table_end: u64,
    pub file_len: u64,
}

// A table entry.
#[derive(Clone, Copy)]
pub struct Entry {
    pub kind: RegionKind,
    pub flags: u8,
    pub extent_count: u16,
    pub header_a: u64,
    pub header_b: u64,
    pub span_start: u64,
    pub span_end: u64,
    pub data_size: u64,
    pub capacity: u64,
    pub footprint_seq: u64,
}

// A region header's fixed part.
#[derive(Clone, Copy)]
pub struct Header {
    pub region_id: u64,
    pub kind: RegionKind,
    pub flags: u8,
    pub ready: bool,
    pub log2_block: u8,
    pub extent_count: u16,
}

// An extent, which the check hands out as the header lists it.
#[derive(Clone, Copy, Debug, PartialEq, Eq)]
pub struct Extent {
    pub offset: u64,
    pub len: u64,
}

// 2^log2 of a block log; no container has one above 16.
pub fn block_of(log2: u8) -> u64
    ensures { (result ≡ 2 ^ min log2 16) × (result ≤ 65536) × (0 < result) }
{
    1u64 << log2.min(16)
}

// Most extents that a region header can list.
pub fn max_extents(log2: u8) -> usize
    ensures { result ≡ max_extents log2 }
{
    ((block_of(held(log2)) - 192) / 16) as usize
}

// Every refusal of the check but the last, 13. Each test takes what it reads of the five arguments, which a
// struct of all would hide; the public calls take them as the Rust's do.
fn check_before_overlap(
    limits: Limits,
    id: u64,
    entry: Entry,
    header: Header,
    extents: &[u64],
    places: usize,
) -> Result<(), Refusal>
    ensures { refusal_in result ≡ before_last limits id entry header extents.now places }
{
    if lists_fail(limits, entry, header, extents, places) {
        return Err(Refusal::Lists);
    }
    if logs_fail(limits, header) {
        return Err(Refusal::Block);
    }
    if entry_fails(limits, entry, extents) {
        return Err(Refusal::Entry);
    }
    check_header(id, entry, header)?;
    check_extents(limits, entry, extents)
}

// Checks a region; hands out the extent that its header may list beyond the entry's. Where it is usable,
// or refused since it overlaps itself, the front of scratch holds its footprint.
pub fn fill_footprint(
    limits: Limits,
    id: u64,
    entry: Entry,
    header: Header,
    extents: &[u64],
    scratch: &mut [u64],
) -> Result<Option<Extent>, Refusal>
    ensures { Filled limits id entry header extents.now scratch.old scratch.new (answer_of result) }
{
    check_before_overlap(limits, id, entry, header, extents, scratch.len())?;
    let committed = entry.extent_count as usize;
    let end = 2 * committed + 4;
    if lay_out(limits, entry, extents, &mut scratch[0..end]) {
        return Err(Refusal::Overlaps);
    }
    if header.extent_count > entry.extent_count {
        return Ok(Some(Extent {
            offset: extents[2 * committed],
            len: extents[2 * committed + 1],
        }));
    }
    Ok(None)
}

// Checks a region, and hands back the front part of scratch that holds its footprint, with the extent
// that its header may list beyond the entry's.
pub fn check_region<'a>(
    limits: Limits,
    id: u64,
    entry: Entry,
    header: Header,
    extents: &[u64],
    scratch: &'a mut [u64],
) -> Result<(&'a mut [u64], Option<Extent>), Refusal>
    ensures checked { MatchResult result (λ r. Checked limits id entry header extents.now scratch.old r.0.now (answer_of (Ok r.1))) (λ e. answer_of (Err e) ≡ check_of limits id entry header extents.now (length scratch.old)) }
    ensures in_front { IfOk result (λ r. r.0.ref_ptr ≡ scratch.entry.ref_ptr) }
{
    let extra = fill_footprint(limits, id, entry, header, extents, scratch)?;
    let end = 2 * (entry.extent_count as usize) + 4;
    Ok((&mut scratch[0..end], extra))
}
