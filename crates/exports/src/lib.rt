// Flat functions for compare/, which links them as a static library. Nothing is decided here: each
// calls a leaf, or one after another, and promises what the leaf does of flat numbers.
#![tactic(auto)]

mod accounts;
mod block;
mod free;
mod map;
mod settlement;

ghost use Rattle.std.specs.Prelude.{◌≡◌};
ghost use Rattle.align.specs.Align.{align_up};
ghost use Rattle.sort.specs.Sort.{Sorted};
ghost use Rattle.exports.specs.Each.{AlignUp};
ghost use Rattle.flat.specs.Chain.{Chain};
ghost use Rattle.numbers.specs.Pairs.{pairs};
ghost use Rattle.numbers.specs.Range.{range};
ghost use Rattle.numbers.specs.Refusals.{answer};
ghost use Rattle.footprint.specs.Footprint.{max_extents, answer_of, Filled};
ghost use Rattle.runs.specs.Runs.{Listed};
ghost use Rattle.flat.specs.Flat.{flat_of, flat_answer};
ghost use Rattle.exports.specs.Flat.{limits_of, entry_of, header_of, Told, FlatTold, Flattened, FlatChecked};

use flat::{FlatAnswer, FlatOption, kind_of};
use footprint::{Entry, Extent, Header, Limits};
use numbers::{Refusal, number_in};

#[unsafe(no_mangle)]
pub extern "C" fn fundravai_align_up(value: u64, align: u64) -> FlatOption
    ensures { result ≡ flat_of (align_up value align) }
{
    align::align_up(value, align).into()
}

// For the benchmark: the greatest of the places that pairs of a value and an align have, 0 where none has one.
#[tactic(auto, using(crate::proofs::Chaining::chunk_next, crate::proofs::Chaining::chunks_end, numbers::proofs::Chunks::chunk_pairs))]
#[unsafe(no_mangle)]
pub extern "C" fn fundravai_align_up_each(numbers: &[u64]) -> u64
    ensures { Chain AlignUp (pairs numbers.now) 0 result }
{
    let mut highest = 0u64;
    let (pairs, _) = numbers.as_chunks::<2>();
    for &[value, align] in pairs {
        if let Some(place) = align::align_up(value, align) {
            highest = highest.max(place);
        }
    }
    highest
}

#[tactic(auto, using(crate::proofs::Told::told_answer))]
#[unsafe(no_mangle)]
pub extern "C" fn fundravai_sort_pairs(s: &mut [u64]) -> u64
    ensures { Sorted s.old s.new (answer result tt) }
{
    number_in(sort::sort_pairs(s))
}

#[unsafe(no_mangle)]
pub extern "C" fn fundravai_max_extents(log2: u8) -> usize
    ensures { result ≡ max_extents log2 }
{
    footprint::max_extents(log2)
}

// The fields of limits, an entry and a header stand by themselves, since the C interface has them so.
fn limits_of(log2: u8, table: u64, file: u64) -> Limits
    ensures { result ≡ limits_of log2 table file }
{
    Limits {
        log2_block: log2,
        table_end: table,
        file_len: file,
    }
}

fn entry_of(
    kind: u8,
    flags: u8,
    count: u16,
    a: u64,
    b: u64,
    start: u64,
    end: u64,
    size: u64,
    capacity: u64,
    seq: u64,
) -> Entry
    ensures { result ≡ entry_of kind flags count a b start end size capacity seq }
{
    Entry {
        kind: kind_of(kind),
        flags,
        extent_count: count,
        header_a: a,
        header_b: b,
        span_start: start,
        span_end: end,
        data_size: size,
        capacity,
        footprint_seq: seq,
    }
}

fn header_of(id: u64, kind: u8, flags: u8, ready: bool, log2: u8, count: u16) -> Header
    ensures { result ≡ header_of id kind flags ready log2 count }
{
    Header {
        region_id: id,
        kind: kind_of(kind),
        flags,
        ready,
        log2_block: log2,
        extent_count: count,
    }
}

// Writes a verdict's extra into the lent numbers, since C takes no `Result`; answers document 01's refusal, 0
// where there is none.
fn tell(verdict: Result<Option<Extent>, Refusal>, offset: &mut u64, len: &mut u64) -> u64
    ensures { Told (answer_of verdict) result (range offset.old len.old) (range offset.new len.new) }
{
    if let Ok(Some(extra)) = verdict {
        *offset = extra.offset;
        *len = extra.len;
    }
    number_in(verdict)
}

#[unsafe(no_mangle)]
pub extern "C" fn fundravai_fill_footprint(
    log2: u8,
    table: u64,
    file: u64,
    id: u64,
    kind: u8,
    flags: u8,
    count: u16,
    a: u64,
    b: u64,
    start: u64,
    end: u64,
    size: u64,
    capacity: u64,
    seq: u64,
    hid: u64,
    hkind: u8,
    hflags: u8,
    ready: bool,
    hlog2: u8,
    hcount: u16,
    extents: &[u64],
    scratch: &mut [u64],
    offset: &mut u64,
    len: &mut u64,
) -> u64
    ensures { FlatTold (Filled (limits_of log2 table file) id (entry_of kind flags count a b start end size capacity seq) (header_of hid hkind hflags ready hlog2 hcount) extents.now scratch.old scratch.new) result (range offset.old len.old) (range offset.new len.new) }
{
    let limits = limits_of(log2, table, file);
    let entry = entry_of(kind, flags, count, a, b, start, end, size, capacity, seq);
    let header = header_of(hid, hkind, hflags, ready, hlog2, hcount);
    let verdict = footprint::fill_footprint(limits, id, entry, header, extents, scratch);
    tell(verdict, offset, len)
}

// The number of slots in the part that is handed back.
#[unsafe(no_mangle)]
pub extern "C" fn fundravai_check_region(
    log2: u8,
    table: u64,
    file: u64,
    id: u64,
    kind: u8,
    flags: u8,
    count: u16,
    a: u64,
    b: u64,
    start: u64,
    end: u64,
    size: u64,
    capacity: u64,
    seq: u64,
    hid: u64,
    hkind: u8,
    hflags: u8,
    ready: bool,
    hlog2: u8,
    hcount: u16,
    extents: &[u64],
    scratch: &mut [u64],
    refusal: &mut u64,
    offset: &mut u64,
    len: &mut u64,
) -> usize
    ensures { FlatChecked (limits_of log2 table file) id (entry_of kind flags count a b start end size capacity seq) (header_of hid hkind hflags ready hlog2 hcount) extents.now scratch.old result refusal.new (range offset.old len.old) (range offset.new len.new) }
{
    let limits = limits_of(log2, table, file);
    let entry = entry_of(kind, flags, count, a, b, start, end, size, capacity, seq);
    let header = header_of(hid, hkind, hflags, ready, hlog2, hcount);
    match footprint::check_region(limits, id, entry, header, extents, scratch) {
        Ok((part, extra)) => {
            *refusal = tell(Ok(extra), offset, len);
            part.len()
        }
        Err(reason) => {
            *refusal = reason.number();
            0
        }
    }
}

#[unsafe(no_mangle)]
pub extern "C" fn fundravai_runs(
    extents: &[u64],
    starts: &mut [u64],
    files: &mut [u64],
    lens: &mut [u64],
) -> FlatAnswer
    ensures { Flattened flat_answer (Listed extents.now starts.old starts.new files.old files.new lens.old lens.new) result }
{
    runs::runs(extents, starts, files, lens).into()
}
