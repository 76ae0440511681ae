// One region in its row of the lent lists.
ghost use Rattle.std.specs.Prelude.{◌≡◌, length};
ghost use Rattle.numbers.specs.Pairs.{pairs};
ghost use Rattle.plan_open.specs.Rows.{Mappable, RowMap, Fit, Rowed};
ghost use Rattle.plan_record.specs.Record.{record_of};

use numbers::copy;
use plan_record::{Record, Region};
use regionmap::RegionMap;

// The map of extents, with its runs in a row: it has room for 60 after the first. Neither call refuses
// what this one takes.
fn map_row(extents: &[u64], len: u64, starts: &mut [u64], files: &mut [u64]) -> RegionMap
    requires { Mappable extents.now len starts.old files.old }
    ensures { RowMap (pairs extents.now) len starts.new files.new result }
{
    match RegionMap::from_extents(extents, len, starts, files) {
        Ok(map) => map.with_room(60, starts, files).unwrap_or(map),
        Err(_) => Region::blank(0).map,
    }
}

// The region of a record, in a row: its committed extents, and the runs of its map.
pub(crate) fn fill_row(
    one: Record,
    row: usize,
    own: &[u64],
    extents: &mut [u64],
    starts: &mut [u64],
    files: &mut [u64],
) -> Region
    requires { Fit (record_of one) own.now × (length extents.old ≡ 120) × (length starts.old ≡ 60) × (length files.old ≡ 60) }
    ensures { Rowed (record_of one) own.now row (pairs extents.new) starts.new files.new result }
{
    let entry = one.entry;
    let committed = &own[..2 * entry.extent_count as usize];
    copy(committed, extents);
    let map = map_row(committed, entry.data_size, starts, files);
    Region {
        number: one.number,
        tag: one.tag,
        name: one.name,
        kind: entry.kind,
        flags: entry.flags,
        log2_block: one.header.log2_block,
        header_a: entry.header_a,
        header_b: entry.header_b,
        span_start: entry.span_start,
        span_end: entry.span_end,
        footprint_seq: entry.footprint_seq,
        extent_count: entry.extent_count as usize,
        row,
        map,
    }
}
