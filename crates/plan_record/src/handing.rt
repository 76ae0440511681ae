// A region handed out as the record that open takes.
ghost use Rattle.std.specs.Prelude.{◌≡◌};
ghost use Rattle.plan_record.specs.Inner.{record_for};
ghost use Rattle.plan_record.specs.Promises.{Hands};
ghost use Rattle.plan_record.specs.Record.{blank_record};

use crate::footprints::{Rows, lay_extents};
use crate::names::Name;
use crate::{Plan, Record, Region};
use footprint::{Entry, Header, RegionKind};
use numbers::Refusal;

impl Record {
    // No record.
    pub fn blank() -> Record
        ensures { result ≡ blank_record }
    {
        Record {
            number: 0,
            tag: 0,
            name: Name::none(),
            entry: Entry {
                kind: RegionKind::Append,
                flags: 0,
                extent_count: 0,
                header_a: 0,
                header_b: 0,
                span_start: 0,
                span_end: 0,
                data_size: 0,
                capacity: 0,
                footprint_seq: 0,
            },
            header: Header {
                region_id: 0,
                kind: RegionKind::Append,
                flags: 0,
                ready: true,
                log2_block: 0,
                extent_count: 0,
            },
        }
    }
}

// A region of n extents as a record.
fn record_of(region: Region, n: u16) -> Record
    ensures { result ≡ record_for region n }
{
    let kind = region.kind;
    Record {
        number: region.number,
        tag: region.tag,
        name: region.name,
        entry: Entry {
            kind,
            flags: region.flags,
            extent_count: n,
            header_a: region.header_a,
            header_b: region.header_b,
            span_start: region.span_start,
            span_end: region.span_end,
            data_size: region.map.len,
            capacity: region.map.capacity,
            footprint_seq: region.footprint_seq,
        },
        header: Header {
            region_id: region.number,
            kind,
            flags: region.flags,
            ready: true,
            log2_block: region.log2_block,
            extent_count: n,
        },
    }
}

impl Plan {
    // The region at place i, with its extents in out; a blank record past the last.
    pub fn region(&self, i: usize, extents: &[u64], out: &mut [u64]) -> Result<Record, Refusal>
        ensures { Hands self.now i extents.now out.old out.new result }
    {
        if extents.len() < 7680 {
            return Err(Refusal::Lists);
        }
        if i >= self.counted() {
            return Ok(Record::blank());
        }
        let region = self.regions[i];
        let n = region.own_count();
        if out.len() / 2 < n {
            return Err(Refusal::Lists);
        }
        lay_extents(region, Rows { extents }, out, 0);
        Ok(record_of(region, n as u16))
    }
}
