// A record of open as flat numbers. Those of the header have an h in front.
ghost use Rattle.std.specs.Prelude.{◌≡◌, ◌≤◌, length, take};
ghost use Rattle.flat_plan.specs.Record.{record_from, records_from, flat_record};

use crate::lent::turn;
use flat::kind_of;
use footprint::{Entry, Header};
use plan_record::Record;
use plan_record::names::Name;

#[repr(C)]
#[derive(Clone, Copy)]
pub struct FlatRecord {
    pub number: u64,
    pub tag: u32,
    pub name: [u8; 24],
    pub name_len: u8,
    pub kind: u8,
    pub flags: u8,
    pub extent_count: u16,
    pub header_a: u64,
    pub header_b: u64,
    pub span_start: u64,
    pub span_end: u64,
    pub data_size: u64,
    pub capacity: u64,
    pub footprint_seq: u64,
    pub hnumber: u64,
    pub hkind: u8,
    pub hflags: u8,
    pub hready: bool,
    pub hlog2: u8,
    pub hcount: u16,
}

impl From<FlatRecord> for Record {
    ghost from_gives = { λ flat r. r ≡ record_from flat };

    fn from(flat: FlatRecord) -> Record {
        let bytes = flat.name;
        let len = flat.name_len;
        Record {
            number: flat.number,
            tag: flat.tag,
            name: Name { bytes, len },
            entry: Entry {
                kind: kind_of(flat.kind),
                flags: flat.flags,
                extent_count: flat.extent_count,
                header_a: flat.header_a,
                header_b: flat.header_b,
                span_start: flat.span_start,
                span_end: flat.span_end,
                data_size: flat.data_size,
                capacity: flat.capacity,
                footprint_seq: flat.footprint_seq,
            },
            header: Header {
                region_id: flat.hnumber,
                kind: kind_of(flat.hkind),
                flags: flat.hflags,
                ready: flat.hready,
                log2_block: flat.hlog2,
                extent_count: flat.hcount,
            },
        }
    }
}

// Up to 64 records, as many as open takes; those behind them are blank.
pub(crate) fn records_from(flat: &[FlatRecord]) -> [Record; 64]
    ensures { length flat.now ≤ 64 → take (length flat.now) result ≡ records_from flat.now }
{
    let mut records = [Record::blank(); 64];
    turn(flat, &mut records);
    records
}

impl From<Record> for FlatRecord {
    ghost from_gives = { λ filed r. r ≡ flat_record filed };

    fn from(filed: Record) -> FlatRecord {
        let Name { bytes, len } = filed.name;
        let entry = filed.entry;
        let header = filed.header;
        FlatRecord {
            number: filed.number,
            tag: filed.tag,
            name: bytes,
            name_len: len,
            kind: entry.kind.code(),
            flags: entry.flags,
            extent_count: entry.extent_count,
            header_a: entry.header_a,
            header_b: entry.header_b,
            span_start: entry.span_start,
            span_end: entry.span_end,
            data_size: entry.data_size,
            capacity: entry.capacity,
            footprint_seq: entry.footprint_seq,
            hnumber: header.region_id,
            hkind: header.kind.code(),
            hflags: header.flags,
            hready: header.ready,
            hlog2: header.log2_block,
            hcount: header.extent_count,
        }
    }
}
