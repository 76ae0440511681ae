// A region of a plan as flat numbers. Its map is five of them: the file offset of its first run, the
// data's length, the capacity, the runs after the first, and the room for them.
ghost use Rattle.std.specs.Prelude.{◌≡◌};
ghost use Rattle.flat_plan.specs.Plan.{region_from, flat_region};

use flat::kind_of;
use plan_record::Region;
use plan_record::names::Name;
use regionmap::RegionMap;

#[repr(C)]
#[derive(Clone, Copy)]
pub struct FlatRegion {
    pub number: u64,
    pub tag: u32,
    pub name: [u8; 24],
    pub name_len: u8,
    pub kind: u8,
    pub flags: u8,
    pub log2_block: u8,
    pub header_a: u64,
    pub header_b: u64,
    pub span_start: u64,
    pub span_end: u64,
    pub footprint_seq: u64,
    pub extent_count: usize,
    pub row: usize,
    pub first: u64,
    pub len: u64,
    pub capacity: u64,
    pub runs: usize,
    pub room: usize,
}

impl From<FlatRegion> for Region {
    ghost from_gives = { λ flat r. r ≡ region_from flat };

    fn from(flat: FlatRegion) -> Region {
        let bytes = flat.name;
        let len = flat.name_len;
        Region {
            number: flat.number,
            tag: flat.tag,
            name: Name { bytes, len },
            kind: kind_of(flat.kind),
            flags: flat.flags,
            log2_block: flat.log2_block,
            header_a: flat.header_a,
            header_b: flat.header_b,
            span_start: flat.span_start,
            span_end: flat.span_end,
            footprint_seq: flat.footprint_seq,
            extent_count: flat.extent_count,
            row: flat.row,
            map: RegionMap {
                first: flat.first,
                len: flat.len,
                capacity: flat.capacity,
                count: flat.runs,
                room: flat.room,
            },
        }
    }
}

impl From<Region> for FlatRegion {
    ghost from_gives = { λ region r. r ≡ flat_region region };

    fn from(region: Region) -> FlatRegion {
        let Name { bytes, len } = region.name;
        let map = region.map;
        FlatRegion {
            number: region.number,
            tag: region.tag,
            name: bytes,
            name_len: len,
            kind: region.kind.code(),
            flags: region.flags,
            log2_block: region.log2_block,
            header_a: region.header_a,
            header_b: region.header_b,
            span_start: region.span_start,
            span_end: region.span_end,
            footprint_seq: region.footprint_seq,
            extent_count: region.extent_count,
            row: region.row,
            first: map.first,
            len: map.len,
            capacity: map.capacity,
            runs: map.count,
            room: map.room,
        }
    }
}
