// The plan's record: its regions, each with the row of the lent lists that it owns, and the accounts.
#![tactic(auto)]

pub mod figures;
mod footprints;
mod handing;
pub mod names;
pub mod room;
mod search;

ghost use Rattle.std.specs.Prelude.{IfSome, ◌≡◌, ◌<◌, ◌≤◌, length};
ghost use Rattle.plan_record.specs.Plan.{regions_of, place_in, blank_region, blank_plan};

use accounting::Accounting;
use footprint::{Entry, Header, Limits, RegionKind};
use names::Name;
use numbers::Refusal;
use regionmap::RegionMap;

// A region as its table entry and its header have it, of which open takes up to 64.
#[derive(Clone, Copy)]
pub struct Record {
    pub number: u64,
    pub tag: u32,
    pub name: Name,
    pub entry: Entry,
    pub header: Header,
}

// A region of the plan. Its extents, and the runs of its map after the first, stand in the row of the
// lent lists that it names.
#[derive(Clone, Copy)]
pub struct Region {
    pub number: u64,
    pub tag: u32,
    pub name: Name,
    pub kind: RegionKind,
    pub flags: u8,
    pub log2_block: u8,
    pub header_a: u64,
    pub header_b: u64,
    pub span_start: u64,
    pub span_end: u64,
    pub footprint_seq: u64,
    pub extent_count: usize,
    pub row: usize,
    pub map: RegionMap,
}

// The plan, with lists that its holder lends to each call.
#[derive(Clone, Copy)]
pub struct Plan {
    pub limits: Limits,
    // The last sequence number.
    pub last: u64,
    // How many regions there are. The others name the rows that are free. There is no heap, so the regions
    // are an array with a count.
    pub count: usize,
    pub regions: [Region; 64],
    pub accounts: Accounting,
}

// What a call answers: the byte that it places or locates, or None where it is done without one.
pub type Reply = Result<Option<u64>, Refusal>;

// The answer of a call that may change the plan, and the plan as it left it, which a refused call hands back
// too.
#[derive(Clone, Copy)]
pub struct Outcome {
    pub reply: Reply,
    pub plan: Plan,
}

impl Region {
    // No region, in a row.
    pub fn blank(row: usize) -> Region
        ensures { result ≡ blank_region row }
    {
        Region {
            number: 0,
            tag: 0,
            name: Name::none(),
            kind: RegionKind::Append,
            flags: 0,
            log2_block: 0,
            header_a: 0,
            header_b: 0,
            span_start: 0,
            span_end: 0,
            footprint_seq: 0,
            extent_count: 0,
            row,
            map: RegionMap {
                first: 0,
                len: 0,
                capacity: 0,
                count: 0,
                room: 0,
            },
        }
    }
}

impl Plan {
    // The plan of no container.
    pub fn blank() -> Plan
        ensures { result ≡ blank_plan }
    {
        let blank = Region::blank(0);
        Plan {
            limits: Limits {
                log2_block: 0,
                table_end: 0,
                file_len: 0,
            },
            last: 0,
            count: 0,
            regions: [blank; 64],
            accounts: Accounting::empty(),
        }
    }

    // How many regions a loop goes over: on a record that no call handed back the count may pass 64.
    pub fn counted(&self) -> usize
        ensures { (result ≡ length (regions_of self.now)) × (result ≤ 64) }
    {
        self.count.min(64)
    }

    // The place of the region with the number. Callers that are lent a plan learn here how long its array is.
    pub fn find(&self, id: u64) -> Option<usize>
        ensures place { result ≡ place_in self.now id }
        ensures below { IfSome result (λ i. i < 64) }
        ensures full { length self.now.regions ≡ 64 }
    {
        self.regions
            .iter()
            .take(self.count)
            .position(|region| region.number == id)
    }
}
