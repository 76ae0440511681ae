// A region that is handed out: the case's number, 8, and the region's; its record's numbers as open has
// them, its name, and its extents.
use crate::state::State;
use flat_plan::FlatRecord;
use plan_record::Record;
use sample::words::{at, first, has, nth_list, past, past_lists, same, whole};

pub(crate) fn alike(state: &State, numbers: &[u64]) -> bool {
    let plan = &state.plan;
    let due = past(numbers, 1);
    let mut out = [7u64; 120];
    // Of a number that no region has, what stands past the last region is handed out.
    let place = plan.find(at(numbers, 0)).unwrap_or(64);
    let handed = plan.region(place, &state.extents, &mut out);
    let told = FlatRecord::from(handed.unwrap_or(Record::blank()));
    let n = 2 * u64::from(told.extent_count);
    record_alike(told, due) && first(&out, n) == past_lists(due, 19, 1)
}

fn record_alike(told: FlatRecord, due: &[u64]) -> bool {
    whole(due, 19, 0, 24, 255)
        && has(due, 0, &numbers_of(told))
        && name_alike(told, nth_list(due, 19, 0))
}

fn numbers_of(told: FlatRecord) -> [u64; 19] {
    [
        told.number,
        u64::from(told.tag),
        u64::from(told.name_len),
        u64::from(told.kind),
        u64::from(told.flags),
        u64::from(told.extent_count),
        told.header_a,
        told.header_b,
        told.span_start,
        told.span_end,
        told.data_size,
        told.capacity,
        told.footprint_seq,
        told.hnumber,
        u64::from(told.hkind),
        u64::from(told.hflags),
        u64::from(told.hready),
        u64::from(told.hlog2),
        u64::from(told.hcount),
    ]
}

// Whether the name's bytes are these; what stands behind them is no part of it.
fn name_alike(told: FlatRecord, due: &[u64]) -> bool {
    let name = told.name;
    name.get(..usize::from(told.name_len))
        .is_some_and(|name| same(name, due))
}
