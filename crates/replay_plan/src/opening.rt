// An open: its number, 1, the container's limits, the tag whose totals are asked, how many numbers of
// scratch and of each list are lent, how many records there are, the headers' extents, and the records;
// then what is seen. A record: its number and tag, its name's length, its entry and its header in order,
// and 24 bytes for the name.
use crate::figures;
use crate::state::State;
use flat_plan::FlatRecord;
use footprint::Limits;
use plan_open::Opening;
use plan_record::{Outcome, Record};
use sample::Number;
use sample::words::{at, converted, front, list, nth_list, past, past_lists, whole};
use std::array;

#[derive(Clone, Copy)]
struct OpenCase<'a> {
    limits: Limits,
    asked: u32,
    scratch: u64,
    extents: u64,
    starts: u64,
    files: u64,
    count: u64,
    listed: &'a [u64],
    records: &'a [u64],
    due: &'a [u64],
    known: bool,
}

// The open. One that is not known is made all the same, with its numbers cut: what follows it is asked of the plan that
// it leaves.
fn read(numbers: &[u64]) -> OpenCase<'_> {
    let lists = past(numbers, 9);
    OpenCase {
        limits: Limits {
            log2_block: u8::of(at(numbers, 0)),
            table_end: at(numbers, 1),
            file_len: at(numbers, 2),
        },
        asked: u32::of(at(numbers, 3)),
        scratch: at(numbers, 4),
        extents: at(numbers, 5),
        starts: at(numbers, 6),
        files: at(numbers, 7),
        count: at(numbers, 8),
        listed: list(lists),
        records: nth_list(lists, 0, 1),
        due: past_lists(lists, 0, 2),
        known: known(numbers),
    }
}

// Whether the lists have so many numbers, and all records are there.
fn known(numbers: &[u64]) -> bool {
    u8::try_from(at(numbers, 0)).is_ok()
        && u32::try_from(at(numbers, 3)).is_ok()
        && at(numbers, 4) <= 8192
        && at(numbers, 5) <= 7688
        && at(numbers, 6) <= 3848
        && at(numbers, 7) <= 3848
        && whole(numbers, 9, 0, 20000, u64::MAX)
        && whole(numbers, 9, 1, 2752, u64::MAX)
        && nth_list(numbers, 9, 1).len() as u64 == 43 * at(numbers, 8).min(64)
}

// The state after an open; answers whether it was answered alike.
pub(crate) fn replay(state: &mut State, numbers: &[u64]) -> bool {
    let case = read(numbers);
    let mut scratch = scratch_room();
    let outcome = answered(
        case,
        front(&mut scratch, case.scratch),
        front(&mut state.extents, case.extents),
        front(&mut state.starts, case.starts),
        front(&mut state.files, case.files),
    );
    // A refused open leaves the plan that there was.
    if outcome.reply.is_ok() {
        state.plan = outcome.plan;
    }
    case.known && figures::alike(&state.plan, outcome.reply, case.asked, case.due)
}

fn scratch_room() -> [u64; 8192] {
    [7; 8192]
}

fn answered(
    case: OpenCase,
    scratch: &mut [u64],
    extents: &mut [u64],
    starts: &mut [u64],
    files: &mut [u64],
) -> Outcome {
    // A count above 64 is one of more than 64 records.
    let records = records_in(case.records);
    let many = [Record::blank(); 65];
    let opening = Opening {
        limits: case.limits,
        records: records.get(..case.count as usize).unwrap_or(&many),
        listed: case.listed,
    };
    plan_open::open(opening, scratch, extents, starts, files)
}

// Numbers that are not there count as 0.
fn records_in(numbers: &[u64]) -> [Record; 64] {
    array::from_fn(|i| {
        let mut own = [0u64; 43];
        converted(past(numbers, 43 * i as u64), &mut own);
        record_in(&own).into()
    })
}

// The record that the numbers say.
fn record_in(numbers: &[u64; 43]) -> FlatRecord {
    let mut name = [0u8; 24];
    converted(&numbers[19..], &mut name);
    FlatRecord {
        number: numbers[0],
        tag: u32::of(numbers[1]),
        name,
        name_len: u8::of(numbers[2]),
        kind: u8::of(numbers[3]),
        flags: u8::of(numbers[4]),
        extent_count: u16::of(numbers[5]),
        header_a: numbers[6],
        header_b: numbers[7],
        span_start: numbers[8],
        span_end: numbers[9],
        data_size: numbers[10],
        capacity: numbers[11],
        footprint_seq: numbers[12],
        hnumber: numbers[13],
        hkind: u8::of(numbers[14]),
        hflags: u8::of(numbers[15]),
        hready: numbers[16] == 1,
        hlog2: u8::of(numbers[17]),
        hcount: u16::of(numbers[18]),
    }
}
