// The region map's calls, on one map with its lists of starts and files. A call: its number, two
// arguments, how many places of starts and files are lent, and a list; refusal, value, the map's five
// numbers, and the last run's start and file. The lookup among run records is lent the list's runs, each its
// file offset and length.
use numbers::{Refusal, number_in};
use regionmap::{RegionMap, locate_among};
use runs::Run;
use sample::words::{at, front, has, kept, list, past, past_list};

#[derive(Clone, Copy, PartialEq, Eq)]
enum Kind {
    FromExtents,
    WithRoom,
    PublishLen,
    Extend,
    Locate,
    Runs,
    LocateAmong,
}

impl TryFrom<u64> for Kind {
    type Error = ();

    fn try_from(number: u64) -> Result<Kind, ()> {
        match number {
            1 => Ok(Kind::FromExtents),
            2 => Ok(Kind::WithRoom),
            3 => Ok(Kind::PublishLen),
            4 => Ok(Kind::Extend),
            5 => Ok(Kind::Locate),
            6 => Ok(Kind::Runs),
            7 => Ok(Kind::LocateAmong),
            _ => Err(()),
        }
    }
}

#[derive(Clone, Copy)]
struct Call<'a> {
    kind: Kind,
    a: u64,
    b: u64,
    places: u64,
    list: &'a [u64],
    due: &'a [u64],
    known: bool,
}

// The call. One that is not known is made all the same, as an extension where it is none of the seven: what follows it is
// asked of the map that it leaves.
fn read(call: &[u64]) -> Call<'_> {
    let lists = past(call, 4);
    Call {
        kind: Kind::try_from(at(call, 0)).unwrap_or(Kind::Extend),
        a: at(call, 1),
        b: at(call, 2),
        places: at(call, 3),
        list: list(lists),
        due: past_list(lists),
        known: known(call),
    }
}

// Whether a call is one of the seven, and is lent no more places than there are.
fn known(call: &[u64]) -> bool {
    Kind::try_from(at(call, 0)).is_ok_and(|kind| kind != Kind::Runs || at(call, 1) <= 160)
        && at(call, 3) <= 64
}

#[derive(Clone, Copy)]
pub(crate) struct RegionState {
    map: RegionMap,
    starts: [u64; 64],
    files: [u64; 64],
}

impl RegionState {
    // The state before the first call.
    pub(crate) fn new() -> RegionState {
        RegionState {
            map: RegionMap {
                first: 0,
                len: 0,
                capacity: 0,
                count: 0,
                room: 0,
            },
            starts: [7; 64],
            files: [7; 64],
        }
    }

    // The state after a call; answers whether the call was answered alike.
    pub(crate) fn replay(&mut self, call: &[u64]) -> bool {
        let call = read(call);
        let before = *self;
        let mut out = [7u64; 160];
        let answer = answered(
            call,
            before.map,
            front(&mut self.starts, call.places),
            front(&mut self.files, call.places),
            front(&mut out, call.a),
        );
        self.map = answer.map;
        alike(call, answer, before, *self, &out)
    }
}

// A call's answer, of value 0 where it has none, and the map after it.
#[derive(Clone, Copy)]
struct RegionAnswer {
    told: Result<u64, Refusal>,
    map: RegionMap,
}

fn given(map: RegionMap, told: Result<u64, Refusal>) -> RegionAnswer {
    RegionAnswer { told, map }
}

fn mapped(map: RegionMap, answer: Result<RegionMap, Refusal>) -> RegionAnswer {
    RegionAnswer {
        told: answer.map(|_| 0),
        map: answer.unwrap_or(map),
    }
}

// What ours answers; starts, files and out are lent as the call says.
fn answered(
    call: Call,
    map: RegionMap,
    starts: &mut [u64],
    files: &mut [u64],
    out: &mut [u64],
) -> RegionAnswer {
    let Call { list, a, b, .. } = call;
    match call.kind {
        Kind::FromExtents => mapped(map, RegionMap::from_extents(list, a, starts, files)),
        Kind::WithRoom => mapped(map, map.with_room(a as usize, starts, files)),
        Kind::PublishLen => mapped(map, map.publish_len(a)),
        Kind::Extend => mapped(map, map.extend(a, b, starts, files)),
        Kind::Locate => given(map, map.locate(starts, files, a, b)),
        Kind::Runs => given(map, map.runs(starts, files, out).map(|n| n as u64)),
        Kind::LocateAmong => given(map, among(list, map.len, a, b)),
    }
}

// The lookup among runs.
fn among(list: &[u64], len: u64, pos: u64, n: u64) -> Result<u64, Refusal> {
    let mut room = [Run {
        start: 0,
        file: 0,
        len: 0,
    }; 80];
    locate_among(laid(list, &mut room), len, pos, n)
}

// The runs of a list end to end, as many as there is room for.
fn laid<'a>(list: &[u64], room: &'a mut [Run]) -> &'a [Run] {
    let (runs, _) = list.as_chunks::<2>();
    let fitting = runs.len().min(room.len());
    let mut start = 0u64;
    for i in 0..fitting {
        let [file, len] = runs[i];
        room[i] = Run { start, file, len };
        start = start.saturating_add(len);
    }
    &room[..fitting]
}

fn alike(
    call: Call,
    answer: RegionAnswer,
    before: RegionState,
    after: RegionState,
    out: &[u64],
) -> bool {
    call.known
        && numbers_alike(call.due, answer, after)
        && slots_kept(written_from(call, answer, before), answer, before, after)
        && (call.kind != Kind::Runs || runs_alike(call.list, answer.told.unwrap_or(0), out))
}

// Whether the nine numbers of the answer are alike.
fn numbers_alike(due: &[u64], answer: RegionAnswer, after: RegionState) -> bool {
    let map = answer.map;
    let count = map.count;
    let numbers = [
        number_in(answer.told),
        answer.told.unwrap_or(0),
        map.first,
        map.len,
        map.capacity,
        count as u64,
        map.room as u64,
        last(&after.starts, count),
        last(&after.files, count),
    ];
    due == numbers.as_slice()
}

// The last of the first count slots, 0 where count is 0.
fn last(slots: &[u64], count: usize) -> u64 {
    count.checked_sub(1).map_or(0, |i| at(slots, i))
}

// The first slot that a call writes: from_extents those of all runs after the first, any other call
// those of the runs that it adds.
fn written_from(call: Call, answer: RegionAnswer, before: RegionState) -> u64 {
    if call.kind == Kind::FromExtents && answer.told.is_ok() {
        return 0;
    }
    before.map.count as u64
}

// Whether starts and files kept all slots but those from there to the last run's.
fn slots_kept(from: u64, answer: RegionAnswer, before: RegionState, after: RegionState) -> bool {
    let to = answer.map.count as u64;
    kept(&before.starts, &after.starts, from, to) && kept(&before.files, &after.files, from, to)
}

// Whether out begins with these runs, so many, and still holds 7 behind them.
fn runs_alike(runs: &[u64], value: u64, out: &[u64]) -> bool {
    let n = runs.len() as u64;
    n % 2 == 0 && n / 2 == value && has(out, 0, runs) && kept(&[7; 160], out, 0, n)
}
