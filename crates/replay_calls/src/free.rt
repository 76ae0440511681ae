// The free map's calls, on one map with its list of gaps. A call: its number, three arguments, how
// many slots are lent for gaps, and a list of ranges; three numbers, of which the first is the refusal,
// the ranges after the call, and the gaps that it wrote.
use freemap::FreeMap;
use numbers::{Refusal, number_in};
use sample::words::{at, converted, front, has, kept, list, past, past_list, whole};

#[derive(Clone, Copy, PartialEq, Eq)]
enum Kind {
    Complement,
    FirstFit,
    FreeBytes,
}

impl TryFrom<u64> for Kind {
    type Error = ();

    fn try_from(number: u64) -> Result<Kind, ()> {
        match number {
            1 => Ok(Kind::Complement),
            2 => Ok(Kind::FirstFit),
            3 => Ok(Kind::FreeBytes),
            _ => Err(()),
        }
    }
}

#[derive(Clone, Copy)]
struct Call<'a> {
    kind: Kind,
    a: u64,
    b: u64,
    c: u64,
    slots: u64,
    ranges: &'a [u64],
    due: &'a [u64],
    known: bool,
}

// The call, where it is one of the three. It is known where there are as many slots and ranges as it says; one that is not
// is made all the same: what follows it is asked of the map that it leaves.
fn read(call: &[u64]) -> Option<Call<'_>> {
    let lists = past(call, 5);
    Some(Call {
        kind: Kind::try_from(at(call, 0)).ok()?,
        a: at(call, 1),
        b: at(call, 2),
        c: at(call, 3),
        slots: at(call, 4),
        ranges: list(lists),
        due: past_list(lists),
        known: at(call, 4) <= 64 && whole(lists, 0, 0, 64, u64::MAX),
    })
}

#[derive(Clone, Copy)]
pub(crate) struct FreeState {
    map: FreeMap,
    gaps: [u64; 64],
}

impl FreeState {
    // The state before the first call.
    pub(crate) fn new() -> FreeState {
        FreeState {
            map: FreeMap { count: 0, tail: 0 },
            gaps: [7; 64],
        }
    }

    // The state after a call; answers whether the call was answered alike.
    pub(crate) fn replay(&mut self, call: &[u64]) -> bool {
        let Some(call) = read(call) else {
            return false;
        };
        let before = *self;
        let mut room = [0u64; 64];
        let ranges = converted(call.ranges, &mut room);
        let answer = answered(call, before.map, ranges, front(&mut self.gaps, call.slots));
        self.map = answer.map;
        alike(call, answer, before, *self, ranges)
    }
}

// A call's answer, the two numbers told with it, and the map after it.
#[derive(Clone, Copy)]
struct FreeAnswer {
    told: Result<(), Refusal>,
    numbers: [u64; 2],
    map: FreeMap,
}

// A map's two numbers.
fn complemented(map: FreeMap, answer: Result<FreeMap, Refusal>) -> FreeAnswer {
    let map = answer.unwrap_or(map);
    FreeAnswer {
        told: answer.map(|_| ()),
        numbers: [map.count as u64, map.tail()],
        map,
    }
}

// Whether there is a place, and the place.
fn fitted(map: FreeMap, answer: Result<Option<u64>, Refusal>) -> FreeAnswer {
    let place = answer.unwrap_or(None);
    FreeAnswer {
        told: answer.map(|_| ()),
        numbers: [place.is_some() as u64, place.unwrap_or(0)],
        map,
    }
}

fn summed(map: FreeMap, answer: Result<u64, Refusal>) -> FreeAnswer {
    FreeAnswer {
        told: answer.map(|_| ()),
        numbers: [answer.unwrap_or(0), 0],
        map,
    }
}

// What ours answers; ranges and gaps are lent as the call says.
fn answered(call: Call, map: FreeMap, ranges: &mut [u64], gaps: &mut [u64]) -> FreeAnswer {
    match call.kind {
        Kind::Complement => { complemented(map, FreeMap::complement(call.a, call.b, ranges, gaps)) }
        Kind::FirstFit => fitted(map, map.first_fit(gaps, call.a, call.b, call.c)),
        Kind::FreeBytes => summed(map, map.free_bytes(gaps)),
    }
}

// Given the ranges after the call.
fn alike(
    call: Call,
    answer: FreeAnswer,
    before: FreeState,
    after: FreeState,
    ranges: &[u64],
) -> bool {
    let due = call.due;
    let gaps = past(past(due, 3), ranges.len() as u64);
    call.known
        && has(due, 0, &[number_in(answer.told)])
        && has(due, 1, &answer.numbers)
        && has(due, 3, ranges)
        && gaps_alike(written(call, answer), gaps, before, after)
}

// Whether the gaps written are those that the call says, and all slots behind them are as before.
fn gaps_alike(count: u64, gaps: &[u64], before: FreeState, after: FreeState) -> bool {
    let n = gaps.len() as u64;
    n % 2 == 0
        && n / 2 == count
        && has(&after.gaps, 0, gaps)
        && kept(&before.gaps, &after.gaps, 0, n)
}

// How many gaps a call writes.
fn written(call: Call, answer: FreeAnswer) -> u64 {
    if call.kind == Kind::Complement && answer.told.is_ok() {
        return answer.map.count as u64;
    }
    0
}
