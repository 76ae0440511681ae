// A call on a plan: its number (2 create, 3 grow, 4 publish, 5 drop, 6 cap, 7 locate), three arguments, the
// tag whose totals are asked, how many numbers of each list are lent, and a name; then what is seen.
use crate::figures;
use crate::state::{Kind, State};
use plan_record::{Plan, Reply};
use sample::Number;
use sample::words::{at, converted, front, list, past, past_list, whole};

#[derive(Clone, Copy)]
enum Step<'a> {
    Create { id: u64, tag: u32, name: &'a [u64] },
    Grow { id: u64 },
    Publish { id: u64, len: u64 },
    Drop { id: u64 },
    Cap { tag: u32, limit: Option<u64> },
    Locate { id: u64, pos: u64, n: u64 },
}

#[derive(Clone, Copy)]
struct Call<'a> {
    step: Step<'a>,
    asked: u32,
    extents: u64,
    starts: u64,
    files: u64,
    due: &'a [u64],
    known: bool,
}

// The call. One that is not known is made all the same, with its numbers cut: what follows it is asked of the plan that
// it leaves.
fn read(kind: Kind, numbers: &[u64]) -> Option<Call<'_>> {
    Some(Call {
        step: step_in(kind, numbers)?,
        asked: u32::of(at(numbers, 3)),
        extents: at(numbers, 4),
        starts: at(numbers, 5),
        files: at(numbers, 6),
        due: past_list(past(numbers, 7)),
        known: known(kind, numbers),
    })
}

// Whether the lists have so many numbers, the tags are tags, a cap is one or none, and the name has room.
fn known(kind: Kind, numbers: &[u64]) -> bool {
    let (tag, capped) = match kind {
        Kind::Create => (at(numbers, 1), 0),
        Kind::Cap => (at(numbers, 0), at(numbers, 1)),
        _ => (0, 0),
    };
    u32::try_from(tag).is_ok()
        && capped <= 1
        && u32::try_from(at(numbers, 3)).is_ok()
        && at(numbers, 4) <= 7688
        && at(numbers, 5) <= 3848
        && at(numbers, 6) <= 3848
        && whole(numbers, 7, 0, 64, 255)
}

fn step_in(kind: Kind, numbers: &[u64]) -> Option<Step<'_>> {
    let first = at(numbers, 0);
    let second = at(numbers, 1);
    let third = at(numbers, 2);
    match kind {
        Kind::Create => Some(Step::Create {
            id: first,
            tag: u32::of(second),
            name: list(past(numbers, 7)),
        }),
        Kind::Grow => Some(Step::Grow { id: first }),
        Kind::Publish => Some(Step::Publish {
            id: first,
            len: second,
        }),
        Kind::Drop => Some(Step::Drop { id: first }),
        Kind::Cap => Some(Step::Cap {
            tag: u32::of(first),
            limit: (second == 1).then_some(third),
        }),
        Kind::Locate => Some(Step::Locate {
            id: first,
            pos: second,
            n: third,
        }),
        Kind::Open | Kind::Region => None,
    }
}

// The state after a call; answers whether it was answered alike.
pub(crate) fn replay(state: &mut State, kind: Kind, numbers: &[u64]) -> bool {
    let Some(call) = read(kind, numbers) else {
        return false;
    };
    let reply = answered(
        &mut state.plan,
        call.step,
        front(&mut state.extents, call.extents),
        front(&mut state.starts, call.starts),
        front(&mut state.files, call.files),
    );
    call.known && figures::alike(&state.plan, reply, call.asked, call.due)
}

// What ours answers; the lists are lent as the call says.
fn answered(
    plan: &mut Plan,
    step: Step,
    extents: &mut [u64],
    starts: &mut [u64],
    files: &mut [u64],
) -> Reply {
    match step {
        Step::Create { id, tag, name } => {
            let mut room = [0u8; 64];
            let name = converted(name, &mut room);
            plan::create(plan, extents, starts, files, id, tag, name)
        }
        Step::Grow { id } => plan::grow(plan, extents, starts, files, id),
        Step::Publish { id, len } => plan::publish(plan, id, len),
        Step::Drop { id } => plan::drop(plan, extents, starts, files, id),
        Step::Cap { tag, limit } => plan::cap(plan, tag, limit),
        Step::Locate { id, pos, n } => plan::locate(plan, starts, files, id, pos, n),
    }
}
