// The accounts' calls, on one record. A call: its number, four arguments, of which the first is a tag,
// and three lists (tags, and two more); the refusal, whether it is so and a value; how many rows there
// then are and the bytes reserved; the tag's row; and for the call that asks for them all rows.
ghost use Rattle.std.specs.Prelude.{◌<◌};

use accounting::{Accounting, Asked, Posted};
use numbers::{Refusal, number_in};
use sample::Number;
use sample::words::{at, converted, has, nth_list, past, past_lists, whole};
use tagspace::{TagSpace, extent_len};

#[derive(Clone, Copy, PartialEq, Eq)]
enum Kind {
    Empty,
    FromUsage,
    FromEntries,
    AddUsage,
    RemoveUsage,
    Add,
    Remove,
    Fits,
    Reserve,
    Unreserve,
    SetCap,
    Rows,
    ExtentLen,
}

impl TryFrom<u64> for Kind {
    type Error = ();

    fn try_from(number: u64) -> Result<Kind, ()> {
        match number {
            1 => Ok(Kind::Empty),
            2 => Ok(Kind::FromUsage),
            3 => Ok(Kind::FromEntries),
            4 => Ok(Kind::AddUsage),
            5 => Ok(Kind::RemoveUsage),
            6 => Ok(Kind::Add),
            7 => Ok(Kind::Remove),
            8 => Ok(Kind::Fits),
            9 => Ok(Kind::Reserve),
            10 => Ok(Kind::Unreserve),
            11 => Ok(Kind::SetCap),
            12 => Ok(Kind::Rows),
            13 => Ok(Kind::ExtentLen),
            _ => Err(()),
        }
    }
}

#[derive(Clone, Copy)]
struct Call<'a> {
    kind: Kind,
    tag: u32,
    a: u64,
    b: u64,
    c: u64,
    tags: &'a [u64],
    second: &'a [u64],
    third: &'a [u64],
    due: &'a [u64],
    known: bool,
}

// The call. One that is not known is made all the same, with its numbers cut, and of a cap where it is none of the
// thirteen: what follows it is asked of the accounts that it leaves.
fn read(call: &[u64]) -> Call<'_> {
    let lists = past(call, 5);
    Call {
        kind: Kind::try_from(at(call, 0)).unwrap_or(Kind::SetCap),
        tag: u32::of(at(call, 1)),
        a: at(call, 2),
        b: at(call, 3),
        c: at(call, 4),
        tags: nth_list(lists, 0, 0),
        second: nth_list(lists, 0, 1),
        third: nth_list(lists, 0, 2),
        due: past_lists(lists, 0, 3),
        known: Kind::try_from(at(call, 0)).is_ok_and(|kind| known(kind, call)),
    }
}

// Whether a call's tags are tags, its states are bytes, there is room for both, and a cap is one or none.
fn known(kind: Kind, call: &[u64]) -> bool {
    u32::try_from(at(call, 1)).is_ok()
        && whole(call, 5, 0, 128, 0xffff_ffff)
        && (kind != Kind::FromEntries || whole(call, 5, 2, 128, 255))
        && (kind != Kind::SetCap || at(call, 2) <= 1)
}

// The accounts after a call; answers whether the call was answered alike.
pub(crate) fn replay(accounts: &mut Accounting, call: &[u64]) -> bool {
    let call = read(call);
    let row = accounts.row(call.tag);
    let answer = answered(call, *accounts);
    *accounts = answer.accounts;
    call.known && alike(call, answer) && alone_alike(call, row, answer.told.is_ok())
}

// A call's answer, with a value where it is so, and the accounts after it.
#[derive(Clone, Copy)]
struct Answer {
    told: Result<Option<u64>, Refusal>,
    accounts: Accounting,
}

fn given(accounts: Accounting, value: Option<u64>) -> Answer {
    Answer {
        told: Ok(value),
        accounts,
    }
}

impl From<Posted> for Answer {
    fn from(posted: Posted) -> Answer {
        Answer {
            told: posted.answer.map(|()| None),
            accounts: posted.accounts,
        }
    }
}

// Where it fits, the value is 0.
impl From<Asked> for Answer {
    fn from(asked: Asked) -> Answer {
        Answer {
            told: asked.answer.map(|fits| fits.then_some(0)),
            accounts: asked.accounts,
        }
    }
}

// Where a list is refused, the accounts stay what they were.
fn made(before: Accounting, posted: Posted) -> Answer {
    let answer = Answer::from(posted);
    if answer.told.is_ok() {
        return answer;
    }
    Answer {
        accounts: before,
        ..answer
    }
}

// What a posting, or else a cap, makes of the accounts. Not in `answered`: it would clear room for each arm's answer at
// every call, 4.6 KB each.
fn changed(call: Call, accounts: Accounting) -> Posted {
    let Call { tag, a, b, .. } = call;
    match call.kind {
        Kind::AddUsage => accounts.add_usage(tag, a, b),
        Kind::RemoveUsage => accounts.remove_usage(tag, a, b),
        Kind::Add => accounts.add(tag, a, b),
        Kind::Remove => accounts.remove(tag, a, b),
        Kind::Reserve => accounts.reserve(tag, a),
        Kind::Unreserve => accounts.unreserve(tag, a),
        _ => accounts.set_cap(tag, (a != 0).then_some(b)),
    }
}

// What ours answers.
fn answered(call: Call, accounts: Accounting) -> Answer {
    let Call { tag, a, b, .. } = call;
    match call.kind {
        Kind::Empty => given(Accounting::empty(), None),
        Kind::FromUsage => made(accounts, usages_in(call)),
        Kind::FromEntries => made(accounts, entries_in(call)),
        Kind::Fits => accounts.fits(tag, a).into(),
        Kind::Rows => given(accounts, None),
        Kind::ExtentLen => given(accounts, extent_len(a, b)),
        Kind::AddUsage
        | Kind::RemoveUsage
        | Kind::Add
        | Kind::Remove
        | Kind::Reserve
        | Kind::Unreserve
        | Kind::SetCap => changed(call, accounts).into(),
    }
}

// The accounts of usages: tags, data bytes, occupied bytes.
fn usages_in(call: Call) -> Posted {
    let mut room = [0u32; 128];
    let tags = converted(call.tags, &mut room);
    Accounting::from_usage(tags, call.second, call.third)
}

// The accounts of entries: tags, data sizes, states.
fn entries_in(call: Call) -> Posted {
    let mut room = [0u32; 128];
    let mut states_room = [0u8; 128];
    let tags = converted(call.tags, &mut room);
    let states = converted(call.third, &mut states_room);
    Accounting::from_entries(states, tags, call.second, call.c)
}

fn alike(call: Call, answer: Answer) -> bool {
    let accounts = answer.accounts;
    let due = call.due;
    numbers_alike(answer, due)
        && row_alike(accounts.row(call.tag), due, 5)
        && rows_alike(call.kind == Kind::Rows, accounts, due)
}

// Whether a posting of one usage on the row of before, by itself, leaves the same row.
fn alone_alike(call: Call, mut row: TagSpace, accepted: bool) -> bool {
    match call.kind {
        Kind::AddUsage => row.count_usage(call.a, call.b),
        Kind::RemoveUsage => row.uncount_usage(call.a, call.b),
        _ => return true,
    }
    !accepted || row_alike(row, call.due, 5)
}

// The refusal, whether it is so, the value, how many rows there are and the bytes reserved.
fn numbers_alike(answer: Answer, due: &[u64]) -> bool {
    let accounts = answer.accounts;
    let value = answer.told.unwrap_or(None);
    let count = accounts.count as u64;
    has(
        due,
        0,
        &[
            number_in(answer.told),
            value.is_some() as u64,
            value.unwrap_or(0),
            count,
            accounts.reserved(),
        ],
    )
}

// Whether a row's numbers stand at a place: its tag, whether it has a cap, its three numbers, the cap.
fn row_alike(row: TagSpace, due: &[u64], from: u64) -> bool {
    let cap = row.cap;
    has(
        due,
        from,
        &[
            row.tag as u64,
            cap.is_some() as u64,
            row.logical,
            row.physical,
            row.reserved,
            cap.unwrap_or(0),
        ],
    )
}

// Whether all rows follow, where the call asks for them, and else nothing.
fn rows_alike(all: bool, accounts: Accounting, due: &[u64]) -> bool {
    let rows = past(due, 11);
    let n = rows.len() as u64;
    if !all {
        return n == 0;
    }
    n % 6 == 0 && n / 6 == accounts.count as u64 && each_alike(accounts, rows)
}

// Whether the rows in tag order are these, and blank behind them.
fn each_alike(accounts: Accounting, due: &[u64]) -> bool {
    (0..98).all(|i| place_alike(accounts, due, i))
}

fn place_alike(accounts: Accounting, due: &[u64], i: usize) -> bool {
    let row = accounts.row_at(i);
    let rows = due.as_chunks::<6>().0;
    row_alike(row, rows.get(i).unwrap_or(&[0; 6]), 0)
}
