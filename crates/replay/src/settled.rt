// settle: how many usable and how many unavailable records, the length of scratch, and eleven lists (of
// each kind of records the sequence numbers, counts of ranges, ranges, lengths of names and names; the
// marks before); the refusal and the marks after.
ghost use Rattle.std.specs.Prelude.{◌<◌};

use numbers::number_in;
use sample::words::{at, converted, front, has, nth_list, past, past_lists, same, whole};
use settle::{Records, settle};

pub(crate) fn alike(call: &[u64]) -> bool {
    let mut room = [0u8; 16];
    let marks = converted(nth_list(call, 3, 10), &mut room);
    let due = past_lists(call, 3, 11);
    known(call) && has(due, 0, &[refusal(call, marks)]) && same(marks, past(due, 1))
}

// Whether there is room for scratch, the marks, the lengths of names and the names, which are bytes.
fn known(call: &[u64]) -> bool {
    at(call, 2) <= 640
        && whole(call, 3, 3, 16, 255)
        && whole(call, 3, 4, 288, 255)
        && whole(call, 3, 8, 16, 255)
        && whole(call, 3, 9, 288, 255)
        && whole(call, 3, 10, 16, 255)
}

// The records of one kind: how many, and their lists.
#[derive(Clone, Copy)]
struct Lists<'a> {
    count: usize,
    seqs: &'a [u64],
    counts: &'a [u64],
    ranges: &'a [u64],
    lens: &'a [u64],
    names: &'a [u64],
}

impl<'a> Lists<'a> {
    // The records, with the lengths of their names and the names as bytes.
    fn records(self, lens: &'a [u8], names: &'a [u8]) -> Records<'a> {
        Records {
            count: self.count,
            seqs: self.seqs,
            counts: self.counts,
            ranges: self.ranges,
            lens,
            names,
        }
    }
}

// The kind whose number stands at k, and whose first list is list 5 * k.
fn lists_at(call: &[u64], k: usize) -> Lists<'_>
    requires { k < 2 }
{
    let lists = past_lists(call, 3, 5 * k);
    Lists {
        count: at(call, k) as usize,
        seqs: nth_list(lists, 0, 0),
        counts: nth_list(lists, 0, 1),
        ranges: nth_list(lists, 0, 2),
        lens: nth_list(lists, 0, 3),
        names: nth_list(lists, 0, 4),
    }
}

// What ours answers.
fn refusal(call: &[u64], marks: &mut [u8]) -> u64 {
    let usable = lists_at(call, 0);
    let unavailable = lists_at(call, 1);
    let mut lens = [0u8; 16];
    let mut names = [0u8; 288];
    let mut own_lens = [0u8; 16];
    let mut own_names = [0u8; 288];
    let mut scratch = [7u64; 640];
    let usable = usable.records(
        converted(usable.lens, &mut lens),
        converted(usable.names, &mut names),
    );
    let unavailable = unavailable.records(
        converted(unavailable.lens, &mut own_lens),
        converted(unavailable.names, &mut own_names),
    );
    number_in(settle(usable, unavailable, marks, front(&mut scratch, at(call, 2))))
}
