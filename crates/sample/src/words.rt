// Reading a list of numbers that may be shorter than it says.
ghost use Rattle.std.specs.Prelude.{◌≡◌, ◌-◌, ◌≤◌, min, length, map, get_or, take, drop};
ghost use Rattle.numbers.specs.Lists.{same};
ghost use Rattle.sample.specs.Words.{list_of, past_list, past_lists, up_to, is_whole, same_outside};

use crate::Number;

// The number at place i, 0 where there is none.
pub fn at(w: &[u64], i: usize) -> u64
    ensures { result ≡ get_or w.now i 0 }
{
    w.get(i).copied().unwrap_or(0)
}

// The first n numbers, or all where there are fewer.
pub fn first(w: &[u64], n: u64) -> &[u64]
    ensures { result.now ≡ take n w.now }
{
    let end = w.len().min(n as usize);
    &w[..end]
}

// The first n slots, or all where there are fewer, to be written to.
pub fn front(slots: &mut [u64], n: u64) -> &mut [u64]
    ensures first_slots { result.now ≡ take n slots.old }
    ensures in_place { result.ref_ptr ≡ slots.entry.ref_ptr }
{
    let end = slots.len().min(n as usize);
    &mut slots[..end]
}

// What follows the first n numbers.
pub fn past(w: &[u64], n: u64) -> &[u64]
    ensures behind { result.now ≡ drop n w.now }
    ensures shorter { length result.now ≤ length w.now - n }
{
    let from = w.len().min(n as usize);
    &w[from..]
}

// The list that w begins with: its length, and so many numbers.
pub fn list(w: &[u64]) -> &[u64]
    ensures { result.now ≡ list_of w.now }
{
    first(past(w, 1), at(w, 0))
}

// What follows the list that w begins with.
pub fn past_list(w: &[u64]) -> &[u64]
    ensures behind { result.now ≡ past_list w.now }
    ensures shorter { length result.now ≤ length w.now - 1 }
{
    past(past(w, 1), at(w, 0))
}

// What follows n lists, the first of which begins at a place.
#[tactic(auto, unfolding(crate::specs::Words::past_lists))]
pub fn past_lists(w: &[u64], from: u64, n: usize) -> &[u64]
    ensures { result.now ≡ past_lists n (drop from w.now) }
{
    let mut rest = past(w, from);
    for _ in 0..n {
        rest = past_list(rest);
    }
    rest
}

// List k of them, counted from 0.
pub fn nth_list(w: &[u64], from: u64, k: usize) -> &[u64]
    ensures { result.now ≡ list_of (past_lists k (drop from w.now)) }
{
    list(past_lists(w, from, k))
}

// Whether list k of them is whole, and has at most so many numbers, each at most top.
pub fn whole(w: &[u64], from: u64, k: usize, most: u64, top: u64) -> bool
    ensures { result ≡ is_whole most top (past_lists k (drop from w.now)) }
{
    let lists = past_lists(w, from, k);
    let n = at(lists, 0);
    n < lists.len() as u64 && n <= most && up_to(list(lists), top)
}

// Whether the items are the numbers.
pub fn same<T: Number>(items: &[T], numbers: &[u64]) -> bool
    ensures { result ≡ same (map T.number items.now) numbers.now }
{
    items.len() == numbers.len() && items.iter().zip(numbers).all(|(x, n)| x.number() == *n)
}

// Whether w has these numbers from a place on.
#[tactic(auto, using(numbers::proofs::Lists::pointwise_same))]
pub fn has(w: &[u64], from: u64, numbers: &[u64]) -> bool
    ensures { result ≡ same (take (length numbers.now) (drop from w.now)) numbers.now }
{
    first(past(w, from), numbers.len() as u64) == numbers
}

// Whether w has these numbers from a place on, and nothing behind them.
#[tactic(auto, using(numbers::proofs::Lists::pointwise_same))]
pub fn ends(w: &[u64], from: u64, numbers: &[u64]) -> bool
    ensures { result ≡ same (drop from w.now) numbers.now }
{
    past(w, from) == numbers
}

// Whether all slots are the same but those from `from` to `to`.
#[tactic(auto, using(numbers::proofs::Lists::pointwise_same))]
pub fn kept(before: &[u64], after: &[u64], from: u64, to: u64) -> bool
    ensures { result ≡ same_outside from to before.now after.now }
{
    first(before, from) == first(after, from) && past(before, to) == past(after, to)
}

// Whether each number is at most top.
fn up_to(numbers: &[u64], top: u64) -> bool
    ensures { result ≡ up_to top numbers.now }
{
    numbers.iter().all(|n| *n <= top)
}

// Reads the numbers, as many as there is room for, and hands back what they are read as.
pub fn converted<'a, T: Number>(numbers: &[u64], room: &'a mut [T]) -> &'a mut [T]
    ensures numbers_read { result.now ≡ map T.read_as (take (length room.old) numbers.now) }
    ensures in_place { result.ref_ptr ≡ room.entry.ref_ptr }
{
    let fitting = first(numbers, room.len() as u64);
    // No zip: of slots that are written through one the prover knows nothing.
    for (i, number) in fitting.iter().enumerate() {
        room[i] = T::of(*number);
    }
    let end = fitting.len();
    &mut room[..end]
}
