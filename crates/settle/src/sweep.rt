// Which regions have a range that meets one of an equal or higher rank, by one pass over the ranges
// in the order of their starts and one back.
ghost use Rattle.std.specs.Prelude.{◌≡◌, ◌<◌, ◌≤◌, length, get_or};
ghost use Rattle.numbers.specs.Pairs.{pairs};
ghost use Rattle.settle.specs.Inner.{Tree};
ghost use Rattle.settle.specs.Sweeping.{items_of, mirror, walk, no_item, Arrived, Ready, Swept};

use crate::table::Table;
use sort::pair::pair_at;

// A range on the way: where it starts, where it ends, and the place of its record.
#[derive(Clone, Copy)]
pub struct Item {
    pub start: u64,
    pub end: u64,
    pub owner: usize,
}

impl Item {
    // The same range where the byte b counts as 2^64 - 1 - b, so that it starts where it ended.
    fn mirror(self) -> Item
        ensures { result ≡ mirror self }
    {
        Item {
            start: u64::MAX - self.end,
            end: u64::MAX - self.start,
            owner: self.owner,
        }
    }
}

// The ranges in the order of their starts: each start with the place of its end and its record.
#[derive(Clone, Copy)]
pub struct Way<'a> {
    pub order: &'a [u64],
    pub facts: &'a [u64],
}

impl Way<'_> {
    // The range t in the order of the starts.
    fn read(self, t: usize) -> Item
        requires { t < length (pairs self.order.now) }
        ensures { result ≡ get_or (items_of (pairs self.entry.order.now) (pairs self.entry.facts.now)) t no_item }
    {
        let next = pair_at(self.order, t);
        let fact = pair_at(self.facts, next.right as usize);
        Item {
            start: next.left,
            end: fact.left,
            owner: fact.right as usize,
        }
    }

    // The range t on the way, forward or back.
    fn next(self, t: usize, back: bool) -> Item
        requires { t < length (pairs self.order.now) }
        ensures { result ≡ get_or (walk back (items_of (pairs self.entry.order.now) (pairs self.entry.facts.now))) t no_item }
    {
        if back {
            return self.read(self.order.len() / 2 - 1 - t).mirror();
        }
        self.read(t)
    }
}

// The regions found: which usable ones are overlapped, and which superseded.
#[derive(Clone, Copy)]
pub struct Found {
    pub over: [bool; 1024],
    pub under: [bool; 1024],
}

// What has been met on the way: the greatest end at each rank, of usable ranges and of unavailable ones.
#[derive(Drop)]
pub struct Met {
    pub(crate) usable: Table,
    pub(crate) unavailable: Table,
}

impl Met {
    // The range x of a rank arrives: those that still last where it starts strike it, and it may strike
    // later ones. A region that is marked is not asked for again.
    fn arrive(&mut self, x: Item, rank: usize, usable: usize, found: &mut Found)
        requires { (rank < 2048) × (usable ≤ 1024) }
        ensures { Arrived x usable rank self.old.usable self.new.usable self.old.unavailable self.new.unavailable found.old.over found.new.over found.old.under found.new.under }
    {
        if x.start >= x.end {
            return;
        }
        if x.owner >= usable {
            self.unavailable.raise(rank, x.end);
            return;
        }
        let i = x.owner;
        found.over[i] = found.over[i] || self.usable.from(rank, x.start);
        found.under[i] = found.under[i] || self.unavailable.above(rank, x.start);
        self.usable.raise(rank, x.end);
    }
}

// One pass: marks those that a usable range of equal or higher rank strikes, and those that an
// unavailable range of higher rank strikes. A flag says which way, and no closure, so that one proof
// reads the way both times.
pub(crate) fn sweep(way: Way<'_>, back: bool, usable: usize, ranks: &[usize], found: &mut Found)
    requires { Ready (pairs way.order.now) (pairs way.facts.now) usable ranks.now }
    ensures { Swept (walk back (items_of (pairs way.entry.order.now) (pairs way.entry.facts.now))) usable ranks.now found.old.over found.new.over found.old.under found.new.under }
{
    let mut met = Met {
        usable: Table::none(),
        unavailable: Table::none(),
    };
    for t in 0..way.order.len() / 2 {
        let x = way.next(t, back);
        met.arrive(x, ranks[x.owner], usable, found);
    }
}
