// A table of the greatest number put in at each rank, as a tree: the leaf of a rank stands at
// 4,096 + rank, and the node n above the nodes 16n to 16n + 15, with the greatest of their numbers.
ghost use Rattle.std.specs.Prelude.{ℕ, List, ◌≡◌, ◌+◌, ◌<◌, ltb};
ghost use lib.ListN.{replicate};
ghost use Rattle.std.specs.List.{list_any};
ghost use Rattle.settle.specs.Inner.{Tree, Raised, reach};

use std::marker::Model;

#[derive(Drop)]
pub(crate) struct Table {
    slots: [u64; 6144],
}

impl Model for Table {
    ghost Value = { List ℕ };

    ghost view = { λ t. t.slots };

    ghost invariant = { λ t. Tree t.slots };
}

// A rank is below 2,048, which each call on one asks: a type for that would be made of a number at every call.
impl Table {
    pub(crate) fn none() -> Table
        ensures { result ≡ replicate 6144 0 }
    {
        Table { slots: [0; 6144] }
    }

    // Puts value in at a rank.
    pub(crate) fn raise(&mut self, rank: usize, value: u64)
        requires { rank < 2048 }
        ensures { Raised self.old self.new rank value }
    {
        let mut n = 4096 + rank;
        // No for: from the leaf up.
        while n > 0 {
            if self.slots[n] >= value {
                return;
            }
            self.slots[n] = value;
            n = n / 16;
        }
    }

    // Whether more than x was put in above a rank.
    pub(crate) fn above(&self, rank: usize, x: u64) -> bool
        requires { rank < 2048 }
        ensures { result ≡ reach self.now (rank + 1) x }
    {
        if self.slots[1] <= x {
            return false;
        }
        let mut n = 4096 + rank;
        // No for: from the leaf up.
        while n > 1 {
            if some_above(&self.slots[n + 1..n / 16 * 16 + 16], x) {
                return true;
            }
            n = n / 16;
        }
        false
    }

    // Whether more than x was put in at a rank or above.
    pub(crate) fn from(&self, rank: usize, x: u64) -> bool
        requires { rank < 2048 }
        ensures { result ≡ reach self.now rank x }
    {
        if self.slots[4096 + rank] > x {
            return true;
        }
        self.above(rank, x)
    }
}

// Whether one of the slots holds more than x.
fn some_above(slots: &[u64], x: u64) -> bool
    ensures { result ≡ list_any (ltb x) slots.now }
{
    slots.iter().any(|slot| *slot > x)
}
