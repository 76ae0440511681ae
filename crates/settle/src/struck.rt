// Which usable regions are overlapped, and which superseded.
ghost use Rattle.std.specs.Prelude.{◌≡◌, ◌++◌, ◌*◌, length, take, drop};
ghost use Rattle.numbers.specs.Pairs.{pairs};
ghost use Rattle.settle.specs.Inner.{Roomy, Struck};
ghost use Rattle.settle.specs.Laying.{Ordered};
ghost use Rattle.settle.specs.Regions.{lent_of, pieces, pieces_from, regions_of};
ghost use Rattle.settle.specs.Sweeping.{Ready, SweptBoth, items_of};

use crate::complete::Complete;
use crate::lay::lay_all;
use crate::ranks::rank_all;
use crate::sweep::{Found, Way, sweep};
use sort::sort_pairs;

// The ranges of all records in s, which has four numbers for each of n: in the first half the starts in
// order, in the second the ends.
fn lay_out(usable: Complete<'_>, unavailable: Complete<'_>, n: usize, s: &mut [u64])
    requires roomy { Roomy (lent_of usable.records) (lent_of unavailable.records) (length s.old) }
    requires quarter { length s.old ≡ 4 * n }
    ensures { Ordered (pieces (regions_of (lent_of usable.entry.records)) ++ pieces_from usable.entry.records.count (regions_of (lent_of unavailable.entry.records))) (take n (pairs s.new)) (drop n (pairs s.new)) }
{
    let first = usable.records.range_count() as usize;
    lay_all(usable, 0, 0, n, s);
    lay_all(unavailable, usable.records.count, first, n, s);
    let _sorted = sort_pairs(&mut s[0..2 * n]);
}

// Both passes.
fn sweep_both(way: Way<'_>, usable: usize, ranks: &[usize], found: &mut Found)
    requires { Ready (pairs way.order.now) (pairs way.facts.now) usable ranks.now }
    ensures { SweptBoth (items_of (pairs way.entry.order.now) (pairs way.entry.facts.now)) usable ranks.now found.old.over found.new.over found.old.under found.new.under }
{
    sweep(way, false, usable, ranks, found);
    sweep(way, true, usable, ranks, found);
}

// Finds the overlapped regions and the superseded ones. In s there are four numbers for each range.
pub(crate) fn strike(usable: Complete<'_>, unavailable: Complete<'_>, s: &mut [u64]) -> Found
    requires { Roomy (lent_of usable.records) (lent_of unavailable.records) (length s.old) }
    ensures { Struck (lent_of usable.entry.records) (lent_of unavailable.entry.records) result.over result.under }
{
    let n = s.len() / 4;
    let mut ranks = [0usize; 2048];
    rank_all(usable, unavailable, &mut ranks);
    lay_out(usable, unavailable, n, s);
    let way = Way {
        order: &s[0..2 * n],
        facts: &s[2 * n..],
    };
    let mut found = Found {
        over: [false; 1024],
        under: [false; 1024],
    };
    sweep_both(way, usable.records.count, &ranks, &mut found);
    found
}
