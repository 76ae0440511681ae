// The marks, written out.
ghost use Rattle.std.specs.Prelude.{◌≡◌, false, ℕ, ◌≤◌, ◌<◌, length, get_or};
ghost use Rattle.numbers.specs.Lists.{written};
ghost use Rattle.settle.specs.Settle.{mark_of};
ghost use Rattle.settle.specs.Naming.{Listed, outdone};
ghost use Rattle.settle.specs.Inner.{firsts};
ghost use Rattle.settle.specs.Regions.{lent_of};

use crate::names::Named;
use crate::sweep::Found;

// A mark: 1 for overlapped, 2 for renamed, 4 for superseded.
fn mark_of(overlapped: bool, renamed: bool, superseded: bool) -> u8
    ensures { result ≡ mark_of overlapped renamed superseded }
{
    overlapped as u8 + 2 * (renamed as u8) + 4 * (superseded as u8)
}

// The marks of all usable records.
pub(crate) fn write_marks(
    usable: Named<'_, '_>,
    unavailable: Named<'_, '_>,
    found: &Found,
    marks: &mut [u8],
)
    requires in_bounds { (usable.complete.records.count ≤ 1024) × (usable.complete.records.count ≤ length marks.old) }
    requires named { (i : ℕ) → i < usable.complete.records.count → get_or usable.complete.records.lens.now i 0 ≤ 24 }
    ensures { marks.new ≡ written (firsts (λ (i : ℕ). mark_of (get_or found.now.over i false) (outdone (lent_of usable.entry.complete.records) (lent_of unavailable.entry.complete.records) i) (get_or found.now.under i false)) usable.entry.complete.records.count) marks.old }
{
    for i in 0..usable.complete.records.count {
        marks[i] = mark_of(
            found.over[i],
            usable.renamed(unavailable, i),
            found.under[i],
        );
    }
}
