// Settlement: which of the usable regions that an opened container holds are overlapped by another,
// renamed or superseded.
#![tactic(auto)]

mod complete;
mod lay;
mod marks;
mod names;
mod ranks;
mod records;
mod struck;
mod sweep;
mod table;

ghost use Rattle.std.specs.Prelude.{◌≡◌};
ghost use Rattle.numbers.specs.Refusals.{told};
ghost use Rattle.settle.specs.Regions.{lent_of};
ghost use Rattle.settle.specs.Settle.{settle_fails, Settled};

use complete::Complete;
use marks::write_marks;
use names::Named;
use numbers::{Refusal, passes};
pub use records::Records;
use struck::strike;

// Refusal 1.
fn settle_fails(usable: Records<'_>, unavailable: Records<'_>, marks: usize, scratch: usize) -> bool
    ensures { result ≡ settle_fails (lent_of usable.entry) (lent_of unavailable.entry) marks scratch }
{
    if usable.fails(false) {
        return true;
    }
    if unavailable.fails(true) {
        return true;
    }
    let first = usable.range_count();
    let own = unavailable.range_count();
    if passes(first, own, 65536) {
        return true;
    }
    if marks < usable.count {
        return true;
    }
    ((scratch / 16) as u64) < first + own
}

// Marks the usable records, each by 1 for overlapped, 2 for renamed and 4 for superseded.
pub fn settle(
    usable: Records<'_>,
    unavailable: Records<'_>,
    marks: &mut [u8],
    scratch: &mut [u64],
) -> Result<(), Refusal>
    ensures { Settled (lent_of usable.entry) (lent_of unavailable.entry) marks.old marks.new scratch.old scratch.new (told result) }
{
    if settle_fails(usable, unavailable, marks.len(), scratch.len()) {
        return Err(Refusal::Lists);
    }
    let n = (usable.range_count() + unavailable.range_count()) as usize;
    let usable = Complete { records: usable };
    let unavailable = Complete {
        records: unavailable,
    };
    let found = strike(usable, unavailable, &mut scratch[0..4 * n]);
    let mut hashes = [0u64; 1024];
    usable.hash_names(&mut hashes);
    let mut own_hashes = [0u64; 1024];
    unavailable.hash_names(&mut own_hashes);
    let usable = Named {
        complete: usable,
        hashes: &hashes,
    };
    let unavailable = Named {
        complete: unavailable,
        hashes: &own_hashes,
    };
    write_marks(usable, unavailable, &found, marks);
    Ok(())
}
