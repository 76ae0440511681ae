// Open's refusals 1 to 14: what is tested over all records, each record's own check, and that no two
// share a number.
#![tactic(auto)]

mod container;
mod each;
mod lists;
mod shared;

ghost use Rattle.std.specs.Prelude.{◌≡◌, length};
ghost use Rattle.numbers.specs.Refusals.{refusal_in};
ghost use Rattle.plan_checks.specs.Opening.{opening_from};
ghost use Rattle.plan_checks.specs.Early.{early_refusal};

pub use container::{EachRecord, Opening};
use each::check_all;
use lists::{length_fails, lists_fail, logs_fail};
use numbers::Refusal;
use shared::share;

// Document 01's refusal of an open for all but 15. places is how many regions the lists have room for
// that are lent for the plan.
pub fn early_refusal(
    opening: Opening<'_>,
    scratch: &mut [u64],
    places: usize,
) -> Result<(), Refusal>
    ensures { refusal_in result ≡ early_refusal (opening_from opening.entry (length scratch.old) places) }
{
    if lists_fail(opening, scratch.len(), places) {
        return Err(Refusal::Lists);
    }
    if logs_fail(opening) {
        return Err(Refusal::Block);
    }
    if length_fails(opening.limits) {
        return Err(Refusal::Length);
    }
    check_all(opening, scratch)?;
    if share(opening.records) {
        return Err(Refusal::NumberHeld);
    }
    Ok(())
}
