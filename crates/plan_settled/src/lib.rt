// Open's refusals, the last of them, 15, by settlement.
#![tactic(auto)]

mod fields;
mod lay;
mod marks;

ghost use Rattle.std.specs.Prelude.{◌≡◌, length};
ghost use Rattle.model.specs.Open.{open_refusal};
ghost use Rattle.numbers.specs.Refusals.{refusal_in};
ghost use Rattle.plan_checks.specs.Opening.{opening_from};

use marks::marked;
use numbers::Refusal;
use plan_checks::{Opening, early_refusal};

// Document 01's refusal of an open. places is how many regions the lists have room for that are lent
// for the plan.
pub fn refusal(opening: Opening<'_>, scratch: &mut [u64], places: usize) -> Result<(), Refusal>
    ensures { refusal_in result ≡ open_refusal (opening_from opening.entry (length scratch.old) places) }
{
    early_refusal(opening, scratch, places)?;
    if marked(opening, scratch) {
        return Err(Refusal::Marked);
    }
    Ok(())
}
