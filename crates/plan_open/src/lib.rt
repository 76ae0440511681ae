// The plan's open: container limits and records, checked and settled, become a plan.
#![tactic(auto)]

mod accounts;
mod build;
mod row;

ghost use Rattle.std.specs.Prelude.{◌≡◌, ◌/◌};
ghost use Rattle.plan_open.specs.Open.{opening_from, least_of, Opens};

use build::build;
pub use plan_checks::Opening;
use plan_record::{Outcome, Plan};
use plan_settled::refusal;

// How many regions three lists have room for, with 60 places each; the first is one of pairs.
fn places(extents: usize, starts: usize, files: usize) -> usize
    ensures { result ≡ least_of (extents / 2) starts files }
{
    (extents / 120).min((starts / 60).min(files / 60))
}

// Opens a container. extents, starts and files are the lists that the plan's holder lends to each call, one
// by one as there.
pub fn open(
    opening: Opening<'_>,
    scratch: &mut [u64],
    extents: &mut [u64],
    starts: &mut [u64],
    files: &mut [u64],
) -> Outcome
    ensures { Opens (opening_from opening.entry scratch.old extents.old starts.old files.old) extents.old extents.new starts.old starts.new files.old files.new result }
{
    let room = places(extents.len(), starts.len(), files.len());
    match refusal(opening, scratch, room) {
        Err(refusal) => Outcome {
            reply: Err(refusal),
            plan: Plan::blank(),
        },
        Ok(()) => Outcome {
            reply: Ok(None),
            plan: build(opening, extents, starts, files),
        },
    }
}
