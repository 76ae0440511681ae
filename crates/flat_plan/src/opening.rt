// Open with records as flat numbers.
ghost use Rattle.flat_plan.specs.Record.{records_from};
ghost use Rattle.plan_open.specs.Open.{opening_of, Opens};

use crate::record::{FlatRecord, records_from};
use footprint::Limits;
use numbers::Refusal;
use plan_open::Opening;
use plan_record::{Outcome, Plan};

// Opens a container.
pub fn open(
    limits: Limits,
    flat: &[FlatRecord],
    listed: &[u64],
    scratch: &mut [u64],
    extents: &mut [u64],
    starts: &mut [u64],
    files: &mut [u64],
) -> Outcome
    ensures { Opens (opening_of limits (records_from flat.now) listed.now scratch.old extents.old starts.old files.old) extents.old extents.new starts.old starts.new files.old files.new result }
{
    if flat.len() > 64 {
        return Outcome {
            reply: Err(Refusal::Lists),
            plan: Plan::blank(),
        };
    }
    let given = records_from(flat);
    let opening = Opening {
        limits,
        records: &given[..flat.len()],
        listed,
    };
    plan_open::open(opening, scratch, extents, starts, files)
}
