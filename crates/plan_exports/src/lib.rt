// Flat functions of the plan for compare/, beside the library that recorders link: with lists of any
// length, and one call after another. Nothing is decided here.
#![tactic(auto)]

mod each;

ghost use Rattle.flat_plan.specs.Record.{records_from};
ghost use Rattle.plan_open.specs.Open.{opening_of, Opens};
ghost use Rattle.plan_exports.specs.Flat.{limits_of, FlatCalled};

use flat_plan::{FlatOutcome, FlatRecord};
use footprint::Limits;

// Opens a container, with lists of any length.
#[unsafe(no_mangle)]
pub extern "C" fn fundravai_plan_open(
    log2: u8,
    table: u64,
    file: u64,
    records: &[FlatRecord],
    listed: &[u64],
    scratch: &mut [u64],
    extents: &mut [u64],
    starts: &mut [u64],
    files: &mut [u64],
) -> FlatOutcome
    ensures { FlatCalled (Opens (opening_of (limits_of log2 table file) (records_from records.now) listed.now scratch.old extents.old starts.old files.old) extents.old extents.new starts.old starts.new files.old files.new) result }
{
    let limits = Limits {
        log2_block: log2,
        table_end: table,
        file_len: file,
    };
    flat_plan::open(limits, records, listed, scratch, extents, starts, files).into()
}
