// The plan of records that are accepted.
ghost use Rattle.std.specs.Prelude.{map, ◌≡◌, ◌≤◌, length};
ghost use Rattle.model.specs.Open.{highest};
ghost use Rattle.plan_checks.specs.Opening.{records_of};
ghost use Rattle.plan_open.specs.Build.{Rows, Fitting, Filled, Accepted, Built};
ghost use Rattle.plan_settled.specs.Settled.{seq_of};

use crate::accounts::accounts_of;
use crate::row::fill_row;
use plan_checks::Opening;
use plan_record::{Plan, Record, Region};
use std::array;

// No regions, and a row for each that may come.
fn rows() -> [Region; 64]
    ensures { Rows result }
{
    array::from_fn(Region::blank)
}

// The records' regions, each in its row.
fn fill(
    opening: Opening<'_>,
    extents: &mut [u64],
    starts: &mut [u64],
    files: &mut [u64],
) -> [Region; 64]
    requires { (length opening.records.now ≤ 64) × Fitting (records_of opening.records.now) opening.listed.now (length extents.old) (length starts.old) (length files.old) }
    ensures { Filled (records_of opening.entry.records.now) opening.entry.listed.now extents.old extents.new starts.old starts.new files.old files.new result }
{
    let mut regions = rows();
    for (i, (one, own)) in opening.each_record().enumerate() {
        let region = fill_row(
            *one,
            i,
            own,
            &mut extents[120 * i..120 * i + 120],
            &mut starts[60 * i..60 * i + 60],
            &mut files[60 * i..60 * i + 60],
        );
        regions[i] = region;
    }
    regions
}

// The highest sequence number, 0 if there is none.
fn highest_seq(records: &[Record]) -> u64
    ensures { result ≡ highest (map seq_of (records_of records.now)) }
{
    records
        .iter()
        .fold(0, |last: u64, one| last.max(one.entry.footprint_seq))
}

// The plan.
pub(crate) fn build(
    opening: Opening<'_>,
    extents: &mut [u64],
    starts: &mut [u64],
    files: &mut [u64],
) -> Plan
    requires { Accepted opening.limits opening.records.now opening.listed.now extents.old starts.old files.old }
    ensures { Built opening.entry.limits opening.entry.records.now opening.entry.listed.now extents.old extents.new starts.old starts.new files.old files.new result }
{
    let limits = opening.limits;
    let records = opening.records;
    Plan {
        limits,
        last: highest_seq(records),
        count: records.len(),
        regions: fill(opening, extents, starts, files),
        accounts: accounts_of(limits, records),
    }
}
