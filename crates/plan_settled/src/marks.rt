// Refusal 15: settlement marks a region overlapped or renamed.
ghost use Rattle.std.specs.Prelude.{◌≡◌, length};
ghost use Rattle.std.specs.List.{list_any};
ghost use Rattle.model.specs.Open.{marked};
ghost use Rattle.plan_settled.specs.Settled.{spoils, Passed, regions_in};

use crate::fields::list_fields;
use crate::lay::lay_all;
use plan_checks::Opening;
use settle::{Records, settle};

// Whether one of the marks says overlapped or renamed.
fn some_marked(marks: &[u8]) -> bool
    ensures { result ≡ list_any spoils marks.now }
{
    marks.iter().any(|mark| *mark % 4 != 0)
}

// The same with a list for the ranges of all footprints.
fn marked_with(opening: Opening<'_>, scratch: &mut [u64], ranges: &mut [u64]) -> bool
    requires { Passed opening.limits opening.records.now opening.listed.now (length scratch.old) × (length ranges.old ≡ 7936) }
    ensures { result ≡ marked opening.entry.limits (regions_in opening.entry.records.now opening.entry.listed.now) }
{
    let records = opening.records;
    let mut seqs = [0u64; 64];
    let mut counts = [0u64; 64];
    let mut lens = [0u8; 64];
    let mut names = [[0u8; 24]; 64];
    list_fields(records, &mut seqs, &mut counts, &mut lens, &mut names);
    lay_all(opening, ranges);
    let mut marks = [0u8; 64];
    let usable = Records {
        count: records.len(),
        seqs: &seqs,
        counts: &counts,
        ranges,
        lens: &lens,
        names: names.as_flattened(),
    };
    let unavailable = Records { count: 0, ..usable };
    let _done = settle(usable, unavailable, &mut marks, scratch);
    some_marked(&marks[..records.len()])
}

// Whether settlement marks a record, once 1 to 14 have passed.
pub(crate) fn marked(opening: Opening<'_>, scratch: &mut [u64]) -> bool
    requires { Passed opening.limits opening.records.now opening.listed.now (length scratch.old) }
    ensures { result ≡ marked opening.entry.limits (regions_in opening.entry.records.now opening.entry.listed.now) }
{
    let mut ranges = [0u64; 7936];
    marked_with(opening, scratch, &mut ranges)
}
