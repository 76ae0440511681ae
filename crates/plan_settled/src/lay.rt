// The footprints of all records, one behind the other.
ghost use Rattle.std.specs.Prelude.{◌≡◌, ◌≤◌, ◌*◌, ◌+◌, length};
ghost use Rattle.model.specs.Open.{region_from};
ghost use Rattle.model.specs.Region.{footprint, footprints};
ghost use Rattle.numbers.specs.Lists.{written};
ghost use Rattle.numbers.specs.Pairs.{flat};
ghost use Rattle.plan_checks.specs.Opening.{records_of};
ghost use Rattle.plan_record.specs.Record.{record_of};
ghost use Rattle.plan_settled.specs.Settled.{Layable, regions_in};

use footprint::{Limits, block_of};
use numbers::copy;
use plan_checks::Opening;
use plan_record::Record;

// Fills s with both header blocks of a record and its committed extents. The footprint check has the same
// lines behind its own tests; what they require, no public function may.
fn lay(limits: Limits, one: Record, own: &[u64], s: &mut [u64])
    requires { (limits.log2_block ≤ 16) × (length s.old ≡ 2 * (one.entry.extent_count + 2)) × (2 * one.entry.extent_count ≤ length own.now) }
    ensures { s.new ≡ flat (footprint limits (region_from (record_of one) own.now)) }
{
    let block = block_of(limits.log2_block);
    s[0] = one.entry.header_a;
    s[1] = block;
    s[2] = one.entry.header_b;
    s[3] = block;
    let committed = s.len() - 4;
    copy(&own[..committed], &mut s[4..]);
}

// Fills the front of s with the footprints of all records.
pub(crate) fn lay_all(opening: Opening<'_>, s: &mut [u64])
    requires { Layable opening.limits (records_of opening.records.now) (length opening.listed.now) (length s.old) }
    ensures { s.new ≡ written (flat (footprints opening.entry.limits (regions_in opening.entry.records.now opening.entry.listed.now))) s.old }
{
    let mut to = 0;
    for (one, own) in opening.each_record() {
        let end = to + 2 * (one.entry.extent_count as usize + 2);
        lay(opening.limits, *one, own, &mut s[to..end]);
        to = end;
    }
}
