// The accounts of the records.
ghost use Rattle.std.specs.Prelude.{◌≡◌, ◌≤◌, length, reverse};
ghost use Rattle.plan_checks.specs.Opening.{records_of};
ghost use Rattle.plan_open.specs.Accounts.{UsageIn, HasPlaces, Accounted};

use accounting::Accounting;
use footprint::{Limits, block_of};
use plan_record::Record;

// Tags, published lengths and footprint lengths, the last record's first: in this order a row is made
// for each tag. By index, since no proof knows the elements of lists that were written through a zip.
fn list_usage(
    limits: Limits,
    records: &[Record],
    tags: &mut [u32],
    logical: &mut [u64],
    physical: &mut [u64],
)
    requires { (limits.log2_block ≤ 16) × HasPlaces (length records.now) (length tags.old) (length logical.old) (length physical.old) }
    ensures { UsageIn limits (reverse (records_of records.now)) tags.old tags.new logical.old logical.new physical.old physical.new }
{
    let blocks = 2 * block_of(limits.log2_block);
    for (i, one) in records.iter().rev().enumerate() {
        tags[i] = one.tag;
        logical[i] = one.entry.data_size;
        physical[i] = blocks.saturating_add(one.entry.capacity);
    }
}

// The accounts of the records, through the three lists that `from_usage` takes.
pub(crate) fn accounts_of(limits: Limits, records: &[Record]) -> Accounting
    requires { (limits.log2_block ≤ 16) × (length records.now ≤ 64) }
    ensures { Accounted limits (records_of records.now) result }
{
    let mut tags = [0u32; 64];
    let mut logical = [0u64; 64];
    let mut physical = [0u64; 64];
    list_usage(limits, records, &mut tags, &mut logical, &mut physical);
    let n = records.len();
    Accounting::from_usage(&tags[..n], &logical[..n], &physical[..n]).accounts
}
