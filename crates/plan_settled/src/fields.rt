// The records' fields in lists, as settlement takes them.
ghost use Rattle.std.specs.Prelude.{◌≡◌, ◌≤◌, length};
ghost use Rattle.plan_settled.specs.Settled.{FieldsIn};

use plan_record::Record;

// The bytes for a record's name. That they are 24 is known of a record by value, and not of one in a list.
fn name_of(one: Record) -> [u8; 24]
    ensures { (result ≡ one.name.bytes) × (length result ≡ 24) }
{
    one.name.bytes
}

// Sequence numbers, how many ranges each footprint has, and names with their lengths. By index, since no
// proof knows the elements of lists that were written through a zip.
pub(crate) fn list_fields(
    records: &[Record],
    seqs: &mut [u64],
    counts: &mut [u64],
    lens: &mut [u8],
    names: &mut [[u8; 24]],
)
    requires { (length records.now ≤ length seqs.old) × (length records.now ≤ length counts.old) × (length records.now ≤ length lens.old) × (length records.now ≤ length names.old) }
    ensures { FieldsIn records.now seqs.old seqs.new counts.old counts.new lens.old lens.new names.old names.new }
{
    for (i, one) in records.iter().enumerate() {
        seqs[i] = one.entry.footprint_seq;
        counts[i] = one.entry.extent_count as u64 + 2;
        lens[i] = one.name.len;
        names[i] = name_of(*one);
    }
}
