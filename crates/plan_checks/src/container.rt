// The container as open is given it, and a walk along its records.
ghost use Rattle.std.specs.Prelude.{◌≡◌, length};
ghost use Rattle.std.specs.Iterator.{at_most};
ghost use Rattle.plan_checks.specs.Each.{HandsOut};

use footprint::Limits;
use plan_record::Record;

// What open is given of the container: its limits, its records, and the extents that their headers list,
// one record after another.
#[derive(Clone, Copy)]
pub struct Opening<'a> {
    pub limits: Limits,
    pub records: &'a [Record],
    pub listed: &'a [u64],
}

impl<'a> Opening<'a> {
    // Each record with the extents that its header lists.
    pub fn each_record(self) -> EachRecord<'a>
        ensures records { result.records.now ≡ self.entry.records.now }
        ensures listed { result.listed.now ≡ self.entry.listed.now }
    {
        EachRecord {
            records: self.records,
            listed: self.listed,
        }
    }
}

// The records that are left, and the extents that their headers list.
#[derive(Drop)]
pub struct EachRecord<'a> {
    pub records: &'a [Record],
    pub listed: &'a [u64],
}

impl<'a> Iterator for EachRecord<'a> {
    type Item = (&'a Record, &'a [u64]);

    ghost next_gives = { λ s r t. HandsOut s.records.now s.listed.now r t.records.now t.listed.now };

    ghost remaining = { λ s. at_most (length s.records.now) };

    // Where too few extents are left, the record has those that are.
    fn next(&mut self) -> Option<(&'a Record, &'a [u64])> {
        let (one, records) = self.records.split_first()?;
        let end = self.listed.len().min(2 * one.header.extent_count as usize);
        let (own, listed) = self.listed.split_at(end);
        self.records = records;
        self.listed = listed;
        Some((one, own))
    }
}
