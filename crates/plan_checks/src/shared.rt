// Refusal 14: two records share a number.
ghost use Rattle.std.specs.Prelude.{◌≡◌, eqb};
ghost use Rattle.std.specs.List.{list_any};
ghost use Rattle.model.specs.Open.{shared};
ghost use Rattle.plan_checks.specs.Opening.{numbers_of};

use plan_record::Record;

// Whether a record has the number.
fn has(records: &[Record], number: u64) -> bool
    ensures { result ≡ list_any (λ r. eqb number r.number) records.now }
{
    records.iter().any(|one| number == one.number)
}

// Whether two records share a number.
pub(crate) fn share(records: &[Record]) -> bool
    ensures { result ≡ shared (numbers_of records.now) }
{
    let mut left = records;
    while let [one, rest @ ..] = left {
        if has(rest, one.number) {
            return true;
        }
        left = rest;
    }
    false
}
