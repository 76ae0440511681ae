// Refusals 4 to 13: each record's own check, in order.
ghost use Rattle.std.specs.Prelude.{◌≡◌, length};
ghost use Rattle.model.specs.Open.{record_refusal, each_record};
ghost use Rattle.numbers.specs.Refusals.{first, refusal_in};
ghost use Rattle.plan_checks.specs.Early.{Listed};
ghost use Rattle.plan_checks.specs.Opening.{records_of};

use crate::Opening;
use footprint::fill_footprint;
use numbers::Refusal;

// Checks each record, with just as much scratch as its footprint takes.
pub(crate) fn check_all(opening: Opening<'_>, scratch: &mut [u64]) -> Result<(), Refusal>
    requires { Listed (records_of opening.records.now) (length opening.listed.now) (length scratch.old) }
    ensures { refusal_in result ≡ first (each_record (record_refusal opening.entry.limits) (records_of opening.entry.records.now) opening.entry.listed.now) }
{
    for (one, own) in opening.each_record() {
        let room = 2 * (one.entry.extent_count as usize + 2);
        fill_footprint(
            opening.limits,
            one.number,
            one.entry,
            one.header,
            own,
            &mut scratch[..room],
        )?;
    }
    Ok(())
}
