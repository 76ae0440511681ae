// The flat function of settlement.
ghost use Rattle.numbers.specs.Refusals.{answer};
ghost use Rattle.settle.specs.Regions.{lent};
ghost use Rattle.settle.specs.Settle.{Settled};

use numbers::number_in;
use settle::Records;

#[tactic(auto, using(crate::proofs::Told::told_answer))]
#[unsafe(no_mangle)]
pub extern "C" fn fundravai_settle(
    usable: usize,
    seqs: &[u64],
    counts: &[u64],
    ranges: &[u64],
    lens: &[u8],
    names: &[u8],
    unavailable: usize,
    own_seqs: &[u64],
    own_counts: &[u64],
    own_ranges: &[u64],
    own_lens: &[u8],
    own_names: &[u8],
    marks: &mut [u8],
    scratch: &mut [u64],
) -> u64
    ensures { Settled (lent usable seqs.now counts.now ranges.now lens.now names.now) (lent unavailable own_seqs.now own_counts.now own_ranges.now own_lens.now own_names.now) marks.old marks.new scratch.old scratch.new (answer result tt) }
{
    let usable = Records {
        count: usable,
        seqs,
        counts,
        ranges,
        lens,
        names,
    };
    let unavailable = Records {
        count: unavailable,
        seqs: own_seqs,
        counts: own_counts,
        ranges: own_ranges,
        lens: own_lens,
        names: own_names,
    };
    number_in(settle::settle(usable, unavailable, marks, scratch))
}
