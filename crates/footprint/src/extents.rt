// The tests on the committed extents: the last part of refusal 4, and refusals 11 and 12.
ghost use Rattle.std.specs.Prelude.{◌≡◌, ◌≤◌, length, take, slice_index, ◌==◌};
ghost use Rattle.std.specs.List.{list_any};
ghost use Rattle.numbers.specs.Range.{range};
ghost use Rattle.numbers.specs.Pairs.{pairs};
ghost use Rattle.footprint.specs.Footprint.{committed, extent_tests};
ghost use Rattle.numbers.specs.Refusals.{first, refusal_in};
ghost use Rattle.footprint.specs.Footprint as spec;

use crate::{Entry, Limits};
use numbers::Refusal;

// Whether one of the first count extents has length 0; all of them, where there are fewer.
pub(crate) fn some_empty(extents: &[[u64; 2]], count: usize) -> bool
    ensures { result ≡ list_any (λ x. slice_index x 1 == 0) (take count extents.now) }
{
    extents.iter().take(count).any(|&[_, len]| len == 0)
}

// Refusal 11 of one extent.
#[tactic(auto, unfolding(crate::specs::Footprint::outside))]
fn outside(limits: Limits, entry: Entry, offset: u64, len: u64) -> bool
    ensures { result ≡ spec.outside limits entry (range offset len) }
{
    let Some(end) = offset.checked_add(len) else {
        return true;
    };
    end > entry.span_end || offset < entry.span_start || offset < limits.table_end
}

// Refusals 11 and 12.
pub(crate) fn check_extents(limits: Limits, entry: Entry, extents: &[u64]) -> Result<(), Refusal>
    requires { entry.extent_count ≤ length (pairs extents.now) }
    ensures { refusal_in result ≡ first (extent_tests limits entry (committed entry extents.now)) }
{
    let (pairs, _) = extents.as_chunks::<2>();
    let committed = &pairs[..entry.extent_count as usize];
    let mut sum = 0u64;
    for &[offset, len] in committed {
        if outside(limits, entry, offset, len) {
            return Err(Refusal::Outside);
        }
        sum = sum.checked_add(len).ok_or(Refusal::ExtentSum)?;
    }
    if sum != entry.capacity {
        return Err(Refusal::ExtentSum);
    }
    Ok(())
}
