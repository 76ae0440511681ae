// First fit: the gaps in order, and the place in one of them.
ghost use Rattle.std.specs.Prelude.{◌≡◌, ◌+◌, ◌≤◌, true, [], ◌∷◌};
ghost use Rattle.numbers.specs.Pairs.{ranges_in};
ghost use Rattle.numbers.specs.Powers.{is_power_of_two};
ghost use Rattle.numbers.specs.Range.{range};
ghost use Rattle.numbers.specs.Sums.{top};
ghost use Rattle.freemap.specs.Fit.{first_fit};

use std::num::wrapping_add_u64;

const TOP: u64 = 0xffff_ffff_ffff_ffff;

// The place of len bytes in the gap of so many bytes from start on, where mask is align - 1. Its sums may wrap until the
// last two tests, which few gaps come to: a gap that is skipped, or that has no place below 2^64, is refused there.
fn fit_in(start: u64, bytes: u64, len: u64, mask: u64, skew: u64) -> Option<u64>
    requires { (is_power_of_two (mask + 1) ≡ true) × (skew + mask ≤ top) }
    ensures { result ≡ first_fit len (mask + 1) skew (range start bytes ∷ []) }
{
    let lead = skew + mask;
    let pad = mask - (wrapping_add_u64(start, lead) & mask);
    if bytes < wrapping_add_u64(pad, len) {
        return None;
    }
    let at = wrapping_add_u64(start, pad);
    if TOP - at < len {
        return None;
    }
    if TOP - lead < start {
        return None;
    }
    Some(at)
}

// The place of len bytes in the first gap that allows it, where mask is align - 1.
pub(crate) fn search(gaps: &[[u64; 2]], len: u64, mask: u64, skew: u64) -> Option<u64>
    requires { is_power_of_two (mask + 1) ≡ true }
    ensures { result ≡ first_fit len (mask + 1) skew (ranges_in gaps.now) }
{
    if numbers::passes(skew, mask, TOP) {
        return None;
    }
    for &[start, bytes] in gaps {
        if let Some(at) = fit_in(start, bytes, len, mask, skew) {
            return Some(at);
        }
    }
    None
}
