// From store-io-core's align.rs.
#![tactic(auto)]

ghost use Rattle.std.specs.Prelude.{◌≡◌};
ghost use Rattle.align.specs.Align.{align_up};

// The least multiple of align at or above value. None where align is no power of two, or
// value + align - 1 passes 2^64 - 1.
pub fn align_up(value: u64, align: u64) -> Option<u64>
    ensures { result ≡ align_up value align }
{
    if !numbers::is_power_of_two(align) {
        return None;
    }
    let mask = align - 1;
    let reach = u128::from(value) + u128::from(mask);
    if reach > u128::from(u64::MAX) {
        return None;
    }
    let reach = reach as u64;
    Some(reach - (reach & mask))
}
