// A lent list of pairs, offset, length, offset, length, .., as a slice of pairs.
ghost use Rattle.std.specs.Prelude.{◌≡◌, true, false, MatchResult};
ghost use Rattle.numbers.specs.Pairs.{is_odd, pairs, ranges_in};

use crate::Refusal;

// The pairs of a list, which is refused where its length is odd.
pub fn pairs_of(list: &[u64]) -> Result<&[[u64; 2]], Refusal>
    ensures { MatchResult result (λ ps. (is_odd list.now ≡ false) × (ranges_in ps.now ≡ pairs list.now)) (λ e. (is_odd list.now ≡ true) × (e ≡ Refusal.Lists)) }
{
    let (pairs, rest) = list.as_chunks::<2>();
    if rest.is_empty() {
        Ok(pairs)
    } else {
        Err(Refusal::Lists)
    }
}
