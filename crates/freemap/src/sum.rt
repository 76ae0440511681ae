// The lengths of gaps together.
ghost use Rattle.std.specs.Prelude.{◌≡◌};
ghost use Rattle.numbers.specs.Pairs.{pairs, ranges_in};
ghost use Rattle.numbers.specs.Range.{total};
ghost use Rattle.numbers.specs.Sums.{stop};

// The lengths of the gaps together, or 2^64 - 1 where the sum passes it. A sum of 128 bits stops there once, in the
// end, and no addition waits for a test.
pub(crate) fn sum_bytes(gaps: &[[u64; 2]]) -> u64
    ensures { result ≡ stop (total (ranges_in gaps.now)) }
{
    let mut sum: u128 = 0;
    for &[_, bytes] in gaps {
        sum += u128::from(bytes);
    }
    sum.min(u128::from(u64::MAX)) as u64
}

// The lengths of the pairs of a list together, or 2^64 - 1.
pub fn bytes_of(ranges: &[u64]) -> u64
    ensures { result ≡ stop (total (pairs ranges.now)) }
{
    let (pairs, _) = ranges.as_chunks::<2>();
    sum_bytes(pairs)
}
