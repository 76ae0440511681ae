// The numbers of a line.
ghost use Rattle.std.specs.Prelude.{◌≡◌, ◌+◌, ◌-◌, ◌*◌, ◌≤◌, not, length, IfSome, option_map, SomeIff};
ghost use Rattle.line.specs.Reading.{is_digit, behind, digit_count, value, value_from, is_plain, said, number_in, field_in, last_in};
ghost use Rattle.numbers.specs.Sums.{top};
ghost use Rattle.std.specs.List.{position};

// What follows a word, where text begins with it.
pub(crate) fn behind<'a>(text: &'a [u8], word: &[u8]) -> Option<&'a [u8]>
    ensures { option_map (λ x. x.now) result ≡ behind word.now text.now }
{
    text.strip_prefix(word)
}

// Where the first byte stands that is no digit.
fn no_digit(text: &[u8]) -> Option<usize>
    ensures { result ≡ position (λ b. not (is_digit b)) text.now }
{
    text.iter().position(|b| !b.is_ascii_digit())
}

// How many digits stand in front.
fn digit_count(text: &[u8]) -> usize
    ensures value { result ≡ digit_count text.now }
    ensures within { result ≤ length text.now }
{
    no_digit(text).unwrap_or(text.len())
}

// A number with one more digit; None past 2^64 - 1.
fn longer(value: u64, digit: u8) -> Option<u64>
    ensures { SomeIff result (value * 10 + (digit - 48) ≤ top) (value * 10 + (digit - 48)) }
{
    let low = u64::from(digit.saturating_sub(b'0'));
    value.checked_mul(10)?.checked_add(low)
}

// The number that digits say; None past 2^64 - 1.
fn value(digits: &[u8]) -> Option<u64>
    ensures { SomeIff result (value digits.now ≤ top) (value digits.now) }
{
    let mut value = 0u64;
    for &digit in digits {
        value = longer(value, digit)?;
    }
    Some(value)
}

// Whether these are digits without a leading zero.
#[tactic(auto, unfolding(crate::specs::Reading::is_plain))]
fn is_plain(digits: &[u8]) -> bool
    ensures { result ≡ is_plain digits.now }
{
    !digits.is_empty() && (digits.len() == 1 || digits[0] != b'0')
}

// What digits say, without leading zeros and up to most.
#[tactic(auto, unfolding(crate::specs::Reading::said))]
fn said(digits: &[u8], most: u64) -> Option<u64>
    ensures value { result ≡ said most digits.now }
    ensures fits { IfSome result (λ n. n ≤ most) }
{
    if !is_plain(digits) {
        return None;
    }
    let n = value(digits)?;
    if n > most {
        return None;
    }
    Some(n)
}

// A number in the digits that stand in front, all of them, and what follows.
#[tactic(auto, unfolding(crate::specs::Reading::number_in))]
fn number(text: &[u8], most: u64) -> Option<(u64, &[u8])>
    ensures value { option_map (λ x. (x.0, x.1.now)) result ≡ number_in most text.now }
    ensures fits { IfSome result (λ x. x.0 ≤ most) }
{
    let (digits, rest) = text.split_at(digit_count(text));
    let n = said(digits, most)?;
    Some((n, rest))
}

// A key and its number.
#[tactic(auto, unfolding(crate::specs::Reading::field_in))]
pub(crate) fn field<'a>(text: &'a [u8], key: &[u8], most: u64) -> Option<(u64, &'a [u8])>
    ensures value { option_map (λ x. (x.0, x.1.now)) result ≡ field_in most key.now text.now }
    ensures fits { IfSome result (λ x. x.0 ≤ most) }
{
    number(behind(text, key)?, most)
}

// The last number of a line, with nothing behind it.
#[tactic(auto, unfolding(crate::specs::Reading::last_in))]
pub(crate) fn last(text: &[u8], key: &[u8], most: u64) -> Option<u64>
    ensures value { result ≡ last_in most key.now text.now }
    ensures fits { IfSome result (λ n. n ≤ most) }
{
    let (n, rest) = field(text, key, most)?;
    if !rest.is_empty() {
        return None;
    }
    Some(n)
}
