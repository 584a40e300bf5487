//! Numbers in words.
ghost use Rattle.std.specs.Prelude.{◌≡◌, ◌<◌, ◌^◌, IfSome, FitsSigned};
ghost use Rattle.std.specs.Int.{w64};
ghost use Rattle.gx_script.specs.Numbers.{number_of, corner_of, next_value, to_corner, to_negative_corner};

/// The number that a word of digits says, if it is below 2^64.
pub(crate) fn number(word: &[u8]) -> Option<u64>
    ensures { result ≡ number_of word.now }
{
    if word.is_empty() {
        return None;
    }
    let mut value: u64 = 0;
    for digit in word {
        value = with_digit(value, *digit)?;
    }
    Some(value)
}

/// The number that a corner's word says, if it is in the range of an i64.
pub(crate) fn corner(word: &[u8]) -> Option<i64>
    ensures value { result ≡ corner_of word.now }
    ensures fits { IfSome result (λ z. FitsSigned w64 z) }
{
    match word.split_first() {
        Some((b'-', digits)) => negative(number(digits)?),
        _ => positive(number(word)?),
    }
}

// the value with one more digit at its end
fn with_digit(value: u64, digit: u8) -> Option<u64>
    ensures value { result ≡ next_value value digit }
    ensures below { IfSome result (λ v. v < 2 ^ 64) }
{
    if !digit.is_ascii_digit() {
        return None;
    }
    value.checked_mul(10)?.checked_add(u64::from(digit - b'0'))
}

fn positive(value: u64) -> Option<i64>
    ensures value { result ≡ to_corner value }
    ensures fits { IfSome result (λ z. FitsSigned w64 z) }
{
    if value < 9223372036854775808 {
        Some(value as i64)
    } else {
        None
    }
}

fn negative(value: u64) -> Option<i64>
    ensures value { result ≡ to_negative_corner value }
    ensures fits { IfSome result (λ z. FitsSigned w64 z) }
{
    0i64.checked_sub_unsigned(value)
}
