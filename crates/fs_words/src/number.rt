//! Numbers in decimal, in their one form.
ghost use Rattle.std.specs.Prelude.{◌≡◌, ◌≤◌, IfSome};
ghost use Rattle.fs_words.specs.Numbers.{number_between, number_in, with_digit, with_digits};

/// The number that is written like this, where it is within both bounds.
pub(crate) fn number_between(least: u64, most: u64, text: &[u8]) -> Option<u64>
    ensures number { result ≡ number_between least most text.now }
    ensures least { IfSome result (λ n. least ≤ n) }
    ensures most { IfSome result (λ n. n ≤ most) }
{
    let n = number_in(most, text)?;
    if least <= n { Some(n) } else { None }
}

/// The number that is written like this, where it is at most `most`.
pub(crate) fn number_in(most: u64, text: &[u8]) -> Option<u64>
    ensures number { result ≡ number_in most text.now }
    ensures most { IfSome result (λ n. n ≤ most) }
{
    match text {
        [] => None,
        [_] => with_digits(most, text),
        [first, _, ..] => {
            if *first == b'0' {
                None
            } else {
                with_digits(most, text)
            }
        }
    }
}

/// The number that these digits tell, where it is at most `most`; zeros may stand in front.
fn with_digits(most: u64, digits: &[u8]) -> Option<u64>
    ensures number { result ≡ with_digits most 0 digits.now }
    ensures most { IfSome result (λ n. n ≤ most) }
{
    let mut n = 0;
    for b in digits {
        n = with_digit(most, n, *b)?;
    }
    Some(n)
}

/// The number with one more digit at its end, where the byte is one and the number is at most `most`.
fn with_digit(most: u64, n: u64, b: u8) -> Option<u64>
    requires { n ≤ most }
    ensures number { result ≡ with_digit most n b }
    ensures most { IfSome result (λ m. m ≤ most) }
{
    if b < b'0' || b'9' < b {
        return None;
    }
    let digit = u64::from(b - b'0');
    if most < digit || (most - digit) / 10 < n {
        return None;
    }
    Some(n * 10 + digit)
}
