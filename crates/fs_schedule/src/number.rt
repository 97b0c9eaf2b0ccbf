//! Numbers in decimal, in their one form.
ghost use Rattle.std.specs.Prelude.{◌≡◌, ◌≤◌, ◌<◌, ◌+◌, ◌*◌, ◌^◌, min};
ghost use Rattle.std.specs.Fmt.{decimal};
ghost use Rattle.fs_schedule.specs.Reading.{ReadsSurely, TellsSurely, begins_well, IsToldNumber};

use crate::unread::Unread;
use fs_ident::SESSIONS;
use std::str;

/// The number that the bytes are the one form of.
pub fn number_of(digits: &[u8]) -> Result<u64, Unread>
    ensures { ReadsSurely decimal (λ n. n < 2 ^ 64) result digits.now }
{
    if !begins_well(digits) {
        return Err(Unread::Outside);
    }
    let Ok(text) = str::from_utf8(digits) else {
        return Err(Unread::Outside);
    };
    let Ok(n) = text.parse::<u64>() else {
        return Err(Unread::Outside);
    };
    Ok(n)
}

/// Whether no plus stands in front, and no zero but the only digit.
fn begins_well(digits: &[u8]) -> bool
    ensures { result ≡ begins_well digits.now }
{
    match digits {
        [] => true,
        [only] => *only != b'+',
        [first, _, ..] => *first != b'+' && *first != b'0',
    }
}

/// A number from 1, however long it is: every one above `most` as one more than `most`.
pub fn count_up_to(most: u16, digits: &[u8]) -> Result<u16, Unread>
    requires { most ≤ SESSIONS }
    ensures { TellsSurely (IsToldNumber most) result digits.now }
{
    if digits.is_empty() {
        return Err(Unread::Outside);
    }
    if digits[0] == b'0' {
        return Err(Unread::Outside);
    }
    let mut number = 0;
    for at in 0..digits.len() {
        let digit = digit_of(digits[at])?;
        number = with_digit(most, number, digit);
    }
    Ok(number)
}

fn digit_of(b: u8) -> Result<u8, Unread>
    ensures { ReadsSurely (λ d. 48 + d) (λ d. d < 10) result b }
{
    if b < b'0' {
        return Err(Unread::Outside);
    }
    if b'9' < b {
        return Err(Unread::Outside);
    }
    Ok(b - b'0')
}

fn with_digit(most: u16, n: u16, digit: u8) -> u16
    requires most { most ≤ SESSIONS }
    requires number { n ≤ most + 1 }
    requires digit { digit < 10 }
    ensures { result ≡ min (n * 10 + digit) (most + 1) }
{
    let longer = n * 10 + u16::from(digit);
    longer.min(most + 1)
}
