//! Codes of numbers, read from bytes by words.
ghost use Rattle.std.specs.Prelude.{◌≡◌, ◌+◌, ◌*◌, ◌^◌, ◌<◌, ◌≤◌, ℕ, length, drop, get_or, min, MatchResult, ◌++◌};
ghost use Rattle.fs_ident.specs.Packed.{binary, bits_of};
ghost use Rattle.fs_ident.specs.Bits.{front, BeginsZeros, BeginsCode, IsCode, CodeStops, EndsPadded, PaddingStops};

/// The byte at this place, and zero behind the last one.
fn byte_at(bytes: &[u8], place: usize) -> u8
    ensures { result ≡ get_or bytes.now place 0 }
{
    match bytes.get(place) {
        Some(byte) => *byte,
        None => 0,
    }
}

/// The eight bytes from there on, the highest first, with zeros behind the last one.
fn eight_at(bytes: &[u8], first: usize) -> u64
    requires { first < 2 ^ 60 }
    ensures { binary 64 result ≡ front 64 (drop (8 * first) (bits_of bytes.now)) }
{
    if first + 8 <= bytes.len() {
        eight_within(bytes, first)
    } else {
        eight_past_end(bytes, first)
    }
}

/// Eight bytes that are all there.
fn eight_within(bytes: &[u8], first: usize) -> u64
    requires { first + 8 ≤ length bytes.now }
    ensures { binary 64 result ≡ front 64 (drop (8 * first) (bits_of bytes.now)) }
{
    u64::from_be_bytes([
        bytes[first],
        bytes[first + 1],
        bytes[first + 2],
        bytes[first + 3],
        bytes[first + 4],
        bytes[first + 5],
        bytes[first + 6],
        bytes[first + 7],
    ])
}

/// Eight bytes, of which the last ones are wanting.
fn eight_past_end(bytes: &[u8], first: usize) -> u64
    requires { first < 2 ^ 60 }
    ensures { binary 64 result ≡ front 64 (drop (8 * first) (bits_of bytes.now)) }
{
    u64::from_be_bytes([
        byte_at(bytes, first),
        byte_at(bytes, first + 1),
        byte_at(bytes, first + 2),
        byte_at(bytes, first + 3),
        byte_at(bytes, first + 4),
        byte_at(bytes, first + 5),
        byte_at(bytes, first + 6),
        byte_at(bytes, first + 7),
    ])
}

/// The 32 bits from there on, with zeros behind the last one.
fn word_at(bytes: &[u8], at: usize) -> u32
    requires { at < 2 ^ 60 }
    ensures { binary 32 result ≡ front 32 (drop at (bits_of bytes.now)) }
{
    let eight = eight_at(bytes, at / 8);
    ((eight >> (32 - at % 8)) % 0x1_0000_0000) as u32
}

/// With how many zeros the 32 bits from there on begin.
fn zeros_at(bytes: &[u8], at: usize) -> usize
    requires { at < 2 ^ 60 }
    ensures { BeginsZeros (drop at (bits_of bytes.now)) result }
{
    word_at(bytes, at).leading_zeros() as usize
}

/// The number whose code begins there with so many zeros.
fn number_behind(bytes: &[u8], at: usize, zeros: usize) -> u32
    requires near { at < 2 ^ 50 }
    requires few { zeros < 32 }
    requires begins { BeginsZeros (drop at (bits_of bytes.now)) zeros }
    ensures { BeginsCode (drop at (bits_of bytes.now)) zeros result }
{
    word_at(bytes, at + zeros) >> (31 - zeros)
}

/// How many of so many bits are there from there on.
fn held_at(bytes: &[u8], at: usize, count: usize) -> usize
    requires near { at < 2 ^ 50 }
    requires few { count < 100 }
    ensures { result ≡ min count (length (drop at (bits_of bytes.now))) }
{
    if bytes.len() <= (at + count) / 8 {
        (8 * bytes.len()).saturating_sub(at).min(count)
    } else {
        count
    }
}

/// The number whose code stands there, and how wide the code is; where there is none, how many bits still begin one.
pub(crate) fn number_at(bytes: &[u8], at: usize) -> Result<(u32, usize), usize>
    requires { at < 2 ^ 50 }
    ensures { MatchResult result (λ r. IsCode 4294967295 (drop at (bits_of bytes.now)) r.0 r.1)
        (λ k. CodeStops 4294967295 (drop at (bits_of bytes.now)) k) }
{
    let zeros = zeros_at(bytes, at);
    if zeros > 31 {
        return Err(held_at(bytes, at, 31));
    }
    let number = number_behind(bytes, at, zeros);
    whole_at(bytes, at, number, zeros)
}

/// The number and the width of its code, where all its bits are there; else how many are.
fn whole_at(bytes: &[u8], at: usize, number: u32, zeros: usize) -> Result<(u32, usize), usize>
    requires near { at < 2 ^ 50 }
    requires few { zeros < 32 }
    requires begins { BeginsCode (drop at (bits_of bytes.now)) zeros number }
    ensures { (greatest : ℕ) → number ≤ greatest →
        MatchResult result (λ r. IsCode greatest (drop at (bits_of bytes.now)) r.0 r.1)
        (λ k. CodeStops greatest (drop at (bits_of bytes.now)) k) }
{
    let width = 2 * zeros + 1;
    let held = held_at(bytes, at, width);
    if held < width {
        Err(held)
    } else {
        Ok((number, width))
    }
}

/// The number whose code the bytes begin with, from 1 to 33, and how wide the code is; where there is none, how many
/// bits still begin one.
pub(crate) fn depth_in_front(bytes: &[u8]) -> Result<(u32, usize), usize>
    ensures { MatchResult result (λ r. IsCode 33 (bits_of bytes.now) r.0 r.1)
        (λ k. CodeStops 33 (bits_of bytes.now) k) }
{
    let zeros = zeros_at(bytes, 0);
    if zeros > 5 {
        return Err(held_at(bytes, 0, 5));
    }
    let number = number_behind(bytes, 0, zeros);
    if number > 33 {
        return Err(6 + zeros_at(bytes, 6));
    }
    whole_at(bytes, 0, number, zeros)
}

/// How many bytes there are up to the end of the padding behind so many bits; where it holds a one, the place of the
/// first one.
pub(crate) fn padding_at(bytes: &[u8], at: usize) -> Result<usize, usize>
    requires near { at < 2 ^ 50 }
    requires within { at ≤ length (bits_of bytes.now) }
    ensures { MatchResult result (λ used. EndsPadded (bits_of bytes.now) at used)
        (λ place. PaddingStops (bits_of bytes.now) at place) }
{
    let wanting = (8 - at % 8) % 8;
    let zeros = zeros_at(bytes, at);
    if zeros < wanting {
        Err(at + zeros)
    } else {
        Ok((at + wanting) / 8)
    }
}
