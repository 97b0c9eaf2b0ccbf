//! Bytes cut at a separator.
ghost use Rattle.std.specs.Prelude.{◌≡◌, ◌<◌, ◌++◌, ◌∷◌, length, option_map, IfSome};
ghost use Rattle.fs_schedule.specs.Separated.{Lacks, rest_from};
ghost use Rattle.fs_schedule.specs.Lines.{lines_of, lines_after};

/// The bytes before the first `b`, and those behind it where it is there.
pub fn cut(bytes: &[u8], b: u8) -> (&[u8], Option<&[u8]>)
    ensures whole { bytes.now ≡ result.0.now ++ rest_from b (option_map (λ r. r.now) result.1) }
    ensures front { Lacks b result.0.now }
{
    for at in 0..bytes.len() {
        if bytes[at] == b {
            return (&bytes[..at], Some(&bytes[at + 1..]));
        }
    }
    (bytes, None)
}

/// The first line of a text, and what follows it where something does.
pub fn next_line(bytes: &[u8]) -> (&[u8], Option<&[u8]>)
    ensures lines { lines_of bytes.now ≡
        result.0.now ∷ lines_after (option_map (λ r. r.now) result.1) }
    ensures shorter { IfSome result.1 (λ r. length r.now < length bytes.now) }
{
    let (line, rest) = cut(bytes, b'\n');
    let Some(rest) = rest else {
        return (line, None);
    };
    if rest.is_empty() {
        return (line, None);
    }
    (line, Some(rest))
}
