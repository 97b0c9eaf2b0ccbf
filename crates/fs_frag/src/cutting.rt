//! Messages cut into segments.
ghost use Rattle.std.specs.Prelude.{◌≡◌, ◌++◌, length, IfOk, OnOk};
ghost use Rattle.fs_frag.specs.Cut.{cut_of, pieces, piece_count};

use crate::segment::{SEGMENT, Segment};
use fs_ident::{List, Memory};
use std::alloc::Global;

/// The segments of a message: its length as eight bytes and then the message, in full segments and a rest.
pub fn cut(alloc: Global, message: &[u8]) -> Result<List<Segment>, Memory>
    ensures { IfOk result (λ segments. segments ≡ cut_of message.now) }
{
    let (front, rest) = message.split_at(message.len().min(SEGMENT - 8));
    let mut segments = List::new(alloc);
    segments.push(Segment::behind_length(alloc, message.len() as u64, front)?)?;
    add_pieces(alloc, rest, &mut segments)?;
    Ok(segments)
}

/// How many segments the message has.
pub fn segment_count(message: &[u8]) -> u64
    ensures { result ≡ length (cut_of message.now) }
{
    (message.len() as u64 + 8).div_ceil(SEGMENT as u64)
}

/// Adds the bytes in full segments and a rest.
fn add_pieces(alloc: Global, bytes: &[u8], segments: &mut List<Segment>) -> Result<(), Memory>
    ensures { OnOk result (segments.new ≡
        segments.old ++ pieces (piece_count (length bytes.now)) bytes.now) }
{
    let mut rest = bytes;
    while !rest.is_empty() {
        let (prefix, after) = rest.split_at(rest.len().min(SEGMENT));
        match Segment::new(alloc, prefix)? {
            Some(segment) => segments.push(segment)?,
            None => unreachable!(),
        }
        rest = after;
    }
    Ok(())
}
