//! Reasons to ask again as bytes.
ghost use Rattle.std.specs.Prelude.{◌≡◌, ◌++◌, OnOk};
ghost use Rattle.fs_wire.specs.Readers.{Gives};
ghost use Rattle.fs_msg.specs.Spelling.{why};
ghost use Rattle.fs_msg.specs.Reading.{why_at};
ghost use Rattle.fs_msg.specs.Ranges.{FitsWhy};

use fs_ident::{FileId, PathNo, TxnNo};
use fs_record::Why;
use fs_wire::{ReadError, Wire, put_tag, put_tag_1, put_tag_2, tag_of};
use std::alloc::{AllocError, Global};

/// Adds the spelling of a reason at the end. When out of memory, a part of it may stand there.
#[tactic(auto, unfolding(crate::specs::Spelling::why))]
pub fn put_why(w: &Why, out: &mut Vec<u8>) -> Result<(), AllocError>
    ensures text { OnOk result (out.new.items ≡ out.old.items ++ why w.now) }
    ensures fits { OnOk result (FitsWhy w.now) }
{
    match w {
        Why::Moved { prefix, to } => put_tag_2(0, prefix, to, out),
        Why::Wanted { file } => put_tag_1(1, file, out),
        Why::Frozen { file, txn } => put_tag_2(2, file, txn, out),
        Why::PathsOut { no } => put_tag_1(3, no, out),
        Why::Changed => put_tag(4, out),
        Why::NoChild => put_tag(5, out),
    }
}

/// The reason at the beginning, and the bytes behind it.
#[tactic(auto, unfolding(crate::specs::Reading::why_at, fs_wire::specs::Readers::then_at, fs_wire::specs::Readers::either_at, fs_wire::specs::Readers::always_at, fs_wire::specs::Readers::map_at))]
pub fn why_of(alloc: Global, bytes: &[u8]) -> Result<(Why, &[u8]), ReadError>
    ensures { Gives (λ x. (x.0, x.1.now)) result (why_at bytes.now) }
{
    let (tag, rest) = tag_of(6, bytes)?;
    match tag {
        0 => {
            let ((prefix, to), rest) = <(FileId, u8)>::get(alloc, rest)?;
            Ok((Why::Moved { prefix, to }, rest))
        }
        1 => {
            let (file, rest) = FileId::get(alloc, rest)?;
            Ok((Why::Wanted { file }, rest))
        }
        2 => {
            let ((file, txn), rest) = <(FileId, TxnNo)>::get(alloc, rest)?;
            Ok((Why::Frozen { file, txn }, rest))
        }
        3 => {
            let (no, rest) = PathNo::get(alloc, rest)?;
            Ok((Why::PathsOut { no }, rest))
        }
        4 => Ok((Why::Changed, rest)),
        _ => Ok((Why::NoChild, rest)),
    }
}
