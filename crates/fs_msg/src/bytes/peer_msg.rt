//! Messages between servers as bytes.
ghost use Rattle.std.specs.Prelude.{◌≡◌, ◌++◌, ◌∷◌, [], true, OnOk};
ghost use Rattle.fs_wire.specs.Readers.{Gives};
ghost use Rattle.fs_msg.specs.Spelling.{peer_message};
ghost use Rattle.fs_msg.specs.Reading.{is_peer_tag, peer_of};
ghost use Rattle.fs_msg.specs.Ranges.{FitsPeerMessage};
ghost use Rattle.fs_msg.specs.Readable.{is_readable_peer_message};

use crate::bytes::parcel::{parcel_of, put_parcel};
use crate::bytes::why::{put_why, why_of};
use crate::decide::Decide;
use crate::done::Done;
use crate::peer_msg::PeerMsg;
use crate::prepare::Prepare;
use crate::voted::Voted;
use fs_ident::{FileId, List, PathNo};
use fs_wire::{ReadError, Wire, put_tag, put_tag_1, put_tag_2, put_tag_3};
use std::alloc::{AllocError, Global};

/// Whether a message between servers has the tag.
pub(crate) fn is_peer_tag(b: u8) -> bool
    ensures { result ≡ is_peer_tag b }
{
    33 <= b && b <= 42
}

/// Adds the spelling of a message between servers at the end.
#[tactic(auto, unfolding(crate::specs::Spelling::peer_message), using(fs_wire::proofs::Readable::always_list))]
pub(crate) fn put_peer(m: &PeerMsg, out: &mut Vec<u8>) -> Result<(), AllocError>
    ensures text { OnOk result (out.new.items ≡ out.old.items ++ peer_message m.now) }
    ensures fits { OnOk result (is_readable_peer_message m.now ≡ true → FitsPeerMessage m.now) }
{
    match m {
        PeerMsg::Prepare { prepare } => put_tag_1(33, prepare, out),
        PeerMsg::Vote { voted } => put_tag_1(34, voted, out),
        PeerMsg::Decide { decide } => put_tag_1(35, decide, out),
        PeerMsg::Done { done } => put_tag_1(36, done, out),
        PeerMsg::Parcel { parcel } => {
            put_tag(37, out)?;
            put_parcel(parcel, out)
        }
        PeerMsg::PathAsk { file, parent } => put_tag_2(38, file, parent, out),
        PeerMsg::PathGrant { no, file, path } => put_tag_3(39, no, file, path, out),
        PeerMsg::PathNo { file, why } => {
            put_tag_1(40, file, out)?;
            put_why(why, out)
        }
        PeerMsg::PathRecall { no } => put_tag_1(41, no, out),
        PeerMsg::PathRelease { no } => put_tag_1(42, no, out),
    }
}

/// The message between servers behind its tag.
#[tactic(auto, unfolding(fs_wire::specs::Readers::either_at, fs_wire::specs::Readers::pair_at, fs_wire::specs::Readers::then_at, fs_wire::specs::Readers::map_at))]
pub(crate) fn peer_of(alloc: Global, tag: u8, rest: &[u8]) -> Result<(PeerMsg, &[u8]), ReadError>
    ensures { Gives (λ x. (x.0, x.1.now)) result (peer_of tag rest.now) }
{
    match tag {
        33 => {
            let (prepare, rest) = Prepare::get(alloc, rest)?;
            Ok((PeerMsg::Prepare { prepare }, rest))
        }
        34 => {
            let (voted, rest) = Voted::get(alloc, rest)?;
            Ok((PeerMsg::Vote { voted }, rest))
        }
        35 => {
            let (decide, rest) = Decide::get(alloc, rest)?;
            Ok((PeerMsg::Decide { decide }, rest))
        }
        36 => {
            let (done, rest) = Done::get(alloc, rest)?;
            Ok((PeerMsg::Done { done }, rest))
        }
        37 => {
            let (parcel, rest) = parcel_of(alloc, rest)?;
            Ok((PeerMsg::Parcel { parcel }, rest))
        }
        38 => {
            let ((file, parent), rest) = <(FileId, FileId)>::get(alloc, rest)?;
            Ok((PeerMsg::PathAsk { file, parent }, rest))
        }
        39 => {
            let ((no, (file, path)), rest) = <(PathNo, (FileId, List<FileId>))>::get(alloc, rest)?;
            Ok((PeerMsg::PathGrant { no, file, path }, rest))
        }
        40 => {
            let (file, rest) = FileId::get(alloc, rest)?;
            let (why, rest) = why_of(alloc, rest)?;
            Ok((PeerMsg::PathNo { file, why }, rest))
        }
        41 => {
            let (no, rest) = PathNo::get(alloc, rest)?;
            Ok((PeerMsg::PathRecall { no }, rest))
        }
        _ => {
            let (no, rest) = PathNo::get(alloc, rest)?;
            Ok((PeerMsg::PathRelease { no }, rest))
        }
    }
}
