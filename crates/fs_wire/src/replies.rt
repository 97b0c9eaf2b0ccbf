//! Replies.
ghost use Rattle.std.specs.Prelude.{true};
ghost use Rattle.fs_wire.specs.Spelling.{reply};
ghost use Rattle.fs_wire.specs.Readers.{Gives};
ghost use Rattle.fs_wire.specs.Reading.{reply_at, gone_to_info_of, exists_to_reaped_of};
ghost use Rattle.fs_wire.specs.Ranges.{FitsReply};

use crate::fault::ReadError;
use crate::numbers::tag_of;
use crate::puts::{put_tag, put_tag_1, put_tag_2};
use crate::wire::Wire;
use fs_ident::{FileId, List, Name};
use fs_model::Reply;
use std::alloc::{AllocError, Global};

impl Wire for Reply {
    ghost text = { reply };

    ghost at = { reply_at };

    ghost fits = { FitsReply };

    ghost readable = { λ _. true };

    #[tactic(auto, unfolding(crate::specs::Spelling::reply), using(crate::proofs::Readable::always_list))]
    fn put(&self, out: &mut Vec<u8>) -> Result<(), AllocError> {
        match self {
            Reply::Gone => put_tag(0, out),
            Reply::NotDir => put_tag(1, out),
            Reply::GoneTo => put_tag(2, out),
            Reply::NotDirTo => put_tag(3, out),
            Reply::NoName => put_tag(4, out),
            Reply::Found(file) => put_tag_1(5, file, out),
            Reply::Names(names) => put_tag_1(6, names, out),
            Reply::IsFile => put_tag(7, out),
            Reply::IsDir => put_tag(8, out),
            Reply::Info { size, stamp } => put_tag_2(9, size, stamp, out),
            Reply::Exists => put_tag(10, out),
            Reply::BadId => put_tag(11, out),
            Reply::Made => put_tag(12, out),
            Reply::HandleUsed => put_tag(13, out),
            Reply::Sharing => put_tag(14, out),
            Reply::Opened => put_tag(15, out),
            Reply::NoHandle => put_tag(16, out),
            Reply::Closed => put_tag(17, out),
            Reply::NoAccess => put_tag(18, out),
            Reply::Set => put_tag(19, out),
            Reply::NotEmpty => put_tag(20, out),
            Reply::InUse => put_tag(21, out),
            Reply::Deleted => put_tag(22, out),
            Reply::Cycle => put_tag(23, out),
            Reply::Renamed => put_tag(24, out),
            Reply::Reaped => put_tag(25, out),
        }
    }

    #[tactic(auto, unfolding(crate::specs::Reading::reply_at, crate::specs::Readers::then_at, crate::specs::Readers::either_at))]
    fn get(alloc: Global, bytes: &[u8]) -> Result<(Reply, &[u8]), ReadError> {
        let (tag, rest) = tag_of(26, bytes)?;
        if tag < 10 {
            return gone_to_info_of(alloc, tag, rest);
        }
        exists_to_reaped_of(tag, rest)
    }
}

/// The reply behind a tag from 0 to 9.
#[tactic(auto, unfolding(crate::specs::Readers::either_at, crate::specs::Readers::always_at, crate::specs::Readers::map_at))]
fn gone_to_info_of(alloc: Global, tag: u8, bytes: &[u8]) -> Result<(Reply, &[u8]), ReadError>
    ensures { Gives (λ x. (x.0, x.1.now)) result (gone_to_info_of tag bytes.now) }
{
    match tag {
        0 => Ok((Reply::Gone, bytes)),
        1 => Ok((Reply::NotDir, bytes)),
        2 => Ok((Reply::GoneTo, bytes)),
        3 => Ok((Reply::NotDirTo, bytes)),
        4 => Ok((Reply::NoName, bytes)),
        5 => {
            let (file, rest) = FileId::get(alloc, bytes)?;
            Ok((Reply::Found(file), rest))
        }
        6 => {
            let (names, rest) = <List<Name>>::get(alloc, bytes)?;
            Ok((Reply::Names(names), rest))
        }
        7 => Ok((Reply::IsFile, bytes)),
        8 => Ok((Reply::IsDir, bytes)),
        _ => {
            let ((size, stamp), rest) = <(u64, u64)>::get(alloc, bytes)?;
            Ok((Reply::Info { size, stamp }, rest))
        }
    }
}

/// The reply behind a tag from 10 on.
#[tactic(auto, unfolding(crate::specs::Readers::either_at, crate::specs::Readers::always_at))]
fn exists_to_reaped_of(tag: u8, bytes: &[u8]) -> Result<(Reply, &[u8]), ReadError>
    ensures { Gives (λ x. (x.0, x.1.now)) result (exists_to_reaped_of tag bytes.now) }
{
    let reply = match tag {
        10 => Reply::Exists,
        11 => Reply::BadId,
        12 => Reply::Made,
        13 => Reply::HandleUsed,
        14 => Reply::Sharing,
        15 => Reply::Opened,
        16 => Reply::NoHandle,
        17 => Reply::Closed,
        18 => Reply::NoAccess,
        19 => Reply::Set,
        20 => Reply::NotEmpty,
        21 => Reply::InUse,
        22 => Reply::Deleted,
        23 => Reply::Cycle,
        24 => Reply::Renamed,
        _ => Reply::Reaped,
    };
    Ok((reply, bytes))
}
