//! Operations.
ghost use Rattle.fs_wire.specs.Spelling.{op};
ghost use Rattle.fs_wire.specs.Readers.{Gives};
ghost use Rattle.fs_wire.specs.Reading.{op_at, lookup_to_info_of, create_to_set_of, delete_to_reap_of};
ghost use Rattle.fs_wire.specs.Ranges.{FitsOp};
ghost use Rattle.fs_wire.specs.Readable.{is_readable_op};

use crate::fault::ReadError;
use crate::numbers::tag_of;
use crate::puts::{put_tag_1, put_tag_2, put_tag_3, put_tag_4};
use crate::wire::Wire;
use fs_ident::{FileId, Kind, Name, Session};
use fs_model::Op;
use fs_modes::Modes;
use std::alloc::{AllocError, Global};

impl Wire for Op {
    ghost text = { op };

    ghost at = { op_at };

    ghost fits = { FitsOp };

    ghost readable = { is_readable_op };

    #[tactic(auto, unfolding(crate::specs::Spelling::op))]
    fn put(&self, out: &mut Vec<u8>) -> Result<(), AllocError> {
        match self {
            Op::Lookup { dir, name } => put_tag_2(0, dir, name, out),
            Op::List { dir } => put_tag_1(1, dir, out),
            Op::Kind { file } => put_tag_1(2, file, out),
            Op::Info { file } => put_tag_1(3, file, out),
            Op::Create {
                dir,
                name,
                kind,
                id,
            } => put_tag_4(4, dir, name, kind, id, out),
            Op::OpenFile { file, h, modes } => put_tag_3(5, file, h, modes, out),
            Op::Close { file, h } => put_tag_2(6, file, h, out),
            Op::Set {
                file,
                h,
                size,
                stamp,
            } => put_tag_4(7, file, h, size, stamp, out),
            Op::Delete { dir, name } => put_tag_2(8, dir, name, out),
            Op::Rename {
                sdir,
                sname,
                ddir,
                dname,
            } => put_tag_4(9, sdir, sname, ddir, dname, out),
            Op::Reap { file, session } => put_tag_2(10, file, session, out),
        }
    }

    #[tactic(auto, unfolding(crate::specs::Reading::op_at, crate::specs::Readers::then_at, crate::specs::Readers::either_at))]
    fn get(alloc: Global, bytes: &[u8]) -> Result<(Op, &[u8]), ReadError> {
        let (tag, rest) = tag_of(11, bytes)?;
        if tag < 4 {
            return lookup_to_info_of(alloc, tag, rest);
        }
        if tag < 8 {
            return create_to_set_of(alloc, tag, rest);
        }
        delete_to_reap_of(alloc, tag, rest)
    }
}

/// The operation behind a tag from 0 to 3.
#[tactic(auto, unfolding(crate::specs::Readers::either_at, crate::specs::Readers::map_at))]
fn lookup_to_info_of(alloc: Global, tag: u8, bytes: &[u8]) -> Result<(Op, &[u8]), ReadError>
    ensures { Gives (λ x. (x.0, x.1.now)) result (lookup_to_info_of tag bytes.now) }
{
    match tag {
        0 => {
            let ((dir, name), rest) = <(FileId, Name)>::get(alloc, bytes)?;
            Ok((Op::Lookup { dir, name }, rest))
        }
        1 => {
            let (dir, rest) = FileId::get(alloc, bytes)?;
            Ok((Op::List { dir }, rest))
        }
        2 => {
            let (file, rest) = FileId::get(alloc, bytes)?;
            Ok((Op::Kind { file }, rest))
        }
        _ => {
            let (file, rest) = FileId::get(alloc, bytes)?;
            Ok((Op::Info { file }, rest))
        }
    }
}

/// The operation behind a tag from 4 to 7.
#[tactic(auto, unfolding(crate::specs::Readers::either_at, crate::specs::Readers::map_at))]
fn create_to_set_of(alloc: Global, tag: u8, bytes: &[u8]) -> Result<(Op, &[u8]), ReadError>
    ensures { Gives (λ x. (x.0, x.1.now)) result (create_to_set_of tag bytes.now) }
{
    match tag {
        4 => {
            let (x, rest) = <(FileId, (Name, (Kind, Option<FileId>)))>::get(alloc, bytes)?;
            let (dir, (name, (kind, id))) = x;
            let op = Op::Create {
                dir,
                name,
                kind,
                id,
            };
            Ok((op, rest))
        }
        5 => {
            let ((file, (h, modes)), rest) = <(FileId, (u32, Modes))>::get(alloc, bytes)?;
            Ok((Op::OpenFile { file, h, modes }, rest))
        }
        6 => {
            let ((file, h), rest) = <(FileId, u32)>::get(alloc, bytes)?;
            Ok((Op::Close { file, h }, rest))
        }
        _ => {
            let (x, rest) = <(FileId, (u32, (u64, u64)))>::get(alloc, bytes)?;
            let (file, (h, (size, stamp))) = x;
            let op = Op::Set {
                file,
                h,
                size,
                stamp,
            };
            Ok((op, rest))
        }
    }
}

/// The operation behind a tag from 8 on.
#[tactic(auto, unfolding(crate::specs::Readers::either_at, crate::specs::Readers::map_at))]
fn delete_to_reap_of(alloc: Global, tag: u8, bytes: &[u8]) -> Result<(Op, &[u8]), ReadError>
    ensures { Gives (λ x. (x.0, x.1.now)) result (delete_to_reap_of tag bytes.now) }
{
    match tag {
        8 => {
            let ((dir, name), rest) = <(FileId, Name)>::get(alloc, bytes)?;
            Ok((Op::Delete { dir, name }, rest))
        }
        9 => {
            let (x, rest) = <(FileId, (Name, (FileId, Name)))>::get(alloc, bytes)?;
            let (sdir, (sname, (ddir, dname))) = x;
            let op = Op::Rename {
                sdir,
                sname,
                ddir,
                dname,
            };
            Ok((op, rest))
        }
        _ => {
            let ((file, session), rest) = <(FileId, Session)>::get(alloc, bytes)?;
            Ok((Op::Reap { file, session }, rest))
        }
    }
}
