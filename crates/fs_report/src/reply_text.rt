//! The texts of replies.
ghost use Rattle.std.specs.Prelude.{◌≡◌, ◌++◌, ◌∷◌, OnOk, flat_map};
ghost use Rattle.std.specs.Str.{IsUtf8};
ghost use Rattle.fs_ident.specs.Texts.{quoted};
ghost use Rattle.fs_report.specs.Texts.{reply_text};

use crate::pieces::{next_id, next_name, next_number, put_text};
use fs_ident::{Memory, Name};
use fs_model::Reply;
use std::alloc::Global;

/// A space and a reply.
pub(crate) fn next_reply(alloc: Global, reply: &Reply, out: &mut Vec<u8>) -> Result<(), Memory>
    ensures bytes { OnOk result (out.new.items ≡ out.old.items ++ 32 ∷ reply_text reply.now) }
    ensures text { IsUtf8 out.old.items → OnOk result (IsUtf8 out.new.items) }
{
    put_text(" ", out)?;
    put_reply(alloc, reply, out)
}

/// A reply.
pub(crate) fn put_reply(alloc: Global, reply: &Reply, out: &mut Vec<u8>) -> Result<(), Memory>
    ensures bytes { OnOk result (out.new.items ≡ out.old.items ++ reply_text reply.now) }
    ensures text { IsUtf8 out.old.items → OnOk result (IsUtf8 out.new.items) }
{
    match reply {
        Reply::Gone => put_text("gone", out),
        Reply::NotDir => put_text("notdir", out),
        Reply::GoneTo => put_text("goneto", out),
        Reply::NotDirTo => put_text("notdirto", out),
        Reply::NoName => put_text("noname", out),
        Reply::Found(id) => {
            put_text("found", out)?;
            next_id(alloc, id, out)
        }
        Reply::Names(names) => put_names(names.as_slice(), out),
        Reply::IsFile => put_text("isfile", out),
        Reply::IsDir => put_text("isdir", out),
        Reply::Info { size, stamp } => {
            put_text("info", out)?;
            next_number(alloc, *size, out)?;
            next_number(alloc, *stamp, out)
        }
        Reply::Exists => put_text("exists", out),
        Reply::BadId => put_text("badid", out),
        Reply::Made => put_text("made", out),
        Reply::HandleUsed => put_text("handleused", out),
        Reply::Sharing => put_text("sharing", out),
        Reply::Opened => put_text("opened", out),
        Reply::NoHandle => put_text("nohandle", out),
        Reply::Closed => put_text("closed", out),
        Reply::NoAccess => put_text("noaccess", out),
        Reply::Set => put_text("set", out),
        Reply::NotEmpty => put_text("notempty", out),
        Reply::InUse => put_text("inuse", out),
        Reply::Deleted => put_text("deleted", out),
        Reply::Cycle => put_text("cycle", out),
        Reply::Renamed => put_text("renamed", out),
        Reply::Reaped => put_text("reaped", out),
    }
}

/// The names of a directory.
fn put_names(names: &[Name], out: &mut Vec<u8>) -> Result<(), Memory>
    ensures bytes { OnOk result (out.new.items ≡
        out.old.items ++ reply_text (Reply.Names names.now)) }
    ensures text { IsUtf8 out.old.items → OnOk result (IsUtf8 out.new.items) }
{
    put_text("names", out)?;
    for name in names {
        next_name(name, out)?;
    }
    Ok(())
}
