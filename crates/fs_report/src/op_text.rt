//! The texts of operations.
ghost use Rattle.std.specs.Prelude.{◌≡◌, ◌++◌, ◌∷◌, OnOk};
ghost use Rattle.std.specs.Str.{IsUtf8};
ghost use Rattle.fs_report.specs.Texts.{op_text};

use crate::pieces::{
    next_id, next_id_or_dash, next_kind, next_modes, next_name, next_number, next_session, put_text,
};
use fs_ident::{FileId, Kind, Memory, Name, Session};
use fs_model::Op;
use fs_modes::Modes;
use std::alloc::Global;

/// A space and an operation.
pub(crate) fn next_op(alloc: Global, op: &Op, out: &mut Vec<u8>) -> Result<(), Memory>
    ensures bytes { OnOk result (out.new.items ≡ out.old.items ++ 32 ∷ op_text op.now) }
    ensures text { IsUtf8 out.old.items → OnOk result (IsUtf8 out.new.items) }
{
    put_text(" ", out)?;
    put_op(alloc, op, out)
}

/// An operation.
pub(crate) fn put_op(alloc: Global, op: &Op, out: &mut Vec<u8>) -> Result<(), Memory>
    ensures bytes { OnOk result (out.new.items ≡ out.old.items ++ op_text op.now) }
    ensures text { IsUtf8 out.old.items → OnOk result (IsUtf8 out.new.items) }
{
    match op {
        Op::Lookup { dir, name } => put_lookup(alloc, dir, name, out),
        Op::List { dir } => put_list(alloc, dir, out),
        Op::Kind { file } => put_kind(alloc, file, out),
        Op::Info { file } => put_info(alloc, file, out),
        Op::Create {
            dir,
            name,
            kind,
            id,
        } => put_create(alloc, dir, name, *kind, id, out),
        Op::OpenFile { file, h, modes } => put_open(alloc, file, *h, *modes, out),
        Op::Close { file, h } => put_close(alloc, file, *h, out),
        Op::Set {
            file,
            h,
            size,
            stamp,
        } => put_set(alloc, file, *h, *size, *stamp, out),
        Op::Delete { dir, name } => put_delete(alloc, dir, name, out),
        Op::Rename {
            sdir,
            sname,
            ddir,
            dname,
        } => put_rename(alloc, sdir, sname, ddir, dname, out),
        Op::Reap { file, session } => put_reap(alloc, file, *session, out),
    }
}

fn put_lookup(alloc: Global, dir: &FileId, name: &Name, out: &mut Vec<u8>) -> Result<(), Memory>
    ensures bytes { OnOk result (out.new.items ≡
        out.old.items ++ op_text (Op.Lookup dir.now name.now)) }
    ensures text { IsUtf8 out.old.items → OnOk result (IsUtf8 out.new.items) }
{
    put_text("lookup", out)?;
    next_id(alloc, dir, out)?;
    next_name(name, out)
}

fn put_list(alloc: Global, dir: &FileId, out: &mut Vec<u8>) -> Result<(), Memory>
    ensures bytes { OnOk result (out.new.items ≡ out.old.items ++ op_text (Op.List dir.now)) }
    ensures text { IsUtf8 out.old.items → OnOk result (IsUtf8 out.new.items) }
{
    put_text("list", out)?;
    next_id(alloc, dir, out)
}

fn put_kind(alloc: Global, file: &FileId, out: &mut Vec<u8>) -> Result<(), Memory>
    ensures bytes { OnOk result (out.new.items ≡ out.old.items ++ op_text (Op.Kind file.now)) }
    ensures text { IsUtf8 out.old.items → OnOk result (IsUtf8 out.new.items) }
{
    put_text("kind", out)?;
    next_id(alloc, file, out)
}

fn put_info(alloc: Global, file: &FileId, out: &mut Vec<u8>) -> Result<(), Memory>
    ensures bytes { OnOk result (out.new.items ≡ out.old.items ++ op_text (Op.Info file.now)) }
    ensures text { IsUtf8 out.old.items → OnOk result (IsUtf8 out.new.items) }
{
    put_text("info", out)?;
    next_id(alloc, file, out)
}

fn put_create(
    alloc: Global,
    dir: &FileId,
    name: &Name,
    kind: Kind,
    id: &Option<FileId>,
    out: &mut Vec<u8>,
) -> Result<(), Memory>
    ensures bytes { OnOk result (out.new.items ≡ out.old.items ++
        op_text (Op.Create dir.now name.now kind id.now)) }
    ensures text { IsUtf8 out.old.items → OnOk result (IsUtf8 out.new.items) }
{
    put_text("create", out)?;
    next_id(alloc, dir, out)?;
    next_name(name, out)?;
    next_kind(kind, out)?;
    next_id_or_dash(alloc, id, out)
}

fn put_open(
    alloc: Global,
    file: &FileId,
    h: u32,
    modes: Modes,
    out: &mut Vec<u8>,
) -> Result<(), Memory>
    ensures bytes { OnOk result (out.new.items ≡ out.old.items ++
        op_text (Op.OpenFile file.now h modes)) }
    ensures text { IsUtf8 out.old.items → OnOk result (IsUtf8 out.new.items) }
{
    put_text("open", out)?;
    next_id(alloc, file, out)?;
    next_number(alloc, u64::from(h), out)?;
    next_modes(modes, out)
}

fn put_close(alloc: Global, file: &FileId, h: u32, out: &mut Vec<u8>) -> Result<(), Memory>
    ensures bytes { OnOk result (out.new.items ≡ out.old.items ++ op_text (Op.Close file.now h)) }
    ensures text { IsUtf8 out.old.items → OnOk result (IsUtf8 out.new.items) }
{
    put_text("close", out)?;
    next_id(alloc, file, out)?;
    next_number(alloc, u64::from(h), out)
}

fn put_set(
    alloc: Global,
    file: &FileId,
    h: u32,
    size: u64,
    stamp: u64,
    out: &mut Vec<u8>,
) -> Result<(), Memory>
    ensures bytes { OnOk result (out.new.items ≡ out.old.items ++
        op_text (Op.Set file.now h size stamp)) }
    ensures text { IsUtf8 out.old.items → OnOk result (IsUtf8 out.new.items) }
{
    put_text("set", out)?;
    next_id(alloc, file, out)?;
    next_number(alloc, u64::from(h), out)?;
    next_number(alloc, size, out)?;
    next_number(alloc, stamp, out)
}

fn put_delete(alloc: Global, dir: &FileId, name: &Name, out: &mut Vec<u8>) -> Result<(), Memory>
    ensures bytes { OnOk result (out.new.items ≡
        out.old.items ++ op_text (Op.Delete dir.now name.now)) }
    ensures text { IsUtf8 out.old.items → OnOk result (IsUtf8 out.new.items) }
{
    put_text("delete", out)?;
    next_id(alloc, dir, out)?;
    next_name(name, out)
}

fn put_rename(
    alloc: Global,
    sdir: &FileId,
    sname: &Name,
    ddir: &FileId,
    dname: &Name,
    out: &mut Vec<u8>,
) -> Result<(), Memory>
    ensures bytes { OnOk result (out.new.items ≡ out.old.items ++
        op_text (Op.Rename sdir.now sname.now ddir.now dname.now)) }
    ensures text { IsUtf8 out.old.items → OnOk result (IsUtf8 out.new.items) }
{
    put_text("rename", out)?;
    next_id(alloc, sdir, out)?;
    next_name(sname, out)?;
    next_id(alloc, ddir, out)?;
    next_name(dname, out)
}

fn put_reap(alloc: Global, file: &FileId, session: Session, out: &mut Vec<u8>) -> Result<(), Memory>
    ensures bytes { OnOk result (out.new.items ≡
        out.old.items ++ op_text (Op.Reap file.now session)) }
    ensures text { IsUtf8 out.old.items → OnOk result (IsUtf8 out.new.items) }
{
    put_text("reap", out)?;
    next_id(alloc, file, out)?;
    next_session(alloc, session, out)
}
