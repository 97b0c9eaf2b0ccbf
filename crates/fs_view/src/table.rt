//! The table of needs, walked over what a view makes known.
ghost use Rattle.std.specs.Prelude.{◌≡◌, IfOk};
ghost use Rattle.fs_view.specs.View.{nameless, walk_in};

use crate::view::View;
use crate::walk::{self, Walk};
use crate::{delete, rename};
use fs_ident::Memory;
use fs_model::{Op, Reply};
use std::alloc::Global;

/// The walk of the operation's row of the table.
pub fn walk_of(view: &View, alloc: Global, now: u64, op: &Op) -> Result<Walk, Memory>
    ensures { IfOk result (λ w. w ≡ walk_in view.now now op.now) }
{
    match op {
        Op::Lookup { dir, name } => walk::look_up(view, alloc, now, dir, name),
        Op::List { dir } => walk::list(view, alloc, now, dir),
        Op::Kind { file } => walk::kind(view, alloc, now, file),
        Op::Info { file } => walk::info(view, alloc, now, file),
        Op::Create {
            dir,
            name,
            kind: _,
            id,
        } => walk::create(view, alloc, now, dir, name, id),
        Op::OpenFile { file, h, modes } => walk::open(view, alloc, now, file, *h, *modes),
        Op::Close { file, h } => walk::close(view, alloc, now, file, *h),
        Op::Set {
            file,
            h,
            size: _,
            stamp: _,
        } => walk::set(view, alloc, now, file, *h),
        Op::Delete { dir, name } => delete::delete(view, alloc, now, dir, name),
        Op::Rename {
            sdir,
            sname,
            ddir,
            dname,
        } => rename::rename(view, alloc, now, sdir, sname, ddir, dname),
        Op::Reap {
            file: _,
            session: _,
        } => Ok(Walk::answer(alloc, Reply::Reaped)),
    }
}

/// The walk of the operation's row of the table, whatever identifier a create names.
pub fn nameless_walk(view: &View, alloc: Global, now: u64, op: &Op) -> Result<Walk, Memory>
    ensures { IfOk result (λ w. w ≡ walk_in view.now now (nameless op.now)) }
{
    match op {
        Op::Create {
            dir,
            name,
            kind: _,
            id: _,
        } => walk::create(view, alloc, now, dir, name, &None),
        op => walk_of(view, alloc, now, op),
    }
}
