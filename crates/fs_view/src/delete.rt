//! What a delete stands on.
ghost use Rattle.std.specs.Prelude.{◌≡◌, false, IfOk};
ghost use Rattle.fs_model.specs.declared.op.Op.TheVariants as op;
ghost use Rattle.fs_model.specs.declared.reply.Reply.TheVariants as reply;
ghost use Rattle.fs_view.specs.Script.{accesses, answer, ask_delete, ask_deleted, ask_empty, ask_others, ask_unused};
ghost use Rattle.fs_view.specs.Told.{child_told};
ghost use Rattle.fs_view.specs.View.{along, walk_in};

use crate::told;
use crate::view::View;
use crate::walk::{Walk, ask, others};
use fs_field::{Field, LeaseKind, Value};
use fs_ident::{FileId, Memory, Name, Twin};
use fs_model::Reply;
use fs_modes::Mode;
use std::alloc::Global;

pub fn delete(
    view: &View,
    alloc: Global,
    now: u64,
    dir: &FileId,
    name: &Name,
) -> Result<Walk, Memory>
    ensures { IfOk result (λ w. w ≡ walk_in view.now now (op.Delete dir.now name.now)) }
{
    let field = Field::Life(dir.copy(alloc)?);
    let (item, life) = ask(view, alloc, now, field, LeaseKind::Shared)?;
    if let Some(reply) = told::no_dir(&life) {
        return item.before(Walk::answer(alloc, reply));
    }
    item.before(delete_child(view, alloc, now, dir, name)?)
}

fn delete_child(
    view: &View,
    alloc: Global,
    now: u64,
    dir: &FileId,
    name: &Name,
) -> Result<Walk, Memory>
    ensures { IfOk result (λ w. w ≡ along view.now now (ask_delete dir.now name.now)) }
{
    let field = Field::Child(dir.copy(alloc)?, name.copy(alloc)?);
    let (item, child) = ask(view, alloc, now, field, LeaseKind::Exclusive)?;
    item.before(delete_file(view, alloc, now, &child)?)
}

/// Of the file, once it is known.
fn delete_file(view: &View, alloc: Global, now: u64, child: &Option<Value>) -> Result<Walk, Memory>
    ensures { IfOk result (λ w. w ≡ along view.now now (ask_deleted (child_told child.now))) }
{
    match child {
        Some(Value::Child(Some(file))) => {
            let field = Field::Life(file.copy(alloc)?);
            let (item, _) = ask(view, alloc, now, field, LeaseKind::Exclusive)?;
            item.before(delete_empty(view, alloc, now, file)?)
        }
        _ => Ok(Walk::answer(alloc, Reply::NoName)),
    }
}

fn delete_empty(view: &View, alloc: Global, now: u64, file: &FileId) -> Result<Walk, Memory>
    ensures { IfOk result (λ w. w ≡ along view.now now (ask_empty file.now)) }
{
    let field = Field::Names(file.copy(alloc)?);
    let (item, names) = ask(view, alloc, now, field, LeaseKind::Shared)?;
    if let Some(reply) = told::not_empty(&names) {
        return item.before(Walk::answer(alloc, reply));
    }
    item.before(delete_unused(view, alloc, now, file)?)
}

fn delete_unused(view: &View, alloc: Global, now: u64, file: &FileId) -> Result<Walk, Memory>
    ensures { IfOk result (λ w. w ≡ along view.now now (ask_unused file.now)) }
{
    let field = Field::Own(file.copy(alloc)?);
    let (item, own) = ask(view, alloc, now, field, LeaseKind::Exclusive)?;
    if let Some(reply) = told::in_use(&own) {
        return item.before(Walk::answer(alloc, reply));
    }
    item.before(unused_by_others(view, alloc, now, file)?)
}

/// Each access as it is with the other sessions.
fn unused_by_others(view: &View, alloc: Global, now: u64, file: &FileId) -> Result<Walk, Memory>
    ensures { IfOk result (λ w. w ≡
        along view.now now (ask_others reply.InUse accesses file.now false
        (answer reply.Deleted))) }
{
    let accesses = [Mode::AccR, Mode::AccW, Mode::AccD];
    let deleted = Walk::answer(alloc, Reply::Deleted);
    others(
        view,
        alloc,
        now,
        Reply::InUse,
        &accesses,
        file,
        false,
        deleted,
    )
}
