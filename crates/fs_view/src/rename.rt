//! What a rename stands on.
ghost use Rattle.std.specs.Prelude.{◌≡◌, ◌∷◌, [], false, IfOk};
ghost use Rattle.fs_model.specs.declared.op.Op.TheVariants as op;
ghost use Rattle.fs_model.specs.declared.reply.Reply.TheVariants as reply;
ghost use Rattle.fs_modes.specs.declared.modes.Mode.TheVariants.{DenyD};
ghost use Rattle.fs_view.specs.Script.{answer, ask_movable, ask_moved, ask_moved_file, ask_new_place, ask_old_place, ask_others, ask_rename, ask_unless_there};
ghost use Rattle.fs_view.specs.Told.{child_told};
ghost use Rattle.fs_view.specs.View.{along, walk_in};

use crate::told;
use crate::view::View;
use crate::walk::{Walk, ask, others};
use fs_field::{Field, LeaseKind, Value};
use fs_ident::{FileId, Memory, Name, Twin};
use fs_model::Reply;
use fs_modes::Mode;
use std::alloc::Global;

pub fn rename(
    view: &View,
    alloc: Global,
    now: u64,
    sdir: &FileId,
    sname: &Name,
    ddir: &FileId,
    dname: &Name,
) -> Result<Walk, Memory>
    ensures { IfOk result (λ w. w ≡
        walk_in view.now now (op.Rename sdir.now sname.now ddir.now dname.now)) }
{
    let field = Field::Life(sdir.copy(alloc)?);
    let (item, life) = ask(view, alloc, now, field, LeaseKind::Shared)?;
    if let Some(reply) = told::no_dir(&life) {
        return item.before(Walk::answer(alloc, reply));
    }
    item.before(rename_to(view, alloc, now, sdir, sname, ddir, dname)?)
}

fn rename_to(
    view: &View,
    alloc: Global,
    now: u64,
    sdir: &FileId,
    sname: &Name,
    ddir: &FileId,
    dname: &Name,
) -> Result<Walk, Memory>
    ensures { IfOk result (λ w. w ≡
        along view.now now (ask_rename sdir.now sname.now ddir.now dname.now)) }
{
    if sdir == ddir {
        return rename_from(view, alloc, now, sdir, sname, ddir, dname);
    }
    let field = Field::Life(ddir.copy(alloc)?);
    let (item, life) = ask(view, alloc, now, field, LeaseKind::Shared)?;
    if let Some(reply) = told::no_dir_to(&life) {
        return item.before(Walk::answer(alloc, reply));
    }
    item.before(rename_from(view, alloc, now, sdir, sname, ddir, dname)?)
}

/// Of the old place.
fn rename_from(
    view: &View,
    alloc: Global,
    now: u64,
    sdir: &FileId,
    sname: &Name,
    ddir: &FileId,
    dname: &Name,
) -> Result<Walk, Memory>
    ensures { IfOk result (λ w. w ≡
        along view.now now (ask_old_place sdir.now sname.now ddir.now dname.now)) }
{
    let field = Field::Child(sdir.copy(alloc)?, sname.copy(alloc)?);
    let (item, child) = ask(view, alloc, now, field, LeaseKind::Exclusive)?;
    if let Some(reply) = told::no_name(&child) {
        return item.before(Walk::answer(alloc, reply));
    }
    if sdir == ddir && sname == dname {
        return item.before(Walk::answer(alloc, Reply::Renamed));
    }
    item.before(rename_as(view, alloc, now, sdir, ddir, dname, &child)?)
}

/// Of the new place.
fn rename_as(
    view: &View,
    alloc: Global,
    now: u64,
    sdir: &FileId,
    ddir: &FileId,
    dname: &Name,
    moved: &Option<Value>,
) -> Result<Walk, Memory>
    ensures { IfOk result (λ w. w ≡
        along view.now now (ask_new_place sdir.now ddir.now dname.now (child_told moved.now))) }
{
    let field = Field::Child(ddir.copy(alloc)?, dname.copy(alloc)?);
    let (item, child) = ask(view, alloc, now, field, LeaseKind::Exclusive)?;
    if let Some(reply) = told::taken_name(&child) {
        return item.before(Walk::answer(alloc, reply));
    }
    item.before(rename_moved(view, alloc, now, sdir, ddir, moved)?)
}

/// Of the file, once it is known.
fn rename_moved(
    view: &View,
    alloc: Global,
    now: u64,
    sdir: &FileId,
    ddir: &FileId,
    moved: &Option<Value>,
) -> Result<Walk, Memory>
    ensures { IfOk result (λ w. w ≡
        along view.now now (ask_moved sdir.now ddir.now (child_told moved.now))) }
{
    match moved {
        Some(Value::Child(Some(file))) => rename_file(view, alloc, now, sdir, ddir, file),
        _ => Ok(Walk::answer(alloc, Reply::Renamed)),
    }
}

fn rename_file(
    view: &View,
    alloc: Global,
    now: u64,
    sdir: &FileId,
    ddir: &FileId,
    file: &FileId,
) -> Result<Walk, Memory>
    ensures { IfOk result (λ w. w ≡
        along view.now now (ask_moved_file sdir.now ddir.now file.now)) }
{
    if file == sdir || file == ddir {
        return movable(view, alloc, now, file);
    }
    let field = Field::Life(file.copy(alloc)?);
    let (item, _) = ask(view, alloc, now, field, LeaseKind::Shared)?;
    item.before(movable(view, alloc, now, file)?)
}

/// Of the handles on the file.
fn movable(view: &View, alloc: Global, now: u64, file: &FileId) -> Result<Walk, Memory>
    ensures { IfOk result (λ w. w ≡ along view.now now (ask_movable file.now)) }
{
    let field = Field::Own(file.copy(alloc)?);
    let (item, own) = ask(view, alloc, now, field, LeaseKind::Exclusive)?;
    if let Some(reply) = told::denied(&own) {
        return item.before(Walk::answer(alloc, reply));
    }
    item.before(movable_by_others(view, alloc, now, file)?)
}

fn movable_by_others(view: &View, alloc: Global, now: u64, file: &FileId) -> Result<Walk, Memory>
    ensures { IfOk result (λ w. w ≡
        along view.now now (ask_others reply.Sharing (DenyD ∷ []) file.now false
        (answer reply.Renamed))) }
{
    let renamed = Walk::answer(alloc, Reply::Renamed);
    others(
        view,
        alloc,
        now,
        Reply::Sharing,
        &[Mode::DenyD],
        file,
        false,
        renamed,
    )
}
