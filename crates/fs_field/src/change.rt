//! What an effect does to the value of a field.
ghost use Rattle.std.specs.Prelude.{◌≡◌, OnOk, OnErr};
ghost use Rattle.fs_field.specs.After.{touches, touches_node, value_after, life_after, child_after, names_after, info_after, own_after};

use crate::effect::Effect;
use crate::field::Field;
use crate::handles::{with_handle, without_handle};
use crate::names::{with_name, without_name};
use crate::value::Value;
use fs_ident::{FileId, Kind, List, Memory, Name, Session, Twin};
use fs_modes::Modes;
use std::alloc::Global;

/// Whether the effect can change the value of the field.
pub fn touches(e: &Effect, field: &Field) -> bool
    ensures { result ≡ touches e.now field.now }
{
    match (e, field) {
        (Effect::SetChild { dir, name, to: _ }, Field::Child(d, n)) => d == dir && n == name,
        (
            Effect::SetChild {
                dir,
                name: _,
                to: _,
            },
            Field::Names(d),
        ) => d == dir,
        (
            Effect::NewNode {
                file,
                kind: _,
                dir: _,
                name: _,
            },
            _,
        ) => is_of_node(field, file),
        (Effect::RemoveNode { file }, _) => is_of_node(field, file),
        (
            Effect::AddHandle {
                file,
                session: _,
                h: _,
                modes: _,
            },
            Field::Own(f),
        ) => f == file,
        (
            Effect::RemoveHandle {
                file,
                session: _,
                h: _,
            },
            Field::Own(f),
        ) => f == file,
        (
            Effect::SetInfo {
                file,
                size: _,
                stamp: _,
            },
            Field::Info(f),
        ) => f == file,
        _ => false,
    }
}

/// Whether the field is one that the file has anew when it begins or ends.
fn is_of_node(field: &Field, file: &FileId) -> bool
    ensures { result ≡ touches_node file.now field.now }
{
    match field {
        Field::SelfW(_, _) | Field::Other(_, _) => false,
        _ => field.file() == file,
    }
}

/// Makes the value of the field, as the session sees it, what it is after the effect. Self and other values
/// stay, and so does a value that is not of the field.
pub fn apply(
    alloc: Global,
    value: &mut Value,
    field: &Field,
    session: Session,
    e: &Effect,
) -> Result<(), Memory>
    ensures ok { OnOk result (value.new ≡ value_after session field.now value.old e.now) }
    ensures err { OnErr result (value.new ≡ value.old) }
{
    match (field, value) {
        (Field::Life(file), Value::Life(life)) => {
            change_life(life, file, e);
            Ok(())
        }
        (Field::Child(dir, name), Value::Child(child)) => change_child(alloc, child, dir, name, e),
        (Field::Names(dir), Value::Names(names)) => change_names(alloc, names, dir, e),
        (Field::Info(file), Value::Info(size, stamp)) => {
            change_info(size, stamp, file, e);
            Ok(())
        }
        (Field::Own(file), Value::Own(own)) => change_own(alloc, own, session, file, e),
        _ => Ok(()),
    }
}

fn change_life(life: &mut Option<Kind>, file: &FileId, e: &Effect)
    ensures { life.new ≡ life_after file.now life.old e.now }
{
    match e {
        Effect::NewNode {
            file: new,
            kind,
            dir: _,
            name: _,
        } if file == new => *life = Some(*kind),
        Effect::RemoveNode { file: gone } if file == gone => *life = None,
        _ => {}
    }
}

fn change_child(
    alloc: Global,
    child: &mut Option<FileId>,
    d: &FileId,
    n: &Name,
    e: &Effect,
) -> Result<(), Memory>
    ensures ok { OnOk result (child.new ≡ child_after d.now n.now child.old e.now) }
    ensures err { OnErr result (child.new ≡ child.old) }
{
    match e {
        Effect::SetChild { dir, name, to } => {
            if d == dir && n == name {
                *child = to.copy(alloc)?;
            }
        }
        Effect::NewNode { file, .. } | Effect::RemoveNode { file } => {
            if d == file {
                *child = None;
            }
        }
        _ => {}
    }
    Ok(())
}

fn change_names(alloc: Global, names: &mut List<Name>, d: &FileId, e: &Effect) -> Result<(), Memory>
    ensures ok { OnOk result (names.new ≡ names_after d.now names.old e.now) }
    ensures err { OnErr result (names.new ≡ names.old) }
{
    match e {
        Effect::SetChild { dir, name, to } => {
            if d == dir {
                match to {
                    Some(_) => with_name(alloc, names, name)?,
                    None => without_name(names, name),
                }
            }
        }
        Effect::NewNode { file, .. } | Effect::RemoveNode { file } => {
            if d == file {
                names.truncate(0);
            }
        }
        _ => {}
    }
    Ok(())
}

fn change_info(size: &mut u64, stamp: &mut u64, f: &FileId, e: &Effect)
    ensures { (size.new, stamp.new) ≡ info_after f.now (size.old, stamp.old) e.now }
{
    match e {
        Effect::NewNode {
            file,
            kind: _,
            dir: _,
            name: _,
        } if f == file => set_info(size, stamp, 0, 0),
        Effect::RemoveNode { file } if f == file => set_info(size, stamp, 0, 0),
        Effect::SetInfo {
            file,
            size: new_size,
            stamp: new_stamp,
        } if f == file => set_info(size, stamp, *new_size, *new_stamp),
        _ => {}
    }
}

fn set_info(size: &mut u64, stamp: &mut u64, new_size: u64, new_stamp: u64)
    ensures size { size.new ≡ new_size }
    ensures stamp { stamp.new ≡ new_stamp }
{
    *size = new_size;
    *stamp = new_stamp;
}

fn change_own(
    alloc: Global,
    own: &mut List<(u32, Modes)>,
    s: Session,
    f: &FileId,
    e: &Effect,
) -> Result<(), Memory>
    ensures ok { OnOk result (own.new ≡ own_after s f.now own.old e.now) }
    ensures err { OnErr result (own.new ≡ own.old) }
{
    match e {
        Effect::NewNode { file, .. } | Effect::RemoveNode { file } => {
            if f == file {
                own.truncate(0);
            }
        }
        Effect::AddHandle {
            file,
            session,
            h,
            modes,
        } => {
            if f == file && *session == s {
                with_handle(alloc, own, *h, *modes)?;
            }
        }
        Effect::RemoveHandle { file, session, h } => {
            if f == file && *session == s {
                without_handle(own, *h);
            }
        }
        _ => {}
    }
    Ok(())
}
