//! What a value tells, where it is known.
ghost use Rattle.std.specs.Prelude.{◌≡◌, filter, option_map, IfOk};
ghost use Rattle.fs_field.specs.After.{without_handle};
ghost use Rattle.fs_modes.specs.Modes.{has};
ghost use Rattle.fs_view.specs.Script.{info_reply, kind_reply, look_up_reply, made_reply, modes_off, modes_on, names_reply, no_dir, no_dir_to, no_file, no_name, no_write, not_empty, own_denies_delete, denied, in_use, taken_name};
ghost use Rattle.fs_view.specs.Told.{all_modes, child_told, is_other_told, life_told, modes_listed, modes_under, names_told, own_conflicts, own_told};

use fs_field::Value;
use fs_ident::{Kind, List, Memory};
use fs_model::Reply;
use fs_modes::{Mode, Modes};
use std::alloc::Global;

/// The reply where it is known that no directory is there.
pub fn no_dir(life: &Option<Value>) -> Option<Reply>
    ensures { result ≡ no_dir (life_told life.now) }
{
    match life {
        Some(Value::Life(None)) => Some(Reply::Gone),
        Some(Value::Life(Some(Kind::File))) => Some(Reply::NotDir),
        _ => None,
    }
}

/// The reply where it is known that no directory is there for a file to come to.
pub fn no_dir_to(life: &Option<Value>) -> Option<Reply>
    ensures { result ≡ no_dir_to (life_told life.now) }
{
    match life {
        Some(Value::Life(None)) => Some(Reply::GoneTo),
        Some(Value::Life(Some(Kind::File))) => Some(Reply::NotDirTo),
        _ => None,
    }
}

/// The reply where it is known that the file does not live.
pub fn no_file(life: &Option<Value>) -> Option<Reply>
    ensures { result ≡ no_file (life_told life.now) }
{
    match life {
        Some(Value::Life(None)) => Some(Reply::Gone),
        _ => None,
    }
}

/// The reply where it is known that the name is taken.
pub fn taken_name(child: &Option<Value>) -> Option<Reply>
    ensures { result ≡ taken_name (child_told child.now) }
{
    match child {
        Some(Value::Child(Some(_))) => Some(Reply::Exists),
        _ => None,
    }
}

/// The reply where it is known that nothing has the name.
pub fn no_name(child: &Option<Value>) -> Option<Reply>
    ensures { result ≡ no_name (child_told child.now) }
{
    match child {
        Some(Value::Child(None)) => Some(Reply::NoName),
        _ => None,
    }
}

/// The reply where it is known that the file has children.
pub fn not_empty(names: &Option<Value>) -> Option<Reply>
    ensures { result ≡ not_empty (names_told names.now) }
{
    match names {
        Some(Value::Names(names)) if !names.is_empty() => Some(Reply::NotEmpty),
        _ => None,
    }
}

/// The reply where it is known that the session has a handle.
pub fn in_use(own: &Option<Value>) -> Option<Reply>
    ensures { result ≡ in_use (own_told own.now) }
{
    match own {
        Some(Value::Own(own)) if !own.is_empty() => Some(Reply::InUse),
        _ => None,
    }
}

/// The reply where it is known that a handle of the session keeps others from deleting or moving the file.
pub fn denied(own: &Option<Value>) -> Option<Reply>
    ensures { result ≡ denied (own_told own.now) }
{
    match own {
        Some(Value::Own(own)) if own_denies_delete(own.as_slice()) => Some(Reply::Sharing),
        _ => None,
    }
}

/// Whether one of the handles keeps others from deleting or moving the file.
fn own_denies_delete(own: &[(u32, Modes)]) -> bool
    ensures { result ≡ own_denies_delete own.now }
{
    own.iter().any(|x| x.1.deny_d)
}

/// The reply to a look-up.
pub fn look_up_reply(child: Option<Value>) -> Reply
    ensures { result ≡ look_up_reply (child_told child) }
{
    match child {
        Some(Value::Child(Some(file))) => Reply::Found(file),
        _ => Reply::NoName,
    }
}

/// The reply to a list.
pub fn names_reply(alloc: Global, names: Option<Value>) -> Reply
    ensures { result ≡ names_reply (names_told names) }
{
    match names {
        Some(Value::Names(names)) => Reply::Names(names),
        _ => Reply::Names(List::new(alloc)),
    }
}

/// The reply to a question for the kind.
pub fn kind_reply(life: &Option<Value>) -> Reply
    ensures { result ≡ kind_reply (life_told life.now) }
{
    match life {
        Some(Value::Life(Some(Kind::File))) => Reply::IsFile,
        Some(Value::Life(Some(Kind::Dir))) => Reply::IsDir,
        _ => Reply::Gone,
    }
}

/// The reply to a question for size and stamp.
pub fn info_reply(info: &Option<Value>) -> Reply
    ensures { result ≡ info_reply info.now }
{
    match info {
        Some(Value::Info(size, stamp)) => Reply::Info {
            size: *size,
            stamp: *stamp,
        },
        _ => Reply::Info { size: 0, stamp: 0 },
    }
}

/// The reply to a create that names its identifier.
pub fn made_reply(life: &Option<Value>) -> Reply
    ensures { result ≡ made_reply (life_told life.now) }
{
    match life {
        Some(Value::Life(Some(_))) => Reply::BadId,
        _ => Reply::Made,
    }
}

/// The session's handles, where they are known.
pub fn own_told(own: &Option<Value>) -> Option<&[(u32, Modes)]>
    ensures { option_map (λ x. x.now) result ≡ own_told own.now }
{
    match own {
        Some(Value::Own(own)) => Some(own.as_slice()),
        _ => None,
    }
}

/// Whether it is known that another session has the mode.
pub fn is_other_told(other: &Option<Value>) -> bool
    ensures { result ≡ is_other_told other.now }
{
    match other {
        Some(Value::Other(held)) => *held,
        _ => false,
    }
}

/// The modes under the handle.
pub fn modes_under(own: &[(u32, Modes)], h: u32) -> Option<Modes>
    ensures { result ≡ modes_under own.now h }
{
    for x in own {
        if x.0 == h {
            return Some(x.1);
        }
    }
    None
}

/// Whether one of the handles conflicts with the modes.
pub fn own_conflicts(own: &[(u32, Modes)], modes: Modes) -> bool
    ensures { result ≡ own_conflicts own.now modes }
{
    own.iter().any(|x| x.1.conflicts(modes))
}

/// What the handles have together.
fn all_modes(own: &[(u32, Modes)]) -> Modes
    ensures { result ≡ all_modes own.now }
{
    let mut all = Modes::NONE;
    let mut at = own.len();
    while at > 0 {
        at -= 1;
        all = own[at].1.or(all);
    }
    all
}

/// What the handles but this one have together.
fn all_but(own: &[(u32, Modes)], h: u32) -> Modes
    ensures { result ≡ all_modes (without_handle own.now h) }
{
    let mut all = Modes::NONE;
    let mut at = own.len();
    while at > 0 {
        at -= 1;
        if own[at].0 != h {
            all = own[at].1.or(all);
        }
    }
    all
}

/// The modes that the session has only with one more handle of these.
pub fn modes_on(own: &[(u32, Modes)], modes: Modes) -> Modes
    ensures { result ≡ modes_on own.now modes }
{
    Modes::turned_on(all_modes(own), modes)
}

/// The modes that the session has only with this handle.
pub fn modes_off(own: &[(u32, Modes)], h: u32) -> Modes
    ensures { result ≡ modes_off own.now h }
{
    Modes::turned_off(all_modes(own), all_but(own, h))
}

/// The reply where the handle is not there or may not write.
pub fn no_write(own: &[(u32, Modes)], h: u32) -> Option<Reply>
    ensures { result ≡ no_write (modes_under own.now h) }
{
    match modes_under(own, h) {
        None => Some(Reply::NoHandle),
        Some(modes) => {
            if modes.acc_w {
                None
            } else {
                Some(Reply::NoAccess)
            }
        }
    }
}

/// The modes that are there, in the order of the six.
pub fn modes_listed(alloc: Global, modes: Modes) -> Result<Vec<Mode>, Memory>
    ensures { IfOk result (λ listed. listed.items ≡ modes_listed modes) }
{
    let six = [
        Mode::AccR,
        Mode::AccW,
        Mode::AccD,
        Mode::DenyR,
        Mode::DenyW,
        Mode::DenyD,
    ];
    let listed = six
        .iter()
        .copied()
        .filter(|mode| modes.has(*mode))
        .collect(alloc)?;
    Ok(listed)
}
