//! The values of fields in one node.
ghost use Rattle.std.specs.Prelude.{◌≡◌, IsTrue, IfOk, IfSome};
ghost use Rattle.std.specs.Option.{option_copied};
ghost use Rattle.fs_model.specs.Namespace.{IsInOrder};
ghost use Rattle.fs_field.specs.After.{info_value};
ghost use Rattle.fs_model.specs.Sound.{kind_of, child_of};
ghost use Rattle.fs_model.specs.Step.{children_of};
ghost use Rattle.fs_record.specs.ValueOf.{value_at, info_of, handles_of};

use crate::handles::{others_have, own};
use fs_field::{Field, Value};
use fs_ident::{FileId, Kind, Memory, Name, Session, Twin};
use fs_model::children::{find, names};
use fs_model::{Handle, Node};
use std::alloc::Global;

/// What the node, or its absence, gives the field, as the session sees it.
pub fn value_at(
    alloc: Global,
    node: Option<&Node>,
    session: Session,
    field: &Field,
) -> Result<Value, Memory>
    requires { IfSome node (λ n. IsInOrder n.now) }
    ensures { IfOk result (λ value. value ≡ value_at session field.now (option_copied node.entry)) }
{
    match field {
        Field::Life(_) => Ok(Value::Life(kind(node))),
        Field::Child(_, name) => Ok(Value::Child(child(alloc, node, name)?)),
        Field::Names(_) => Ok(Value::Names(names(alloc, children(node))?)),
        Field::Info(_) => Ok(info(node)),
        Field::Own(_) => Ok(Value::Own(own(alloc, handles(node), session)?)),
        Field::SelfW(_, _) => Ok(Value::SelfW),
        Field::Other(_, mode) => Ok(Value::Other(others_have(handles(node), session, *mode))),
    }
}

/// What it is.
pub fn kind(node: Option<&Node>) -> Option<Kind>
    ensures { result ≡ kind_of (option_copied node.entry) }
{
    match node {
        Some(node) => Some(node.kind),
        None => None,
    }
}

/// The children; none without a node.
fn children(node: Option<&Node>) -> &[(Name, FileId)]
    ensures { result.now ≡ children_of (option_copied node.entry) }
{
    match node {
        Some(node) => node.children.as_slice(),
        None => &[],
    }
}

/// The handles of all sessions; none without a node.
pub fn handles(node: Option<&Node>) -> &[Handle]
    ensures { result.now ≡ handles_of (option_copied node.entry) }
{
    match node {
        Some(node) => node.handles.as_slice(),
        None => &[],
    }
}

/// The file under the name.
pub fn child(alloc: Global, node: Option<&Node>, name: &Name) -> Result<Option<FileId>, Memory>
    requires { IfSome node (λ n. IsInOrder n.now) }
    ensures { IfOk result (λ file. file ≡ child_of (option_copied node.entry) name.now) }
{
    match node {
        Some(node) => copied(alloc, find(node.children.as_slice(), name)),
        None => Ok(None),
    }
}

/// The identifier that is lent, as one of its own.
fn copied(alloc: Global, file: Option<&FileId>) -> Result<Option<FileId>, Memory>
    ensures { IfOk result (λ twin. twin ≡ option_copied file.entry) }
{
    match file {
        Some(file) => Ok(Some(file.copy(alloc)?)),
        None => Ok(None),
    }
}

/// Size and stamp.
fn info(node: Option<&Node>) -> Value
    ensures { result ≡ info_value (info_of (option_copied node.entry)) }
{
    match node {
        Some(node) => Value::Info(node.size, node.stamp),
        None => Value::Info(0, 0),
    }
}
