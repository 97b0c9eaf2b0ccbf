//! Deleting files and directories.
ghost use Rattle.std.specs.Prelude.{◌≡◌};
ghost use Rattle.std.specs.FinMap as map;
ghost use Rattle.fs_model.specs.Namespace.{IsSpace};
ghost use Rattle.fs_ident.specs.Maps.{map_of};
ghost use Rattle.fs_model.specs.Ways.{AreTrue};
ghost use Rattle.fs_model.specs.Step.{delete, is_childless, is_unused};

use crate::changes;
use crate::children::find;
use crate::lookups::node_at;
use crate::node::Node;
use crate::reply::Reply;
use crate::ways::Ways;
use fs_ident::{FileId, Kind, Name};
use std::collections::BTreeMap;

/// Deletes the child of that name.
pub fn delete(
    nodes: &mut BTreeMap<FileId, Node>,
    ways: &mut Ways,
    dir: &FileId,
    name: &Name,
) -> Reply
    requires space { IsSpace (map_of nodes.old) }
    requires ways { AreTrue (map_of nodes.old) ways.old }
    ensures reply { result ≡
        (delete (map.get (map_of nodes.old) dir.now) (map_of nodes.old) dir.now name.now).reply }
    ensures nodes { map_of nodes.new ≡
        (delete (map.get (map_of nodes.old) dir.now) (map_of nodes.old) dir.now name.now).nodes }
    ensures ways { AreTrue (map_of nodes.new) ways.new }
{
    let Some(node) = node_at(nodes, dir) else {
        return Reply::Gone;
    };
    if node.kind == Kind::File {
        return Reply::NotDir;
    }
    let Some(file) = find(node.children.as_slice(), name) else {
        return Reply::NoName;
    };
    if !is_childless(nodes, file) {
        return Reply::NotEmpty;
    }
    if !is_unused(nodes, file) {
        return Reply::InUse;
    }
    if let Some(file) = changes::unlink(nodes, dir, name) {
        changes::remove(nodes, &file);
        ways.forget(&file);
    }
    Reply::Deleted
}

/// Whether the file has no children.
fn is_childless(nodes: &BTreeMap<FileId, Node>, file: &FileId) -> bool
    requires { IsSpace (map_of nodes.now) }
    ensures { result ≡ is_childless (map.get (map_of nodes.now) file.now) }
{
    match node_at(nodes, file) {
        None => true,
        Some(node) => node.children.is_empty(),
    }
}

/// Whether the file has no handles.
fn is_unused(nodes: &BTreeMap<FileId, Node>, file: &FileId) -> bool
    requires { IsSpace (map_of nodes.now) }
    ensures { result ≡ is_unused (map.get (map_of nodes.now) file.now) }
{
    match node_at(nodes, file) {
        None => true,
        Some(node) => node.handles.is_empty(),
    }
}
