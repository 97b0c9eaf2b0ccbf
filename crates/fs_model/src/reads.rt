//! Operations that change nothing.
ghost use Rattle.std.specs.Prelude.{◌≡◌, IfOk};
ghost use Rattle.std.specs.FinMap as map;
ghost use Rattle.fs_model.specs.Namespace.{IsSpace};
ghost use Rattle.fs_ident.specs.Maps.{map_of};
ghost use Rattle.fs_model.specs.Step.{look_up, list, kind, info};

use crate::children::{find, names};
use crate::lookups::node_at;
use crate::node::Node;
use crate::reply::Reply;
use fs_ident::{FileId, Kind, Memory, Name, Twin};
use std::alloc::Global;
use std::collections::BTreeMap;

/// The child of that name.
pub fn look_up(
    alloc: Global,
    nodes: &BTreeMap<FileId, Node>,
    dir: &FileId,
    name: &Name,
) -> Result<Reply, Memory>
    requires { IsSpace (map_of nodes.now) }
    ensures { IfOk result (λ reply. reply ≡ look_up (map.get (map_of nodes.now) dir.now) name.now) }
{
    let Some(node) = node_at(nodes, dir) else {
        return Ok(Reply::Gone);
    };
    if node.kind == Kind::File {
        return Ok(Reply::NotDir);
    }
    match find(node.children.as_slice(), name) {
        None => Ok(Reply::NoName),
        Some(id) => Ok(Reply::Found(id.copy(alloc)?)),
    }
}

/// The names of a directory's children.
pub fn list(alloc: Global, nodes: &BTreeMap<FileId, Node>, dir: &FileId) -> Result<Reply, Memory>
    requires { IsSpace (map_of nodes.now) }
    ensures { IfOk result (λ reply. reply ≡ list (map.get (map_of nodes.now) dir.now)) }
{
    let Some(node) = node_at(nodes, dir) else {
        return Ok(Reply::Gone);
    };
    if node.kind == Kind::File {
        return Ok(Reply::NotDir);
    }
    Ok(Reply::Names(names(alloc, node.children.as_slice())?))
}

/// Whether the file is a directory.
pub fn kind(nodes: &BTreeMap<FileId, Node>, file: &FileId) -> Reply
    requires { IsSpace (map_of nodes.now) }
    ensures { result ≡ kind (map.get (map_of nodes.now) file.now) }
{
    let Some(node) = node_at(nodes, file) else {
        return Reply::Gone;
    };
    match node.kind {
        Kind::File => Reply::IsFile,
        Kind::Dir => Reply::IsDir,
    }
}

/// The file's size and stamp.
pub fn info(nodes: &BTreeMap<FileId, Node>, file: &FileId) -> Reply
    requires { IsSpace (map_of nodes.now) }
    ensures { result ≡ info (map.get (map_of nodes.now) file.now) }
{
    match node_at(nodes, file) {
        None => Reply::Gone,
        Some(node) => Reply::Info {
            size: node.size,
            stamp: node.stamp,
        },
    }
}
