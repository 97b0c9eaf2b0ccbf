//! Making files and directories.
ghost use Rattle.std.specs.Prelude.{◌≡◌, IfOk, OnOk, OnErr, None};
ghost use Rattle.std.specs.FinMap as map;
ghost use Rattle.fs_model.specs.Namespace.{IsSpace};
ghost use Rattle.fs_ident.specs.Maps.{map_of};
ghost use Rattle.fs_model.specs.Step.{create, is_child, with_new_node};

use crate::changes;
use crate::children::find;
use crate::lookups::node_at;
use crate::node::Node;
use crate::reply::Reply;
use fs_ident::{FileId, Kind, Memory, Name, Twin, copy_two};
use std::alloc::Global;
use std::collections::BTreeMap;

/// Makes a file or a directory below a directory.
pub fn create(
    alloc: Global,
    nodes: &mut BTreeMap<FileId, Node>,
    dir: &FileId,
    name: &Name,
    kind: Kind,
    id: &Option<FileId>,
) -> Result<Reply, Memory>
    requires { IsSpace (map_of nodes.old) }
    ensures reply { IfOk result (λ reply. reply ≡
        (create (map.get (map_of nodes.old) dir.now) (map_of nodes.old) dir.now name.now kind
        id.now).reply) }
    ensures nodes { IfOk result (λ _. map_of nodes.new ≡
        (create (map.get (map_of nodes.old) dir.now) (map_of nodes.old) dir.now name.now kind
        id.now).nodes) }
    ensures err { OnErr result (map_of nodes.new ≡ map_of nodes.old) }
{
    let Some(node) = node_at(nodes, dir) else {
        return Ok(Reply::Gone);
    };
    if node.kind == Kind::File {
        return Ok(Reply::NotDir);
    }
    if find(node.children.as_slice(), name).is_some() {
        return Ok(Reply::Exists);
    }
    let Some(id) = id else {
        return Ok(Reply::BadId);
    };
    if !is_child(dir.numbers(), id.numbers()) || node_at(nodes, id).is_some() {
        return Ok(Reply::BadId);
    }
    make(alloc, nodes, dir, name, kind, id)?;
    Ok(Reply::Made)
}

/// Whether the identifier is the directory's with one number appended.
fn is_child(dir: &[u32], id: &[u32]) -> bool
    ensures { result ≡ is_child dir.now id.now }
{
    dir.len() + 1 == id.len() && &id[..dir.len()] == dir
}

/// Makes the node and its name, or neither.
fn make(
    alloc: Global,
    nodes: &mut BTreeMap<FileId, Node>,
    dir: &FileId,
    name: &Name,
    kind: Kind,
    id: &FileId,
) -> Result<(), Memory>
    requires in_order { IsSpace (map_of nodes.old) }
    requires absent { map.get (map_of nodes.old) id.now ≡ None }
    ensures ok { OnOk result (map_of nodes.new ≡
        with_new_node (map_of nodes.old) dir.now name.now kind id.now) }
    ensures err { OnErr result (map_of nodes.new ≡ map_of nodes.old) }
{
    let key = id.copy(alloc)?;
    let (child, child_name) = copy_two(alloc, id, name)?;
    let parent = Some(copy_two(alloc, dir, name)?);
    changes::add(nodes, key, Node::new(alloc, kind, parent))?;
    match changes::link(nodes, dir, child_name, child) {
        Ok(()) => Ok(()),
        Err(e) => {
            changes::remove(nodes, id);
            Err(e)
        }
    }
}
