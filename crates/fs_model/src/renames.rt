//! Moving files and directories.
ghost use Rattle.std.specs.Prelude.{◌≡◌, IfOk, OnOk, OnErr};
ghost use Rattle.std.specs.FinMap as map;
ghost use Rattle.fs_model.specs.Namespace.{IsSpace};
ghost use Rattle.fs_ident.specs.Maps.{map_of};
ghost use Rattle.fs_model.specs.Ways.{AreTrue};
ghost use Rattle.fs_model.specs.Step.{rename, with_moved_node, denies_delete};

use crate::chain::is_on_chain;
use crate::changes;
use crate::children::find;
use crate::handles::any_denies_delete;
use crate::lookups::node_at;
use crate::node::Node;
use crate::reply::Reply;
use crate::ways::Ways;
use fs_ident::{FileId, Kind, Memory, Name, Twin, copy_two, zip_ok};
use std::alloc::Global;
use std::collections::BTreeMap;

/// Moves the child of a name to another directory or another name.
pub fn rename(
    alloc: Global,
    nodes: &mut BTreeMap<FileId, Node>,
    ways: &mut Ways,
    sdir: &FileId,
    sname: &Name,
    ddir: &FileId,
    dname: &Name,
) -> Result<Reply, Memory>
    requires space { IsSpace (map_of nodes.old) }
    requires ways { AreTrue (map_of nodes.old) ways.old }
    ensures reply { IfOk result (λ reply. reply ≡
        (rename (map.get (map_of nodes.old) sdir.now) (map_of nodes.old) sdir.now sname.now ddir.now
        dname.now).reply) }
    ensures nodes { IfOk result (λ _. map_of nodes.new ≡
        (rename (map.get (map_of nodes.old) sdir.now) (map_of nodes.old) sdir.now sname.now ddir.now
        dname.now).nodes) }
    ensures err { OnErr result (map_of nodes.new ≡ map_of nodes.old) }
    ensures ways { AreTrue (map_of nodes.new) ways.new }
{
    let Some(from) = node_at(nodes, sdir) else {
        return Ok(Reply::Gone);
    };
    if from.kind == Kind::File {
        return Ok(Reply::NotDir);
    }
    let Some(to) = node_at(nodes, ddir) else {
        return Ok(Reply::GoneTo);
    };
    if to.kind == Kind::File {
        return Ok(Reply::NotDirTo);
    }
    let Some(file) = find(from.children.as_slice(), sname) else {
        return Ok(Reply::NoName);
    };
    if *sdir == *ddir && *sname == *dname {
        return Ok(Reply::Renamed);
    }
    if find(to.children.as_slice(), dname).is_some() {
        return Ok(Reply::Exists);
    }
    if denies_delete(nodes, file) {
        return Ok(Reply::Sharing);
    }
    if is_on_chain(alloc, nodes, ways, file, ddir)? {
        return Ok(Reply::Cycle);
    }
    let file = file.copy(alloc)?;
    move_node(alloc, nodes, ways, &file, sdir, sname, ddir, dname)?;
    Ok(Reply::Renamed)
}

/// Whether some handle denies others to move the file.
fn denies_delete(nodes: &BTreeMap<FileId, Node>, file: &FileId) -> bool
    requires { IsSpace (map_of nodes.now) }
    ensures { result ≡ denies_delete (map.get (map_of nodes.now) file.now) }
{
    match node_at(nodes, file) {
        None => false,
        Some(node) => any_denies_delete(node.handles.as_slice()),
    }
}

/// Gives the file its new name, takes the old one, and notes where it is now.
fn move_node(
    alloc: Global,
    nodes: &mut BTreeMap<FileId, Node>,
    ways: &mut Ways,
    file: &FileId,
    sdir: &FileId,
    sname: &Name,
    ddir: &FileId,
    dname: &Name,
) -> Result<(), Memory>
    requires space { IsSpace (map_of nodes.old) }
    requires ways { AreTrue (map_of nodes.old) ways.old }
    ensures ok { OnOk result (map_of nodes.new ≡
        with_moved_node (map_of nodes.old) file.now sdir.now sname.now ddir.now dname.now) }
    ensures err { OnErr result (map_of nodes.new ≡ map_of nodes.old) }
    ensures ways { AreTrue (map_of nodes.new) ways.new }
{
    let place = copy_two(alloc, ddir, dname)?;
    let (place, (child, child_name)) = zip_ok(place, copy_two(alloc, file, dname))?;
    let ((dir, name), _) = zip_ok(place, changes::link(nodes, ddir, child_name, child))?;
    changes::unlink(nodes, sdir, sname);
    changes::reparent(nodes, file, dir, name);
    ways.forget(file);
    Ok(())
}
