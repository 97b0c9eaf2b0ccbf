//! Changes of one node.
ghost use Rattle.std.specs.Prelude.{◌≡◌, OnOk, OnErr};
ghost use Rattle.std.specs.FinMap as map;
ghost use Rattle.fs_model.specs.Children.{child_at};
ghost use Rattle.fs_model.specs.Namespace.{IsSpace, with_change};
ghost use Rattle.fs_ident.specs.Maps.{map_of};
ghost use Rattle.fs_model.specs.Step.{with_link, without_link, at_place, with_info, with_open, without_open, without_opens, children_of};

use crate::node::{Handle, Node};
use crate::{children, handles};
use fs_ident::{FileId, Memory, Name, Session};
use std::collections::BTreeMap;

/// Adds a node.
#[tactic(auto, using(fs_ident::proofs::MapsOf::maps))]
pub fn add(nodes: &mut BTreeMap<FileId, Node>, id: FileId, node: Node) -> Result<(), Memory>
    ensures ok { OnOk result (map_of nodes.new ≡ map.insert (map_of nodes.old) id node) }
    ensures err { OnErr result (map_of nodes.new ≡ map_of nodes.old) }
{
    nodes.insert(id, node)?;
    Ok(())
}

/// Takes out a node, if it is there.
pub fn remove(nodes: &mut BTreeMap<FileId, Node>, id: &FileId)
    ensures { map_of nodes.new ≡ map.remove (map_of nodes.old) id.now }
{
    nodes.remove(id);
}

/// Lets the name stand for the file in the directory, whatever it stood for.
#[tactic(auto, using(fs_ident::proofs::MapsOf::maps))]
pub fn link(
    nodes: &mut BTreeMap<FileId, Node>,
    dir: &FileId,
    name: Name,
    id: FileId,
) -> Result<(), Memory>
    requires { IsSpace (map_of nodes.old) }
    ensures ok { OnOk result (map_of nodes.new ≡
        with_change (with_link name id) (map_of nodes.old) dir.now) }
    ensures err { OnErr result (map_of nodes.new ≡ map_of nodes.old) }
{
    match nodes.get_mut(dir) {
        Some(node) => children::link(&mut node.children, name, id),
        None => Ok(()),
    }
}

/// Takes a name out of a directory, and gives the file that it named.
#[tactic(auto, using(fs_ident::proofs::MapsOf::maps))]
pub fn unlink(nodes: &mut BTreeMap<FileId, Node>, dir: &FileId, name: &Name) -> Option<FileId>
    requires { IsSpace (map_of nodes.old) }
    ensures taken { result ≡ child_at (children_of (map.get (map_of nodes.old) dir.now)) name.now }
    ensures rest { map_of nodes.new ≡
        with_change (without_link name.now) (map_of nodes.old) dir.now }
{
    match nodes.get_mut(dir) {
        Some(node) => children::take(&mut node.children, name),
        None => None,
    }
}

/// Puts a file into another place.
#[tactic(auto, using(fs_ident::proofs::MapsOf::maps))]
pub fn reparent(nodes: &mut BTreeMap<FileId, Node>, file: &FileId, dir: FileId, name: Name)
    ensures { map_of nodes.new ≡ with_change (at_place dir name) (map_of nodes.old) file.now }
{
    match nodes.get_mut(file) {
        Some(node) => node.parent = Some((dir, name)),
        None => {}
    }
}

/// Sets size and stamp.
#[tactic(auto, using(fs_ident::proofs::MapsOf::maps))]
pub fn set(nodes: &mut BTreeMap<FileId, Node>, file: &FileId, size: u64, stamp: u64)
    ensures { map_of nodes.new ≡ with_change (with_info size stamp) (map_of nodes.old) file.now }
{
    match nodes.get_mut(file) {
        Some(node) => {
            node.size = size;
            node.stamp = stamp;
        }
        None => {}
    }
}

/// Adds a handle to a file.
#[tactic(auto, using(fs_ident::proofs::MapsOf::maps))]
pub fn open(nodes: &mut BTreeMap<FileId, Node>, file: &FileId, handle: Handle) -> Result<(), Memory>
    ensures ok { OnOk result (map_of nodes.new ≡
        with_change (with_open handle.session handle.h handle.modes)
        (map_of nodes.old) file.now) }
    ensures err { OnErr result (map_of nodes.new ≡ map_of nodes.old) }
{
    match nodes.get_mut(file) {
        Some(node) => handles::add(&mut node.handles, handle),
        None => Ok(()),
    }
}

/// Takes away the session's handle of that number.
#[tactic(auto, using(fs_ident::proofs::MapsOf::maps))]
pub fn close(nodes: &mut BTreeMap<FileId, Node>, file: &FileId, session: Session, h: u32)
    ensures { map_of nodes.new ≡ with_change (without_open session h) (map_of nodes.old) file.now }
{
    match nodes.get_mut(file) {
        Some(node) => handles::close(&mut node.handles, session, h),
        None => {}
    }
}

/// Takes away every handle of the session.
#[tactic(auto, using(fs_ident::proofs::MapsOf::maps))]
pub fn reap(nodes: &mut BTreeMap<FileId, Node>, file: &FileId, session: Session)
    ensures { map_of nodes.new ≡ with_change (without_opens session) (map_of nodes.old) file.now }
{
    match nodes.get_mut(file) {
        Some(node) => handles::reap(&mut node.handles, session),
        None => {}
    }
}
