//! Opening, closing and writing files.
ghost use Rattle.std.specs.Prelude.{◌≡◌, IfOk, OnErr};
ghost use Rattle.std.specs.FinMap as map;
ghost use Rattle.fs_model.specs.Namespace.{IsSpace};
ghost use Rattle.fs_ident.specs.Maps.{map_of};
ghost use Rattle.fs_model.specs.Step.{open_file, close, set};

use crate::changes;
use crate::handles::{any_conflicts, find};
use crate::lookups::node_at;
use crate::node::{Handle, Node};
use crate::reply::Reply;
use fs_ident::{FileId, Memory, Session};
use fs_modes::Modes;
use std::collections::BTreeMap;

/// Opens a file under a number of the session's.
pub fn open_file(
    nodes: &mut BTreeMap<FileId, Node>,
    by: Session,
    file: &FileId,
    h: u32,
    modes: Modes,
) -> Result<Reply, Memory>
    requires { IsSpace (map_of nodes.old) }
    ensures reply { IfOk result (λ reply. reply ≡
        (open_file (map.get (map_of nodes.old) file.now) (map_of nodes.old) by file.now h
        modes).reply) }
    ensures nodes { IfOk result (λ _. map_of nodes.new ≡
        (open_file (map.get (map_of nodes.old) file.now) (map_of nodes.old) by file.now h
        modes).nodes) }
    ensures err { OnErr result (map_of nodes.new ≡ map_of nodes.old) }
{
    let Some(node) = node_at(nodes, file) else {
        return Ok(Reply::Gone);
    };
    if find(node.handles.as_slice(), by, h).is_some() {
        return Ok(Reply::HandleUsed);
    }
    if any_conflicts(node.handles.as_slice(), modes) {
        return Ok(Reply::Sharing);
    }
    let handle = Handle {
        session: by,
        h,
        modes,
    };
    changes::open(nodes, file, handle)?;
    Ok(Reply::Opened)
}

/// Closes the session's handle of that number.
pub fn close(nodes: &mut BTreeMap<FileId, Node>, by: Session, file: &FileId, h: u32) -> Reply
    requires { IsSpace (map_of nodes.old) }
    ensures reply { result ≡
        (close (map.get (map_of nodes.old) file.now) (map_of nodes.old) by file.now h).reply }
    ensures nodes { map_of nodes.new ≡
        (close (map.get (map_of nodes.old) file.now) (map_of nodes.old) by file.now h).nodes }
{
    let Some(node) = node_at(nodes, file) else {
        return Reply::NoHandle;
    };
    if find(node.handles.as_slice(), by, h).is_none() {
        return Reply::NoHandle;
    }
    changes::close(nodes, file, by, h);
    Reply::Closed
}

/// Sets size and stamp by the session's handle of that number.
pub fn set(
    nodes: &mut BTreeMap<FileId, Node>,
    by: Session,
    file: &FileId,
    h: u32,
    size: u64,
    stamp: u64,
) -> Reply
    requires { IsSpace (map_of nodes.old) }
    ensures reply { result ≡
        (set (map.get (map_of nodes.old) file.now) (map_of nodes.old)
        by file.now h size stamp).reply }
    ensures nodes { map_of nodes.new ≡
        (set (map.get (map_of nodes.old) file.now) (map_of nodes.old)
        by file.now h size stamp).nodes }
{
    let Some(node) = node_at(nodes, file) else {
        return Reply::NoHandle;
    };
    let Some(modes) = find(node.handles.as_slice(), by, h) else {
        return Reply::NoHandle;
    };
    if !modes.acc_w {
        return Reply::NoAccess;
    }
    changes::set(nodes, file, size, stamp);
    Reply::Set
}
