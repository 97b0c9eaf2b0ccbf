//! The step of the namespace, over the map of its nodes.
ghost use Rattle.std.specs.Prelude.{◌≡◌, IfOk, OnErr};
ghost use Rattle.fs_model.specs.Namespace.{IsSpace};
ghost use Rattle.fs_ident.specs.Maps.{map_of};
ghost use Rattle.fs_model.specs.Ways.{AreTrue};
ghost use Rattle.fs_model.specs.Step.{step};

use crate::changes::reap;
use crate::creates::create;
use crate::deletes::delete;
use crate::node::Node;
use crate::op::Op;
use crate::opens::{close, open_file, set};
use crate::reads::{info, kind, list, look_up};
use crate::renames::rename;
use crate::reply::Reply;
use crate::ways::Ways;
use fs_ident::{FileId, Memory, Session};
use std::alloc::Global;
use std::collections::BTreeMap;

/// Does the operation, or nothing when out of memory.
pub fn step(
    alloc: Global,
    nodes: &mut BTreeMap<FileId, Node>,
    ways: &mut Ways,
    by: Session,
    op: &Op,
) -> Result<Reply, Memory>
    requires space { IsSpace (map_of nodes.old) }
    requires ways { AreTrue (map_of nodes.old) ways.old }
    ensures reply { IfOk result (λ reply. reply ≡ (step (map_of nodes.old) by op.now).reply) }
    ensures nodes { IfOk result (λ _. map_of nodes.new ≡
        (step (map_of nodes.old) by op.now).nodes) }
    ensures err { OnErr result (map_of nodes.new ≡ map_of nodes.old) }
    ensures ways { AreTrue (map_of nodes.new) ways.new }
{
    match op {
        Op::Lookup { dir, name } => look_up(alloc, nodes, dir, name),
        Op::List { dir } => list(alloc, nodes, dir),
        Op::Kind { file } => Ok(kind(nodes, file)),
        Op::Info { file } => Ok(info(nodes, file)),
        Op::Create {
            dir,
            name,
            kind,
            id,
        } => create(alloc, nodes, dir, name, *kind, id),
        Op::OpenFile { file, h, modes } => open_file(nodes, by, file, *h, *modes),
        Op::Close { file, h } => Ok(close(nodes, by, file, *h)),
        Op::Set {
            file,
            h,
            size,
            stamp,
        } => Ok(set(nodes, by, file, *h, *size, *stamp)),
        Op::Delete { dir, name } => Ok(delete(nodes, ways, dir, name)),
        Op::Rename {
            sdir,
            sname,
            ddir,
            dname,
        } => rename(alloc, nodes, ways, sdir, sname, ddir, dname),
        Op::Reap { file, session } => {
            reap(nodes, file, *session);
            Ok(Reply::Reaped)
        }
    }
}
