//! The directories above a file.
ghost use Rattle.std.specs.Prelude.{◌≡◌, ◌<◌, length, IfOk};
ghost use Rattle.fs_model.specs.Ancestors.{is_on_chain};
ghost use Rattle.fs_model.specs.Ways.{AreSole, AreTrue, IsAbove, KeepsFiles};
ghost use Rattle.fs_ident.specs.Maps.{map_of};

use crate::lookups::{count, directory_of};
use crate::node::Node;
use crate::ways::Ways;
use fs_ident::{FileId, Memory};
use std::alloc::Global;
use std::collections::BTreeMap;

/// Whether the file is this directory or an ancestor of it. A step of the way up is searched for where it is not known
/// yet, and then it is.
pub fn is_on_chain(
    alloc: Global,
    nodes: &BTreeMap<FileId, Node>,
    ways: &mut Ways,
    file: &FileId,
    dir: &FileId,
) -> Result<bool, Memory>
    requires { AreTrue (map_of nodes.now) ways.old }
    ensures is { IfOk result (λ is. is ≡ is_on_chain (map_of nodes.now) file.now dir.now) }
    ensures so { AreTrue (map_of nodes.now) ways.new }
{
    ways.limit(alloc, count(nodes));
    let goal = ways.place(alloc, file)?;
    let mut at = ways.place(alloc, dir)?;
    for step in 0..count(nodes) {
        if at == goal {
            return Ok(true);
        }
        match above(alloc, nodes, ways, at)? {
            None => return Ok(false),
            Some(up) => at = up,
        }
    }
    Ok(at == goal)
}

/// The place of the directory that the file at a place is in.
fn above(
    alloc: Global,
    nodes: &BTreeMap<FileId, Node>,
    ways: &mut Ways,
    at: usize,
) -> Result<Option<usize>, Memory>
    requires so { AreTrue (map_of nodes.now) ways.old }
    requires at { at < length ways.old }
    ensures up { IfOk result (λ up. IsAbove (map_of nodes.now) ways.new at up) }
    ensures files { KeepsFiles ways.old ways.new }
    ensures sole { AreSole ways.old → AreSole ways.new }
    ensures so { AreTrue (map_of nodes.now) ways.new }
{
    if let Some(up) = ways.up(at) {
        return Ok(Some(up));
    }
    match directory_of(nodes, ways.file(at)) {
        None => Ok(None),
        Some(dir) => {
            let up = ways.place(alloc, dir)?;
            ways.learn(at, up);
            Ok(Some(up))
        }
    }
}
