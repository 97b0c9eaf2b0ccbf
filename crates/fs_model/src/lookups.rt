//! Looking up nodes.
ghost use Rattle.std.specs.Prelude.{◌≡◌, IfOk, IfSome};
ghost use Rattle.std.specs.FinMap as map;
ghost use Rattle.std.specs.Option.{option_copied};
ghost use Rattle.fs_model.specs.Ancestors.{directory_of};
ghost use Rattle.fs_model.specs.Namespace.{IsSpace, IsInOrder};
ghost use Rattle.fs_ident.specs.Maps.{map_of};

use crate::node::Node;
use fs_ident::{FileId, List, Memory, Twin};
use std::alloc::Global;
use std::collections::BTreeMap;

/// The node of the file.
#[tactic(auto, using(fs_ident::proofs::MapsOf::maps))]
pub fn node_at<'a>(nodes: &'a BTreeMap<FileId, Node>, id: &FileId) -> Option<&'a Node>
    requires { IsSpace (map_of nodes.now) }
    ensures same { option_copied result ≡ map.get (map_of nodes.now) id.now }
    ensures in_order { IfSome result (λ n. IsInOrder n.now) }
{
    nodes.get(id)
}

/// The node of the file, whatever it is.
#[tactic(auto, using(fs_ident::proofs::MapsOf::maps))]
pub fn node<'a>(nodes: &'a BTreeMap<FileId, Node>, id: &FileId) -> Option<&'a Node>
    ensures { option_copied result ≡ map.get (map_of nodes.now) id.now }
{
    nodes.get(id)
}

/// The identifiers of all nodes, in order.
pub fn files(alloc: Global, nodes: &BTreeMap<FileId, Node>) -> Result<List<FileId>, Memory>
    ensures { IfOk result (λ ids. ids ≡ map.keys (map_of nodes.now)) }
{
    let mut ids = List::from_vec(Vec::with_capacity(alloc, nodes.len())?);
    for id in nodes.keys() {
        ids.push(id.copy(alloc)?)?;
    }
    Ok(ids)
}

/// How many nodes there are.
pub fn count(nodes: &BTreeMap<FileId, Node>) -> usize
    ensures { result ≡ map.len (map_of nodes.now) }
{
    nodes.len()
}

/// The directory that the file is in.
#[tactic(auto, using(fs_ident::proofs::MapsOf::maps))]
pub fn directory_of<'a>(nodes: &'a BTreeMap<FileId, Node>, id: &FileId) -> Option<&'a FileId>
    ensures { option_copied result ≡ directory_of (map.get (map_of nodes.now) id.now) }
{
    match nodes.get(id) {
        Some(node) => match &node.parent {
            Some((dir, _)) => Some(dir),
            None => None,
        },
        None => None,
    }
}
