//! The namespace as one value.
ghost use Rattle.std.specs.Prelude.{◌≡◌, IfOk, OnOk, OnErr};
ghost use Rattle.std.specs.FinMap as map;
ghost use Rattle.std.specs.Option.{option_copied};
ghost use Rattle.fs_model.specs.Namespace.{IsInOrder, first_space};

use crate::changes;
use crate::lookups::{count, files, node};
use crate::node::Node;
use crate::op::Op;
use crate::reply::Reply;
use crate::steps::step;
use crate::ways::Ways;
use fs_ident::{FileId, Kind, List, Memory, Session, Twin, copy_map};
use std::alloc::Global;
use std::collections::BTreeMap;
use std::marker::Model;

/// Files and directories by identifier.
#[derive(Drop)]
pub struct Space {
    nodes: BTreeMap<FileId, Node>,
    ways: Ways,
}

impl Model for Space {
    ghost use Rattle.std.specs.FinMap as map;
    ghost use Rattle.std.specs.Coded.{coded_list, coded_ℕ};
    ghost use Rattle.fs_model.specs.Namespace.{NodeMap, IsSpace};
    ghost use Rattle.fs_model.specs.Ways.{AreTrue};
    ghost use Rattle.fs_ident.specs.Maps.{map_of};
    ghost use Rattle.fs_model.specs.contracts.node.Node as node;

    ghost Value = { NodeMap };

    ghost coded = { map.code (coded_list coded_ℕ) node.the_row.coded };

    ghost view = { λ s. map_of s.nodes };

    ghost invariant = { λ s. IsSpace (map_of s.nodes) × AreTrue (map_of s.nodes) s.ways };
}

impl Space {
    ghost use Rattle.fs_model.specs.Step.{step};

    /// The root directory alone.
    pub fn new(alloc: Global) -> Result<Space, Memory>
        ensures { IfOk result (λ space. space ≡ first_space) }
    {
        let mut space = Space::empty(alloc);
        space.put(
            alloc,
            &FileId::root(alloc),
            Node::new(alloc, Kind::Dir, None),
        )?;
        Ok(space)
    }

    /// No node, not even the root's.
    pub fn empty(alloc: Global) -> Space
        ensures { result ≡ map.empty }
    {
        Space {
            nodes: BTreeMap::new(alloc),
            ways: Ways::new(alloc),
        }
    }

    /// Gives the file this node, whatever it had. The node's children are in order of name, and its handles in
    /// order of session and number.
    pub fn put(&mut self, alloc: Global, id: &FileId, node: Node) -> Result<(), Memory>
        requires { IsInOrder node }
        ensures ok { OnOk result (self.new ≡ map.insert self.old id.now node) }
        ensures err { OnErr result (self.new ≡ self.old) }
    {
        let key = id.copy(alloc)?;
        let done = changes::add(&mut self.nodes, key, node);
        self.ways.forget(id);
        done
    }

    /// The identifiers of all files and directories, in order.
    pub fn files(&self, alloc: Global) -> Result<List<FileId>, Memory>
        ensures { IfOk result (λ ids. ids ≡ map.keys self.now) }
    {
        files(alloc, &self.nodes)
    }

    /// How many files and directories there are.
    pub fn len(&self) -> usize
        ensures { result ≡ map.len self.now }
    {
        count(&self.nodes)
    }

    /// The node of the file.
    pub fn node(&self, id: &FileId) -> Option<&Node>
        ensures { option_copied result ≡ map.get self.now id.now }
    {
        node(&self.nodes, id)
    }

    /// Does the operation for the session. When out of memory nothing changes.
    pub fn step(&mut self, alloc: Global, by: Session, op: &Op) -> Result<Reply, Memory>
        ensures reply { IfOk result (λ reply. reply ≡ (step self.old by op.now).reply) }
        ensures nodes { IfOk result (λ _. self.new ≡ (step self.old by op.now).nodes) }
        ensures err { OnErr result (self.new ≡ self.old) }
    {
        step(alloc, &mut self.nodes, &mut self.ways, by, op)
    }
}

impl Twin for Space {
    fn copy(&self, alloc: Global) -> Result<Space, Memory> {
        Ok(Space {
            nodes: copy_map(alloc, &self.nodes)?,
            ways: Ways::new(alloc),
        })
    }

    fn discard(self) {}
}
