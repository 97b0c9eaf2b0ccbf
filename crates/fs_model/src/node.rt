//! Nodes of the tree.
use fs_ident::{FileId, Kind, List, Memory, Name, Session, Twin, copy_three};
use fs_modes::Modes;
use std::alloc::Global;

/// An open of a file by a session, under a number that the session chose.
#[derive(Clone, Copy, Debug, PartialEq, Eq)]
pub struct Handle {
    pub session: Session,
    pub h: u32,
    pub modes: Modes,
}

/// A file or a directory of the tree.
#[derive(Debug, Drop)]
pub struct Node {
    pub kind: Kind,
    /// The directory that it is in and its name there; the root has none.
    pub parent: Option<(FileId, Name)>,
    /// In order of name.
    pub children: List<(Name, FileId)>,
    pub size: u64,
    pub stamp: u64,
    /// In order of session and number.
    pub handles: List<Handle>,
}

impl Node {
    ghost use Rattle.std.specs.Prelude.{◌≡◌};
    ghost use Rattle.fs_model.specs.Namespace.{fresh_node};

    /// A new node, with nothing in it.
    pub fn new(alloc: Global, kind: Kind, parent: Option<(FileId, Name)>) -> Node
        ensures { result ≡ fresh_node kind parent }
    {
        Node {
            kind,
            parent,
            children: List::new(alloc),
            size: 0,
            stamp: 0,
            handles: List::new(alloc),
        }
    }
}

impl Twin for Handle {
    fn copy(&self, _: Global) -> Result<Handle, Memory> {
        Ok(*self)
    }

    fn discard(self) {}
}

impl Twin for Node {
    fn copy(&self, alloc: Global) -> Result<Node, Memory> {
        let (parent, children, handles) = copy_three(
            alloc,
            &self.parent,
            &self.children,
            &self.handles,
        )?;
        Ok(Node {
            kind: self.kind,
            parent,
            children,
            size: self.size,
            stamp: self.stamp,
            handles,
        })
    }

    fn discard(self) {}
}
