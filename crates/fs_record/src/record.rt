//! What a server keeps of a file.
ghost use Rattle.std.specs.Prelude.{◌≡◌, ◌↔◌, ◌≤◌, ◌&&◌, true};
ghost use Rattle.fs_ident.specs.Ordered.{are_keys_in_order};
ghost use Rattle.fs_model.specs.Handles.{handles_are_in_order};
ghost use Rattle.fs_model.specs.Namespace.{IsInOrder};

use crate::in_order::is_in_order;
use fs_ident::{Memory, Twin};
use fs_model::Node;
use std::alloc::Global;

/// A file or a directory, and the next number for a file that is made in it.
#[derive(Debug, Drop)]
pub struct Record {
    pub node: Node,
    /// From 1 to 4294967296; the last of these is no number of an identifier, and none is left.
    pub next: u64,
}

impl Record {
    /// Whether its children are strictly in order of name, and its handles strictly in order of session and number.
    pub fn is_in_order(&self) -> bool
        ensures test { result ≡ (are_keys_in_order self.now.node.children &&
            handles_are_in_order self.now.node.handles) }
        ensures order { result ≡ true ↔ IsInOrder self.now.node }
    {
        is_in_order(&self.node)
    }

    /// Whether its next number is from 1 to 4294967296.
    pub fn has_number_left(&self) -> bool
        ensures { result ≡ true ↔ ((1 ≤ self.now.next) × (self.now.next ≤ 4294967296)) }
    {
        1 <= self.next && self.next <= 4294967296
    }
}

impl Twin for Record {
    fn copy(&self, alloc: Global) -> Result<Record, Memory> {
        Ok(Record {
            node: self.node.copy(alloc)?,
            next: self.next,
        })
    }

    fn discard(self) {}
}
