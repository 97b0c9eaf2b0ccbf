//! The lines of a node's script.
use fs_field::Field;
use fs_ident::{FileId, Memory, Twin};
use fs_model::Op;
use std::alloc::Global;

/// A line of a node's script.
#[derive(Debug, Drop)]
pub enum Script {
    /// The client's user asks for an operation.
    Op(Op),
    /// The server asks for the leases on the field.
    Recall(Field),
    /// The server gives what it manages below the prefix to another.
    Move { prefix: FileId, to: u8 },
}

impl Twin for Script {
    fn copy(&self, alloc: Global) -> Result<Script, Memory> {
        match self {
            Script::Op(op) => Ok(Script::Op(op.copy(alloc)?)),
            Script::Recall(field) => Ok(Script::Recall(field.copy(alloc)?)),
            Script::Move { prefix, to } => Ok(Script::Move {
                prefix: prefix.copy(alloc)?,
                to: *to,
            }),
        }
    }

    fn discard(self) {
        drop(self);
    }
}
