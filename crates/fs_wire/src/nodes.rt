//! Nodes of the tree, and the opens of files.
ghost use Rattle.fs_wire.specs.Spelling.{handle, node};
ghost use Rattle.fs_wire.specs.Reading.{handle_at, node_at};
ghost use Rattle.fs_wire.specs.Ranges.{FitsHandle, FitsNode};
ghost use Rattle.fs_wire.specs.Readable.{is_readable_handle, is_readable_node};

use crate::fault::ReadError;
use crate::wire::Wire;
use fs_ident::{FileId, Kind, List, Name, Session};
use fs_model::{Handle, Node};
use fs_modes::Modes;
use std::alloc::{AllocError, Global};

impl Wire for Handle {
    ghost text = { handle };

    ghost at = { handle_at };

    ghost fits = { FitsHandle };

    ghost readable = { is_readable_handle };

    fn put(&self, out: &mut Vec<u8>) -> Result<(), AllocError> {
        self.session.put(out)?;
        self.h.put(out)?;
        self.modes.put(out)
    }

    #[tactic(auto, unfolding(crate::specs::Reading::handle_at, crate::specs::Readers::map_at))]
    fn get(alloc: Global, bytes: &[u8]) -> Result<(Handle, &[u8]), ReadError> {
        let ((session, (h, modes)), rest) = <(Session, (u32, Modes))>::get(alloc, bytes)?;
        Ok((Handle { session, h, modes }, rest))
    }
}

impl Wire for Node {
    ghost text = { node };

    ghost at = { node_at };

    ghost fits = { FitsNode };

    ghost readable = { is_readable_node };

    #[tactic(auto, unfolding(crate::specs::Spelling::node), using(crate::proofs::Readable::always_pair, crate::proofs::Readable::always_pairs))]
    fn put(&self, out: &mut Vec<u8>) -> Result<(), AllocError> {
        self.kind.put(out)?;
        self.parent.put(out)?;
        self.children.put(out)?;
        self.size.put(out)?;
        self.stamp.put(out)?;
        self.handles.put(out)
    }

    #[tactic(auto, unfolding(crate::specs::Reading::node_at, crate::specs::Readers::map_at))]
    fn get(alloc: Global, bytes: &[u8]) -> Result<(Node, &[u8]), ReadError> {
        let (x, rest) = <(
            Kind,
            (
                Option<(FileId, Name)>,
                (List<(Name, FileId)>, (u64, (u64, List<Handle>))),
            ),
        )>::get(alloc, bytes)?;
        let (kind, (parent, (children, (size, (stamp, handles))))) = x;
        let node = Node {
            kind,
            parent,
            children,
            size,
            stamp,
            handles,
        };
        Ok((node, rest))
    }
}
