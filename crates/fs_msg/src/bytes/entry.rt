//! Entries as bytes.
ghost use Rattle.fs_msg.specs.Spelling.{entry};
ghost use Rattle.fs_msg.specs.Reading.{entry_at};
ghost use Rattle.fs_msg.specs.Ranges.{FitsEntry};
ghost use Rattle.fs_msg.specs.Readable.{is_readable_entry};

use crate::entry::Entry;
use fs_field::Use;
use fs_ident::List;
use fs_model::{Op, Reply};
use fs_wire::{ReadError, Wire};
use std::alloc::{AllocError, Global};

impl Wire for Entry {
    ghost text = { entry };

    ghost at = { entry_at };

    ghost fits = { FitsEntry };

    ghost readable = { is_readable_entry };

    #[tactic(auto, unfolding(crate::specs::Spelling::entry), using(fs_wire::proofs::Readable::always_list))]
    fn put(&self, out: &mut Vec<u8>) -> Result<(), AllocError> {
        self.n.put(out)?;
        self.op.put(out)?;
        self.reply.put(out)?;
        self.uses.put(out)
    }

    #[tactic(auto, unfolding(crate::specs::Reading::entry_at, fs_wire::specs::Readers::map_at))]
    fn get(alloc: Global, bytes: &[u8]) -> Result<(Entry, &[u8]), ReadError> {
        let ((n, (op, (reply, uses))), rest) = <(u64, (Op, (Reply, List<Use>)))>::get(
            alloc, bytes,
        )?;
        Ok((Entry { n, op, reply, uses }, rest))
    }
}
