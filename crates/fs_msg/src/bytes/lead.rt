//! What a client asks of a leader, as bytes.
ghost use Rattle.fs_msg.specs.Spelling.{lead};
ghost use Rattle.fs_msg.specs.Reading.{lead_at};
ghost use Rattle.fs_msg.specs.Ranges.{FitsLead};
ghost use Rattle.fs_msg.specs.Readable.{is_readable_lead};

use crate::lead::Lead;
use fs_field::Use;
use fs_ident::{FileId, Kind, List};
use fs_model::Op;
use fs_wire::{ReadError, Wire};
use std::alloc::{AllocError, Global};

impl Wire for Lead {
    ghost text = { lead };

    ghost at = { lead_at };

    ghost fits = { FitsLead };

    ghost readable = { is_readable_lead };

    #[tactic(auto, unfolding(crate::specs::Spelling::lead), using(fs_wire::proofs::Readable::always_list))]
    fn put(&self, out: &mut Vec<u8>) -> Result<(), AllocError> {
        self.n.put(out)?;
        self.op.put(out)?;
        self.file.put(out)?;
        self.kind.put(out)?;
        self.uses.put(out)
    }

    #[tactic(auto, unfolding(crate::specs::Reading::lead_at, fs_wire::specs::Readers::map_at))]
    fn get(alloc: Global, bytes: &[u8]) -> Result<(Lead, &[u8]), ReadError> {
        let ((n, (op, (file, (kind, uses)))), rest) = <(
            u64,
            (Op, (FileId, (Kind, List<Use>))),
        )>::get(alloc, bytes)?;
        Ok((
            Lead {
                n,
                op,
                file,
                kind,
                uses,
            },
            rest,
        ))
    }
}
