//! What a leader asks of the server of a part, as bytes.
ghost use Rattle.fs_msg.specs.Spelling.{prepare};
ghost use Rattle.fs_msg.specs.Reading.{prepare_at};
ghost use Rattle.fs_msg.specs.Ranges.{FitsPrepare};
ghost use Rattle.fs_msg.specs.Readable.{is_readable_prepare};

use crate::prepare::Prepare;
use fs_field::Part;
use fs_ident::{Session, TxnNo};
use fs_wire::{ReadError, Wire};
use std::alloc::{AllocError, Global};

impl Wire for Prepare {
    ghost text = { prepare };

    ghost at = { prepare_at };

    ghost fits = { FitsPrepare };

    ghost readable = { is_readable_prepare };

    #[tactic(auto, unfolding(crate::specs::Spelling::prepare))]
    fn put(&self, out: &mut Vec<u8>) -> Result<(), AllocError> {
        self.txn.put(out)?;
        self.number.put(out)?;
        self.session.put(out)?;
        self.part.put(out)
    }

    #[tactic(auto, unfolding(crate::specs::Reading::prepare_at, fs_wire::specs::Readers::map_at))]
    fn get(alloc: Global, bytes: &[u8]) -> Result<(Prepare, &[u8]), ReadError> {
        let ((txn, (number, (session, part))), rest) = <(TxnNo, (u8, (Session, Part)))>::get(
            alloc, bytes,
        )?;
        Ok((
            Prepare {
                txn,
                number,
                session,
                part,
            },
            rest,
        ))
    }
}
