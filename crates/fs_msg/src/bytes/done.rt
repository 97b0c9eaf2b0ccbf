//! That a part is done, as bytes.
ghost use Rattle.std.specs.Prelude.{true};
ghost use Rattle.fs_msg.specs.Spelling.{done};
ghost use Rattle.fs_msg.specs.Reading.{done_at};
ghost use Rattle.fs_msg.specs.Ranges.{FitsDone};

use crate::done::Done;
use fs_ident::TxnNo;
use fs_wire::{ReadError, Wire};
use std::alloc::{AllocError, Global};

impl Wire for Done {
    ghost text = { done };

    ghost at = { done_at };

    ghost fits = { FitsDone };

    ghost readable = { λ _. true };

    #[tactic(auto, unfolding(crate::specs::Spelling::done))]
    fn put(&self, out: &mut Vec<u8>) -> Result<(), AllocError> {
        self.txn.put(out)?;
        self.number.put(out)
    }

    #[tactic(auto, unfolding(crate::specs::Reading::done_at, fs_wire::specs::Readers::map_at))]
    fn get(alloc: Global, bytes: &[u8]) -> Result<(Done, &[u8]), ReadError> {
        let ((txn, number), rest) = <(TxnNo, u8)>::get(alloc, bytes)?;
        Ok((Done { txn, number }, rest))
    }
}
