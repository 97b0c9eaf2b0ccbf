//! What the server of a part answers, as bytes.
ghost use Rattle.std.specs.Prelude.{true};
ghost use Rattle.fs_msg.specs.Spelling.{voted};
ghost use Rattle.fs_msg.specs.Reading.{voted_at};
ghost use Rattle.fs_msg.specs.Ranges.{FitsVoted};

use crate::voted::Voted;
use fs_field::Vote;
use fs_ident::TxnNo;
use fs_wire::{ReadError, Wire};
use std::alloc::{AllocError, Global};

impl Wire for Voted {
    ghost text = { voted };

    ghost at = { voted_at };

    ghost fits = { FitsVoted };

    ghost readable = { λ _. true };

    #[tactic(auto, unfolding(crate::specs::Spelling::voted))]
    fn put(&self, out: &mut Vec<u8>) -> Result<(), AllocError> {
        self.txn.put(out)?;
        self.number.put(out)?;
        self.vote.put(out)
    }

    #[tactic(auto, unfolding(crate::specs::Reading::voted_at, fs_wire::specs::Readers::map_at))]
    fn get(alloc: Global, bytes: &[u8]) -> Result<(Voted, &[u8]), ReadError> {
        let ((txn, (number, vote)), rest) = <(TxnNo, (u8, Vote))>::get(alloc, bytes)?;
        Ok((Voted { txn, number, vote }, rest))
    }
}
