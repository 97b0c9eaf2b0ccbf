//! What a part does in the end, as bytes.
ghost use Rattle.fs_msg.specs.Spelling.{decide};
ghost use Rattle.fs_msg.specs.Reading.{decide_at};
ghost use Rattle.fs_msg.specs.Ranges.{FitsDecide};
ghost use Rattle.fs_msg.specs.Readable.{is_readable_decide};

use crate::decide::Decide;
use fs_field::Effect;
use fs_ident::{List, TxnNo};
use fs_wire::{ReadError, Wire};
use std::alloc::{AllocError, Global};

impl Wire for Decide {
    ghost text = { decide };

    ghost at = { decide_at };

    ghost fits = { FitsDecide };

    ghost readable = { is_readable_decide };

    #[tactic(auto, unfolding(crate::specs::Spelling::decide))]
    fn put(&self, out: &mut Vec<u8>) -> Result<(), AllocError> {
        self.txn.put(out)?;
        self.number.put(out)?;
        self.effects.put(out)
    }

    #[tactic(auto, unfolding(crate::specs::Reading::decide_at, fs_wire::specs::Readers::map_at))]
    fn get(alloc: Global, bytes: &[u8]) -> Result<(Decide, &[u8]), ReadError> {
        let ((txn, (number, effects)), rest) = <(TxnNo, (u8, List<Effect>))>::get(alloc, bytes)?;
        Ok((
            Decide {
                txn,
                number,
                effects,
            },
            rest,
        ))
    }
}
