//! What a led operation asks of the server of one file.
ghost use Rattle.std.specs.Prelude.{true};
ghost use Rattle.fs_wire.specs.Spelling.{part};
ghost use Rattle.fs_wire.specs.Reading.{part_at};
ghost use Rattle.fs_wire.specs.Ranges.{FitsPart};

use crate::fault::ReadError;
use crate::wire::Wire;
use fs_field::{Part, Use};
use fs_ident::{FileId, List};
use std::alloc::{AllocError, Global};

impl Wire for Part {
    ghost text = { part };

    ghost at = { part_at };

    ghost fits = { FitsPart };

    ghost readable = { λ _. true };

    #[tactic(auto, unfolding(crate::specs::Spelling::part), using(crate::proofs::Readable::always_list, crate::proofs::Readable::always_option))]
    fn put(&self, out: &mut Vec<u8>) -> Result<(), AllocError> {
        self.file.put(out)?;
        self.uses.put(out)?;
        self.freeze.put(out)
    }

    #[tactic(auto, unfolding(crate::specs::Reading::part_at, crate::specs::Readers::map_at))]
    fn get(alloc: Global, bytes: &[u8]) -> Result<(Part, &[u8]), ReadError> {
        let ((file, (uses, freeze)), rest) = <(FileId, (List<Use>, Option<FileId>))>::get(
            alloc, bytes,
        )?;
        Ok((Part { file, uses, freeze }, rest))
    }
}
