//! Identifiers of files.
ghost use Rattle.std.specs.Prelude.{◌≡◌, ◌++◌, ℕ, List, true, OnOk};
ghost use Rattle.fs_ident.specs.Ident.{IsId};
ghost use Rattle.fs_wire.specs.Spelling.{identifier};
ghost use Rattle.fs_wire.specs.Readers.{Gives};
ghost use Rattle.fs_wire.specs.Reading.{identifier_at};

use crate::fault::{ReadError, stop};
use crate::wire::Wire;
use fs_ident::{FileId, IdError, Memory};
use std::alloc::{AllocError, Global};

impl Wire for FileId {
    ghost text = { identifier };

    ghost at = { identifier_at };

    ghost fits = { IsId };

    ghost readable = { λ _. true };

    fn put(&self, out: &mut Vec<u8>) -> Result<(), AllocError> {
        // What `numbers` promises of them: they are an identifier's.
        let _numbers = self.numbers();
        match self.pack(out) {
            Ok(()) => Ok(()),
            Err(Memory) => Err(AllocError),
        }
    }

    fn get(alloc: Global, bytes: &[u8]) -> Result<(FileId, &[u8]), ReadError> {
        match FileId::unpack(alloc, bytes) {
            Ok((id, used)) => Ok((id, &bytes[used..])),
            Err(IdError::BadBits { at }) => Err(stop(false, bytes.len() - at / 8)),
            Err(IdError::Memory) => Err(ReadError::Memory),
            Err(IdError::Deep) => unreachable!(),
            Err(IdError::Zero) => unreachable!(),
            Err(IdError::BadText { at: _ }) => unreachable!(),
            Err(IdError::BadName { at: _ }) => unreachable!(),
        }
    }
}
