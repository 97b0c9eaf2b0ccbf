//! Packed identifiers.
ghost use Rattle.std.specs.Prelude.{◌≡◌, ◌++◌, ℕ, List, length, drop, IfOk, IsErrOf, OnOk, OnErr};
ghost use Rattle.fs_ident.specs.Ident.{IsId};
ghost use Rattle.fs_ident.specs.Packed.{packed, IsNoPacked, IsLongestPacked};

use crate::bit_writer::BitWriter;
use crate::bits::{depth_in_front, number_at, padding_at};
use crate::error::IdError;
use crate::file_id::FileId;
use crate::memory::Memory;
use std::alloc::Global;

impl FileId {
    /// Adds the packed identifier.
    pub fn pack(&self, out: &mut Vec<u8>) -> Result<(), Memory>
        ensures ok { OnOk result (out.new.items ≡ out.old.items ++ packed self.now) }
        ensures err { OnErr result (out.new.items ≡ out.old.items) }
    {
        let numbers = self.numbers();
        let mut bits = BitWriter::new();
        bits.put_code(numbers.len() as u32 + 1);
        for n in numbers {
            bits.put_code(*n);
        }
        bits.pad();
        out.extend_from_slice(bits.bytes())?;
        Ok(())
    }

    /// The packed identifier that the bytes begin with, and how many bytes it takes. `BadBits` where they begin with
    /// none, with the length in bits of the longest prefix that some packed identifier begins with.
    pub fn unpack(alloc: Global, bytes: &[u8]) -> Result<(FileId, usize), IdError>
        ensures ok { IfOk result (λ read. bytes.now ≡ packed read.0 ++ drop read.1 bytes.now) }
        ensures used { IfOk result (λ read. read.1 ≡ length (packed read.0)) }
        ensures valid { IfOk result (λ read. IsId read.0) }
        ensures one { (id rest : List ℕ) → IsId id → bytes.now ≡ packed id ++ rest →
            IfOk result (λ read. read.0 ≡ id) }
        ensures bad { (at : ℕ) → IsErrOf result (IdError.BadBits at) → IsNoPacked bytes.now ×
            IsLongestPacked bytes.now at }
        ensures deep { IsErrOf result IdError.Deep → ⊥ }
        ensures zero { IsErrOf result IdError.Zero → ⊥ }
        ensures text { (at : ℕ) → IsErrOf result (IdError.BadText at) → ⊥ }
        ensures name { (at : ℕ) → IsErrOf result (IdError.BadName at) → ⊥ }
    {
        let (more, width) = match depth_in_front(bytes) {
            Ok(code) => code,
            Err(at) => return Err(IdError::BadBits { at }),
        };
        let depth = more as usize - 1;
        let mut at = width;
        let mut numbers = Vec::with_capacity(alloc, depth)?;
        for _ in 0..depth {
            match number_at(bytes, at) {
                Ok((number, width)) => {
                    numbers.push(number)?;
                    at += width;
                }
                Err(width) => return Err(IdError::BadBits { at: at + width }),
            }
        }
        match padding_at(bytes, at) {
            Ok(used) => Ok((FileId::from_numbers(numbers), used)),
            Err(at) => Err(IdError::BadBits { at }),
        }
    }
}
