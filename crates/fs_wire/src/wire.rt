//! What can be spelled in bytes and read again.
ghost use Rattle.std.specs.Prelude.{◌≡◌, ◌++◌, Bool, true, List, ℕ, Result, OnOk};
ghost use Rattle.fs_wire.specs.Readers.{Reader, Gives};

use crate::fault::ReadError;
use std::alloc::{AllocError, Global};

/// A value with a spelling.
pub trait Wire: Drop {
    /// Its spelling.
    ghost text: { Self → List ℕ };

    /// How it is read.
    ghost at: { Reader Self };

    /// What is true of a value that is read again from its spelling.
    ghost fits: { Self → Type 0 };

    /// Whether it fits, where its type does not say so.
    ghost readable: { Self → Bool };

    /// Adds the spelling at the end. When out of memory, a part of it may stand there.
    fn put(&self, out: &mut Vec<u8>) -> Result<(), AllocError>
        ensures text { OnOk result (out.new.items ≡ out.old.items ++ text self.now) }
        ensures fits { OnOk result (readable self.now ≡ true → fits self.now) };

    /// The value at the beginning, and the bytes behind it.
    fn get(alloc: Global, bytes: &[u8]) -> Result<(Self, &[u8]), ReadError>
        ensures { Gives (λ x. (x.0, x.1.now)) result (at bytes.now) };
}
