//! How long leases last.
ghost use Rattle.std.specs.Prelude.{◌≡◌, ◌≤◌};
ghost use Rattle.fs_msg.specs.declared.limits.TheConstants.{LONGEST};

use fs_ident::{Memory, Twin};
use std::alloc::Global;
use std::marker::Model;

/// How long a lease lasts, in milliseconds, from 1 to `LONGEST`.
#[derive(Debug, Drop)]
pub(crate) struct Term {
    millis: u64,
}

impl Model for Term {
    ghost use Rattle.std.specs.Prelude.{ℕ};
    ghost use Rattle.fs_world.specs.Term.{IsTerm};

    ghost Value = { ℕ };

    ghost view = { λ t. t.millis };

    ghost invariant = { λ t. IsTerm t.millis };
}

impl Term {
    pub(crate) fn new(millis: u64) -> Term
        requires some { 1 ≤ millis }
        requires most { millis ≤ LONGEST }
        ensures { result ≡ millis }
    {
        Term { millis }
    }

    pub(crate) fn millis(&self) -> u64
        ensures same { result ≡ self.now }
        ensures some { 1 ≤ result }
        ensures most { result ≤ LONGEST }
    {
        self.millis
    }
}

impl Twin for Term {
    fn copy(&self, _: Global) -> Result<Term, Memory> {
        Ok(Term {
            millis: self.millis,
        })
    }

    fn discard(self) {}
}
