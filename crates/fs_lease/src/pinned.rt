//! A lease that entries use.
ghost use Rattle.std.specs.Prelude.{◌≡◌, ◌+◌, ◌<◌, ◌≤◌};
ghost use Rattle.fs_lease.specs.Steps.{one_entry_less};

use crate::held::Held;
use fs_field::{Field, LeaseKind};
use fs_ident::{LeaseNo, Memory, Twin};
use std::alloc::Global;
use std::marker::Model;

/// A lease that entries use, at least one.
#[derive(Debug)]
pub struct Pinned {
    held: Held,
    entries: u64,
}

impl Model for Pinned {
    ghost use Rattle.std.specs.Prelude.{◌≤◌};
    ghost use Rattle.fs_lease.specs.Lease.{InUse};

    ghost Value = { InUse };

    ghost view = { λ p. record { lease = p.held; entries = p.entries } };

    ghost invariant = { λ p. 1 ≤ p.entries };
}

/// A lease of which one entry less makes use.
#[derive(Debug)]
pub enum Unpinned {
    /// Other entries still use it.
    Still(Pinned),
    /// No entry uses it any more.
    Free(Held),
}

impl Pinned {
    /// A lease that one entry uses.
    pub(crate) fn new(held: Held) -> Pinned
        ensures { result ≡ record { lease = held; entries = 1 } }
    {
        Pinned { held, entries: 1 }
    }

    /// Its number.
    pub fn no(&self) -> LeaseNo
        ensures { result ≡ self.now.lease.no }
    {
        self.held.no()
    }

    /// The field that it is on.
    pub fn field(&self) -> &Field
        ensures { result.now ≡ self.now.lease.field }
    {
        self.held.field()
    }

    /// Whether others may hold one too.
    pub fn kind(&self) -> LeaseKind
        ensures { result ≡ self.now.lease.kind }
    {
        self.held.kind()
    }

    /// The reading from which on it is not used.
    pub fn until(&self) -> u64
        ensures { result ≡ self.now.lease.until }
    {
        self.held.until()
    }

    /// How many entries use it.
    pub fn entries(&self) -> u64
        ensures same { result ≡ self.now.entries }
        ensures some { 1 ≤ self.now.entries }
    {
        self.entries
    }

    /// One more entry uses it.
    pub fn more(self) -> Pinned
        requires { self.entries < u64.MAX }
        ensures { result ≡ record self { entries = self.entries + 1 } }
    {
        let Pinned { held, entries } = self;
        Pinned {
            held,
            entries: entries + 1,
        }
    }

    /// One entry less uses it; `Free` exactly where it was the only one.
    pub fn unpin(self) -> Unpinned
        ensures { result ≡ one_entry_less self }
    {
        let Pinned { held, entries } = self;
        if entries == 1 {
            return Unpinned::Free(held);
        }
        Unpinned::Still(Pinned {
            held,
            entries: entries - 1,
        })
    }

    /// It has a new end.
    pub fn renewed(self, until: u64) -> Pinned
        ensures { result ≡ record self { lease = record self.lease { until = until } } }
    {
        let Pinned { held, entries } = self;
        Pinned {
            held: held.renewed(until),
            entries,
        }
    }
}

impl Twin for Pinned {
    fn copy(&self, alloc: Global) -> Result<Pinned, Memory> {
        Ok(Pinned {
            held: self.held.copy(alloc)?,
            entries: self.entries,
        })
    }

    /// Spends it, with the whole core that has it.
    fn discard(self) {
        let Pinned { held, entries: _ } = self;
        held.discard();
    }
}
