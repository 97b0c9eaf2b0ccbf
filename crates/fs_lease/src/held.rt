//! A lease that no entry uses.
ghost use Rattle.std.specs.Prelude.{◌≡◌, ◌≤◌};
ghost use Rattle.fs_field.specs.Field.{file_of};

use crate::leaving::Leaving;
use crate::pinned::Pinned;
use fs_field::{Field, LeaseKind};
use fs_ident::{LeaseNo, Memory, Twin};
use std::alloc::Global;
use std::marker::Model;

/// A lease that may be used and that no entry uses.
#[derive(Debug)]
pub struct Held {
    no: LeaseNo,
    field: Field,
    kind: LeaseKind,
    until: u64,
}

impl Model for Held {
    ghost use Rattle.fs_lease.specs.Lease.{Lease};

    ghost Value = { Lease };

    ghost view = { λ h. record { no = h.no; field = h.field; kind = h.kind; until = h.until } };
}

impl Held {
    /// A lease as its server gave it.
    pub fn new(no: LeaseNo, field: Field, kind: LeaseKind, until: u64) -> Held
        ensures { result ≡ record { no = no; field = field; kind = kind; until = until } }
    {
        Held {
            no,
            field,
            kind,
            until,
        }
    }

    /// Its number.
    pub fn no(&self) -> LeaseNo
        ensures { result ≡ self.now.no }
    {
        self.no
    }

    /// The field that it is on.
    pub fn field(&self) -> &Field
        ensures { result.now ≡ self.now.field }
    {
        &self.field
    }

    /// Whether others may hold one too.
    pub fn kind(&self) -> LeaseKind
        ensures { result ≡ self.now.kind }
    {
        self.kind
    }

    /// The reading from which on it is not used.
    pub fn until(&self) -> u64
        ensures { result ≡ self.now.until }
    {
        self.until
    }

    /// A first entry uses it.
    pub fn pin(self) -> Pinned
        ensures { result ≡ record { lease = self; entries = 1 } }
    {
        Pinned::new(self)
    }

    /// It goes back to its server.
    pub fn leave(self) -> Leaving
        ensures { result ≡ record { no = self.no; file = file_of self.field } }
    {
        let Held {
            no,
            field,
            kind: _,
            until: _,
        } = self;
        Leaving::new(no, field.into_file())
    }

    /// Its time is over: spends it.
    pub fn ended(self, now: u64)
        requires { self.until ≤ now }
    {
        self.discard();
    }

    /// It has a new end.
    pub fn renewed(self, until: u64) -> Held
        ensures { result ≡ record self { until = until } }
    {
        let Held {
            no,
            field,
            kind,
            until: _,
        } = self;
        Held {
            no,
            field,
            kind,
            until,
        }
    }
}

impl Twin for Held {
    fn copy(&self, alloc: Global) -> Result<Held, Memory> {
        Ok(Held {
            no: self.no,
            field: self.field.copy(alloc)?,
            kind: self.kind,
            until: self.until,
        })
    }

    /// Spends it, with the whole core that has it.
    fn discard(self) {
        let Held {
            no: _,
            field,
            kind: _,
            until: _,
        } = self;
        drop(field);
    }
}
