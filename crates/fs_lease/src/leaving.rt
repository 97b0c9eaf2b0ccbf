//! A lease on its way back to its server.
ghost use Rattle.std.specs.Prelude.{◌≡◌};

use fs_ident::{FileId, LeaseNo, Memory, Twin};
use std::alloc::Global;
use std::marker::Model;

/// A lease that goes back to its server.
#[derive(Debug)]
pub struct Leaving {
    no: LeaseNo,
    file: FileId,
}

impl Model for Leaving {
    ghost use Rattle.fs_lease.specs.Lease.{OnItsWay};

    ghost Value = { OnItsWay };

    ghost view = { λ l. record { no = l.no; file = l.file } };
}

impl Leaving {
    /// The lease of this number on a field of the file.
    pub(crate) fn new(no: LeaseNo, file: FileId) -> Leaving
        ensures { result ≡ record { no = no; file = file } }
    {
        Leaving { no, file }
    }

    /// Its number.
    pub fn no(&self) -> LeaseNo
        ensures { result ≡ self.now.no }
    {
        self.no
    }

    /// The file of its field.
    pub fn file(&self) -> &FileId
        ensures { result.now ≡ self.now.file }
    {
        &self.file
    }

    /// Its server has it back: spends it.
    pub fn released(self) {
        self.discard();
    }
}

impl Twin for Leaving {
    fn copy(&self, alloc: Global) -> Result<Leaving, Memory> {
        Ok(Leaving {
            no: self.no,
            file: self.file.copy(alloc)?,
        })
    }

    /// Spends it, with the whole core that has it.
    fn discard(self) {
        let Leaving { no: _, file } = self;
        drop(file);
    }
}
