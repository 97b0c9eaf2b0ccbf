//! A path lease from another server, which may be used.
ghost use Rattle.std.specs.Prelude.{◌≡◌};

use crate::leaving::Leaving;
use crate::used::Used;
use fs_ident::{FileId, List, Memory, PathNo, Twin, copy_two};
use std::alloc::Global;
use std::marker::Model;

/// A path lease that may be used.
#[derive(Debug, Drop)]
pub struct Held {
    no: PathNo,
    from: u8,
    file: FileId,
    path: List<FileId>,
}

impl Model for Held {
    ghost use Rattle.fs_path.specs.Leases.{PathLease};

    ghost Value = { PathLease };

    ghost view = { λ l. record { no = l.no; peer = l.from; file = l.file; path = l.path } };
}

impl Held {
    /// A lease as another server gave it.
    pub fn new(from: u8, no: PathNo, file: FileId, path: List<FileId>) -> Held
        ensures { result ≡ record { no = no; peer = from; file = file; path = path } }
    {
        Held {
            no,
            from,
            file,
            path,
        }
    }

    /// Its number.
    pub fn no(&self) -> PathNo
        ensures { result ≡ self.now.no }
    {
        self.no
    }

    /// The server that gave it.
    pub fn from(&self) -> u8
        ensures { result ≡ self.now.peer }
    {
        self.from
    }

    /// Its file.
    pub fn file(&self) -> &FileId
        ensures { result.now ≡ self.now.file }
    {
        &self.file
    }

    /// The files from the root down to its own.
    pub fn path(&self) -> &List<FileId>
        ensures { result.now ≡ self.now.path }
    {
        &self.path
    }

    /// It is used: while it is, it cannot leave.
    pub fn used(&self) -> Used<'_>
        ensures { result.lease.now ≡ self.now }
    {
        Used { lease: self }
    }

    /// It goes back to its server as soon as nothing rests on it.
    pub fn leave(self) -> Leaving
        ensures { result ≡ self }
    {
        let Held {
            no,
            from,
            file,
            path,
        } = self;
        Leaving::new(from, no, file, path)
    }
}

impl Twin for Held {
    fn copy(&self, alloc: Global) -> Result<Held, Memory> {
        let (file, path) = copy_two(alloc, &self.file, &self.path)?;
        Ok(Held {
            no: self.no,
            from: self.from,
            file,
            path,
        })
    }

    /// Spends it, with the whole table that has it.
    fn discard(self) {
        let Held {
            no: _,
            from: _,
            file,
            path,
        } = self;
        drop(file);
        drop(path);
    }
}
