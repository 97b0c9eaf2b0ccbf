//! A path lease that a server gave out.
ghost use Rattle.std.specs.Prelude.{◌≡◌};
ghost use Rattle.fs_path.specs.Leases.{goes_into, goes_over, named_to_peer};

use crate::files::{goes_into, goes_over};
use fs_ident::{FileId, List, Memory, PathNo, Twin, copy_two};
use fs_map::FileMap;
use std::alloc::Global;
use std::marker::Model;

/// A path lease that another server has from this one.
#[derive(Debug, Drop)]
pub struct Issued {
    no: PathNo,
    to: u8,
    file: FileId,
    path: List<FileId>,
}

impl Model for Issued {
    ghost use Rattle.fs_path.specs.Leases.{PathLease};

    ghost Value = { PathLease };

    ghost view = { λ l. record { no = l.no; peer = l.to; file = l.file; path = l.path } };
}

impl Issued {
    /// A lease that is given out.
    pub fn new(no: PathNo, to: u8, file: FileId, path: List<FileId>) -> Issued
        ensures { result ≡ record { no = no; peer = to; file = file; path = path } }
    {
        Issued { no, to, file, path }
    }

    /// Its number.
    pub fn no(&self) -> PathNo
        ensures { result ≡ self.now.no }
    {
        self.no
    }

    /// The server that has it.
    pub fn to(&self) -> u8
        ensures { result ≡ self.now.peer }
    {
        self.to
    }

    /// The server that has it, and its number.
    pub fn named_to_peer(&self) -> (u8, PathNo)
        ensures { result ≡ named_to_peer self.now }
    {
        (self.to, self.no)
    }

    /// The files from the root down to its own.
    pub fn path(&self) -> &List<FileId>
        ensures { result.now ≡ self.now.path }
    {
        &self.path
    }

    /// Whether its path goes over the file.
    pub fn goes_over(&self, file: &FileId) -> bool
        ensures { result ≡ goes_over file.now self.now }
    {
        goes_over(self.path.as_slice(), file)
    }

    /// Whether its path goes over a file below the prefix that is `me`'s.
    pub fn goes_into(&self, map: &FileMap, me: u8, prefix: &FileId) -> bool
        ensures { result ≡ goes_into map.now me prefix.now self.now }
    {
        goes_into(self.path.as_slice(), map, me, prefix)
    }

    /// The server gave it back: spends it.
    pub fn released(self) {
        self.discard();
    }
}

impl Twin for Issued {
    fn copy(&self, alloc: Global) -> Result<Issued, Memory> {
        let (file, path) = copy_two(alloc, &self.file, &self.path)?;
        Ok(Issued {
            no: self.no,
            to: self.to,
            file,
            path,
        })
    }

    /// Spends it, with the whole table that has it.
    fn discard(self) {
        let Issued {
            no: _,
            to: _,
            file,
            path,
        } = self;
        drop(file);
        drop(path);
    }
}
