//! A path lease from another server that goes back, or waits for those that rest on it.
ghost use Rattle.std.specs.Prelude.{◌≡◌};

use fs_ident::{FileId, List, Memory, PathNo, Twin, copy_two};
use std::alloc::Global;
use std::marker::Model;

/// A path lease that is used for nothing any more. No path can be taken from it.
#[derive(Debug, Drop)]
pub struct Leaving {
    no: PathNo,
    from: u8,
    file: FileId,
    path: List<FileId>,
}

impl Model for Leaving {
    ghost use Rattle.fs_path.specs.Leases.{PathLease};

    ghost Value = { PathLease };

    ghost view = { λ l. record { no = l.no; peer = l.from; file = l.file; path = l.path } };
}

impl Leaving {
    /// A lease that leaves.
    pub(crate) fn new(from: u8, no: PathNo, file: FileId, path: List<FileId>) -> Leaving
        ensures { result ≡ record { no = no; peer = from; file = file; path = path } }
    {
        Leaving {
            no,
            from,
            file,
            path,
        }
    }

    /// Its number.
    pub fn no(&self) -> PathNo
        ensures { result ≡ self.now.no }
    {
        self.no
    }

    /// The server that gave it.
    pub fn from(&self) -> u8
        ensures { result ≡ self.now.peer }
    {
        self.from
    }

    /// Its file.
    pub fn file(&self) -> &FileId
        ensures { result.now ≡ self.now.file }
    {
        &self.file
    }

    /// The files from the root down to its own, over which nothing moves before it is back.
    pub fn path(&self) -> &List<FileId>
        ensures { result.now ≡ self.now.path }
    {
        &self.path
    }

    /// Its server gets it back: spends it.
    pub fn released(self) {
        self.discard();
    }
}

impl Twin for Leaving {
    fn copy(&self, alloc: Global) -> Result<Leaving, Memory> {
        let (file, path) = copy_two(alloc, &self.file, &self.path)?;
        Ok(Leaving {
            no: self.no,
            from: self.from,
            file,
            path,
        })
    }

    /// Spends it, with the whole table that has it.
    fn discard(self) {
        let Leaving {
            no: _,
            from: _,
            file,
            path,
        } = self;
        drop(file);
        drop(path);
    }
}
