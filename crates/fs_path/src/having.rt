//! A path lease from another server, in one of its states.
ghost use Rattle.std.specs.Prelude.{◌≡◌, option_map};
ghost use Rattle.fs_path.specs.Leases.{goes_into, named_to_peer};
ghost use Rattle.fs_path.specs.Tables.{is_leaving, lease_of, leaving, serves};

use crate::files::goes_into;
use crate::held::Held;
use crate::leaving::Leaving;
use crate::used::Used;
use fs_ident::{FileId, List, Memory, PathNo, Twin};
use fs_map::FileMap;
use std::alloc::Global;

/// A path lease that a server has from another one. One that is used is borrowed, and comes back held.
#[derive(Debug, Drop)]
pub enum Having {
    /// It may be used.
    Held(Held),
    /// It is used for nothing any more.
    Leaving(Leaving),
}

impl Having {
    /// Its number.
    pub fn no(&self) -> PathNo
        ensures { result ≡ (lease_of self.now).no }
    {
        match self {
            Having::Held(held) => held.no(),
            Having::Leaving(leaving) => leaving.no(),
        }
    }

    /// The server that gave it, and its number.
    pub fn named_to_peer(&self) -> (u8, PathNo)
        ensures { result ≡ named_to_peer (lease_of self.now) }
    {
        match self {
            Having::Held(held) => (held.from(), held.no()),
            Having::Leaving(leaving) => (leaving.from(), leaving.no()),
        }
    }

    /// Its file.
    pub fn file(&self) -> &FileId
        ensures { result.now ≡ (lease_of self.now).file }
    {
        match self {
            Having::Held(held) => held.file(),
            Having::Leaving(leaving) => leaving.file(),
        }
    }

    /// The files from the root down to its own.
    pub fn path(&self) -> &List<FileId>
        ensures { result.now ≡ (lease_of self.now).path }
    {
        match self {
            Having::Held(held) => held.path(),
            Having::Leaving(leaving) => leaving.path(),
        }
    }

    /// Whether it goes back, or is asked back.
    pub fn is_leaving(&self) -> bool
        ensures { result ≡ is_leaving self.now }
    {
        matches!(self, Having::Leaving(_))
    }

    /// Whether its path goes over a file below the prefix that is `me`'s.
    pub fn goes_into(&self, map: &FileMap, me: u8, prefix: &FileId) -> bool
        ensures { result ≡ goes_into map.now me prefix.now (lease_of self.now) }
    {
        goes_into(self.path().as_slice(), map, me, prefix)
    }

    /// It leaves, if it did not already.
    pub fn leave(self) -> Having
        ensures { result ≡ leaving self }
    {
        match self {
            Having::Held(held) => Having::Leaving(held.leave()),
            Having::Leaving(leaving) => Having::Leaving(leaving),
        }
    }

    /// Its server gets it back: spends it.
    pub fn released(self) {
        match self {
            Having::Held(held) => held.leave().released(),
            Having::Leaving(leaving) => leaving.released(),
        }
    }
}

impl Twin for Having {
    fn copy(&self, alloc: Global) -> Result<Having, Memory> {
        match self {
            Having::Held(held) => Ok(Having::Held(held.copy(alloc)?)),
            Having::Leaving(leaving) => Ok(Having::Leaving(leaving.copy(alloc)?)),
        }
    }

    fn discard(self) {
        match self {
            Having::Held(held) => held.discard(),
            Having::Leaving(leaving) => leaving.discard(),
        }
    }
}
