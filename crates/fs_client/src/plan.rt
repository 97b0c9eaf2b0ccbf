//! What an event comes to, before anything is changed.
ghost use Rattle.std.specs.Prelude.{◌≡◌};

use crate::change::Change;
use fs_ident::{Memory, Twin, copy_two};
use fs_map::FileMap;
use fs_msg::ClientOut;
use std::alloc::Global;

/// What an event changes, at which reading, and who manages what then, where a server said so.
#[derive(Debug, Drop)]
pub struct Ready {
    pub(crate) now: u64,
    pub(crate) change: Change,
    pub(crate) hints: Option<FileMap>,
}

/// What an event comes to: what is noted, sent and admitted, and what it changes.
#[derive(Debug, Drop)]
pub struct Plan<N: Drop> {
    pub ready: Ready,
    pub out: ClientOut<N>,
}

impl Twin for Ready {
    fn copy(&self, alloc: Global) -> Result<Ready, Memory> {
        let (change, hints) = copy_two(alloc, &self.change, &self.hints)?;
        Ok(Ready {
            now: self.now,
            change,
            hints,
        })
    }

    fn discard(self) {
        drop(self);
    }
}

impl<N: Twin + Drop> Twin for Plan<N> {
    fn copy(&self, alloc: Global) -> Result<Plan<N>, Memory> {
        let (ready, out) = copy_two(alloc, &self.ready, &self.out)?;
        Ok(Plan { ready, out })
    }

    fn discard(self) {
        drop(self);
    }
}
