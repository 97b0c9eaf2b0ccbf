//! What an event comes to, before anything is changed.
ghost use Rattle.std.specs.Prelude.{◌≡◌};

use crate::change::Change;
use crate::out::ServerOut;
use fs_ident::{Memory, Twin, copy_two};
use std::alloc::Global;

/// What an event comes to: its answer, and what is still to be changed.
#[derive(Drop)]
pub struct Plan {
    now: u64,
    change: Change,
    pub out: ServerOut,
}

impl Plan {
    pub(crate) fn new(now: u64, change: Change, out: ServerOut) -> Plan
        ensures { result ≡ record { now = now; change = change; out = out } }
    {
        Plan { now, change, out }
    }

    /// The reading, what is to be changed, and the answer.
    pub(crate) fn into_parts(self) -> (u64, Change, ServerOut)
        ensures { result ≡ (self.now, self.change, self.out) }
    {
        (self.now, self.change, self.out)
    }
}

impl Twin for Plan {
    fn copy(&self, alloc: Global) -> Result<Plan, Memory> {
        let (change, out) = copy_two(alloc, &self.change, &self.out)?;
        Ok(Plan {
            now: self.now,
            change,
            out,
        })
    }

    fn discard(self) {
        drop(self);
    }
}
