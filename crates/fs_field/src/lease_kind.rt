//! How a lease is shared.
use fs_ident::{Memory, Twin};
use std::alloc::Global;

/// Whether others may hold a lease on the field too.
#[derive(Clone, Copy, Debug, PartialEq, Eq, PartialOrd, Ord)]
pub enum LeaseKind {
    Shared,
    Exclusive,
}

impl Twin for LeaseKind {
    fn copy(&self, _: Global) -> Result<LeaseKind, Memory> {
        Ok(*self)
    }

    fn discard(self) {}
}
