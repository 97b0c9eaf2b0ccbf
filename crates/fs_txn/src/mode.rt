//! How a transaction deals with the path of the destination.
use fs_ident::{Memory, Twin};
use std::alloc::Global;

/// What a led operation has to do with paths.
#[derive(Clone, Copy, Debug, PartialEq, Eq)]
pub enum Mode2 {
    /// Nothing: no directory changes its place among directories.
    Plain,
    /// A directory moves or goes, and no path may be given out over it meanwhile.
    Freeze,
    /// The directory that would move is on the path of its destination, and nothing moves if it still is.
    Check,
}

impl Twin for Mode2 {
    fn copy(&self, _: Global) -> Result<Mode2, Memory> {
        Ok(*self)
    }

    fn discard(self) {}
}
