//! A lease of a view, as others see it.
use fs_ident::{FileId, LeaseNo, Memory, Twin};
use std::alloc::Global;

/// A lease of a view, as others see it.
#[derive(Debug, Drop)]
pub struct Seen {
    pub no: LeaseNo,
    pub file: FileId,
    /// The reading from which on it is not used; none where it goes back.
    pub until: Option<u64>,
    /// How many entries use it.
    pub entries: u64,
    /// Its server asked for it.
    pub recalled: bool,
}

impl Twin for Seen {
    fn copy(&self, alloc: Global) -> Result<Seen, Memory> {
        Ok(Seen {
            no: self.no,
            file: self.file.copy(alloc)?,
            until: self.until,
            entries: self.entries,
            recalled: self.recalled,
        })
    }

    fn discard(self) {}
}
