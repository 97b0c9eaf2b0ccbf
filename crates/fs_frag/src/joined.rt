//! What comes of segments.
use fs_ident::{List, Memory, Twin};
use std::alloc::Global;

/// What some segments complete.
#[derive(Debug, Drop)]
pub enum Joined {
    /// The bytes of a message.
    Whole(List<u8>),
    /// Since the last message there are more bytes than the message announces; the joiner began anew.
    Over,
}

impl Twin for Joined {
    fn copy(&self, alloc: Global) -> Result<Joined, Memory> {
        match self {
            Joined::Whole(message) => Ok(Joined::Whole(message.copy(alloc)?)),
            Joined::Over => Ok(Joined::Over),
        }
    }

    fn discard(self) {}
}

/// What a joiner that took segments needs to hold again what it held before.
#[derive(Debug, Drop)]
pub enum Back {
    /// It took none.
    Same,
    /// Its first bytes, so many.
    Front(usize),
    /// These bytes.
    All(List<u8>),
}
