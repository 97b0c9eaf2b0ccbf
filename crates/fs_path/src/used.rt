//! A path lease while a path is taken from it.
ghost use Rattle.std.specs.Prelude.{◌≡◌};

use crate::held::Held;
use fs_ident::{FileId, List};

/// A path lease that is used now. Only one that does not leave can be.
#[derive(Drop)]
pub struct Used<'a> {
    pub(crate) lease: &'a Held,
}

impl<'a> Used<'a> {
    /// The files from the root down to its own.
    pub fn path(&self) -> &List<FileId>
        ensures { result.now ≡ self.now.lease.now.path }
    {
        self.lease.path()
    }
}
