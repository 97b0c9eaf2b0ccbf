//! What a lease is on.
ghost use Rattle.std.specs.Prelude.{◌≡◌, ◌↔◌, IsTrue};
ghost use Rattle.fs_field.specs.Field.{same_field, file_of, tells_no_mode};

use fs_ident::{FileId, Memory, Name, Twin, zip_ok};
use fs_modes::Mode;
use std::alloc::Global;

/// One fact of a file that can be leased by itself.
#[derive(Debug, Drop, PartialEq, Eq, PartialOrd, Ord)]
pub enum Field {
    /// Whether the file lives, and of what kind it is.
    Life(FileId),
    /// What a directory has under one name.
    Child(FileId, Name),
    /// All names of a directory.
    Names(FileId),
    /// Size and stamp.
    Info(FileId),
    /// The handles of one session on the file.
    Own(FileId),
    /// Whether one session has the mode on the file; only that session tells it.
    SelfW(FileId, Mode),
    /// Whether any other session has the mode on the file.
    Other(FileId, Mode),
}

impl Field {
    /// The file of the field.
    pub fn file(&self) -> &FileId
        ensures { result.now ≡ file_of self.now }
    {
        match self {
            Field::Life(file) | Field::Names(file) | Field::Info(file) | Field::Own(file) => file,
            Field::Child(file, _) => file,
            Field::SelfW(file, _) | Field::Other(file, _) => file,
        }
    }

    /// The file of the field, which takes the field apart.
    pub fn into_file(self) -> FileId
        ensures { result ≡ file_of self }
    {
        match self {
            Field::Life(file) | Field::Names(file) | Field::Info(file) | Field::Own(file) => file,
            Field::Child(file, _) => file,
            Field::SelfW(file, _) | Field::Other(file, _) => file,
        }
    }

    /// Whether it is no part of what sessions tell of modes.
    pub fn tells_no_mode(&self) -> bool
        ensures { result ≡ tells_no_mode self.now }
    {
        !matches!(self, Field::SelfW(_, _) | Field::Other(_, _))
    }

    /// Whether two fields are one.
    pub fn is(&self, other: &Field) -> bool
        ensures same { result ≡ same_field self.now other.now }
        ensures equal { IsTrue result ↔ (self.now ≡ other.now) }
    {
        self == other
    }
}

impl Twin for Field {
    fn copy(&self, alloc: Global) -> Result<Field, Memory> {
        let file = self.file().copy(alloc)?;
        match self {
            Field::Life(_) => Ok(Field::Life(file)),
            Field::Child(_, name) => {
                let (dir, name) = zip_ok(file, name.copy(alloc))?;
                Ok(Field::Child(dir, name))
            }
            Field::Names(_) => Ok(Field::Names(file)),
            Field::Info(_) => Ok(Field::Info(file)),
            Field::Own(_) => Ok(Field::Own(file)),
            Field::SelfW(_, mode) => Ok(Field::SelfW(file, *mode)),
            Field::Other(_, mode) => Ok(Field::Other(file, *mode)),
        }
    }

    fn discard(self) {}
}
