//! What the namespace answers.
use fs_ident::{FileId, List, Memory, Name, Twin};
use std::alloc::Global;

/// The reply to an operation.
#[derive(Debug, Drop)]
pub enum Reply {
    /// The file, or the directory, is not there.
    Gone,
    /// The directory is a file.
    NotDir,
    /// The destination's directory is not there.
    GoneTo,
    /// The destination's directory is a file.
    NotDirTo,
    /// The directory has no such name.
    NoName,
    Found(FileId),
    /// The names of a directory, in order.
    Names(List<Name>),
    IsFile,
    IsDir,
    Info { size: u64, stamp: u64 },
    /// The name is there already.
    Exists,
    /// The identifier is none that the new node can have.
    BadId,
    Made,
    /// The session has a handle of this number on the file.
    HandleUsed,
    /// An open of the file conflicts.
    Sharing,
    Opened,
    /// The session has no handle of this number on the file.
    NoHandle,
    Closed,
    /// The handle may not write.
    NoAccess,
    Set,
    /// The directory has children.
    NotEmpty,
    /// The file has handles.
    InUse,
    Deleted,
    /// The moved directory would be below itself.
    Cycle,
    Renamed,
    Reaped,
}

impl Twin for Reply {
    fn copy(&self, alloc: Global) -> Result<Reply, Memory> {
        match self {
            Reply::Gone => Ok(Reply::Gone),
            Reply::NotDir => Ok(Reply::NotDir),
            Reply::GoneTo => Ok(Reply::GoneTo),
            Reply::NotDirTo => Ok(Reply::NotDirTo),
            Reply::NoName => Ok(Reply::NoName),
            Reply::Found(id) => Ok(Reply::Found(id.copy(alloc)?)),
            Reply::Names(names) => Ok(Reply::Names(names.copy(alloc)?)),
            Reply::IsFile => Ok(Reply::IsFile),
            Reply::IsDir => Ok(Reply::IsDir),
            Reply::Info { size, stamp } => Ok(Reply::Info {
                size: *size,
                stamp: *stamp,
            }),
            Reply::Exists => Ok(Reply::Exists),
            Reply::BadId => Ok(Reply::BadId),
            Reply::Made => Ok(Reply::Made),
            Reply::HandleUsed => Ok(Reply::HandleUsed),
            Reply::Sharing => Ok(Reply::Sharing),
            Reply::Opened => Ok(Reply::Opened),
            Reply::NoHandle => Ok(Reply::NoHandle),
            Reply::Closed => Ok(Reply::Closed),
            Reply::NoAccess => Ok(Reply::NoAccess),
            Reply::Set => Ok(Reply::Set),
            Reply::NotEmpty => Ok(Reply::NotEmpty),
            Reply::InUse => Ok(Reply::InUse),
            Reply::Deleted => Ok(Reply::Deleted),
            Reply::Cycle => Ok(Reply::Cycle),
            Reply::Renamed => Ok(Reply::Renamed),
            Reply::Reaped => Ok(Reply::Reaped),
        }
    }

    fn discard(self) {}
}
