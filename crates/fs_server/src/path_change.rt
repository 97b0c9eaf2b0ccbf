//! What becomes of path leases.
use fs_ident::{FileId, List, Memory, PathNo, Twin, copy_two};
use std::alloc::Global;

/// What an event changes of path leases, and of what was asked for.
#[derive(Drop)]
pub(crate) enum PathChange {
    /// The path of the file is asked for.
    Ask {
        file: FileId,
    },
    /// No answer to what was asked for the path of the file is awaited any more.
    Stop {
        file: FileId,
    },
    /// The path of the file, of which that of its directory is `above`, is given out to that server, with the next number.
    Give {
        to: u8,
        file: FileId,
        above: List<FileId>,
    },
    /// The path of the file comes from that server.
    Keep {
        from: u8,
        no: PathNo,
        file: FileId,
        path: List<FileId>,
    },
    /// The lease from another server goes, or is leaving.
    Recall {
        no: PathNo,
    },
    /// The lease that was given out is back.
    Back {
        no: PathNo,
    },
    /// The leases from other servers over what is its own below the prefix go, or are leaving.
    AskBack {
        prefix: FileId,
    },
}

impl Twin for PathChange {
    fn copy(&self, alloc: Global) -> Result<PathChange, Memory> {
        match self {
            PathChange::Ask { file } => Ok(PathChange::Ask {
                file: file.copy(alloc)?,
            }),
            PathChange::Stop { file } => Ok(PathChange::Stop {
                file: file.copy(alloc)?,
            }),
            PathChange::Give { to, file, above } => {
                let (file, above) = copy_two(alloc, file, above)?;
                Ok(PathChange::Give {
                    to: *to,
                    file,
                    above,
                })
            }
            PathChange::Keep {
                from,
                no,
                file,
                path,
            } => {
                let (file, path) = copy_two(alloc, file, path)?;
                Ok(PathChange::Keep {
                    from: *from,
                    no: *no,
                    file,
                    path,
                })
            }
            PathChange::Recall { no } => Ok(PathChange::Recall { no: *no }),
            PathChange::Back { no } => Ok(PathChange::Back { no: *no }),
            PathChange::AskBack { prefix } => Ok(PathChange::AskBack {
                prefix: prefix.copy(alloc)?,
            }),
        }
    }

    fn discard(self) {
        drop(self);
    }
}
