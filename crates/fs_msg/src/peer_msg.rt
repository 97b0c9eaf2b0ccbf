//! What servers send to each other.
use crate::decide::Decide;
use crate::done::Done;
use crate::prepare::Prepare;
use crate::voted::Voted;
use fs_ident::{FileId, List, Memory, PathNo, Twin, copy_two};
use fs_record::{Parcel, Why};
use std::alloc::Global;

/// What one server sends to another.
#[derive(Debug, Drop)]
pub enum PeerMsg {
    /// Asks whether a part of a led operation is ready.
    Prepare {
        prepare: Prepare,
    },
    /// Whether the part is ready.
    Vote {
        voted: Voted,
    },
    /// What the part does in the end.
    Decide {
        decide: Decide,
    },
    /// The part did it.
    Done {
        done: Done,
    },
    /// Hands over what was managed below a prefix.
    Parcel {
        parcel: Parcel,
    },
    /// Asks for the path of a file, of the server of its parent.
    PathAsk {
        file: FileId,
        parent: FileId,
    },
    /// Gives the path of a file, from the root down to it.
    PathGrant {
        no: PathNo,
        file: FileId,
        path: List<FileId>,
    },
    /// Why the path of a file is not given.
    PathNo {
        file: FileId,
        why: Why,
    },
    /// Asks a path back.
    PathRecall {
        no: PathNo,
    },
    /// Gives a path back.
    PathRelease {
        no: PathNo,
    },
}

impl Twin for PeerMsg {
    fn copy(&self, alloc: Global) -> Result<PeerMsg, Memory> {
        match self {
            PeerMsg::Prepare { prepare } => Ok(PeerMsg::Prepare {
                prepare: prepare.copy(alloc)?,
            }),
            PeerMsg::Vote { voted } => Ok(PeerMsg::Vote {
                voted: voted.copy(alloc)?,
            }),
            PeerMsg::Decide { decide } => Ok(PeerMsg::Decide {
                decide: decide.copy(alloc)?,
            }),
            PeerMsg::Done { done } => Ok(PeerMsg::Done {
                done: done.copy(alloc)?,
            }),
            PeerMsg::Parcel { parcel } => Ok(PeerMsg::Parcel {
                parcel: parcel.copy(alloc)?,
            }),
            PeerMsg::PathAsk { file, parent } => {
                let (file, parent) = copy_two(alloc, file, parent)?;
                Ok(PeerMsg::PathAsk { file, parent })
            }
            PeerMsg::PathGrant { no, file, path } => {
                let (file, path) = copy_two(alloc, file, path)?;
                Ok(PeerMsg::PathGrant {
                    no: *no,
                    file,
                    path,
                })
            }
            PeerMsg::PathNo { file, why } => {
                let (file, why) = copy_two(alloc, file, why)?;
                Ok(PeerMsg::PathNo { file, why })
            }
            PeerMsg::PathRecall { no } => Ok(PeerMsg::PathRecall { no: *no }),
            PeerMsg::PathRelease { no } => Ok(PeerMsg::PathRelease { no: *no }),
        }
    }

    fn discard(self) {
        drop(self);
    }
}
