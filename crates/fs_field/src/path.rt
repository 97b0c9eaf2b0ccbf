//! What a walk from a file to the root finds.
use fs_ident::{FileId, List, Memory, Twin, TxnNo};
use std::alloc::Global;

/// The path of a file, or why there is none.
#[derive(Debug, Drop)]
pub enum PathAnswer {
    /// The files from the root down to it.
    Path(List<FileId>),
    /// The path of this file, which stands in that directory, has to be asked for.
    Wanted { file: FileId, parent: FileId },
    /// The transaction keeps this file where it is.
    Frozen { file: FileId, txn: TxnNo },
}

impl Twin for PathAnswer {
    fn copy(&self, alloc: Global) -> Result<PathAnswer, Memory> {
        match self {
            PathAnswer::Path(files) => Ok(PathAnswer::Path(files.copy(alloc)?)),
            PathAnswer::Wanted { file, parent } => Ok(PathAnswer::Wanted {
                file: file.copy(alloc)?,
                parent: parent.copy(alloc)?,
            }),
            PathAnswer::Frozen { file, txn } => Ok(PathAnswer::Frozen {
                file: file.copy(alloc)?,
                txn: *txn,
            }),
        }
    }

    fn discard(self) {}
}
