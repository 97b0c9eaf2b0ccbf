//! What an admitted operation does to fields.
ghost use Rattle.std.specs.Prelude.{◌≡◌};

use fs_ident::{FileId, Kind, Memory, Name, Session, Twin, copy_two, zip_ok};
use fs_modes::Modes;
use std::alloc::Global;

/// One change of the namespace.
#[derive(Debug, Drop)]
pub enum Effect {
    /// The name in the directory stands for this file, or for none.
    SetChild {
        dir: FileId,
        name: Name,
        to: Option<FileId>,
    },
    /// The file stands in this directory under this name.
    SetParent {
        file: FileId,
        dir: FileId,
        name: Name,
    },
    /// The file begins to live, empty.
    NewNode {
        file: FileId,
        kind: Kind,
        dir: FileId,
        name: Name,
    },
    /// The file lives no longer.
    RemoveNode {
        file: FileId,
    },
    /// The session has the file open under this handle.
    AddHandle {
        file: FileId,
        session: Session,
        h: u32,
        modes: Modes,
    },
    /// The session has nothing under this handle on the file.
    RemoveHandle {
        file: FileId,
        session: Session,
        h: u32,
    },
    /// The file has this size and stamp.
    SetInfo {
        file: FileId,
        size: u64,
        stamp: u64,
    },
}

impl Effect {
    ghost use Rattle.fs_field.specs.After.{changed_file};

    /// The file that it changes, and for a name its directory.
    pub fn changed_file(&self) -> &FileId
        ensures { result.now ≡ changed_file self.now }
    {
        match self {
            Effect::SetChild { dir, .. } => dir,
            Effect::SetParent { file, .. }
            | Effect::NewNode { file, .. }
            | Effect::RemoveNode { file }
            | Effect::AddHandle { file, .. }
            | Effect::RemoveHandle { file, .. }
            | Effect::SetInfo { file, .. } => file,
        }
    }
}

impl Twin for Effect {
    fn copy(&self, alloc: Global) -> Result<Effect, Memory> {
        let file = self.changed_file().copy(alloc)?;
        match self {
            Effect::SetChild { name, to, .. } => {
                let (dir, (name, to)) = zip_ok(file, copy_two(alloc, name, to))?;
                Ok(Effect::SetChild { dir, name, to })
            }
            Effect::SetParent { dir, name, .. } => {
                let (file, (dir, name)) = zip_ok(file, copy_two(alloc, dir, name))?;
                Ok(Effect::SetParent { file, dir, name })
            }
            Effect::NewNode {
                kind,
                dir,
                name,
                ..
            } => {
                let (file, (dir, name)) = zip_ok(file, copy_two(alloc, dir, name))?;
                Ok(Effect::NewNode {
                    file,
                    kind: *kind,
                    dir,
                    name,
                })
            }
            Effect::RemoveNode { .. } => Ok(Effect::RemoveNode { file }),
            Effect::AddHandle {
                session,
                h,
                modes,
                ..
            } => Ok(Effect::AddHandle {
                file,
                session: *session,
                h: *h,
                modes: *modes,
            }),
            Effect::RemoveHandle { session, h, .. } => Ok(Effect::RemoveHandle {
                file,
                session: *session,
                h: *h,
            }),
            Effect::SetInfo { size, stamp, .. } => Ok(Effect::SetInfo {
                file,
                size: *size,
                stamp: *stamp,
            }),
        }
    }

    fn discard(self) {
        drop(self);
    }
}
