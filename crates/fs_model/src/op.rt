//! What is asked of the namespace.
ghost use Rattle.std.specs.Prelude.{◌≡◌};

use fs_ident::{FileId, Kind, Memory, Name, Session, Twin, copy_three, copy_two, zip_ok};
use fs_modes::Modes;
use std::alloc::Global;

/// One operation.
#[derive(Debug, Drop)]
pub enum Op {
    Lookup {
        dir: FileId,
        name: Name,
    },
    List {
        dir: FileId,
    },
    Kind {
        file: FileId,
    },
    Info {
        file: FileId,
    },
    /// The identifier is the new node's.
    Create {
        dir: FileId,
        name: Name,
        kind: Kind,
        id: Option<FileId>,
    },
    OpenFile {
        file: FileId,
        h: u32,
        modes: Modes,
    },
    Close {
        file: FileId,
        h: u32,
    },
    Set {
        file: FileId,
        h: u32,
        size: u64,
        stamp: u64,
    },
    Delete {
        dir: FileId,
        name: Name,
    },
    Rename {
        sdir: FileId,
        sname: Name,
        ddir: FileId,
        dname: Name,
    },
    /// Takes away every handle of the session on the file.
    Reap {
        file: FileId,
        session: Session,
    },
}

impl Op {
    ghost use Rattle.fs_model.specs.Asking.{home_of, may_ask};

    /// Whether a caller may ask for it: no reap, no create that names its identifier, no open without an access.
    pub fn may_be_asked(&self) -> bool
        ensures { result ≡ may_ask self.now }
    {
        match self {
            Op::Create { id, .. } => id.is_none(),
            Op::OpenFile { modes, .. } => modes.has_access(),
            Op::Reap { .. } => false,
            _ => true,
        }
    }

    /// The file that it is on; of an operation on a name the directory, of a rename the one to which the file goes.
    pub fn home(&self) -> &FileId
        ensures { result.now ≡ home_of self.now }
    {
        match self {
            Op::Lookup { dir, .. }
            | Op::List { dir }
            | Op::Create { dir, .. }
            | Op::Delete { dir, .. }
            | Op::Rename { ddir: dir, .. } => dir,
            Op::Kind { file }
            | Op::Info { file }
            | Op::OpenFile { file, .. }
            | Op::Close { file, .. }
            | Op::Set { file, .. }
            | Op::Reap { file, .. } => file,
        }
    }
}

impl Twin for Op {
    fn copy(&self, alloc: Global) -> Result<Op, Memory> {
        let file = self.home().copy(alloc)?;
        match self {
            Op::Lookup { name, .. } => {
                let (dir, name) = zip_ok(file, name.copy(alloc))?;
                Ok(Op::Lookup { dir, name })
            }
            Op::List { .. } => Ok(Op::List { dir: file }),
            Op::Kind { .. } => Ok(Op::Kind { file }),
            Op::Info { .. } => Ok(Op::Info { file }),
            Op::Create { name, kind, id, .. } => {
                let (dir, (name, id)) = zip_ok(file, copy_two(alloc, name, id))?;
                Ok(Op::Create {
                    dir,
                    name,
                    kind: *kind,
                    id,
                })
            }
            Op::OpenFile { h, modes, .. } => Ok(Op::OpenFile {
                file,
                h: *h,
                modes: *modes,
            }),
            Op::Close { h, .. } => Ok(Op::Close { file, h: *h }),
            Op::Set { h, size, stamp, .. } => Ok(Op::Set {
                file,
                h: *h,
                size: *size,
                stamp: *stamp,
            }),
            Op::Delete { name, .. } => {
                let (dir, name) = zip_ok(file, name.copy(alloc))?;
                Ok(Op::Delete { dir, name })
            }
            Op::Rename {
                sdir,
                sname,
                dname,
                ..
            } => {
                let (ddir, (sdir, sname, dname)) = zip_ok(
                    file,
                    copy_three(alloc, sdir, sname, dname),
                )?;
                Ok(Op::Rename {
                    sdir,
                    sname,
                    ddir,
                    dname,
                })
            }
            Op::Reap { session, .. } => Ok(Op::Reap {
                file,
                session: *session,
            }),
        }
    }

    fn discard(self) {
        drop(self);
    }
}
