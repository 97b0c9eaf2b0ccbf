//! A path that another server gives out, or denies.
ghost use Rattle.std.specs.Prelude.{◌≡◌, true, false, IfOk};
ghost use Rattle.std.specs.Option.{option_copied};
ghost use Rattle.fs_server.specs.Decided.{CanDecide, stepped_by};
ghost use Rattle.fs_server.specs.Grants.{IsReady};
ghost use Rattle.fs_server.specs.PathSteps.{dir_here, fails_path, is_same_dir, keeps_path, last_dir, moved_path, path_grant_step, path_no_step, seeks_path, without_asking};

use crate::at_reading::AtReading;
use crate::change::Change;
use crate::decide::{Decided, only, strange};
use crate::follows::to_server;
use crate::out::ServerOut;
use crate::path_asks::sent_only;
use crate::path_change::PathChange;
use fs_ident::{FileId, List, Memory, PathNo, Peer, Twin, copy_two};
use fs_msg::{Msg, PeerMsg, ServerNote};
use fs_record::{Records, Why};
use std::alloc::Global;

/// Another server gives the path of a file; none gives a lease twice.
pub(crate) fn path_grant(
    alloc: Global,
    at: &AtReading<'_>,
    from: u8,
    no: PathNo,
    file: &FileId,
    path: &List<FileId>,
) -> Result<Decided, Memory>
    requires { IsReady at.now }
    ensures step { IfOk result (λ d. stepped_by d at.now ≡
        path_grant_step from no file.now path.now at.now) }
    ensures can { IfOk result (λ d. CanDecide d at.now) }
{
    if at.paths().holds(no) {
        return Ok(strange(alloc));
    }
    if is_same_dir(dir_here(at.records(), file), last_dir(path.as_slice())) {
        keep(alloc, at, from, no, file, path)
    } else {
        drop_back(alloc, at, from, no, file, path)
    }
}

/// The directory that the file's record names.
fn dir_here<'a>(records: &'a Records, file: &FileId) -> Option<&'a FileId>
    ensures { option_copied result ≡ dir_here records.now file.now }
{
    match records.get(file) {
        None => None,
        Some(record) => match &record.node.parent {
            None => None,
            Some((dir, _)) => Some(dir),
        },
    }
}

/// The last directory on the path: the one above its file.
fn last_dir(path: &[FileId]) -> Option<&FileId>
    ensures { option_copied result ≡ last_dir path.now }
{
    match path {
        [.., dir, _] => Some(dir),
        _ => None,
    }
}

/// Whether both are the same directory.
fn is_same_dir(one: Option<&FileId>, other: Option<&FileId>) -> bool
    ensures { result ≡ is_same_dir (option_copied one.entry) (option_copied other.entry) }
{
    match (one, other) {
        (Some(one), Some(other)) => one == other,
        _ => false,
    }
}

/// The path is kept.
fn keep(
    alloc: Global,
    at: &AtReading<'_>,
    from: u8,
    no: PathNo,
    file: &FileId,
    path: &List<FileId>,
) -> Result<Decided, Memory>
    requires { IsReady at.now }
    ensures step { IfOk result (λ d. stepped_by d at.now ≡
        keeps_path true from no file.now path.now (without_asking file.now at.now)) }
    ensures can { IfOk result (λ d. CanDecide d at.now) }
{
    let (file, path) = copy_two(alloc, file, path)?;
    Ok(Decided {
        change: Change::Paths {
            change: PathChange::Keep {
                from,
                no,
                file,
                path,
            },
        },
        out: ServerOut {
            note: ServerNote::PathHolds { no },
            send: List::new(alloc),
            admitted: List::new(alloc),
        },
    })
}

/// The path goes back at once.
fn drop_back(
    alloc: Global,
    at: &AtReading<'_>,
    from: u8,
    no: PathNo,
    file: &FileId,
    path: &List<FileId>,
) -> Result<Decided, Memory>
    requires { IsReady at.now }
    ensures step { IfOk result (λ d. stepped_by d at.now ≡
        keeps_path false from no file.now path.now (without_asking file.now at.now)) }
    ensures can { IfOk result (λ d. CanDecide d at.now) }
{
    let file = file.copy(alloc)?;
    Ok(Decided {
        change: Change::Paths {
            change: PathChange::Stop { file },
        },
        out: ServerOut {
            note: ServerNote::PathDrops { no },
            send: only(alloc, to_server(from, PeerMsg::PathRelease { no }))?,
            admitted: List::new(alloc),
        },
    })
}

/// Another server gives no path of the file.
pub(crate) fn path_no(
    alloc: Global,
    at: &AtReading<'_>,
    file: &FileId,
    why: &Why,
) -> Result<Decided, Memory>
    requires { IsReady at.now }
    ensures step { IfOk result (λ d. stepped_by d at.now ≡
        path_no_step file.now why.now at.now) }
    ensures can { IfOk result (λ d. CanDecide d at.now) }
{
    if let Why::Moved { to, .. } = why {
        moved(alloc, at, file, why, *to)
    } else {
        fail(alloc, at, file, why)
    }
}

/// The directory is at that server.
fn moved(
    alloc: Global,
    at: &AtReading<'_>,
    file: &FileId,
    why: &Why,
    to: u8,
) -> Result<Decided, Memory>
    requires { IsReady at.now }
    ensures step { IfOk result (λ d. stepped_by d at.now ≡
        moved_path file.now why.now to (dir_here at.now.records file.now) at.now) }
    ensures can { IfOk result (λ d. CanDecide d at.now) }
{
    match dir_here(at.records(), file) {
        Some(dir) => seek(alloc, at, file, why, to, dir),
        None => fail(alloc, at, file, why),
    }
}

/// That server is asked, unless it is this one.
fn seek(
    alloc: Global,
    at: &AtReading<'_>,
    file: &FileId,
    why: &Why,
    to: u8,
    dir: &FileId,
) -> Result<Decided, Memory>
    requires { IsReady at.now }
    ensures step { IfOk result (λ d. stepped_by d at.now ≡
        seeks_path file.now why.now to dir.now at.now) }
    ensures can { IfOk result (λ d. CanDecide d at.now) }
{
    if to == at.me() {
        return fail(alloc, at, file, why);
    }
    let (asked, parent) = copy_two(alloc, file, dir)?;
    let note = ServerNote::PathSeeks {
        file: file.copy(alloc)?,
        to,
    };
    let ask = PeerMsg::PathAsk {
        file: asked,
        parent,
    };
    sent_only(alloc, note, to, ask)
}

/// What was asked for the path of the file is over.
fn fail(alloc: Global, at: &AtReading<'_>, file: &FileId, why: &Why) -> Result<Decided, Memory>
    requires { IsReady at.now }
    ensures step { IfOk result (λ d. stepped_by d at.now ≡ fails_path file.now why.now at.now) }
    ensures can { IfOk result (λ d. CanDecide d at.now) }
{
    let (file, why) = copy_two(alloc, file, why)?;
    Ok(Decided {
        change: Change::Paths {
            change: PathChange::Stop { file },
        },
        out: ServerOut {
            note: ServerNote::PathFails { why },
            send: List::new(alloc),
            admitted: List::new(alloc),
        },
    })
}
