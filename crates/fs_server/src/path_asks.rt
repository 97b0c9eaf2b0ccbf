//! A path that another server asks for: it is given out, or denied.
ghost use Rattle.std.specs.Prelude.{◌≡◌, ◌++◌, ◌∷◌, [], Some, IfOk, IsErrOf, OnOk};
ghost use Rattle.fs_msg.specs.declared.core_error.Counter.{Counter as TheCounter};
ghost use Rattle.fs_msg.specs.declared.core_error.CoreError.TheVariants as errors;
ghost use Rattle.fs_msg.specs.declared.peer_msg.PeerMsg.TheVariants as peer;
ghost use Rattle.fs_msg.specs.declared.server_note.ServerNote.TheVariants as note;
ghost use Rattle.fs_path.specs.Numbers.{next_path};
ghost use Rattle.fs_server.specs.Decided.{CanDecide, denied, sent_only, stepped_by};
ghost use Rattle.fs_server.specs.Follows.{to_server};
ghost use Rattle.fs_server.specs.Grants.{IsReady};
ghost use Rattle.fs_server.specs.PathSteps.{answers_path, asks_above, asks_up, gives_path, has_child, path_ask_step, path_here};
ghost use Rattle.fs_server.specs.Step.{counter_over};

use crate::at_reading::AtReading;
use crate::change::Change;
use crate::decide::{Decided, only};
use crate::follows::to_server;
use crate::leads::moved_why;
use crate::out::ServerOut;
use crate::path_change::PathChange;
use fs_field::PathAnswer;
use fs_ident::{FileId, List, Memory, PathNo, Peer, Twin, add_copy, copy_two};
use fs_msg::{CoreError, Counter, Msg, PeerMsg, ServerNote};
use fs_path::next_path;
use fs_record::{Records, Why};
use std::alloc::Global;

/// Another server asks for the path of a file in that directory. `Spent` where the lease would have a number above u64::MAX.
pub(crate) fn path_ask(
    alloc: Global,
    at: &AtReading<'_>,
    from: u8,
    file: &FileId,
    dir: &FileId,
) -> Result<Decided, CoreError>
    requires { IsReady at.now }
    ensures step { IfOk result (λ d. stepped_by d at.now ≡
        path_ask_step from file.now dir.now at.now) }
    ensures can { IfOk result (λ d. CanDecide d at.now) }
    ensures spent { (counter : TheCounter) → IsErrOf result (errors.Spent counter) →
        counter_over (path_ask_step from file.now dir.now at.now).server ≡ Some counter }
{
    if !at.is_mine(dir) {
        let why = moved_why(alloc, at, dir)?;
        return Ok(denied(alloc, from, file, why)?);
    }
    if !has_child(at.records(), dir, file) {
        return Ok(denied(alloc, from, file, Why::NoChild)?);
    }
    match at.paths().frozen(file) {
        Some(txn) => {
            let why = Why::Frozen {
                file: file.copy(alloc)?,
                txn,
            };
            Ok(denied(alloc, from, file, why)?)
        }
        None => answer(alloc, at, from, file, dir),
    }
}

/// Whether the directory is here, and the file is one of its children.
fn has_child(records: &Records, dir: &FileId, file: &FileId) -> bool
    ensures { result ≡ has_child records.now dir.now file.now }
{
    match records.get(dir) {
        None => false,
        Some(record) => record
            .node
            .children
            .as_slice()
            .iter()
            .any(|child| child.1 == *file),
    }
}

/// No path is given out, and this is why.
fn denied(alloc: Global, from: u8, file: &FileId, why: Why) -> Result<Decided, Memory>
    ensures { IfOk result (λ d. d ≡ denied from file.now why) }
{
    let (file, told) = copy_two(alloc, file, &why)?;
    sent_only(
        alloc,
        ServerNote::PathDenies { why },
        from,
        PeerMsg::PathNo { file, why: told },
    )
}

/// Only this is noted and sent to that server.
pub(crate) fn sent_only(
    alloc: Global,
    note: ServerNote,
    to: u8,
    m: PeerMsg,
) -> Result<Decided, Memory>
    ensures { IfOk result (λ d. d ≡ sent_only note (to_server to m ∷ [])) }
{
    Ok(Decided {
        change: Change::Nothing,
        out: ServerOut {
            note,
            send: only(alloc, to_server(to, m))?,
            admitted: List::new(alloc),
        },
    })
}

/// By the path of the directory.
fn answer(
    alloc: Global,
    at: &AtReading<'_>,
    from: u8,
    file: &FileId,
    dir: &FileId,
) -> Result<Decided, CoreError>
    requires { IsReady at.now }
    ensures step { IfOk result (λ d. stepped_by d at.now ≡
        answers_path from file.now (path_here at.now dir.now) at.now) }
    ensures can { IfOk result (λ d. CanDecide d at.now) }
    ensures spent { (counter : TheCounter) → IsErrOf result (errors.Spent counter) →
        counter_over (answers_path from file.now (path_here at.now dir.now) at.now).server ≡
        Some counter }
{
    match at.paths().path_of(alloc, at.records(), dir)? {
        PathAnswer::Wanted { file: top, parent } => {
            Ok(ask_above(alloc, at, from, file, top, parent)?)
        }
        PathAnswer::Frozen { file: kept, txn } => {
            let why = Why::Frozen { file: kept, txn };
            Ok(denied(alloc, from, file, why)?)
        }
        PathAnswer::Path(above) => next_given(alloc, at, from, file, above),
    }
}

/// The path of the topmost file here is asked for farther up, behind the answer that it is wanted.
fn ask_above(
    alloc: Global,
    at: &AtReading<'_>,
    from: u8,
    file: &FileId,
    top: FileId,
    dir: FileId,
) -> Result<Decided, Memory>
    requires { IsReady at.now }
    ensures step { IfOk result (λ d. stepped_by d at.now ≡
        asks_above from file.now top dir at.now) }
    ensures can { IfOk result (λ d. CanDecide d at.now) }
{
    let out = told_wanted(alloc, at, from, file, &top, dir)?;
    Ok(Decided {
        change: Change::Paths {
            change: PathChange::Ask { file: top },
        },
        out,
    })
}

/// What is noted and sent then.
fn told_wanted(
    alloc: Global,
    at: &AtReading<'_>,
    from: u8,
    file: &FileId,
    top: &FileId,
    dir: FileId,
) -> Result<ServerOut, Memory>
    ensures { IfOk result (λ out. out ≡ (asks_above from file.now top.now dir at.now).out) }
{
    let note = ServerNote::PathDenies {
        why: Why::Wanted {
            file: top.copy(alloc)?,
        },
    };
    let (file, wanted) = copy_two(alloc, file, top)?;
    let no = PeerMsg::PathNo {
        file,
        why: Why::Wanted { file: wanted },
    };
    let mut send = only(alloc, to_server(from, no))?;
    ask_up(alloc, at, top, dir, &mut send)?;
    Ok(ServerOut {
        note,
        send,
        admitted: List::new(alloc),
    })
}

/// The server of the directory is asked for the path of the file, unless one was, or it is this server.
pub(crate) fn ask_up(
    alloc: Global,
    at: &AtReading<'_>,
    file: &FileId,
    dir: FileId,
    send: &mut List<(Peer, Msg)>,
) -> Result<(), Memory>
    ensures { OnOk result (send.new ≡ send.old ++ asks_up file.now dir at.now) }
{
    if at.is_asking(file) || at.is_mine(&dir) {
        return Ok(());
    }
    let (_, to) = at.map().owner(&dir);
    let ask = PeerMsg::PathAsk {
        file: file.copy(alloc)?,
        parent: dir,
    };
    send.push(to_server(to, ask))
}

/// The path of the file, below `above`, is given out with the next number.
fn next_given(
    alloc: Global,
    at: &AtReading<'_>,
    to: u8,
    file: &FileId,
    above: List<FileId>,
) -> Result<Decided, CoreError>
    requires { IsReady at.now }
    ensures step { IfOk result (λ d. stepped_by d at.now ≡ gives_path to file.now above at.now) }
    ensures can { IfOk result (λ d. CanDecide d at.now) }
    ensures spent { (counter : TheCounter) → IsErrOf result (errors.Spent counter) →
        counter_over (gives_path to file.now above at.now).server ≡ Some counter }
{
    match next_path(at.me(), at.paths_given()) {
        Some(no) => Ok(give(alloc, at, to, file, above, no)?),
        None => Err(CoreError::Spent {
            counter: Counter::Paths,
        }),
    }
}

/// It is given out with that number.
fn give(
    alloc: Global,
    at: &AtReading<'_>,
    to: u8,
    file: &FileId,
    above: List<FileId>,
    no: PathNo,
) -> Result<Decided, Memory>
    requires ready { IsReady at.now }
    requires next { next_path at.now.me at.now.paths_given ≡ Some no }
    ensures step { IfOk result (λ d. stepped_by d at.now ≡ gives_path to file.now above at.now) }
    ensures can { IfOk result (λ d. CanDecide d at.now) }
{
    let out = told_path(alloc, to, file, &above, no)?;
    let file = file.copy(alloc)?;
    Ok(Decided {
        change: Change::Paths {
            change: PathChange::Give { to, file, above },
        },
        out,
    })
}

/// The other server is told the path and its number.
fn told_path(
    alloc: Global,
    to: u8,
    file: &FileId,
    above: &List<FileId>,
    no: PathNo,
) -> Result<ServerOut, Memory>
    ensures { IfOk result (λ out. out ≡ record {
      note = note.PathGrants no;
      send = to_server to (peer.PathGrant no file.now (above.now ++ file.now ∷ [])) ∷ [];
      admitted = [];
    }) }
{
    let (file, path) = file_on_path(alloc, file, above)?;
    let grant = PeerMsg::PathGrant { no, file, path };
    Ok(ServerOut {
        note: ServerNote::PathGrants { no },
        send: only(alloc, to_server(to, grant))?,
        admitted: List::new(alloc),
    })
}

/// Copies of the file and of its path.
fn file_on_path(
    alloc: Global,
    file: &FileId,
    above: &List<FileId>,
) -> Result<(FileId, List<FileId>), Memory>
    ensures { IfOk result (λ copies. copies ≡ (file.now, above.now ++ file.now ∷ [])) }
{
    let (own, mut path) = copy_two(alloc, file, above)?;
    add_copy(alloc, &mut path, file)?;
    Ok((own, path))
}
