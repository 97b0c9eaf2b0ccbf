//! A delete or a rename that the server leads.
ghost use Rattle.std.specs.Prelude.{◌≡◌, [], ◌∷◌, Some, IfOk, IsErrOf};
ghost use Rattle.fs_map.specs.Map.{longest};
ghost use Rattle.fs_msg.specs.declared.answer.Answer.TheVariants as answer;
ghost use Rattle.fs_msg.specs.declared.core_error.Counter.{Counter as TheCounter};
ghost use Rattle.fs_msg.specs.declared.core_error.CoreError.TheVariants as errors;
ghost use Rattle.fs_msg.specs.declared.server_note.ServerNote.TheVariants as note;
ghost use Rattle.fs_record.specs.declared.led_end.LedEnd.TheVariants as led;
ghost use Rattle.fs_server.specs.Decided.{CanDecide, stepped_by};
ghost use Rattle.fs_server.specs.Leads.{is_led, lead_refusal, lead_step, leads_here, leads_over, mode_of, mode_over, moved_why, refuses, stands_on_path, takes_path, wants_path};
ghost use Rattle.fs_server.specs.Grants.{IsReady};
ghost use Rattle.fs_server.specs.Server.{to_session};
ghost use Rattle.fs_server.specs.Step.{counter_over};
ghost use Rattle.fs_server.specs.declared.change.Change.TheVariants as change;
ghost use Rattle.fs_server.specs.declared.state.Server.{Server as TheServer};

use crate::at_reading::AtReading;
use crate::begins::begin;
use crate::change::Change;
use crate::decide::{Decided, only, strange, to_session};
use crate::out::ServerOut;
use crate::path_asks::ask_up;
use crate::path_change::PathChange;
use crate::path_changes::is_among;
use fs_field::PathAnswer;
use fs_ident::{FileId, Kind, List, Memory, Peer, Session, Twin};
use fs_model::Op;
use fs_msg::{Answer, CoreError, Lead, Msg, ServerNote};
use fs_record::{LedEnd, Why};
use fs_txn::Mode2;
use std::alloc::Global;

/// The session asks the server to lead a delete or a rename. `Spent` where the transaction would have a number above u64::MAX.
pub(crate) fn lead(
    alloc: Global,
    at: &AtReading<'_>,
    by: Session,
    m: &Lead,
) -> Result<Decided, CoreError>
    requires { IsReady at.now }
    ensures step { IfOk result (λ d. stepped_by d at.now ≡ lead_step by m.now at.now) }
    ensures can { IfOk result (λ d. CanDecide d at.now) }
    ensures spent { (counter : TheCounter) → IsErrOf result (errors.Spent counter) →
        counter_over (lead_step by m.now at.now).server ≡ Some counter }
{
    if !is_led(&m.op) {
        return Ok(strange(alloc));
    }
    match refusal(alloc, at, m)? {
        Some(why) => Ok(refuse(alloc, by, why)?),
        None => lead_here(alloc, at, by, m),
    }
}

/// Its home is here. A directory that comes into another one is led by the path of that one.
fn lead_here(alloc: Global, at: &AtReading<'_>, by: Session, m: &Lead) -> Result<Decided, CoreError>
    requires { IsReady at.now }
    ensures step { IfOk result (λ d. stepped_by d at.now ≡ leads_here by m.now at.now) }
    ensures can { IfOk result (λ d. CanDecide d at.now) }
    ensures spent { (counter : TheCounter) → IsErrOf result (errors.Spent counter) →
        counter_over (leads_here by m.now at.now).server ≡ Some counter }
{
    if takes_path(at, &m.op, m.kind) {
        let path = at.paths().path_of(alloc, at.records(), m.op.home())?;
        return lead_over(alloc, at, by, m, path);
    }
    begin(alloc, at, mode_of(&m.op, m.kind), by, m)
}

/// By that path: it begins, or a lease is wanted, or a transaction keeps a file on it.
fn lead_over(
    alloc: Global,
    at: &AtReading<'_>,
    by: Session,
    m: &Lead,
    path: PathAnswer,
) -> Result<Decided, CoreError>
    requires { IsReady at.now }
    ensures step { IfOk result (λ d. stepped_by d at.now ≡ leads_over path by m.now at.now) }
    ensures can { IfOk result (λ d. CanDecide d at.now) }
    ensures spent { (counter : TheCounter) → IsErrOf result (errors.Spent counter) →
        counter_over (leads_over path by m.now at.now).server ≡ Some counter }
{
    match path {
        PathAnswer::Path(files) => { begin(alloc, at, mode_over(files.as_slice(), &m.file), by, m) }
        PathAnswer::Wanted { file: top, parent } => Ok(want_path(alloc, at, by, top, parent)?),
        PathAnswer::Frozen { file, txn } => Ok(refuse(alloc, by, Why::Frozen { file, txn })?),
    }
}

/// In which mode it is led by that path.
fn mode_over(files: &[FileId], file: &FileId) -> Mode2
    ensures { result ≡ mode_over files.now file.now }
{
    if is_among(files, file) {
        Mode2::Check
    } else {
        Mode2::Freeze
    }
}

/// A path lease is wanted: the session is told so, and it is asked for.
fn want_path(
    alloc: Global,
    at: &AtReading<'_>,
    by: Session,
    top: FileId,
    dir: FileId,
) -> Result<Decided, Memory>
    requires { IsReady at.now }
    ensures step { IfOk result (λ d. stepped_by d at.now ≡ wants_path by top dir at.now) }
    ensures can { IfOk result (λ d. CanDecide d at.now) }
{
    let out = told_wanted(alloc, at, by, &top, dir)?;
    Ok(Decided {
        change: Change::Paths {
            change: PathChange::Ask { file: top },
        },
        out,
    })
}

/// What is noted and sent then.
fn told_wanted(
    alloc: Global,
    at: &AtReading<'_>,
    by: Session,
    top: &FileId,
    dir: FileId,
) -> Result<ServerOut, Memory>
    ensures { IfOk result (λ out. out ≡ (wants_path by top.now dir at.now).out) }
{
    let why = Why::Wanted {
        file: top.copy(alloc)?,
    };
    let mut out = told_why(alloc, by, why)?;
    ask_up(alloc, at, top, dir, &mut out.send)?;
    Ok(out)
}

/// Deletes and renames are led.
fn is_led(op: &Op) -> bool
    ensures { result ≡ is_led op.now }
{
    matches!(op, Op::Delete { .. } | Op::Rename { .. })
}

/// Why it is not led now.
fn refusal(alloc: Global, at: &AtReading<'_>, m: &Lead) -> Result<Option<Why>, Memory>
    ensures { IfOk result (λ why. why ≡ lead_refusal at.now m.now) }
{
    let home = m.op.home();
    if !at.is_mine(home) {
        return Ok(Some(moved_why(alloc, at, home)?));
    }
    Ok(None)
}

/// The server that is said to manage the file.
pub(crate) fn moved_why(alloc: Global, at: &AtReading<'_>, file: &FileId) -> Result<Why, Memory>
    ensures { IfOk result (λ why. why ≡ moved_why (longest at.now.map file.now)) }
{
    let (prefix, to) = at.map().owner(file);
    Ok(Why::Moved {
        prefix: prefix.copy(alloc)?,
        to,
    })
}

/// Whether it stands on a path: it comes into another directory that has its record here, and its file is a directory.
fn takes_path(at: &AtReading<'_>, op: &Op, kind: Kind) -> bool
    ensures { result ≡ takes_path at.now op.now kind }
{
    match kind {
        Kind::File => false,
        Kind::Dir => stands_on_path(at, op),
    }
}

/// Whether it comes into another directory, which has its record here.
fn stands_on_path(at: &AtReading<'_>, op: &Op) -> bool
    ensures { result ≡ stands_on_path at.now op.now }
{
    match op {
        Op::Rename { sdir, ddir, .. } => !(sdir == ddir) && at.records().get(ddir).is_some(),
        _ => false,
    }
}

/// In which mode it is led: a directory that goes is kept where it is until all is decided.
fn mode_of(op: &Op, kind: Kind) -> Mode2
    ensures { result ≡ mode_of op.now kind }
{
    match (op, kind) {
        (Op::Delete { .. }, Kind::Dir) => Mode2::Freeze,
        _ => Mode2::Plain,
    }
}

/// The session is told that it may ask again.
fn refuse(alloc: Global, by: Session, why: Why) -> Result<Decided, Memory>
    ensures step { (s : TheServer) → IfOk result (λ d. stepped_by d s ≡ refuses by why s) }
    ensures change { IfOk result (λ d. d.change ≡ change.Nothing) }
{
    Ok(Decided {
        change: Change::Nothing,
        out: told_why(alloc, by, why)?,
    })
}

/// What is noted and sent then.
fn told_why(alloc: Global, by: Session, why: Why) -> Result<ServerOut, Memory>
    ensures { IfOk result (λ out. out ≡ record {
      note = note.Refuses why;
      send = to_session by (answer.Led (led.Again why)) ∷ [];
      admitted = [];
    }) }
{
    let note = ServerNote::Refuses {
        why: why.copy(alloc)?,
    };
    Ok(ServerOut {
        note,
        send: only(alloc, led_told(by, LedEnd::Again { why }))?,
        admitted: List::new(alloc),
    })
}

/// The session is told how it ended.
pub(crate) fn led_told(by: Session, end: LedEnd) -> (Peer, Msg)
    ensures { result ≡ to_session by (answer.Led end) }
{
    to_session(by, Answer::Led { end })
}
