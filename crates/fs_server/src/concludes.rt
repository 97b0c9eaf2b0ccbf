//! A transaction that the server leads goes on: it waits, or is decided once all of its parts have voted.
ghost use Rattle.std.specs.Prelude.{◌≡◌, ◌<◌, ◌^◌, ◌++◌, true, length, IfOk, OnOk};
ghost use Rattle.std.specs.List.{filter};
ghost use Rattle.fs_msg.specs.declared.answer.Answer.TheVariants as answer;
ghost use Rattle.fs_msg.specs.declared.peer_msg.PeerMsg.TheVariants as peer;
ghost use Rattle.fs_record.specs.Applied.{is_undoable, takes_away};
ghost use Rattle.fs_server.specs.Concludes.{admitted_of, concludes, end_note, end_of_decision, ends_now, goes_on, path_for, tells};
ghost use Rattle.fs_server.specs.Decided.{CanDecide, stepped_by};
ghost use Rattle.fs_server.specs.Follows.{to_server};
ghost use Rattle.fs_server.specs.declared.change.Change.TheVariants as change;
ghost use Rattle.fs_server.specs.Gathered.{CanGoOn, ends_by, keeping, told_by, waits_by};
ghost use Rattle.fs_server.specs.Grants.{IsReady};
ghost use Rattle.fs_txn.specs.Deciding.{told_effects};
ghost use Rattle.fs_txn.specs.Votes.{is_full};

use crate::at_reading::AtReading;
use crate::change::{Change, Then};
use crate::decide::Decided;
use crate::follows::to_server;
use crate::leads::led_told;
use crate::out::ServerOut;
use fs_field::{Effect, PathAnswer, Use};
use fs_ident::{FileId, List, Memory, Peer, Twin, TxnNo, add_copy, copy_two};
use fs_model::Op;
use fs_msg::{Decide, Item, Msg, PeerMsg, ServerNote};
use fs_record::{LedEnd, is_undoable};
use fs_txn::{Decision, Ending, Leader, Leading, Mode2, elsewhere, needs_path, own_effects};
use std::alloc::Global;

/// It is decided where all parts have voted. Where it begins a number of a transaction is used up; it keeps the rows of these leases, and
/// these files.
pub(crate) fn goes_on(
    alloc: Global,
    at: &AtReading<'_>,
    begins: bool,
    note: ServerNote,
    leading: Leading,
    uses: List<Use>,
    files: List<FileId>,
    send: List<(Peer, Msg)>,
) -> Result<Decided, Memory>
    requires ready { IsReady at.now }
    requires can { CanGoOn begins leading at.now }
    ensures step { IfOk result (λ d. stepped_by d at.now ≡
        goes_on note leading (path_for leading.leader.mode leading.leader.op at.now) send
        (keeping begins leading.leader.txn uses files at.now)) }
    ensures can { IfOk result (λ d. CanDecide d at.now) }
{
    if leading.leader.is_full() {
        concludes(alloc, at, begins, leading, uses, files, send)
    } else {
        Ok(waits(alloc, begins, note, leading, uses, files, send))
    }
}

/// Votes are awaited.
pub(crate) fn waits(
    alloc: Global,
    begins: bool,
    note: ServerNote,
    leading: Leading,
    uses: List<Use>,
    files: List<FileId>,
    send: List<(Peer, Msg)>,
) -> Decided
    ensures { result ≡ waits_by begins note leading uses files send }
{
    Decided {
        change: Change::Lead {
            begins,
            txn: leading.leader.txn,
            uses,
            files,
            then: Then::Waits { leading },
        },
        out: ServerOut {
            note,
            send,
            admitted: List::new(alloc),
        },
    }
}

/// All parts have voted.
fn concludes(
    alloc: Global,
    at: &AtReading<'_>,
    begins: bool,
    leading: Leading,
    uses: List<Use>,
    files: List<FileId>,
    send: List<(Peer, Msg)>,
) -> Result<Decided, Memory>
    requires ready { IsReady at.now }
    requires can { CanGoOn begins leading at.now }
    requires full { is_full leading.leader.votes ≡ true }
    ensures step { IfOk result (λ d. stepped_by d at.now ≡
        concludes leading (path_for leading.leader.mode leading.leader.op at.now) send
        (keeping begins leading.leader.txn uses files at.now)) }
    ensures can { IfOk result (λ d. CanDecide d at.now) }
{
    let me = at.me();
    let path = path_for(alloc, at, leading.leader.mode, &leading.leader.op)?;
    let decision = leading.leader.decide(alloc, path.as_ref())?;
    let others = elsewhere(alloc, me, &leading)?;
    let d = ended(
        alloc, me, begins, leading, uses, files, send, decision, others,
    )?;
    Ok(d)
}

/// Where the decision stands on a path, that of the home as the event finds it, while its record is here.
fn path_for(
    alloc: Global,
    at: &AtReading<'_>,
    mode: Mode2,
    op: &Op,
) -> Result<Option<PathAnswer>, Memory>
    ensures { IfOk result (λ path. path ≡ path_for mode op.now at.now) }
{
    let home = op.home();
    if needs_path(mode, op) && at.records().get(home).is_some() {
        return Ok(Some(at.paths().path_of(alloc, at.records(), home)?));
    }
    Ok(None)
}

/// It ends by this decision, of which these other parts, each with its server, are told.
fn ended(
    alloc: Global,
    me: u8,
    begins: bool,
    leading: Leading,
    uses: List<Use>,
    files: List<FileId>,
    send: List<(Peer, Msg)>,
    decision: Decision,
    others: List<(u8, u8)>,
) -> Result<Decided, Memory>
    requires { length leading.leader.votes < 2 ^ 8 }
    ensures { IfOk result (λ d. d ≡ record {
      change = change.Lead begins leading.leader.txn uses files
          (ends_by me leading decision others);
      out = told_by decision others leading.leader send;
    }) }
{
    let out = told(alloc, &leading.leader, &decision, others.as_slice(), send)?;
    let rest = ends(alloc, me, &leading, &decision, others)?;
    Ok(Decided {
        change: Change::Lead {
            begins,
            txn: leading.leader.txn,
            uses,
            files,
            then: rest,
        },
        out,
    })
}

/// What becomes of it: what is taken away here comes last.
fn ends(
    alloc: Global,
    me: u8,
    leading: &Leading,
    decision: &Decision,
    others: List<(u8, u8)>,
) -> Result<Then, Memory>
    requires { length leading.now.leader.votes < 2 ^ 8 }
    ensures { IfOk result (λ what. what ≡ ends_by me leading.now decision.now others) }
{
    let keeps = decision.keeps_rows() && others.as_slice().get(0).is_some();
    let own = own_effects(alloc, me, leading, decision)?;
    let effects = undoable(alloc, own.as_slice())?;
    let removals = removals(alloc, own.as_slice())?;
    let end = end_of(alloc, decision)?;
    Ok(Then::Ends {
        effects,
        removals,
        ending: Ending {
            txn: leading.leader.txn,
            session: leading.leader.session,
            end,
            awaits: others,
        },
        keeps,
    })
}

/// What is noted, sent and admitted.
fn told(
    alloc: Global,
    leader: &Leader,
    decision: &Decision,
    others: &[(u8, u8)],
    send: List<(Peer, Msg)>,
) -> Result<ServerOut, Memory>
    ensures { IfOk result (λ out. out ≡ told_by decision.now others.now leader.now send) }
{
    let mut send = send;
    tell_all(alloc, leader.txn, decision, others, &mut send)?;
    end_now(alloc, leader, decision, others, &mut send)?;
    let note = end_note(alloc, leader.txn, decision)?;
    let admitted = admitted_of(alloc, leader, decision)?;
    Ok(ServerOut {
        note,
        send,
        admitted,
    })
}

/// Each of these parts, with its server, is told what it has to do.
fn tell_all(
    alloc: Global,
    txn: TxnNo,
    decision: &Decision,
    others: &[(u8, u8)],
    send: &mut List<(Peer, Msg)>,
) -> Result<(), Memory>
    ensures { OnOk result (send.new ≡ send.old ++ tells txn decision.now others.now) }
{
    for other in others {
        send.push(tell(alloc, txn, decision, *other)?)?;
    }
    Ok(())
}

fn tell(
    alloc: Global,
    txn: TxnNo,
    decision: &Decision,
    other: (u8, u8),
) -> Result<(Peer, Msg), Memory>
    ensures { IfOk result (λ m. m ≡ to_server other.1 (peer.Decide (record {
      txn = txn;
      number = other.0;
      effects = told_effects decision.now other.0;
    }))) }
{
    let (number, server) = other;
    let effects = copy_of_all(alloc, decision.effects_of(number))?;
    let decide = Decide {
        txn,
        number,
        effects,
    };
    Ok(to_server(server, PeerMsg::Decide { decide }))
}

fn copy_of_all(alloc: Global, effects: &[Effect]) -> Result<List<Effect>, Memory>
    ensures { IfOk result (λ copies. copies ≡ effects.now) }
{
    let mut copies = List::new(alloc);
    for e in effects {
        add_copy(alloc, &mut copies, e)?;
    }
    Ok(copies)
}

/// The session is told at once where no other server has to do anything.
fn end_now(
    alloc: Global,
    leader: &Leader,
    decision: &Decision,
    others: &[(u8, u8)],
    send: &mut List<(Peer, Msg)>,
) -> Result<(), Memory>
    ensures { OnOk result (send.new ≡
        send.old ++ ends_now others.now leader.now.session (end_of_decision decision.now)) }
{
    if others.split_first().is_none() {
        let end = end_of(alloc, decision)?;
        send.push(led_told(leader.session, end))?;
    }
    Ok(())
}

/// How it ends for the session.
fn end_of(alloc: Global, decision: &Decision) -> Result<LedEnd, Memory>
    ensures { IfOk result (λ end. end ≡ end_of_decision decision.now) }
{
    match decision {
        Decision::Commit { reply, .. } => Ok(LedEnd::Done {
            reply: reply.copy(alloc)?,
        }),
        Decision::Abort { end } => end.copy(alloc),
    }
}

/// How it is noted.
fn end_note(alloc: Global, txn: TxnNo, decision: &Decision) -> Result<ServerNote, Memory>
    ensures { IfOk result (λ note. note ≡ end_note txn (end_of_decision decision.now)) }
{
    match decision {
        Decision::Commit { reply, .. } => Ok(ServerNote::Commits {
            txn,
            reply: reply.copy(alloc)?,
        }),
        Decision::Abort { end } => abort_note(alloc, txn, end),
    }
}

fn abort_note(alloc: Global, txn: TxnNo, end: &LedEnd) -> Result<ServerNote, Memory>
    ensures { IfOk result (λ note. note ≡ end_note txn end.now) }
{
    match end {
        LedEnd::Done { reply } => Ok(ServerNote::Commits {
            txn,
            reply: reply.copy(alloc)?,
        }),
        LedEnd::Ended { lease, until, now } => Ok(ServerNote::AbortsEnded {
            txn,
            lease: *lease,
            until: *until,
            now: *now,
        }),
        LedEnd::Again { why } => Ok(ServerNote::Aborts {
            txn,
            why: why.copy(alloc)?,
        }),
    }
}

/// An operation that commits is admitted.
fn admitted_of(alloc: Global, leader: &Leader, decision: &Decision) -> Result<List<Item>, Memory>
    ensures { IfOk result (λ items. items ≡ admitted_of decision.now leader.now) }
{
    let mut items = List::new(alloc);
    if let Decision::Commit { reply, .. } = decision {
        let (op, reply) = copy_two(alloc, &leader.op, reply)?;
        items.push(Item {
            by: Peer::Client(leader.session),
            n: leader.n,
            op,
            reply,
        })?;
    }
    Ok(items)
}

/// The effects that can be taken back.
#[tactic(auto, using(crate::proofs::Effects::undoable_step))]
pub(crate) fn undoable(alloc: Global, effects: &[Effect]) -> Result<List<Effect>, Memory>
    ensures { IfOk result (λ told. told ≡ filter is_undoable effects.now) }
{
    let mut told = List::new(alloc);
    for e in effects {
        if is_undoable(e) {
            add_copy(alloc, &mut told, e)?;
        }
    }
    Ok(told)
}

/// The effects that take a file or a name away.
#[tactic(auto, using(crate::proofs::Effects::removal_step))]
pub(crate) fn removals(alloc: Global, effects: &[Effect]) -> Result<List<Effect>, Memory>
    ensures { IfOk result (λ told. told ≡ filter takes_away effects.now) }
{
    let mut told = List::new(alloc);
    for e in effects {
        if !is_undoable(e) {
            add_copy(alloc, &mut told, e)?;
        }
    }
    Ok(told)
}
