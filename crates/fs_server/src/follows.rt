//! The parts of deletes and renames that other servers lead.
ghost use Rattle.std.specs.Prelude.{◌≡◌, [], ◌∷◌, IfOk};
ghost use Rattle.std.specs.List.{filter};
ghost use Rattle.std.specs.Option.{option_copied};
ghost use Rattle.fs_map.specs.Map.{longest};
ghost use Rattle.fs_msg.specs.declared.peer_msg.PeerMsg.TheVariants as peer;
ghost use Rattle.fs_record.specs.Applied.{is_undoable, takes_away};
ghost use Rattle.fs_server.specs.Decided.{CanDecide, stepped_by, voted_change};
ghost use Rattle.fs_server.specs.Follows.{applies, decide_step, path_in_the_way, prepare_step, ready_of, recalls_for, to_server, vote_here, votes};
ghost use Rattle.fs_server.specs.Grants.{IsReady};
ghost use Rattle.fs_server.specs.declared.change.Change.TheVariants as change;
ghost use Rattle.fs_txn.specs.Preparing.{moved_to, vote_by};

use crate::at_reading::AtReading;
use crate::change::Change;
use crate::concludes::{removals, undoable};
use crate::counts::add_recalls;
use crate::decide::{Decided, only, strange};
use crate::out::ServerOut;
use crate::ships::first_gone;
use fs_field::{Part, Use, Vote};
use fs_ident::{FileId, List, Memory, PathNo, Peer, Session, Twin};
use fs_msg::{Decide, Done, Msg, PeerMsg, Prepare, ServerNote, Voted};
use fs_txn::{Ready, is_prepared};
use std::alloc::Global;

/// Another server asks whether a part is ready; none asks so of a part that is.
pub(crate) fn prepare(
    alloc: Global,
    at: &AtReading<'_>,
    from: u8,
    m: &Prepare,
) -> Result<Decided, Memory>
    requires { IsReady at.now }
    ensures step { IfOk result (λ d. stepped_by d at.now ≡ prepare_step from m.now at.now) }
    ensures can { IfOk result (λ d. CanDecide d at.now) }
{
    if is_prepared(at.prepared(), m.txn, m.number) {
        return Ok(strange(alloc));
    }
    let vote = vote_on(alloc, at, m.session, &m.part)?;
    votes(alloc, at, from, m, vote)
}

/// The vote on the part, by the rows and the path leases that stand.
pub(crate) fn vote_on(
    alloc: Global,
    at: &AtReading<'_>,
    by: Session,
    part: &Part,
) -> Result<Vote, Memory>
    ensures { IfOk result (λ vote. vote ≡ vote_here at.now by part.now) }
{
    if at.is_mine(&part.file) {
        Ok(vote_by(
            first_gone(at, by, part.uses.as_slice()),
            path_in_the_way(at, &part.freeze),
            at.reading(),
        ))
    } else {
        moved(alloc, at, &part.file)
    }
}

/// The least path lease given out here that goes over the file which the part keeps.
fn path_in_the_way(at: &AtReading<'_>, freeze: &Option<FileId>) -> Option<PathNo>
    ensures { result ≡ path_in_the_way at.now freeze.now }
{
    match freeze {
        Some(file) => at.paths().through(file),
        None => None,
    }
}

/// The vote where the file is here.
fn vote_by(gone: Option<&Use>, through: Option<PathNo>, now: u64) -> Vote
    ensures { result ≡ vote_by (option_copied gone.entry) through now }
{
    match (gone, through) {
        (Some(used), _) => Vote::Ended {
            lease: used.no,
            until: used.until,
            now,
        },
        (None, Some(no)) => Vote::PathsOut { no },
        (None, None) => Vote::Yes,
    }
}

/// The vote where it is elsewhere.
fn moved(alloc: Global, at: &AtReading<'_>, file: &FileId) -> Result<Vote, Memory>
    ensures { IfOk result (λ vote. vote ≡ moved_to (longest at.now.map file.now)) }
{
    let (prefix, to) = at.map().owner(file);
    Ok(Vote::Moved {
        prefix: prefix.copy(alloc)?,
        to,
    })
}

/// The vote is told; where it is Yes the part is ready, and where a path is in the way, those are asked back.
fn votes(
    alloc: Global,
    at: &AtReading<'_>,
    from: u8,
    m: &Prepare,
    vote: Vote,
) -> Result<Decided, Memory>
    requires { IsReady at.now }
    ensures step { IfOk result (λ d. stepped_by d at.now ≡ votes vote from m.now at.now) }
    ensures can { IfOk result (λ d. CanDecide d at.now) }
{
    let change = change_of(alloc, m, &vote)?;
    let out = told_vote(alloc, at, from, m, vote)?;
    Ok(Decided { change, out })
}

/// What the vote changes.
fn change_of(alloc: Global, m: &Prepare, vote: &Vote) -> Result<Change, Memory>
    ensures { IfOk result (λ change. change ≡ voted_change vote.now m.now) }
{
    if matches!(vote, Vote::Yes) {
        Ok(Change::Prepare {
            ready: ready_of(alloc, m)?,
        })
    } else {
        Ok(Change::Nothing)
    }
}

/// The part as it waits for its decision.
fn ready_of(alloc: Global, m: &Prepare) -> Result<Ready, Memory>
    ensures { IfOk result (λ x. x ≡ ready_of m.now) }
{
    Ok(Ready {
        txn: m.txn,
        number: m.number,
        session: m.session,
        part: m.part.copy(alloc)?,
    })
}

/// The other server is told the vote; behind it go the recalls, and nothing is admitted.
fn told_vote(
    alloc: Global,
    at: &AtReading<'_>,
    from: u8,
    m: &Prepare,
    vote: Vote,
) -> Result<ServerOut, Memory>
    ensures { IfOk result (λ out. out ≡ (votes vote from m.now at.now).out) }
{
    let send = vote_sent(alloc, at, from, m, &vote)?;
    let note = ServerNote::Votes { txn: m.txn, vote };
    Ok(ServerOut {
        note,
        send,
        admitted: List::new(alloc),
    })
}

/// The vote, and behind it, where a path is in the way, that all leases over the file are asked back.
fn vote_sent(
    alloc: Global,
    at: &AtReading<'_>,
    from: u8,
    m: &Prepare,
    vote: &Vote,
) -> Result<List<(Peer, Msg)>, Memory>
    ensures { IfOk result (λ send. send ≡
        to_server from
        (peer.Vote (record { txn = m.now.txn; number = m.now.number; vote = vote.now })) ∷
        recalls_for vote.now at.now m.now.part) }
{
    let mut send = only(alloc, vote_to(alloc, from, m, vote)?)?;
    add_recalls(alloc, at, &m.part, vote, &mut send)?;
    Ok(send)
}

/// The message that tells it.
fn vote_to(alloc: Global, from: u8, m: &Prepare, vote: &Vote) -> Result<(Peer, Msg), Memory>
    ensures { IfOk result (λ told. told ≡
        to_server from
        (peer.Vote (record { txn = m.now.txn; number = m.now.number; vote = vote.now }))) }
{
    let voted = Voted {
        txn: m.txn,
        number: m.number,
        vote: vote.copy(alloc)?,
    };
    Ok(to_server(from, PeerMsg::Vote { voted }))
}

/// One message to another server, and nothing is admitted.
fn only_sent(alloc: Global, note: ServerNote, to: u8, m: PeerMsg) -> Result<ServerOut, Memory>
    ensures { IfOk result (λ out. out ≡ record {
      note = note;
      send = to_server to m ∷ [];
      admitted = [];
    }) }
{
    Ok(ServerOut {
        note,
        send: only(alloc, to_server(to, m))?,
        admitted: List::new(alloc),
    })
}

/// A message to another server.
pub(crate) fn to_server(at: u8, m: PeerMsg) -> (Peer, Msg)
    ensures { result ≡ to_server at m }
{
    (Peer::Server(at), Msg::Peer(m))
}

/// Another server tells what the part does; where nothing is done, it tells no effects.
pub(crate) fn applies(
    alloc: Global,
    at: &AtReading<'_>,
    from: u8,
    m: &Decide,
) -> Result<Decided, Memory>
    requires { IsReady at.now }
    ensures step { IfOk result (λ d. stepped_by d at.now ≡ decide_step from m.now at.now) }
    ensures can { IfOk result (λ d. CanDecide d at.now) }
{
    if !is_prepared(at.prepared(), m.txn, m.number) {
        return Ok(strange(alloc));
    }
    decided(alloc, at, from, m)
}

/// The effects of the part are applied, and the other server is told so.
fn decided(alloc: Global, at: &AtReading<'_>, from: u8, m: &Decide) -> Result<Decided, Memory>
    requires { IsReady at.now }
    ensures step { IfOk result (λ d. stepped_by d at.now ≡ applies from m.now at.now) }
    ensures can { IfOk result (λ d. CanDecide d at.now) }
{
    let (txn, number) = (m.txn, m.number);
    let change = decided_change(alloc, m)?;
    let note = ServerNote::Applies { txn };
    let done = PeerMsg::Done {
        done: Done { txn, number },
    };
    let out = only_sent(alloc, note, from, done)?;
    Ok(Decided { change, out })
}

/// What the decision changes: what it takes away comes last.
fn decided_change(alloc: Global, m: &Decide) -> Result<Change, Memory>
    ensures { IfOk result (λ ch. ch ≡ change.Decide m.now.txn m.now.number
        (filter is_undoable m.now.effects) (filter takes_away m.now.effects)) }
{
    let effects = undoable(alloc, m.effects.as_slice())?;
    let removals = removals(alloc, m.effects.as_slice())?;
    Ok(Change::Decide {
        txn: m.txn,
        number: m.number,
        effects,
        removals,
    })
}
