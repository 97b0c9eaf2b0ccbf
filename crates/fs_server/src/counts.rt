//! What other servers tell of transactions that this one leads: their votes, and that what was decided is done.
ghost use Rattle.std.specs.Prelude.{◌≡◌, ◌++◌, [], ◌∷◌, true, Some, slice_get, IfOk, OnOk};
ghost use Rattle.fs_server.specs.Counts.{ask_for, asked_at, comes_home, counts, counts_own, done_of, done_step, seeks, sent_on, vote_of, vote_step, with_vote};
ghost use Rattle.fs_server.specs.Decided.{CanDecide, stepped_by};
ghost use Rattle.fs_server.specs.Follows.{recalls_for, to_server, vote_here};
ghost use Rattle.fs_server.specs.Gathered.{IsWhole, done_told, files_voted, uses_voted};
ghost use Rattle.fs_server.specs.Grants.{IsReady};
ghost use Rattle.fs_txn.specs.Leading.{ending_of, leading_of, without_done};
ghost use Rattle.fs_txn.specs.Votes.{awaits};

use crate::at_reading::AtReading;
use crate::change::Change;
use crate::concludes::{goes_on, waits};
use crate::decide::{Decided, only, strange};
use crate::follows::{to_server, vote_on};
use crate::leads::led_told;
use crate::out::ServerOut;
use crate::path_returns::ask_all_back;
use fs_field::{Part, Use, Vote};
use fs_ident::{FileId, List, Memory, Peer, Session, Twin, TxnNo, add_copy};
use fs_msg::{Done, Msg, PeerMsg, Prepare, ServerNote, Voted};
use fs_txn::{Ending, Leading, find_ending, find_leading};
use std::alloc::Global;

/// The vote on a part comes; only one that is awaited is.
pub(crate) fn vote(alloc: Global, at: &AtReading<'_>, m: &Voted) -> Result<Decided, Memory>
    requires { IsReady at.now }
    ensures step { IfOk result (λ d. stepped_by d at.now ≡ vote_step m.now at.now) }
    ensures can { IfOk result (λ d. CanDecide d at.now) }
{
    match find_leading(at.leading(), m.txn) {
        Some(l) => vote_of(alloc, at, l, m),
        None => Ok(strange(alloc)),
    }
}

fn vote_of(alloc: Global, at: &AtReading<'_>, l: &Leading, m: &Voted) -> Result<Decided, Memory>
    requires ready { IsReady at.now }
    requires whole { IsWhole l.now }
    ensures step { IfOk result (λ d. stepped_by d at.now ≡ vote_of (Some l.now) m.now at.now) }
    ensures can { IfOk result (λ d. CanDecide d at.now) }
{
    if !l.leader.awaits(m.number) {
        return Ok(strange(alloc));
    }
    if let Vote::Moved { to, .. } = &m.vote {
        sent_on(alloc, at, l, m.number, *to)
    } else {
        counts(alloc, at, l, m.number, &m.vote)
    }
}

/// The vote is counted.
fn counts(
    alloc: Global,
    at: &AtReading<'_>,
    l: &Leading,
    number: u8,
    vote: &Vote,
) -> Result<Decided, Memory>
    requires ready { IsReady at.now }
    requires whole { IsWhole l.now }
    requires awaited { awaits l.now.leader number ≡ true }
    ensures step { IfOk result (λ d. stepped_by d at.now ≡
        counts number vote.now l.now at.now) }
    ensures can { IfOk result (λ d. CanDecide d at.now) }
{
    let leading = with_vote(alloc, l, number, vote)?;
    let note = ServerNote::Waits { txn: l.leader.txn };
    let uses = List::new(alloc);
    let files = List::new(alloc);
    goes_on(
        alloc,
        at,
        false,
        note,
        leading,
        uses,
        files,
        List::new(alloc),
    )
}

/// The transaction with one vote more.
fn with_vote(alloc: Global, l: &Leading, number: u8, vote: &Vote) -> Result<Leading, Memory>
    requires { awaits l.now.leader number ≡ true }
    ensures { IfOk result (λ x. x ≡ with_vote number vote.now l.now) }
{
    let vote = vote.copy(alloc)?;
    let mut leading = l.copy(alloc)?;
    leading.leader.vote(number, vote);
    Ok(leading)
}

/// The part is at that server.
fn sent_on(
    alloc: Global,
    at: &AtReading<'_>,
    l: &Leading,
    number: u8,
    to: u8,
) -> Result<Decided, Memory>
    requires ready { IsReady at.now }
    requires whole { IsWhole l.now }
    requires awaited { awaits l.now.leader number ≡ true }
    ensures step { IfOk result (λ d. stepped_by d at.now ≡
        sent_on number to (slice_get l.now.leader.parts number) l.now at.now) }
    ensures can { IfOk result (λ d. CanDecide d at.now) }
{
    match l.leader.parts.as_slice().get(number as usize) {
        None => Ok(strange(alloc)),
        Some(part) if to == at.me() => comes_home(alloc, at, l, number, part),
        Some(part) => seeks(alloc, at, l, number, part, to),
    }
}

/// Another server believes that the part is here: where it is not, this one's map tells where to ask.
fn comes_home(
    alloc: Global,
    at: &AtReading<'_>,
    l: &Leading,
    number: u8,
    part: &Part,
) -> Result<Decided, Memory>
    requires ready { IsReady at.now }
    requires whole { IsWhole l.now }
    requires awaited { awaits l.now.leader number ≡ true }
    ensures step { IfOk result (λ d. stepped_by d at.now ≡
        comes_home number part.now l.now at.now) }
    ensures can { IfOk result (λ d. CanDecide d at.now) }
{
    let (_, to) = at.map().owner(&part.file);
    if to == at.me() {
        counts_own(alloc, at, l, number, part)
    } else {
        seeks(alloc, at, l, number, part, to)
    }
}

/// This server votes on the part itself.
fn counts_own(
    alloc: Global,
    at: &AtReading<'_>,
    l: &Leading,
    number: u8,
    part: &Part,
) -> Result<Decided, Memory>
    requires ready { IsReady at.now }
    requires whole { IsWhole l.now }
    requires awaited { awaits l.now.leader number ≡ true }
    ensures step { IfOk result (λ d. stepped_by d at.now ≡ counts_own number part.now
        (vote_here at.now l.now.leader.session part.now) l.now at.now) }
    ensures can { IfOk result (λ d. CanDecide d at.now) }
{
    let vote = vote_on(alloc, at, l.leader.session, part)?;
    let mut leading = with_vote(alloc, l, number, &vote)?;
    leading.ask(number, at.me());
    let mut uses = List::new(alloc);
    uses_kept(alloc, part, &vote, &mut uses)?;
    let mut files = List::new(alloc);
    files_kept(alloc, part, &vote, &mut files)?;
    let mut send = List::new(alloc);
    add_recalls(alloc, at, part, &vote, &mut send)?;
    let note = ServerNote::Waits { txn: l.leader.txn };
    goes_on(alloc, at, false, note, leading, uses, files, send)
}

/// The server is asked for the part.
fn seeks(
    alloc: Global,
    at: &AtReading<'_>,
    l: &Leading,
    number: u8,
    part: &Part,
    to: u8,
) -> Result<Decided, Memory>
    requires ready { IsReady at.now }
    requires whole { IsWhole l.now }
    ensures step { IfOk result (λ d. stepped_by d at.now ≡
        seeks number to part.now l.now at.now) }
    ensures can { IfOk result (λ d. CanDecide d at.now) }
{
    let send = ask_again(alloc, l, number, part, to)?;
    let leading = asked_at(alloc, l, number, to)?;
    let note = ServerNote::Seeks {
        txn: l.leader.txn,
        to,
    };
    let uses = List::new(alloc);
    let files = List::new(alloc);
    Ok(waits(alloc, false, note, leading, uses, files, send))
}

/// The message to the server that is asked now.
fn ask_again(
    alloc: Global,
    l: &Leading,
    number: u8,
    part: &Part,
    to: u8,
) -> Result<List<(Peer, Msg)>, Memory>
    ensures { IfOk result (λ send. send ≡
        to_server to (ask_for l.now.leader.txn number l.now.leader.session part.now) ∷ []) }
{
    let m = ask_for(alloc, l.leader.txn, number, l.leader.session, part, to)?;
    only(alloc, m)
}

/// That server is asked for the part now.
fn asked_at(alloc: Global, l: &Leading, number: u8, to: u8) -> Result<Leading, Memory>
    ensures { IfOk result (λ x. x ≡ asked_at number to l.now) }
{
    let mut leading = l.copy(alloc)?;
    leading.ask(number, to);
    Ok(leading)
}

/// The message by which a server is asked for a part.
pub(crate) fn ask_for(
    alloc: Global,
    txn: TxnNo,
    number: u8,
    by: Session,
    part: &Part,
    to: u8,
) -> Result<(Peer, Msg), Memory>
    ensures { IfOk result (λ m. m ≡ to_server to (ask_for txn number by part.now)) }
{
    let prepare = Prepare {
        txn,
        number,
        session: by,
        part: part.copy(alloc)?,
    };
    Ok(to_server(to, PeerMsg::Prepare { prepare }))
}

/// Where the vote on the part is Yes, the transaction keeps the rows of its leases.
pub(crate) fn uses_kept(
    alloc: Global,
    part: &Part,
    vote: &Vote,
    uses: &mut List<Use>,
) -> Result<(), Memory>
    ensures { OnOk result (uses.new ≡ uses.old ++ uses_voted vote.now part.now.uses) }
{
    if matches!(vote, Vote::Yes) {
        add_uses(alloc, part.uses.as_slice(), uses)?;
    }
    Ok(())
}

/// Where it is Yes, the transaction keeps the file that the part names.
pub(crate) fn files_kept(
    alloc: Global,
    part: &Part,
    vote: &Vote,
    files: &mut List<FileId>,
) -> Result<(), Memory>
    ensures { OnOk result (files.new ≡ files.old ++ files_voted vote.now part.now.freeze) }
{
    if let (Vote::Yes, Some(file)) = (vote, &part.freeze) {
        add_copy(alloc, files, file)?;
    }
    Ok(())
}

/// Where a path is in the way of the part, all leases over the file that it names are asked back.
pub(crate) fn add_recalls(
    alloc: Global,
    at: &AtReading<'_>,
    part: &Part,
    vote: &Vote,
    send: &mut List<(Peer, Msg)>,
) -> Result<(), Memory>
    ensures { OnOk result (send.new ≡ send.old ++ recalls_for vote.now at.now part.now) }
{
    if let (Vote::PathsOut { .. }, Some(file)) = (vote, &part.freeze) {
        let leases = at.paths().recall_through(alloc, file)?;
        ask_all_back(leases.as_slice(), send)?;
    }
    Ok(())
}

fn add_uses(alloc: Global, more: &[Use], uses: &mut List<Use>) -> Result<(), Memory>
    ensures { OnOk result (uses.new ≡ uses.old ++ more.now) }
{
    for used in more {
        add_copy(alloc, uses, used)?;
    }
    Ok(())
}

/// Another server tells that what was decided for a part is done; only what is awaited is.
pub(crate) fn done(alloc: Global, at: &AtReading<'_>, m: &Done) -> Result<Decided, Memory>
    requires { IsReady at.now }
    ensures step { IfOk result (λ d. stepped_by d at.now ≡ done_step m.now at.now) }
    ensures can { IfOk result (λ d. CanDecide d at.now) }
{
    match find_ending(at.ending(), m.txn) {
        Some(x) => done_of(alloc, at, x, m),
        None => Ok(strange(alloc)),
    }
}

fn done_of(alloc: Global, at: &AtReading<'_>, x: &Ending, m: &Done) -> Result<Decided, Memory>
    requires ready { IsReady at.now }
    requires ending { ending_of m.now.txn at.now.ending ≡ Some x.now }
    ensures step { IfOk result (λ d. stepped_by d at.now ≡ done_of (Some x.now) m.now at.now) }
    ensures can { IfOk result (λ d. CanDecide d at.now) }
{
    if !x.awaits(m.number) {
        return Ok(strange(alloc));
    }
    let out = told_done(alloc, x, m.number)?;
    let change = Change::Done {
        txn: m.txn,
        number: m.number,
    };
    Ok(Decided { change, out })
}

/// With the last part the session is told how its operation ended.
fn told_done(alloc: Global, x: &Ending, number: u8) -> Result<ServerOut, Memory>
    ensures { IfOk result (λ out. out ≡
        done_told (without_done number x.now) (without_done number x.now).awaits) }
{
    if x.awaits_others(number) {
        return Ok(ServerOut {
            note: ServerNote::Waits { txn: x.txn },
            send: List::new(alloc),
            admitted: List::new(alloc),
        });
    }
    Ok(ServerOut {
        note: ServerNote::Ends { txn: x.txn },
        send: only(alloc, led_told(x.session, x.end.copy(alloc)?))?,
        admitted: List::new(alloc),
    })
}
