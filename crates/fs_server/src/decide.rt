//! What an event comes to.
ghost use Rattle.std.specs.Prelude.{◌≡◌, [], ◌∷◌, IfOk, IsErrOf, Some};
ghost use Rattle.fs_msg.specs.declared.answer.Answer.TheVariants as reply;
ghost use Rattle.fs_msg.specs.declared.core_error.Counter.{Counter as TheCounter};
ghost use Rattle.fs_msg.specs.declared.core_error.CoreError.TheVariants as errors;
ghost use Rattle.fs_msg.specs.declared.server_note.ServerNote.TheVariants as note;
ghost use Rattle.fs_server.specs.Decided.{CanDecide, noted_only, stepped_by};
ghost use Rattle.fs_server.specs.declared.event.ServerEvent.TheVariants.{FromPeer};
ghost use Rattle.fs_server.specs.Grants.{IsReady};
ghost use Rattle.fs_server.specs.Moves.{peer_step};
ghost use Rattle.fs_server.specs.Server.{to_session};
ghost use Rattle.fs_server.specs.Step.{CanBeTold, counter_over, event_step, message_step};

use crate::asks::ask;
use crate::at_reading::AtReading;
use crate::change::Change;
use crate::counts::{done, vote};
use crate::event::ServerEvent;
use crate::follows::{applies, prepare};
use crate::leads::lead;
use crate::moves::{installs, move_to};
use crate::out::ServerOut;
use crate::pairs::{release, renew};
use crate::path_asks::path_ask;
use crate::path_grants::{path_grant, path_no};
use crate::path_returns::{path_recall, path_release};
use crate::reaps::turn;
use crate::recalls::recall_all;
use crate::ships::ship;
use fs_ident::{LeaseNo, List, Memory, Peer, Session};
use fs_msg::{Answer, ClientMsg, CoreError, Msg, PeerMsg, ServerNote};
use std::alloc::Global;

/// What an event was decided to come to.
#[derive(Drop)]
pub(crate) struct Decided {
    pub(crate) change: Change,
    pub(crate) out: ServerOut,
}

/// What the event comes to.
pub(crate) fn decide(
    alloc: Global,
    at: &AtReading<'_>,
    ev: &ServerEvent,
) -> Result<Decided, CoreError>
    requires ready { IsReady at.now }
    requires told { CanBeTold ev.now }
    ensures step { IfOk result (λ d. stepped_by d at.now ≡ event_step ev.now at.now) }
    ensures can { IfOk result (λ d. CanDecide d at.now) }
    ensures spent { (counter : TheCounter) → IsErrOf result (errors.Spent counter) →
        counter_over (event_step ev.now at.now).server ≡ Some counter }
{
    match ev {
        ServerEvent::FromClient(by, m) => message(alloc, at, *by, m),
        ServerEvent::Turn => turn(alloc, at),
        ServerEvent::Recall(field) => Ok(recall_all(alloc, at, field)?),
        ServerEvent::FromPeer(from, m) => from_peer(alloc, at, *from, m),
        ServerEvent::Move { prefix, to } => Ok(move_to(alloc, at, prefix, *to)?),
    }
}

/// What a message of another server comes to.
fn from_peer(alloc: Global, at: &AtReading<'_>, from: u8, m: &PeerMsg) -> Result<Decided, CoreError>
    requires ready { IsReady at.now }
    requires told { CanBeTold (FromPeer from m.now) }
    ensures step { IfOk result (λ d. stepped_by d at.now ≡ peer_step from m.now at.now) }
    ensures can { IfOk result (λ d. CanDecide d at.now) }
    ensures spent { (counter : TheCounter) → IsErrOf result (errors.Spent counter) →
        counter_over (peer_step from m.now at.now).server ≡ Some counter }
{
    match m {
        PeerMsg::Parcel { parcel } => Ok(installs(alloc, at, parcel)?),
        PeerMsg::Prepare { prepare: m } => Ok(prepare(alloc, at, from, m)?),
        PeerMsg::Vote { voted: m } => Ok(vote(alloc, at, m)?),
        PeerMsg::Decide { decide: m } => Ok(applies(alloc, at, from, m)?),
        PeerMsg::Done { done: m } => Ok(done(alloc, at, m)?),
        PeerMsg::PathAsk { file, parent } => path_ask(alloc, at, from, file, parent),
        PeerMsg::PathGrant { no, file, path } => {
            Ok(path_grant(alloc, at, from, *no, file, path)?)
        }
        PeerMsg::PathNo { file, why } => Ok(path_no(alloc, at, file, why)?),
        PeerMsg::PathRecall { no } => Ok(path_recall(alloc, at, *no)?),
        PeerMsg::PathRelease { no } => Ok(path_release(alloc, at, from, *no)?),
    }
}

/// What a message of the session comes to.
fn message(
    alloc: Global,
    at: &AtReading<'_>,
    by: Session,
    m: &ClientMsg,
) -> Result<Decided, CoreError>
    requires { IsReady at.now }
    ensures step { IfOk result (λ d. stepped_by d at.now ≡ message_step by m.now at.now) }
    ensures can { IfOk result (λ d. CanDecide d at.now) }
    ensures spent { (counter : TheCounter) → IsErrOf result (errors.Spent counter) →
        counter_over (message_step by m.now at.now).server ≡ Some counter }
{
    match m {
        ClientMsg::Ask { items, fresh } => ask(alloc, at, by, items, fresh),
        ClientMsg::Renew { pairs } => Ok(renew(alloc, at, by, pairs)?),
        ClientMsg::Release { pairs } => Ok(release(alloc, at, by, pairs)?),
        ClientMsg::Ship { entries } => Ok(ship(alloc, at, by, entries)?),
        ClientMsg::Lead { lead: m } => lead(alloc, at, by, m),
    }
}

/// Nothing is changed, sent or admitted.
pub(crate) fn only_noted(alloc: Global, note: ServerNote) -> Decided
    ensures { result ≡ noted_only note }
{
    Decided {
        change: Change::Nothing,
        out: ServerOut {
            note,
            send: List::new(alloc),
            admitted: List::new(alloc),
        },
    }
}

/// No honest actor sends such a message.
pub(crate) fn strange(alloc: Global) -> Decided
    ensures { result ≡ noted_only note.Strange }
{
    only_noted(alloc, ServerNote::Strange)
}

/// A message to the session.
pub(crate) fn to_session(by: Session, a: Answer) -> (Peer, Msg)
    ensures { result ≡ to_session by a }
{
    (Peer::Client(by), Msg::Answer(a))
}

/// The lease is asked back from the session.
pub(crate) fn recall(by: Session, no: LeaseNo) -> (Peer, Msg)
    ensures { result ≡ to_session by (reply.Recall no) }
{
    to_session(by, Answer::Recall { no })
}

/// One message alone.
pub(crate) fn only(alloc: Global, m: (Peer, Msg)) -> Result<List<(Peer, Msg)>, Memory>
    ensures { IfOk result (λ send. send ≡ m ∷ []) }
{
    let mut send = List::new(alloc);
    send.push(m)?;
    Ok(send)
}
