//! The turns of a client's node.
ghost use Rattle.std.specs.Prelude.{◌≡◌, ◌≤◌, true, Some, IfOk, IsErrOf};
ghost use Rattle.std.specs.List.{sum_by};
ghost use Rattle.fs_actor.specs.Actor.{client_acts, client_turns};
ghost use Rattle.fs_actor.specs.Events.{ClientTook};
ghost use Rattle.fs_actor.specs.Several.{client_told_all};
ghost use Rattle.fs_ident.specs.declared.limits.TheConstants.{LATEST};
ghost use Rattle.fs_model.specs.Asking.{may_ask};
ghost use Rattle.fs_msg.specs.declared.core_error.Counter.{Counter as TheCounter};
ghost use Rattle.fs_msg.specs.declared.core_error.CoreError.TheVariants as errors;
ghost use Rattle.fs_node.specs.ClientNode.{after_event, after_run, client_at, client_idles, is_open, lines_done, side_of};
ghost use Rattle.fs_node.specs.Scripts.{AreAskable};
ghost use Rattle.fs_node.specs.Turns.{TookTurn};

use crate::arrival::Arrival;
use crate::client_state::ClientState;
use crate::scripts::asked_by;
use crate::turns::turn_of;
use fs_actor::{ClientEvent, ClientTold, client_acts, client_told_all, client_turns};
use fs_client::ClientCore;
use fs_ident::{Peer, Session};
use fs_model::Op;
use fs_msg::{Act, ClientNote, CoreError, Note};
use fs_turns::Turn;
use fs_window::{Packet, Post};
use std::alloc::Global;

impl ClientState {
    /// A turn at the reading, in milliseconds, with what arrived.
    pub(crate) fn take(
        &mut self,
        alloc: Global,
        now: u64,
        arrival: Arrival,
    ) -> Result<Turn, CoreError>
        requires reading { now ≤ LATEST }
        requires askable { AreAskable self.old.script }
        ensures done { IfOk result (TookTurn (client_at now arrival self.old) self.new) }
        ensures spent { (counter : TheCounter) → IsErrOf result (errors.Spent counter) →
            (client_at now arrival self.old).spent ≡ Some counter }
        ensures script { self.new.script ≡ self.old.script }
    {
        match arrival {
            Arrival::Came(from, p) => self.told(alloc, now, from, &p),
            Arrival::Dropped => {
                self.dropped = self.dropped.saturating_add(1);
                self.idle(alloc, now)
            }
            Arrival::Quiet => self.idle(alloc, now),
        }
    }

    /// A packet of another actor came.
    fn told(&mut self, alloc: Global, now: u64, from: Peer, p: &Packet) -> Result<Turn, CoreError>
        requires reading { now ≤ LATEST }
        ensures done { IfOk result (TookTurn
            (after_run (client_told_all self.old.session now from p.now (side_of self.old))
            self.old) self.new) }
        ensures spent { (counter : TheCounter) → IsErrOf result (errors.Spent counter) →
            (client_told_all self.old.session now from p.now (side_of self.old)).spent ≡
            Some counter }
        ensures script { self.new.script ≡ self.old.script }
    {
        let (told, lines) = hears(
            alloc,
            now,
            self.session,
            from,
            p,
            &mut self.client,
            &mut self.post,
        )?;
        let ClientTold { finished, packets } = told;
        self.done = self.done.saturating_add(lines);
        Ok(turn_of(
            alloc,
            self.peers.as_slice(),
            finished.as_slice(),
            packets,
            &mut self.admitted,
        )?)
    }

    /// No packet came: a line of the script is asked for, or the client takes its turn.
    fn idle(&mut self, alloc: Global, now: u64) -> Result<Turn, CoreError>
        requires reading { now ≤ LATEST }
        requires askable { AreAskable self.old.script }
        ensures done { IfOk result (TookTurn (client_idles now self.old) self.new) }
        ensures spent { (counter : TheCounter) → IsErrOf result (errors.Spent counter) →
            (client_idles now self.old).spent ≡ Some counter }
        ensures script { self.new.script ≡ self.old.script }
    {
        let asks = self.odd && !self.client.waits();
        self.odd = !self.odd;
        if !asks {
            return self.turn(alloc, now);
        }
        match asked_by(alloc, self.script.as_slice(), self.done)? {
            Some(op) => self.ask(alloc, now, &op),
            None => self.turn(alloc, now),
        }
    }

    /// The script's next line asks for the operation.
    fn ask(&mut self, alloc: Global, now: u64, op: &Op) -> Result<Turn, CoreError>
        requires reading { now ≤ LATEST }
        requires asked { may_ask op.now ≡ true }
        ensures done { IfOk result (TookTurn
            (after_event (client_acts now op.now (side_of self.old)) self.old) self.new) }
        ensures spent { (counter : TheCounter) → IsErrOf result (errors.Spent counter) →
            (client_acts now op.now (side_of self.old)).spent ≡ Some counter }
        ensures script { self.new.script ≡ self.old.script }
    {
        let ClientEvent {
            note,
            finished,
            packets,
        } = client_acts(
            alloc,
            now,
            self.session,
            op,
            &mut self.client,
            &mut self.post,
        )?;
        self.done = self.done.saturating_add(lines_done(&note));
        Ok(turn_of(
            alloc,
            self.peers.as_slice(),
            finished.as_slice(),
            packets,
            &mut self.admitted,
        )?)
    }

    /// The client takes its turn.
    fn turn(&mut self, alloc: Global, now: u64) -> Result<Turn, CoreError>
        requires reading { now ≤ LATEST }
        ensures done { IfOk result (TookTurn
            (after_event (client_turns now (side_of self.old)) self.old) self.new) }
        ensures spent { (counter : TheCounter) → IsErrOf result (errors.Spent counter) →
            (client_turns now (side_of self.old)).spent ≡ Some counter }
        ensures script { self.new.script ≡ self.old.script }
    {
        let ClientEvent {
            note,
            finished,
            packets,
        } = client_turns(alloc, now, self.session, &mut self.client, &mut self.post)?;
        self.done = self.done.saturating_add(lines_done(&note));
        Ok(turn_of(
            alloc,
            self.peers.as_slice(),
            finished.as_slice(),
            packets,
            &mut self.admitted,
        )?)
    }

    /// Whether something is left: a line of the script, an entry of the log, or an exchange.
    pub(crate) fn is_open(&self) -> bool
        ensures { result ≡ is_open self.now }
    {
        self.done < self.script.len() || self.client.entries() > 0 || self.client.waits()
    }
}

/// The client hears the packet. With what came of it stands how many lines of the script are done by it: all that it finished
/// left its log or was led, so it is those that did not leave the log.
fn hears(
    alloc: Global,
    now: u64,
    s: Session,
    from: Peer,
    p: &Packet,
    client: &mut ClientCore,
    post: &mut Post,
) -> Result<(ClientTold, usize), CoreError>
    requires reading { now ≤ LATEST }
    ensures done { IfOk result (λ told. ClientTook
        (client_told_all s now from p.now (record { client = client.old; post = post.old }))
        client.new post.new told.0) }
    ensures lines { IfOk result (λ told. told.1 ≡ sum_by lines_done
        (client_told_all s now from p.now
        (record { client = client.old; post = post.old })).notes) }
    ensures spent { (counter : TheCounter) → IsErrOf result (errors.Spent counter) →
        (client_told_all s now from p.now
        (record { client = client.old; post = post.old })).spent ≡ Some counter }
{
    let before = client.log().len();
    let told = client_told_all(alloc, now, s, from, p, client, post)?;
    let left = before - client.log().len();
    let lines = told.finished.len() - left;
    Ok((told, lines))
}

/// How many lines of the script are done where an event came to this.
fn lines_done(note: &Note) -> usize
    ensures { result ≡ lines_done note.now }
{
    match note {
        Note::Act(Act::Replied { .. } | Act::ReadNow { .. } | Act::NoIds { .. })
        | Note::Client(ClientNote::Led { .. }) => 1,
        _ => 0,
    }
}
