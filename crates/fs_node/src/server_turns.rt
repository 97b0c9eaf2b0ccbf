//! The turns of a server's node.
ghost use Rattle.std.specs.Prelude.{◌≡◌, ◌≤◌, ◌+◌, ◌<◌, ◌^◌, Bool, None, Some, IfOk, IsErrOf, OnErr};
ghost use Rattle.fs_actor.specs.Actor.{server_steps};
ghost use Rattle.fs_actor.specs.Several.{server_told_all};
ghost use Rattle.fs_ident.specs.declared.limits.TheConstants.{LATEST};
ghost use Rattle.fs_msg.specs.declared.core_error.Counter.{Counter as TheCounter};
ghost use Rattle.fs_msg.specs.declared.core_error.CoreError.TheVariants as errors;
ghost use Rattle.fs_node.specs.ServerNode.{after_event, after_run, is_open, server_at, server_idles, server_takes, side_of};
ghost use Rattle.fs_node.specs.Turns.{TookTurn};
ghost use Rattle.fs_server.specs.Step.{CanBeTold};

use crate::arrival::Arrival;
use crate::scripts::event_by;
use crate::server_state::ServerState;
use crate::turns::turn_of;
use fs_actor::{ServerTold, server_steps, server_told_all};
use fs_ident::Peer;
use fs_msg::CoreError;
use fs_server::ServerEvent;
use fs_turns::Turn;
use fs_window::Packet;
use std::alloc::Global;

impl ServerState {
    /// A turn at the reading, in milliseconds, with what arrived.
    pub(crate) fn take(
        &mut self,
        alloc: Global,
        now: u64,
        arrival: Arrival,
    ) -> Result<Turn, CoreError>
        requires reading { now ≤ LATEST }
        ensures done { IfOk result (TookTurn (server_at now arrival self.old) self.new) }
        ensures spent { (counter : TheCounter) → IsErrOf result (errors.Spent counter) →
            (server_at now arrival self.old).spent ≡ Some counter }
    {
        match arrival {
            Arrival::Came(from, p) => self.told(alloc, now, from, &p),
            Arrival::Dropped => {
                self.dropped = self.dropped.saturating_add(1);
                self.idle(alloc, now)
            }
            Arrival::Quiet => self.idle(alloc, now),
        }
    }

    /// A packet of another actor came.
    fn told(&mut self, alloc: Global, now: u64, from: Peer, p: &Packet) -> Result<Turn, CoreError>
        requires reading { now ≤ LATEST }
        ensures done { IfOk result (TookTurn
            (after_run (server_told_all now from p.now (side_of self.old)) self.old) self.new) }
        ensures spent { (counter : TheCounter) → IsErrOf result (errors.Spent counter) →
            (server_told_all now from p.now (side_of self.old)).spent ≡ Some counter }
    {
        let ServerTold { admitted, packets } = server_told_all(
            alloc,
            now,
            from,
            p,
            &mut self.server,
            &mut self.post,
        )?;
        Ok(turn_of(
            alloc,
            self.peers.as_slice(),
            admitted.as_slice(),
            packets,
            &mut self.admitted,
        )?)
    }

    /// No packet came: a line of the script is taken, or the server takes its turn.
    fn idle(&mut self, alloc: Global, now: u64) -> Result<Turn, CoreError>
        requires reading { now ≤ LATEST }
        ensures done { IfOk result (TookTurn (server_idles now self.old) self.new) }
        ensures spent { (counter : TheCounter) → IsErrOf result (errors.Spent counter) →
            (server_idles now self.old).spent ≡ Some counter }
    {
        let odd = self.odd;
        self.odd = !odd;
        if !odd {
            return self.steps(alloc, now, true, &ServerEvent::Turn);
        }
        match event_by(alloc, self.script.as_slice(), self.taken)? {
            Some(event) => {
                self.taken += 1;
                self.steps(alloc, now, false, &event)
            }
            None => self.steps(alloc, now, true, &ServerEvent::Turn),
        }
    }

    /// An event of the server's own, on its turn or not.
    fn steps(
        &mut self,
        alloc: Global,
        now: u64,
        turn: bool,
        event: &ServerEvent,
    ) -> Result<Turn, CoreError>
        requires reading { now ≤ LATEST }
        requires told { CanBeTold event.now }
        ensures done { IfOk result (TookTurn
            (after_event (server_steps turn None now event.now (side_of self.old)) self.old)
            self.new) }
        ensures spent { (counter : TheCounter) → IsErrOf result (errors.Spent counter) →
            (server_steps turn None now event.now (side_of self.old)).spent ≡ Some counter }
    {
        let ServerTold { admitted, packets } = server_steps(
            alloc,
            now,
            turn,
            None,
            event,
            &mut self.server,
            &mut self.post,
        )?;
        Ok(turn_of(
            alloc,
            self.peers.as_slice(),
            admitted.as_slice(),
            packets,
            &mut self.admitted,
        )?)
    }

    /// Whether a line of the script is not taken.
    pub(crate) fn is_open(&self) -> bool
        ensures { result ≡ is_open self.now }
    {
        self.taken < self.script.len()
    }
}
