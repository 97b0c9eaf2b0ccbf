//! A packet that reaches its addressee.
ghost use Rattle.std.specs.Prelude.{◌≡◌, ◌≤◌, Some, IfOk, OnOk, OnErr, false, length, slice_get};
ghost use Rattle.std.specs.FinMap as map;
ghost use Rattle.fs_ident.specs.declared.limits.TheConstants.{LATEST};
ghost use Rattle.fs_window.specs.Peers.{same_peer};
ghost use Rattle.fs_window.specs.Post.{Links, post_accepted};
ghost use Rattle.fs_ident.specs.declared.actor.Peer.TheVariants.{Server};
ghost use Rattle.fs_server.specs.declared.state.Server.{Server as TheCore};
ghost use Rattle.fs_world.specs.Calls.{Spends, world_left};
ghost use Rattle.fs_world.specs.Linked.{IsLinked};
ghost use Rattle.fs_world.specs.Packets.{first_undelivered};
ghost use Rattle.fs_world.specs.Planned.{IsAnswered, WasSent};
ghost use Rattle.fs_world.specs.Served.{arrives, at_server, comes, server_receive_packet_at, tell, client_receive_packet_at};

use crate::outcome::outcome;
use crate::servers::clients::receive_packet;
use crate::servers::server_receive::server_receive_packet;
use crate::servers::world::Served;
use fs_ident::{Peer, Session};
use fs_msg::{CoreError, Note};
use fs_schedule::Outcome;
use fs_window::{Packet, read_packet};
use std::alloc::Global;

impl Served {
    /// The first packet that was not told, if there is one, reaches its addressee, at the reading in milliseconds.
    pub(crate) fn tell_next(&mut self, alloc: Global, now: u64) -> Result<Outcome, CoreError>
        requires reading { now ≤ LATEST }
        requires linked { IsLinked self.old }
        ensures done { IfOk result (λ outcome. world_left outcome self.new ≡
            tell now (first_undelivered self.old.packets.delivered) self.old) }
        ensures linked { OnOk result (IsLinked self.new) }
        ensures spends { Spends result
            (tell now (first_undelivered self.old.packets.delivered) self.old).spent }
        ensures err { OnErr result (self.new ≡ self.old) }
    {
        let next = self.packets.first_undelivered();
        self.tell(alloc, now, next)
    }

    /// The packet of that number, if it was sent, reaches its addressee, at the reading in milliseconds.
    pub(crate) fn tell(&mut self, alloc: Global, now: u64, k: u64) -> Result<Outcome, CoreError>
        requires reading { now ≤ LATEST }
        requires linked { IsLinked self.old }
        ensures done { IfOk result (λ outcome. world_left outcome self.new ≡ tell now k self.old) }
        ensures linked { OnOk result (IsLinked self.new) }
        ensures spends { Spends result (tell now k self.old).spent }
        ensures err { OnErr result (self.new ≡ self.old) }
    {
        let Some(sent) = self.packets.get(k) else {
            return Ok(outcome(alloc, None, Note::Nothing)?);
        };
        let (from, to) = (sent.from, sent.to);
        let packet = read_packet(alloc, sent.bytes.as_slice())?;
        let arrived = self.arrives(alloc, now, from, to, packet)?;
        self.packets.mark(k);
        Ok(arrived)
    }

    /// What was sent arrives: a packet, or other bytes.
    fn arrives(
        &mut self,
        alloc: Global,
        now: u64,
        from: Peer,
        to: Peer,
        packet: Option<Packet>,
    ) -> Result<Outcome, CoreError>
        requires reading { now ≤ LATEST }
        requires sent { WasSent from to packet self.old.packets.sent }
        requires linked { IsLinked self.old }
        ensures done { IfOk result (λ outcome. world_left outcome self.new ≡
            arrives now from to packet self.old) }
        ensures linked { OnOk result (IsLinked self.new) }
        ensures kept { OnOk result
            (length self.old.packets.sent ≤ length self.new.packets.sent) }
        ensures spends { Spends result (arrives now from to packet self.old).spent }
        ensures err { OnErr result (self.new ≡ self.old) }
    {
        match packet {
            None => Ok(outcome(alloc, Some(to), Note::Strange)?),
            Some(p) => self.comes(alloc, now, from, to, &p),
        }
    }

    /// A packet comes from one actor to another.
    fn comes(
        &mut self,
        alloc: Global,
        now: u64,
        from: Peer,
        to: Peer,
        p: &Packet,
    ) -> Result<Outcome, CoreError>
        requires reading { now ≤ LATEST }
        requires sent { WasSent from to (Some p.now) self.old.packets.sent }
        requires linked { IsLinked self.old }
        ensures done { IfOk result (λ outcome. world_left outcome self.new ≡
            comes now from to p.now self.old) }
        ensures linked { OnOk result (IsLinked self.new) }
        ensures spends { Spends result (comes now from to p.now self.old).spent }
        ensures err { OnErr result (self.new ≡ self.old) }
    {
        match (from, to) {
            (_, Peer::Server(k)) => self.server_receive_packet(alloc, now, k, from, p),
            (Peer::Server(k), Peer::Client(s)) => self.client_receive_packet(alloc, now, s, k, p),
            (Peer::Client(_), Peer::Client(_)) => Ok(outcome(alloc, None, Note::Nothing)?),
        }
    }

    /// A packet of the actor comes to the server of number `k`, if there is one.
    fn server_receive_packet(
        &mut self,
        alloc: Global,
        now: u64,
        k: u8,
        from: Peer,
        p: &Packet,
    ) -> Result<Outcome, CoreError>
        requires reading { now ≤ LATEST }
        requires apart { same_peer from (Server k) ≡ false }
        requires posts { length self.old.posts ≡ length self.old.servers }
        ensures done { IfOk result (λ outcome. world_left outcome self.new ≡
            server_receive_packet_at (slice_get self.old.servers k) (slice_get self.old.posts k)
            now k from p.now self.old) }
        ensures fits { (core : TheCore) (post : Links) →
            slice_get self.old.servers k ≡ Some core → slice_get self.old.posts k ≡ Some post →
            OnOk result (IsAnswered now from
            (post_accepted post from p.now).heard.joined
            (at_server core (post_accepted post from p.now).links self.old)) }
        ensures spends { Spends result
            (server_receive_packet_at (slice_get self.old.servers k) (slice_get self.old.posts k)
            now k from p.now self.old).spent }
        ensures err { OnErr result (self.new ≡ self.old) }
    {
        let at = k as usize;
        if at >= self.servers.len() {
            return Ok(outcome(alloc, None, Note::Nothing)?);
        }
        server_receive_packet(
            alloc,
            now,
            k,
            from,
            p,
            self.servers.at_mut(at),
            self.posts.at_mut(at),
            &mut self.sessions,
            &mut self.in_flight,
            &mut self.journal,
            &mut self.packets,
        )
    }

    /// A packet of the server of number `k` comes to the session, if it has joined.
    fn client_receive_packet(
        &mut self,
        alloc: Global,
        now: u64,
        s: Session,
        k: u8,
        p: &Packet,
    ) -> Result<Outcome, CoreError>
        requires reading { now ≤ LATEST }
        ensures done { IfOk result (λ outcome. world_left outcome self.new ≡
            client_receive_packet_at (map.get self.old.sessions s.0) now s k p.now self.old) }
        ensures spends { Spends result
            (client_receive_packet_at (map.get self.old.sessions s.0) now s k p.now
            self.old).spent }
        ensures err { OnErr result (self.new ≡ self.old) }
    {
        match self.sessions.get_mut(s) {
            Some(state) => receive_packet(
                alloc,
                now,
                s,
                k,
                p,
                state,
                &mut self.journal,
                &mut self.packets,
            ),
            None => Ok(outcome(alloc, None, Note::Nothing)?),
        }
    }
}
