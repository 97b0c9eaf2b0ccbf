//! The world of a schedule of the servers form.
ghost use Rattle.std.specs.Prelude.{◌≡◌, ◌<◌, ◌≤◌, length, true, IfOk, OnOk, OnErr, false};
ghost use Rattle.std.specs.FinMap as map;
ghost use Rattle.fs_ident.specs.declared.limits.TheConstants.{LATEST, SESSIONS};
ghost use Rattle.fs_msg.specs.declared.limits.TheConstants.{LONGEST, SERVERS};
ghost use Rattle.fs_serial.specs.Cluster.{first_servers};
ghost use Rattle.fs_serial.specs.World.{is_called};
ghost use Rattle.fs_server.specs.declared.event.ServerEvent.TheVariants.{Move as TheMove, Recall as TheRecall};
ghost use Rattle.fs_world.specs.Calls.{Spends, world_left};
ghost use Rattle.fs_world.specs.Linked.{IsLinked};
ghost use Rattle.fs_world.specs.Served.{do_at, first_posts, first_served, join_at, server_step, step_of, turn_at};
ghost use Rattle.fs_world.specs.Planned.{IsOwn};
ghost use Rattle.fs_world.specs.World.{FitsServed};

use crate::outcome::outcome;
use crate::servers::clients::{acts, turns};
use crate::servers::packets::Packets;
use crate::servers::server_events::core_step;
use crate::servers::session_state::SessionState;
use crate::servers::session_states::SessionStates;
use crate::servers::term::Term;
use fs_field::Field;
use fs_ident::{FileId, List, Memory, Peer, Session, Twin, copy_three, zip_ok};
use fs_model::Op;
use fs_msg::{CoreError, Item, Note};
use fs_schedule::{Outcome, What};
use fs_serial::InFlight;
use fs_server::{ServerCore, ServerEvent};
use fs_window::{LINK_WIDTH, Post};
use std::alloc::Global;

/// Servers with their links, in order of number, the sessions that have joined, the messages on their way between servers, in
/// order of sending, the journal, and the packets that were sent.
pub(crate) struct Served {
    pub(crate) servers: List<ServerCore>,
    pub(crate) posts: List<Post>,
    /// How long a lease lasts.
    pub(crate) term: Term,
    pub(crate) sessions: SessionStates,
    pub(crate) in_flight: List<InFlight>,
    pub(crate) journal: List<Item>,
    pub(crate) packets: Packets,
}

impl Served {
    /// A world before its first event: how many servers there are, by how much two clocks may differ, and how long a lease
    /// lasts, both in milliseconds.
    pub(crate) fn new(alloc: Global, servers: u8, skew: u64, term: u64) -> Result<Served, Memory>
        requires one { 1 ≤ servers }
        requires few { servers ≤ SERVERS }
        requires skew { skew ≤ LONGEST }
        requires some { 1 ≤ term }
        requires most { term ≤ LONGEST }
        ensures world { IfOk result (λ w. w ≡ first_served servers skew term) }
        ensures linked { IfOk result (λ w. IsLinked w) }
    {
        Ok(Served {
            servers: new_servers(alloc, servers, skew, term)?,
            posts: new_posts(alloc, servers)?,
            term: Term::new(term),
            sessions: SessionStates::new(alloc),
            in_flight: List::new(alloc),
            journal: List::new(alloc),
            packets: Packets::new(alloc),
        })
    }

    /// One event, at the reading in milliseconds. After an error the world is as it was.
    pub(crate) fn step(
        &mut self,
        alloc: Global,
        now: u64,
        what: &What,
    ) -> Result<Outcome, CoreError>
        requires reading { now ≤ LATEST }
        requires fits { FitsServed (length self.old.servers) what.now }
        requires linked { IsLinked self.old }
        ensures done { IfOk result (λ outcome. world_left outcome self.new ≡
            step_of self.old now what.now) }
        ensures linked { OnOk result (IsLinked self.new) }
        ensures spends { Spends result (step_of self.old now what.now).spent }
        ensures err { OnErr result (self.new ≡ self.old) }
    {
        match what {
            What::Join(s) => Ok(self.join(alloc, *s)?),
            What::Do(s, op) => self.act(alloc, now, *s, op),
            What::Tell(None) => self.tell_next(alloc, now),
            What::Tell(Some(k)) => self.tell(alloc, now, *k),
            What::Turn(Peer::Client(s)) => self.client_turn(alloc, now, *s),
            What::Turn(Peer::Server(k)) => {
                self.server_step(alloc, *k, true, now, &ServerEvent::Turn)
            }
            What::Recall(k, field) => self.recall(alloc, now, *k, field),
            What::Move { at, prefix, to } => self.hand_over(alloc, now, *at, prefix, *to),
        }
    }

    /// The session begins, if it has not.
    fn join(&mut self, alloc: Global, s: Session) -> Result<Outcome, Memory>
        requires first { 1 ≤ s.0 }
        requires few { s.0 ≤ SESSIONS }
        requires linked { IsLinked self.old }
        ensures done { IfOk result (λ outcome. world_left outcome self.new ≡
            join_at (map.get self.old.sessions s.0) s self.old) }
        ensures linked { OnOk result (IsLinked self.new) }
        ensures err { OnErr result (self.new ≡ self.old) }
    {
        if self.sessions.has(s) {
            return outcome(alloc, None, Note::Nothing);
        }
        let joined = outcome(alloc, Some(Peer::Client(s)), Note::Joined)?;
        self.sessions
            .add(s, SessionState::new(alloc, s, &self.term)?)?;
        Ok(joined)
    }

    /// The session's operation, if it has joined.
    fn act(&mut self, alloc: Global, now: u64, s: Session, op: &Op) -> Result<Outcome, CoreError>
        requires reading { now ≤ LATEST }
        requires called { is_called op.now ≡ true }
        requires linked { IsLinked self.old }
        ensures done { IfOk result (λ outcome. world_left outcome self.new ≡
            do_at (map.get self.old.sessions s.0) now s op.now self.old) }
        ensures linked { OnOk result (IsLinked self.new) }
        ensures spends { Spends result
            (do_at (map.get self.old.sessions s.0) now s op.now self.old).spent }
        ensures err { OnErr result (self.new ≡ self.old) }
    {
        match self.sessions.get_mut(s) {
            Some(state) => acts(
                alloc,
                now,
                s,
                op,
                state,
                &mut self.journal,
                &mut self.packets,
            ),
            None => Ok(outcome(alloc, None, Note::Nothing)?),
        }
    }

    /// The turn of the session's client, if it has joined.
    fn client_turn(&mut self, alloc: Global, now: u64, s: Session) -> Result<Outcome, CoreError>
        requires reading { now ≤ LATEST }
        requires linked { IsLinked self.old }
        ensures done { IfOk result (λ outcome. world_left outcome self.new ≡
            turn_at (map.get self.old.sessions s.0) now s self.old) }
        ensures linked { OnOk result (IsLinked self.new) }
        ensures spends { Spends result
            (turn_at (map.get self.old.sessions s.0) now s self.old).spent }
        ensures err { OnErr result (self.new ≡ self.old) }
    {
        match self.sessions.get_mut(s) {
            Some(state) => turns(alloc, now, s, state, &mut self.journal, &mut self.packets),
            None => Ok(outcome(alloc, None, Note::Nothing)?),
        }
    }

    /// The server of number `k` asks for the leases on the field.
    fn recall(
        &mut self,
        alloc: Global,
        now: u64,
        k: u8,
        field: &Field,
    ) -> Result<Outcome, CoreError>
        requires reading { now ≤ LATEST }
        requires there { k < length self.old.servers }
        requires linked { IsLinked self.old }
        ensures done { IfOk result (λ outcome. world_left outcome self.new ≡
            server_step k false now (TheRecall field.now) self.old) }
        ensures linked { OnOk result (IsLinked self.new) }
        ensures spends { Spends result
            (server_step k false now (TheRecall field.now) self.old).spent }
        ensures err { OnErr result (self.new ≡ self.old) }
    {
        let event = ServerEvent::Recall(field.copy(alloc)?);
        self.server_step(alloc, k, false, now, &event)
    }

    /// The server of number `k` is to hand over what it manages below the prefix.
    fn hand_over(
        &mut self,
        alloc: Global,
        now: u64,
        k: u8,
        prefix: &FileId,
        to: u8,
    ) -> Result<Outcome, CoreError>
        requires reading { now ≤ LATEST }
        requires there { k < length self.old.servers }
        requires other { to < length self.old.servers }
        requires linked { IsLinked self.old }
        ensures done { IfOk result (λ outcome. world_left outcome self.new ≡
            server_step k false now (TheMove prefix.now to) self.old) }
        ensures linked { OnOk result (IsLinked self.new) }
        ensures spends { Spends result
            (server_step k false now (TheMove prefix.now to) self.old).spent }
        ensures err { OnErr result (self.new ≡ self.old) }
    {
        let event = ServerEvent::Move {
            prefix: prefix.copy(alloc)?,
            to,
        };
        self.server_step(alloc, k, false, now, &event)
    }

    /// An event of the server of number `k`, of its own.
    fn server_step(
        &mut self,
        alloc: Global,
        k: u8,
        turn: bool,
        now: u64,
        event: &ServerEvent,
    ) -> Result<Outcome, CoreError>
        requires reading { now ≤ LATEST }
        requires there { k < length self.old.servers }
        requires own { IsOwn (length self.old.servers) event.now }
        requires linked { IsLinked self.old }
        ensures done { IfOk result (λ outcome. world_left outcome self.new ≡
            server_step k turn now event.now self.old) }
        ensures linked { OnOk result (IsLinked self.new) }
        ensures spends { Spends result (server_step k turn now event.now self.old).spent }
        ensures err { OnErr result (self.new ≡ self.old) }
    {
        let at = k as usize;
        let core = self.servers.at_mut(at);
        core_step(
            alloc,
            k,
            turn,
            None,
            now,
            event,
            core,
            self.posts.at_mut(at),
            &mut self.sessions,
            &mut self.in_flight,
            &mut self.journal,
            &mut self.packets,
        )
    }
}

impl Twin for Served {
    fn copy(&self, alloc: Global) -> Result<Served, Memory> {
        let actors = copy_three(alloc, &self.servers, &self.posts, &self.term)?;
        let said = copy_three(alloc, &self.in_flight, &self.journal, &self.packets);
        let parts = zip_ok(actors, said)?;
        let (((servers, posts, term), (in_flight, journal, packets)), sessions) = zip_ok(
            parts,
            self.sessions.copy(alloc),
        )?;
        Ok(Served {
            sessions,
            servers,
            posts,
            term,
            in_flight,
            journal,
            packets,
        })
    }

    fn discard(self) {
        let Served {
            servers: _,
            posts: _,
            term: _,
            sessions,
            in_flight: _,
            journal: _,
            packets: _,
        } = self;
        sessions.discard();
    }
}

/// So many new servers.
fn new_servers(alloc: Global, count: u8, skew: u64, term: u64) -> Result<List<ServerCore>, Memory>
    requires few { count ≤ SERVERS }
    requires skew { skew ≤ LONGEST }
    requires some { 1 ≤ term }
    requires most { term ≤ LONGEST }
    ensures { IfOk result (λ servers. servers ≡ first_servers count skew term) }
{
    let mut servers = List::new(alloc);
    for me in 0..count {
        servers.push(ServerCore::new(alloc, me, skew, term)?)?;
    }
    Ok(servers)
}

/// The links of so many servers.
fn new_posts(alloc: Global, count: u8) -> Result<List<Post>, Memory>
    ensures { IfOk result (λ posts. posts ≡ first_posts count) }
{
    let mut posts = List::new(alloc);
    for me in 0..count {
        posts.push(Post::new(alloc, Peer::Server(me), LINK_WIDTH)?)?;
    }
    Ok(posts)
}
