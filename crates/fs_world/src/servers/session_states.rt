//! The sessions that have joined.
ghost use Rattle.std.specs.Prelude.{◌≡◌, ℕ, is_some, OnOk, OnErr};
ghost use Rattle.std.specs.FinMap as map;
ghost use Rattle.std.specs.Option.{option_copied_mut};
ghost use Rattle.fs_ident.specs.Maps.{numbered_map_of};
ghost use Rattle.fs_msg.specs.declared.answer.Answer.{Answer as TheAnswer};
ghost use Rattle.fs_world.specs.Served.{SessionStates as TheSessionStates, with_down_at, without_up};

use crate::by_session::{copy_all, discard_all, put};
use crate::servers::removals::remove_first;
use crate::servers::session_state::SessionState;
use fs_ident::{Memory, Session, Twin};
use fs_msg::Answer;
use std::alloc::Global;
use std::collections::BTreeMap;
use std::marker::Model;

/// What stands at each session that has joined.
pub(crate) struct SessionStates {
    sessions: BTreeMap<u16, SessionState>,
}

impl Model for SessionStates {
    ghost use Rattle.std.specs.FinMap as map;
    ghost use Rattle.std.specs.Ordering.{nat_cmp};
    ghost use Rattle.std.specs.Coded.{coded_ℕ};
    ghost use Rattle.fs_ident.specs.Maps.{numbered_map_of};
    ghost use Rattle.fs_world.specs.declared.servers.session_state.SessionState.{SessionState};
    ghost use Rattle.fs_world.specs.contracts.servers.session_state.SessionState as whole;

    ghost Value = { map.FinMap nat_cmp SessionState };

    ghost coded = { map.code coded_ℕ whole.the_row.coded };

    ghost view = { λ s. numbered_map_of s.sessions };
}

impl SessionStates {
    ghost use Rattle.std.specs.Borrow.{LendsIf, sem};
    ghost use Rattle.fs_world.specs.contracts.servers.session_state.SessionState as whole;
    ghost use Rattle.fs_world.specs.contracts.servers.session_states.SessionStates.{the_row};

    /// No session has joined.
    #[tactic(auto, unfolding(fs_ident::specs::Maps::numbered_map_of))]
    pub(crate) fn new(alloc: Global) -> SessionStates
        ensures { result ≡ map.empty }
    {
        SessionStates {
            sessions: BTreeMap::new(alloc),
        }
    }

    /// Whether the session has joined.
    pub(crate) fn has(&self, s: Session) -> bool
        ensures { result ≡ is_some (map.get self.now s.0) }
    {
        has_in(&self.sessions, s.0)
    }

    /// What stands at the session, to be changed there; None exactly where it has not joined.
    pub(crate) fn get_mut(&mut self, s: Session) -> Option<&mut SessionState>
        ensures* lends { sem 𝓛 (LendsIf the_row whole.the_row self.entry result
            (λ state. map.insert self.old s.0 state) self.old) }
        ensures value { option_copied_mut result ≡ map.get self.old s.0 }
    {
        self.sessions.get_mut(&s.0)
    }

    /// Puts what stands at a session, and gives up what stood there. When out of memory, this is given up.
    pub(crate) fn add(&mut self, s: Session, state: SessionState) -> Result<(), Memory>
        ensures ok { OnOk result (self.new ≡ map.insert self.old s.0 state) }
        ensures err { OnErr result (self.new ≡ self.old) }
    {
        put(&mut self.sessions, s.0, state)
    }

    /// One answer more is on its way to the session, if it has joined.
    #[tactic(auto, using(fs_ident::proofs::NumberedMaps::put_same))]
    pub(crate) fn push_down(&mut self, s: Session, m: (u8, Answer)) -> Result<(), Memory>
        ensures ok { OnOk result (self.new ≡
            with_down_at (map.get self.old s.0) s.0 m self.old) }
        ensures err { OnErr result (self.new ≡ self.old) }
    {
        match self.get_mut(s) {
            Some(state) => state.down.push(m),
            None => Ok(()),
        }
    }

    /// Undoes a `push_down`. Takes no memory.
    pub(crate) fn unpush_down(&mut self, s: Session)
        ensures { (sessions : TheSessionStates) (m : ℕ × TheAnswer) →
            self.old ≡ with_down_at (map.get sessions s.0) s.0 m sessions → self.new ≡ sessions }
    {
        match self.get_mut(s) {
            Some(state) => {
                let len = state.down.len();
                state.down.truncate(len.saturating_sub(1));
            }
            None => {}
        }
    }

    /// The first message on its way from the session to the server is no longer on its way. Takes no memory.
    pub(crate) fn pop_up(&mut self, s: Session, k: u8)
        ensures { self.new ≡ without_up k (map.get self.old s.0) s.0 self.old }
    {
        match self.get_mut(s) {
            Some(state) => remove_first(&mut state.up, k),
            None => {}
        }
    }
}

impl Twin for SessionStates {
    fn copy(&self, alloc: Global) -> Result<SessionStates, Memory> {
        Ok(SessionStates {
            sessions: copy_all(alloc, &self.sessions)?,
        })
    }

    fn discard(self) {
        let SessionStates { sessions } = self;
        discard_all(sessions);
    }
}

#[tactic(auto, using(fs_ident::proofs::MapsOf::numbered_maps))]
fn has_in(sessions: &BTreeMap<u16, SessionState>, session: u16) -> bool
    ensures { result ≡ is_some (map.get (numbered_map_of sessions.now) session) }
{
    sessions.get(&session).is_some()
}
