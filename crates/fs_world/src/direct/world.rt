//! The world of a direct schedule.
ghost use Rattle.std.specs.Prelude.{◌≡◌, ◌+◌, ◌<◌, [], ◌∷◌, true, IfOk, OnOk, OnErr, IsErrOf, IsSome, Some, None};
ghost use Rattle.std.specs.FinMap as map;

use crate::direct::counts::Counts;
use crate::direct::numbers::Numbers;
use crate::outcome::outcome;
use fs_ident::{List, Memory, Peer, Session, Twin, copy_two, zip_ok};
use fs_model::{Op, Space};
use fs_msg::{CoreError, Counter, Item, Note};
use fs_schedule::{Outcome, What};
use std::alloc::Global;

/// One namespace, the numbers that its directories give, what its sessions have asked for, and the journal.
#[derive(Drop)]
pub(crate) struct Direct {
    pub(crate) space: Space,
    pub(crate) next: Numbers,
    pub(crate) asked: Counts,
    pub(crate) journal: List<Item>,
}

impl Direct {
    ghost use Rattle.fs_msg.specs.declared.core_error.Counter.{Counter as TheCounter};
    ghost use Rattle.fs_msg.specs.declared.core_error.Counter.TheVariants.{Entries};
    ghost use Rattle.fs_msg.specs.declared.core_error.CoreError.TheVariants as errors;
    ghost use Rattle.fs_world.specs.Direct.{first_direct, step_of, join_at, do_at, answer_step, answer, is_spent, is_last};

    /// The root directory alone, and no session.
    pub(crate) fn new(alloc: Global) -> Result<Direct, Memory>
        ensures { IfOk result (λ w. w ≡ first_direct) }
    {
        Ok(Direct {
            space: Space::new(alloc)?,
            next: Numbers::new(alloc),
            asked: Counts::new(alloc),
            journal: List::new(alloc),
        })
    }

    /// One event.
    pub(crate) fn step(&mut self, alloc: Global, what: &What) -> Result<Outcome, CoreError>
        ensures outcome { IfOk result (λ o. o ≡ (step_of self.old what.now).outcome) }
        ensures world { OnOk result (self.new ≡ (step_of self.old what.now).world) }
        ensures spent { (counter : TheCounter) → IsErrOf result (errors.Spent counter) →
            (counter ≡ Entries) × (is_spent self.old what.now ≡ true) }
        ensures only { is_spent self.old what.now ≡ true → IsErrOf result (errors.Spent Entries) }
        ensures err { OnErr result (self.new ≡ self.old) }
    {
        match what {
            What::Join(s) => Ok(self.join(alloc, *s)?),
            What::Do(s, op) => self.act(alloc, *s, op),
            What::Tell(_) | What::Turn(_) | What::Recall(_, _) | What::Move { .. } => {
                Ok(outcome(alloc, None, Note::Nothing)?)
            }
        }
    }

    /// The session begins, if it has not.
    fn join(&mut self, alloc: Global, s: Session) -> Result<Outcome, Memory>
        ensures outcome { IfOk result (λ o. o ≡
            (join_at (map.get self.old.asked s.0) self.old s).outcome) }
        ensures world { OnOk result (self.new ≡
            (join_at (map.get self.old.asked s.0) self.old s).world) }
        ensures err { OnErr result (self.new ≡ self.old) }
    {
        if self.asked.get(s).is_some() {
            return outcome(alloc, None, Note::Nothing);
        }
        let joined = outcome(alloc, Some(Peer::Client(s)), Note::Joined)?;
        self.asked.set(s, 0)?;
        Ok(joined)
    }

    /// The session's operation, if it has joined.
    fn act(&mut self, alloc: Global, s: Session, op: &Op) -> Result<Outcome, CoreError>
        ensures outcome { IfOk result (λ o. o ≡
            (do_at (map.get self.old.asked s.0) self.old s op.now).outcome) }
        ensures world { OnOk result (self.new ≡
            (do_at (map.get self.old.asked s.0) self.old s op.now).world) }
        ensures spent { (counter : TheCounter) → IsErrOf result (errors.Spent counter) →
            (counter ≡ Entries) × (is_last (map.get self.old.asked s.0) ≡ true) }
        ensures only { is_last (map.get self.old.asked s.0) ≡ true →
            IsErrOf result (errors.Spent Entries) }
        ensures err { OnErr result (self.new ≡ self.old) }
    {
        let Some(before) = self.asked.get(s) else {
            return Ok(outcome(alloc, None, Note::Nothing)?);
        };
        if before == u64::MAX {
            return Err(CoreError::Spent {
                counter: Counter::Entries,
            });
        }
        Ok(self.answered(alloc, s, before + 1, op)?)
    }

    /// The session's operation of number `n`.
    fn answered(&mut self, alloc: Global, s: Session, n: u64, op: &Op) -> Result<Outcome, Memory>
        requires { IsSome (map.get self.old.asked s.0) }
        ensures outcome { IfOk result (λ o. o ≡
            (answer_step self.old s n (answer self.old.space self.old.next s op.now)).outcome) }
        ensures world { OnOk result (self.new ≡
            (answer_step self.old s n (answer self.old.space self.old.next s op.now)).world) }
        ensures err { OnErr result (self.new ≡ self.old) }
    {
        let mut answered = outcome(alloc, Some(Peer::Client(s)), Note::Nothing)?;
        let reply = self.answer(alloc, s, n, op)?;
        self.asked.raise(s, n);
        answered.notes.replace(0, Note::Answered { n, reply });
        Ok(answered)
    }
}

impl Twin for Direct {
    fn copy(&self, alloc: Global) -> Result<Direct, Memory> {
        let state = copy_two(alloc, &self.space, &self.next)?;
        let said = copy_two(alloc, &self.asked, &self.journal);
        let ((space, next), (asked, journal)) = zip_ok(state, said)?;
        Ok(Direct {
            space,
            next,
            asked,
            journal,
        })
    }

    fn discard(self) {
        drop(self);
    }
}
