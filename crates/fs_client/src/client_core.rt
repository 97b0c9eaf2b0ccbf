//! The core of a client as one value.
ghost use Rattle.std.specs.Prelude.{◌≡◌, ◌⊎◌, ◌≤◌, true, is_some, length, IfErr, IfOk, IsErrOf, OnOk, OnErr};
ghost use Rattle.std.specs.Option.{option_copied};
ghost use Rattle.fs_ident.specs.declared.limits.TheConstants.{LATEST, SESSIONS};
ghost use Rattle.fs_model.specs.Asking.{may_ask};
ghost use Rattle.fs_msg.specs.declared.core_error.Counter.{Counter as TheCounter};
ghost use Rattle.fs_msg.specs.declared.core_error.Counter.TheVariants.{Entries};
ghost use Rattle.fs_msg.specs.declared.core_error.CoreError.TheVariants as errors;
ghost use Rattle.fs_msg.specs.declared.limits.TheConstants.{LONGEST};
ghost use Rattle.fs_client.specs.Acts.{act_plan, is_act_spent};
ghost use Rattle.fs_client.specs.Answers.{answer_plan};
ghost use Rattle.fs_client.specs.Client.{can_commit, committed, first_client};
ghost use Rattle.fs_client.specs.Home.{first_home};
ghost use Rattle.fs_client.specs.Turns.{turn_plan};

use crate::home::first_home;
use crate::led::Led;
use crate::plan::{Plan, Ready};
use crate::state::Client;
use crate::{acts, answers, commits, turns};
use fs_ident::{FileId, List, Memory, Session, Twin};
use fs_map::FileMap;
use fs_model::Op;
use fs_msg::{Act, Answer, ClientNote, ClientOut, CoreError, Entry};
use fs_view::View;
use std::alloc::Global;
use std::marker::Model;

/// The client of one session. It answers what its leases tell, asks for what is missing where the servers said that it
/// is, and keeps a log of what they have not admitted yet. Every reading is in milliseconds, at most 10^15.
#[derive(Debug)]
pub struct ClientCore {
    client: Client,
}

impl Model for ClientCore {
    ghost use Rattle.fs_client.specs.declared.state.Client.{Client};
    ghost use Rattle.fs_client.specs.Client.{IsClient};

    ghost Value = { Client };

    ghost view = { λ c. c.client };

    ghost invariant = { λ c. IsClient c.client };
}

impl ClientCore {
    /// A client that has no lease and has answered nothing. `term` is how long the servers' leases last, in
    /// milliseconds.
    pub fn new(alloc: Global, session: Session, term: u64) -> Result<ClientCore, Memory>
        requires first { 1 ≤ session.0 }
        requires few { session.0 ≤ SESSIONS }
        requires some { 1 ≤ term }
        requires most { term ≤ LONGEST }
        ensures { IfOk result (λ c. c ≡ first_client session term) }
    {
        let hints = FileMap::new(alloc)?;
        Ok(ClientCore {
            client: Client {
                session,
                term,
                last: 0,
                view: View::new(alloc, session),
                log: List::new(alloc),
                exchange: None,
                led: None,
                hints,
                full: List::new(alloc),
                next: 1,
                over: None,
            },
        })
    }

    /// What the operation of the client's user comes to at the reading; nothing changes. `Spent` only where the
    /// operation's number, or how many entries use a lease, would rise above u64::MAX; there nothing but want of memory
    /// comes in its place.
    pub fn plan_act(&self, alloc: Global, now: u64, op: &Op) -> Result<Plan<Act>, CoreError>
        requires reading { now ≤ LATEST }
        requires asked { may_ask op.now ≡ true }
        ensures plan { IfOk result (λ p. p ≡ act_plan self.now now op.now) }
        ensures can { IfOk result (λ p. can_commit p.ready self.now ≡ true) }
        ensures spent { (counter : TheCounter) → IsErrOf result (errors.Spent counter) →
            (counter ≡ Entries) × (is_act_spent self.now now op.now ≡ true) }
        ensures only { is_act_spent self.now now op.now ≡ true →
            (IsErrOf result (errors.Spent Entries)) ⊎ (IsErrOf result errors.Memory) }
    {
        acts::plan(alloc, &self.client, now, op)
    }

    /// What the client's turn comes to at the reading; nothing changes.
    pub fn plan_turn(&self, alloc: Global, now: u64) -> Result<Plan<ClientNote>, Memory>
        requires { now ≤ LATEST }
        ensures plan { IfOk result (λ p. p ≡ turn_plan self.now now) }
        ensures can { IfOk result (λ p. can_commit p.ready self.now ≡ true) }
    {
        turns::plan(alloc, &self.client, now)
    }

    /// What an answer of that server comes to at the reading; nothing changes.
    pub fn plan_answer(
        &self,
        alloc: Global,
        now: u64,
        from: u8,
        a: &Answer,
    ) -> Result<Plan<ClientNote>, Memory>
        requires { now ≤ LATEST }
        ensures plan { IfOk result (λ p. p ≡ answer_plan self.now now from a.now) }
        ensures can { IfOk result (λ p. can_commit p.ready self.now ≡ true) }
    {
        answers::plan(alloc, &self.client, now, from, a)
    }

    /// Changes what a plan of this very client says. `Memory` when out of memory; nothing changed then.
    pub fn commit(&mut self, alloc: Global, ready: Ready) -> Result<(), Memory>
        requires { can_commit ready self.old ≡ true }
        ensures ok { OnOk result (self.new ≡ committed ready self.old) }
        ensures err { OnErr result (self.new ≡ self.old) }
    {
        commits::commit(alloc, &mut self.client, ready)
    }

    /// What the operation of the client's user comes to at the reading, and that is done. `Spent` only where the
    /// operation's number, or how many entries use a lease, would rise above u64::MAX; there nothing but want of memory
    /// comes in its place. Nothing changed after an error.
    pub fn act(&mut self, alloc: Global, now: u64, op: &Op) -> Result<ClientOut<Act>, CoreError>
        requires reading { now ≤ LATEST }
        requires asked { may_ask op.now ≡ true }
        ensures out { IfOk result (λ out. out ≡ (act_plan self.old now op.now).out) }
        ensures client { OnOk result (self.new ≡
            committed (act_plan self.old now op.now).ready self.old) }
        ensures spent { (counter : TheCounter) → IsErrOf result (errors.Spent counter) →
            (counter ≡ Entries) × (is_act_spent self.old now op.now ≡ true) }
        ensures only { is_act_spent self.old now op.now ≡ true →
            (IsErrOf result (errors.Spent Entries)) ⊎ (IsErrOf result errors.Memory) }
        ensures err { OnErr result (self.new ≡ self.old) }
    {
        let Plan { ready, out } = self.plan_act(alloc, now, op)?;
        self.commit(alloc, ready)?;
        Ok(out)
    }

    /// What the client's turn comes to at the reading, and that is done. No counter rises, so `Spent` never comes;
    /// nothing changed after an error.
    pub fn turn(&mut self, alloc: Global, now: u64) -> Result<ClientOut<ClientNote>, CoreError>
        requires { now ≤ LATEST }
        ensures out { IfOk result (λ out. out ≡ (turn_plan self.old now).out) }
        ensures client { OnOk result (self.new ≡
            committed (turn_plan self.old now).ready self.old) }
        ensures memory { IfErr result (λ e. e ≡ errors.Memory) }
        ensures err { OnErr result (self.new ≡ self.old) }
    {
        let Plan { ready, out } = self.plan_turn(alloc, now)?;
        self.commit(alloc, ready)?;
        Ok(out)
    }

    /// What an answer of that server comes to at the reading, and that is done. No counter rises, so `Spent` never
    /// comes; nothing changed after an error.
    pub fn on_answer(
        &mut self,
        alloc: Global,
        now: u64,
        from: u8,
        a: &Answer,
    ) -> Result<ClientOut<ClientNote>, CoreError>
        requires { now ≤ LATEST }
        ensures out { IfOk result (λ out. out ≡ (answer_plan self.old now from a.now).out) }
        ensures client { OnOk result (self.new ≡
            committed (answer_plan self.old now from a.now).ready self.old) }
        ensures memory { IfErr result (λ e. e ≡ errors.Memory) }
        ensures err { OnErr result (self.new ≡ self.old) }
    {
        let Plan { ready, out } = self.plan_answer(alloc, now, from, a)?;
        self.commit(alloc, ready)?;
        Ok(out)
    }

    /// How many entries the log has.
    pub fn entries(&self) -> u64
        ensures { result ≡ length self.now.log }
    {
        self.client.log.len() as u64
    }

    /// What was answered and is not known to be admitted, in order.
    pub fn log(&self) -> &[Entry]
        ensures { result.now ≡ self.now.log }
    {
        self.client.log.as_slice()
    }

    /// The operation that a server was asked to lead, until it has ended.
    pub fn led(&self) -> Option<&Led>
        ensures { option_copied result ≡ self.now.led }
    {
        self.client.led.as_ref()
    }

    /// The file at whose server the first entry of the log is handed in; none where there is no entry.
    pub fn first_home(&self) -> Option<&FileId>
        ensures { option_copied result ≡ first_home self.now.log }
    {
        first_home(self.client.log.as_slice())
    }

    /// The entry that was refused.
    pub fn over(&self) -> Option<u64>
        ensures { result ≡ self.now.over }
    {
        self.client.over
    }

    /// Whether a question stands that has no answer yet.
    pub fn waits(&self) -> bool
        ensures { result ≡ is_some self.now.exchange }
    {
        self.client.exchange.is_some()
    }

    /// Spends every lease.
    pub fn discard(self) {
        let ClientCore { client } = self;
        client.discard();
    }
}

impl Twin for ClientCore {
    fn copy(&self, alloc: Global) -> Result<ClientCore, Memory> {
        Ok(ClientCore {
            client: self.client.copy(alloc)?,
        })
    }

    fn discard(self) {
        ClientCore::discard(self)
    }
}
