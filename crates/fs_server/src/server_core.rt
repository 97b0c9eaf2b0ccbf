//! The core of a server as one value.
ghost use Rattle.std.specs.Prelude.{◌≡◌, ◌<◌, ◌≤◌, ◌⊎◌, IfOk, OnOk, OnErr, IsErrOf, Some};
ghost use Rattle.fs_ident.specs.declared.limits.TheConstants.{LATEST};
ghost use Rattle.fs_msg.specs.declared.core_error.Counter.{Counter as TheCounter};
ghost use Rattle.fs_msg.specs.declared.core_error.CoreError.TheVariants as errors;
ghost use Rattle.fs_msg.specs.declared.limits.TheConstants.{LONGEST, SERVERS};

use crate::all_rows::AllRows;
use crate::at_reading::AtReading;
use crate::commits::commit;
use crate::decide::{Decided, decide};
use crate::event::ServerEvent;
use crate::out::ServerOut;
use crate::plan::Plan;
use crate::state::Server;
use fs_ident::{List, Memory, Twin};
use fs_map::FileMap;
use fs_msg::CoreError;
use fs_path::Paths;
use fs_record::Records;
use std::alloc::Global;
use std::marker::Model;

/// A server of the service, which takes one event after another.
#[derive(Drop)]
pub struct ServerCore {
    server: Server,
}

impl Model for ServerCore {
    ghost use Rattle.fs_server.specs.declared.state.Server.{Server};
    ghost use Rattle.fs_server.specs.contracts.state.Server as whole;
    ghost use Rattle.fs_server.specs.Plan.{IsServer};

    ghost Value = { Server };

    ghost coded = { whole.the_row.coded };

    ghost view = { λ s. s.server };

    ghost invariant = { λ s. IsServer s.server };
}

impl ServerCore {
    ghost use Rattle.fs_server.specs.Plan.{CanCommit, committed};
    ghost use Rattle.fs_server.specs.Server.{first_server};
    ghost use Rattle.fs_server.specs.Step.{CanBeTold, spent_by, step};
    ghost use Rattle.fs_map.specs.Map.{IsMap};
    ghost use Rattle.fs_record.specs.Records.{AreRecords};

    /// A server before its first event: its number, by how much two clocks may differ, and for how long it gives a
    /// lease, both in milliseconds. Server 0 has the root directory and manages everything, as each of them knows.
    pub fn new(alloc: Global, me: u8, skew: u64, term: u64) -> Result<ServerCore, Memory>
        requires few { me < SERVERS }
        requires skew { skew ≤ LONGEST }
        requires some { 1 ≤ term }
        requires term { term ≤ LONGEST }
        ensures { IfOk result (λ s. s ≡ first_server me skew term) }
    {
        Ok(ServerCore {
            server: Server {
                me,
                skew,
                term,
                last: 0,
                given: 0,
                reaps: 0,
                txns: 0,
                rows: AllRows::new(alloc),
                records: Records::new(alloc, me == 0)?,
                map: FileMap::new(alloc)?,
                prepared: List::new(alloc),
                leading: List::new(alloc),
                ending: List::new(alloc),
                paths: Paths::new(alloc),
                asking: List::new(alloc),
                paths_given: 0,
            },
        })
    }

    /// What the event at the reading `now`, in milliseconds, comes to; nothing is changed. `Spent` where a lease,
    /// a reap, a transaction or a path lease would have a number above u64::MAX, and only there.
    pub fn plan(&self, alloc: Global, now: u64, ev: &ServerEvent) -> Result<Plan, CoreError>
        requires reading { now ≤ LATEST }
        requires told { CanBeTold ev.now }
        ensures out { IfOk result (λ p. p.out ≡ (step self.now now ev.now).out) }
        ensures server { IfOk result (λ p. committed p self.now ≡
            (step self.now now ev.now).server) }
        ensures can { IfOk result (λ p. CanCommit p self.now) }
        ensures spent { (counter : TheCounter) → IsErrOf result (errors.Spent counter) →
            spent_by self.now now ev.now ≡ Some counter }
        ensures only { (counter : TheCounter) → spent_by self.now now ev.now ≡ Some counter →
            IsErrOf result (errors.Spent counter) ⊎ IsErrOf result errors.Memory }
    {
        let at = AtReading::at(&self.server, now);
        let Decided { change, out } = decide(alloc, &at, ev)?;
        Ok(Plan::new(now, change, out))
    }

    /// Carries out a plan of this very server, all of it. `Memory` when out of memory; the server is as it was
    /// then.
    pub fn commit(&mut self, alloc: Global, plan: Plan) -> Result<(), Memory>
        requires { CanCommit plan self.old }
        ensures ok { OnOk result (self.new ≡ committed plan self.old) }
        ensures err { OnErr result (self.new ≡ self.old) }
    {
        let (now, change, _) = plan.into_parts();
        commit(alloc, &mut self.server, now, change)
    }

    /// One event at the reading `now`, in milliseconds. `Spent` where a lease, a reap, a transaction or a path lease would have a
    /// number above u64::MAX, and only there. After an error the server is as it was.
    pub fn step(
        &mut self,
        alloc: Global,
        now: u64,
        ev: &ServerEvent,
    ) -> Result<ServerOut, CoreError>
        requires reading { now ≤ LATEST }
        requires told { CanBeTold ev.now }
        ensures out { IfOk result (λ out. out ≡ (step self.old now ev.now).out) }
        ensures server { OnOk result (self.new ≡ (step self.old now ev.now).server) }
        ensures spent { (counter : TheCounter) → IsErrOf result (errors.Spent counter) →
            spent_by self.old now ev.now ≡ Some counter }
        ensures only { (counter : TheCounter) → spent_by self.old now ev.now ≡ Some counter →
            IsErrOf result (errors.Spent counter) ⊎ IsErrOf result errors.Memory }
        ensures err { OnErr result (self.new ≡ self.old) }
    {
        let plan = self.plan(alloc, now, ev)?;
        let (now, change, out) = plan.into_parts();
        commit(alloc, &mut self.server, now, change)?;
        Ok(out)
    }

    /// The records of the server's files.
    pub fn records(&self) -> &Records
        ensures records { result.now ≡ self.now.records }
        ensures valid { AreRecords self.now.records }
    {
        self.server.known_records()
    }

    /// Which server manages which files, as far as this one knows.
    pub fn map(&self) -> &FileMap
        ensures map { result.now ≡ self.now.map }
        ensures valid { IsMap self.now.map }
    {
        self.server.known_map()
    }
}

impl Twin for ServerCore {
    fn copy(&self, alloc: Global) -> Result<ServerCore, Memory> {
        Ok(ServerCore {
            server: self.server.copy(alloc)?,
        })
    }

    fn discard(self) {
        drop(self);
    }
}
