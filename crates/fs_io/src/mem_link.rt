//! A link in memory whose calls fail as planned.
ghost use Rattle.std.specs.Prelude.{◌≡◌, ◌↔◌, drop, ◌<◌, ◌≤◌, ℕ, [], true, length, map, slice_get, Some, IfOk, IfSome, IsErr, OnOk, OnErr, MatchResult};
ghost use Rattle.fs_io.specs.Calls.{bind_made, receive_made, send_made, Receives};
ghost use Rattle.fs_io.specs.Faults.{HasCause};
ghost use Rattle.fs_io.specs.Links.{waiting_told, calls_told, after_fault, after_kept, after_next, fails_at, room_wanted};
ghost use Rattle.fs_io.specs.Told.{Adds, IsAsTold, StillTold};

use crate::addr::Addr;
use crate::call::{Call, CallKind};
use crate::failed::Failed;
use crate::fault_plan::FaultPlan;
use crate::link::Link;
use crate::sure_link::SureLink;
use fs_ident::{List, Memory};
use std::alloc::Global;
use std::marker::Model;

/// Datagrams in memory that wait, the calls made so far with room for further ones, and which calls are to fail. A call that
/// failed as planned is kept too, and takes nothing; once a call found no room, the link tells nothing any more.
#[derive(Debug, Drop)]
pub struct MemLink {
    link: SureLink,
    plan: FaultPlan,
}

impl Model for MemLink {
    ghost use Rattle.fs_io.specs.Links.{PlannedLink};

    ghost Value = { PlannedLink };

    ghost view = { λ m. record { link = m.link; plan = m.plan } };
}

impl MemLink {
    /// A link at which these datagrams wait, with room for so many calls, which it takes now. `fails` holds the numbers of the calls,
    /// from 1, that are to fail.
    pub fn new(
        alloc: Global,
        waiting: Vec<(Addr, List<u8>)>,
        calls: usize,
        fails: Vec<u64>,
    ) -> Result<MemLink, Memory>
        ensures link { IfOk result (λ l. l.link ≡
            record {
              waiting = waiting.items;
              kept = record { made = []; room = calls };
              faults = 0;
              told = true;
            }) }
        ensures plan { IfOk result (λ l. l.plan ≡
            record { fails = fails.items; calls = 0; faults = 0 }) }
    {
        Ok(MemLink {
            link: SureLink::new(alloc, waiting, calls)?,
            plan: FaultPlan::new(fails),
        })
    }

    /// The calls that were kept, in order.
    pub fn calls(&self) -> &[Call]
        ensures { result.now ≡ map (λ m. m.call) self.now.link.kept.made }
    {
        self.link.calls()
    }

    /// The bytes of a call that was kept: of a send the piece, of a receive what it gave.
    pub fn bytes(&self, k: usize) -> &[u8]
        requires { k < length self.now.link.kept.made }
        ensures { slice_get (map (λ m. m.bytes) self.now.link.kept.made) k ≡ Some result.now }
    {
        self.link.bytes(k)
    }
}

impl Link for MemLink {
    ghost waiting = { λ l. waiting_told l.link };

    ghost calls = { λ l. calls_told l.link };

    ghost faults = { λ l. l.link.faults };

    fn bind(&mut self, at: Addr) -> Result<(), Failed>
        ensures waiting { IsAsTold (waiting_told self.old.link) (waiting_told self.new.link) }
        ensures call { Adds (calls_told self.old.link) (calls_told self.new.link)
            (bind_made at result) }
        ensures told_waiting { OnOk result
            (StillTold (waiting_told self.old.link) (waiting_told self.new.link)) }
        ensures told_calls { OnOk result
            (StillTold (calls_told self.old.link) (calls_told self.new.link)) }
        ensures cause { HasCause self.old.link.faults self.new.link.faults result }
        ensures plan { self.new.plan ≡ after_next self.old.plan }
        ensures failed { IsErr result ↔ (fails_at self.old 0 ≡ true) }
        ensures fault { OnErr result (self.new.link ≡
            after_fault self.old (bind_made at result)) }
        ensures kept { OnOk result (self.new.link ≡
            after_kept self.old.link self.old.link.waiting (bind_made at result)) }
    {
        if self.plan.next() {
            let call = Call {
                what: CallKind::Bind,
                addr: Some(at),
                size: 0,
                len: 0,
                failed: true,
            };
            self.link.fail(call, &[]);
            return Err(Failed);
        }
        self.link.bind(at)
    }

    fn receive(&mut self, buf: &mut [u8]) -> Result<Option<(Addr, usize)>, Failed>
        ensures bound { IfOk result (λ got. IfSome got (λ d. d.1 ≤ length buf.new)) }
        ensures waiting { MatchResult result
            (λ got. Receives (waiting_told self.old.link) (waiting_told self.new.link) got buf.new)
            (λ _. IsAsTold (waiting_told self.old.link) (waiting_told self.new.link)) }
        ensures call { Adds (calls_told self.old.link) (calls_told self.new.link)
            (receive_made result buf.new) }
        ensures told_waiting { OnOk result
            (StillTold (waiting_told self.old.link) (waiting_told self.new.link)) }
        ensures told_calls { OnOk result
            (StillTold (calls_told self.old.link) (calls_told self.new.link)) }
        ensures cause { HasCause self.old.link.faults self.new.link.faults result }
        ensures plan { self.new.plan ≡ after_next self.old.plan }
        ensures failed { IsErr result ↔
            (fails_at self.old (room_wanted self.old.link.waiting (length buf.old)) ≡ true) }
        ensures fault { OnErr result (self.new.link ≡
            after_fault self.old (receive_made result buf.new)) }
        ensures kept { OnOk result (self.new.link ≡
            after_kept self.old.link (drop 1 self.old.link.waiting) (receive_made result buf.new)) }
        ensures got { IfOk result (λ got. Receives
            (Some self.old.link.waiting) (Some self.new.link.waiting) got buf.new) }
    {
        if self.plan.next() {
            let call = Call {
                what: CallKind::Receive,
                addr: None,
                size: buf.len(),
                len: 0,
                failed: true,
            };
            self.link.fail(call, &[]);
            return Err(Failed);
        }
        self.link.receive(buf)
    }

    fn send(&mut self, to: Addr, bytes: &[u8]) -> Result<(), Failed>
        ensures waiting { IsAsTold (waiting_told self.old.link) (waiting_told self.new.link) }
        ensures call { Adds (calls_told self.old.link) (calls_told self.new.link)
            (send_made to bytes.now result) }
        ensures told_waiting { OnOk result
            (StillTold (waiting_told self.old.link) (waiting_told self.new.link)) }
        ensures told_calls { OnOk result
            (StillTold (calls_told self.old.link) (calls_told self.new.link)) }
        ensures cause { HasCause self.old.link.faults self.new.link.faults result }
        ensures plan { self.new.plan ≡ after_next self.old.plan }
        ensures failed { IsErr result ↔ (fails_at self.old (length bytes.now) ≡ true) }
        ensures fault { OnErr result (self.new.link ≡
            after_fault self.old (send_made to bytes.now result)) }
        ensures kept { OnOk result (self.new.link ≡
            after_kept self.old.link self.old.link.waiting (send_made to bytes.now result)) }
    {
        if self.plan.next() {
            let call = Call {
                what: CallKind::Send,
                addr: Some(to),
                size: bytes.len(),
                len: 0,
                failed: true,
            };
            self.link.fail(call, bytes);
            return Err(Failed);
        }
        self.link.send(to, bytes)
    }
}
