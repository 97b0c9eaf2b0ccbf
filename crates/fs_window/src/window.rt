//! One end of a link.
ghost use Rattle.std.specs.Prelude.{◌≡◌, ◌≤◌, ◌<◌, ◌+◌, ◌-◌, ◌^◌, ◌++◌, ◌↔◌, [], min, IsTrue, drop, length, IfOk, IsOk, IsErrOf, OnOk, OnErr};
ghost use Rattle.fs_window.specs.LinkEnd.{IsLinkEnd, new_link_end, pushed_count, after_push, after_pushes, acked_after, given_by, kept_by, after_accept, packets_from, unsent, unacked, with_bodies, or_alone, due_of, after_due};
ghost use Rattle.fs_window.specs.Undo.{changed, with_changes, with_was, can_be, end_before};

use crate::error::LinkError;
use crate::kept::{add_front, front_len, keeping};
use crate::packet::Packet;
use crate::queue::{
    Change, LIMIT, add_packets, copies, forget, len_after, make_change, no_change, queue_of,
};
use crate::was::Was;
use fs_frag::Segment;
use fs_ident::{List, Memory, Twin};
use std::alloc::Global;
use std::collections::LinkedList;
use std::marker::Model;
use std::mem;

/// One end of a link: it sends the segments that are pushed here, and gives those that the other end pushed,
/// each once and in their order, whatever the network loses, repeats or reorders. It keeps those that come before
/// their turn, as far as the width reaches.
#[derive(Debug, Drop)]
pub struct Window {
    width: u64,
    acked: u64,
    sent: u64,
    waiting: LinkedList<Segment>,
    got: u64,
    kept: LinkedList<Option<Segment>>,
}

impl Model for Window {
    ghost use Rattle.fs_window.specs.LinkEnd.{LinkEnd, IsLinkEnd};

    ghost Value = { LinkEnd };

    ghost view = { λ w. record {
      width = w.width;
      acked = w.acked;
      sent = w.sent;
      waiting = w.waiting;
      got = w.got;
      kept = w.kept;
    } };

    ghost invariant = { λ w. IsLinkEnd (record {
      width = w.width;
      acked = w.acked;
      sent = w.sent;
      waiting = w.waiting;
      got = w.got;
      kept = w.kept;
    }) };
}

impl Window {
    /// A new end, of which so many segments, from 1 to 64, may be on their way at once.
    pub fn new(alloc: Global, width: u64) -> Window
        requires wide { 1 ≤ width }
        requires narrow { width ≤ 64 }
        ensures { result ≡ new_link_end width }
    {
        Window {
            width,
            acked: 0,
            sent: 0,
            waiting: LinkedList::new(alloc),
            got: 0,
            kept: LinkedList::new(alloc),
        }
    }

    /// How many segments were pushed.
    pub fn pushed(&self) -> u64
        ensures count { result ≡ pushed_count self.now }
        ensures valid { IsLinkEnd self.now }
    {
        self.acked.min(self.sent) + self.waiting.len() as u64
    }

    /// How many segments were given.
    pub fn got(&self) -> u64
        ensures { result ≡ self.now.got }
    {
        self.got
    }

    /// Takes a segment to be sent. `Spent` exactly where every number was given to a segment.
    pub fn push(&mut self, _: Global, s: Segment) -> Result<(), LinkError>
        ensures ok { OnOk result (self.new ≡ after_push self.old s) }
        ensures spent { IsErrOf result LinkError.Spent ↔ (pushed_count self.old ≡ 2 ^ 64 - 1) }
        ensures err { OnErr result (self.new ≡ self.old) }
    {
        if self.pushed() == u64::MAX {
            return Err(LinkError::Spent);
        }
        self.waiting.push_back(s)?;
        Ok(())
    }

    /// Takes segments to be sent, all of them or none. `Spent` exactly where numbers are wanting for them.
    pub fn push_all(&mut self, alloc: Global, segments: List<Segment>) -> Result<(), LinkError>
        ensures ok { OnOk result (self.new ≡ after_pushes self.old segments) }
        ensures spent { IsErrOf result LinkError.Spent ↔
            (2 ^ 64 ≤ pushed_count self.old + length segments) }
        ensures err { OnErr result (self.new ≡ self.old) }
    {
        self.push_with_undo(alloc, segments)?;
        Ok(())
    }

    /// Takes segments to be sent as `push_all` does, and tells how to undo it.
    pub(crate) fn push_with_undo(
        &mut self,
        alloc: Global,
        segments: List<Segment>,
    ) -> Result<Was, LinkError>
        ensures was { IfOk result (λ was. end_before was self.new ≡ self.old) }
        ensures ok { OnOk result (self.new ≡ after_pushes self.old segments) }
        ensures spent { IsErrOf result LinkError.Spent ↔
            (2 ^ 64 ≤ pushed_count self.old + length segments) }
        ensures err { OnErr result (self.new ≡ self.old) }
    {
        if segments.len() as u64 > u64::MAX - self.pushed() {
            return Err(LinkError::Spent);
        }
        let more = queue_of(alloc, segments)?;
        if more.len() >= LIMIT - self.waiting.len() {
            return Err(LinkError::Memory);
        }
        let behind = Change {
            at: self.waiting.len(),
            count: 0,
            more,
        };
        Ok(self.change_to(self.acked, self.sent, self.got, behind, no_change(alloc)))
    }

    /// The segments that a packet would give: the one whose number is next, and those kept that then follow without a
    /// hole. Takes memory only for these segments.
    pub fn gives(&self, alloc: Global, p: &Packet) -> Result<List<Segment>, Memory>
        ensures given { IfOk result (λ segments. segments ≡ given_by self.now p.now.body) }
        ensures no_memory { given_by self.now p.now.body ≡ [] → IsOk result }
    {
        let mut segments = List::new(alloc);
        if let Some((number, segment)) = &p.body {
            if *number == self.got {
                segments.push(segment.copy(alloc)?)?;
                add_front(alloc, &self.kept, &mut segments)?;
            }
        }
        Ok(segments)
    }

    /// Takes a packet of the other end: its acknowledgement, and its segment. Where that is the next one it is given,
    /// with those kept that follow without a hole; where it comes before its turn and the width reaches it, it is kept.
    /// Takes memory only for segments that it gives, and for one that it keeps and did not have.
    pub fn accept(&mut self, alloc: Global, p: &Packet) -> Result<List<Segment>, Memory>
        ensures given { IfOk result (λ segments. segments ≡ given_by self.old p.now.body) }
        ensures state { OnOk result (self.new ≡ after_accept self.old p.now) }
        ensures err { OnErr result (self.new ≡ self.old) }
        ensures no_memory { given_by self.old p.now.body ≡ [] →
            kept_by self.old p.now.body ≡ self.old.kept → IsOk result }
    {
        let segments = self.gives(alloc, p)?;
        self.take(alloc, p)?;
        Ok(segments)
    }

    /// Takes a packet whose segments `gives` told: its acknowledgement counts, and they are given; a segment that comes
    /// before its turn is kept. Takes memory only for one that it keeps and did not have.
    pub fn take(&mut self, alloc: Global, p: &Packet) -> Result<(), Memory>
        ensures state { OnOk result (self.new ≡ after_accept self.old p.now) }
        ensures err { OnErr result (self.new ≡ self.old) }
        ensures no_memory { kept_by self.old p.now.body ≡ self.old.kept → IsOk result }
    {
        self.take_with_undo(alloc, p)?;
        Ok(())
    }

    /// Takes a packet as `take` does, and tells how to undo it.
    pub(crate) fn take_with_undo(&mut self, alloc: Global, p: &Packet) -> Result<Was, Memory>
        ensures was { IfOk result (λ was. end_before was self.new ≡ self.old) }
        ensures state { OnOk result (self.new ≡ after_accept self.old p.now) }
        ensures err { OnErr result (self.new ≡ self.old) }
        ensures no_memory { kept_by self.old p.now.body ≡ self.old.kept → IsOk result }
    {
        let slots = self.slots_after(alloc, p)?;
        let acked = self.acked_after(p.ack);
        let first = Change {
            at: 0,
            count: self.done_count(acked),
            more: LinkedList::new(alloc),
        };
        let got = self.got.saturating_add(self.given_count(p));
        Ok(self.change_to(acked, self.sent, got, first, slots))
    }

    /// How many segments are sent and acknowledged, and are let go, where so many are acknowledged.
    fn done_count(&self, acked: u64) -> usize
        requires rises { self.now.acked ≤ acked }
        requires within { acked ≤ pushed_count self.now }
        ensures count { result ≡ min acked self.now.sent - min self.now.acked self.now.sent }
        ensures few { length self.now.waiting < 2 ^ 63 }
    {
        let done = acked.min(self.sent) - self.acked.min(self.sent);
        done.min(self.waiting.len() as u64) as usize
    }

    /// How many segments a packet gives.
    fn given_count(&self, p: &Packet) -> u64
        ensures { result ≡ length (given_by self.now p.now.body) }
    {
        match &p.body {
            Some((number, _)) if *number == self.got => front_len(&self.kept) as u64 + 1,
            _ => 0,
        }
    }

    /// What a packet changes of what is kept: the places of segments that it gives go, and its segment is kept if it comes
    /// before its turn and the width reaches it.
    fn slots_after(&self, alloc: Global, p: &Packet) -> Result<Change<Option<Segment>>, Memory>
        ensures change { IfOk result (λ c. changed c self.now.kept ≡
            drop (length (given_by self.now p.now.body)) (kept_by self.now p.now.body)) }
        ensures no_memory { kept_by self.now p.now.body ≡ self.now.kept → IsOk result }
    {
        let given = self.given_count(p);
        if given > 0 {
            return Ok(Change {
                at: 0,
                count: given as usize,
                more: LinkedList::new(alloc),
            });
        }
        let Some((number, segment)) = &p.body else {
            return Ok(no_change(alloc));
        };
        if *number <= self.got || *number - self.got >= self.width {
            return Ok(no_change(alloc));
        }
        let place = (*number - self.got - 1) as usize;
        keeping(alloc, &self.kept, place, segment)
    }

    /// Has these numbers and queues changed so, and tells how it was.
    fn change_to(
        &mut self,
        acked: u64,
        sent: u64,
        got: u64,
        waiting: Change<Segment>,
        kept: Change<Option<Segment>>,
    ) -> Was
        requires can_be { IsTrue (can_be (with_changes self.old acked sent got waiting kept)) }
        ensures state { self.new ≡ with_changes self.old acked sent got waiting kept }
        ensures was { end_before result self.new ≡ self.old }
    {
        Was {
            acked: mem::replace(&mut self.acked, acked),
            sent: mem::replace(&mut self.sent, sent),
            got: mem::replace(&mut self.got, got),
            waiting: make_change(&mut self.waiting, waiting),
            kept: make_change(&mut self.kept, kept),
        }
    }

    /// Is again what it was, if it can be so. Takes no memory.
    pub(crate) fn undo(&mut self, was: Was)
        ensures { self.new ≡ end_before was self.old }
    {
        if self.can_be(&was) {
            self.change_to(was.acked, was.sent, was.got, was.waiting, was.kept);
        }
    }

    /// Whether it can be so.
    fn can_be(&self, was: &Was) -> bool
        ensures { result ≡ can_be (with_was was.now self.now) }
    {
        let waiting = len_after(&self.waiting, &was.waiting);
        let Some(pushed) = was.acked.min(was.sent).checked_add(waiting) else {
            return false;
        };
        was.acked <= pushed
            && was.sent <= pushed
            && waiting < LIMIT as u64
            && len_after(&self.kept, &was.kept) < self.width
    }

    /// What goes to the other end: the segments that were not sent yet, as far as the width reaches, and then,
    /// `again`, those that were sent and are not acknowledged. Where nothing goes and a packet with a body was
    /// `heard`, an acknowledgement alone goes.
    pub fn due(&mut self, alloc: Global, again: bool, heard: bool) -> Result<List<Packet>, Memory>
        ensures packets { IfOk result (λ packets. packets ≡ due_of self.old again heard) }
        ensures state { OnOk result (self.new ≡ after_due self.old) }
        ensures err { OnErr result (self.new ≡ self.old) }
    {
        let packets = self.packets(alloc, again, heard)?;
        self.mark_sent();
        Ok(packets)
    }

    /// What `due` sends. Nothing changes.
    pub fn packets(&self, alloc: Global, again: bool, heard: bool) -> Result<List<Packet>, Memory>
        ensures { IfOk result (λ packets. packets ≡ due_of self.now again heard) }
    {
        or_alone(self.with_bodies(alloc, again)?, self.got, heard)
    }

    /// Counts what `packets` told as sent. Takes no memory.
    pub fn mark_sent(&mut self)
        ensures { self.new ≡ after_due self.old }
    {
        let sent = self.sent + self.unsent_count();
        let done = self.acked.min(sent) - self.acked.min(self.sent);
        forget(&mut self.waiting, done);
        self.sent = sent;
    }

    /// How many segments go for the first time.
    fn unsent_count(&self) -> u64
        ensures count { result ≡ length (unsent self.now) }
        ensures within { self.now.sent + result ≤ pushed_count self.now }
    {
        let reach = self.acked.saturating_add(self.width);
        reach
            .saturating_sub(self.sent)
            .min(self.pushed() - self.sent)
    }

    /// Packets with the segments that go for the first time.
    fn new_packets(&self, alloc: Global) -> Result<List<Packet>, Memory>
        ensures { IfOk result (λ packets. packets ≡
            packets_from self.now.got self.now.sent (unsent self.now)) }
    {
        let place = self.sent.saturating_sub(self.acked);
        let count = self.unsent_count();
        let mut packets = List::new(alloc);
        add_packets(
            alloc,
            &self.waiting,
            place,
            count,
            self.sent,
            self.got,
            &mut packets,
        )?;
        Ok(packets)
    }

    /// Adds packets with the segments that were sent and are not acknowledged.
    fn add_unacked(&self, alloc: Global, packets: &mut List<Packet>) -> Result<(), Memory>
        ensures { OnOk result (packets.new ≡ packets.old ++ packets_from self.now.got self.now.acked
            (unacked self.now)) }
    {
        let count = self.sent.saturating_sub(self.acked);
        add_packets(
            alloc,
            &self.waiting,
            0,
            count,
            self.acked,
            self.got,
            packets,
        )
    }

    /// The packets with segments.
    fn with_bodies(&self, alloc: Global, again: bool) -> Result<List<Packet>, Memory>
        ensures { IfOk result (λ packets. packets ≡ with_bodies self.now again) }
    {
        let mut packets = self.new_packets(alloc)?;
        if again {
            self.add_unacked(alloc, &mut packets)?;
        }
        Ok(packets)
    }

    /// The greatest acknowledgement once another one has come.
    fn acked_after(&self, ack: u64) -> u64
        ensures count { result ≡ acked_after self.now ack }
        ensures rises { self.now.acked ≤ result }
        ensures within { result ≤ pushed_count self.now }
    {
        if ack <= self.pushed() {
            self.acked.max(ack)
        } else {
            self.acked
        }
    }
}

impl Twin for Window {
    fn copy(&self, alloc: Global) -> Result<Window, Memory> {
        Ok(Window {
            width: self.width,
            acked: self.acked,
            sent: self.sent,
            waiting: copies(alloc, &self.waiting)?,
            got: self.got,
            kept: copies(alloc, &self.kept)?,
        })
    }

    fn discard(self) {}
}

/// The packets, or an acknowledgement alone where there is none and a packet with a body was heard.
fn or_alone(mut packets: List<Packet>, got: u64, heard: bool) -> Result<List<Packet>, Memory>
    ensures { IfOk result (λ all. all ≡ or_alone got heard packets) }
{
    if packets.is_empty() && heard {
        packets.push(Packet {
            ack: got,
            body: None,
        })?;
    }
    Ok(packets)
}
