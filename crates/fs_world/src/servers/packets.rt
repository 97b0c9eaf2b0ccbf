//! The packets that were sent.
ghost use Rattle.std.specs.Prelude.{◌≡◌, ◌<◌, ◌≤◌, ◌++◌, List as Seq, false, length, map, slice_get, IfOk, OnOk, OnErr};
ghost use Rattle.std.specs.Option.{option_copied};
ghost use Rattle.fs_window.specs.declared.sent.Sent.{Sent as ThePacket};
ghost use Rattle.fs_world.specs.Packets.{Packets as ThePackets, first_undelivered, no_packets, with_sent, with_delivered};

use fs_actor::append;
use fs_ident::{List, Memory, Twin};
use fs_window::Sent;
use std::alloc::Global;
use std::marker::Model;

/// The packets that were sent, in order, each with a mark whether it was told, and the first that was not.
#[derive(Debug, Drop)]
pub(crate) struct Packets {
    sent: List<Sent>,
    delivered: List<bool>,
    next: usize,
}

impl Model for Packets {
    ghost use Rattle.fs_world.specs.Packets.{Packets, AreMarked};

    ghost Value = { Packets };

    ghost view = { λ p. record { sent = p.sent; delivered = p.delivered } };

    ghost invariant = { λ p. AreMarked p.sent p.delivered p.next };
}

impl Packets {
    /// None was sent.
    pub(crate) fn new(alloc: Global) -> Packets
        ensures { result ≡ no_packets }
    {
        Packets {
            sent: List::new(alloc),
            delivered: List::new(alloc),
            next: 0,
        }
    }

    /// The packets, in order.
    pub(crate) fn sent(&self) -> &List<Sent>
        ensures { result.now ≡ self.now.sent }
    {
        &self.sent
    }

    /// The packet of that number, if it was sent.
    pub(crate) fn get(&self, k: u64) -> Option<&Sent>
        ensures { option_copied result ≡ slice_get self.now.sent k }
    {
        self.sent.as_slice().get(k as usize)
    }

    /// The number of the first that was not told, or how many there are.
    pub(crate) fn first_undelivered(&self) -> u64
        ensures { result ≡ first_undelivered self.now.delivered }
    {
        self.next as u64
    }

    /// More packets, none of which was told.
    pub(crate) fn add(&mut self, alloc: Global, more: List<Sent>) -> Result<(), Memory>
        ensures ok { OnOk result (self.new ≡ with_sent more self.old) }
        ensures err { OnErr result (self.new ≡ self.old) }
    {
        let marks = marks_of(alloc, more.as_slice())?;
        append_both(&mut self.sent, &mut self.delivered, more, marks)
    }

    /// The packet of that number was told. Takes no memory.
    #[tactic(auto, using(crate::proofs::Marks::undelivered_after))]
    pub(crate) fn mark(&mut self, k: u64)
        requires { k < length self.old.sent }
        ensures { self.new ≡ with_delivered k self.old }
    {
        self.delivered.replace(k as usize, true);
        self.next = undelivered_from(self.delivered.as_slice(), self.next);
    }

    /// The first so many alone, which undoes an `add`. Takes no memory.
    pub(crate) fn cut_back(&mut self, len: usize)
        ensures { (p : ThePackets) (more : Seq ThePacket) → self.old ≡ with_sent more p →
            len ≡ length p.sent → self.new ≡ p }
    {
        self.sent.truncate(len);
        self.delivered.truncate(len);
        self.next = self.next.min(len);
    }
}

impl Twin for Packets {
    fn copy(&self, alloc: Global) -> Result<Packets, Memory> {
        let sent = self.sent.copy(alloc)?;
        let delivered = self.delivered.copy(alloc)?;
        Ok(Packets {
            sent,
            delivered,
            next: self.next,
        })
    }

    fn discard(self) {}
}

/// A mark for each of the packets: it was not told.
fn marks_of(alloc: Global, packets: &[Sent]) -> Result<List<bool>, Memory>
    ensures { IfOk result (λ marks. marks ≡ map (λ (x : ThePacket). false) packets.now) }
{
    let mut marks = List::new(alloc);
    for _ in packets {
        marks.push(false)?;
    }
    Ok(marks)
}

/// Packets behind the others, and their marks behind the other marks: both or neither.
fn append_both(
    sent: &mut List<Sent>,
    delivered: &mut List<bool>,
    more: List<Sent>,
    marks: List<bool>,
) -> Result<(), Memory>
    ensures sent { OnOk result (sent.new ≡ sent.old ++ more) }
    ensures delivered { OnOk result (delivered.new ≡ delivered.old ++ marks) }
    ensures err_sent { OnErr result (sent.new ≡ sent.old) }
    ensures err_delivered { OnErr result (delivered.new ≡ delivered.old) }
{
    let before = delivered.len();
    append(delivered, marks)?;
    match append(sent, more) {
        Ok(()) => Ok(()),
        Err(e) => {
            delivered.truncate(before);
            Err(e)
        }
    }
}

/// The number of the first that was not told, where all before `from` were.
#[tactic(auto, using(crate::proofs::Marks::undelivered_here))]
fn undelivered_from(delivered: &[bool], from: usize) -> usize
    requires { from ≤ first_undelivered delivered.now }
    ensures { result ≡ first_undelivered delivered.now }
{
    let mut next = from;
    while next < delivered.len() && delivered[next] {
        next += 1;
    }
    next
}
