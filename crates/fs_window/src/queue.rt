//! Queues, and changes of queues that can be taken back.
ghost use Rattle.std.specs.Prelude.{◌≡◌, ◌≤◌, ◌<◌, ◌+◌, ◌^◌, ◌++◌, drop, take, length, OnOk, IfOk};
ghost use Rattle.std.specs.Prelude.{List as Seq};
ghost use Rattle.fs_window.specs.LinkEnd.{packets_from};
ghost use Rattle.fs_window.specs.Undo.{changed};

use crate::packet::Packet;
use fs_frag::Segment;
use fs_ident::{List, Memory, Twin};
use std::alloc::Global;
use std::collections::LinkedList;
use std::collections::linked_list::Iter;

/// How many values a queue may not have.
pub(crate) const LIMIT: usize = 1 << 63;

/// A change of a queue: so many values from a place on go, and others come in their place.
#[derive(Debug, Drop)]
pub(crate) struct Change<T> {
    pub(crate) at: usize,
    pub(crate) count: usize,
    pub(crate) more: LinkedList<T>,
}

/// The change that changes nothing.
pub(crate) fn no_change<T>(alloc: Global) -> Change<T>
    ensures { (queue : Seq T) → changed result queue ≡ queue }
{
    Change {
        at: 0,
        count: 0,
        more: LinkedList::new(alloc),
    }
}

/// Makes a change, and tells the one that takes it back. No value is copied, and no memory is taken.
pub(crate) fn make_change<T: Drop>(queue: &mut LinkedList<T>, c: Change<T>) -> Change<T>
    requires few { length (changed c queue.old) < 2 ^ 63 }
    ensures was_few { length queue.old < 2 ^ 63 }
    ensures made { queue.new ≡ changed c queue.old }
    ensures back { changed result queue.new ≡ queue.old }
{
    let Change { at, count, more } = c;
    let at = at.min(queue.len());
    let mut gone = split(queue, at);
    let count = count.min(gone.len());
    let rest = split(&mut gone, count);
    let len = more.len();
    join(queue, more);
    join(queue, rest);
    Change {
        at,
        count: len,
        more: gone,
    }
}

/// How many values a change leaves.
pub(crate) fn len_after<T>(queue: &LinkedList<T>, c: &Change<T>) -> u64
    ensures { result ≡ length (changed c.now queue.now) }
{
    let front = c.at.min(queue.len());
    let rest = (queue.len() - front).saturating_sub(c.count);
    front as u64 + (c.more.len() as u64 + rest as u64)
}

/// Leaves the values in front of the place, and gives the others.
fn split<T: Drop>(queue: &mut LinkedList<T>, at: usize) -> LinkedList<T>
    requires { at ≤ length queue.old }
    ensures front { queue.new ≡ take at queue.old }
    ensures rest { result ≡ drop at queue.old }
{
    match queue.split_off(at) {
        Ok(rest) => rest,
        Err(_) => unreachable!(),
    }
}

/// Adds the values at the end.
fn join<T: Drop>(queue: &mut LinkedList<T>, more: LinkedList<T>)
    requires { length queue.old + length more < 2 ^ 63 }
    ensures { queue.new ≡ queue.old ++ more }
{
    let mut more = more;
    match queue.append(&mut more) {
        Ok(()) => {}
        Err(_) => unreachable!(),
    }
}

/// The segments as a queue.
pub(crate) fn queue_of(
    alloc: Global,
    segments: List<Segment>,
) -> Result<LinkedList<Segment>, Memory>
    ensures { IfOk result (λ queue. queue ≡ segments) }
{
    let mut left = segments.into_vec();
    let mut queue = LinkedList::new(alloc);
    while let Some(segment) = left.pop() {
        queue.push_front(segment)?;
    }
    Ok(queue)
}

/// The values from the place on.
pub(crate) fn values_from<T>(queue: &LinkedList<T>, place: u64) -> Iter<'_, T>
    ensures { result ≡ drop place queue.now }
{
    let mut values = queue.iter();
    for _ in 0..place {
        let _ = values.next();
    }
    values
}

/// Adds packets with so many of the segments from a place on, numbered from `number` on.
pub(crate) fn add_packets(
    alloc: Global,
    waiting: &LinkedList<Segment>,
    place: u64,
    count: u64,
    number: u64,
    ack: u64,
    packets: &mut List<Packet>,
) -> Result<(), Memory>
    requires numbered { number + count < 2 ^ 64 }
    ensures { OnOk result (packets.new ≡
        packets.old ++ packets_from ack number (take count (drop place waiting.now))) }
{
    let mut left = values_from(waiting, place);
    for next in number..number + count {
        let Some(segment) = left.next() else {
            return Ok(());
        };
        packets.push(Packet {
            ack,
            body: Some((next, segment.copy(alloc)?)),
        })?;
    }
    Ok(())
}

/// Lets go of the first values.
pub(crate) fn forget<T: Drop>(queue: &mut LinkedList<T>, count: u64)
    ensures { queue.new ≡ drop count queue.old }
{
    for _ in 0..count {
        let _ = queue.pop_front();
    }
}

/// Copies the values, in their order.
pub(crate) fn copies<T: Twin + Drop>(
    alloc: Global,
    queue: &LinkedList<T>,
) -> Result<LinkedList<T>, Memory>
    ensures { IfOk result (λ twin. twin ≡ queue.now) }
{
    let mut twin = LinkedList::new(alloc);
    for value in queue {
        twin.push_back(value.copy(alloc)?)?;
    }
    Ok(twin)
}
