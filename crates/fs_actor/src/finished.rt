//! What a client finishes in an event.
ghost use Rattle.std.specs.Prelude.{◌≡◌, IfOk, take};
ghost use Rattle.std.specs.Option.{option_copied};
ghost use Rattle.fs_actor.specs.Finished.{finished, led_item, shipped_count};
ghost use Rattle.fs_actor.specs.Listed.{listed};
ghost use Rattle.fs_server.specs.Ships.{item_of};

use crate::lists::add;
use fs_client::{ClientCore, Led};
use fs_ident::{List, Memory, Peer, Session, Twin};
use fs_msg::{ClientNote, Entry, Item, Note};
use std::alloc::Global;

/// What the client of the session read and admitted at once, the entries at the front of its log that are admitted, and what a server
/// led, as it is told.
pub(crate) fn finished(
    alloc: Global,
    s: Session,
    client: &ClientCore,
    read: Option<Item>,
    note: &Note,
) -> Result<List<Item>, Memory>
    ensures { IfOk result (λ items. items ≡ finished s client.now read note.now) }
{
    let mut items = listed(alloc, read)?;
    for entry in front(client.log(), shipped_count(note) as usize) {
        items.push(item_of(alloc, s, entry)?)?;
    }
    add(&mut items, led_item(alloc, s, note, client.led())?)?;
    Ok(items)
}

/// What a server led is admitted with this reply, as the client is told.
fn led_item(
    alloc: Global,
    s: Session,
    note: &Note,
    led: Option<&Led>,
) -> Result<Option<Item>, Memory>
    ensures { IfOk result (λ item. item ≡ led_item s note.now (option_copied led.entry)) }
{
    match (note, led) {
        (Note::Client(ClientNote::Led { n, reply }), Some(led)) => Ok(Some(Item {
            by: Peer::Client(s),
            n: *n,
            op: led.entry.op.copy(alloc)?,
            reply: reply.copy(alloc)?,
        })),
        _ => Ok(None),
    }
}

/// The item alone, if there is one.
fn listed(alloc: Global, item: Option<Item>) -> Result<List<Item>, Memory>
    ensures { IfOk result (λ items. items ≡ listed item) }
{
    let mut items = List::new(alloc);
    match item {
        Some(item) => items.push(item)?,
        None => {}
    }
    Ok(items)
}

/// The first so many entries, or all.
fn front(log: &[Entry], count: usize) -> &[Entry]
    ensures { result.now ≡ take count log.now }
{
    if count < log.len() {
        &log[..count]
    } else {
        log
    }
}

/// So many entries of its log are admitted, as it is told.
fn shipped_count(note: &Note) -> u64
    ensures { result ≡ shipped_count note.now }
{
    match note {
        Note::Client(ClientNote::Shipped { count, .. }) => *count,
        _ => 0,
    }
}

/// The item of an entry of the session's log.
fn item_of(alloc: Global, s: Session, entry: &Entry) -> Result<Item, Memory>
    ensures { IfOk result (λ item. item ≡ item_of s entry.now) }
{
    Ok(Item {
        by: Peer::Client(s),
        n: entry.n,
        op: entry.op.copy(alloc)?,
        reply: entry.reply.copy(alloc)?,
    })
}
