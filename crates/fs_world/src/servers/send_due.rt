//! What goes out of an actor's links.
ghost use Rattle.std.specs.Prelude.{◌≡◌, ◌∷◌, [], length, IfOk, OnOk, OnErr, Some};
ghost use Rattle.fs_msg.specs.declared.core_error.Counter.TheVariants.{Segments};
ghost use Rattle.fs_msg.specs.declared.core_error.CoreError.TheVariants as errors;
ghost use Rattle.fs_window.specs.Post.{post_due};
ghost use Rattle.fs_world.specs.Packets.{numbers_from, with_sent};

use crate::servers::packets::Packets;
use fs_ident::{List, Memory, Peer};
use fs_msg::{CoreError, Counter, Note};
use fs_schedule::Outcome;
use fs_window::{LinkError, Post, Sent};
use std::alloc::Global;

/// What is due on an actor's links joins the packets, and the outcome of its one note has their numbers. The links do
/// not change; they count it as sent by `mark_sent`.
pub(crate) fn send_due(
    alloc: Global,
    who: Peer,
    turn: bool,
    heard: Option<Peer>,
    note: Note,
    post: &Post,
    packets: &mut Packets,
) -> Result<Outcome, Memory>
    ensures outcome { IfOk result (λ o. o ≡ record {
      who = Some who;
      notes = note ∷ [];
      sent = numbers_from (length packets.old.sent) (post_due post.now turn heard).sent;
    }) }
    ensures ok { OnOk result (packets.new ≡
        with_sent (post_due post.now turn heard).sent packets.old) }
    ensures err { OnErr result (packets.new ≡ packets.old) }
{
    let mut notes = List::new(alloc);
    notes.push(note)?;
    send_noted(alloc, who, turn, heard, notes, post, packets)
}

/// What is due on an actor's links joins the packets, and the outcome has these notes and the numbers of the packets.
pub(crate) fn send_noted(
    alloc: Global,
    who: Peer,
    turn: bool,
    heard: Option<Peer>,
    notes: List<Note>,
    post: &Post,
    packets: &mut Packets,
) -> Result<Outcome, Memory>
    ensures outcome { IfOk result (λ o. o ≡ record {
      who = Some who;
      notes = notes;
      sent = numbers_from (length packets.old.sent) (post_due post.now turn heard).sent;
    }) }
    ensures ok { OnOk result (packets.new ≡
        with_sent (post_due post.now turn heard).sent packets.old) }
    ensures err { OnErr result (packets.new ≡ packets.old) }
{
    let due = post.packets(alloc, turn, heard)?;
    let sent = numbers(alloc, packets.sent().as_slice(), due.as_slice())?;
    packets.add(alloc, due)?;
    Ok(Outcome {
        who: Some(who),
        notes,
        sent,
    })
}

/// The numbers of these packets behind those that were sent before.
fn numbers(alloc: Global, before: &[Sent], packets: &[Sent]) -> Result<List<u64>, Memory>
    ensures { IfOk result (λ all. all ≡ numbers_from (length before.now) packets.now) }
{
    let mut all = List::new(alloc);
    let from = before.len();
    for number in from..from + packets.len() {
        all.push(number as u64)?;
    }
    Ok(all)
}

/// Why no step is made where a link takes no message.
pub(crate) fn refusal(e: LinkError) -> CoreError
    ensures spent { e ≡ LinkError.Spent → result ≡ errors.Spent Segments }
    ensures memory { e ≡ LinkError.Memory → result ≡ errors.Memory }
{
    match e {
        LinkError::Spent => CoreError::Spent {
            counter: Counter::Segments,
        },
        LinkError::Memory => CoreError::Memory,
    }
}
