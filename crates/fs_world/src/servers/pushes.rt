//! Messages onto the server's links.
ghost use Rattle.std.specs.Prelude.{◌≡◌, true, false, OnOk, IsErrOf};
ghost use Rattle.fs_actor.specs.Actor.{is_full_down, is_full_for, with_pushed};
ghost use Rattle.fs_msg.specs.Spelling.{message};
ghost use Rattle.fs_msg.specs.declared.core_error.Counter.{Counter as TheCounter};
ghost use Rattle.fs_msg.specs.declared.core_error.Counter.TheVariants.{Segments};
ghost use Rattle.fs_msg.specs.declared.core_error.CoreError.TheVariants as errors;
ghost use Rattle.fs_window.specs.Post.{post_pushed};
ghost use Rattle.fs_window.specs.Undo.{undone};
ghost use Rattle.fs_world.specs.Linked.{FitsDown, IsWritten};

use crate::servers::send_due::refusal;
use fs_ident::{Memory, Peer};
use fs_msg::{CoreError, Msg, write};
use fs_window::{Post, Undo};
use std::alloc::Global;

/// The messages go onto the links of their addressees. Where that fails some may have gone, as `undo` keeps.
pub(crate) fn push_all(
    alloc: Global,
    post: &mut Post,
    send: &[(Peer, Msg)],
    undo: &mut Undo,
) -> Result<(), CoreError>
    ensures ok { OnOk result (post.new ≡ with_pushed send.now post.old) }
    ensures fits { OnOk result (FitsDown send.now) }
    ensures undo { undone undo.new post.new ≡ undone undo.old post.old }
    ensures spent { (counter : TheCounter) → IsErrOf result (errors.Spent counter) →
        (counter ≡ Segments) × (is_full_down send.now post.old ≡ true) }
    ensures room { OnOk result (is_full_down send.now post.old ≡ false) }
{
    for sent in send {
        push_one(alloc, post, sent, undo)?;
    }
    Ok(())
}

/// A message goes onto the link of its addressee, or nothing changes.
fn push_one(
    alloc: Global,
    post: &mut Post,
    sent: &(Peer, Msg),
    undo: &mut Undo,
) -> Result<(), CoreError>
    ensures ok { OnOk result (post.new ≡ post_pushed post.old sent.now.0 (message sent.now.1)) }
    ensures fits { OnOk result (IsWritten sent.now.1) }
    ensures undo { undone undo.new post.new ≡ undone undo.old post.old }
    ensures spent { (counter : TheCounter) → IsErrOf result (errors.Spent counter) →
        (counter ≡ Segments) × (is_full_for post.old sent.now.0 (message sent.now.1) ≡ true) }
    ensures room { OnOk result (is_full_for post.old sent.now.0 (message sent.now.1) ≡ false) }
{
    let mut bytes = Vec::new(alloc);
    write(alloc, &sent.1, &mut bytes)?;
    match post.push_with_undo(alloc, sent.0, &bytes, undo) {
        Ok(()) => Ok(()),
        Err(e) => Err(refusal(e)),
    }
}

/// There is room for the bytes of each of these messages.
pub(crate) fn have_room(alloc: Global, send: &[(Peer, Msg)]) -> Result<(), Memory>
    ensures { OnOk result (FitsDown send.now) }
{
    for sent in send {
        has_room(alloc, sent)?;
    }
    Ok(())
}

/// There is room for the bytes of the message.
fn has_room(alloc: Global, sent: &(Peer, Msg)) -> Result<(), Memory>
    ensures { OnOk result (IsWritten sent.now.1) }
{
    let mut bytes = Vec::new(alloc);
    write(alloc, &sent.1, &mut bytes)
}
