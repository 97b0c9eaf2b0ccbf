//! Messages onto an actor's links.
ghost use Rattle.std.specs.Prelude.{◌≡◌, true, false, OnErr, OnOk, IsErrOf};
ghost use Rattle.fs_actor.specs.Actor.{is_full_down, is_full_for, is_full_up, post_after, with_pushed};
ghost use Rattle.fs_ident.specs.declared.actor.Peer.TheVariants.{Server};
ghost use Rattle.fs_msg.specs.Spelling.{message};
ghost use Rattle.fs_msg.specs.declared.core_error.Counter.{Counter as TheCounter};
ghost use Rattle.fs_msg.specs.declared.core_error.Counter.TheVariants.{Segments};
ghost use Rattle.fs_msg.specs.declared.core_error.CoreError.TheVariants as errors;
ghost use Rattle.fs_msg.specs.declared.msg.Msg.TheVariants as msg;
ghost use Rattle.fs_window.specs.Post.{post_pushed};
ghost use Rattle.fs_window.specs.Undo.{undone};

use fs_ident::Peer;
use fs_msg::{ClientMsg, CoreError, Counter, Msg, write};
use fs_window::{LinkError, Post, Undo};
use std::alloc::Global;

/// The messages of a server go onto the links of their addressees. Where that fails some may have gone, as `undo` keeps.
pub(crate) fn push_all(
    alloc: Global,
    post: &mut Post,
    send: &[(Peer, Msg)],
    undo: &mut Undo,
) -> Result<(), CoreError>
    ensures ok { OnOk result (post.new ≡ with_pushed send.now post.old) }
    ensures undo { undone undo.new post.new ≡ undone undo.old post.old }
    ensures spent { (counter : TheCounter) → IsErrOf result (errors.Spent counter) →
        (counter ≡ Segments) × (is_full_down send.now post.old ≡ true) }
    ensures room { OnOk result (is_full_down send.now post.old ≡ false) }
{
    for sent in send {
        push(alloc, post, sent.0, &sent.1, undo)?;
    }
    Ok(())
}

/// The message of a client, if there is one, goes onto its link with the server, or nothing changes.
pub(crate) fn push_up(
    alloc: Global,
    post: &mut Post,
    send: Option<(u8, ClientMsg)>,
    undo: &mut Undo,
) -> Result<(), CoreError>
    ensures ok { OnOk result (post.new ≡ post_after send post.old) }
    ensures undo { undone undo.new post.new ≡ undone undo.old post.old }
    ensures spent { (counter : TheCounter) → IsErrOf result (errors.Spent counter) →
        (counter ≡ Segments) × (is_full_up send post.old ≡ true) }
    ensures room { OnOk result (is_full_up send post.old ≡ false) }
    ensures err { OnErr result (post.new ≡ post.old) }
{
    match send {
        Some((to, m)) => push(alloc, post, Peer::Server(to), &Msg::Client(m), undo),
        None => Ok(()),
    }
}

/// A message goes onto the link of its addressee, or nothing changes.
fn push(alloc: Global, post: &mut Post, to: Peer, m: &Msg, undo: &mut Undo) -> Result<(), CoreError>
    ensures ok { OnOk result (post.new ≡ post_pushed post.old to (message m.now)) }
    ensures undo { undone undo.new post.new ≡ undone undo.old post.old }
    ensures spent { (counter : TheCounter) → IsErrOf result (errors.Spent counter) →
        (counter ≡ Segments) × (is_full_for post.old to (message m.now) ≡ true) }
    ensures room { OnOk result (is_full_for post.old to (message m.now) ≡ false) }
    ensures err { OnErr result (post.new ≡ post.old) }
{
    let mut bytes = Vec::new(alloc);
    write(alloc, m, &mut bytes)?;
    match post.push_with_undo(alloc, to, &bytes, undo) {
        Ok(()) => Ok(()),
        Err(e) => Err(refusal(e)),
    }
}

/// Why no step is made where a link takes no message.
fn refusal(e: LinkError) -> CoreError
    ensures spent { e ≡ LinkError.Spent → result ≡ errors.Spent Segments }
    ensures memory { e ≡ LinkError.Memory → result ≡ errors.Memory }
{
    match e {
        LinkError::Spent => CoreError::Spent {
            counter: Counter::Segments,
        },
        LinkError::Memory => CoreError::Memory,
    }
}
