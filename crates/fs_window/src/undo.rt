//! How to undo what was done to an actor's links.
ghost use Rattle.std.specs.Prelude.{◌≡◌, ◌+◌, ◌≤◌, ◌^◌, ◌↔◌, ◌++◌, ◌∷◌, [], IsTrue, length, unwrap_or, Some, IfOk, IsErrOf, OnOk, OnErr};
ghost use Rattle.std.specs.FinMap.Entries.{find, put};
ghost use Rattle.fs_frag.specs.Cut.{cut_of};
ghost use Rattle.fs_window.specs.declared.link.Link.{Link as TheLink};
ghost use Rattle.fs_window.specs.LinkEnd.{pushed_count};
ghost use Rattle.fs_window.specs.Peers.{peer_cmp, are_peers_in_order, IsPlaceOf};
ghost use Rattle.fs_window.specs.Post.{new_link, link_pushed, link_accepted, heard_on};
ghost use Rattle.fs_window.specs.Undo.{link_before, restored, ends_undone};

use crate::error::LinkError;
use crate::heard::Heard;
use crate::link::{Before, Link};
use crate::packet::Packet;
use crate::peers::search_by_peer;
use fs_ident::{List, Memory, Peer};
use std::alloc::Global;
use std::marker::Model;

/// One link as it was before a message was pushed or a packet came; none where the link was made then.
#[derive(Debug, Drop)]
pub(crate) struct Step {
    pub(crate) peer: Peer,
    pub(crate) before: Option<Before>,
}

/// What was done to an actor's links, so that it can be undone.
#[derive(Debug, Drop)]
pub struct Undo {
    pub(crate) steps: List<Step>,
}

impl Model for Undo {
    ghost use Rattle.std.specs.Prelude.{List};
    ghost use Rattle.fs_window.specs.declared.undo.Step.{Step};

    ghost Value = { List Step };

    ghost view = { λ u. u.steps };
}

impl Undo {
    /// Nothing was done yet.
    pub fn new(alloc: Global) -> Undo
        ensures { result ≡ [] }
    {
        Undo {
            steps: List::new(alloc),
        }
    }
}

/// Pushes a message to an actor, and tells how to undo it.
pub(crate) fn push_step(
    alloc: Global,
    links: &mut List<(Peer, Link)>,
    width: u64,
    to: Peer,
    message: &[u8],
) -> Result<Step, LinkError>
    requires ordered { IsTrue (are_peers_in_order links.old) }
    requires wide { 1 ≤ width }
    requires narrow { width ≤ 64 }
    ensures ok { OnOk result (links.new ≡ put peer_cmp to
        (link_pushed (unwrap_or (find peer_cmp to links.old) (new_link width)) message.now)
        links.old) }
    ensures step { IfOk result (λ step. restored links.new step ≡ links.old) }
    ensures spent { IsErrOf result LinkError.Spent ↔ (2 ^ 64 ≤
        pushed_count (unwrap_or (find peer_cmp to links.old) (new_link width)).window
        + length (cut_of message.now)) }
    ensures err { OnErr result (links.new ≡ links.old) }
{
    match search_by_peer(links.as_slice(), to) {
        Ok(at) => Ok(Step {
            peer: to,
            before: Some(push_at(alloc, links, at, to, message)?),
        }),
        Err(at) => {
            let mut link = Link::new(alloc, width);
            link.push(alloc, message)?;
            links.insert(at, (to, link))?;
            Ok(Step {
                peer: to,
                before: None,
            })
        }
    }
}

/// Pushes a message to an actor whose link stands at the place, and tells how to undo it.
fn push_at(
    alloc: Global,
    links: &mut List<(Peer, Link)>,
    at: usize,
    to: Peer,
    message: &[u8],
) -> Result<Before, LinkError>
    requires { IsPlaceOf links.old to at }
    ensures ok { (new : TheLink) → OnOk result (links.new ≡
        put peer_cmp to (link_pushed (unwrap_or (find peer_cmp to links.old) new) message.now)
        links.old) }
    ensures before { (new : TheLink) → IfOk result (λ before. link_before before
        (link_pushed (unwrap_or (find peer_cmp to links.old) new) message.now) ≡
        unwrap_or (find peer_cmp to links.old) new) }
    ensures spent { (new : TheLink) → IsErrOf result LinkError.Spent ↔ (2 ^ 64 ≤
        pushed_count (unwrap_or (find peer_cmp to links.old) new).window
        + length (cut_of message.now)) }
    ensures err { OnErr result (links.new ≡ links.old) }
{
    let entry = links.at_mut(at);
    entry.1.push_with_undo(alloc, message)
}

/// Takes a packet of an actor, and tells how to undo it.
pub(crate) fn accept_step(
    alloc: Global,
    links: &mut List<(Peer, Link)>,
    width: u64,
    from: Peer,
    p: &Packet,
) -> Result<(Heard, Step), Memory>
    requires ordered { IsTrue (are_peers_in_order links.old) }
    requires wide { 1 ≤ width }
    requires narrow { width ≤ 64 }
    ensures heard { IfOk result (λ told. told.0 ≡
        heard_on (unwrap_or (find peer_cmp from links.old) (new_link width)) p.now) }
    ensures state { OnOk result (links.new ≡ put peer_cmp from
        (link_accepted (unwrap_or (find peer_cmp from links.old) (new_link width)) p.now)
        links.old) }
    ensures step { IfOk result (λ told. restored links.new told.1 ≡ links.old) }
    ensures err { OnErr result (links.new ≡ links.old) }
{
    match search_by_peer(links.as_slice(), from) {
        Ok(at) => {
            let (heard, before) = accept_at(alloc, links, at, from, p)?;
            let step = Step {
                peer: from,
                before: Some(before),
            };
            Ok((heard, step))
        }
        Err(at) => {
            let mut link = Link::new(alloc, width);
            let heard = link.accept(alloc, p)?;
            links.insert(at, (from, link))?;
            let step = Step {
                peer: from,
                before: None,
            };
            Ok((heard, step))
        }
    }
}

/// Takes a packet of an actor whose link stands at the place, and tells how to undo it.
fn accept_at(
    alloc: Global,
    links: &mut List<(Peer, Link)>,
    at: usize,
    from: Peer,
    p: &Packet,
) -> Result<(Heard, Before), Memory>
    requires { IsPlaceOf links.old from at }
    ensures heard { (new : TheLink) → IfOk result (λ told. told.0 ≡
        heard_on (unwrap_or (find peer_cmp from links.old) new) p.now) }
    ensures state { (new : TheLink) → OnOk result (links.new ≡
        put peer_cmp from (link_accepted (unwrap_or (find peer_cmp from links.old) new) p.now)
        links.old) }
    ensures before { (new : TheLink) → IfOk result (λ told. link_before told.1
        (link_accepted (unwrap_or (find peer_cmp from links.old) new) p.now) ≡
        unwrap_or (find peer_cmp from links.old) new) }
    ensures err { OnErr result (links.new ≡ links.old) }
{
    let entry = links.at_mut(at);
    entry.1.accept_with_undo(alloc, p)
}

/// Keeps how to undo the step, or undoes it when out of memory.
pub(crate) fn record_step(
    links: &mut List<(Peer, Link)>,
    step: Step,
    undo: &mut Undo,
) -> Result<(), Memory>
    requires { IsTrue (are_peers_in_order links.old) }
    ensures ok { OnOk result (links.new ≡ links.old) }
    ensures noted { OnOk result (undo.new ≡ undo.old ++ step ∷ []) }
    ensures err { OnErr result (links.new ≡ restored links.old step) }
    ensures same { OnErr result (undo.new ≡ undo.old) }
{
    match undo.steps.offer(step) {
        Ok(()) => Ok(()),
        Err(step) => {
            restore(links, step);
            Err(Memory)
        }
    }
}

/// Undoes the steps, the last one first.
pub(crate) fn restore_all(links: &mut List<(Peer, Link)>, undo: Undo)
    requires { IsTrue (are_peers_in_order links.old) }
    ensures undone { links.new ≡ ends_undone undo links.old }
    ensures ordered { IsTrue (are_peers_in_order links.new) }
{
    let mut steps = undo.steps.into_vec();
    while let Some(step) = steps.pop() {
        restore(links, step);
    }
}

/// Undoes a step.
fn restore(links: &mut List<(Peer, Link)>, step: Step)
    requires { IsTrue (are_peers_in_order links.old) }
    ensures { links.new ≡ restored links.old step }
{
    let Step { peer, before } = step;
    let Ok(at) = search_by_peer(links.as_slice(), peer) else {
        return;
    };
    match before {
        None => {
            let _ = links.remove(at);
        }
        Some(before) => restore_at(links, at, peer, before),
    }
}

/// Undoes a step on a link that stands at the place and was there before.
fn restore_at(links: &mut List<(Peer, Link)>, at: usize, peer: Peer, before: Before)
    requires { IsPlaceOf links.old peer at }
    ensures { (l : TheLink) → find peer_cmp peer links.old ≡ Some l →
        links.new ≡ put peer_cmp peer (link_before before l) links.old }
{
    let entry = links.at_mut(at);
    entry.1.undo(before);
}
