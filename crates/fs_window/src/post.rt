//! All links of one actor.
ghost use Rattle.std.specs.Prelude.{◌≡◌, ◌+◌, ◌≤◌, ◌^◌, ◌↔◌, length, IfOk, IsErrOf, OnOk, OnErr};
ghost use Rattle.fs_frag.specs.Cut.{cut_of};
ghost use Rattle.fs_window.specs.Post.{AreLinks, no_links, pushed_to, got_from, post_pushed, post_accepted, post_due, links_sent};
ghost use Rattle.fs_window.specs.Undo.{undone};

use crate::error::LinkError;
use crate::heard::Heard;
use crate::link::Link;
use crate::links::{accept_at, add_due, link_with, push_at};
use crate::packet::Packet;
use crate::peers::search_by_peer;
use crate::sent::Sent;
use crate::touched::{Touched, mark_touched, nothing_touched, touch};
use crate::undo::{Undo, accept_step, push_step, record_step, restore_all};
use fs_ident::{List, Memory, Peer, Twin};
use std::alloc::Global;
use std::marker::Model;

/// All links of one actor: to each other actor go the messages that are pushed here, and from each come those that
/// were pushed there, whole, once and in their order, whatever the network loses, repeats or reorders.
#[derive(Debug, Drop)]
pub struct Post {
    me: Peer,
    width: u64,
    links: List<(Peer, Link)>,
    touched: Touched,
}

impl Model for Post {
    ghost use Rattle.fs_window.specs.Post.{Links, AreLinks};
    ghost use Rattle.fs_window.specs.Touched.{OthersAreSettled};

    ghost Value = { Links };

    ghost view = { λ p. record { me = p.me; width = p.width; ends = p.links } };

    ghost invariant = { λ p. AreLinks (record { me = p.me; width = p.width; ends = p.links })
        × OthersAreSettled p.touched p.links };
}

impl Post {
    /// The links of an actor that has none yet. On each so many segments, from 1 to 64, may be on their way at once.
    pub fn new(alloc: Global, me: Peer, width: u64) -> Result<Post, Memory>
        requires wide { 1 ≤ width }
        requires narrow { width ≤ 64 }
        ensures { IfOk result (λ post. post ≡ no_links me width) }
    {
        Ok(Post {
            me,
            width,
            links: List::new(alloc),
            touched: nothing_touched(alloc),
        })
    }

    /// How many segments were pushed to an actor.
    pub fn pushed(&self, to: Peer) -> u64
        ensures count { result ≡ pushed_to self.now to }
        ensures valid { AreLinks self.now }
    {
        match link_with(self.links.as_slice(), to) {
            Some(link) => link.pushed(),
            None => 0,
        }
    }

    /// How many segments an actor's packets gave.
    pub fn got(&self, from: Peer) -> u64
        ensures { result ≡ got_from self.now from }
    {
        match link_with(self.links.as_slice(), from) {
            Some(link) => link.got(),
            None => 0,
        }
    }

    /// Cuts a message and pushes all its segments to an actor. `Spent` exactly where numbers are wanting for them; then
    /// none is pushed.
    #[tactic(auto, using(crate::proofs::ByActor::ordered_put))]
    pub fn push(&mut self, alloc: Global, to: Peer, message: &[u8]) -> Result<(), LinkError>
        ensures ok { OnOk result (self.new ≡ post_pushed self.old to message.now) }
        ensures spent { IsErrOf result LinkError.Spent ↔
            (2 ^ 64 ≤ pushed_to self.old to + length (cut_of message.now)) }
        ensures err { OnErr result (self.new ≡ self.old) }
    {
        touch(self.links.as_slice(), to, &mut self.touched);
        match search_by_peer(self.links.as_slice(), to) {
            Ok(at) => push_at(alloc, &mut self.links, at, to, message)?,
            Err(at) => {
                let mut link = Link::new(alloc, self.width);
                link.push(alloc, message)?;
                self.links.insert(at, (to, link))?;
            }
        }
        Ok(())
    }

    /// Takes a packet of an actor, and tells what it gives.
    #[tactic(auto, using(crate::proofs::ByActor::ordered_put))]
    pub fn accept(&mut self, alloc: Global, from: Peer, p: &Packet) -> Result<Heard, Memory>
        ensures heard { IfOk result (λ heard. heard ≡ (post_accepted self.old from p.now).heard) }
        ensures state { OnOk result (self.new ≡ (post_accepted self.old from p.now).links) }
        ensures err { OnErr result (self.new ≡ self.old) }
    {
        touch(self.links.as_slice(), from, &mut self.touched);
        match search_by_peer(self.links.as_slice(), from) {
            Ok(at) => Ok(accept_at(alloc, &mut self.links, at, from, p)?),
            Err(at) => {
                let mut link = Link::new(alloc, self.width);
                let heard = link.accept(alloc, p)?;
                self.links.insert(at, (from, link))?;
                Ok(heard)
            }
        }
    }

    /// Pushes a message as `push` does, and keeps in `undo` how to undo it: no segment is copied.
    pub fn push_with_undo(
        &mut self,
        alloc: Global,
        to: Peer,
        message: &[u8],
        undo: &mut Undo,
    ) -> Result<(), LinkError>
        ensures ok { OnOk result (self.new ≡ post_pushed self.old to message.now) }
        ensures undo { OnOk result (undone undo.new self.new ≡ undone undo.old self.old) }
        ensures spent { IsErrOf result LinkError.Spent ↔
            (2 ^ 64 ≤ pushed_to self.old to + length (cut_of message.now)) }
        ensures err { OnErr result (self.new ≡ self.old) }
        ensures same { OnErr result (undo.new ≡ undo.old) }
    {
        touch(self.links.as_slice(), to, &mut self.touched);
        let step = push_step(alloc, &mut self.links, self.width, to, message)?;
        record_step(&mut self.links, step, undo)?;
        Ok(())
    }

    /// Takes a packet as `accept` does, and keeps in `undo` how to undo it: of what waits nothing is copied.
    pub fn accept_with_undo(
        &mut self,
        alloc: Global,
        from: Peer,
        p: &Packet,
        undo: &mut Undo,
    ) -> Result<Heard, Memory>
        ensures heard { IfOk result (λ heard. heard ≡ (post_accepted self.old from p.now).heard) }
        ensures state { OnOk result (self.new ≡ (post_accepted self.old from p.now).links) }
        ensures undo { OnOk result (undone undo.new self.new ≡ undone undo.old self.old) }
        ensures err { OnErr result (self.new ≡ self.old) }
        ensures same { OnErr result (undo.new ≡ undo.old) }
    {
        touch(self.links.as_slice(), from, &mut self.touched);
        let (heard, step) = accept_step(alloc, &mut self.links, self.width, from, p)?;
        record_step(&mut self.links, step, undo)?;
        Ok(heard)
    }

    /// Undoes what `undo` keeps, the last first. Takes no memory.
    pub fn undo(&mut self, undo: Undo)
        ensures { self.new ≡ undone undo self.old }
    {
        self.touched.all = true;
        restore_all(&mut self.links, undo);
    }

    /// What goes to the other actors, link by link: the segments that were not sent yet, as far as the width reaches,
    /// and then, on a `turn`, those that were sent and are not acknowledged. Where nothing goes to the actor of which
    /// a packet with a body was `heard`, an acknowledgement alone goes.
    pub fn due(
        &mut self,
        alloc: Global,
        turn: bool,
        heard: Option<Peer>,
    ) -> Result<List<Sent>, Memory>
        ensures sent { IfOk result (λ sent. sent ≡ (post_due self.old turn heard).sent) }
        ensures state { OnOk result (self.new ≡ (post_due self.old turn heard).links) }
        ensures err { OnErr result (self.new ≡ self.old) }
    {
        let sent = self.packets(alloc, turn, heard)?;
        self.mark_sent();
        Ok(sent)
    }

    /// What `due` sends. Nothing changes.
    pub fn packets(
        &self,
        alloc: Global,
        turn: bool,
        heard: Option<Peer>,
    ) -> Result<List<Sent>, Memory>
        ensures { IfOk result (λ sent. sent ≡ (post_due self.now turn heard).sent) }
    {
        let mut sent = List::new(alloc);
        add_due(
            alloc,
            self.me,
            self.links.as_slice(),
            &self.touched,
            turn,
            heard,
            &mut sent,
        )?;
        Ok(sent)
    }

    /// Counts what `packets` told as sent. Takes no memory.
    #[tactic(auto, using(crate::proofs::ByActor::ordered_changed))]
    pub fn mark_sent(&mut self)
        ensures { self.new ≡ links_sent self.old }
    {
        mark_touched(self.links.items_mut(), &mut self.touched);
    }
}

impl Twin for Post {
    fn copy(&self, alloc: Global) -> Result<Post, Memory> {
        Ok(Post {
            me: self.me,
            width: self.width,
            links: self.links.copy(alloc)?,
            touched: Touched {
                all: true,
                places: List::new(alloc),
            },
        })
    }

    fn discard(self) {}
}
