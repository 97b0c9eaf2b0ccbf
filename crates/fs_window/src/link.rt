//! One end of a link, for messages.
ghost use Rattle.std.specs.Prelude.{◌≡◌, ◌+◌, ◌≤◌, ◌^◌, ◌↔◌, length, IfOk, IsErrOf, OnOk, OnErr};
ghost use Rattle.fs_frag.specs.Cut.{cut_of};
ghost use Rattle.fs_window.specs.LinkEnd.{pushed_count, due_of};
ghost use Rattle.fs_window.specs.Post.{new_link, link_pushed, link_accepted, no_segment, heard_on, link_sent};
ghost use Rattle.fs_window.specs.Undo.{link_before};

use crate::error::LinkError;
use crate::heard::Heard;
use crate::packet::Packet;
use crate::was::Was;
use crate::window::Window;
use fs_frag::{Back, Joiner, cut, segment_count};
use fs_ident::{List, Memory, Twin};
use std::alloc::Global;

/// One end of a link with another actor, and the segments so far of the message that comes over it.
#[derive(Debug, Drop)]
pub(crate) struct Link {
    window: Window,
    joiner: Joiner,
}

/// What a link needs to be again what it was before a message was pushed or a packet came: nothing that stays as it
/// is.
#[derive(Debug, Drop)]
pub(crate) struct Before {
    window: Was,
    joiner: Back,
}

impl Link {
    /// A new link, of which so many segments, from 1 to 64, may be on their way at once.
    pub(crate) fn new(alloc: Global, width: u64) -> Link
        requires wide { 1 ≤ width }
        requires narrow { width ≤ 64 }
        ensures { result ≡ new_link width }
    {
        Link {
            window: Window::new(alloc, width),
            joiner: Joiner::new(alloc),
        }
    }

    /// How many segments were pushed.
    pub(crate) fn pushed(&self) -> u64
        ensures { result ≡ pushed_count self.now.window }
    {
        self.window.pushed()
    }

    /// How many segments were given.
    pub(crate) fn got(&self) -> u64
        ensures { result ≡ self.now.window.got }
    {
        self.window.got()
    }

    /// Takes a message to be sent. `Spent` exactly where numbers are wanting for its segments.
    pub(crate) fn push(&mut self, alloc: Global, message: &[u8]) -> Result<(), LinkError>
        ensures ok { OnOk result (self.new ≡ link_pushed self.old message.now) }
        ensures spent { IsErrOf result LinkError.Spent ↔
            (2 ^ 64 ≤ pushed_count self.old.window + length (cut_of message.now)) }
        ensures err { OnErr result (self.new ≡ self.old) }
    {
        self.push_with_undo(alloc, message)?;
        Ok(())
    }

    /// Takes a message to be sent, and tells how to undo it.
    pub(crate) fn push_with_undo(
        &mut self,
        alloc: Global,
        message: &[u8],
    ) -> Result<Before, LinkError>
        ensures before { IfOk result (λ before. link_before before self.new ≡ self.old) }
        ensures ok { OnOk result (self.new ≡ link_pushed self.old message.now) }
        ensures spent { IsErrOf result LinkError.Spent ↔
            (2 ^ 64 ≤ pushed_count self.old.window + length (cut_of message.now)) }
        ensures err { OnErr result (self.new ≡ self.old) }
    {
        if segment_count(message) > u64::MAX - self.pushed() {
            return Err(LinkError::Spent);
        }
        let segments = cut(alloc, message)?;
        Ok(Before {
            window: self.window.push_with_undo(alloc, segments)?,
            joiner: Back::Same,
        })
    }

    /// Takes a packet of the other end.
    pub(crate) fn accept(&mut self, alloc: Global, p: &Packet) -> Result<Heard, Memory>
        ensures heard { IfOk result (λ heard. heard ≡ heard_on self.old p.now) }
        ensures state { OnOk result (self.new ≡ link_accepted self.old p.now) }
        ensures err { OnErr result (self.new ≡ self.old) }
    {
        let (heard, _) = self.accept_with_undo(alloc, p)?;
        Ok(heard)
    }

    /// Takes a packet of the other end, and tells how to undo it.
    pub(crate) fn accept_with_undo(
        &mut self,
        alloc: Global,
        p: &Packet,
    ) -> Result<(Heard, Before), Memory>
        ensures heard { IfOk result (λ told. told.0 ≡ heard_on self.old p.now) }
        ensures before { IfOk result (λ told. link_before told.1 self.new ≡ self.old) }
        ensures state { OnOk result (self.new ≡ link_accepted self.old p.now) }
        ensures err { OnErr result (self.new ≡ self.old) }
    {
        let segments = self.window.gives(alloc, p)?;
        if segments.is_empty() {
            let before = Before {
                window: self.window.take_with_undo(alloc, p)?,
                joiner: Back::Same,
            };
            return Ok((nothing_heard(alloc), before));
        }
        let (joined, joiner) = self.joiner.add_all(alloc, segments.as_slice())?;
        let window = match self.window.take_with_undo(alloc, p) {
            Ok(was) => was,
            Err(_) => unreachable!(),
        };
        let heard = Heard {
            fresh: segments.len() as u64,
            joined,
        };
        Ok((heard, Before { window, joiner }))
    }

    /// Is again what it was before. Takes no memory.
    pub(crate) fn undo(&mut self, before: Before)
        ensures { self.new ≡ link_before before self.old }
    {
        let Before { window, joiner } = before;
        self.window.undo(window);
        self.joiner.undo(joiner);
    }

    /// What goes to the other end.
    pub(crate) fn packets(
        &self,
        alloc: Global,
        again: bool,
        heard: bool,
    ) -> Result<List<Packet>, Memory>
        ensures { IfOk result (λ packets. packets ≡ due_of self.now.window again heard) }
    {
        self.window.packets(alloc, again, heard)
    }

    /// Counts what goes to the other end as sent.
    pub(crate) fn mark_sent(&mut self)
        ensures { self.new ≡ link_sent self.old }
    {
        self.window.mark_sent();
    }
}

impl Twin for Link {
    fn copy(&self, alloc: Global) -> Result<Link, Memory> {
        Ok(Link {
            window: self.window.copy(alloc)?,
            joiner: self.joiner.copy(alloc)?,
        })
    }

    fn discard(self) {}
}

/// What a packet gives that gives no segment.
fn nothing_heard(alloc: Global) -> Heard
    ensures { result ≡ no_segment }
{
    Heard {
        fresh: 0,
        joined: List::new(alloc),
    }
}
