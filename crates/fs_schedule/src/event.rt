//! Schedules and their events.
use fs_field::Field;
use fs_ident::{FileId, List, Memory, Peer, Session, Twin};
use fs_model::Op;
use std::alloc::Global;

/// Which form of the service a schedule is for.
#[derive(Clone, Copy, Debug, PartialEq, Eq)]
pub enum Head {
    /// The one-machine namespace.
    Direct,
    /// So many servers, and clients. How far two clocks may differ, and how long a lease lasts, in milliseconds.
    Servers { servers: u8, skew: u64, term: u64 },
}

/// What happens.
#[derive(Debug, Drop)]
pub enum What {
    /// The session begins.
    Join(Session),
    /// The session's user asks for an operation.
    Do(Session, Op),
    /// The packet of that number reaches its addressee; without a number, the least one that was never told.
    Tell(Option<u64>),
    /// A turn of the actor.
    Turn(Peer),
    /// The server asks for the leases on the field.
    Recall(u8, Field),
    /// The server gives what it manages below the prefix to another.
    Move { at: u8, prefix: FileId, to: u8 },
}

/// One event, at a reading of a clock in milliseconds, at most 10^15.
#[derive(Debug, Drop)]
pub struct Event {
    pub reading: u64,
    pub what: What,
}

/// A form and its events in order.
#[derive(Debug, Drop)]
pub struct Schedule {
    pub head: Head,
    pub events: List<Event>,
}

impl Twin for What {
    fn copy(&self, alloc: Global) -> Result<What, Memory> {
        match self {
            What::Join(session) => Ok(What::Join(*session)),
            What::Do(session, op) => Ok(What::Do(*session, op.copy(alloc)?)),
            What::Tell(number) => Ok(What::Tell(*number)),
            What::Turn(who) => Ok(What::Turn(*who)),
            What::Recall(server, field) => Ok(What::Recall(*server, field.copy(alloc)?)),
            What::Move { at, prefix, to } => Ok(What::Move {
                at: *at,
                prefix: prefix.copy(alloc)?,
                to: *to,
            }),
        }
    }

    fn discard(self) {
        drop(self);
    }
}

impl Twin for Event {
    fn copy(&self, alloc: Global) -> Result<Event, Memory> {
        Ok(Event {
            reading: self.reading,
            what: self.what.copy(alloc)?,
        })
    }

    fn discard(self) {
        drop(self);
    }
}

impl Twin for Schedule {
    fn copy(&self, alloc: Global) -> Result<Schedule, Memory> {
        Ok(Schedule {
            head: self.head,
            events: self.events.copy(alloc)?,
        })
    }

    fn discard(self) {
        drop(self);
    }
}
