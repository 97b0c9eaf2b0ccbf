//! A delete that a server leads.
use crate::client::asked::Asking;
use crate::client::{Comes, Line, plays_new, said};
use std::test::Fail;

/// All that it needs is asked for, and then its server is asked to lead it.
const LEADS: &[Line] = &[
    (0, Comes::Act(Asking::Delete), ("asked", 2, Some(0))),
    (1, Comes::Heard(0, said::NAMED), ("granted", 2, None)),
    (2, Comes::Act(Asking::Delete), ("asked", 6, Some(0))),
    (2, Comes::Act(Asking::Lookup), ("read", 1, None)),
    (2, Comes::Act(Asking::Delete), ("busy", 0, None)),
    (3, Comes::Heard(0, said::UNUSED), ("granted", 6, None)),
    (4, Comes::Act(Asking::Delete), ("leading", 2, Some(0))),
];

/// Nothing else is done until it has ended, and no other answer ends it.
const WAITS: &[Line] = &[
    (5, Comes::Act(Asking::Lookup), ("busy", 0, None)),
    (5, Comes::Turn, ("idle", 0, None)),
    (5, Comes::Heard(1, said::LED_DELETED), ("strange", 0, None)),
    (5, Comes::Heard(0, said::LED_RENAMED), ("strange", 0, None)),
    (5, Comes::Heard(0, said::SHIPPED_0), ("strange", 0, None)),
    (5, Comes::Heard(0, said::RECALL_SECOND), ("recall", 2, None)),
];

/// It may be asked for again, or is refused, and its number is free.
const AGAIN: &[Line] = &[
    (6, Comes::Heard(0, said::LED_AGAIN), ("led again", 0, None)),
    (6, Comes::Act(Asking::Delete), ("leading", 2, Some(0))),
    (7, Comes::Heard(0, said::LED_ENDED), ("led ended", 1, None)),
    (7, Comes::Heard(0, said::LED_AGAIN), ("strange", 0, None)),
    (7, Comes::Act(Asking::Delete), ("leading", 2, Some(0))),
];

/// It is done: the name is free, its number is used up, and a lease that was asked for goes back.
const DONE: &[Line] = &[
    (8, Comes::Heard(0, said::LED_DELETED), ("led", 2, None)),
    (8, Comes::Act(Asking::Delete), ("read", 3, None)),
    (8, Comes::Act(Asking::Kind("/1")), ("read", 4, None)),
    (9, Comes::Turn, ("releases", 1, Some(0))),
    (9, Comes::Heard(0, said::RELEASED_1), ("released", 1, None)),
];

#[test]
fn a_delete_is_led(rt: HostRuntime) -> Result<(), Fail> {
    plays_new(&rt, rt.alloc(), &[LEADS, WAITS, AGAIN, DONE])
}

/// A delete waits until the log is empty, also where it is a read.
const LOGGED: &[Line] = &[
    (0, Comes::Act(Asking::Create), ("asked", 3, Some(0))),
    (1, Comes::Heard(0, said::GRANTED), ("granted", 3, None)),
    (1, Comes::Act(Asking::Delete), ("read", 1, None)),
    (2, Comes::Act(Asking::Create), ("replied", 2, None)),
    (2, Comes::Act(Asking::Lookup), ("replied", 3, None)),
    (2, Comes::Act(Asking::Delete), ("asked", 5, Some(0))),
];

#[test]
fn a_delete_that_does_nothing_is_a_read(rt: HostRuntime) -> Result<(), Fail> {
    plays_new(&rt, rt.alloc(), &[LOGGED])
}
