//! Files that servers say are with another one: the file 1 is with server 1.
use crate::client::asked::Asking;
use crate::client::{Comes, Line, plays_new, said};
use std::test::Fail;

/// The client hears that the file 1 is with server 1, asks there, and has a lease of each server then.
const GETS_BOTH: &[Line] = &[
    (0, Comes::Act(Asking::Kind("/1")), ("asked", 1, Some(0))),
    (0, Comes::Heard(0, said::MOVED), ("granted", 0, None)),
    (0, Comes::Act(Asking::Kind("/1")), ("asked", 1, Some(1))),
    (0, Comes::Heard(1, said::FILE_BY_1), ("granted", 1, None)),
    (0, Comes::Act(Asking::Kind("/1")), ("read", 1, None)),
    (0, Comes::Act(Asking::Kind("/")), ("asked", 1, Some(0))),
    (0, Comes::Heard(0, said::ROOT), ("granted", 1, None)),
];

#[test]
fn an_answer_that_ends_in_moved_is_a_hint(rt: HostRuntime) -> Result<(), Fail> {
    plays_new(&rt, rt.alloc(), &[GETS_BOTH])
}

/// The entries of two servers go in three parts, in order.
const SHIPS: &[Line] = &[
    (0, Comes::Act(Asking::Kind("/1")), ("asked", 1, Some(0))),
    (0, Comes::Heard(0, said::MOVED), ("granted", 0, None)),
    (0, Comes::Act(Asking::Create), ("asked", 3, Some(0))),
    (1, Comes::Heard(0, said::GRANTED), ("granted", 3, None)),
    (2, Comes::Act(Asking::Create), ("replied", 1, None)),
    (2, Comes::Act(Asking::Kind("/")), ("replied", 2, None)),
    (2, Comes::Act(Asking::Kind("/1")), ("replied", 3, None)),
    (2, Comes::Act(Asking::Kind("/")), ("replied", 4, None)),
    (3, Comes::Turn, ("ships", 2, Some(0))),
    (3, Comes::Heard(0, said::SHIPPED_2), ("shipped", 2, None)),
    (4, Comes::Turn, ("ships", 1, Some(1))),
    (4, Comes::Heard(1, said::SHIPPED_1), ("shipped", 1, None)),
    (5, Comes::Turn, ("ships", 1, Some(0))),
    (5, Comes::Heard(0, said::SHIPPED_1), ("shipped", 1, None)),
];

#[test]
fn a_log_goes_in_parts_to_its_servers(rt: HostRuntime) -> Result<(), Fail> {
    plays_new(&rt, rt.alloc(), &[SHIPS])
}

/// A lease is renewed by the server that has the file.
const RENEWS: &[Line] = &[
    (50, Comes::Turn, ("renews", 1, Some(1))),
    (
        51,
        Comes::Heard(1, said::RENEWED_BY_1),
        ("renewed", 1, None),
    ),
    (51, Comes::Turn, ("renews", 1, Some(0))),
    (52, Comes::Heard(0, said::RENEWED), ("renewed", 1, None)),
    (52, Comes::Turn, ("idle", 0, None)),
];

#[test]
fn leases_are_renewed_by_their_servers(rt: HostRuntime) -> Result<(), Fail> {
    plays_new(&rt, rt.alloc(), &[GETS_BOTH, RENEWS])
}

/// A lease goes back to the server that has the file.
const RELEASES: &[Line] = &[
    (1, Comes::Heard(0, said::RECALL), ("recall", 1, None)),
    (1, Comes::Heard(1, said::RECALL_BY_1), ("recall", 1, None)),
    (2, Comes::Turn, ("releases", 1, Some(1))),
    (3, Comes::Heard(1, said::RELEASED_1), ("released", 1, None)),
    (4, Comes::Turn, ("releases", 1, Some(0))),
    (5, Comes::Heard(0, said::RELEASED_1), ("released", 1, None)),
    (6, Comes::Turn, ("idle", 0, None)),
];

#[test]
fn leases_go_back_to_their_servers(rt: HostRuntime) -> Result<(), Fail> {
    plays_new(&rt, rt.alloc(), &[GETS_BOTH, RELEASES])
}
