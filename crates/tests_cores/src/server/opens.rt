//! An open with its leases, and files that two sessions have open.
use crate::server::{
    ADMITS, ADMITS_ONE, Event, Line, ONE_GRANT, Seen, THREE_GRANTS, plays_first, said,
};
use std::test::Fail;

const OPENS: &str =
    "ServerOut { note: Grants { count: 3, end: All }, send: List { items: [(Client(Session(1)), Answer(Granted { \
    grants: List { items: [Grant { no: LeaseNo { server: 0, count: 1 }, field: Own(FileId { numbers: [1] }), kind: \
    Exclusive, until: 100, value: Own(List { items: [] }) }, Grant { no: LeaseNo { server: 0, count: 2 }, field: \
    SelfW(FileId { numbers: [1] }, AccW), kind: Exclusive, until: 100, value: SelfW }, Grant { no: LeaseNo { server: 0, \
    count: 3 }, field: Other(FileId { numbers: [1] }, DenyW), kind: Shared, until: 100, value: Other(false) }] }, \
    fresh: None, end: All }))] }, admitted: List { items: [] } }";

const DENIAL_WAITS: &str =
    "ServerOut { note: Grants { count: 0, end: Wait { blocker: LeaseNo { server: 0, count: 3 } } }, send: List { items: \
    [(Client(Session(2)), Answer(Granted { grants: List { items: [] }, fresh: None, end: Wait { blocker: LeaseNo { \
    server: 0, count: 3 } } })), (Client(Session(1)), Answer(Recall { no: LeaseNo { server: 0, count: 3 } }))] }, \
    admitted: List { items: [] } }";

/// A session may not deny what another is told that none denies: that lease is asked back.
const DENIED: &[Line] = &[
    (0, Event::From(1, said::ASK_TO_OPEN), Seen::All, OPENS),
    (
        1,
        Event::From(2, said::ASK_SELF_DENIES),
        Seen::All,
        DENIAL_WAITS,
    ),
];

#[test]
fn a_denial_waits_for_an_open(rt: HostRuntime) -> Result<(), Fail> {
    plays_first(&rt, rt.alloc(), DENIED)
}

const OTHERS_WRITE: &str =
    "ServerOut { note: Grants { count: 1, end: All }, send: List { items: [(Client(Session(3)), Answer(Granted { grants: \
    List { items: [Grant { no: LeaseNo { server: 0, count: 4 }, field: Other(FileId { numbers: [1] }, AccW), kind: \
    Shared, until: 100, value: Other(true) }] }, fresh: None, end: All }))] }, admitted: List { items: [] } }";

const LAST_WRITER_WAITS: &str =
    "ServerOut { note: Grants { count: 0, end: Wait { blocker: LeaseNo { server: 0, count: 4 } } }, send: List { items: \
    [(Client(Session(2)), Answer(Granted { grants: List { items: [] }, fresh: None, end: Wait { blocker: LeaseNo { \
    server: 0, count: 4 } } })), (Client(Session(3)), Answer(Recall { no: LeaseNo { server: 0, count: 4 } }))] }, \
    admitted: List { items: [] } }";

/// The root's first child, which the first two sessions have open for writing, with no leases on it. A session is told
/// that another writes; of two writers one may then stop, and the other only once that is given back.
const TWO_WRITERS: &[Line] = &[
    (
        0,
        Event::From(1, said::ASK_TO_CREATE),
        Seen::Note,
        THREE_GRANTS,
    ),
    (0, Event::From(1, said::LOG), Seen::Note, ADMITS),
    (0, Event::From(1, said::LOG_OF_OPEN), Seen::Note, ADMITS_ONE),
    (0, Event::From(2, said::LOG_OF_OPEN), Seen::Note, ADMITS_ONE),
    (
        0,
        Event::From(3, said::ASK_OTHER_WRITES),
        Seen::All,
        OTHERS_WRITE,
    ),
    (
        1,
        Event::From(1, said::ASK_SELF_WRITES),
        Seen::Note,
        ONE_GRANT,
    ),
    (
        1,
        Event::From(2, said::ASK_SELF_WRITES),
        Seen::All,
        LAST_WRITER_WAITS,
    ),
    (
        2,
        Event::From(3, said::RELEASE_FOURTH),
        Seen::Note,
        "Frees { count: 1, end: All }",
    ),
    (
        2,
        Event::From(2, said::ASK_SELF_WRITES),
        Seen::Note,
        ONE_GRANT,
    ),
];

#[test]
fn one_of_two_writers_stays(rt: HostRuntime) -> Result<(), Fail> {
    plays_first(&rt, rt.alloc(), TWO_WRITERS)
}
