//! Parts of deletes and renames that another server leads.
use crate::server::{Event, Line, Seen, Way, plays_on, said};
use fs_server::ServerCore;
use std::test::Fail;

/// The file 1 comes to the second server.
const COMES: Line = (
    7,
    Event::Peer(0, said::PARCEL),
    Seen::Note,
    "Installs { prefix: FileId { numbers: [1] } }",
);

const YES: &str =
    "ServerOut { note: Votes { txn: TxnNo { server: 0, count: 7 }, vote: Yes }, send: List { items: [(Server(0), Peer(Vote { \
    voted: Voted { txn: TxnNo { server: 0, count: 7 }, number: 1, vote: Yes } }))] }, admitted: List { items: [] } }";

const YES_TOO: &str = "Votes { txn: TxnNo { server: 0, count: 7 }, vote: Yes }";

const BUSY: &str = "Stays { refusal: Busy { txn: TxnNo { server: 0, count: 7 } } }";

const LOCKED: &str = "Grants { count: 0, end: Locked { txn: TxnNo { server: 0, count: 7 } } }";

const DONE: &str =
    "ServerOut { note: Applies { txn: TxnNo { server: 0, count: 7 } }, send: List { items: [(Server(0), Peer(Done { done: \
    Done { txn: TxnNo { server: 0, count: 7 }, number: 1 } }))] }, admitted: List { items: [] } }";

const DONE_TOO: &str = "Applies { txn: TxnNo { server: 0, count: 7 } }";

const LEAVES: &str =
    "ServerOut { note: Moves { prefix: FileId { numbers: [1] }, to: 0 }, send: List { items: [(Server(0), Peer(\
    Parcel { parcel: Parcel { prefix: FileId { numbers: [1] }, piece: MapPiece { prefix: FileId { numbers: [1] }, \
    given: List { items: [(FileId { numbers: [1] }, true)] } }, records: List { items: [(FileId { numbers: [1] }, \
    Record { node: Node { kind: File, parent: Some((FileId { numbers: [] }, Name { bytes: [98] })), children: List { \
    items: [] }, size: 0, stamp: 0, handles: List { items: [Handle { session: Session(1), h: 1, modes: Modes { \
    acc_r: false, acc_w: true, acc_d: false, deny_r: false, deny_w: false, deny_d: false } }] } }, next: 1 })] }, \
    rows: List { items: [] } } }))] }, admitted: List { items: [] } }";

/// Two parts of a transaction, each decided once: until the last of them is the row stays locked, long behind its end, and
/// the file stays.
const FOLLOWS: &[Line] = &[
    COMES,
    (8, Event::Peer(0, said::PREPARE), Seen::All, YES),
    (8, Event::Peer(0, said::PREPARE), Seen::Note, "Strange"),
    (8, Event::Peer(0, said::PREPARE_MORE), Seen::Note, YES_TOO),
    (9, Event::Move("/1", 0), Seen::Note, BUSY),
    (9, Event::Peer(0, said::DECIDE), Seen::All, DONE),
    (9, Event::Peer(0, said::DECIDE), Seen::Note, "Strange"),
    (500, Event::Move("/1", 0), Seen::Note, BUSY),
    (500, Event::From(2, said::ASK_FIRST), Seen::Note, LOCKED),
    (501, Event::Peer(0, said::DECIDE_MORE), Seen::Note, DONE_TOO),
    (502, Event::Move("/1", 0), Seen::All, LEAVES),
];

#[test]
fn parts_are_decided_once(rt: HostRuntime) -> Result<(), Fail> {
    let alloc = rt.alloc();
    plays_on(
        &rt,
        alloc,
        ServerCore::new(alloc, 1, 10, 100)?,
        Way::AtOnce,
        FOLLOWS,
    )?;
    plays_on(
        &rt,
        alloc,
        ServerCore::new(alloc, 1, 10, 100)?,
        Way::Planned,
        FOLLOWS,
    )
}

const ELSEWHERE: &str =
    "Votes { txn: TxnNo { server: 0, count: 7 }, vote: Moved { prefix: FileId { numbers: [] }, to: 0 } }";

const ENDED: &str =
    "Votes { txn: TxnNo { server: 0, count: 7 }, vote: Ended { lease: LeaseNo { server: 0, count: 3 }, until: 100, now: 200 } }";

/// What is not Yes is asked for again, and not decided.
const REFUSES: &[Line] = &[
    (6, Event::Peer(0, said::PREPARE), Seen::Note, ELSEWHERE),
    COMES,
    (200, Event::Peer(0, said::PREPARE), Seen::Note, ENDED),
    (200, Event::Peer(0, said::PREPARE), Seen::Note, ENDED),
    (200, Event::Peer(0, said::DECIDE), Seen::Note, "Strange"),
    (
        201,
        Event::Move("/1", 0),
        Seen::Note,
        "Moves { prefix: FileId { numbers: [1] }, to: 0 }",
    ),
];

#[test]
fn a_part_is_refused(rt: HostRuntime) -> Result<(), Fail> {
    let alloc = rt.alloc();
    plays_on(
        &rt,
        alloc,
        ServerCore::new(alloc, 1, 10, 100)?,
        Way::Planned,
        REFUSES,
    )
}

const WANTS_PATH: &str =
    "ServerOut { note: PathDenies { why: Wanted { file: FileId { numbers: [1] } } }, send: List { items: [(Server(2), Peer(PathNo { \
    file: FileId { numbers: [1, 1] }, why: Wanted { file: FileId { numbers: [1] } } })), (Server(0), Peer(PathAsk { file: FileId { \
    numbers: [1] }, parent: FileId { numbers: [] } }))] }, admitted: List { items: [] } }";

const PATH_OUT: &str =
    "ServerOut { note: Votes { txn: TxnNo { server: 0, count: 1 }, vote: PathsOut { no: PathNo { server: 1, count: 1 } } }, send: \
    List { items: [(Server(0), Peer(Vote { voted: Voted { txn: TxnNo { server: 0, count: 1 }, number: 1, vote: PathsOut { no: \
    PathNo { server: 1, count: 1 } } } })), (Server(2), Peer(PathRecall { no: PathNo { server: 1, count: 1 } }))] }, admitted: List \
    { items: [] } }";

const KEPT: &str =
    "PathDenies { why: Frozen { file: FileId { numbers: [1] }, txn: TxnNo { server: 0, count: 1 } } }";

const YES_TO_GO: &str = "Votes { txn: TxnNo { server: 0, count: 1 }, vote: Yes }";

const DECIDED: &str = "Applies { txn: TxnNo { server: 0, count: 1 } }";

const OVER: &str =
    "ServerOut { note: Votes { txn: TxnNo { server: 0, count: 1 }, vote: Ended { lease: LeaseNo { server: 0, count: 3 }, until: \
    100, now: 200 } }, send: List { items: [(Server(0), Peer(Vote { voted: Voted { txn: TxnNo { server: 0, count: 1 }, number: 1, \
    vote: Ended { lease: LeaseNo { server: 0, count: 3 }, until: 100, now: 200 } } }))] }, admitted: List { items: [] } }";

/// A directory that is to go: where a path leads over it, that is asked back; else it is kept until its last part is decided, and no path
/// over it is given out. Where its lease is over, no path is asked back.
const TO_GO: &[Line] = &[
    (
        7,
        Event::Peer(0, said::DIR_PARCEL),
        Seen::Note,
        "Installs { prefix: FileId { numbers: [1] } }",
    ),
    (
        8,
        Event::Peer(2, said::PATH_ASK_BELOW),
        Seen::All,
        WANTS_PATH,
    ),
    (
        9,
        Event::Peer(0, said::PATH_OF_DIR),
        Seen::Note,
        "PathHolds { no: PathNo { server: 0, count: 1 } }",
    ),
    (
        10,
        Event::Peer(2, said::PATH_ASK_BELOW),
        Seen::Note,
        "PathGrants { no: PathNo { server: 1, count: 1 } }",
    ),
    (11, Event::Peer(0, said::PREPARE_TO_GO), Seen::All, PATH_OUT),
    (12, Event::Peer(0, said::DECIDE_NONE), Seen::Note, "Strange"),
    (
        13,
        Event::Peer(2, said::PATH_BELOW_BACK),
        Seen::Note,
        "PathBack { no: PathNo { server: 1, count: 1 } }",
    ),
    (
        14,
        Event::Peer(0, said::PREPARE_TO_GO),
        Seen::Note,
        YES_TO_GO,
    ),
    (15, Event::Peer(2, said::PATH_ASK_BELOW), Seen::Note, KEPT),
    (
        16,
        Event::Peer(0, said::PREPARE_TO_GO_TOO),
        Seen::Note,
        YES_TO_GO,
    ),
    (17, Event::Peer(0, said::DECIDE_NONE), Seen::Note, DECIDED),
    (18, Event::Peer(2, said::PATH_ASK_BELOW), Seen::Note, KEPT),
    (
        19,
        Event::Peer(0, said::DECIDE_NONE_TOO),
        Seen::Note,
        DECIDED,
    ),
    (
        20,
        Event::Peer(2, said::PATH_ASK_BELOW),
        Seen::Note,
        "PathGrants { no: PathNo { server: 1, count: 2 } }",
    ),
    (200, Event::Peer(0, said::PREPARE_TO_GO), Seen::All, OVER),
];

#[test]
fn a_directory_is_kept_until_its_last_part_is_decided(rt: HostRuntime) -> Result<(), Fail> {
    let alloc = rt.alloc();
    plays_on(
        &rt,
        alloc,
        ServerCore::new(alloc, 1, 10, 100)?,
        Way::AtOnce,
        TO_GO,
    )?;
    plays_on(
        &rt,
        alloc,
        ServerCore::new(alloc, 1, 10, 100)?,
        Way::Planned,
        TO_GO,
    )
}
