//! Directories that come into other ones, by the paths of these.
use crate::forms::spend;
use crate::server::leads::CREATES_DIR;
use crate::server::{ADMITS_ONE, Event, Line, Seen, Way, plays, plays_on, said, server};
use fs_server::ServerCore;
use std::alloc::Global;
use std::process::Abort;
use std::test::Fail;

const CYCLES: &str =
    "ServerOut { note: Commits { txn: TxnNo { server: 0, count: 1 }, reply: Cycle }, send: List { items: [(Client(Session(1)), \
    Answer(Led { end: Done { reply: Cycle } }))] }, admitted: List { items: [Item { by: Client(Session(1)), n: 3, op: Rename { \
    sdir: FileId { numbers: [] }, sname: Name { bytes: [97] }, ddir: FileId { numbers: [1, 1] }, dname: Name { bytes: [104] } }, \
    reply: Cycle }] } }";

const RENAMES: &str =
    "ServerOut { note: Commits { txn: TxnNo { server: 0, count: 2 }, reply: Renamed }, send: List { items: [(Client(Session(1)), \
    Answer(Led { end: Done { reply: Renamed } }))] }, admitted: List { items: [Item { by: Client(Session(1)), n: 3, op: Rename { \
    sdir: FileId { numbers: [1] }, sname: Name { bytes: [102] }, ddir: FileId { numbers: [] }, dname: Name { bytes: [103] } }, \
    reply: Renamed }] } }";

const GIVES_PATH: &str =
    "ServerOut { note: PathGrants { no: PathNo { server: 0, count: 1 } }, send: List { items: [(Server(1), Peer(PathGrant { no: \
    PathNo { server: 0, count: 1 }, file: FileId { numbers: [1] }, path: List { items: [FileId { numbers: [] }, FileId { numbers: \
    [1, 1] }, FileId { numbers: [1] }] } }))] }, admitted: List { items: [] } }";

/// A directory does not come below itself. Once the one into which it is to come stands elsewhere, it does.
const ALL_HERE: &[Line] = &[
    (
        2,
        Event::From(1, said::ASK_BELOW),
        Seen::Note,
        "Grants { count: 2, end: All }",
    ),
    (
        3,
        Event::From(1, said::LOG_OF_DIR_BELOW),
        Seen::Note,
        ADMITS_ONE,
    ),
    (10, Event::From(1, said::LEAD_DIR_DOWN), Seen::All, CYCLES),
    (
        11,
        Event::From(1, said::LEAD_DIR_INTO_ROOT),
        Seen::All,
        RENAMES,
    ),
    (
        12,
        Event::From(1, said::LEAD_DIR_DOWN),
        Seen::Note,
        "Commits { txn: TxnNo { server: 0, count: 3 }, reply: Renamed }",
    ),
    (
        13,
        Event::Peer(1, said::PATH_ASK_DOWN),
        Seen::All,
        GIVES_PATH,
    ),
];

fn comes(rt: &impl Abort, alloc: Global, core: &mut ServerCore, way: Way) -> Result<(), Fail> {
    plays(rt, alloc, core, way, CREATES_DIR)?;
    plays(rt, alloc, core, way, ALL_HERE)
}

fn comes_in(rt: &impl Abort, alloc: Global, way: Way) -> Result<(), Fail> {
    let mut core = server(alloc)?;
    let done = comes(rt, alloc, &mut core, way);
    spend(core);
    done
}

#[test]
fn a_directory_comes_into_another_one_but_not_below_itself(rt: HostRuntime) -> Result<(), Fail> {
    comes_in(&rt, rt.alloc(), Way::AtOnce)?;
    comes_in(&rt, rt.alloc(), Way::Planned)
}

/// The directory 1 comes to the second server.
const DIR_COMES: Line = (
    7,
    Event::Peer(0, said::DIR_PARCEL),
    Seen::Note,
    "Installs { prefix: FileId { numbers: [1] } }",
);

const WANTS_PATH: &str =
    "ServerOut { note: Refuses { why: Wanted { file: FileId { numbers: [1] } } }, send: List { items: [(Client(Session(1)), \
    Answer(Led { end: Again { why: Wanted { file: FileId { numbers: [1] } } } })), (Server(0), Peer(PathAsk { file: FileId { \
    numbers: [1] }, parent: FileId { numbers: [] } }))] }, admitted: List { items: [] } }";

const STILL_WANTS_PATH: &str =
    "ServerOut { note: Refuses { why: Wanted { file: FileId { numbers: [1] } } }, send: List { items: [(Client(Session(1)), \
    Answer(Led { end: Again { why: Wanted { file: FileId { numbers: [1] } } } }))] }, admitted: List { items: [] } }";

const PREPARES: &str =
    "ServerOut { note: Prepares { txn: TxnNo { server: 1, count: 1 } }, send: List { items: [(Server(0), Peer(Prepare { prepare: \
    Prepare { txn: TxnNo { server: 1, count: 1 }, number: 1, session: Session(1), part: Part { file: FileId { numbers: [] }, uses: \
    List { items: [] }, freeze: Some(FileId { numbers: [2] }) } } })), (Server(0), Peer(Prepare { prepare: Prepare { txn: TxnNo { \
    server: 1, count: 1 }, number: 2, session: Session(1), part: Part { file: FileId { numbers: [2] }, uses: List { items: [] }, \
    freeze: Some(FileId { numbers: [2] }) } } }))] }, admitted: List { items: [] } }";

const COMMITS: &str =
    "ServerOut { note: Commits { txn: TxnNo { server: 1, count: 1 }, reply: Renamed }, send: List { items: [(Server(0), Peer(Decide \
    { decide: Decide { txn: TxnNo { server: 1, count: 1 }, number: 1, effects: List { items: [SetChild { dir: FileId { numbers: [] \
    }, name: Name { bytes: [98] }, to: None }] } } })), (Server(0), Peer(Decide { decide: Decide { txn: TxnNo { server: 1, count: 1 \
    }, number: 2, effects: List { items: [SetParent { file: FileId { numbers: [2] }, dir: FileId { numbers: [1] }, name: Name { \
    bytes: [103] } }] } } }))] }, admitted: List { items: [Item { by: Client(Session(1)), n: 3, op: Rename { sdir: FileId { numbers: \
    [] }, sname: Name { bytes: [98] }, ddir: FileId { numbers: [1] }, dname: Name { bytes: [103] } }, reply: Renamed }] } }";

const HOLDS: &str = "PathHolds { no: PathNo { server: 0, count: 1 } }";

const WAITS: &str = "Waits { txn: TxnNo { server: 1, count: 1 } }";

/// The path of the directory 1 is asked for once. When it is here, another directory comes into that one.
const COMES_BY_PATH: &[Line] = &[
    DIR_COMES,
    (
        10,
        Event::From(1, said::LEAD_SECOND_INTO_FIRST),
        Seen::All,
        WANTS_PATH,
    ),
    (
        11,
        Event::From(1, said::LEAD_SECOND_INTO_FIRST),
        Seen::All,
        STILL_WANTS_PATH,
    ),
    (12, Event::Peer(0, said::PATH_OF_DIR), Seen::Note, HOLDS),
    (
        13,
        Event::From(1, said::LEAD_SECOND_INTO_FIRST),
        Seen::All,
        PREPARES,
    ),
    (14, Event::Peer(0, said::YES_OF_SOURCE), Seen::Note, WAITS),
    (15, Event::Peer(0, said::YES_OF_MOVED), Seen::All, COMMITS),
    (16, Event::Peer(0, said::DONE_OF_SOURCE), Seen::Note, WAITS),
    (
        17,
        Event::Peer(0, said::DONE_OF_MOVED),
        Seen::Note,
        "Ends { txn: TxnNo { server: 1, count: 1 } }",
    ),
];

const ABORTS: &str =
    "ServerOut { note: Aborts { txn: TxnNo { server: 1, count: 1 }, why: Wanted { file: FileId { numbers: [1] } } }, send: List { \
    items: [(Server(0), Peer(Decide { decide: Decide { txn: TxnNo { server: 1, count: 1 }, number: 1, effects: List { items: [] } } \
    })), (Server(0), Peer(Decide { decide: Decide { txn: TxnNo { server: 1, count: 1 }, number: 2, effects: List { items: [] } } \
    }))] }, admitted: List { items: [] } }";

const ENDS_UNDONE: &str =
    "ServerOut { note: Ends { txn: TxnNo { server: 1, count: 1 } }, send: List { items: [(Client(Session(1)), Answer(Led { end: \
    Again { why: Wanted { file: FileId { numbers: [1] } } } }))] }, admitted: List { items: [] } }";

/// Where the path is asked back before all have voted, the directory does not come, and the path is wanted again.
const PATH_GOES: &[Line] = &[
    DIR_COMES,
    (
        10,
        Event::From(1, said::LEAD_SECOND_INTO_FIRST),
        Seen::All,
        WANTS_PATH,
    ),
    (11, Event::Peer(0, said::PATH_OF_DIR), Seen::Note, HOLDS),
    (
        12,
        Event::From(1, said::LEAD_SECOND_INTO_FIRST),
        Seen::All,
        PREPARES,
    ),
    (13, Event::Peer(0, said::YES_OF_SOURCE), Seen::Note, WAITS),
    (
        14,
        Event::Peer(0, said::FIRST_PATH_ASKED_BACK),
        Seen::Note,
        "PathFrees { no: PathNo { server: 0, count: 1 } }",
    ),
    (15, Event::Peer(0, said::YES_OF_MOVED), Seen::All, ABORTS),
    (16, Event::Peer(0, said::DONE_OF_SOURCE), Seen::Note, WAITS),
    (
        17,
        Event::Peer(0, said::DONE_OF_MOVED),
        Seen::All,
        ENDS_UNDONE,
    ),
    (
        18,
        Event::From(1, said::LEAD_SECOND_INTO_FIRST),
        Seen::All,
        WANTS_PATH,
    ),
];

const FROZEN: &str =
    "ServerOut { note: Refuses { why: Frozen { file: FileId { numbers: [1] }, txn: TxnNo { server: 0, count: 1 } } }, send: List { \
    items: [(Client(Session(1)), Answer(Led { end: Again { why: Frozen { file: FileId { numbers: [1] }, txn: TxnNo { server: 0, \
    count: 1 } } } }))] }, admitted: List { items: [] } }";

/// While the directory 1 is kept, since it is to go, none comes into it.
const DIR_IS_KEPT: &[Line] = &[
    DIR_COMES,
    (
        8,
        Event::Peer(0, said::PREPARE_TO_GO),
        Seen::Note,
        "Votes { txn: TxnNo { server: 0, count: 1 }, vote: Yes }",
    ),
    (
        9,
        Event::From(1, said::LEAD_SECOND_INTO_FIRST),
        Seen::All,
        FROZEN,
    ),
    (
        10,
        Event::Peer(0, said::DECIDE_NONE),
        Seen::Note,
        "Applies { txn: TxnNo { server: 0, count: 1 } }",
    ),
    (
        11,
        Event::From(1, said::LEAD_SECOND_INTO_FIRST),
        Seen::All,
        WANTS_PATH,
    ),
];

const GIVEN_BELOW: &str = "PathGrants { no: PathNo { server: 1, count: 1 } }";

/// No server gives a path twice, or one back that it has not.
const ODD_PATHS: &[Line] = &[
    DIR_COMES,
    (8, Event::Peer(0, said::PATH_OF_DIR), Seen::Note, HOLDS),
    (9, Event::Peer(0, said::PATH_OF_DIR), Seen::Note, "Strange"),
    (
        10,
        Event::Peer(2, said::PATH_ASK_BELOW),
        Seen::Note,
        GIVEN_BELOW,
    ),
    (
        11,
        Event::Peer(0, said::PATH_BELOW_BACK),
        Seen::Note,
        "Strange",
    ),
    (
        12,
        Event::Peer(2, said::PATH_BELOW_BACK),
        Seen::Note,
        "PathBack { no: PathNo { server: 1, count: 1 } }",
    ),
    (
        13,
        Event::Peer(2, said::PATH_BELOW_BACK),
        Seen::Note,
        "Strange",
    ),
];

/// The script of the second server, in either way.
fn plays_second(rt: &impl Abort, alloc: Global, script: &[Line]) -> Result<(), Fail> {
    for way in [Way::AtOnce, Way::Planned] {
        plays_on(rt, alloc, ServerCore::new(alloc, 1, 10, 100)?, way, script)?;
    }
    Ok(())
}

#[test]
fn a_directory_comes_by_a_path_that_is_asked_for(rt: HostRuntime) -> Result<(), Fail> {
    plays_second(&rt, rt.alloc(), COMES_BY_PATH)
}

#[test]
fn a_directory_does_not_come_where_the_path_goes(rt: HostRuntime) -> Result<(), Fail> {
    plays_second(&rt, rt.alloc(), PATH_GOES)
}

#[test]
fn a_directory_does_not_come_into_one_that_is_kept(rt: HostRuntime) -> Result<(), Fail> {
    plays_second(&rt, rt.alloc(), DIR_IS_KEPT)
}

#[test]
fn a_path_given_twice_or_not_given_is_strange(rt: HostRuntime) -> Result<(), Fail> {
    plays_second(&rt, rt.alloc(), ODD_PATHS)
}
