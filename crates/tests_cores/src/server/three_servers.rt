//! A rename over three servers: the root's leads it, the directory that loses the name is with the third, and the file with the
//! second. And what becomes of it where a lease ends, or a part has moved.
use crate::forms::spend;
use crate::server::{
    ADMITS_ONE, Event, Line, Seen, THREE_GRANTS, Way, plays, plays_on, said, server,
};
use fs_server::ServerCore;
use std::alloc::Global;
use std::process::Abort;
use std::test::Fail;

/// A directory and a file in it are made, and handed over.
const SETS_UP: &[Line] = &[
    (
        0,
        Event::From(1, said::ASK_TO_CREATE),
        Seen::Note,
        THREE_GRANTS,
    ),
    (1, Event::From(1, said::LOG_OF_DIR), Seen::Note, ADMITS_ONE),
    (
        2,
        Event::From(1, said::ASK_BELOW),
        Seen::Note,
        "Grants { count: 2, end: All }",
    ),
    (3, Event::From(1, said::LOG_BELOW), Seen::Note, ADMITS_ONE),
    (
        4,
        Event::Move("/1/1", 1),
        Seen::Note,
        "Moves { prefix: FileId { numbers: [1, 1] }, to: 1 }",
    ),
    (
        5,
        Event::Move("/1", 2),
        Seen::Note,
        "Moves { prefix: FileId { numbers: [1] }, to: 2 }",
    ),
];

const PREPARES: &str =
    "ServerOut { note: Prepares { txn: TxnNo { server: 0, count: 1 } }, send: List { items: [(Server(2), Peer(Prepare { prepare: \
    Prepare { txn: TxnNo { server: 0, count: 1 }, number: 1, session: Session(1), part: Part { file: FileId { numbers: [1] }, uses: \
    List { items: [Use { field: Child(FileId { numbers: [1] }, Name { bytes: [102] }), kind: Exclusive, no: LeaseNo { server: 0, \
    count: 4 }, until: 102 }] }, freeze: None } } })), (Server(1), Peer(Prepare { prepare: Prepare { txn: TxnNo { server: 0, count: 1 \
    }, number: 2, session: Session(1), part: Part { file: FileId { numbers: [1, 1] }, uses: List { items: [Use { field: Life(FileId { \
    numbers: [1, 1] }), kind: Exclusive, no: LeaseNo { server: 0, count: 5 }, until: 102 }] }, freeze: None } } }))] }, admitted: \
    List { items: [] } }";

const BUSY: &str = "Stays { refusal: Busy { txn: TxnNo { server: 0, count: 1 } } }";

const WAITS: &str =
    "ServerOut { note: Waits { txn: TxnNo { server: 0, count: 1 } }, send: List { items: [] }, admitted: List { items: [] } }";

const COMMITS: &str =
    "ServerOut { note: Commits { txn: TxnNo { server: 0, count: 1 }, reply: Renamed }, send: List { items: [(Server(2), Peer(Decide { \
    decide: Decide { txn: TxnNo { server: 0, count: 1 }, number: 1, effects: List { items: [SetChild { dir: FileId { numbers: [1] }, \
    name: Name { bytes: [102] }, to: None }] } } })), (Server(1), Peer(Decide { decide: Decide { txn: TxnNo { server: 0, count: 1 }, \
    number: 2, effects: List { items: [SetParent { file: FileId { numbers: [1, 1] }, dir: FileId { numbers: [] }, name: Name { bytes: \
    [103] } }] } } }))] }, admitted: List { items: [Item { by: Client(Session(1)), n: 3, op: Rename { sdir: FileId { numbers: [1] }, \
    sname: Name { bytes: [102] }, ddir: FileId { numbers: [] }, dname: Name { bytes: [103] } }, reply: Renamed }] } }";

const ENDS: &str =
    "ServerOut { note: Ends { txn: TxnNo { server: 0, count: 1 } }, send: List { items: [(Client(Session(1)), Answer(Led { end: Done \
    { reply: Renamed } }))] }, admitted: List { items: [] } }";

const ROOT_MOVES: &str =
    "ServerOut { note: Moves { prefix: FileId { numbers: [] }, to: 1 }, send: List { items: [(Server(1), Peer(Parcel { parcel: Parcel \
    { prefix: FileId { numbers: [] }, piece: MapPiece { prefix: FileId { numbers: [] }, given: List { items: [(FileId { numbers: [] \
    }, true), (FileId { numbers: [1] }, false)] } }, records: List { items: [(FileId { numbers: [] }, Record { node: Node { kind: \
    Dir, parent: None, children: List { items: [(Name { bytes: [97] }, FileId { numbers: [1] }), (Name { bytes: [103] }, FileId { \
    numbers: [1, 1] })] }, size: 0, stamp: 0, handles: List { items: [] } }, next: 2 })] }, rows: List { items: [Row { no: LeaseNo { \
    server: 0, count: 1 }, session: Session(1), field: Life(FileId { numbers: [] }), kind: Shared, until: 100, promise: None, lock: \
    None }, Row { no: LeaseNo { server: 0, count: 2 }, session: Session(1), field: Child(FileId { numbers: [] }, Name { bytes: [97] \
    }), kind: Exclusive, until: 100, promise: None, lock: None }] } } }))] }, admitted: List { items: [] } }";

/// It is decided once both others have voted, and its session is told once both have done their parts. Until then the root stays.
const LEADS: &[Line] = &[
    (
        10,
        Event::From(1, said::LEAD_OVER_THREE),
        Seen::All,
        PREPARES,
    ),
    (11, Event::Move("/", 1), Seen::Note, BUSY),
    (12, Event::Peer(1, said::YES_OF_FILE), Seen::All, WAITS),
    (12, Event::Peer(1, said::YES_OF_FILE), Seen::Note, "Strange"),
    (13, Event::Peer(2, said::YES_OF_DIR), Seen::All, COMMITS),
    (14, Event::Move("/", 1), Seen::Note, BUSY),
    (15, Event::Peer(2, said::DONE_OF_DIR), Seen::All, WAITS),
    (15, Event::Peer(2, said::DONE_OF_DIR), Seen::Note, "Strange"),
    (16, Event::Move("/", 1), Seen::Note, BUSY),
    (17, Event::Peer(1, said::DONE_OF_FILE), Seen::All, ENDS),
    (18, Event::Move("/", 1), Seen::All, ROOT_MOVES),
];

const ABORTS: &str =
    "ServerOut { note: AbortsEnded { txn: TxnNo { server: 0, count: 1 }, lease: LeaseNo { server: 0, count: 5 }, until: 102, now: 200 \
    }, send: List { items: [(Server(2), Peer(Decide { decide: Decide { txn: TxnNo { server: 0, count: 1 }, number: 1, effects: List { \
    items: [] } } }))] }, admitted: List { items: [] } }";

const ROOT_MOVES_AS_IT_WAS: &str =
    "ServerOut { note: Moves { prefix: FileId { numbers: [] }, to: 1 }, send: List { items: [(Server(1), Peer(Parcel { parcel: Parcel \
    { prefix: FileId { numbers: [] }, piece: MapPiece { prefix: FileId { numbers: [] }, given: List { items: [(FileId { numbers: [] \
    }, true), (FileId { numbers: [1] }, false)] } }, records: List { items: [(FileId { numbers: [] }, Record { node: Node { kind: \
    Dir, parent: None, children: List { items: [(Name { bytes: [97] }, FileId { numbers: [1] })] }, size: 0, stamp: 0, handles: List \
    { items: [] } }, next: 2 })] }, rows: List { items: [] } } }))] }, admitted: List { items: [] } }";

const ENDS_UNDONE: &str =
    "ServerOut { note: Ends { txn: TxnNo { server: 0, count: 1 } }, send: List { items: [(Client(Session(1)), Answer(Led { end: Ended \
    { lease: LeaseNo { server: 0, count: 5 }, until: 102, now: 200 } }))] }, admitted: List { items: [] } }";

/// A lease of the file is over: nothing is done anywhere. What was kept until then, long behind its end, is not kept any more.
const GIVES_UP: &[Line] = &[
    (
        10,
        Event::From(1, said::LEAD_OVER_THREE),
        Seen::All,
        PREPARES,
    ),
    (11, Event::Peer(2, said::YES_OF_DIR), Seen::All, WAITS),
    (200, Event::Move("/", 1), Seen::Note, BUSY),
    (201, Event::Peer(1, said::ENDED_OF_FILE), Seen::All, ABORTS),
    (202, Event::Move("/", 1), Seen::All, ROOT_MOVES_AS_IT_WAS),
    (
        203,
        Event::Peer(2, said::DONE_OF_DIR),
        Seen::All,
        ENDS_UNDONE,
    ),
];

const SEEKS_2: &str =
    "ServerOut { note: Seeks { txn: TxnNo { server: 0, count: 1 }, to: 2 }, send: List { items: [(Server(2), Peer(Prepare { prepare: \
    Prepare { txn: TxnNo { server: 0, count: 1 }, number: 2, session: Session(1), part: Part { file: FileId { numbers: [1, 1] }, \
    uses: List { items: [Use { field: Life(FileId { numbers: [1, 1] }), kind: Exclusive, no: LeaseNo { server: 0, count: 5 }, until: \
    102 }] }, freeze: None } } }))] }, admitted: List { items: [] } }";

const SEEKS_1: &str =
    "ServerOut { note: Seeks { txn: TxnNo { server: 0, count: 1 }, to: 1 }, send: List { items: [(Server(1), Peer(Prepare { prepare: \
    Prepare { txn: TxnNo { server: 0, count: 1 }, number: 2, session: Session(1), part: Part { file: FileId { numbers: [1, 1] }, \
    uses: List { items: [Use { field: Life(FileId { numbers: [1, 1] }), kind: Exclusive, no: LeaseNo { server: 0, count: 5 }, until: \
    102 }] }, freeze: None } } }))] }, admitted: List { items: [] } }";

/// A part that has moved is asked for where it is said to be; where that is here and it is not, as the server's own map tells.
const SEEKS: &[Line] = &[
    (
        10,
        Event::From(1, said::LEAD_OVER_THREE),
        Seen::All,
        PREPARES,
    ),
    (11, Event::Peer(1, said::FILE_AT_2), Seen::All, SEEKS_2),
    (12, Event::Peer(2, said::ROOT_AT_0), Seen::All, SEEKS_1),
    (13, Event::Peer(1, said::YES_OF_FILE), Seen::All, WAITS),
    (14, Event::Peer(2, said::YES_OF_DIR), Seen::All, COMMITS),
];

const COMMITS_ONE: &str =
    "ServerOut { note: Commits { txn: TxnNo { server: 0, count: 1 }, reply: Renamed }, send: List { items: [(Server(2), Peer(Decide { \
    decide: Decide { txn: TxnNo { server: 0, count: 1 }, number: 1, effects: List { items: [SetChild { dir: FileId { numbers: [1] }, \
    name: Name { bytes: [102] }, to: None }] } } }))] }, admitted: List { items: [Item { by: Client(Session(1)), n: 3, op: Rename { \
    sdir: FileId { numbers: [1] }, sname: Name { bytes: [102] }, ddir: FileId { numbers: [] }, dname: Name { bytes: [103] } }, reply: \
    Renamed }] } }";

/// A part that has come back is voted on here.
const COMES_HOME: &[Line] = &[
    (
        10,
        Event::From(1, said::LEAD_OVER_THREE),
        Seen::All,
        PREPARES,
    ),
    (
        11,
        Event::Peer(1, said::FILE_PARCEL),
        Seen::Note,
        "Installs { prefix: FileId { numbers: [1, 1] } }",
    ),
    (12, Event::Peer(1, said::ROOT_AT_0), Seen::All, WAITS),
    (13, Event::Peer(2, said::YES_OF_DIR), Seen::All, COMMITS_ONE),
    (14, Event::Peer(2, said::DONE_OF_DIR), Seen::All, ENDS),
];

fn leads_in(
    rt: &impl Abort,
    alloc: Global,
    core: &mut ServerCore,
    way: Way,
    script: &[Line],
) -> Result<(), Fail> {
    plays(rt, alloc, core, way, SETS_UP)?;
    plays(rt, alloc, core, way, script)
}

/// The script of the first server, behind what sets it up.
fn leads(rt: &impl Abort, alloc: Global, way: Way, script: &[Line]) -> Result<(), Fail> {
    let mut core = server(alloc)?;
    let done = leads_in(rt, alloc, &mut core, way, script);
    spend(core);
    done
}

#[test]
fn a_rename_over_three_servers_is_led(rt: HostRuntime) -> Result<(), Fail> {
    leads(&rt, rt.alloc(), Way::AtOnce, LEADS)?;
    leads(&rt, rt.alloc(), Way::Planned, LEADS)
}

#[test]
fn a_rename_is_given_up_where_a_lease_is_over(rt: HostRuntime) -> Result<(), Fail> {
    leads(&rt, rt.alloc(), Way::AtOnce, GIVES_UP)?;
    leads(&rt, rt.alloc(), Way::Planned, GIVES_UP)
}

#[test]
fn a_part_that_has_moved_is_asked_for_elsewhere(rt: HostRuntime) -> Result<(), Fail> {
    leads(&rt, rt.alloc(), Way::Planned, SEEKS)?;
    leads(&rt, rt.alloc(), Way::Planned, COMES_HOME)
}

const YES: &str =
    "ServerOut { note: Votes { txn: TxnNo { server: 0, count: 1 }, vote: Yes }, send: List { items: [(Server(0), Peer(Vote { voted: \
    Voted { txn: TxnNo { server: 0, count: 1 }, number: 1, vote: Yes } }))] }, admitted: List { items: [] } }";

const DIR_DONE: &str =
    "ServerOut { note: Applies { txn: TxnNo { server: 0, count: 1 } }, send: List { items: [(Server(0), Peer(Done { done: Done { txn: \
    TxnNo { server: 0, count: 1 }, number: 1 } }))] }, admitted: List { items: [] } }";

const DIR_MOVES: &str =
    "ServerOut { note: Moves { prefix: FileId { numbers: [1] }, to: 0 }, send: List { items: [(Server(0), Peer(Parcel { parcel: \
    Parcel { prefix: FileId { numbers: [1] }, piece: MapPiece { prefix: FileId { numbers: [1] }, given: List { items: [(FileId { \
    numbers: [1] }, true), (FileId { numbers: [1, 1] }, false)] } }, records: List { items: [(FileId { numbers: [1] }, Record { node: \
    Node { kind: Dir, parent: Some((FileId { numbers: [] }, Name { bytes: [97] })), children: List { items: [] }, size: 0, stamp: 0, \
    handles: List { items: [] } }, next: 2 })] }, rows: List { items: [Row { no: LeaseNo { server: 0, count: 3 }, session: \
    Session(1), field: Life(FileId { numbers: [1] }), kind: Exclusive, until: 100, promise: None, lock: None }, Row { no: LeaseNo { \
    server: 0, count: 4 }, session: Session(1), field: Child(FileId { numbers: [1] }, Name { bytes: [102] }), kind: Exclusive, until: \
    102, promise: None, lock: None }] } } }))] }, admitted: List { items: [] } }";

const DIR_MOVES_AS_IT_WAS: &str =
    "ServerOut { note: Moves { prefix: FileId { numbers: [1] }, to: 0 }, send: List { items: [(Server(0), Peer(Parcel { parcel: \
    Parcel { prefix: FileId { numbers: [1] }, piece: MapPiece { prefix: FileId { numbers: [1] }, given: List { items: [(FileId { \
    numbers: [1] }, true), (FileId { numbers: [1, 1] }, false)] } }, records: List { items: [(FileId { numbers: [1] }, Record { node: \
    Node { kind: Dir, parent: Some((FileId { numbers: [] }, Name { bytes: [97] })), children: List { items: [(Name { bytes: [102] }, \
    FileId { numbers: [1, 1] })] }, size: 0, stamp: 0, handles: List { items: [] } }, next: 2 })] }, rows: List { items: [] } } }))] \
    }, admitted: List { items: [] } }";

const DIR_COMES: Line = (
    7,
    Event::Peer(0, said::DIR_PARCEL),
    Seen::Note,
    "Installs { prefix: FileId { numbers: [1] } }",
);

/// The third server, whose directory loses the name, or keeps it.
const LOSES: &[Line] = &[
    DIR_COMES,
    (11, Event::Peer(0, said::PREPARE_DIR), Seen::All, YES),
    (12, Event::Move("/1", 0), Seen::Note, BUSY),
    (14, Event::Peer(0, said::DECIDE_DIR), Seen::All, DIR_DONE),
    (15, Event::Move("/1", 0), Seen::All, DIR_MOVES),
];

const KEEPS: &[Line] = &[
    DIR_COMES,
    (11, Event::Peer(0, said::PREPARE_DIR), Seen::All, YES),
    (200, Event::Move("/1", 0), Seen::Note, BUSY),
    (202, Event::Peer(0, said::DECIDE_NONE), Seen::All, DIR_DONE),
    (203, Event::Move("/1", 0), Seen::All, DIR_MOVES_AS_IT_WAS),
];

const FILE_DONE: &str =
    "ServerOut { note: Applies { txn: TxnNo { server: 0, count: 1 } }, send: List { items: [(Server(0), Peer(Done { done: Done { txn: \
    TxnNo { server: 0, count: 1 }, number: 2 } }))] }, admitted: List { items: [] } }";

const FILE_MOVES: &str =
    "ServerOut { note: Moves { prefix: FileId { numbers: [1, 1] }, to: 0 }, send: List { items: [(Server(0), Peer(Parcel { parcel: \
    Parcel { prefix: FileId { numbers: [1, 1] }, piece: MapPiece { prefix: FileId { numbers: [1, 1] }, given: List { items: [(FileId \
    { numbers: [1, 1] }, true)] } }, records: List { items: [(FileId { numbers: [1, 1] }, Record { node: Node { kind: File, parent: \
    Some((FileId { numbers: [] }, Name { bytes: [103] })), children: List { items: [] }, size: 0, stamp: 0, handles: List { items: [] \
    } }, next: 1 })] }, rows: List { items: [Row { no: LeaseNo { server: 0, count: 5 }, session: Session(1), field: Life(FileId { \
    numbers: [1, 1] }), kind: Exclusive, until: 102, promise: None, lock: None }] } } }))] }, admitted: List { items: [] } }";

const FILE_ENDED: &str =
    "ServerOut { note: Votes { txn: TxnNo { server: 0, count: 1 }, vote: Ended { lease: LeaseNo { server: 0, count: 5 }, until: 102, \
    now: 200 } }, send: List { items: [(Server(0), Peer(Vote { voted: Voted { txn: TxnNo { server: 0, count: 1 }, number: 2, vote: \
    Ended { lease: LeaseNo { server: 0, count: 5 }, until: 102, now: 200 } } }))] }, admitted: List { items: [] } }";

const FILE_MOVES_AS_IT_WAS: &str =
    "ServerOut { note: Moves { prefix: FileId { numbers: [1, 1] }, to: 0 }, send: List { items: [(Server(0), Peer(Parcel { parcel: \
    Parcel { prefix: FileId { numbers: [1, 1] }, piece: MapPiece { prefix: FileId { numbers: [1, 1] }, given: List { items: [(FileId \
    { numbers: [1, 1] }, true)] } }, records: List { items: [(FileId { numbers: [1, 1] }, Record { node: Node { kind: File, parent: \
    Some((FileId { numbers: [1] }, Name { bytes: [102] })), children: List { items: [] }, size: 0, stamp: 0, handles: List { items: \
    [] } }, next: 1 })] }, rows: List { items: [] } } }))] }, admitted: List { items: [] } }";

const FILE_COMES: Line = (
    7,
    Event::Peer(0, said::FILE_PARCEL),
    Seen::Note,
    "Installs { prefix: FileId { numbers: [1, 1] } }",
);

/// The second server, whose file is renamed, or is not since its lease is over.
const IS_RENAMED: &[Line] = &[
    FILE_COMES,
    (
        11,
        Event::Peer(0, said::PREPARE_FILE),
        Seen::Note,
        "Votes { txn: TxnNo { server: 0, count: 1 }, vote: Yes }",
    ),
    (12, Event::Move("/1/1", 0), Seen::Note, BUSY),
    (14, Event::Peer(0, said::DECIDE_FILE), Seen::All, FILE_DONE),
    (15, Event::Move("/1/1", 0), Seen::All, FILE_MOVES),
];

const STAYS: &[Line] = &[
    FILE_COMES,
    (
        200,
        Event::Peer(0, said::PREPARE_FILE),
        Seen::All,
        FILE_ENDED,
    ),
    (201, Event::Move("/1/1", 0), Seen::All, FILE_MOVES_AS_IT_WAS),
];

/// What becomes of the directory at the third server and of the file at the second.
fn follow(rt: &impl Abort, alloc: Global, of_dir: &[Line], of_file: &[Line]) -> Result<(), Fail> {
    plays_on(
        rt,
        alloc,
        ServerCore::new(alloc, 2, 10, 100)?,
        Way::Planned,
        of_dir,
    )?;
    plays_on(
        rt,
        alloc,
        ServerCore::new(alloc, 1, 10, 100)?,
        Way::Planned,
        of_file,
    )
}

#[test]
fn a_rename_over_three_servers_is_followed(rt: HostRuntime) -> Result<(), Fail> {
    follow(&rt, rt.alloc(), LOSES, IS_RENAMED)?;
    follow(&rt, rt.alloc(), KEEPS, STAYS)
}
