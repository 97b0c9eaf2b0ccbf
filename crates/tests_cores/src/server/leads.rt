//! Deletes and renames that a server leads.
use crate::forms::{same, spend};
use crate::server::{
    ADMITS, ADMITS_ONE, Event, Line, Seen, THREE_GRANTS, Way, has_file, plays, plays_first,
    plays_on, said, server,
};
use fs_server::ServerCore;
use std::alloc::Global;
use std::process::Abort;
use std::test::Fail;

/// A create of `a`, the file 1, with its leases.
const CREATES: &[Line] = &[
    (
        0,
        Event::From(1, said::ASK_TO_CREATE),
        Seen::Note,
        THREE_GRANTS,
    ),
    (5, Event::From(1, said::LOG), Seen::Note, ADMITS),
];

const COMMITS_DELETE: &str =
    "ServerOut { note: Commits { txn: TxnNo { server: 0, count: 1 }, reply: Deleted }, send: List { items: [(\
    Client(Session(1)), Answer(Led { end: Done { reply: Deleted } }))] }, admitted: List { items: [Item { \
    by: Client(Session(1)), n: 3, op: Delete { dir: FileId { numbers: [] }, name: Name { bytes: [97] } }, \
    reply: Deleted }] } }";

/// It is deleted.
const DELETES: &[Line] = &[(
    10,
    Event::From(1, said::LEAD_DELETE),
    Seen::All,
    COMMITS_DELETE,
)];

fn deletes(rt: &impl Abort, alloc: Global, core: &mut ServerCore, way: Way) -> Result<(), Fail> {
    plays(rt, alloc, core, way, CREATES)?;
    same(rt, has_file(alloc, core)?, true);
    plays(rt, alloc, core, way, DELETES)?;
    same(rt, has_file(alloc, core)?, false);
    Ok(())
}

fn deletes_in(rt: &impl Abort, alloc: Global, way: Way) -> Result<(), Fail> {
    let mut core = server(alloc)?;
    let done = deletes(rt, alloc, &mut core, way);
    spend(core);
    done
}

#[test]
fn a_delete_is_led(rt: HostRuntime) -> Result<(), Fail> {
    deletes_in(&rt, rt.alloc(), Way::AtOnce)?;
    deletes_in(&rt, rt.alloc(), Way::Planned)
}

const NAMES_B: &str =
    "ServerOut { note: Grants { count: 1, end: All }, send: List { items: [(Client(Session(1)), Answer(Granted { grants: List { \
    items: [Grant { no: LeaseNo { server: 0, count: 4 }, field: Child(FileId { numbers: [] }, Name { bytes: [98] }), kind: \
    Shared, until: 111, value: Child(Some(FileId { numbers: [1] })) }] }, fresh: None, end: All }))] }, admitted: List { \
    items: [] } }";

/// The file is renamed and stands under its new name; and it is renamed again under the next number of a transaction.
const RENAMES: &[Line] = &[
    (
        0,
        Event::From(1, said::ASK_TO_CREATE),
        Seen::Note,
        THREE_GRANTS,
    ),
    (5, Event::From(1, said::LOG), Seen::Note, ADMITS),
    (
        10,
        Event::From(1, said::LEAD_RENAME),
        Seen::Note,
        "Commits { txn: TxnNo { server: 0, count: 1 }, reply: Renamed }",
    ),
    (11, Event::From(1, said::ASK_B), Seen::All, NAMES_B),
    (
        12,
        Event::From(1, said::LEAD_RENAME),
        Seen::Note,
        "Commits { txn: TxnNo { server: 0, count: 2 }, reply: Renamed }",
    ),
];

#[test]
fn a_rename_is_led(rt: HostRuntime) -> Result<(), Fail> {
    plays_first(&rt, rt.alloc(), RENAMES)
}

const ENDED: &str =
    "ServerOut { note: AbortsEnded { txn: TxnNo { server: 0, count: 1 }, lease: LeaseNo { server: 0, count: 1 }, until: 100, \
    now: 110 }, send: List { items: [(Client(Session(1)), Answer(Led { end: Ended { lease: LeaseNo { server: 0, count: 1 }, \
    until: 100, now: 110 } }))] }, admitted: List { items: [] } }";

/// After the leases' end nothing is done. Once the file has gone, its server is asked.
const ENDS_OR_ASKS: &[Line] = &[
    (
        0,
        Event::From(1, said::ASK_TO_CREATE),
        Seen::Note,
        THREE_GRANTS,
    ),
    (5, Event::From(1, said::LOG), Seen::Note, ADMITS),
    (110, Event::From(1, said::LEAD_DELETE), Seen::All, ENDED),
    (
        111,
        Event::Move("/1", 1),
        Seen::Note,
        "Moves { prefix: FileId { numbers: [1] }, to: 1 }",
    ),
    (
        112,
        Event::From(1, said::LEAD_DELETE),
        Seen::Note,
        "Prepares { txn: TxnNo { server: 0, count: 2 } }",
    ),
];

#[test]
fn an_operation_ends_or_its_server_is_asked(rt: HostRuntime) -> Result<(), Fail> {
    plays_first(&rt, rt.alloc(), ENDS_OR_ASKS)
}

/// Another server does not manage the root.
const ELSEWHERE: &[Line] = &[(
    0,
    Event::From(1, said::LEAD_DELETE_OF_DIR),
    Seen::Note,
    "Refuses { why: Moved { prefix: FileId { numbers: [] }, to: 0 } }",
)];

#[test]
fn an_operation_is_led_at_its_home(rt: HostRuntime) -> Result<(), Fail> {
    let alloc = rt.alloc();
    plays_on(
        &rt,
        alloc,
        ServerCore::new(alloc, 1, 10, 100)?,
        Way::Planned,
        ELSEWHERE,
    )
}

/// A create of the directory 1.
pub(super) const CREATES_DIR: &[Line] = &[
    (
        0,
        Event::From(1, said::ASK_TO_CREATE),
        Seen::Note,
        THREE_GRANTS,
    ),
    (1, Event::From(1, said::LOG_OF_DIR), Seen::Note, ADMITS_ONE),
];

const GIVES_FIRST_PATH: &str = "PathGrants { no: PathNo { server: 0, count: 1 } }";

const GIVES_SECOND_PATH: &str = "PathGrants { no: PathNo { server: 0, count: 2 } }";

const FIRST_IS_BACK: &str = "PathBack { no: PathNo { server: 0, count: 1 } }";

const ALL_ASKED_BACK: &str =
    "ServerOut { note: Aborts { txn: TxnNo { server: 0, count: 1 }, why: PathsOut { no: PathNo { server: 0, count: 1 } } }, send: \
    List { items: [(Server(2), Peer(PathRecall { no: PathNo { server: 0, count: 1 } })), (Server(1), Peer(PathRecall { no: PathNo { \
    server: 0, count: 2 } })), (Server(2), Peer(PathRecall { no: PathNo { server: 0, count: 1 } })), (Server(1), Peer(PathRecall { \
    no: PathNo { server: 0, count: 2 } })), (Client(Session(1)), Answer(Led { end: Again { why: PathsOut { no: PathNo { server: 0, \
    count: 1 } } } }))] }, admitted: List { items: [] } }";

const NEXT_IN_THE_WAY: &str =
    "Aborts { txn: TxnNo { server: 0, count: 2 }, why: PathsOut { no: PathNo { server: 0, count: 2 } } }";

const COMMITS_AT_LAST: &str =
    "ServerOut { note: Commits { txn: TxnNo { server: 0, count: 3 }, reply: Deleted }, send: List { items: [(Client(Session(1)), \
    Answer(Led { end: Done { reply: Deleted } }))] }, admitted: List { items: [Item { by: Client(Session(1)), n: 3, op: Delete { \
    dir: FileId { numbers: [] }, name: Name { bytes: [97] } }, reply: Deleted }] } }";

/// While paths lead over it a directory is not deleted: all of them are asked back, and once none is out it goes.
const GOES_HERE: &[Line] = &[
    (
        3,
        Event::Peer(2, said::PATH_ASK),
        Seen::Note,
        GIVES_FIRST_PATH,
    ),
    (
        4,
        Event::Peer(1, said::PATH_ASK),
        Seen::Note,
        GIVES_SECOND_PATH,
    ),
    (
        10,
        Event::From(1, said::LEAD_DELETE_OF_DIR),
        Seen::All,
        ALL_ASKED_BACK,
    ),
    (
        11,
        Event::Peer(2, said::FIRST_PATH_BACK),
        Seen::Note,
        FIRST_IS_BACK,
    ),
    (
        12,
        Event::From(1, said::LEAD_DELETE_OF_DIR),
        Seen::Note,
        NEXT_IN_THE_WAY,
    ),
    (
        13,
        Event::Peer(1, said::SECOND_PATH_BACK),
        Seen::Note,
        "PathBack { no: PathNo { server: 0, count: 2 } }",
    ),
    (
        14,
        Event::From(1, said::LEAD_DELETE_OF_DIR),
        Seen::All,
        COMMITS_AT_LAST,
    ),
];

fn goes(rt: &impl Abort, alloc: Global, core: &mut ServerCore, way: Way) -> Result<(), Fail> {
    plays(rt, alloc, core, way, CREATES_DIR)?;
    same(rt, has_file(alloc, core)?, true);
    plays(rt, alloc, core, way, GOES_HERE)?;
    same(rt, has_file(alloc, core)?, false);
    Ok(())
}

fn goes_in(rt: &impl Abort, alloc: Global, way: Way) -> Result<(), Fail> {
    let mut core = server(alloc)?;
    let done = goes(rt, alloc, &mut core, way);
    spend(core);
    done
}

#[test]
fn a_directory_goes_once_no_path_leads_over_it(rt: HostRuntime) -> Result<(), Fail> {
    goes_in(&rt, rt.alloc(), Way::AtOnce)?;
    goes_in(&rt, rt.alloc(), Way::Planned)
}

const PREPARES: &str =
    "ServerOut { note: Prepares { txn: TxnNo { server: 0, count: 1 } }, send: List { items: [(Server(1), Peer(Prepare { prepare: \
    Prepare { txn: TxnNo { server: 0, count: 1 }, number: 1, session: Session(1), part: Part { file: FileId { numbers: [1] }, uses: \
    List { items: [Use { field: Life(FileId { numbers: [1] }), kind: Exclusive, no: LeaseNo { server: 0, count: 3 }, until: 100 }] \
    }, freeze: Some(FileId { numbers: [1] }) } } }))] }, admitted: List { items: [] } }";

const KEPT_FOR_FIRST: &str =
    "PathDenies { why: Frozen { file: FileId { numbers: [1] }, txn: TxnNo { server: 0, count: 1 } } }";

const ABORTS: &str =
    "ServerOut { note: Aborts { txn: TxnNo { server: 0, count: 1 }, why: PathsOut { no: PathNo { server: 1, count: 1 } } }, send: \
    List { items: [(Client(Session(1)), Answer(Led { end: Again { why: PathsOut { no: PathNo { server: 1, count: 1 } } } }))] }, \
    admitted: List { items: [] } }";

const ASKS_BACK_AND_PREPARES: &str =
    "ServerOut { note: Prepares { txn: TxnNo { server: 0, count: 2 } }, send: List { items: [(Server(1), Peer(PathRecall { no: \
    PathNo { server: 0, count: 1 } })), (Server(1), Peer(Prepare { prepare: Prepare { txn: TxnNo { server: 0, count: 2 }, number: \
    1, session: Session(1), part: Part { file: FileId { numbers: [1] }, uses: List { items: [Use { field: Life(FileId { numbers: \
    [1] }), kind: Exclusive, no: LeaseNo { server: 0, count: 3 }, until: 100 }] }, freeze: Some(FileId { numbers: [1] }) } } }))] \
    }, admitted: List { items: [] } }";

const COMMITS: &str =
    "ServerOut { note: Commits { txn: TxnNo { server: 0, count: 3 }, reply: Deleted }, send: List { items: [(Server(1), Peer(Decide \
    { decide: Decide { txn: TxnNo { server: 0, count: 3 }, number: 1, effects: List { items: [RemoveNode { file: FileId { numbers: \
    [1] } }] } } }))] }, admitted: List { items: [Item { by: Client(Session(1)), n: 3, op: Delete { dir: FileId { numbers: [] }, \
    name: Name { bytes: [97] } }, reply: Deleted }] } }";

const ENDS: &str =
    "ServerOut { note: Ends { txn: TxnNo { server: 0, count: 3 } }, send: List { items: [(Client(Session(1)), Answer(Led { end: \
    Done { reply: Deleted } }))] }, admitted: List { items: [] } }";

/// The directory is with the server 1. It is kept in the root until it is decided; where a path there leads over it, and where one from
/// here does, it stays; and once none is out it goes.
const GOES_ELSEWHERE: &[Line] = &[
    (
        2,
        Event::Move("/1", 1),
        Seen::Note,
        "Moves { prefix: FileId { numbers: [1] }, to: 1 }",
    ),
    (
        10,
        Event::From(1, said::LEAD_DELETE_OF_DIR),
        Seen::All,
        PREPARES,
    ),
    (
        11,
        Event::Peer(1, said::PATH_ASK),
        Seen::Note,
        KEPT_FOR_FIRST,
    ),
    (12, Event::Peer(1, said::PATH_IN_THE_WAY), Seen::All, ABORTS),
    (
        13,
        Event::Peer(1, said::PATH_ASK),
        Seen::Note,
        GIVES_FIRST_PATH,
    ),
    (
        14,
        Event::From(1, said::LEAD_DELETE_OF_DIR),
        Seen::All,
        ASKS_BACK_AND_PREPARES,
    ),
    (
        15,
        Event::Peer(1, said::YES_OF_SECOND),
        Seen::Note,
        "Aborts { txn: TxnNo { server: 0, count: 2 }, why: PathsOut { no: PathNo { server: 0, count: 1 } } }",
    ),
    (
        16,
        Event::Peer(1, said::DONE_OF_SECOND),
        Seen::Note,
        "Ends { txn: TxnNo { server: 0, count: 2 } }",
    ),
    (
        17,
        Event::Peer(1, said::FIRST_PATH_BACK),
        Seen::Note,
        FIRST_IS_BACK,
    ),
    (
        18,
        Event::From(1, said::LEAD_DELETE_OF_DIR),
        Seen::Note,
        "Prepares { txn: TxnNo { server: 0, count: 3 } }",
    ),
    (19, Event::Peer(1, said::YES_OF_THIRD), Seen::All, COMMITS),
    (
        20,
        Event::Peer(1, said::PATH_ASK),
        Seen::Note,
        "PathDenies { why: NoChild }",
    ),
    (21, Event::Peer(1, said::DONE_OF_THIRD), Seen::All, ENDS),
];

fn goes_elsewhere(
    rt: &impl Abort,
    alloc: Global,
    core: &mut ServerCore,
    way: Way,
) -> Result<(), Fail> {
    plays(rt, alloc, core, way, CREATES_DIR)?;
    plays(rt, alloc, core, way, GOES_ELSEWHERE)
}

fn goes_elsewhere_in(rt: &impl Abort, alloc: Global, way: Way) -> Result<(), Fail> {
    let mut core = server(alloc)?;
    let done = goes_elsewhere(rt, alloc, &mut core, way);
    spend(core);
    done
}

#[test]
fn a_directory_that_is_elsewhere_goes(rt: HostRuntime) -> Result<(), Fail> {
    goes_elsewhere_in(&rt, rt.alloc(), Way::AtOnce)?;
    goes_elsewhere_in(&rt, rt.alloc(), Way::Planned)
}
