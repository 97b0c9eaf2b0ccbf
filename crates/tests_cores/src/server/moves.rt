//! What is with another server, what goes to one, and what comes from one.
use crate::forms::{reads, same, spend, text_of};
use crate::server::{
    ADMITS, ADMITS_ONE, Event, Line, Seen, THREE_GRANTS, Way, can_be_told, event_of, has_file,
    plays, plays_first, plays_on, said, server,
};
use fs_msg::write;
use fs_server::{ServerCore, ServerEvent, ServerOut};
use std::alloc::Global;
use std::process::Abort;
use std::test::Fail;

/// The second server, where clocks differ by up to 10 and leases are given for 100.
fn other(alloc: Global) -> Result<ServerCore, Fail> {
    Ok(ServerCore::new(alloc, 1, 10, 100)?)
}

/// The file 1 is here or not, and so the server knows which prefixes are with which server.
fn is_here(
    rt: &impl Abort,
    alloc: Global,
    core: &ServerCore,
    here: bool,
    wanted: &str,
) -> Result<(), Fail> {
    reads(rt, text_of(alloc, core.map().listed())?, wanted);
    same(rt, has_file(alloc, core)?, here);
    Ok(())
}

/// Server 0 has all, and server 1 the file 1.
const ALL_BY_0: &str = "List { items: [(FileId { numbers: [] }, 0)] }";

const FILE_BY_1: &str =
    "List { items: [(FileId { numbers: [] }, 0), (FileId { numbers: [1] }, 1)] }";

const MOVED: &str =
    "ServerOut { note: Grants { count: 0, end: Moved { prefix: FileId { numbers: [] }, to: 0 } }, send: List { \
    items: [(Client(Session(1)), Answer(Granted { grants: List { items: [] }, fresh: None, end: Moved { prefix: \
    FileId { numbers: [] }, to: 0 } }))] }, admitted: List { items: [] } }";

const LOG_MOVED: &str =
    "Admits { count: 0, end: Moved { prefix: FileId { numbers: [] }, to: 0 }, gaps: List { items: [] } }";

const RENEWAL_MOVED: &str =
    "Renews { count: 0, end: Moved { prefix: FileId { numbers: [] }, to: 0 } }";

const NONE_MOVED: &str =
    "Grants { count: 0, end: Moved { prefix: FileId { numbers: [] }, to: 0 } }";

/// What is with another server is not answered; nor is a fresh identifier given but by the server that has the directory.
const ELSEWHERE: &[Line] = &[
    (0, Event::From(1, said::ASK_TO_CREATE), Seen::All, MOVED),
    (0, Event::From(1, said::LOG), Seen::Note, LOG_MOVED),
    (0, Event::From(1, said::RENEW), Seen::Note, RENEWAL_MOVED),
    (0, Event::RecallRoot, Seen::Note, "Recalls { count: 0 }"),
    (1, Event::From(1, said::ASK_FRESH), Seen::Note, NONE_MOVED),
];

#[test]
fn what_is_elsewhere_is_moved(rt: HostRuntime) -> Result<(), Fail> {
    plays_on(&rt, rt.alloc(), other(rt.alloc())?, Way::AtOnce, ELSEWHERE)?;
    plays_on(&rt, rt.alloc(), other(rt.alloc())?, Way::Planned, ELSEWHERE)
}

const ROOT_MOVES: &str = "Moves { prefix: FileId { numbers: [] }, to: 1 }";

const FRESH_MOVED: &str =
    "Grants { count: 0, end: Moved { prefix: FileId { numbers: [] }, to: 1 } }";

/// Where the root went its fresh identifiers are given.
const ROOT_WENT: &[Line] = &[
    (0, Event::Move("/", 1), Seen::Note, ROOT_MOVES),
    (1, Event::From(1, said::ASK_FRESH), Seen::Note, FRESH_MOVED),
];

#[test]
fn a_fresh_identifier_is_given_where_its_directory_went(rt: HostRuntime) -> Result<(), Fail> {
    plays_first(&rt, rt.alloc(), ROOT_WENT)
}

/// The root's first child, its life leased to the first session, and open for writing.
const MAKES: &[Line] = &[
    (
        0,
        Event::From(1, said::ASK_TO_CREATE),
        Seen::Note,
        THREE_GRANTS,
    ),
    (5, Event::From(1, said::LOG), Seen::Note, ADMITS),
    (5, Event::From(1, said::LOG_OF_OPEN), Seen::Note, ADMITS_ONE),
];

const LEAVES: &str =
    "ServerOut { note: Moves { prefix: FileId { numbers: [1] }, to: 1 }, send: List { items: [(Server(1), Peer(\
    Parcel { parcel: Parcel { prefix: FileId { numbers: [1] }, piece: MapPiece { prefix: FileId { numbers: [1] }, \
    given: List { items: [(FileId { numbers: [1] }, true)] } }, records: List { items: [(FileId { numbers: [1] }, \
    Record { node: Node { kind: File, parent: Some((FileId { numbers: [] }, Name { bytes: [97] })), children: List { \
    items: [] }, size: 0, stamp: 0, handles: List { items: [Handle { session: Session(1), h: 1, modes: Modes { \
    acc_r: false, acc_w: true, acc_d: false, deny_r: false, deny_w: false, deny_d: false } }] } }, next: 1 })] }, \
    rows: List { items: [Row { no: LeaseNo { server: 0, count: 3 }, session: Session(1), field: Life(FileId { \
    numbers: [1] }), kind: Exclusive, until: 100, promise: None, lock: None }] } } }))] }, admitted: List { items: [] } }";

/// What goes is all of the file, with its leases.
const LEAVING: &[Line] = &[(6, Event::Move("/1", 1), Seen::All, LEAVES)];

const BOTH_MOVED: &str =
    "Grants { count: 1, end: Moved { prefix: FileId { numbers: [1] }, to: 1 } }";

/// Where it was the file is known to be with the other server.
const LEFT: &[Line] = &[(
    7,
    Event::From(2, said::ASK_ROOT_AND_FIRST),
    Seen::Note,
    BOTH_MOVED,
)];

fn leaves(rt: &impl Abort, alloc: Global, from: &mut ServerCore) -> Result<(), Fail> {
    plays(rt, alloc, from, Way::AtOnce, MAKES)?;
    plays(rt, alloc, from, Way::AtOnce, LEAVING)?;
    is_here(rt, alloc, from, false, FILE_BY_1)?;
    plays(rt, alloc, from, Way::AtOnce, LEFT)
}

#[test]
fn a_file_goes_to_another_server(rt: HostRuntime) -> Result<(), Fail> {
    let mut from = server(rt.alloc())?;
    let done = leaves(&rt, rt.alloc(), &mut from);
    spend(from);
    done
}

/// The bytes of what is sent.
fn bytes_of(alloc: Global, out: &ServerOut) -> Result<Vec<u8>, Fail> {
    let mut bytes = Vec::new(alloc);
    for (_, m) in out.send.as_slice() {
        write(alloc, m, &mut bytes)?;
    }
    Ok(bytes)
}

fn sent(alloc: Global, core: &mut ServerCore, ev: &ServerEvent) -> Result<Vec<u8>, Fail> {
    if !can_be_told(ev) {
        return Err(Fail::from("it is no event"));
    }
    let out = core.step(alloc, 6, ev)?;
    let bytes = bytes_of(alloc, &out);
    spend(out);
    bytes
}

/// The bytes that are sent where the file goes.
fn handed_over(alloc: Global, core: &mut ServerCore) -> Result<Vec<u8>, Fail> {
    let ev = event_of(alloc, Event::Move("/1", 1))?;
    let bytes = sent(alloc, core, &ev);
    spend(ev);
    bytes
}

/// They are those of the parcel that comes to the other server in the tests below.
fn hands_over(rt: &impl Abort, alloc: Global, from: &mut ServerCore) -> Result<(), Fail> {
    plays(rt, alloc, from, Way::AtOnce, MAKES)?;
    let bytes = handed_over(alloc, from)?;
    same(rt, bytes.as_slice(), said::PARCEL);
    Ok(())
}

#[test]
fn a_file_goes_in_a_parcel(rt: HostRuntime) -> Result<(), Fail> {
    let mut from = server(rt.alloc())?;
    let done = hands_over(&rt, rt.alloc(), &mut from);
    spend(from);
    done
}

const INSTALLS: &str = "Installs { prefix: FileId { numbers: [1] } }";

/// Where it came the file is.
const COMES: &[Line] = &[(7, Event::Peer(0, said::PARCEL), Seen::Note, INSTALLS)];

const FIRST_WAITS: &str =
    "Grants { count: 0, end: Wait { blocker: LeaseNo { server: 0, count: 3 } } }";

/// A parcel that came twice is taken once. Its lease is in the way of others there.
const CAME: &[Line] = &[
    (7, Event::Peer(0, said::PARCEL), Seen::Note, "Strange"),
    (8, Event::From(2, said::ASK_FIRST), Seen::Note, FIRST_WAITS),
];

fn comes(rt: &impl Abort, alloc: Global, to: &mut ServerCore, way: Way) -> Result<(), Fail> {
    plays(rt, alloc, to, way, COMES)?;
    is_here(rt, alloc, to, true, FILE_BY_1)?;
    plays(rt, alloc, to, way, CAME)
}

fn comes_in(rt: &impl Abort, alloc: Global, way: Way) -> Result<(), Fail> {
    let mut to = other(alloc)?;
    let done = comes(rt, alloc, &mut to, way);
    spend(to);
    done
}

#[test]
fn a_file_comes_once(rt: HostRuntime) -> Result<(), Fail> {
    comes_in(&rt, rt.alloc(), Way::AtOnce)?;
    comes_in(&rt, rt.alloc(), Way::Planned)
}

const NO_NUMBER: &str = "Grants { count: 0, end: NoIds { dir: FileId { numbers: [1] } } }";

/// A directory whose numbers are all given has none for a new file.
const FULL: &[Line] = &[
    (7, Event::Peer(0, said::FULL_PARCEL), Seen::Note, INSTALLS),
    (
        8,
        Event::From(2, said::ASK_FRESH_BELOW),
        Seen::Note,
        NO_NUMBER,
    ),
];

#[test]
fn a_full_directory_has_no_number(rt: HostRuntime) -> Result<(), Fail> {
    plays_on(&rt, rt.alloc(), other(rt.alloc())?, Way::AtOnce, FULL)?;
    plays_on(&rt, rt.alloc(), other(rt.alloc())?, Way::Planned, FULL)
}

/// A parcel that no honest server sends changes nothing.
const ODD: &[Line] = &[(7, Event::Peer(0, said::ODD_PARCEL), Seen::Note, "Strange")];

fn is_strange(rt: &impl Abort, alloc: Global, to: &mut ServerCore) -> Result<(), Fail> {
    plays(rt, alloc, to, Way::AtOnce, ODD)?;
    is_here(rt, alloc, to, false, ALL_BY_0)
}

#[test]
fn a_parcel_that_does_not_fit_is_strange(rt: HostRuntime) -> Result<(), Fail> {
    let mut to = other(rt.alloc())?;
    let done = is_strange(&rt, rt.alloc(), &mut to);
    spend(to);
    done
}

const MOVED_BEFORE: &str = "Stays { refusal: NotMine { prefix: FileId { numbers: [1] }, to: 1 } }";

/// Prefixes, where they are to go, and why they stay: the first of the reasons.
const STAYS: &[Line] = &[
    (
        6,
        Event::Move("/2", 1),
        Seen::Note,
        "Stays { refusal: NoFile }",
    ),
    (
        6,
        Event::Move("/1", 0),
        Seen::Note,
        "Stays { refusal: Same }",
    ),
    (6, Event::Move("/1", 1), Seen::All, LEAVES),
    (6, Event::Move("/1", 1), Seen::Note, MOVED_BEFORE),
];

fn stays(rt: &impl Abort, alloc: Global, core: &mut ServerCore) -> Result<(), Fail> {
    plays(rt, alloc, core, Way::Planned, MAKES)?;
    plays(rt, alloc, core, Way::Planned, STAYS)
}

#[test]
fn it_is_told_why_what_was_to_go_stays(rt: HostRuntime) -> Result<(), Fail> {
    let mut core = server(rt.alloc())?;
    let done = stays(&rt, rt.alloc(), &mut core);
    spend(core);
    done
}
