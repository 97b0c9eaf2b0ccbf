//! A server and what comes to it, by scripts: a first create with its leases, the end of a lease, what is asked back, and
//! messages that no honest actor sends.
ghost use Rattle.std.specs.Prelude.{◌≡◌, ◌≤◌, ◌^◌, true};
ghost use Rattle.fs_ident.specs.declared.limits.TheConstants.{LATEST};
ghost use Rattle.fs_server.specs.Step.{AreNumbersLeft, CanBeTold};
ghost use Rattle.fs_server.specs.declared.event.ServerEvent.TheVariants.{FromPeer};

mod follows;
mod leads;
mod moves;
mod opens;
mod paths;
mod said;
mod three_servers;

use crate::forms::{copied, none_such, reads, same, spend};
use fs_field::Field;
use fs_ident::{FileId, LATEST, Memory, Session, Twin};
use fs_msg::{Msg, PeerMsg, read_whole};
use fs_record::Record;
use fs_server::{ServerCore, ServerEvent, ServerOut};
use std::alloc::Global;
use std::process::Abort;
use std::test::Fail;

/// What comes to a server.
#[derive(Clone, Copy)]
enum Event {
    /// The message of these bytes from the session.
    From(u16, &'static [u8]),
    /// The message of these bytes from the server.
    Peer(u8, &'static [u8]),
    Turn,
    /// The leases on the life of the root are asked back.
    RecallRoot,
    /// What begins with the prefix is to go to the server.
    Move(&'static str, u8),
}

/// How it is told: by one call, or by a plan of which a copy is committed.
#[derive(Clone, Copy)]
enum Way {
    AtOnce,
    Planned,
}

/// What is looked at: all that it comes to, from a copy, or what is noted of it.
#[derive(Clone, Copy)]
enum Seen {
    All,
    Note,
}

/// A line of a script: a reading, an event, and what is seen of it.
type Line = (u64, Event, Seen, &'static str);

/// The first server, where clocks differ by up to 10 and leases are given for 100.
fn server(alloc: Global) -> Result<ServerCore, Fail> {
    Ok(ServerCore::new(alloc, 0, 10, 100)?)
}

fn event_of(alloc: Global, event: Event) -> Result<ServerEvent, Fail> {
    match event {
        Event::From(by, bytes) => from_client(alloc, by, bytes),
        Event::Peer(from, bytes) => from_peer(alloc, from, bytes),
        Event::Turn => Ok(ServerEvent::Turn),
        Event::RecallRoot => Ok(ServerEvent::Recall(Field::Life(FileId::root(alloc)))),
        Event::Move(prefix, to) => Ok(ServerEvent::Move {
            prefix: FileId::parse(alloc, prefix.as_bytes())?,
            to,
        }),
    }
}

fn from_client(alloc: Global, by: u16, bytes: &[u8]) -> Result<ServerEvent, Fail> {
    match read_whole(alloc, bytes)? {
        Msg::Client(m) => Ok(ServerEvent::FromClient(Session(by), m)),
        Msg::Answer(m) => none_such(m),
        Msg::Peer(m) => none_such(m),
    }
}

fn from_peer(alloc: Global, from: u8, bytes: &[u8]) -> Result<ServerEvent, Fail> {
    match read_whole(alloc, bytes)? {
        Msg::Peer(m) => Ok(ServerEvent::FromPeer(from, m)),
        Msg::Answer(m) => none_such(m),
        Msg::Client(m) => none_such(m),
    }
}

/// Whether it can be read from bytes.
fn can_be_told(ev: &ServerEvent) -> bool
    ensures { result ≡ true → CanBeTold ev.now }
{
    match ev {
        ServerEvent::FromPeer(from, m) => can_be_brought(*from, m),
        ServerEvent::FromClient(_, _)
        | ServerEvent::Turn
        | ServerEvent::Recall(_)
        | ServerEvent::Move { .. } => true,
    }
}

/// Whether what another server sends can be read from bytes.
fn can_be_brought(from: u8, m: &PeerMsg) -> bool
    ensures { result ≡ true → CanBeTold (FromPeer from m.now) }
{
    match m {
        PeerMsg::Parcel { parcel } => are_numbers_left(parcel.records.as_slice()),
        _ => true,
    }
}

fn are_numbers_left(records: &[(FileId, Record)]) -> bool
    ensures { result ≡ true → AreNumbersLeft records.now }
{
    let mut rest = records;
    while let Some((first, later)) = rest.split_first() {
        if !is_number_left(&first.1) {
            return false;
        }
        rest = later;
    }
    true
}

fn is_number_left(kept: &Record) -> bool
    ensures { result ≡ true → (1 ≤ kept.now.next) × (kept.now.next ≤ 2 ^ 32) }
{
    kept.next >= 1 && kept.next <= 4294967296
}

/// What is seen of a copy of the event at the reading.
fn come(
    alloc: Global,
    core: &mut ServerCore,
    now: u64,
    event: Event,
    way: Way,
    seen: Seen,
) -> Result<String, Fail> {
    let ev = copied(alloc, event_of(alloc, event)?)?;
    let text = told(alloc, core, now, &ev, way, seen);
    spend(ev);
    text
}

fn told(
    alloc: Global,
    core: &mut ServerCore,
    now: u64,
    ev: &ServerEvent,
    way: Way,
    seen: Seen,
) -> Result<String, Fail> {
    if now > LATEST || !can_be_told(ev) {
        return Err(Fail::from("it is no event"));
    }
    match way {
        Way::AtOnce => step(alloc, core, now, ev, seen),
        Way::Planned => plan_step(alloc, core, now, ev, seen),
    }
}

fn step(
    alloc: Global,
    core: &mut ServerCore,
    now: u64,
    ev: &ServerEvent,
    seen: Seen,
) -> Result<String, Fail>
    requires reading { now ≤ LATEST }
    requires told { CanBeTold ev.now }
{
    let out = copied(alloc, core.step(alloc, now, ev)?)?;
    let text = text_seen(alloc, &out, seen);
    spend(out);
    Ok(text?)
}

fn plan_step(
    alloc: Global,
    core: &mut ServerCore,
    now: u64,
    ev: &ServerEvent,
    seen: Seen,
) -> Result<String, Fail>
    requires reading { now ≤ LATEST }
    requires told { CanBeTold ev.now }
{
    let plan = copied(alloc, core.plan(alloc, now, ev)?)?;
    let text = text_seen(alloc, &plan.out, seen);
    core.commit(alloc, plan)?;
    Ok(text?)
}

fn text_seen(alloc: Global, out: &ServerOut, seen: Seen) -> Result<String, Memory> {
    match seen {
        Seen::All => Ok(format!(in alloc; "{out:?}")?),
        Seen::Note => Ok(format!(in alloc; "{:?}", out.note)?),
    }
}

/// All that comes to the server, line by line.
fn plays(
    rt: &impl Abort,
    alloc: Global,
    core: &mut ServerCore,
    way: Way,
    script: &[Line],
) -> Result<(), Fail> {
    for (now, event, seen, wanted) in script {
        reads(rt, come(alloc, core, *now, *event, way, *seen)?, wanted);
    }
    Ok(())
}

/// The script of a server, which is let go.
fn plays_on(
    rt: &impl Abort,
    alloc: Global,
    core: ServerCore,
    way: Way,
    script: &[Line],
) -> Result<(), Fail> {
    let mut core = core;
    let done = plays(rt, alloc, &mut core, way, script);
    spend(core);
    done
}

/// The script of the first server, in either way.
fn plays_first(rt: &impl Abort, alloc: Global, script: &[Line]) -> Result<(), Fail> {
    for way in [Way::AtOnce, Way::Planned] {
        plays_on(rt, alloc, server(alloc)?, way, script)?;
    }
    Ok(())
}

fn has_file(alloc: Global, core: &ServerCore) -> Result<bool, Fail> {
    let file = FileId::parse(alloc, b"/1")?;
    let has = core.records().get(&file).is_some();
    spend(file);
    Ok(has)
}

const FIRST_LEASES: &str = "ServerOut { note: Grants { count: 3, end: All }, send: List { items: [(\
    Client(Session(1)), Answer(Granted { grants: List { items: [\
    Grant { no: LeaseNo { server: 0, count: 1 }, field: Life(FileId { numbers: [] }), kind: Shared, \
    until: 100, value: Life(Some(Dir)) }, \
    Grant { no: LeaseNo { server: 0, count: 2 }, field: Child(FileId { numbers: [] }, \
    Name { bytes: [97] }), kind: Exclusive, until: 100, value: Child(None) }, \
    Grant { no: LeaseNo { server: 0, count: 3 }, field: Life(FileId { numbers: [1] }), kind: \
    Exclusive, until: 100, value: Life(None) }] }, fresh: Some(FileId { numbers: [1] }), end: All \
    }))] }, admitted: List { items: [] } }";

const ADMITS_ALL: &str =
    "ServerOut { note: Admits { count: 2, end: All, gaps: List { items: [] } }, send: List { items: [(Client(Session(1)), \
    Answer(Shipped { count: 2, end: All }))] }, admitted: List { items: [Item { by: Client(Session(1)), n: 1, op: Create { \
    dir: FileId { numbers: [] }, name: Name { bytes: [97] }, kind: File, id: Some(FileId { numbers: [1] }) }, reply: Made }, \
    Item { by: Client(Session(1)), n: 2, op: Kind { file: FileId { numbers: [] } }, reply: IsDir }] } }";

const ADMITS: &str = "Admits { count: 2, end: All, gaps: List { items: [] } }";

/// The leases of a first create.
const ASKS: &[Line] = &[(
    0,
    Event::From(1, said::ASK_TO_CREATE),
    Seen::All,
    FIRST_LEASES,
)];

/// Its log.
const HANDS_IN: &[Line] = &[(5, Event::From(1, said::LOG), Seen::All, ADMITS_ALL)];

fn creates(rt: &impl Abort, alloc: Global, core: &mut ServerCore, way: Way) -> Result<(), Fail> {
    plays(rt, alloc, core, way, ASKS)?;
    same(rt, has_file(alloc, core)?, false);
    plays(rt, alloc, core, way, HANDS_IN)?;
    same(rt, has_file(alloc, core)?, true);
    Ok(())
}

fn creates_in(rt: &impl Abort, alloc: Global, way: Way) -> Result<(), Fail> {
    let mut core = server(alloc)?;
    let done = creates(rt, alloc, &mut core, way);
    spend(core);
    done
}

#[test]
fn a_first_create(rt: HostRuntime) -> Result<(), Fail> {
    creates_in(&rt, rt.alloc(), Way::AtOnce)?;
    creates_in(&rt, rt.alloc(), Way::Planned)
}

const ENDS: &str = "Admits { count: 0, end: Ended { n: 1, lease: LeaseNo { server: 0, count: 1 }, \
    until: 100, now: 110 }, gaps: List { items: [2] } }";

const ADMITS_ONE: &str = "Admits { count: 1, end: All, gaps: List { items: [] } }";

const ONE_GRANT: &str = "Grants { count: 1, end: All }";

const THREE_GRANTS: &str = "Grants { count: 3, end: All }";

/// The log comes in time, and too late.
const IN_TIME: &[Line] = &[
    (
        0,
        Event::From(1, said::ASK_TO_CREATE),
        Seen::Note,
        THREE_GRANTS,
    ),
    (109, Event::From(1, said::LOG), Seen::Note, ADMITS),
];

const LATE: &[Line] = &[
    (
        0,
        Event::From(1, said::ASK_TO_CREATE),
        Seen::Note,
        THREE_GRANTS,
    ),
    (110, Event::From(1, said::LOG), Seen::Note, ENDS),
];

#[test]
fn a_row_stands_until_its_end_and_the_skew(rt: HostRuntime) -> Result<(), Fail> {
    plays_first(&rt, rt.alloc(), IN_TIME)?;
    plays_first(&rt, rt.alloc(), LATE)
}

const WAITS: &str =
    "ServerOut { note: Grants { count: 1, end: Wait { blocker: LeaseNo { server: 0, \
    count: 2 } } }, send: List { items: [(Client(Session(2)), Answer(Granted { grants: List { items: [\
    Grant { no: LeaseNo { server: 0, count: 4 }, field: Life(FileId { numbers: [] }), kind: Shared, \
    until: 150, value: Life(Some(Dir)) }] }, fresh: None, end: Wait { blocker: LeaseNo { server: 0, \
    count: 2 } } })), (Client(Session(1)), Answer(Recall { no: LeaseNo { server: 0, count: 2 } }))] }, \
    admitted: List { items: [] } }";

const RECALLS: &str = "ServerOut { note: Recalls { count: 1 }, send: List { items: [(\
    Client(Session(1)), Answer(Recall { no: LeaseNo { server: 0, count: 1 } }))] }, admitted: List { \
    items: [] } }";

/// What stands in the way of another session is asked back, and so are the leases on a field.
const ASKED_BACK: &[Line] = &[
    (
        0,
        Event::From(1, said::ASK_TO_CREATE),
        Seen::Note,
        THREE_GRANTS,
    ),
    (50, Event::RecallRoot, Seen::All, RECALLS),
    (50, Event::From(2, said::ASK_TO_CREATE), Seen::All, WAITS),
];

#[test]
fn leases_are_asked_back(rt: HostRuntime) -> Result<(), Fail> {
    plays_first(&rt, rt.alloc(), ASKED_BACK)
}

const PASSES: &str =
    "ServerOut { note: Grants { count: 2, end: All }, send: List { items: [(Client(Session(2)), Answer(Granted { \
    grants: List { items: [Grant { no: LeaseNo { server: 0, count: 2 }, field: Life(FileId { numbers: [] }), kind: Shared, \
    until: 100, value: Life(Some(Dir)) }, Grant { no: LeaseNo { server: 0, count: 3 }, field: Life(FileId { numbers: [2] }), \
    kind: Exclusive, until: 100, value: Life(None) }] }, fresh: Some(FileId { numbers: [2] }), end: All }))] }, admitted: \
    List { items: [] } }";

/// A number of a new file that a row bears is passed over.
const PASSED_OVER: &[Line] = &[
    (0, Event::From(1, said::ASK_FIRST), Seen::Note, ONE_GRANT),
    (
        0,
        Event::From(2, said::ASK_ROOT_AND_FRESH),
        Seen::All,
        PASSES,
    ),
];

#[test]
fn a_number_that_a_row_bears_is_passed_over(rt: HostRuntime) -> Result<(), Fail> {
    plays_first(&rt, rt.alloc(), PASSED_OVER)
}

const RENEWS: &str = "ServerOut { note: Renews { count: 2, end: All }, send: List { items: [(\
    Client(Session(1)), Answer(Renewed { rows: List { items: [(LeaseNo { server: 0, count: 1 }, \
    Some(160)), (LeaseNo { server: 0, count: 9 }, None)] }, end: All }))] }, admitted: List { items: [] \
    } }";

const RENEWS_NONE: &str = "ServerOut { note: Renews { count: 2, end: All }, send: List { items: [(\
    Client(Session(1)), Answer(Renewed { rows: List { items: [(LeaseNo { server: 0, count: 1 }, \
    None), (LeaseNo { server: 0, count: 9 }, None)] }, end: All }))] }, admitted: List { items: [] } }";

/// Leases are renewed, and nothing is done at a turn.
const RENEWED: &[Line] = &[
    (
        0,
        Event::From(1, said::ASK_TO_CREATE),
        Seen::Note,
        THREE_GRANTS,
    ),
    (60, Event::From(1, said::RENEW), Seen::All, RENEWS),
    (60, Event::Turn, Seen::Note, "Idle"),
];

/// They are given back.
const RELEASED: &[Line] = &[
    (
        62,
        Event::From(1, said::RELEASE),
        Seen::Note,
        "Frees { count: 2, end: All }",
    ),
    (62, Event::From(1, said::RENEW), Seen::All, RENEWS_NONE),
];

/// A copy from before has them still.
const OF_TWIN: &[Line] = &[(60, Event::From(1, said::RENEW), Seen::All, RENEWS)];

fn releases(
    rt: &impl Abort,
    alloc: Global,
    core: &mut ServerCore,
    twin: ServerCore,
) -> Result<(), Fail> {
    match plays(rt, alloc, core, Way::AtOnce, RELEASED) {
        Ok(()) => plays_on(rt, alloc, twin, Way::AtOnce, OF_TWIN),
        Err(e) => {
            spend(twin);
            Err(e)
        }
    }
}

fn renews(rt: &impl Abort, alloc: Global, core: &mut ServerCore) -> Result<(), Fail> {
    plays(rt, alloc, core, Way::AtOnce, RENEWED)?;
    let twin = core.copy(alloc)?;
    releases(rt, alloc, core, twin)
}

#[test]
fn leases_are_renewed_and_released(rt: HostRuntime) -> Result<(), Fail> {
    let mut core = server(rt.alloc())?;
    let done = renews(&rt, rt.alloc(), &mut core);
    spend(core);
    done
}

/// A log with a delete; to lead a look-up; and that a part is done of a transaction that is not led here.
const ODD: &[Line] = &[
    (
        0,
        Event::From(1, said::LOG_OF_DELETE),
        Seen::Note,
        "Strange",
    ),
    (0, Event::From(1, said::LEAD_LOOKUP), Seen::Note, "Strange"),
    (0, Event::Peer(1, said::DONE), Seen::Note, "Strange"),
];

#[test]
fn what_no_honest_actor_sends_is_strange(rt: HostRuntime) -> Result<(), Fail> {
    plays_first(&rt, rt.alloc(), ODD)
}
