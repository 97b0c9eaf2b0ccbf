//! The texts of notes on led operations and on path leases.
use crate::report::id;
use crate::report::notes::writes_note;
use fs_field::Vote;
use fs_ident::{LeaseNo, PathNo, TxnNo};
use fs_model::Reply;
use fs_msg::{Act, ClientNote, Note, ServerNote};
use fs_record::Why;
use std::alloc::Global;
use std::test::Fail;

/// The texts of notes on led operations, by their numbers.
const LED: [&[u8]; 23] = [
    b"refuses moved /1 s1",
    b"refuses wanted /1",
    b"refuses frozen /1 s0#1",
    b"refuses pathsout s0@1",
    b"refuses changed",
    b"refuses nochild",
    b"votes s0#1 yes",
    b"votes s0#1 ended s0.2 100 110",
    b"votes s0#1 moved /1 s1",
    b"votes s0#1 pathsout s0@1",
    b"prepares s0#1",
    b"commits s0#1 deleted",
    b"aborts s0#1 changed",
    b"aborts s0#1 ended s0.2 100 110",
    b"waits s0#1",
    b"seeks s0#1 s2",
    b"applies s0#1",
    b"ends s0#1",
    b"led 4 renamed",
    b"led again wanted /1",
    b"led ended s0.2 100 110",
    b"leading 4 s2",
    b"busy led",
];

const TXN: TxnNo = TxnNo {
    server: 0,
    count: 1,
};

const LEASE: LeaseNo = LeaseNo {
    server: 0,
    count: 2,
};

const PATH: PathNo = PathNo {
    server: 0,
    count: 1,
};

fn why(alloc: Global, k: u64) -> Result<Why, Fail> {
    match k {
        0 => Ok(Why::Moved {
            prefix: id(alloc, b"/1")?,
            to: 1,
        }),
        1 => Ok(Why::Wanted {
            file: id(alloc, b"/1")?,
        }),
        2 => Ok(Why::Frozen {
            file: id(alloc, b"/1")?,
            txn: TXN,
        }),
        3 => Ok(Why::PathsOut { no: PATH }),
        4 => Ok(Why::Changed),
        _ => Ok(Why::NoChild),
    }
}

fn vote(alloc: Global, k: u64) -> Result<Vote, Fail> {
    match k {
        6 => Ok(Vote::Yes),
        7 => Ok(Vote::Ended {
            lease: LEASE,
            until: 100,
            now: 110,
        }),
        8 => Ok(Vote::Moved {
            prefix: id(alloc, b"/1")?,
            to: 1,
        }),
        _ => Ok(Vote::PathsOut { no: PATH }),
    }
}

fn server_note(alloc: Global, k: u64) -> Result<ServerNote, Fail> {
    match k {
        0..=5 => Ok(ServerNote::Refuses {
            why: why(alloc, k)?,
        }),
        6..=9 => Ok(ServerNote::Votes {
            txn: TXN,
            vote: vote(alloc, k)?,
        }),
        10 => Ok(ServerNote::Prepares { txn: TXN }),
        11 => Ok(ServerNote::Commits {
            txn: TXN,
            reply: Reply::Deleted,
        }),
        12 => Ok(ServerNote::Aborts {
            txn: TXN,
            why: Why::Changed,
        }),
        13 => Ok(ServerNote::AbortsEnded {
            txn: TXN,
            lease: LEASE,
            until: 100,
            now: 110,
        }),
        14 => Ok(ServerNote::Waits { txn: TXN }),
        15 => Ok(ServerNote::Seeks { txn: TXN, to: 2 }),
        16 => Ok(ServerNote::Applies { txn: TXN }),
        _ => Ok(ServerNote::Ends { txn: TXN }),
    }
}

fn client_note(alloc: Global, k: u64) -> Result<ClientNote, Fail> {
    match k {
        18 => Ok(ClientNote::Led {
            n: 4,
            reply: Reply::Renamed,
        }),
        19 => Ok(ClientNote::LedAgain {
            why: why(alloc, 1)?,
        }),
        _ => Ok(ClientNote::LedEnded {
            lease: LEASE,
            until: 100,
            now: 110,
        }),
    }
}

fn note(alloc: Global, k: u64) -> Result<Note, Fail> {
    match k {
        0..=17 => Ok(Note::Server(server_note(alloc, k)?)),
        18..=20 => Ok(Note::Client(client_note(alloc, k)?)),
        21 => Ok(Note::Act(Act::Leading { n: 4, to: 2 })),
        _ => Ok(Note::Act(Act::Busy {
            what: fs_msg::Busy::Led,
        })),
    }
}

/// The texts of notes on path leases, by their numbers.
const PATHS: [&[u8]; 10] = [
    b"pathgrants s0@1",
    b"pathdenies frozen /1 s0#1",
    b"pathholds s0@1",
    b"pathdrops s0@1",
    b"pathseeks /1 s2",
    b"pathfails nochild",
    b"pathfrees s0@1",
    b"pathdown s0@1 18446744073709551615",
    b"pathback s0@1",
    b"none",
];

fn path_note(alloc: Global, k: u64) -> Result<ServerNote, Fail> {
    match k {
        0 => Ok(ServerNote::PathGrants { no: PATH }),
        1 => Ok(ServerNote::PathDenies {
            why: why(alloc, 2)?,
        }),
        2 => Ok(ServerNote::PathHolds { no: PATH }),
        3 => Ok(ServerNote::PathDrops { no: PATH }),
        4 => Ok(ServerNote::PathSeeks {
            file: id(alloc, b"/1")?,
            to: 2,
        }),
        5 => Ok(ServerNote::PathFails { why: Why::NoChild }),
        6 => Ok(ServerNote::PathFrees { no: PATH }),
        7 => Ok(ServerNote::PathDown {
            no: PATH,
            count: u64::MAX,
        }),
        8 => Ok(ServerNote::PathBack { no: PATH }),
        _ => Ok(ServerNote::PathNone),
    }
}

#[test]
fn writes_notes_on_path_leases(rt: HostRuntime) -> Result<(), Fail> {
    for (k, text) in PATHS.iter().enumerate() {
        let note = Note::Server(path_note(rt.alloc(), k as u64)?);
        writes_note(&rt, rt.alloc(), note, *text)?;
    }
    Ok(())
}

#[test]
fn writes_notes_on_led_operations(rt: HostRuntime) -> Result<(), Fail> {
    for (k, text) in LED.iter().enumerate() {
        writes_note(&rt, rt.alloc(), note(rt.alloc(), k as u64)?, *text)?;
    }
    Ok(())
}
