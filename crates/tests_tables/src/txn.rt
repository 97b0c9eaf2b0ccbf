//! Votes on renames and deletes, and what is decided.
use crate::forms::{kept, same, spend, with};
use crate::parcel::id;
use fs_field::{PathAnswer, Vote};
use fs_ident::{FileId, LeaseNo, List, Name, PathNo, Session, TxnNo};
use fs_model::{Op, Reply};
use fs_record::{LedEnd, Why};
use fs_txn::{Decision, Leader, Mode2, parts};
use std::alloc::Global;
use std::process::Abort;
use std::test::Fail;

/// The vote of a part, in short.
#[derive(Clone, Copy)]
enum Voted {
    Agrees,
    Lapsed,
    OnPath,
    Elsewhere(u8),
}

/// What is known of the path of the destination, in short: nothing, its files, or what is in the way.
#[derive(Clone, Copy)]
enum Known {
    Nothing,
    Files(&'static str, &'static str),
    Wanted,
    Frozen,
}

/// What is decided, and how many effects each of three parts is told.
type Found = (&'static str, [usize; 3]);

/// A delete of the child of /1, or a rename of it into /2; its mode, its votes in order, what is known of the path, and what is
/// decided.
type Case = (bool, Mode2, &'static [(u8, Voted)], Known, Found);

const CASES: &[Case] = &[
    (
        true,
        Mode2::Plain,
        &[(0, Voted::Agrees), (1, Voted::Agrees)],
        Known::Nothing,
        ("deleted", [1, 1, 0]),
    ),
    (
        true,
        Mode2::Freeze,
        &[(1, Voted::Agrees), (0, Voted::Agrees)],
        Known::Nothing,
        ("deleted", [1, 1, 0]),
    ),
    (
        true,
        Mode2::Freeze,
        &[(1, Voted::OnPath), (0, Voted::Agrees)],
        Known::Nothing,
        ("paths", [0, 0, 0]),
    ),
    (
        true,
        Mode2::Plain,
        &[(1, Voted::Agrees)],
        Known::Nothing,
        ("waits", [0, 0, 0]),
    ),
    (
        false,
        Mode2::Plain,
        &[(0, Voted::Agrees), (1, Voted::Agrees), (2, Voted::Agrees)],
        Known::Nothing,
        ("renamed", [1, 1, 1]),
    ),
    (
        false,
        Mode2::Plain,
        &[
            (0, Voted::Agrees),
            (2, Voted::Elsewhere(3)),
            (1, Voted::Lapsed),
            (2, Voted::OnPath),
        ],
        Known::Nothing,
        ("ended", [0, 0, 0]),
    ),
    (
        false,
        Mode2::Plain,
        &[
            (0, Voted::Agrees),
            (1, Voted::Agrees),
            (2, Voted::Elsewhere(3)),
        ],
        Known::Nothing,
        ("waits", [0, 0, 0]),
    ),
    (
        false,
        Mode2::Freeze,
        &[(0, Voted::Agrees), (1, Voted::Agrees), (2, Voted::Agrees)],
        Known::Files("/", "/2"),
        ("renamed", [1, 1, 1]),
    ),
    (
        false,
        Mode2::Freeze,
        &[(0, Voted::Agrees), (1, Voted::Agrees), (2, Voted::Agrees)],
        Known::Files("/", "/1/3"),
        ("changed", [0, 0, 0]),
    ),
    (
        false,
        Mode2::Freeze,
        &[(0, Voted::Agrees), (1, Voted::Agrees), (2, Voted::Agrees)],
        Known::Nothing,
        ("changed", [0, 0, 0]),
    ),
    (
        false,
        Mode2::Check,
        &[(0, Voted::Agrees), (1, Voted::Agrees), (2, Voted::Agrees)],
        Known::Files("/", "/1/3"),
        ("cycle", [0, 0, 0]),
    ),
    (
        false,
        Mode2::Check,
        &[(0, Voted::Agrees), (1, Voted::Agrees), (2, Voted::Agrees)],
        Known::Files("/", "/2"),
        ("changed", [0, 0, 0]),
    ),
    (
        false,
        Mode2::Check,
        &[(0, Voted::Agrees), (1, Voted::Agrees), (2, Voted::Agrees)],
        Known::Wanted,
        ("wanted", [0, 0, 0]),
    ),
    (
        false,
        Mode2::Check,
        &[(0, Voted::Agrees), (1, Voted::Agrees), (2, Voted::Agrees)],
        Known::Frozen,
        ("frozen", [0, 0, 0]),
    ),
];

fn vote(alloc: Global, voted: Voted) -> Result<Vote, Fail> {
    match voted {
        Voted::Agrees => Ok(Vote::Yes),
        Voted::Lapsed => Ok(Vote::Ended {
            lease: LeaseNo {
                server: 1,
                count: 4,
            },
            until: 20,
            now: 30,
        }),
        Voted::OnPath => Ok(Vote::PathsOut {
            no: PathNo {
                server: 1,
                count: 2,
            },
        }),
        Voted::Elsewhere(to) => Ok(Vote::Moved {
            prefix: id(alloc, "/1")?,
            to,
        }),
    }
}

fn files(alloc: Global, first: &str, second: &str) -> Result<List<FileId>, Fail> {
    let mut files = List::new(alloc);
    files.push(id(alloc, first)?)?;
    files.push(id(alloc, second)?)?;
    Ok(files)
}

fn path(alloc: Global, known: Known) -> Result<Option<PathAnswer>, Fail> {
    match known {
        Known::Nothing => Ok(None),
        Known::Files(first, second) => Ok(Some(PathAnswer::Path(files(alloc, first, second)?))),
        Known::Wanted => Ok(Some(PathAnswer::Wanted {
            file: id(alloc, "/2")?,
            parent: id(alloc, "/")?,
        })),
        Known::Frozen => Ok(Some(PathAnswer::Frozen {
            file: id(alloc, "/2")?,
            txn: TxnNo {
                server: 2,
                count: 1,
            },
        })),
    }
}

/// The delete of `a` in /1, or its rename to `b` in /2.
fn op(alloc: Global, removes: bool) -> Result<Op, Fail> {
    let dir = id(alloc, "/1")?;
    let (dir, name) = with(dir, named(alloc, b"a"))?;
    if removes {
        return Ok(Op::Delete { dir, name });
    }
    let (to, dname) = with(id(alloc, "/2")?, named(alloc, b"b"))?;
    Ok(Op::Rename {
        sdir: dir,
        sname: name,
        ddir: to,
        dname,
    })
}

fn named(alloc: Global, bytes: &[u8]) -> Result<Name, Fail> {
    Ok(Name::new(alloc, bytes)?)
}

fn leader(alloc: Global, removes: bool, mode: Mode2) -> Result<Leader, Fail> {
    let op = op(alloc, removes)?;
    let file = id(alloc, "/1/3")?;
    let told = parts(alloc, &op, &file, &List::new(alloc), mode)?;
    Ok(Leader::begin(
        alloc,
        TxnNo {
            server: 0,
            count: 1,
        },
        Session(1),
        1,
        op,
        file,
        told,
        mode,
    )?)
}

/// Counts the votes, each of a part that is awaited.
fn count_all(alloc: Global, leader: &mut Leader, votes: &[(u8, Voted)]) -> Result<(), Fail> {
    for (part, voted) in votes {
        let vote = vote(alloc, *voted)?;
        if leader.awaits(*part) {
            leader.vote(*part, vote);
        }
    }
    Ok(())
}

/// What is decided, in one word.
fn word(decision: &Decision) -> &'static str {
    match decision {
        Decision::Commit { reply, .. } => match reply {
            Reply::Deleted => "deleted",
            Reply::Renamed => "renamed",
            Reply::Cycle => "cycle",
            _ => "other",
        },
        Decision::Abort { end } => match end {
            LedEnd::Done { .. } => "done",
            LedEnd::Ended { .. } => "ended",
            LedEnd::Again { why } => cause(why),
        },
    }
}

fn cause(why: &Why) -> &'static str {
    match why {
        Why::Moved { .. } => "moved",
        Why::Wanted { .. } => "wanted",
        Why::Frozen { .. } => "frozen",
        Why::PathsOut { .. } => "paths",
        Why::Changed => "changed",
        Why::NoChild => "no child",
    }
}

/// How many effects the first three parts are told.
fn told(decision: &Decision) -> [usize; 3] {
    [
        decision.effects_of(0).len(),
        decision.effects_of(1).len(),
        decision.effects_of(2).len(),
    ]
}

/// What is decided, once every part has voted.
fn decide(alloc: Global, leader: &Leader, known: Known) -> Result<Found, Fail> {
    if !leader.is_full() {
        return Ok(("waits", [0, 0, 0]));
    }
    let path = path(alloc, known)?;
    let done = leader.decide(alloc, path.as_ref());
    spend(path);
    let decision = done?;
    let found = (word(&decision), told(&decision));
    spend(decision);
    Ok(found)
}

fn decided(alloc: Global, case: &Case) -> Result<Found, Fail> {
    let mut leader = leader(alloc, case.0, case.1)?;
    let done = count_all(alloc, &mut leader, case.2);
    let leader = kept(leader, done)?;
    let found = decide(alloc, &leader, case.3);
    spend(leader);
    found
}

#[test]
fn leaders_decide(rt: HostRuntime) -> Result<(), Fail> {
    decides(&rt, rt.alloc(), CASES)
}

fn decides(rt: &impl Abort, alloc: Global, cases: &[Case]) -> Result<(), Fail> {
    for case in cases {
        same(rt, decided(alloc, case)?, case.4);
    }
    Ok(())
}
