//! Path leases at one server: what stands in the way of a move, what is asked back and what goes. And files that transactions keep there.
use crate::forms::{count, kept_by, one, same, spend, with};
use crate::parcel::id;
use fs_ident::{FileId, List, PathNo, Twin, TxnNo};
use fs_map::FileMap;
use fs_path::{GiveBack, Paths, Recalled};
use std::alloc::Global;
use std::process::Abort;
use std::rt::HostRuntime;
use std::test::Fail;

/// What is done at the server, which manages all files. A path has two files, the second its own.
#[derive(Clone, Copy)]
enum Does {
    /// A lease of this number is given out.
    Issues(u64, &'static str, &'static str),
    /// One is had from another server.
    Gets(u64, &'static str, &'static str),
    /// That server asks it back.
    Recall(u64),
    /// One that was given out is back.
    Back(u64),
    /// Which one stands in the way of a move of what is below this file.
    First(&'static str),
    /// All of those are asked back.
    Clears(&'static str),
    /// The transaction of this number keeps a file where it is.
    Keeps(u64, &'static str),
    /// It keeps two.
    KeepsBoth(u64, &'static str, &'static str),
    /// It keeps none any more.
    Frees(u64),
    /// Which one keeps this file.
    Keeper(&'static str),
}

/// Of how many leases others are told, and the number of the first. Of a file that is kept: one, and the number of the transaction.
type Told = (usize, u64);

/// What is done, and what the last of it tells.
const CASES: &[(&[Does], Told)] = &[
    (&[Does::Gets(1, "/", "/2"), Does::First("/2")], (1, 1)),
    (&[Does::Gets(1, "/", "/2"), Does::First("/1")], (0, 0)),
    (&[Does::Gets(1, "/", "/2"), Does::Clears("/2")], (1, 1)),
    (
        &[
            Does::Gets(1, "/", "/2"),
            Does::Clears("/2"),
            Does::First("/2"),
        ],
        (0, 0),
    ),
    (
        &[
            Does::Issues(2, "/", "/1"),
            Does::Issues(1, "/", "/2"),
            Does::First("/"),
        ],
        (1, 1),
    ),
    (
        &[
            Does::Issues(2, "/", "/1"),
            Does::Issues(1, "/", "/2"),
            Does::Clears("/"),
        ],
        (2, 1),
    ),
    (
        &[
            Does::Issues(1, "/", "/2"),
            Does::Clears("/"),
            Does::First("/"),
        ],
        (1, 1),
    ),
    (
        &[
            Does::Issues(1, "/", "/2"),
            Does::Clears("/"),
            Does::Back(1),
            Does::First("/"),
        ],
        (0, 0),
    ),
    (
        &[
            Does::Gets(1, "/", "/1"),
            Does::Issues(7, "/1", "/1/2"),
            Does::Recall(1),
        ],
        (1, 7),
    ),
    (
        &[
            Does::Gets(1, "/", "/1"),
            Does::Issues(7, "/1", "/1/2"),
            Does::Recall(1),
            Does::Back(7),
        ],
        (1, 1),
    ),
    (
        &[
            Does::Gets(1, "/", "/1"),
            Does::Issues(7, "/1", "/1/2"),
            Does::Back(7),
        ],
        (0, 0),
    ),
    (&[Does::Recall(1)], (0, 0)),
    (&[Does::Keeps(1, "/1"), Does::Keeper("/1")], (1, 1)),
    (
        &[Does::KeepsBoth(1, "/1", "/2"), Does::Keeper("/1")],
        (1, 1),
    ),
    (
        &[Does::KeepsBoth(1, "/1", "/2"), Does::Keeper("/2")],
        (1, 1),
    ),
    (
        &[Does::KeepsBoth(1, "/1", "/2"), Does::Keeper("/3")],
        (0, 0),
    ),
    (
        &[
            Does::KeepsBoth(2, "/1", "/2"),
            Does::Keeps(1, "/2"),
            Does::Keeper("/2"),
        ],
        (1, 1),
    ),
    (
        &[
            Does::KeepsBoth(2, "/1", "/2"),
            Does::Keeps(1, "/2"),
            Does::Frees(1),
            Does::Keeper("/2"),
        ],
        (1, 2),
    ),
    (
        &[
            Does::KeepsBoth(1, "/1", "/2"),
            Does::Frees(1),
            Does::Keeper("/2"),
        ],
        (0, 0),
    ),
];

/// What the steps tell.
#[test]
fn leases_go_back(rt: HostRuntime) -> Result<(), Fail> {
    tells(&rt, rt.alloc(), CASES)
}

fn tells(rt: &impl Abort, alloc: Global, cases: &[(&[Does], Told)]) -> Result<(), Fail> {
    for case in cases {
        same(rt, told(alloc, case.0)?, case.1);
    }
    Ok(())
}

/// What the last of the steps tells, from a table without leases on.
fn told(alloc: Global, steps: &[Does]) -> Result<Told, Fail> {
    let mut paths = Paths::new(alloc);
    let last = all(alloc, &mut paths, steps);
    paths.discard();
    last
}

fn all(alloc: Global, paths: &mut Paths, steps: &[Does]) -> Result<Told, Fail> {
    let mut last = (0, 0);
    for step in steps {
        last = step_of(alloc, paths, *step)?;
    }
    Ok(last)
}

fn step_of(alloc: Global, paths: &mut Paths, step: Does) -> Result<Told, Fail> {
    match step {
        Does::Issues(number, dir, file) => issue(alloc, paths, number, dir, file),
        Does::Gets(number, dir, file) => get(alloc, paths, number, dir, file),
        Does::Recall(number) => recall(alloc, paths, number),
        Does::Back(number) => Ok(first(paths.released(alloc, no(number))?)),
        Does::First(file) => stands(alloc, paths, file),
        Does::Clears(file) => clear(alloc, paths, file),
        Does::Keeps(number, file) => keep(alloc, paths, number, file),
        Does::KeepsBoth(number, one, other) => keep_both(alloc, paths, number, one, other),
        Does::Frees(number) => {
            paths.thaw(txn(number));
            Ok((0, 0))
        }
        Does::Keeper(file) => keeper(alloc, paths, file),
    }
}

fn txn(count: u64) -> TxnNo {
    TxnNo { server: 0, count }
}

fn keep(alloc: Global, paths: &mut Paths, count: u64, file: &str) -> Result<Told, Fail> {
    let file = id(alloc, file)?;
    let done = paths.freeze(alloc, &file, txn(count));
    spend(file);
    done?;
    Ok((0, 0))
}

fn keep_both(
    alloc: Global,
    paths: &mut Paths,
    count: u64,
    one: &str,
    other: &str,
) -> Result<Told, Fail> {
    let both = files(alloc, one, other)?;
    let done = paths.freeze_all(alloc, both.as_slice(), txn(count));
    spend(both);
    done?;
    Ok((0, 0))
}

fn keeper(alloc: Global, paths: &Paths, file: &str) -> Result<Told, Fail> {
    let file = id(alloc, file)?;
    let found = paths.frozen(&file);
    spend(file);
    match found {
        Some(txn) => Ok((1, txn.count)),
        None => Ok((0, 0)),
    }
}

fn no(count: u64) -> PathNo {
    PathNo { server: 0, count }
}

/// Two files, as those of a path.
fn files(alloc: Global, dir: &str, file: &str) -> Result<List<FileId>, Fail> {
    let path = one(alloc, id(alloc, dir)?)?;
    let (mut path, last) = with(path, id(alloc, file))?;
    let done = path.push(last);
    kept_by(path, done)
}

fn issue(
    alloc: Global,
    paths: &mut Paths,
    count: u64,
    dir: &str,
    file: &str,
) -> Result<Told, Fail> {
    let (path, last) = with(files(alloc, dir, file)?, id(alloc, file))?;
    let done = paths.issue(alloc, no(count), 1, &last, &path);
    spend(path);
    spend(last);
    done?;
    Ok((0, 0))
}

fn get(alloc: Global, paths: &mut Paths, count: u64, dir: &str, file: &str) -> Result<Told, Fail> {
    let (path, last) = with(files(alloc, dir, file)?, id(alloc, file))?;
    let done = paths.granted(alloc, 0, no(count), &last, &path);
    spend(path);
    spend(last);
    done?;
    Ok((0, 0))
}

fn recall(alloc: Global, paths: &mut Paths, count: u64) -> Result<Told, Fail> {
    match paths.recalled(alloc, no(count))? {
        Recalled::Release { .. } => Ok((1, count)),
        Recalled::Down(list) => Ok(first(list)),
        Recalled::Unheld => Ok((0, 0)),
    }
}

fn stands(alloc: Global, paths: &Paths, file: &str) -> Result<Told, Fail> {
    let (map, prefix) = with(FileMap::new(alloc)?, id(alloc, file))?;
    let found = paths.first_in(&prefix, &map, 0);
    spend(map);
    spend(prefix);
    match found {
        Some(lease) => Ok((1, lease.count)),
        None => Ok((0, 0)),
    }
}

fn clear(alloc: Global, paths: &mut Paths, file: &str) -> Result<Told, Fail> {
    let (map, prefix) = with(FileMap::new(alloc)?, id(alloc, file))?;
    let back = paths.recall_in(alloc, &prefix, &map, 0);
    spend(map);
    spend(prefix);
    let GiveBack { recalls, releases } = back?;
    let sum = recalls.len().saturating_add(releases.len());
    let (_, recalled) = first(recalls);
    let (_, released) = first(releases);
    Ok((sum, if recalled == 0 { released } else { recalled }))
}

/// How many there are, and the number of the first.
fn first(list: List<(u8, PathNo)>) -> Told {
    let number = match list.as_slice().first() {
        Some(lease) => lease.1.count,
        None => 0,
    };
    (count(list), number)
}
