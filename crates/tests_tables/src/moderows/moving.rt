//! Rows that go to another server, and rows that come from one.
ghost use Rattle.std.specs.Prelude.{◌≡◌};
ghost use Rattle.fs_moderows.specs.Moving.{are_on_modes};

use crate::forms::{kept, one, same, spend, with};
use crate::moderows::{TXN, WRITES, number, opens};
use crate::parcel::{On, Told, rows};
use fs_field::Row;
use fs_ident::{FileId, List, Session};
use fs_map::{FileMap, MapPiece};
use fs_moderows::ModeRows;
use fs_modes::Modes;
use std::alloc::Global;
use std::process::Abort;
use std::test::Fail;

const FILE: &str = "/1";

fn are_on_modes(rows: &List<Row>) -> bool
    ensures { result ≡ are_on_modes rows.now }
{
    rows.as_slice().iter().all(|row| !row.field.tells_no_mode())
}

/// Who has handles on which file.
type Selves = List<(FileId, List<(Session, Modes)>)>;

/// These sessions write the file.
fn writers(alloc: Global, sessions: &[u16]) -> Result<Selves, Fail> {
    let file = FileId::parse(alloc, FILE.as_bytes())?;
    let file_and_modes = with(file, opens(alloc, sessions, WRITES))?;
    Ok(one(alloc, file_and_modes)?)
}

/// Whether these rows fit, and are in the table then.
fn join(
    alloc: Global,
    table: &mut ModeRows,
    selves: &Selves,
    more: List<Row>,
) -> Result<bool, Fail> {
    if !are_on_modes(&more) {
        spend(more);
        return Err(Fail::from("a row is on no mode"));
    }
    if !table.fits(selves, &more) {
        spend(more);
        return Ok(false);
    }
    table.join(alloc, more)?;
    Ok(true)
}

/// Whether the rows fit, and are in the table then.
fn come(alloc: Global, table: &mut ModeRows, selves: &Selves, told: &[Told]) -> Result<bool, Fail> {
    let more = rows(alloc, told)?;
    join(alloc, table, selves, more)
}

/// The rows of a table, those that come, the sessions that write the file 1, and whether they fit.
type Case = (&'static [Told], &'static [Told], &'static [u16], bool);

/// The first session may begin to write, or stop.
const OWN: Told = (1, 1, FILE, On::Own);

/// The second was told that another writes, that none does, and nothing.
const TRUE: Told = (2, 2, FILE, On::Others(Some(true)));

const FALSE: Told = (2, 2, FILE, On::Others(Some(false)));

const NOTHING: Told = (2, 2, FILE, On::Others(None));

/// The third may stop writing.
const THIRD: Told = (3, 3, FILE, On::Own);

const CASES: &[Case] = &[
    (&[], &[OWN, FALSE], &[], false),
    (&[], &[FALSE, OWN], &[], false),
    (&[OWN], &[FALSE], &[3], false),
    (&[FALSE], &[OWN], &[3], false),
    (&[OWN], &[NOTHING], &[3], false),
    (&[OWN], &[TRUE], &[1, 3], true),
    (&[TRUE], &[OWN], &[1, 3], true),
    (&[OWN], &[TRUE], &[1, 2], false),
    (&[TRUE], &[OWN], &[1, 2], false),
    (&[OWN, THIRD], &[TRUE], &[1, 3], false),
    (&[OWN], &[TRUE, THIRD], &[1, 3, 4], true),
    (&[TRUE, OWN], &[THIRD], &[1, 3], false),
    (&[TRUE], &[OWN, THIRD], &[1, 3], false),
    (&[OWN], &[(2, 1, FILE, On::Others(Some(false)))], &[], true),
    (&[OWN], &[(2, 2, "/2", On::Others(Some(false)))], &[], true),
    (&[OWN], &[(1, 3, FILE, On::Own)], &[], false),
];

/// Whether these rows fit beside those.
fn fit_in(
    alloc: Global,
    table: &mut ModeRows,
    selves: &Selves,
    here: &[Told],
    more: &[Told],
) -> Result<bool, Fail> {
    if !come(alloc, table, selves, here)? {
        return Err(Fail::from("the rows of a table do not fit"));
    }
    come(alloc, table, selves, more)
}

/// Whether these rows fit beside those in a new table, where these sessions write the file.
fn fit(alloc: Global, here: &[Told], more: &[Told], sessions: &[u16]) -> Result<bool, Fail> {
    let selves = writers(alloc, sessions)?;
    let mut table = ModeRows::new(alloc);
    let fits = fit_in(alloc, &mut table, &selves, here, more);
    spend((table, selves));
    fits
}

fn each_fits(rt: &impl Abort, alloc: Global, cases: &[Case]) -> Result<(), Fail> {
    for (here, more, sessions, wanted) in cases {
        same(rt, fit(alloc, here, more, sessions)?, *wanted);
    }
    Ok(())
}

#[test]
fn rows_come_where_they_fit(rt: HostRuntime) -> Result<(), Fail> {
    each_fits(&rt, rt.alloc(), CASES)
}

/// What is below the prefix goes to another server.
fn give(alloc: Global, map: &mut FileMap, prefix: &FileId) -> Result<MapPiece, Fail> {
    if map.owner(prefix).1 != 0 {
        return Err(Fail::from("it is another's"));
    }
    Ok(map.give(alloc, 0, prefix, 1)?)
}

fn given(alloc: Global, prefix: &FileId) -> Result<MapPiece, Fail> {
    let mut map = FileMap::new(alloc)?;
    let piece = give(alloc, &mut map, prefix);
    spend(map);
    piece
}

/// The prefix, whether the first and the second row go, and whether the lock on the first keeps them.
type Goes = (&'static [u8], bool, bool, bool);

const GOES: &[Goes] = &[
    (b"/", true, true, true),
    (b"/1", true, false, true),
    (b"/2", false, true, false),
    (b"/3", false, false, false),
];

/// A row on the first file, which a transaction keeps, and one on a file below the second.
const TWO: &[Told] = &[OWN, (2, 2, "/2/1", On::Others(Some(false)))];

fn two_rows(alloc: Global) -> Result<ModeRows, Fail> {
    let mut table = ModeRows::new(alloc);
    let done = come_locked(alloc, &mut table);
    kept(table, done)
}

fn come_locked(alloc: Global, table: &mut ModeRows) -> Result<(), Fail> {
    let none = List::new(alloc);
    let came = come(alloc, table, &none, TWO);
    spend(none);
    came?;
    table.lock(number(1), TXN);
    Ok(())
}

/// Whether the lock keeps what is below the prefix.
fn is_locked(alloc: Global, table: &ModeRows, prefix: &FileId) -> Result<bool, Fail> {
    let map = FileMap::new(alloc)?;
    let locked = table.locked_in(prefix, &map, 0).is_some();
    spend(map);
    Ok(locked)
}

fn is_kept(alloc: Global, prefix: &FileId) -> Result<bool, Fail> {
    let table = two_rows(alloc)?;
    let locked = is_locked(alloc, &table, prefix);
    spend(table);
    locked
}

fn is_among(rows: &List<Row>, count: u64) -> bool {
    rows.as_slice().iter().any(|row| row.no == number(count))
}

/// Whether the first and the second row are among these, which are let go.
fn among(rows: List<Row>) -> (bool, bool) {
    let are = (is_among(&rows, 1), is_among(&rows, 2));
    spend(rows);
    are
}

/// Whether they are in the table no more.
fn gone(table: &ModeRows) -> (bool, bool) {
    (
        table.row(number(1)).is_none(),
        table.row(number(2)).is_none(),
    )
}

/// Which of them are read as what would go.
fn read(alloc: Global, piece: &MapPiece) -> Result<(bool, bool), Fail> {
    let table = two_rows(alloc)?;
    let rows = table.live(0, 1).given(alloc, piece);
    spend(table);
    Ok(among(rows?))
}

/// Which of them go, and are gone then.
fn split(alloc: Global, piece: &MapPiece) -> Result<((bool, bool), (bool, bool)), Fail> {
    let mut table = two_rows(alloc)?;
    let rows = table.split(alloc, piece);
    let gone = gone(&table);
    spend(table);
    Ok((among(rows?), gone))
}

/// Which of them are dropped as what went.
fn left(alloc: Global, piece: &MapPiece) -> Result<(bool, bool), Fail> {
    let mut table = two_rows(alloc)?;
    table.leave(piece);
    let gone = gone(&table);
    spend(table);
    Ok(gone)
}

fn go_by(rt: &impl Abort, alloc: Global, piece: &MapPiece, goes: (bool, bool)) -> Result<(), Fail> {
    same(rt, read(alloc, piece)?, goes);
    same(rt, split(alloc, piece)?, (goes, goes));
    same(rt, left(alloc, piece)?, goes);
    Ok(())
}

fn go(
    rt: &impl Abort,
    alloc: Global,
    prefix: &FileId,
    goes: (bool, bool),
    locked: bool,
) -> Result<(), Fail> {
    same(rt, is_kept(alloc, prefix)?, locked);
    let piece = given(alloc, prefix)?;
    let done = go_by(rt, alloc, &piece, goes);
    spend(piece);
    done
}

fn each_goes(rt: &impl Abort, alloc: Global, cases: &[Goes]) -> Result<(), Fail> {
    for (prefix, first, second, locked) in cases {
        let prefix = FileId::parse(alloc, prefix)?;
        let done = go(rt, alloc, &prefix, (*first, *second), *locked);
        spend(prefix);
        done?;
    }
    Ok(())
}

#[test]
fn rows_go_with_their_files(rt: HostRuntime) -> Result<(), Fail> {
    each_goes(&rt, rt.alloc(), GOES)
}
