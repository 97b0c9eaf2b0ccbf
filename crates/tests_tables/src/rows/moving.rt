//! Rows that go with their files, and rows that come.
ghost use Rattle.std.specs.Prelude.{◌≡◌, true, IfOk};
ghost use Rattle.fs_field.specs.Field.{tells_no_mode};
ghost use Rattle.fs_rows.specs.Moving.{are_off_modes};

use crate::forms::{kept, kept_by, same, spend};
use crate::rows::{FIRST, SECOND, THIRD, ask, one_row};
use fs_field::{Asked, Field, LeaseKind, Row};
use fs_ident::{FileId, LeaseNo, List, Session, Twin, TxnNo};
use fs_map::{FileMap, MapPiece};
use fs_rows::Rows;
use std::alloc::Global;
use std::process::Abort;
use std::test::Fail;

/// Three rows on files of which the second is below the first, each kept by a transaction.
fn locked_rows(alloc: Global) -> Result<Rows, Fail> {
    let mut rows = Rows::new(alloc);
    let done = keep_three(alloc, &mut rows);
    kept(rows, done)
}

fn keep_three(alloc: Global, rows: &mut Rows) -> Result<(), Fail> {
    keep(alloc, rows, FIRST, b"/1", 7)?;
    keep(alloc, rows, SECOND, b"/1/2", 1)?;
    keep(alloc, rows, THIRD, b"/3", 5)
}

/// The first session's question for a lease on the life of the file.
fn ask_life(alloc: Global, rows: &mut Rows, no: LeaseNo, file: &[u8]) -> Result<Asked, Fail> {
    let life = life_of(alloc, file)?;
    let asked = ask(alloc, rows, no, 1, &life, LeaseKind::Shared);
    spend(life);
    asked
}

/// A row on the life of the file, which the transaction of this count keeps.
fn keep(alloc: Global, rows: &mut Rows, no: LeaseNo, file: &[u8], count: u64) -> Result<(), Fail> {
    ask_life(alloc, rows, no, file)?;
    rows.lock(no, TxnNo { server: 0, count });
    Ok(())
}

fn life_of(alloc: Global, file: &[u8]) -> Result<Field, Fail>
    ensures { IfOk result (λ f. tells_no_mode f ≡ true) }
{
    Ok(Field::Life(FileId::parse(alloc, file)?))
}

/// The map of a server to whom all belongs but the file of the second row.
fn with_a_hole(alloc: Global) -> Result<FileMap, Fail> {
    let hole = FileId::parse(alloc, b"/1/2")?;
    let map = with_hint(alloc, &hole);
    spend(hole);
    map
}

fn with_hint(alloc: Global, hole: &FileId) -> Result<FileMap, Fail> {
    let mut map = FileMap::new(alloc)?;
    let done = map.hint(alloc, hole, 4);
    kept_by(map, done)
}

/// What the server has below the prefix goes to another.
fn give(alloc: Global, map: &mut FileMap, prefix: &FileId) -> Result<MapPiece, Fail> {
    if map.owner(prefix).1 != 0 {
        return Err(Fail::from("it is another's"));
    }
    Ok(map.give(alloc, 0, prefix, 1)?)
}

fn given(alloc: Global, prefix: &FileId) -> Result<MapPiece, Fail> {
    let mut map = with_a_hole(alloc)?;
    let piece = give(alloc, &mut map, prefix);
    spend(map);
    piece
}

/// The prefix, the least transaction that keeps a row below it that is the server's, and for each row whether it goes.
type Goes = (&'static [u8], Option<u64>, [bool; 3]);

const GOES: &[Goes] = &[
    (b"/", Some(5), [true, false, true]),
    (b"/1", Some(7), [true, false, false]),
    (b"/3", Some(5), [false, false, true]),
    (b"/2", None, [false, false, false]),
];

fn is_among(rows: &[Row], no: LeaseNo) -> bool {
    rows.iter().any(|row| row.no == no)
}

/// Whether each of the three stands among these.
fn stand(rows: &[Row]) -> [bool; 3] {
    [
        is_among(rows, FIRST),
        is_among(rows, SECOND),
        is_among(rows, THIRD),
    ]
}

/// Whether each of the three stands among the rows that went.
fn went(rows: List<Row>) -> [bool; 3] {
    let stand = stand(rows.as_slice());
    spend(rows);
    stand
}

/// The least transaction that keeps a row below the prefix, by its count.
fn least_lock(alloc: Global, prefix: &FileId) -> Result<Option<u64>, Fail> {
    let rows = locked_rows(alloc)?;
    let least = least_in(alloc, &rows, prefix);
    spend(rows);
    least
}

fn least_in(alloc: Global, rows: &Rows, prefix: &FileId) -> Result<Option<u64>, Fail> {
    let map = with_a_hole(alloc)?;
    let least = rows.locked_in(prefix, &map, 0);
    spend(map);
    match least {
        Some(txn) => Ok(Some(txn.count)),
        None => Ok(None),
    }
}

/// Which of the three are in the table no more.
fn gone(rows: &Rows) -> [bool; 3] {
    [
        rows.row(FIRST).is_none(),
        rows.row(SECOND).is_none(),
        rows.row(THIRD).is_none(),
    ]
}

/// Which of the three go, and are gone then.
fn go(alloc: Global, piece: &MapPiece) -> Result<([bool; 3], [bool; 3]), Fail> {
    let mut rows = locked_rows(alloc)?;
    let moved = rows.split(alloc, piece);
    let gone = gone(&rows);
    spend(rows);
    Ok((went(moved?), gone))
}

/// Which are gone where they are only dropped, from a copy.
fn leave(alloc: Global, piece: &MapPiece) -> Result<[bool; 3], Fail> {
    let rows = locked_rows(alloc)?;
    let twin = rows.copy(alloc);
    spend(rows);
    let mut rows = twin?;
    rows.leave(piece);
    let gone = gone(&rows);
    spend(rows);
    Ok(gone)
}

/// What goes with the piece, of the rows that are told of and of those that are dropped.
fn goes_by(rt: &impl Abort, alloc: Global, piece: &MapPiece, goes: [bool; 3]) -> Result<(), Fail> {
    same(rt, go(alloc, piece)?, (goes, goes));
    same(rt, leave(alloc, piece)?, goes);
    Ok(())
}

fn goes(
    rt: &impl Abort,
    alloc: Global,
    prefix: &FileId,
    least: Option<u64>,
    goes: [bool; 3],
) -> Result<(), Fail> {
    same(rt, least_lock(alloc, prefix)?, least);
    let piece = given(alloc, prefix)?;
    let done = goes_by(rt, alloc, &piece, goes);
    spend(piece);
    done
}

fn each_goes(rt: &impl Abort, alloc: Global, cases: &[Goes]) -> Result<(), Fail> {
    for (prefix, least, wanted) in cases {
        let prefix = FileId::parse(alloc, prefix)?;
        let done = goes(rt, alloc, &prefix, *least, *wanted);
        spend(prefix);
        done?;
    }
    Ok(())
}

#[test]
fn rows_go_with_their_files(rt: HostRuntime) -> Result<(), Fail> {
    each_goes(&rt, rt.alloc(), GOES)
}

/// The number, session, file and kind of a row that comes after one of the second session, exclusive on the fourth
/// file, with the third number: whether their numbers are new, and whether they fit.
type Comes = (LeaseNo, u16, &'static [u8], LeaseKind, bool, bool);

const COMES: &[Comes] = &[
    (SECOND, 1, b"/3", LeaseKind::Exclusive, true, true),
    (SECOND, 2, b"/3", LeaseKind::Shared, true, false),
    (SECOND, 2, b"/5", LeaseKind::Exclusive, true, true),
    (SECOND, 2, b"/4", LeaseKind::Exclusive, true, true),
    (SECOND, 1, b"/4", LeaseKind::Shared, true, false),
    (FIRST, 1, b"/5", LeaseKind::Shared, false, false),
    (THIRD, 1, b"/5", LeaseKind::Shared, false, false),
];

fn coming(
    alloc: Global,
    no: LeaseNo,
    session: u16,
    file: &[u8],
    kind: LeaseKind,
) -> Result<Row, Fail>
    ensures { IfOk result (λ row. tells_no_mode row.field ≡ true) }
{
    Ok(Row {
        no,
        session: Session(session),
        field: life_of(alloc, file)?,
        kind,
        until: 100,
        promise: None,
        lock: None,
    })
}

/// The rows are told of as new, and go beside those here where they fit. Whether they are new, and whether they came.
fn come_to(alloc: Global, rows: &mut Rows, more: List<Row>) -> Result<(bool, bool), Fail>
    requires { are_off_modes more ≡ true }
{
    let new = rows.live(0, 0).are_new(&more);
    if !rows.fits(&more) {
        spend(more);
        return Ok((new, false));
    }
    rows.join(alloc, more)?;
    Ok((new, rows.row(THIRD).is_some()))
}

/// Whether the numbers of these rows are new beside an exclusive one on the third file, and whether they fit there.
fn come(alloc: Global, case: &Comes) -> Result<(bool, bool), Fail> {
    let (no, session, file, kind, _, _) = case;
    let mut rows = one_row(alloc, LeaseKind::Exclusive, 100)?;
    let came = two_come(alloc, &mut rows, *no, *session, file, *kind);
    spend(rows);
    came
}

fn two_come(
    alloc: Global,
    rows: &mut Rows,
    no: LeaseNo,
    session: u16,
    file: &[u8],
    kind: LeaseKind,
) -> Result<(bool, bool), Fail> {
    let more = two_more(alloc, no, session, file, kind)?;
    come_to(alloc, rows, more)
}

/// A row on the fourth file, and this one.
fn two_more(
    alloc: Global,
    no: LeaseNo,
    session: u16,
    file: &[u8],
    kind: LeaseKind,
) -> Result<List<Row>, Fail>
    ensures { IfOk result (λ rows. are_off_modes rows ≡ true) }
{
    let mut more = List::new(alloc);
    more.push(coming(alloc, THIRD, 2, b"/4", LeaseKind::Exclusive)?)?;
    more.push(coming(alloc, no, session, file, kind)?)?;
    Ok(more)
}

fn each_comes(rt: &impl Abort, alloc: Global, cases: &[Comes]) -> Result<(), Fail> {
    for case in cases {
        same(rt, come(alloc, case)?, (case.4, case.5));
    }
    Ok(())
}

#[test]
fn rows_come_where_they_fit(rt: HostRuntime) -> Result<(), Fail> {
    each_comes(&rt, rt.alloc(), COMES)
}
