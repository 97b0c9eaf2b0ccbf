//! How rows lapse and move, each call, and which leases go together.
ghost use Rattle.std.specs.Prelude.{◌≡◌, ◌<◌, [], true, IfOk};
ghost use Rattle.std.specs.List.{filter};
ghost use Rattle.fs_field.specs.Field.{tells_no_mode};
ghost use Rattle.fs_field.specs.Table.{is_live};
ghost use Rattle.fs_rows.specs.Granted.{with_rows};
ghost use Rattle.fs_rows.specs.Table.{IsTable};

mod many;
mod moving;

use crate::forms::{kept_by, same, shows, spend};
use fs_field::{Asked, Field, LeaseKind, Row, Unknown};
use fs_ident::{FileId, LeaseNo, List, Name, Session, Twin, TxnNo};
use fs_rows::{Live, Rows};
use std::alloc::Global;
use std::process::Abort;
use std::test::Fail;

const FIRST: LeaseNo = LeaseNo {
    server: 0,
    count: 1,
};

const SECOND: LeaseNo = LeaseNo {
    server: 0,
    count: 2,
};

const THIRD: LeaseNo = LeaseNo {
    server: 0,
    count: 3,
};

const TXN: TxnNo = TxnNo {
    server: 0,
    count: 7,
};

/// The session's question for a lease until 100, if the number is new and the field tells no mode.
fn ask(
    alloc: Global,
    rows: &mut Rows,
    no: LeaseNo,
    session: u16,
    field: &Field,
    kind: LeaseKind,
) -> Result<Asked, Fail> {
    if rows.all().has(no) || !field.tells_no_mode() {
        return Err(Fail::from("no such lease"));
    }
    Ok(rows.ask(alloc, no, Session(session), field, kind, 100)?)
}

/// The rows with one of the first session on the third file below the root, and the field that it is on.
fn row_and_field(alloc: Global, kind: LeaseKind, until: u64) -> Result<(Rows, Field), Fail> {
    let field = life(alloc)?;
    let mut rows = Rows::new(alloc);
    let asked = rows.ask(alloc, FIRST, Session(1), &field, kind, until);
    kept_by((rows, field), asked)
}

/// These rows alone.
fn one_row(alloc: Global, kind: LeaseKind, until: u64) -> Result<Rows, Fail> {
    let (rows, field) = row_and_field(alloc, kind, until)?;
    spend(field);
    Ok(rows)
}

fn life(alloc: Global) -> Result<Field, Fail>
    ensures { IfOk result (λ f. tells_no_mode f ≡ true) }
{
    Ok(Field::Life(FileId::root(alloc).child(alloc, 3)?))
}

/// The end, whether a transaction keeps the row, the reading, the skew, and whether the row is left then.
type Lapse = (u64, bool, u64, u64, bool);

const LAPSES: &[Lapse] = &[
    (100, false, 109, 10, true),
    (100, false, 110, 10, false),
    (100, true, 110, 10, true),
    (u64::MAX, false, u64::MAX, 1, true),
    (u64::MAX, false, u64::MAX, u64::MAX, true),
    (u64::MAX, false, 0, u64::MAX, true),
    (u64::MAX, false, u64::MAX, 0, false),
];

/// Whether the first row is left, which a transaction may keep.
fn lapses(rows: &mut Rows, keeps: bool, now: u64, skew: u64) -> bool {
    if keeps {
        rows.lock(FIRST, TXN);
    }
    rows.lapse(now, skew);
    rows.row(FIRST).is_some()
}

fn is_left(alloc: Global, until: u64, keeps: bool, now: u64, skew: u64) -> Result<bool, Fail> {
    let mut rows = one_row(alloc, LeaseKind::Shared, until)?;
    let left = lapses(&mut rows, keeps, now, skew);
    spend(rows);
    Ok(left)
}

fn lapse_each(rt: &impl Abort, alloc: Global, lapses: &[Lapse]) -> Result<(), Fail> {
    for (until, keeps, now, skew, left) in lapses {
        same(rt, is_left(alloc, *until, *keeps, *now, *skew)?, *left);
    }
    Ok(())
}

#[test]
fn rows_lapse_at_their_end_and_the_skew(rt: HostRuntime) -> Result<(), Fail> {
    lapse_each(&rt, rt.alloc(), LAPSES)
}

const ROW: &str = "Rows { rows: List { items: [Row { no: LeaseNo { server: 0, count: 1 }, session: \
    Session(1), field: Life(FileId { numbers: [3] }), kind: Exclusive, until: 200, promise: \
    None, lock: None }] }, index: FieldIndex { files: {FileId { numbers: [3] }: OnFile { life: \
    List { items: [LeaseNo { server: 0, count: 1 }] }, names: List { items: [] }, info: List { \
    items: [] }, own: List { items: [] }, children: {} }}, whole: true }, least: 0, locked: false }";

/// Each call that needs no memory but the last.
fn changes(rt: &impl Abort, rows: &mut Rows) {
    same(rt, rows.renew(FIRST, 200), Ok(()));
    same(rt, rows.renew(FIRST, 150), Ok(()));
    same(rt, rows.renew(SECOND, 150), Err(Unknown { no: SECOND }));
    same(rt, rows.lock(FIRST, TXN), true);
    same(rt, rows.lock(FIRST, TXN), false);
    rows.unlock(TXN);
}

/// The row is changed, copied and released; the copy has it.
fn goes_by(rt: &impl Abort, alloc: Global, rows: &mut Rows) -> Result<(), Fail> {
    changes(rt, rows);
    let twin = rows.copy(alloc)?;
    same(rt, rows.release(FIRST), true);
    same(rt, rows.release(FIRST), false);
    shows(rt, alloc, twin, ROW)
}

#[test]
fn a_row_from_its_grant_to_its_release(rt: HostRuntime) -> Result<(), Fail> {
    let mut rows = one_row(rt.alloc(), LeaseKind::Exclusive, 100)?;
    let done = goes_by(&rt, rt.alloc(), &mut rows);
    spend(rows);
    done
}

const ON: &str = "List { items: [(LeaseNo { server: 0, count: 1 }, Session(1))] }";

const BORNE: &str = "List { items: [3] }";

/// What the rows tell of fields and files.
fn tell(rt: &impl Abort, alloc: Global, rows: &Rows, field: &Field) -> Result<(), Fail> {
    let exclusive = rows.holds(FIRST, Session(1), field, LeaseKind::Exclusive);
    let shared = rows.holds(FIRST, Session(1), field, LeaseKind::Shared);
    same(rt, (exclusive, shared), (true, false));
    shows(rt, alloc, rows.on(alloc, field)?, ON)?;
    shows(rt, alloc, rows.borne(alloc, &FileId::root(alloc))?, BORNE)
}

/// What is read at the last reading before the row is over.
fn reads_one(rt: &impl Abort, alloc: Global, live: &Live<'_>, field: &Field) -> Result<(), Fail> {
    let asked = live.answer(Session(2), field, LeaseKind::Shared);
    same(rt, asked, Asked::Wait { blocker: FIRST });
    let holds = live.holds(FIRST, Session(1), field, LeaseKind::Exclusive);
    same(rt, (live.has(FIRST), holds), (true, true));
    shows(rt, alloc, live.unlocked_on(alloc, field)?, ON)?;
    shows(rt, alloc, live.borne(alloc, &FileId::root(alloc))?, BORNE)
}

/// What is read then: nothing stands against a lease.
fn reads_none(rt: &impl Abort, over: &Live<'_>, field: &Field) {
    let asked = over.answer(Session(2), field, LeaseKind::Shared);
    same(rt, asked, Asked::Granted { value: None });
    same(rt, over.row(FIRST).is_none(), true);
}

/// No row is dropped.
fn read_at(rt: &impl Abort, alloc: Global, rows: &Rows, field: &Field) -> Result<(), Fail> {
    reads_none(rt, &rows.live(110, 10), field);
    reads_one(rt, alloc, &rows.live(109, 10), field)
}

#[test]
fn rows_tell_whole_answers(rt: HostRuntime) -> Result<(), Fail> {
    let (rows, field) = row_and_field(rt.alloc(), LeaseKind::Exclusive, 100)?;
    let done = tell(&rt, rt.alloc(), &rows, &field);
    spend((rows, field));
    done
}

#[test]
fn rows_are_read_at_a_reading(rt: HostRuntime) -> Result<(), Fail> {
    let (rows, field) = row_and_field(rt.alloc(), LeaseKind::Exclusive, 100)?;
    let done = read_at(&rt, rt.alloc(), &rows, &field);
    spend((rows, field));
    done
}

/// A row of the first session, alone, which is over at 110 where clocks differ by 10.
fn first_row(alloc: Global) -> Result<List<Row>, Fail>
    ensures table { IfOk result (λ rows. IsTable (with_rows rows [])) }
    ensures over { IfOk result (λ rows. filter (is_live 110 10) (with_rows rows []) ≡ []) }
{
    let field = life(alloc)?;
    let mut rows = List::new(alloc);
    rows.push(Row {
        no: FIRST,
        session: Session(1),
        field,
        kind: LeaseKind::Shared,
        until: 100,
        promise: None,
        lock: None,
    })?;
    Ok(rows)
}

/// A row of the second session, alone.
fn second_row(alloc: Global) -> Result<List<Row>, Fail>
    ensures { IfOk result (λ rows. IsTable (with_rows rows [])) }
{
    let field = life(alloc)?;
    let mut rows = List::new(alloc);
    rows.push(Row {
        no: SECOND,
        session: Session(2),
        field,
        kind: LeaseKind::Shared,
        until: 300,
        promise: None,
        lock: None,
    })?;
    Ok(rows)
}

/// The table with the first row alone.
fn with_first(alloc: Global) -> Result<Rows, Fail>
    ensures { IfOk result (λ rows. filter (is_live 110 10) rows ≡ []) }
{
    let first = first_row(alloc)?;
    let mut rows = Rows::new(alloc);
    rows.grant_all(alloc, 0, 10, first)?;
    Ok(rows)
}

/// The rows that are there before the second is granted and behind it, of the first and the second.
fn grants_second(alloc: Global) -> Result<[bool; 4], Fail> {
    let more = second_row(alloc)?;
    let mut rows = with_first(alloc)?;
    let before = (rows.row(FIRST).is_some(), rows.row(SECOND).is_some());
    let done = rows.grant_all(alloc, 110, 10, more);
    let behind = (rows.row(FIRST).is_some(), rows.row(SECOND).is_some());
    spend(rows);
    kept_by([before.0, before.1, behind.0, behind.1], done)
}

/// What is over goes as another comes.
#[test]
fn rows_are_granted_at_once(rt: HostRuntime) -> Result<(), Fail> {
    let wanted = [true, false, false, true];
    same(&rt, grants_second(rt.alloc())?, wanted);
    Ok(())
}

/// A lease that is asked for, and the answer: a transaction's row goes before one that conflicts, and of these the least
/// comes first.
fn stand_against(
    rt: &impl Abort,
    alloc: Global,
    rows: &mut Rows,
    field: &Field,
) -> Result<(), Fail> {
    ask(alloc, rows, SECOND, 2, field, LeaseKind::Shared)?;
    ask(alloc, rows, FIRST, 1, field, LeaseKind::Shared)?;
    let asked = ask(alloc, rows, THIRD, 3, field, LeaseKind::Exclusive)?;
    same(rt, asked, Asked::Wait { blocker: FIRST });
    same(rt, rows.lock(SECOND, TXN), true);
    let asked = ask(alloc, rows, THIRD, 3, field, LeaseKind::Shared)?;
    same(rt, asked, Asked::Locked { txn: TXN });
    Ok(())
}

fn who_stands(rt: &impl Abort, alloc: Global, field: &Field) -> Result<(), Fail> {
    let mut rows = Rows::new(alloc);
    let done = stand_against(rt, alloc, &mut rows, field);
    spend(rows);
    done
}

#[test]
fn who_stands_against_a_lease(rt: HostRuntime) -> Result<(), Fail> {
    let field = life(rt.alloc())?;
    let done = who_stands(&rt, rt.alloc(), &field);
    spend(field);
    done
}

/// For each held field a line, and on it for each asked one a letter: `e` where a lease waits if either of the two
/// is exclusive, `h` if the held one is, `a` if the asked one is, and `.` where none waits.
const PAIRS: &[&[u8]] = &[
    b"e.......",
    b".e.h....",
    b"..eh....",
    b".aae....",
    b"....e...",
    b"........",
    b"......ea",
    b"......he",
];

/// The fields of the lines: six of the root, and two of a file below it.
fn field(alloc: Global, line: usize) -> Result<Field, Fail> {
    if line < 6 {
        return field_of(alloc, FileId::root(alloc), line);
    }
    let file = FileId::root(alloc).child(alloc, 1)?;
    if line == 6 {
        return Ok(Field::Names(file));
    }
    child_of(alloc, file, b"a")
}

fn field_of(alloc: Global, root: FileId, line: usize) -> Result<Field, Fail> {
    match line {
        0 => Ok(Field::Life(root)),
        1 => child_of(alloc, root, b"a"),
        2 => child_of(alloc, root, b"b"),
        3 => Ok(Field::Names(root)),
        4 => Ok(Field::Info(root)),
        _ => Ok(Field::Own(root)),
    }
}

fn child_of(alloc: Global, dir: FileId, name: &[u8]) -> Result<Field, Fail> {
    let name = Name::new(alloc, name);
    Ok(Field::Child(dir, name?))
}

fn waits_by(letter: u8, held: LeaseKind, asked: LeaseKind) -> bool {
    match letter {
        b'e' => held == LeaseKind::Exclusive || asked == LeaseKind::Exclusive,
        b'h' => held == LeaseKind::Exclusive,
        b'a' => asked == LeaseKind::Exclusive,
        _ => false,
    }
}

/// The session's question for a lease on the field of the line.
fn ask_line(
    alloc: Global,
    rows: &mut Rows,
    no: LeaseNo,
    session: u16,
    (line, kind): (usize, LeaseKind),
) -> Result<Asked, Fail> {
    let field = field(alloc, line)?;
    let asked = ask(alloc, rows, no, session, &field, kind);
    spend(field);
    asked
}

/// Two questions, one after the other: that of the first session, and that of this one.
fn ask_both(
    alloc: Global,
    rows: &mut Rows,
    session: u16,
    held: (usize, LeaseKind),
    asked: (usize, LeaseKind),
) -> Result<Asked, Fail> {
    ask_line(alloc, rows, FIRST, 1, held)?;
    ask_line(alloc, rows, SECOND, session, asked)
}

/// Whether the session waits for a lease where the first session has one.
fn waits(
    alloc: Global,
    session: u16,
    held: (usize, LeaseKind),
    asked: (usize, LeaseKind),
) -> Result<bool, Fail> {
    let mut rows = Rows::new(alloc);
    let asked = ask_both(alloc, &mut rows, session, held, asked);
    spend(rows);
    Ok(asked? == Asked::Wait { blocker: FIRST })
}

const KINDS: &[(LeaseKind, LeaseKind)] = &[
    (LeaseKind::Shared, LeaseKind::Shared),
    (LeaseKind::Shared, LeaseKind::Exclusive),
    (LeaseKind::Exclusive, LeaseKind::Shared),
    (LeaseKind::Exclusive, LeaseKind::Exclusive),
];

/// A held field and an asked one, of both kinds, of two sessions and of one.
fn go_together(
    rt: &impl Abort,
    alloc: Global,
    held: usize,
    asked: usize,
    letter: u8,
    kinds: &[(LeaseKind, LeaseKind)],
) -> Result<(), Fail> {
    for (k, l) in kinds {
        let of_two = waits(alloc, 2, (held, *k), (asked, *l))?;
        let of_one = waits(alloc, 1, (held, *k), (asked, *l))?;
        same(rt, (of_two, of_one), (waits_by(letter, *k, *l), false));
    }
    Ok(())
}

/// A held field, and each asked one.
fn goes_with(rt: &impl Abort, alloc: Global, held: usize, letters: &[u8]) -> Result<(), Fail> {
    let mut asked = 0usize;
    for letter in letters {
        go_together(rt, alloc, held, asked, *letter, KINDS)?;
        asked = asked.wrapping_add(1);
    }
    same(rt, asked, 8);
    Ok(())
}

fn go_with(rt: &impl Abort, alloc: Global, lines: &[&[u8]]) -> Result<(), Fail> {
    let mut held = 0usize;
    for letters in lines {
        goes_with(rt, alloc, held, letters)?;
        held = held.wrapping_add(1);
    }
    same(rt, held, 8);
    Ok(())
}

#[test]
fn leases_that_go_together(rt: HostRuntime) -> Result<(), Fail> {
    go_with(&rt, rt.alloc(), PAIRS)
}
