//! How questions on modes are answered, and each call.
ghost use Rattle.std.specs.Prelude.{[], IfOk};
ghost use Rattle.fs_rows.specs.Granted.{with_rows};
ghost use Rattle.fs_rows.specs.Table.{IsTable};
ghost use Rattle.fs_moderows.specs.Table.{IsModeTable};

mod moving;
mod reading;
mod small_tables;

use crate::forms::{kept_by, one, same, shows, spend, with};
use fs_field::{Asked, Field, LeaseKind, Row, Unknown};
use fs_ident::{FileId, LeaseNo, List, Memory, Session, Twin, TxnNo};
use fs_moderows::{
    ModeRows, asking_for_other_is_safe, asking_for_self_is_safe, changes_by_rows_are_safe,
    kept_promises_are_without_conflict, moved_rows_are_safe, promises_are_what_others_have,
    promises_stay_kept, reaps_are_safe, rows_stay_without_conflict,
};
use fs_modes::{Mode, Modes};
use fs_rows::Rows;
use std::alloc::Global;
use std::process::Abort;
use std::test::Fail;

pub(crate) const TXN: TxnNo = TxnNo {
    server: 0,
    count: 7,
};

pub(crate) const WRITES: Modes = Modes {
    acc_r: false,
    acc_w: true,
    acc_d: false,
    deny_r: false,
    deny_w: false,
    deny_d: false,
};

const READS_AND_WRITES: Modes = Modes {
    acc_r: true,
    acc_w: true,
    acc_d: false,
    deny_r: false,
    deny_w: false,
    deny_d: false,
};

const TRUE: Asked = Asked::Granted { value: Some(true) };

const FALSE: Asked = Asked::Granted { value: Some(false) };

const GIVEN: Asked = Asked::Granted { value: None };

const LOCKED: Asked = Asked::Locked { txn: TXN };

fn number(count: u64) -> LeaseNo {
    LeaseNo { server: 0, count }
}

fn waits(count: u64) -> Asked {
    Asked::Wait {
        blocker: number(count),
    }
}

/// What a session would know or change.
#[derive(Clone, Copy)]
enum Question {
    SelfW,
    Other,
}

/// The question of a session about one mode of the root, and the number of its lease.
fn ask(
    alloc: Global,
    rows: &mut ModeRows,
    selves: &List<(Session, Modes)>,
    count: u64,
    session: u16,
    question: Question,
    m: Mode,
) -> Result<Asked, Fail> {
    let no = number(count);
    if rows.all().has(no) {
        return Err(Fail::from("the number is taken"));
    }
    let file = FileId::root(alloc);
    let asker = Session(session);
    let asked = match question {
        Question::SelfW => rows.ask_self(alloc, selves, no, asker, &file, m, 100),
        Question::Other => rows.ask_other(alloc, selves, no, asker, &file, m, 100),
    };
    spend(file);
    Ok(asked?)
}

/// A question about writing: the number of the lease, the session, and what it would know or change.
type Asking = (u64, u16, Question);

/// The question is answered so.
fn asks(
    rt: &impl Abort,
    alloc: Global,
    rows: &mut ModeRows,
    selves: &List<(Session, Modes)>,
    (count, session, question): Asking,
    wanted: Asked,
) -> Result<(), Fail> {
    let asked = ask(alloc, rows, selves, count, session, question, Mode::AccW)?;
    same(rt, asked, wanted);
    Ok(())
}

/// What keeps the session from losing its handles on the root.
fn blocker(
    alloc: Global,
    rows: &ModeRows,
    selves: &List<(Session, Modes)>,
    session: u16,
) -> Option<LeaseNo> {
    let root = FileId::root(alloc);
    let blocker = rows.may_reap(selves, Session(session), &root);
    spend(root);
    blocker
}

/// These modes of each of the sessions.
fn opens(alloc: Global, sessions: &[u16], modes: Modes) -> Result<List<(Session, Modes)>, Fail> {
    let mut told = List::new(alloc);
    let done = open_each(&mut told, sessions, modes);
    kept_by(told, done)
}

fn open_each(
    told: &mut List<(Session, Modes)>,
    sessions: &[u16],
    modes: Modes,
) -> Result<(), Memory> {
    for s in sessions {
        told.push((Session(*s), modes))?;
    }
    Ok(())
}

/// A new table, and these modes of each of the sessions.
type Table = (ModeRows, List<(Session, Modes)>);

fn table(alloc: Global, sessions: &[u16], modes: Modes) -> Result<Table, Fail> {
    let selves = opens(alloc, sessions, modes)?;
    Ok((ModeRows::new(alloc), selves))
}

/// The first two have the mode.
fn both_write(
    rt: &impl Abort,
    alloc: Global,
    rows: &mut ModeRows,
    both: &List<(Session, Modes)>,
) -> Result<(), Fail> {
    asks(rt, alloc, rows, both, (1, 3, Question::Other), TRUE)?;
    asks(rt, alloc, rows, both, (2, 1, Question::SelfW), GIVEN)?;
    asks(rt, alloc, rows, both, (3, 2, Question::SelfW), waits(1))?;
    same(rt, blocker(alloc, rows, both, 2), Some(number(1)));
    same(rt, rows.release(number(1)), true);
    same(rt, blocker(alloc, rows, both, 2), None);
    asks(rt, alloc, rows, both, (3, 2, Question::SelfW), GIVEN)
}

/// Each of the two may be gone as long as the other stays.
#[test]
fn one_who_stays_keeps_a_promise(rt: HostRuntime) -> Result<(), Fail> {
    let (mut rows, both) = table(rt.alloc(), &[1, 2], WRITES)?;
    let done = both_write(&rt, rt.alloc(), &mut rows, &both);
    spend((rows, both));
    done
}

/// A row of the first session, alone.
fn own_row(alloc: Global) -> Result<List<Row>, Fail>
    ensures { IfOk result (λ rows. IsModeTable (with_rows rows [])) }
{
    let row = Row {
        no: number(1),
        session: Session(1),
        field: Field::SelfW(FileId::root(alloc), Mode::AccW),
        kind: LeaseKind::Exclusive,
        until: 300,
        promise: None,
        lock: None,
    };
    Ok(one(alloc, row)?)
}

/// A row of the first session on the root's life, alone, for the table of rows on no mode.
fn life_row(alloc: Global) -> Result<List<Row>, Fail>
    ensures { IfOk result (λ rows. IsTable (with_rows rows [])) }
{
    let row = Row {
        no: number(2),
        session: Session(1),
        field: Field::Life(FileId::root(alloc)),
        kind: LeaseKind::Shared,
        until: 300,
        promise: None,
        lock: None,
    };
    Ok(one(alloc, row)?)
}

/// Whether each of these rows is in its table once they are granted.
fn grants(alloc: Global, own: List<Row>, life: List<Row>) -> Result<(bool, bool), Fail>
    requires on { IsModeTable (with_rows own []) }
    requires off { IsTable (with_rows life []) }
{
    let mut on = ModeRows::new(alloc);
    let mut off = Rows::new(alloc);
    let done = on.grant_all(alloc, 110, 10, own, &mut off, life);
    let are = (on.row(number(1)).is_some(), off.row(number(2)).is_some());
    spend((on, off));
    kept_by(are, done)
}

fn grants_both(alloc: Global) -> Result<(bool, bool), Fail> {
    let own = own_row(alloc)?;
    let life = life_row(alloc)?;
    grants(alloc, own, life)
}

#[test]
fn rows_are_granted_in_both_tables(rt: HostRuntime) -> Result<(), Fail> {
    same(&rt, grants_both(rt.alloc())?, (true, true));
    Ok(())
}

/// No one has the mode.
fn none_writes(
    rt: &impl Abort,
    alloc: Global,
    rows: &mut ModeRows,
    none: &List<(Session, Modes)>,
) -> Result<(), Fail> {
    asks(rt, alloc, rows, none, (1, 1, Question::Other), FALSE)?;
    asks(rt, alloc, rows, none, (2, 2, Question::SelfW), waits(1))?;
    asks(rt, alloc, rows, none, (2, 1, Question::SelfW), GIVEN)?;
    asks(rt, alloc, rows, none, (3, 2, Question::Other), waits(2))?;
    let denies = ask(alloc, rows, none, 3, 2, Question::SelfW, Mode::DenyW)?;
    same(rt, denies, GIVEN);
    Ok(())
}

/// Another waits to turn the mode on, and on another mode none waits.
#[test]
fn that_none_has_a_mode_is_kept(rt: HostRuntime) -> Result<(), Fail> {
    let (mut rows, none) = table(rt.alloc(), &[], WRITES)?;
    let done = none_writes(&rt, rt.alloc(), &mut rows, &none);
    spend((rows, none));
    done
}

/// What keeps the first session from losing its handles on the root's first child.
fn blocker_below(
    alloc: Global,
    rows: &ModeRows,
    first: &List<(Session, Modes)>,
) -> Result<Option<LeaseNo>, Fail> {
    let child = FileId::root(alloc).child(alloc, 1)?;
    let blocker = rows.may_reap(first, Session(1), &child);
    spend(child);
    Ok(blocker)
}

fn two_modes(
    rt: &impl Abort,
    alloc: Global,
    rows: &mut ModeRows,
    first: &List<(Session, Modes)>,
) -> Result<(), Fail> {
    let reads = ask(alloc, rows, first, 3, 2, Question::Other, Mode::AccR)?;
    let writes = ask(alloc, rows, first, 2, 2, Question::Other, Mode::AccW)?;
    same(rt, (reads, writes), (TRUE, TRUE));
    same(rt, blocker(alloc, rows, first, 1), Some(number(2)));
    same(rt, blocker(alloc, rows, first, 2), None);
    same(rt, blocker_below(alloc, rows, first)?, None);
    Ok(())
}

/// The least of the rows of two modes, whatever the order of the modes is.
#[test]
fn a_reap_waits_for_the_least_of_all_modes(rt: HostRuntime) -> Result<(), Fail> {
    let (mut rows, first) = table(rt.alloc(), &[1], READS_AND_WRITES)?;
    let done = two_modes(&rt, rt.alloc(), &mut rows, &first);
    spend((rows, first));
    done
}

const ROW: &str = "ModeRows { rows: List { items: [Row { no: LeaseNo { server: 0, count: 1 }, \
    session: Session(1), field: SelfW(FileId { numbers: [] }, AccW), kind: Exclusive, until: 200, \
    promise: None, lock: Some(TxnNo { server: 0, count: 7 }) }] }, index: FileIndex { files: {FileId \
    { numbers: [] }: List { items: [LeaseNo { server: 0, count: 1 }] }}, whole: true }, least: 100, \
    locked: true }";

/// A row that a transaction keeps.
fn keeps(rt: &impl Abort, rows: &mut ModeRows) {
    same(rt, rows.renew(number(1), 200), Ok(()));
    let unknown = Unknown { no: number(2) };
    same(rt, rows.renew(number(2), 200), Err(unknown));
    same(rt, rows.lock(number(1), TXN), true);
    same(rt, rows.lock(number(1), TXN), false);
}

/// Others wait for it, and it is in a copy.
fn is_kept(
    rt: &impl Abort,
    alloc: Global,
    rows: &mut ModeRows,
    none: &List<(Session, Modes)>,
) -> Result<(), Fail> {
    asks(rt, alloc, rows, none, (1, 1, Question::SelfW), GIVEN)?;
    keeps(rt, rows);
    asks(rt, alloc, rows, none, (2, 2, Question::SelfW), LOCKED)?;
    asks(rt, alloc, rows, none, (2, 2, Question::Other), waits(1))?;
    shows(rt, alloc, rows.copy(alloc)?, ROW)
}

/// It lapses only once it is kept no more.
fn lapses(rt: &impl Abort, rows: &mut ModeRows) {
    rows.lapse(u64::MAX, 0);
    same(rt, rows.row(number(1)).is_some(), true);
    rows.unlock(TXN);
    rows.lapse(209, 10);
    same(rt, rows.release(number(1)), true);
}

fn goes_by(
    rt: &impl Abort,
    alloc: Global,
    rows: &mut ModeRows,
    none: &List<(Session, Modes)>,
) -> Result<(), Fail> {
    is_kept(rt, alloc, rows, none)?;
    lapses(rt, rows);
    Ok(())
}

#[test]
fn a_row_from_its_grant_to_its_release(rt: HostRuntime) -> Result<(), Fail> {
    let (mut rows, none) = table(rt.alloc(), &[], WRITES)?;
    let done = goes_by(&rt, rt.alloc(), &mut rows, &none);
    spend((rows, none));
    done
}

/// The rows with one of the first session on the third file, on what others deny.
fn third_file(alloc: Global, file: &FileId) -> Result<ModeRows, Fail> {
    let none = List::new(alloc);
    let mut rows = ModeRows::new(alloc);
    let asked = rows.ask_other(alloc, &none, number(1), Session(1), file, Mode::DenyR, 100);
    spend(none);
    kept_by(rows, asked)
}

fn tell(rt: &impl Abort, alloc: Global, rows: &ModeRows, field: &Field) -> Result<(), Fail> {
    let by = Session(1);
    let shared = rows.holds(number(1), by, field, LeaseKind::Shared);
    let exclusive = rows.holds(number(1), by, field, LeaseKind::Exclusive);
    same(rt, (shared, exclusive), (true, false));
    shows(rt, alloc, rows.on(alloc, field)?, FIRST_ON)?;
    shows(rt, alloc, all_borne(alloc, rows)?, "List { items: [3] }")
}

const FIRST_ON: &str = "List { items: [(LeaseNo { server: 0, count: 1 }, Session(1))] }";

/// The numbers below the root that the rows tell.
fn all_borne(alloc: Global, rows: &ModeRows) -> Result<List<u32>, Memory> {
    let root = FileId::root(alloc);
    let borne = rows.borne(alloc, &root);
    spend(root);
    borne
}

/// What the rows with one on the file tell.
fn tell_of(rt: &impl Abort, alloc: Global, file: &FileId, field: &Field) -> Result<(), Fail> {
    let rows = third_file(alloc, file)?;
    let done = tell(rt, alloc, &rows, field);
    spend(rows);
    done
}

fn copy_of(alloc: Global, file: &FileId) -> Result<FileId, Fail> {
    Ok(file.copy(alloc)?)
}

/// The third file, and what others deny of it.
fn third_field(alloc: Global) -> Result<(FileId, Field), Fail> {
    let file = FileId::root(alloc).child(alloc, 3)?;
    let twin = copy_of(alloc, &file);
    let (file, twin) = with(file, twin)?;
    Ok((file, Field::Other(twin, Mode::DenyR)))
}

/// What the rows tell of fields and files.
#[test]
fn rows_tell_whole_answers(rt: HostRuntime) -> Result<(), Fail> {
    let (file, field) = third_field(rt.alloc())?;
    let done = tell_of(&rt, rt.alloc(), &file, &field);
    spend((file, field));
    done
}

#[test]
fn laws() {
    asking_for_self_is_safe();
    asking_for_other_is_safe();
    rows_stay_without_conflict();
    promises_stay_kept();
    reaps_are_safe();
    changes_by_rows_are_safe();
    kept_promises_are_without_conflict();
    promises_are_what_others_have();
    moved_rows_are_safe();
}
