//! Rows that are read at a reading.
use crate::forms::{count, kept, same, shows, spend};
use crate::moderows::{GIVEN, Question, TRUE, WRITES, ask, number, opens, table, waits};
use fs_field::{Asked, Field, LeaseKind};
use fs_ident::{FileId, LeaseNo, List, Memory, Session};
use fs_moderows::{Live, ModeRows};
use fs_modes::{Mode, Modes};
use std::alloc::Global;
use std::process::Abort;
use std::test::Fail;

/// The row that tells the third session that the first two write.
fn told_third(alloc: Global) -> Result<ModeRows, Fail> {
    let (mut rows, both) = table(alloc, &[1, 2], WRITES)?;
    let asked = ask(alloc, &mut rows, &both, 1, 3, Question::Other, Mode::AccW);
    spend(both);
    kept(rows, asked)
}

/// The answer to the first session, of which alone it is told that it writes, and that wants to stop.
fn own_answer(alloc: Global, live: &Live<'_>, one: &List<(Session, Modes)>) -> Asked {
    let file = FileId::root(alloc);
    let own = Field::SelfW(FileId::root(alloc), Mode::AccW);
    let answer = live.answer_self(one, Session(1), &own, &file, Mode::AccW);
    spend((file, own));
    answer
}

/// The answer to the second session, which would know whether another writes.
fn other_answer(alloc: Global, live: &Live<'_>, one: &List<(Session, Modes)>) -> Asked {
    let file = FileId::root(alloc);
    let others = Field::Other(FileId::root(alloc), Mode::AccW);
    let answer = live.answer_other(one, Session(2), &others, &file, Mode::AccW);
    spend((file, others));
    answer
}

const ON: &str = "List { items: [(LeaseNo { server: 0, count: 1 }, Session(3))] }";

/// What is read of the field of the row before that is over.
fn reads_field(rt: &impl Abort, alloc: Global, live: &Live<'_>, field: &Field) -> Result<(), Fail> {
    let holds = live.holds(number(1), Session(3), field, LeaseKind::Shared);
    same(rt, holds, true);
    shows(rt, alloc, live.unlocked_on(alloc, field)?, ON)
}

/// How many numbers below the root the rows tell.
fn borne(alloc: Global, live: &Live<'_>) -> Result<usize, Memory> {
    let root = FileId::root(alloc);
    let borne = live.borne(alloc, &root);
    spend(root);
    Ok(count(borne?))
}

/// The row, as it is read before it is over.
fn reads_row(rt: &impl Abort, alloc: Global, live: &Live<'_>) -> Result<(), Fail> {
    same(rt, live.has(number(1)), true);
    same(rt, live.row(number(1)).is_some(), true);
    same(rt, borne(alloc, live)?, 0);
    let others = Field::Other(FileId::root(alloc), Mode::AccW);
    let done = reads_field(rt, alloc, live, &others);
    spend(others);
    done
}

/// What keeps the first session from losing its handles.
fn first_blocker(alloc: Global, live: &Live<'_>, one: &List<(Session, Modes)>) -> Option<LeaseNo> {
    let root = FileId::root(alloc);
    let blocker = live.may_reap(one, Session(1), &root);
    spend(root);
    blocker
}

/// What stands against a lease while the row is read, and what stands against it no more.
fn stands_against(rt: &impl Abort, alloc: Global, rows: &ModeRows, one: &List<(Session, Modes)>) {
    let live = rows.live(109, 10);
    same(rt, own_answer(alloc, &live, one), waits(1));
    same(rt, other_answer(alloc, &live, one), TRUE);
    same(rt, first_blocker(alloc, &live, one), Some(number(1)));
    let over = rows.live(110, 10);
    same(rt, own_answer(alloc, &over, one), GIVEN);
    same(rt, first_blocker(alloc, &over, one), None);
    same(rt, over.has(number(1)), false);
}

/// All that is read of the rows that tell the third session.
fn is_read(rt: &impl Abort, alloc: Global, rows: &ModeRows) -> Result<(), Fail> {
    let one = opens(alloc, &[1], WRITES)?;
    stands_against(rt, alloc, rows, &one);
    spend(one);
    reads_row(rt, alloc, &rows.live(109, 10))
}

/// What is read at a reading at which a row is over: nothing stands against a lease then, and no row is dropped.
#[test]
fn rows_are_read_at_a_reading(rt: HostRuntime) -> Result<(), Fail> {
    let rows = told_third(rt.alloc())?;
    let done = is_read(&rt, rt.alloc(), &rows);
    spend(rows);
    done
}
