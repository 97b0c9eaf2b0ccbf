//! What is read of the rows that are not over at a reading.
ghost use Rattle.std.specs.Prelude.{◌≡◌, ◌==◌, ◌&&◌, ℕ, true, IfOk};
ghost use Rattle.std.specs.List.{filter, find, list_any};
ghost use Rattle.std.specs.Option.{option_copied};
ghost use Rattle.fs_field.specs.Conflict.{stands_against};
ghost use Rattle.fs_field.specs.Field.{same_field};
ghost use Rattle.fs_field.specs.declared.row.Row.{Row as TheRow};
ghost use Rattle.fs_field.specs.Table.{has_no, is_lease, is_live, is_ordered, lock_on, child_number, borne_numbers};
ghost use Rattle.fs_rows.specs.Answer.{answer};
ghost use Rattle.fs_rows.specs.Bearing.{AreInOrderOnce};
ghost use Rattle.fs_rows.specs.Index.{IsIndexOf, IsSeen};
ghost use Rattle.fs_rows.specs.Live.{unlocked_on};
ghost use Rattle.fs_rows.specs.Sought.{is_list};

use crate::against::{directory_of, is_list, stands_against};
use crate::borne::borne_by;
use crate::found::unlocked_by;
use crate::index::FieldIndex;
use crate::once::put_in_order;
use crate::seek::{Sought, least_among, least_named, lesser, live_at};
use fs_field::table::{child_number, is_lease, is_live};
use fs_field::{Asked, Field, LeaseKind, Row};
use fs_ident::{FileId, LeaseNo, List, Memory, Session, TxnNo};
use std::alloc::Global;

/// What a question for such a lease is answered.
pub(crate) fn answer(
    rows: &[Row],
    index: Option<&FieldIndex>,
    now: u64,
    skew: u64,
    session: Session,
    field: &Field,
    kind: LeaseKind,
) -> Asked
    requires { IsSeen index rows.now }
    ensures { result ≡ answer (filter (is_live now skew) rows.now) session field.now kind }
{
    if let Some(txn) = lock_on(rows, index, now, skew, field) {
        return Asked::Locked { txn };
    }
    if let Some(row) = first_against(rows, index, now, skew, session, field, kind) {
        return Asked::Wait { blocker: row.no };
    }
    Asked::Granted { value: None }
}

/// The transaction that keeps the first row on the field that one keeps.
pub(crate) fn lock_on(
    rows: &[Row],
    index: Option<&FieldIndex>,
    now: u64,
    skew: u64,
    field: &Field,
) -> Option<TxnNo>
    requires { IsSeen index rows.now }
    ensures { result ≡ lock_on field.now (filter (is_live now skew) rows.now) }
{
    if let Some(index) = index {
        if index.is_whole() {
            return lock_by(rows, index, now, skew, field);
        }
    }
    lock_in(rows, now, skew, field)
}

/// The transaction that keeps the first kept row on the field, of the rows whose numbers the index has on it.
fn lock_by(rows: &[Row], index: &FieldIndex, now: u64, skew: u64, field: &Field) -> Option<TxnNo>
    requires index { IsIndexOf index.now rows.now }
    requires ordered { is_ordered rows.now ≡ true }
    requires whole { index.now.whole ≡ true }
    ensures { result ≡ lock_on field.now (filter (is_live now skew) rows.now) }
{
    match least_among(rows, index.on(field), now, skew, &Sought::Lock(field)) {
        Some(row) => row.lock,
        None => None,
    }
}

/// The transaction that keeps the first kept row on the field, by a walk over all rows.
#[tactic(auto, using(crate::proofs::LiveSteps::lock_step))]
fn lock_in(rows: &[Row], now: u64, skew: u64, field: &Field) -> Option<TxnNo>
    ensures { result ≡ lock_on field.now (filter (is_live now skew) rows.now) }
{
    for row in rows {
        if is_live(row, now, skew) && row.field.is(field) && row.lock.is_some() {
            return row.lock;
        }
    }
    None
}

/// The first row that keeps the session from such a lease.
pub(crate) fn first_against<'a>(
    rows: &'a [Row],
    index: Option<&FieldIndex>,
    now: u64,
    skew: u64,
    session: Session,
    field: &Field,
    kind: LeaseKind,
) -> Option<&'a Row>
    requires { IsSeen index rows.now }
    ensures { option_copied result ≡
        find (stands_against session field.now kind) (filter (is_live now skew) rows.now) }
{
    if let Some(index) = index {
        if index.is_whole() {
            return first_by(rows, index, now, skew, session, field, kind);
        }
    }
    first_in(rows, now, skew, session, field, kind)
}

/// The first row against the lease, of the rows whose numbers the index has on the fields that can be against it.
fn first_by<'a>(
    rows: &'a [Row],
    index: &FieldIndex,
    now: u64,
    skew: u64,
    session: Session,
    field: &Field,
    kind: LeaseKind,
) -> Option<&'a Row>
    requires index { IsIndexOf index.now rows.now }
    requires ordered { is_ordered rows.now ≡ true }
    requires whole { index.now.whole ≡ true }
    ensures { option_copied result ≡
        find (stands_against session field.now kind) (filter (is_live now skew) rows.now) }
{
    if is_list(field) {
        return first_listed(rows, index, now, skew, session, field, kind);
    }
    let sought = Sought::Against(session, field, kind);
    let here = least_among(rows, index.on(field), now, skew, &sought);
    match directory_of(field) {
        Some(dir) => {
            let above = least_among(rows, index.on_names(dir), now, skew, &sought);
            lesser(here, above)
        }
        None => here,
    }
}

/// The first row against a lease on a list of names, of the rows on it and on the children of its directory.
fn first_listed<'a>(
    rows: &'a [Row],
    index: &FieldIndex,
    now: u64,
    skew: u64,
    session: Session,
    field: &Field,
    kind: LeaseKind,
) -> Option<&'a Row>
    requires index { IsIndexOf index.now rows.now }
    requires ordered { is_ordered rows.now ≡ true }
    requires whole { index.now.whole ≡ true }
    requires list { is_list field.now ≡ true }
    ensures { option_copied result ≡
        find (stands_against session field.now kind) (filter (is_live now skew) rows.now) }
{
    let sought = Sought::Against(session, field, kind);
    let here = least_among(rows, index.on(field), now, skew, &sought);
    match index.on_children(field.file()) {
        Some(children) => lesser(here, least_named(rows, children, now, skew, &sought)),
        None => here,
    }
}

/// The first row that keeps the session from such a lease, by a walk over all rows.
#[tactic(auto, using(crate::proofs::LiveSteps::find_step))]
pub fn first_in<'a>(
    rows: &'a [Row],
    now: u64,
    skew: u64,
    session: Session,
    field: &Field,
    kind: LeaseKind,
) -> Option<&'a Row>
    ensures { option_copied result ≡
        find (stands_against session field.now kind) (filter (is_live now skew) rows.now) }
{
    for row in rows {
        if is_live(row, now, skew) && stands_against(row, session, field, kind) {
            return Some(row);
        }
    }
    None
}

/// The row of this number.
pub(crate) fn row<'a>(
    rows: &'a [Row],
    index: Option<&FieldIndex>,
    now: u64,
    skew: u64,
    no: LeaseNo,
) -> Option<&'a Row>
    requires { IsSeen index rows.now }
    ensures { option_copied result ≡ find (has_no no) (filter (is_live now skew) rows.now) }
{
    match index {
        Some(_) => live_at(rows, no, now, skew),
        None => row_in(rows, now, skew, no),
    }
}

/// The row of this number, by a walk over all rows.
#[tactic(auto, using(crate::proofs::LiveSteps::find_step))]
fn row_in(rows: &[Row], now: u64, skew: u64, no: LeaseNo) -> Option<&Row>
    ensures { option_copied result ≡ find (has_no no) (filter (is_live now skew) rows.now) }
{
    for row in rows {
        if is_live(row, now, skew) && row.no == no {
            return Some(row);
        }
    }
    None
}

/// Whether there is the row of this number.
#[tactic(auto, using(crate::proofs::LiveSteps::found))]
pub(crate) fn has(
    rows: &[Row],
    index: Option<&FieldIndex>,
    now: u64,
    skew: u64,
    no: LeaseNo,
) -> bool
    requires { IsSeen index rows.now }
    ensures { result ≡ list_any (has_no no) (filter (is_live now skew) rows.now) }
{
    row(rows, index, now, skew, no).is_some()
}

/// Whether there is a row of the session on the field.
pub(crate) fn has_on(
    rows: &[Row],
    index: Option<&FieldIndex>,
    now: u64,
    skew: u64,
    field: &Field,
    session: Session,
) -> bool
    requires { IsSeen index rows.now }
    ensures { result ≡ list_any (λ (r : TheRow).
        same_field r.field field.now && (r.session.0 == session.0))
        (filter (is_live now skew) rows.now) }
{
    if let Some(index) = index {
        if index.is_whole() {
            return has_by(rows, index, now, skew, field, session);
        }
    }
    has_in(rows, now, skew, field, session)
}

/// Whether there is a row of the session on the field, of the rows whose numbers the index has on it.
fn has_by(
    rows: &[Row],
    index: &FieldIndex,
    now: u64,
    skew: u64,
    field: &Field,
    session: Session,
) -> bool
    requires index { IsIndexOf index.now rows.now }
    requires ordered { is_ordered rows.now ≡ true }
    requires whole { index.now.whole ≡ true }
    ensures { result ≡ list_any (λ (r : TheRow).
        same_field r.field field.now && (r.session.0 == session.0))
        (filter (is_live now skew) rows.now) }
{
    let sought = Sought::Of(session, field);
    least_among(rows, index.on(field), now, skew, &sought).is_some()
}

/// Whether there is a row of the session on the field, by a walk over all rows.
fn has_in(rows: &[Row], now: u64, skew: u64, field: &Field, session: Session) -> bool
    ensures { result ≡ list_any (λ (r : TheRow).
        same_field r.field field.now && (r.session.0 == session.0))
        (filter (is_live now skew) rows.now) }
{
    for row in rows {
        if is_live(row, now, skew) && row.field.is(field) && row.session == session {
            return true;
        }
    }
    false
}

/// Whether there is the row of this lease of the session.
pub(crate) fn holds(
    rows: &[Row],
    index: Option<&FieldIndex>,
    now: u64,
    skew: u64,
    no: LeaseNo,
    session: Session,
    field: &Field,
    kind: LeaseKind,
) -> bool
    requires { IsSeen index rows.now }
    ensures { result ≡
        list_any (is_lease no session field.now kind) (filter (is_live now skew) rows.now) }
{
    match index {
        Some(_) => holds_at(rows, now, skew, no, session, field, kind),
        None => holds_in(rows, now, skew, no, session, field, kind),
    }
}

/// Whether the row of the number, found by the order of the numbers, is of this lease of the session.
pub fn holds_at(
    rows: &[Row],
    now: u64,
    skew: u64,
    no: LeaseNo,
    session: Session,
    field: &Field,
    kind: LeaseKind,
) -> bool
    requires { is_ordered rows.now ≡ true }
    ensures { result ≡
        list_any (is_lease no session field.now kind) (filter (is_live now skew) rows.now) }
{
    match live_at(rows, no, now, skew) {
        Some(row) => is_lease(row, no, session, field, kind),
        None => false,
    }
}

/// Whether there is the row of this lease of the session, by a walk over all rows.
fn holds_in(
    rows: &[Row],
    now: u64,
    skew: u64,
    no: LeaseNo,
    session: Session,
    field: &Field,
    kind: LeaseKind,
) -> bool
    ensures { result ≡
        list_any (is_lease no session field.now kind) (filter (is_live now skew) rows.now) }
{
    for row in rows {
        if is_live(row, now, skew) && is_lease(row, no, session, field, kind) {
            return true;
        }
    }
    false
}

/// The last numbers of the files right below the directory that rows are on, each once, ascending.
pub(crate) fn borne(
    alloc: Global,
    rows: &[Row],
    index: Option<&FieldIndex>,
    now: u64,
    skew: u64,
    dir: &FileId,
) -> Result<List<u32>, Memory>
    requires { IsSeen index rows.now }
    ensures { IfOk result (AreInOrderOnce
        (borne_numbers dir.now (filter (is_live now skew) rows.now))) }
{
    let mut told = borne_any(alloc, rows, index, now, skew, dir)?;
    put_in_order(told.items_mut());
    Ok(told)
}

/// The last numbers of the files right below the directory that rows are on, in any order.
fn borne_any(
    alloc: Global,
    rows: &[Row],
    index: Option<&FieldIndex>,
    now: u64,
    skew: u64,
    dir: &FileId,
) -> Result<List<u32>, Memory>
    requires { IsSeen index rows.now }
    ensures { IfOk result (λ told. (k : ℕ) → list_any (λ b. b == k) told ≡
        list_any (λ b. b == k) (borne_numbers dir.now (filter (is_live now skew) rows.now))) }
{
    if let Some(index) = index {
        if index.is_whole() {
            return borne_by(alloc, rows, index, now, skew, dir);
        }
    }
    borne_in(alloc, rows, now, skew, dir)
}

/// The last numbers of the files right below the directory that rows are on, by a walk over all rows.
#[tactic(auto, using(crate::proofs::LiveSteps::borne_step))]
fn borne_in(
    alloc: Global,
    rows: &[Row],
    now: u64,
    skew: u64,
    dir: &FileId,
) -> Result<List<u32>, Memory>
    ensures { IfOk result (λ told. told ≡
        borne_numbers dir.now (filter (is_live now skew) rows.now)) }
{
    let mut told = List::new(alloc);
    for row in rows {
        if is_live(row, now, skew)
            && let Some(k) = child_number(dir, row.field.file())
        {
            told.push(k)?;
        }
    }
    Ok(told)
}

/// The numbers and sessions of the rows on the field that no transaction keeps.
pub(crate) fn unlocked_on(
    alloc: Global,
    rows: &[Row],
    index: Option<&FieldIndex>,
    now: u64,
    skew: u64,
    field: &Field,
) -> Result<List<(LeaseNo, Session)>, Memory>
    requires { IsSeen index rows.now }
    ensures { IfOk result (λ told. told ≡
        unlocked_on field.now (filter (is_live now skew) rows.now)) }
{
    if let Some(index) = index {
        if index.is_whole() {
            return unlocked_by(alloc, rows, index, now, skew, field);
        }
    }
    unlocked_in(alloc, rows, now, skew, field)
}

/// The numbers and sessions of the rows on the field that no transaction keeps, by a walk over all rows.
#[tactic(auto, using(crate::proofs::LiveSteps::unlocked_step))]
fn unlocked_in(
    alloc: Global,
    rows: &[Row],
    now: u64,
    skew: u64,
    field: &Field,
) -> Result<List<(LeaseNo, Session)>, Memory>
    ensures { IfOk result (λ told. told ≡
        unlocked_on field.now (filter (is_live now skew) rows.now)) }
{
    let mut told = List::new(alloc);
    for row in rows {
        if is_live(row, now, skew) && row.field.is(field) && row.lock.is_none() {
            told.push((row.no, row.session))?;
        }
    }
    Ok(told)
}
