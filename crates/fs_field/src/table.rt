//! A table of rows, in order of number. Public as a module, since other crates keep tables of their own by its calls: the rows
//! on life, children, names, info and own handles in `fs_rows`.
ghost use Rattle.std.specs.Prelude.{◌≡◌, ◌≤◌, length, unwrap_or, map, IfOk, OnOk, OnErr};
ghost use Rattle.std.specs.Option.{option_copied};
ghost use Rattle.std.specs.List.{position, filter, find, list_any};
ghost use Rattle.std.specs.Prelude.{not};
ghost use Rattle.fs_field.specs.Table.{no_before, has_no, with_row, is_lease, is_live, renewed_row, is_unlocked, locked_row, is_lock_of, unlocked_row, lock_on, rows_on, child_number, borne_numbers};

use crate::field::Field;
use crate::lease_kind::LeaseKind;
use crate::row::Row;
use fs_ident::{FileId, LeaseNo, List, Memory, Session, TxnNo};
use std::alloc::Global;

/// The row of this number.
#[tactic(auto, using(crate::proofs::Rows::find_step))]
pub fn row(rows: &[Row], no: LeaseNo) -> Option<&Row>
    ensures { option_copied result ≡ find (has_no no) rows.now }
{
    for row in rows {
        if row.no == no {
            return Some(row);
        }
    }
    None
}

/// Whether there is a row of this number.
#[tactic(auto, using(crate::proofs::Rows::found))]
pub fn has_row(rows: &[Row], no: LeaseNo) -> bool
    ensures { result ≡ list_any (has_no no) rows.now }
{
    row(rows, no).is_some()
}

/// Puts a row before the first with a greater number.
#[tactic(auto, using(fs_ident::proofs::Put::put_at))]
pub fn put(rows: &mut Vec<Row>, row: Row) -> Result<(), Memory>
    ensures ok { OnOk result (rows.new.items ≡ with_row row rows.old.items) }
    ensures err { OnErr result (rows.new.items ≡ rows.old.items) }
{
    let at = place(rows, row.no);
    rows.insert(at, row)?;
    Ok(())
}

/// Where the first row with a greater number stands, or the length.
#[tactic(auto, using(crate::proofs::Places::place_is, crate::proofs::Places::place_step))]
pub fn place(rows: &[Row], no: LeaseNo) -> usize
    ensures place { result ≡ unwrap_or (position (λ r. no_before no r.no) rows.now)
        (length rows.now) }
    ensures within { result ≤ length rows.now }
{
    for at in 0..rows.len() {
        if no < rows[at].no {
            return at;
        }
    }
    rows.len()
}

/// Lets the row of this number end no sooner than `until`, and tells whether there is one.
pub fn renew(rows: &mut [Row], no: LeaseNo, until: u64) -> bool
    ensures found { result ≡ list_any (has_no no) rows.old }
    ensures rows { rows.new ≡ map (renewed_row no until) rows.old }
{
    let found = has_row(rows, no);
    renew_each(rows, no, until);
    found
}

#[tactic(auto, using(crate::proofs::Rows::mapped_step))]
fn renew_each(rows: &mut [Row], no: LeaseNo, until: u64)
    ensures { rows.new ≡ map (renewed_row no until) rows.old }
{
    for row in rows.iter_mut() {
        renew_one(row, no, until);
    }
}

fn renew_one(row: &mut Row, no: LeaseNo, until: u64)
    ensures { row.new ≡ renewed_row no until row.old }
{
    if row.no == no && row.until < until {
        row.until = until;
    }
}

/// Drops the row of this number, and tells whether there was one.
pub fn release(rows: &mut Vec<Row>, no: LeaseNo) -> bool
    ensures found { result ≡ list_any (has_no no) rows.old.items }
    ensures rows { rows.new.items ≡ filter (λ r. not (has_no no r)) rows.old.items }
{
    let found = has_row(rows, no);
    retain_others(rows, no);
    found
}

fn retain_others(rows: &mut Vec<Row>, no: LeaseNo)
    ensures { rows.new.items ≡ filter (λ r. not (has_no no r)) rows.old.items }
{
    rows.retain(|row| row.no != no);
}

/// Drops the rows whose end and the skew are over, but for those that a transaction keeps.
pub fn lapse(rows: &mut Vec<Row>, now: u64, skew: u64)
    ensures { rows.new.items ≡ filter (is_live now skew) rows.old.items }
{
    rows.retain(|row| is_live(row, now, skew));
}

/// Whether the row is not over: a transaction keeps it, or its end and the skew are not over.
pub fn is_live(row: &Row, now: u64, skew: u64) -> bool
    ensures { result ≡ is_live now skew row.now }
{
    row.lock.is_some() || now < skew || now - skew < row.until
}

/// Whether there is the row of this lease of the session.
#[tactic(auto, using(crate::proofs::Rows::any_step))]
pub fn holds(rows: &[Row], no: LeaseNo, session: Session, field: &Field, kind: LeaseKind) -> bool
    ensures { result ≡ list_any (is_lease no session field.now kind) rows.now }
{
    for row in rows {
        if is_lease(row, no, session, field, kind) {
            return true;
        }
    }
    false
}

/// Whether the row is that of this lease of the session.
pub fn is_lease(row: &Row, no: LeaseNo, session: Session, field: &Field, kind: LeaseKind) -> bool
    ensures { result ≡ is_lease no session field.now kind row.now }
{
    row.no == no && row.session == session && row.field.is(field) && row.kind == kind
}

/// Lets the transaction keep the row of this number, and tells whether there was one that none kept.
pub fn lock(rows: &mut [Row], no: LeaseNo, txn: TxnNo) -> bool
    ensures found { result ≡ list_any (is_unlocked no) rows.old }
    ensures rows { rows.new ≡ map (locked_row no txn) rows.old }
{
    let found = rows.iter().any(|row| is_unlocked(row, no));
    lock_each(rows, no, txn);
    found
}

#[tactic(auto, using(crate::proofs::Rows::mapped_step))]
fn lock_each(rows: &mut [Row], no: LeaseNo, txn: TxnNo)
    ensures { rows.new ≡ map (locked_row no txn) rows.old }
{
    for row in rows.iter_mut() {
        lock_one(row, no, txn);
    }
}

fn lock_one(row: &mut Row, no: LeaseNo, txn: TxnNo)
    ensures { row.new ≡ locked_row no txn row.old }
{
    if is_unlocked(row, no) {
        row.lock = Some(txn);
    }
}

fn is_unlocked(row: &Row, no: LeaseNo) -> bool
    ensures { result ≡ is_unlocked no row.now }
{
    row.no == no && row.lock.is_none()
}

/// Lets the transaction keep no row any more.
#[tactic(auto, using(crate::proofs::Rows::mapped_step))]
pub fn unlock(rows: &mut [Row], txn: TxnNo)
    ensures { rows.new ≡ map (unlocked_row txn) rows.old }
{
    for row in rows.iter_mut() {
        unlock_one(row, txn);
    }
}

fn unlock_one(row: &mut Row, txn: TxnNo)
    ensures { row.new ≡ unlocked_row txn row.old }
{
    if is_lock_of(row.lock, txn) {
        row.lock = None;
    }
}

fn is_lock_of(lock: Option<TxnNo>, txn: TxnNo) -> bool
    ensures { result ≡ is_lock_of txn lock }
{
    match lock {
        None => false,
        Some(other) => other == txn,
    }
}

/// The transaction that keeps the first row on the field that one keeps.
#[tactic(auto, using(crate::proofs::Rows::lock_step))]
pub fn lock_on(rows: &[Row], field: &Field) -> Option<TxnNo>
    ensures { result ≡ lock_on field.now rows.now }
{
    for row in rows {
        if row.field.is(field) && row.lock.is_some() {
            return row.lock;
        }
    }
    None
}

/// The rows on the field: their numbers and sessions.
#[tactic(auto, using(crate::proofs::Rows::on_step))]
pub fn rows_on(
    alloc: Global,
    rows: &[Row],
    field: &Field,
) -> Result<List<(LeaseNo, Session)>, Memory>
    ensures { IfOk result (λ told. told ≡ rows_on field.now rows.now) }
{
    let mut told = List::new(alloc);
    for row in rows {
        if row.field.is(field) {
            told.push((row.no, row.session))?;
        }
    }
    Ok(told)
}

/// The last numbers of the files right below the directory that rows are on.
#[tactic(auto, using(crate::proofs::Rows::borne_step))]
pub fn borne(alloc: Global, rows: &[Row], dir: &FileId) -> Result<List<u32>, Memory>
    ensures { IfOk result (λ told. told ≡ borne_numbers dir.now rows.now) }
{
    let mut told = List::new(alloc);
    for row in rows {
        if let Some(k) = child_number(dir, row.field.file()) {
            told.push(k)?;
        }
    }
    Ok(told)
}

/// The last number of the file, where it stands right below the directory.
pub fn child_number(dir: &FileId, file: &FileId) -> Option<u32>
    ensures { result ≡ child_number dir.now file.now }
{
    let place = dir.numbers();
    match file.numbers().split_last() {
        None => None,
        Some((k, front)) => { if front == place { Some(*k) } else { None } }
    }
}
