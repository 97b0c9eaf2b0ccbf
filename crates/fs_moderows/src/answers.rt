//! How questions for leases on what sessions tell of modes are answered.
ghost use Rattle.std.specs.Prelude.{◌≡◌, Some, None, true, false, if◌then◌else◌, OnOk, OnErr};
ghost use Rattle.std.specs.List.{find};
ghost use Rattle.fs_field.specs.Table.{is_ordered, lock_on};
ghost use Rattle.fs_field.specs.declared.asked.Asked.TheVariants.{Granted};
ghost use Rattle.fs_moderows.specs.Index.{IsIndexOf};
ghost use Rattle.fs_moderows.specs.Answer.{has_fixed_other, is_self_of_other, stands_against_self, unless_locked, waits_or, given_row, rows_after};

use crate::against::{first_against_self, first_self_of_other};
use crate::fixed::has_fixed;
use crate::index::FileIndex;
use crate::indexed::add_row;
use crate::joined::Joined;
use crate::live::Live;
use fs_field::{Asked, Field, LeaseKind, Row};
use fs_ident::{FileId, LeaseNo, Memory, Session};
use fs_modes::{Mode, Modes};
use std::alloc::Global;

/// The answer to a session that would change what it tells of the mode on the file, which is the field.
pub fn answer_self(
    opens: &[(Session, Modes)],
    rows: &Live<'_>,
    session: Session,
    field: &Field,
    file: &FileId,
    m: Mode,
) -> Asked
    ensures { result ≡ unless_locked (lock_on field.now rows.now)
        (waits_or (find (stands_against_self opens.now rows.now session file.now m) rows.now)
        None) }
{
    if let Some(txn) = rows.lock_on(field) {
        return Asked::Locked { txn };
    }
    match first_against_self(opens, rows, session, file, m) {
        Some(row) => Asked::Wait { blocker: row.no },
        None => Asked::Granted { value: None },
    }
}

/// The answer to a session that would know whether others have the mode on the file, which is the field.
pub fn answer_other(
    opens: &[(Session, Modes)],
    rows: &Live<'_>,
    session: Session,
    field: &Field,
    file: &FileId,
    m: Mode,
) -> Asked
    ensures { result ≡ unless_locked (lock_on field.now rows.now)
        (if has_fixed_other opens.now rows.now file.now m session then Granted (Some true)
        else waits_or (find (is_self_of_other file.now m session) rows.now) (Some false)) }
{
    if let Some(txn) = rows.lock_on(field) {
        return Asked::Locked { txn };
    }
    if has_fixed(opens, &Joined::only(rows), file, m, session, session) {
        return Asked::Granted { value: Some(true) };
    }
    match first_self_of_other(rows, file, m, session) {
        Some(row) => Asked::Wait { blocker: row.no },
        None => Asked::Granted { value: Some(false) },
    }
}

/// Adds the row where the lease is given; it promises the value.
pub(crate) fn give(
    rows: &mut Vec<Row>,
    index: &mut FileIndex,
    alloc: Global,
    asked: Asked,
    no: LeaseNo,
    session: Session,
    field: Field,
    kind: LeaseKind,
    until: u64,
) -> Result<(), Memory>
    requires ordered { is_ordered rows.old.items ≡ true }
    requires index { IsIndexOf index.old rows.old.items }
    ensures ok { OnOk result (rows.new.items ≡
        rows_after asked (given_row no session field kind until) rows.old.items) }
    ensures err { OnErr result (rows.new.items ≡ rows.old.items) }
    ensures index { IsIndexOf index.new rows.new.items }
{
    let Asked::Granted { value } = asked else {
        return Ok(());
    };
    let row = Row {
        no,
        session,
        field,
        kind,
        until,
        promise: value,
        lock: None,
    };
    add_row(rows, index, alloc, row)
}
