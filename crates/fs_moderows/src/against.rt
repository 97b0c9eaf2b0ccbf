//! Which rows keep a session from changing what it tells of a mode.
ghost use Rattle.std.specs.Prelude.{◌≡◌, ◌&&◌};
ghost use Rattle.std.specs.List.{find};
ghost use Rattle.std.specs.Option.{option_copied};
ghost use Rattle.fs_field.specs.Conflict.{can_fail};
ghost use Rattle.fs_moderows.specs.Answer.{is_told_true, is_self_of_other, stands_against_self, stands_against_reap};
ghost use Rattle.fs_moderows.specs.Fixed.{has_but, is_other, rests_by, rests_by_each, stands_by, stands_by_each};

use crate::fixed::{EachMode, Fixed, each_mode, fixed_but, is_other, is_self, is_told};
use crate::joined::Joined;
use crate::live::Live;
use crate::sought::Sought;
use fs_field::{Field, Row};
use fs_ident::{FileId, Session};
use fs_modes::{Mode, Modes};

/// The first row that lets another session change what it tells of the mode on the file.
pub fn first_self_of_other<'a>(
    rows: &Live<'a>,
    file: &FileId,
    m: Mode,
    session: Session,
) -> Option<&'a Row>
    ensures { option_copied result ≡ find (is_self_of_other file.now m session) rows.now }
{
    rows.first(&Sought::SelfOfOther(file, m, session))
}

pub fn is_self_of_other(row: &Row, file: &FileId, m: Mode, session: Session) -> bool
    ensures { result ≡ is_self_of_other file.now m session row.now }
{
    is_self(&row.field, file, m) && row.session != session
}

/// The first row that keeps the session from changing what it tells of the mode on the file. Only a row that tells
/// another session of it can, and only where there is one the other sessions are looked at.
pub fn first_against_self<'a>(
    opens: &[(Session, Modes)],
    rows: &Live<'a>,
    session: Session,
    file: &FileId,
    m: Mode,
) -> Option<&'a Row>
    ensures { option_copied result ≡
        find (stands_against_self opens.now rows.now session file.now m) rows.now }
{
    if !is_told(rows, file, m, session) {
        return None;
    }
    let fixed = fixed_but(opens, &Joined::only(rows), file, m, session);
    rows.first(&Sought::Against(file, m, session, fixed))
}

pub fn stands_by(fixed: Fixed, session: Session, file: &FileId, m: Mode, row: &Row) -> bool
    ensures { result ≡ stands_by fixed session file.now m row.now }
{
    row.session != session && meets_by(fixed, file, m, row)
}

/// Whether what the row tells does not go with a lease that lets a session change it.
fn meets_by(fixed: Fixed, file: &FileId, m: Mode, row: &Row) -> bool
    ensures { result ≡ (is_other file.now m row.now.field &&
        can_fail row.now.promise (has_but fixed row.now.session)) }
{
    is_other(&row.field, file, m) && can_fail(row.promise, fixed.has_but(row.session))
}

/// Whether what was told can become untrue, where a third session is fixed or none is.
pub fn can_fail(promise: Option<bool>, fixed: bool) -> bool
    ensures { result ≡ can_fail promise fixed }
{
    match promise {
        Some(true) => !fixed,
        _ => true,
    }
}

/// The first row that keeps the session from losing its handles on the file.
pub fn first_against_reap<'a>(
    opens: &[(Session, Modes)],
    rows: &Live<'a>,
    session: Session,
    file: &FileId,
) -> Option<&'a Row>
    ensures { option_copied result ≡
        find (stands_against_reap opens.now rows.now session file.now) rows.now }
{
    let each = each_mode(opens, rows, session, file);
    rows.first(&Sought::Resting(file, session, &each))
}

pub fn stands_by_each(each: &EachMode, session: Session, file: &FileId, row: &Row) -> bool
    ensures { result ≡ stands_by_each each.now session file.now row.now }
{
    row.session != session && rests_by_each(each, file, row)
}

/// Whether what the row tells of the file would become untrue without the session's handles.
fn rests_by_each(each: &EachMode, file: &FileId, row: &Row) -> bool
    ensures { result ≡
        rests_by_each each.now file.now row.now.session row.now.field row.now.promise }
{
    match &row.field {
        Field::Other(f, m) => f == file && rests_by(each.of(*m), row.session, row.promise),
        _ => false,
    }
}

/// Whether what the session was told of a mode rests on one that has it, where these others are fixed.
fn rests_by(found: Option<Fixed>, x: Session, promise: Option<bool>) -> bool
    ensures { result ≡ rests_by found x promise }
{
    match found {
        Some(fixed) => is_told_true(promise) && !fixed.has_but(x),
        None => false,
    }
}

fn is_told_true(promise: Option<bool>) -> bool
    ensures { result ≡ is_told_true promise }
{
    match promise {
        Some(told) => told,
        None => false,
    }
}
