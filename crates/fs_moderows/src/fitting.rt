//! Whether rows that come from another server go with those of a table and with one another.
ghost use Rattle.std.specs.Prelude.{◌≡◌, ◌&&◌, not};
ghost use Rattle.std.specs.List.{find, list_all, list_any};
ghost use Rattle.std.specs.Option.{option_copied};
ghost use Rattle.fs_ident.specs.Ident.{same};
ghost use Rattle.fs_field.specs.Conflict.{can_fail, has_fixed, mode_conflict};
ghost use Rattle.fs_moderows.specs.Answer.{is_self_of_other, stands_against_self};
ghost use Rattle.fs_moderows.specs.Fixed.{is_other_of_other, stands_by};
ghost use Rattle.fs_moderows.specs.Moving.{selves_listed};

use crate::against::can_fail;
use crate::fixed::{Fixed, fixed_but, has_fixed, is_told};
use crate::joined::Joined;
use crate::live::Live;
use crate::sought::Sought;
use fs_field::{Field, Row};
use fs_ident::{FileId, List, Session};
use fs_modes::{Mode, Modes};

/// Whether none of these conflicts over a mode with a row of the table that they come into.
pub fn are_apart(
    selves: &List<(FileId, List<(Session, Modes)>)>,
    rows: &Joined<'_>,
    came: &[Row],
) -> bool
    ensures { result ≡ list_all (λ row. not (list_any (mode_conflict (selves_listed selves.now)
        rows.now row) rows.now)) came.now }
{
    came.iter().all(|row| is_apart(selves, rows, row))
}

fn is_apart(selves: &List<(FileId, List<(Session, Modes)>)>, rows: &Joined<'_>, row: &Row) -> bool
    ensures { result ≡
        not (list_any (mode_conflict (selves_listed selves.now) rows.now row.now) rows.now) }
{
    match &row.field {
        Field::SelfW(file, m) => !is_against_self(
            opens_on(selves, file),
            rows,
            row.session,
            file,
            *m,
        ),
        Field::Other(file, m) => !is_against_other(
            opens_on(selves, file),
            rows,
            row.session,
            file,
            *m,
            row.promise,
        ),
        _ => true,
    }
}

/// The sessions with handles on the file, and the modes of each.
fn opens_on<'a>(
    selves: &'a List<(FileId, List<(Session, Modes)>)>,
    file: &FileId,
) -> &'a [(Session, Modes)]
    ensures { result.now ≡ selves_listed selves.now file.now }
{
    match first_on(selves.as_slice(), file) {
        Some(e) => e.1.as_slice(),
        None => &[],
    }
}

fn first_on<'a>(
    selves: &'a [(FileId, List<(Session, Modes)>)],
    file: &FileId,
) -> Option<&'a (FileId, List<(Session, Modes)>)>
    ensures { option_copied result ≡ find (λ e. same e.0 file.now) selves.now }
{
    selves.iter().find(|e| e.0 == *file)
}

/// Whether a row tells another session what others have of the mode on the file, and does not go with a lease that lets
/// this session change it.
fn is_against_self(
    opens: &[(Session, Modes)],
    rows: &Joined<'_>,
    session: Session,
    file: &FileId,
    m: Mode,
) -> bool
    ensures { result ≡
        list_any (stands_against_self opens.now rows.now session file.now m) rows.now }
{
    if !is_told_in(rows, file, m, session) {
        return false;
    }
    let fixed = fixed_but(opens, rows, file, m, session);
    is_against_in(rows, fixed, session, file, m)
}

#[tactic(auto, using(crate::proofs::Apart::any_rows))]
fn is_told_in(rows: &Joined<'_>, file: &FileId, m: Mode, session: Session) -> bool
    ensures { result ≡ list_any (is_other_of_other file.now m session) rows.now }
{
    is_told(&rows.came, file, m, session) || is_told(&rows.here, file, m, session)
}

#[tactic(auto, using(crate::proofs::Apart::any_rows))]
fn is_against_in(rows: &Joined<'_>, fixed: Fixed, session: Session, file: &FileId, m: Mode) -> bool
    ensures { result ≡ list_any (stands_by fixed session file.now m) rows.now }
{
    is_against(&rows.came, fixed, session, file, m)
        || is_against(&rows.here, fixed, session, file, m)
}

fn is_against(rows: &Live<'_>, fixed: Fixed, session: Session, file: &FileId, m: Mode) -> bool
    ensures { result ≡ list_any (stands_by fixed session file.now m) rows.now }
{
    rows.any(&Sought::Against(file, m, session, fixed))
}

/// Whether a row lets another session change what it tells of the mode on the file, and that could make untrue what
/// this one was told.
fn is_against_other(
    opens: &[(Session, Modes)],
    rows: &Joined<'_>,
    session: Session,
    file: &FileId,
    m: Mode,
    promise: Option<bool>,
) -> bool
    ensures { result ≡ (list_any (is_self_of_other file.now m session) rows.now &&
        can_fail promise (has_fixed (λ f. opens.now) rows.now file.now m session session)) }
{
    is_let_in(rows, file, m, session)
        && can_fail(promise, has_fixed(opens, rows, file, m, session, session))
}

#[tactic(auto, using(crate::proofs::Apart::any_rows))]
fn is_let_in(rows: &Joined<'_>, file: &FileId, m: Mode, session: Session) -> bool
    ensures { result ≡ list_any (is_self_of_other file.now m session) rows.now }
{
    is_let(&rows.came, file, m, session) || is_let(&rows.here, file, m, session)
}

fn is_let(rows: &Live<'_>, file: &FileId, m: Mode, session: Session) -> bool
    ensures { result ≡ list_any (is_self_of_other file.now m session) rows.now }
{
    rows.any(&Sought::SelfOfOther(file, m, session))
}
