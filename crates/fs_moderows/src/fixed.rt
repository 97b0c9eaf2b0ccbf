//! Which sessions have a mode on a file and cannot change that.
ghost use Rattle.std.specs.Prelude.{◌≡◌, ◌==◌, ◌&&◌, not};
ghost use Rattle.std.specs.List.{find, list_any};
ghost use Rattle.std.specs.Option.{option_copied};
ghost use Rattle.fs_field.specs.Conflict.{is_self, is_fixed, has_fixed};
ghost use Rattle.fs_modes.specs.Modes.{has};
ghost use Rattle.fs_moderows.specs.Answer.{has_mode};
ghost use Rattle.fs_moderows.specs.Fixed.{has_but, AreFixedBut, of_mode, rests_by, is_other, is_other_of_other, TellsOfMode};

use crate::joined::Joined;
use crate::live::Live;
use crate::sought::Sought;
use fs_field::{Field, Row};
use fs_ident::{FileId, Session};
use fs_modes::{Mode, Modes};

/// The sessions but for one that have a mode on a file and that no row lets change that. They depend on the file and
/// the mode alone, so a question finds them once and not for each row.
#[derive(Clone, Copy)]
pub enum Fixed {
    Nobody,
    One(Session),
    Several,
}

impl Fixed {
    /// Whether there is one other than this session.
    pub fn has_but(self, x: Session) -> bool
        ensures { result ≡ has_but self x }
    {
        match self {
            Fixed::Nobody => false,
            Fixed::One(s) => s != x,
            Fixed::Several => true,
        }
    }
}

/// The sessions but for `y` that have the mode on the file, and no row lets change that.
pub fn fixed_but(
    opens: &[(Session, Modes)],
    rows: &Joined<'_>,
    file: &FileId,
    m: Mode,
    y: Session,
) -> Fixed
    ensures { AreFixedBut opens.now rows.now file.now m y result }
{
    match first_fixed(opens, rows, file, m, y) {
        Some(e) => {
            if has_fixed(opens, rows, file, m, e.0, y) {
                Fixed::Several
            } else {
                Fixed::One(e.0)
            }
        }
        None => Fixed::Nobody,
    }
}

/// The first of them, with its modes.
fn first_fixed<'a>(
    opens: &'a [(Session, Modes)],
    rows: &Joined<'_>,
    file: &FileId,
    m: Mode,
    y: Session,
) -> Option<&'a (Session, Modes)>
    ensures { option_copied result ≡ find (λ e. (not (e.0.0 == y.0) && has e.1 m) &&
        is_fixed rows.now file.now m e.0) opens.now }
{
    opens
        .iter()
        .find(|e| e.0 != y && e.1.has(m) && is_fixed(rows, file, m, e.0))
}

/// Whether a session that is neither of the two has the mode on the file, and no row lets it change that.
pub fn has_fixed(
    opens: &[(Session, Modes)],
    rows: &Joined<'_>,
    file: &FileId,
    m: Mode,
    x: Session,
    y: Session,
) -> bool
    ensures { result ≡ has_fixed (λ f. opens.now) rows.now file.now m x y }
{
    opens.iter().any(|e| e.0 != x && e.0 != y && e.1.has(m) && is_fixed(rows, file, m, e.0))
}

/// Whether no row lets the session change what it tells of the mode on the file.
fn is_fixed(rows: &Joined<'_>, file: &FileId, m: Mode, session: Session) -> bool
    ensures { result ≡ is_fixed rows.now file.now m session }
{
    let free = is_free(rows, file, m, session);
    !free
}

/// Whether a row lets the session change what it tells of the mode on the file.
#[tactic(auto, using(crate::proofs::Apart::any_rows))]
fn is_free(rows: &Joined<'_>, file: &FileId, m: Mode, session: Session) -> bool
    ensures { result ≡
        list_any (λ row. is_self file.now m row.field && (row.session.0 == session.0))
        rows.now }
{
    is_free_among(&rows.came, file, m, session) || is_free_among(&rows.here, file, m, session)
}

fn is_free_among(rows: &Live<'_>, file: &FileId, m: Mode, session: Session) -> bool
    ensures { result ≡
        list_any (λ row. is_self file.now m row.field && (row.session.0 == session.0))
        rows.now }
{
    rows.any(&Sought::SelfOf(file, m, session))
}

pub fn lets_change(row: &Row, file: &FileId, m: Mode, session: Session) -> bool
    ensures { result ≡ (is_self file.now m row.now.field && (row.now.session.0 == session.0)) }
{
    is_self(&row.field, file, m) && row.session == session
}

/// Whether the field is what a session itself tells of the mode on the file.
pub fn is_self(field: &Field, file: &FileId, m: Mode) -> bool
    ensures { result ≡ is_self file.now m field.now }
{
    match field {
        Field::SelfW(f, n) => file == f && m == *n,
        _ => false,
    }
}

/// Whether a row tells another session what others have of the mode on the file.
pub fn is_told(rows: &Live<'_>, file: &FileId, m: Mode, y: Session) -> bool
    ensures { result ≡ list_any (is_other_of_other file.now m y) rows.now }
{
    rows.any(&Sought::OtherOfOther(file, m, y))
}

pub fn is_other_of_other(row: &Row, file: &FileId, m: Mode, y: Session) -> bool
    ensures { result ≡ is_other_of_other file.now m y row.now }
{
    is_other(&row.field, file, m) && row.session != y
}

/// Whether the field is what others tell of the mode on the file.
pub fn is_other(field: &Field, file: &FileId, m: Mode) -> bool
    ensures { result ≡ is_other file.now m field.now }
{
    match field {
        Field::Other(f, n) => f == file && *n == m,
        _ => false,
    }
}

/// What was found of each mode for a session that would lose its handles on the file: which others are fixed, or None
/// where nothing that a row tells rests on the session's having it.
#[derive(Clone, Copy)]
pub struct EachMode {
    pub acc_r: Option<Fixed>,
    pub acc_w: Option<Fixed>,
    pub acc_d: Option<Fixed>,
    pub deny_r: Option<Fixed>,
    pub deny_w: Option<Fixed>,
    pub deny_d: Option<Fixed>,
}

impl EachMode {
    /// What was found of the mode.
    pub fn of(&self, m: Mode) -> Option<Fixed>
        ensures { result ≡ of_mode self.now m }
    {
        match m {
            Mode::AccR => self.acc_r,
            Mode::AccW => self.acc_w,
            Mode::AccD => self.acc_d,
            Mode::DenyR => self.deny_r,
            Mode::DenyW => self.deny_w,
            Mode::DenyD => self.deny_d,
        }
    }
}

/// What is found of each mode for a session that would lose its handles on the file.
pub fn each_mode(
    opens: &[(Session, Modes)],
    rows: &Live<'_>,
    session: Session,
    file: &FileId,
) -> EachMode
    ensures { (m : Mode) → TellsOfMode opens.now rows.now session file.now m (of_mode result m) }
{
    EachMode {
        acc_r: resting(opens, rows, session, file, Mode::AccR),
        acc_w: resting(opens, rows, session, file, Mode::AccW),
        acc_d: resting(opens, rows, session, file, Mode::AccD),
        deny_r: resting(opens, rows, session, file, Mode::DenyR),
        deny_w: resting(opens, rows, session, file, Mode::DenyW),
        deny_d: resting(opens, rows, session, file, Mode::DenyD),
    }
}

/// The others that are fixed, where the session has the mode and a row tells another of it.
fn resting(
    opens: &[(Session, Modes)],
    rows: &Live<'_>,
    session: Session,
    file: &FileId,
    m: Mode,
) -> Option<Fixed>
    ensures { TellsOfMode opens.now rows.now session file.now m result }
{
    if has_mode(opens, session, m) && is_told(rows, file, m, session) {
        Some(fixed_but(opens, &Joined::only(rows), file, m, session))
    } else {
        None
    }
}

/// Whether the session has the mode.
fn has_mode(opens: &[(Session, Modes)], session: Session, m: Mode) -> bool
    ensures { result ≡ has_mode opens.now session m }
{
    opens.iter().any(|e| e.0 == session && e.1.has(m))
}
