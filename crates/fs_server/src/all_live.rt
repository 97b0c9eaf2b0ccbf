//! The rows of a server that are not over at a reading, while they are only read.
ghost use Rattle.std.specs.Prelude.{◌≡◌, ◌==◌, ◌&&◌, ℕ, true, IfOk};
ghost use Rattle.std.specs.List.{filter, find, list_any};
ghost use Rattle.std.specs.Option.{option_copied};
ghost use Rattle.fs_field.specs.Field.{same_field, tells_no_mode};
ghost use Rattle.fs_field.specs.Table.{has_no, is_lease, is_live, borne_numbers};
ghost use Rattle.fs_field.specs.declared.field.Field.TheVariants.{SelfW, Other};
ghost use Rattle.fs_field.specs.declared.row.Row.{Row as TheRow};
ghost use Rattle.fs_moderows.specs.Answer.{answer_self, answer_other, reap_blocker};
ghost use Rattle.fs_rows.specs.Answer.{answer};
ghost use Rattle.fs_moderows.specs.Table.{IsModeTable};
ghost use Rattle.fs_rows.specs.Live.{unlocked_on};
ghost use Rattle.fs_rows.specs.Table.{IsTable};
ghost use Rattle.fs_record.specs.Fresh.{is_borne};
ghost use Rattle.fs_server.specs.Rows.{AreRows, in_one_list};

use fs_field::{Asked, Field, LeaseKind, Row};
use fs_ident::{FileId, LeaseNo, List, Memory, Session};
use fs_moderows::{Live as LiveModes, ModeRows};
use fs_modes::{Mode, Modes};
use fs_rows::{Live as LivePlain, Rows};
use std::alloc::Global;
use std::marker::Model;

/// The rows of a server that are not over at a reading. Nothing is copied.
#[derive(Drop)]
pub(crate) struct AllLive<'a> {
    plain: LivePlain<'a>,
    modes: LiveModes<'a>,
}

impl<'a> Model for AllLive<'a> {
    ghost use Rattle.std.specs.Prelude.{List};
    ghost use Rattle.fs_field.specs.declared.row.Row.{Row};
    ghost use Rattle.fs_rows.specs.Table.{IsTable};
    ghost use Rattle.fs_moderows.specs.Table.{IsModeTable};
    ghost use Rattle.fs_server.specs.Rows.{AreRows, in_one_list};

    ghost Value = { List Row };

    ghost view = { λ l. in_one_list l.plain l.modes };

    ghost invariant = { λ l. IsTable l.plain ×
        (IsModeTable l.modes × AreRows (in_one_list l.plain l.modes)) };
}

impl<'a> AllLive<'a> {
    /// Those of both tables that are not over at the reading `now`.
    pub(crate) fn at(plain: &'a Rows, modes: &'a ModeRows, now: u64, skew: u64) -> AllLive<'a>
        requires { AreRows (in_one_list plain.now modes.now) }
        ensures { result ≡ filter (is_live now skew) (in_one_list plain.now modes.now) }
    {
        AllLive {
            plain: plain.live(now, skew),
            modes: modes.live(now, skew),
        }
    }

    /// Those of each table.
    pub(crate) fn tables(&self) -> (&LivePlain<'a>, &LiveModes<'a>)
        ensures rows { in_one_list result.0.now result.1.now ≡ self.now }
        ensures plain { IsTable result.0.now }
        ensures modes { IsModeTable result.1.now }
        ensures valid { AreRows self.now }
    {
        (&self.plain, &self.modes)
    }

    /// What a question for such a lease would be answered, on a field that is no part of what sessions tell of modes.
    pub(crate) fn answer(&self, session: Session, field: &Field, kind: LeaseKind) -> Asked
        requires { tells_no_mode field.now ≡ true }
        ensures { result ≡ answer self.now session field.now kind }
    {
        self.plain.answer(session, field, kind)
    }

    /// What a question of the session would be answered that would change what it tells of the mode on the file; the
    /// field is that. `selves` has the sessions with handles on the file, each once, with the modes of its handles
    /// together.
    pub(crate) fn answer_self(
        &self,
        selves: &List<(Session, Modes)>,
        session: Session,
        field: &Field,
        file: &FileId,
        m: Mode,
    ) -> Asked
        requires { field.now ≡ SelfW file.now m }
        ensures { result ≡ answer_self selves.now self.now session file.now m }
    {
        self.modes.answer_self(selves, session, field, file, m)
    }

    /// What a question of the session would be answered that would know whether others have the mode on the file; the
    /// field is that. `selves` is as for `answer_self`.
    pub(crate) fn answer_other(
        &self,
        selves: &List<(Session, Modes)>,
        session: Session,
        field: &Field,
        file: &FileId,
        m: Mode,
    ) -> Asked
        requires { field.now ≡ Other file.now m }
        ensures { result ≡ answer_other selves.now self.now session file.now m }
    {
        self.modes.answer_other(selves, session, field, file, m)
    }

    /// The least row that keeps the session from losing its handles on the file. `selves` is as for `answer_self`.
    pub(crate) fn may_reap(
        &self,
        selves: &List<(Session, Modes)>,
        session: Session,
        file: &FileId,
    ) -> Option<LeaseNo>
        ensures { result ≡ reap_blocker selves.now self.now session file.now }
    {
        self.modes.may_reap(selves, session, file)
    }

    /// Whether there is a row of the session on the field, which is no part of what sessions tell of modes.
    pub(crate) fn has_on(&self, field: &Field, session: Session) -> bool
        requires { tells_no_mode field.now ≡ true }
        ensures { result ≡ list_any (λ (r : TheRow).
            same_field r.field field.now && (r.session.0 == session.0)) self.now }
    {
        self.plain.has_on(field, session)
    }

    /// Whether there is the row of this number.
    pub(crate) fn has(&self, no: LeaseNo) -> bool
        ensures { result ≡ list_any (has_no no) self.now }
    {
        self.plain.has(no) || self.modes.has(no)
    }

    /// Whether there is the row of this lease of the session.
    pub(crate) fn holds(
        &self,
        no: LeaseNo,
        session: Session,
        field: &Field,
        kind: LeaseKind,
    ) -> bool
        ensures { result ≡ list_any (is_lease no session field.now kind) self.now }
    {
        self.plain.holds(no, session, field, kind) || self.modes.holds(no, session, field, kind)
    }

    /// The row of this number.
    pub(crate) fn row(&self, no: LeaseNo) -> Option<&Row>
        ensures { option_copied result ≡ find (has_no no) self.now }
    {
        match self.plain.row(no) {
            Some(row) => Some(row),
            None => self.modes.row(no),
        }
    }

    /// The last numbers of the files right below the directory that rows are on, one for each row, in some order.
    pub(crate) fn borne(&self, alloc: Global, dir: &FileId) -> Result<List<u32>, Memory>
        ensures { IfOk result (λ told. (k : ℕ) →
            is_borne told k ≡ is_borne (borne_numbers dir.now self.now) k) }
    {
        let mut told = self.plain.borne(alloc, dir)?;
        let others = self.modes.borne(alloc, dir)?;
        told.items_mut().extend_from_slice(others.as_slice())?;
        Ok(told)
    }

    /// The numbers and sessions of the rows on the field that no transaction keeps, in order of number.
    pub(crate) fn unlocked_on(
        &self,
        alloc: Global,
        field: &Field,
    ) -> Result<List<(LeaseNo, Session)>, Memory>
        ensures { IfOk result (λ told. told ≡ unlocked_on field.now self.now) }
    {
        if field.tells_no_mode() {
            self.plain.unlocked_on(alloc, field)
        } else {
            self.modes.unlocked_on(alloc, field)
        }
    }
}
