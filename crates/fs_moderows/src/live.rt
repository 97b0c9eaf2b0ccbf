//! The rows that are not over at a reading, while the table is only read.
ghost use Rattle.std.specs.Prelude.{◌≡◌, true, IfOk};
ghost use Rattle.std.specs.List.{filter, find, list_any};
ghost use Rattle.std.specs.Option.{option_copied};
ghost use Rattle.fs_field.specs.Table.{has_no, is_lease, is_live, is_ordered, lock_on, borne_numbers};
ghost use Rattle.fs_field.specs.declared.field.Field.TheVariants.{SelfW, Other};
ghost use Rattle.fs_rows.specs.Bearing.{AreInOrderOnce};
ghost use Rattle.fs_rows.specs.Moving.{are_new, locked_in, rows_given};
ghost use Rattle.fs_moderows.specs.Index.{IsIndexOf};
ghost use Rattle.fs_moderows.specs.Sought.{passes};
ghost use Rattle.fs_moderows.specs.Moving.{fits, selves_listed};
ghost use Rattle.fs_moderows.specs.Answer.{answer_self, answer_other, reap_blocker};
ghost use Rattle.fs_rows.specs.Live.{unlocked_on};

use crate::against::first_against_reap;
use crate::answers;
use crate::fitting::are_apart;
use crate::index::FileIndex;
use crate::joined::Joined;
use crate::sought::{Sought, first_sought};
use fs_field::{Asked, Field, LeaseKind, Row};
use fs_ident::{FileId, LeaseNo, List, Memory, Session, TxnNo};
use fs_map::{FileMap, MapPiece};
use fs_modes::{Mode, Modes};
use fs_rows::{Live as Kept, holds_at, live_at};
use std::alloc::Global;
use std::marker::Model;

/// The rows of a table that are not over at a reading: a transaction keeps them, or their end and the skew are not
/// over. Nothing is copied.
#[derive(Drop)]
pub struct Live<'a> {
    rows: &'a [Row],
    index: Option<&'a FileIndex>,
    reading: u64,
    skew: u64,
}

impl<'a> Model for Live<'a> {
    ghost use Rattle.std.specs.Prelude.{List};
    ghost use Rattle.std.specs.List.{filter};
    ghost use Rattle.fs_field.specs.declared.row.Row.{Row};
    ghost use Rattle.fs_field.specs.Table.{is_live};
    ghost use Rattle.fs_moderows.specs.Index.{IsSeen};

    ghost Value = { List Row };

    ghost view = { λ l. filter (is_live l.reading l.skew) l.rows.now };

    ghost invariant = { λ l. IsSeen l.index l.rows.now };
}

impl<'a> Live<'a> {
    /// Those of these rows that are not over at the reading `now`.
    pub(crate) fn at(rows: &'a [Row], now: u64, skew: u64) -> Live<'a>
        ensures { result ≡ filter (is_live now skew) rows.now }
    {
        Live {
            rows,
            index: None,
            reading: now,
            skew,
        }
    }

    /// Those of these rows, which are in order and have this index, that are not over at the reading `now`.
    pub(crate) fn through(rows: &'a [Row], index: &'a FileIndex, now: u64, skew: u64) -> Live<'a>
        requires index { IsIndexOf index.now rows.now }
        requires ordered { is_ordered rows.now ≡ true }
        ensures { result ≡ filter (is_live now skew) rows.now }
    {
        Live {
            rows,
            index: Some(index),
            reading: now,
            skew,
        }
    }

    /// All of these rows, which are in order, with an index of them.
    #[tactic(auto, using(fs_rows::proofs::Goes::all_live))]
    pub(crate) fn whole(rows: &'a [Row], index: &'a FileIndex) -> Live<'a>
        requires index { IsIndexOf index.now rows.now }
        requires ordered { is_ordered rows.now ≡ true }
        ensures { result ≡ rows.now }
    {
        Live::through(rows, index, 0, 1)
    }

    /// Another view of these rows, at this one's reading.
    pub(crate) fn again(&self) -> Live<'a>
        ensures { result ≡ self.now }
    {
        Live {
            rows: self.rows,
            index: self.index,
            reading: self.reading,
            skew: self.skew,
        }
    }

    /// The first of these that is sought.
    pub(crate) fn first(&self, sought: &Sought<'_>) -> Option<&'a Row>
        ensures { option_copied result ≡ find (passes sought.now) self.now }
    {
        first_sought(self.rows, self.index, self.reading, self.skew, sought)
    }

    /// Whether one of these is sought.
    #[tactic(auto, using(fs_rows::proofs::LiveSteps::found))]
    pub(crate) fn any(&self, sought: &Sought<'_>) -> bool
        ensures { result ≡ list_any (passes sought.now) self.now }
    {
        self.first(sought).is_some()
    }

    /// All of these rows: at the first reading and with some skew none is over.
    pub fn all(rows: &'a [Row]) -> Live<'a>
        ensures { result ≡ rows.now }
    {
        Live::at(rows, 0, 1)
    }

    fn kept(&self) -> Kept<'a>
        ensures { result ≡ self.now }
    {
        Kept::at(self.rows, self.reading, self.skew)
    }

    /// What a question of the session would be answered that would change what it tells of the mode on the file; the
    /// field is that. `selves` is as for `ModeRows::ask_self`.
    pub fn answer_self(
        &self,
        selves: &List<(Session, Modes)>,
        session: Session,
        field: &Field,
        file: &FileId,
        m: Mode,
    ) -> Asked
        requires { field.now ≡ SelfW file.now m }
        ensures { result ≡ answer_self selves.now self.now session file.now m }
    {
        answers::answer_self(selves.as_slice(), self, session, field, file, m)
    }

    /// What a question of the session would be answered that would know whether others have the mode on the file; the
    /// field is that. `selves` is as for `ModeRows::ask_other`.
    pub fn answer_other(
        &self,
        selves: &List<(Session, Modes)>,
        session: Session,
        field: &Field,
        file: &FileId,
        m: Mode,
    ) -> Asked
        requires { field.now ≡ Other file.now m }
        ensures { result ≡ answer_other selves.now self.now session file.now m }
    {
        answers::answer_other(selves.as_slice(), self, session, field, file, m)
    }

    /// The least row that keeps the session from losing its handles on the file. `selves` is as for
    /// `ModeRows::may_reap`.
    pub fn may_reap(
        &self,
        selves: &List<(Session, Modes)>,
        session: Session,
        file: &FileId,
    ) -> Option<LeaseNo>
        ensures { result ≡ reap_blocker selves.now self.now session file.now }
    {
        match first_against_reap(selves.as_slice(), self, session, file) {
            Some(row) => Some(row.no),
            None => None,
        }
    }

    /// The transaction that keeps the first row on the field that one keeps.
    pub(crate) fn lock_on(&self, field: &Field) -> Option<TxnNo>
        ensures { result ≡ lock_on field.now self.now }
    {
        match self.first(&Sought::Kept(field)) {
            Some(row) => row.lock,
            None => None,
        }
    }

    /// Whether there is the row of this number.
    #[tactic(auto, using(fs_rows::proofs::LiveSteps::found))]
    pub fn has(&self, no: LeaseNo) -> bool
        ensures { result ≡ list_any (has_no no) self.now }
    {
        self.row(no).is_some()
    }

    /// Whether there is the row of this lease of the session.
    pub fn holds(&self, no: LeaseNo, session: Session, field: &Field, kind: LeaseKind) -> bool
        ensures { result ≡ list_any (is_lease no session field.now kind) self.now }
    {
        match self.index {
            Some(_) => holds_at(self.rows, self.reading, self.skew, no, session, field, kind),
            None => self.kept().holds(no, session, field, kind),
        }
    }

    /// Copies of the rows on files that the piece gives.
    pub fn given(&self, alloc: Global, piece: &MapPiece) -> Result<List<Row>, Memory>
        ensures { IfOk result (λ moved. moved ≡
            rows_given piece.now.prefix piece.now.given self.now) }
    {
        self.kept().given(alloc, piece)
    }

    /// The least transaction that keeps a row on a file that begins with the prefix and is `me`'s.
    pub fn locked_in(&self, prefix: &FileId, map: &FileMap, me: u8) -> Option<TxnNo>
        ensures { result ≡ locked_in prefix.now map.now me self.now }
    {
        self.kept().locked_in(prefix, map, me)
    }

    /// As `ModeRows::fits`.
    pub fn fits(&self, selves: &List<(FileId, List<(Session, Modes)>)>, rows: &List<Row>) -> bool
        ensures { result ≡ fits (selves_listed selves.now) self.now rows.now }
    {
        let came = rows.as_slice();
        self.kept().fits(rows) && are_apart(selves, &Joined::of(self, came), came)
    }

    /// Whether the numbers of these rows differ from one another and from all here.
    pub fn are_new(&self, rows: &List<Row>) -> bool
        ensures { result ≡ are_new self.now rows.now }
    {
        self.kept().are_new(rows)
    }

    /// The row of this number.
    pub fn row(&self, no: LeaseNo) -> Option<&Row>
        ensures { option_copied result ≡ find (has_no no) self.now }
    {
        match self.index {
            Some(_) => live_at(self.rows, no, self.reading, self.skew),
            None => self.kept().row(no),
        }
    }

    /// The last numbers of the files right below the directory that rows are on, each once, ascending.
    pub fn borne(&self, alloc: Global, dir: &FileId) -> Result<List<u32>, Memory>
        ensures { IfOk result (AreInOrderOnce (borne_numbers dir.now self.now)) }
    {
        self.kept().borne(alloc, dir)
    }

    /// The numbers and sessions of the rows on the field that no transaction keeps, in order of number.
    pub fn unlocked_on(
        &self,
        alloc: Global,
        field: &Field,
    ) -> Result<List<(LeaseNo, Session)>, Memory>
        ensures { IfOk result (λ told. told ≡ unlocked_on field.now self.now) }
    {
        self.kept().unlocked_on(alloc, field)
    }
}
