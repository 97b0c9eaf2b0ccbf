//! The rows that are not over at a reading, while the table is only read.
ghost use Rattle.std.specs.Prelude.{◌≡◌, ◌==◌, ◌&&◌, true, IfOk};
ghost use Rattle.std.specs.List.{filter, find, list_any};
ghost use Rattle.std.specs.Option.{option_copied};
ghost use Rattle.fs_field.specs.Field.{same_field};
ghost use Rattle.fs_field.specs.declared.row.Row.{Row as TheRow};
ghost use Rattle.fs_field.specs.Table.{has_no, is_lease, is_live, is_ordered, lock_on, borne_numbers};
ghost use Rattle.fs_rows.specs.Bearing.{AreInOrderOnce};
ghost use Rattle.fs_rows.specs.Answer.{answer};
ghost use Rattle.fs_rows.specs.Index.{IsIndexOf};
ghost use Rattle.fs_rows.specs.Live.{unlocked_on};
ghost use Rattle.fs_rows.specs.Moving.{are_new, fits, locked_in, rows_given};

use crate::index::FieldIndex;
use crate::{moving, reads};
use fs_field::{Asked, Field, LeaseKind, Row};
use fs_ident::{FileId, LeaseNo, List, Memory, Session, TxnNo};
use fs_map::{FileMap, MapPiece};
use std::alloc::Global;
use std::marker::Model;

/// The rows of a table that are not over at a reading: a transaction keeps them, or their end and the skew are not
/// over. Nothing is copied.
#[derive(Drop)]
pub struct Live<'a> {
    rows: &'a [Row],
    index: Option<&'a FieldIndex>,
    reading: u64,
    skew: u64,
}

impl<'a> Model for Live<'a> {
    ghost use Rattle.std.specs.Prelude.{List};
    ghost use Rattle.std.specs.List.{filter};
    ghost use Rattle.fs_field.specs.declared.row.Row.{Row};
    ghost use Rattle.fs_field.specs.Table.{is_live};
    ghost use Rattle.fs_rows.specs.Index.{IsSeen};

    ghost Value = { List Row };

    ghost view = { λ l. filter (is_live l.reading l.skew) l.rows.now };

    ghost invariant = { λ l. IsSeen l.index l.rows.now };
}

impl<'a> Live<'a> {
    /// Those of these rows that are not over at the reading `now`.
    pub fn at(rows: &'a [Row], now: u64, skew: u64) -> Live<'a>
        ensures { result ≡ filter (is_live now skew) rows.now }
    {
        Live {
            rows,
            index: None,
            reading: now,
            skew,
        }
    }

    /// Those of these rows, which are in order and have this index, that are not over at the reading `now`.
    pub(crate) fn through(rows: &'a [Row], index: &'a FieldIndex, now: u64, skew: u64) -> Live<'a>
        requires index { IsIndexOf index.now rows.now }
        requires ordered { is_ordered rows.now ≡ true }
        ensures { result ≡ filter (is_live now skew) rows.now }
    {
        Live {
            rows,
            index: Some(index),
            reading: now,
            skew,
        }
    }

    /// What a question for such a lease would be answered.
    pub fn answer(&self, session: Session, field: &Field, kind: LeaseKind) -> Asked
        ensures { result ≡ answer self.now session field.now kind }
    {
        reads::answer(
            self.rows,
            self.index,
            self.reading,
            self.skew,
            session,
            field,
            kind,
        )
    }

    /// The transaction that keeps the first row on the field that one keeps.
    pub fn lock_on(&self, field: &Field) -> Option<TxnNo>
        ensures { result ≡ lock_on field.now self.now }
    {
        reads::lock_on(self.rows, self.index, self.reading, self.skew, field)
    }

    /// Whether there is the row of this number.
    pub fn has(&self, no: LeaseNo) -> bool
        ensures { result ≡ list_any (has_no no) self.now }
    {
        reads::has(self.rows, self.index, self.reading, self.skew, no)
    }

    /// Whether there is the row of this lease of the session.
    pub fn holds(&self, no: LeaseNo, session: Session, field: &Field, kind: LeaseKind) -> bool
        ensures { result ≡ list_any (is_lease no session field.now kind) self.now }
    {
        reads::holds(
            self.rows,
            self.index,
            self.reading,
            self.skew,
            no,
            session,
            field,
            kind,
        )
    }

    /// Whether there is a row of the session on the field.
    pub fn has_on(&self, field: &Field, session: Session) -> bool
        ensures { result ≡ list_any (λ (r : TheRow).
            same_field r.field field.now && (r.session.0 == session.0)) self.now }
    {
        reads::has_on(
            self.rows,
            self.index,
            self.reading,
            self.skew,
            field,
            session,
        )
    }

    /// All rows of the table: a reading at which none is over.
    #[tactic(auto, using(crate::proofs::Goes::all_live))]
    pub fn all(rows: &'a [Row]) -> Live<'a>
        ensures { result ≡ rows.now }
    {
        Live::at(rows, 0, 1)
    }

    /// Copies of the rows on files that the piece gives.
    pub fn given(&self, alloc: Global, piece: &MapPiece) -> Result<List<Row>, Memory>
        ensures { IfOk result (λ moved. moved ≡
            rows_given piece.now.prefix piece.now.given self.now) }
    {
        moving::copy_given(alloc, self.rows, self.reading, self.skew, piece)
    }

    /// The least transaction that keeps a row on a file that begins with the prefix and is `me`'s.
    pub fn locked_in(&self, prefix: &FileId, map: &FileMap, me: u8) -> Option<TxnNo>
        ensures { result ≡ locked_in prefix.now map.now me self.now }
    {
        moving::least_lock(self.rows, self.reading, self.skew, prefix, map, me)
    }

    /// Whether these rows conflict neither with one another nor with a row here, and their numbers differ from one
    /// another and from all here.
    pub fn fits(&self, rows: &List<Row>) -> bool
        ensures { result ≡ fits self.now rows.now }
    {
        moving::fit(
            self.rows,
            self.index,
            self.reading,
            self.skew,
            rows.as_slice(),
        )
    }

    /// Whether the numbers of these rows differ from one another and from all here.
    pub fn are_new(&self, rows: &List<Row>) -> bool
        ensures { result ≡ are_new self.now rows.now }
    {
        moving::are_new(
            self.rows,
            self.index,
            self.reading,
            self.skew,
            rows.as_slice(),
        )
    }

    /// The row of this number.
    pub fn row(&self, no: LeaseNo) -> Option<&'a Row>
        ensures { option_copied result ≡ find (has_no no) self.now }
    {
        reads::row(self.rows, self.index, self.reading, self.skew, no)
    }

    /// The last numbers of the files right below the directory that rows are on, each once, ascending.
    pub fn borne(&self, alloc: Global, dir: &FileId) -> Result<List<u32>, Memory>
        ensures { IfOk result (AreInOrderOnce (borne_numbers dir.now self.now)) }
    {
        reads::borne(alloc, self.rows, self.index, self.reading, self.skew, dir)
    }

    /// The numbers and sessions of the rows on the field that no transaction keeps, in order of number.
    pub fn unlocked_on(
        &self,
        alloc: Global,
        field: &Field,
    ) -> Result<List<(LeaseNo, Session)>, Memory>
        ensures { IfOk result (λ told. told ≡ unlocked_on field.now self.now) }
    {
        reads::unlocked_on(alloc, self.rows, self.index, self.reading, self.skew, field)
    }
}
