//! A table of rows.
ghost use Rattle.std.specs.Prelude.{◌≡◌, ◌↔◌, [], true, false, not, map, IsOk, IfOk, IfErr, OnOk, OnErr};
ghost use Rattle.std.specs.List.{filter, find, list_any};
ghost use Rattle.std.specs.Option.{option_copied};
ghost use Rattle.fs_ident.specs.declared.actor.LeaseNo.{LeaseNo};
ghost use Rattle.fs_field.specs.Field.{tells_no_mode};
ghost use Rattle.fs_field.specs.Table.{has_no, renewed_row, is_live, is_lease, is_ordered, is_unlocked, locked_row, unlocked_row, rows_on, borne_numbers};
ghost use Rattle.fs_rows.specs.Moving.{are_off_modes, fits, locked_in, rows_given, rows_left};
ghost use Rattle.fs_rows.specs.Bearing.{AreInOrderOnce};
ghost use Rattle.fs_rows.specs.Answer.{answer, given_row, rows_after, IsLeastAgainst};
ghost use Rattle.fs_rows.specs.Granted.{with_rows};
ghost use Rattle.fs_rows.specs.Index.{IsIndexOf};
ghost use Rattle.fs_rows.specs.Table.{IsTable};

use crate::bounds::{lapse_from, least_end, least_known_lock, lesser, or_locks, unlock_known};
use crate::found::on_by;
use crate::index::FieldIndex;
use crate::indexed::{forget_given, forget_row};
use crate::live::Live;
use crate::moving::{add_all, drop_given};
use crate::seek::{put_row, row_at};
use crate::{grants, numbered, reads};
use fs_field::{Asked, Field, LeaseKind, Row, Unknown, table};
use fs_ident::{FileId, LeaseNo, List, Memory, Session, Twin, TxnNo};
use fs_map::{FileMap, MapPiece};
use std::alloc::Global;
use std::marker::Model;

/// The rows on life, child, names, info and own fields, in order of number. No two of them conflict.
#[derive(Debug, Drop)]
pub struct Rows {
    rows: List<Row>,
    /// Their numbers, by field.
    index: FieldIndex,
    /// No row that no transaction keeps ends sooner.
    least: u64,
    /// Whether a transaction may keep a row.
    locked: bool,
}

impl Model for Rows {
    ghost use Rattle.std.specs.Prelude.{List};
    ghost use Rattle.fs_field.specs.declared.row.Row.{Row};
    ghost use Rattle.fs_rows.specs.Bounds.{AreBounds};
    ghost use Rattle.fs_rows.specs.Index.{IsIndexOf};
    ghost use Rattle.fs_rows.specs.Table.{IsTable};

    ghost Value = { List Row };

    ghost view = { λ r. r.rows };

    ghost invariant = { λ r. IsTable r.rows × AreBounds r.least r.locked r.rows
        × IsIndexOf r.index r.rows };
}

impl Rows {
    /// The empty table, which takes no memory.
    pub fn new(alloc: Global) -> Rows
        ensures { result ≡ [] }
    {
        Rows {
            rows: List::new(alloc),
            index: FieldIndex::new(alloc),
            least: u64::MAX,
            locked: false,
        }
    }

    /// Gives the session a lease on a field that is no part of what sessions tell of modes (`Field::tells_no_mode`
    /// is the test), or tells what stands against it: a transaction that keeps a row on the field, else the least row of another session that
    /// conflicts. `no` is the lease's number, which no row has, and `until` the reading at which it ends. `Memory`
    /// when out of memory; the table is as it was then.
    pub fn ask(
        &mut self,
        alloc: Global,
        no: LeaseNo,
        session: Session,
        field: &Field,
        kind: LeaseKind,
        until: u64,
    ) -> Result<Asked, Memory>
        requires new { list_any (has_no no) self.old ≡ false }
        requires off_modes { tells_no_mode field.now ≡ true }
        ensures answer { IfOk result (λ asked. asked ≡ answer self.old session field.now kind) }
        ensures rows { IfOk result (λ asked. self.new ≡
            rows_after asked (given_row no session field.now kind until) self.old) }
        ensures err { OnErr result (self.new ≡ self.old) }
        ensures least { (blocker : LeaseNo) → result ≡ Ok (Asked.Wait blocker) →
            IsLeastAgainst self.old session field.now kind blocker }
        ensures valid { IsTable self.new }
    {
        self.least = lesser(self.least, until);
        ask(
            self.rows.items_mut(),
            &mut self.index,
            alloc,
            no,
            session,
            field,
            kind,
            until,
        )
    }

    /// The rows that are not over at the reading `now`: a transaction keeps them, or their end and the skew are not
    /// over. Nothing is dropped.
    pub fn live(&self, now: u64, skew: u64) -> Live<'_>
        ensures rows { result ≡ filter (is_live now skew) self.now }
        ensures valid { IsTable result }
    {
        Live::through(self.rows.as_slice(), &self.index, now, skew)
    }

    /// All rows, to be read: at the first reading and with some skew none is over.
    #[tactic(auto, using(crate::proofs::Goes::all_live))]
    pub fn all(&self) -> Live<'_>
        ensures same { result ≡ self.now }
        ensures valid { IsTable self.now }
    {
        self.live(0, 1)
    }

    /// Drops the rows that are over at the reading `now`, as `lapse` does, and puts in these, in order. `Memory`
    /// when out of memory; the table is as it was then.
    pub fn grant_all(
        &mut self,
        alloc: Global,
        now: u64,
        skew: u64,
        rows: List<Row>,
    ) -> Result<(), Memory>
        requires table { IsTable (with_rows rows (filter (is_live now skew) self.old)) }
        ensures ok { OnOk result (self.new ≡ with_rows rows (filter (is_live now skew) self.old)) }
        ensures err { OnErr result (self.new ≡ self.old) }
        ensures valid { IsTable self.new }
    {
        self.locked = or_locks(self.locked, rows.as_slice());
        grants::grant_all(
            self.rows.items_mut(),
            &mut self.index,
            alloc,
            &mut self.least,
            now,
            skew,
            rows,
        )
    }

    /// Lets the row of this number end no sooner than `until`; its end is never lowered. `Unknown` where there is
    /// no such row; the table is as it was then.
    pub fn renew(&mut self, no: LeaseNo, until: u64) -> Result<(), Unknown>
        ensures known { IsOk result ↔ (list_any (has_no no) self.old ≡ true) }
        ensures unknown { IfErr result (λ e. e.no ≡ no) }
        ensures ok { OnOk result (self.new ≡ map (renewed_row no until) self.old) }
        ensures err { OnErr result (self.new ≡ self.old) }
        ensures valid { IsTable self.new }
    {
        if numbered::renew(self.rows.items_mut(), no, until) {
            Ok(())
        } else {
            Err(Unknown { no })
        }
    }

    /// Drops the row of this number, and tells whether there was one.
    pub fn release(&mut self, no: LeaseNo) -> bool
        ensures found { result ≡ list_any (has_no no) self.old }
        ensures rows { self.new ≡ filter (λ r. not (has_no no r)) self.old }
        ensures valid { IsTable self.new }
    {
        forget_row(&mut self.index, self.rows.as_slice(), no);
        numbered::release(self.rows.items_mut(), no)
    }

    /// Drops the rows whose end and the skew are over at the reading `now`, but for those that a transaction keeps.
    pub fn lapse(&mut self, now: u64, skew: u64)
        ensures rows { self.new ≡ filter (is_live now skew) self.old }
        ensures valid { IsTable self.new }
    {
        self.least = lapse_from(
            self.rows.items_mut(),
            &mut self.index,
            self.least,
            now,
            skew,
        );
    }

    /// Whether there is the row of this lease of the session.
    pub fn holds(&self, no: LeaseNo, session: Session, field: &Field, kind: LeaseKind) -> bool
        ensures { result ≡ list_any (is_lease no session field.now kind) self.now }
    {
        self.all().holds(no, session, field, kind)
    }

    /// Lets the transaction keep the row of this number, and tells whether there was one that none kept.
    pub fn lock(&mut self, no: LeaseNo, txn: TxnNo) -> bool
        ensures found { result ≡ list_any (is_unlocked no) self.old }
        ensures rows { self.new ≡ map (locked_row no txn) self.old }
        ensures valid { IsTable self.new }
    {
        self.locked = true;
        numbered::lock(self.rows.items_mut(), no, txn)
    }

    /// Lets the transaction keep no row any more.
    pub fn unlock(&mut self, txn: TxnNo)
        ensures rows { self.new ≡ map (unlocked_row txn) self.old }
        ensures valid { IsTable self.new }
    {
        unlock_known(
            self.rows.items_mut(),
            &mut self.least,
            &mut self.locked,
            txn,
        );
    }

    /// The numbers and sessions of the rows on the field, in order of number, whether a transaction keeps them or
    /// not.
    pub fn on(&self, alloc: Global, field: &Field) -> Result<List<(LeaseNo, Session)>, Memory>
        ensures { IfOk result (λ told. told ≡ rows_on field.now self.now) }
    {
        rows_on(alloc, self.rows.as_slice(), &self.index, field)
    }

    /// The last numbers of the files right below the directory that rows are on, each once, ascending.
    pub fn borne(&self, alloc: Global, dir: &FileId) -> Result<List<u32>, Memory>
        ensures { IfOk result (AreInOrderOnce (borne_numbers dir.now self.now)) }
    {
        self.all().borne(alloc, dir)
    }

    /// Takes the rows on files that the piece gives out of the table: these, in order of number. `Memory` when out of
    /// memory; the table is as it was then.
    pub fn split(&mut self, alloc: Global, piece: &MapPiece) -> Result<List<Row>, Memory>
        ensures moved { IfOk result (λ moved. moved ≡
            rows_given piece.now.prefix piece.now.given self.old) }
        ensures left { OnOk result (self.new ≡
            rows_left piece.now.prefix piece.now.given self.old) }
        ensures err { OnErr result (self.new ≡ self.old) }
        ensures valid { IsTable self.new }
    {
        let moved = Live::all(self.rows.as_slice()).given(alloc, piece)?;
        forget_given(&mut self.index, self.rows.as_slice(), piece);
        drop_given(self.rows.items_mut(), piece);
        Ok(moved)
    }

    /// Drops the rows on files that the piece gives.
    pub fn leave(&mut self, piece: &MapPiece)
        ensures left { self.new ≡ rows_left piece.now.prefix piece.now.given self.old }
        ensures valid { IsTable self.new }
    {
        forget_given(&mut self.index, self.rows.as_slice(), piece);
        drop_given(self.rows.items_mut(), piece);
    }

    /// Puts in these rows, which fit (`fits` is the test) and are no part of what sessions tell of modes. `Memory` when
    /// out of memory; the table is as it was then.
    pub fn join(&mut self, alloc: Global, rows: List<Row>) -> Result<(), Memory>
        requires fits { fits self.old rows ≡ true }
        requires off_modes { are_off_modes rows ≡ true }
        ensures ok { OnOk result (self.new ≡ with_rows rows self.old) }
        ensures err { OnErr result (self.new ≡ self.old) }
        ensures valid { IsTable self.new }
    {
        self.least = lesser(self.least, least_end(rows.as_slice()));
        self.locked = or_locks(self.locked, rows.as_slice());
        add_all(self.rows.items_mut(), &mut self.index, alloc, rows)
    }

    /// Whether these rows conflict neither with one another nor with a row here, and their numbers differ from one
    /// another and from all here.
    pub fn fits(&self, rows: &List<Row>) -> bool
        ensures { result ≡ fits self.now rows.now }
    {
        self.all().fits(rows)
    }

    /// The least transaction that keeps a row on a file that begins with the prefix and is `me`'s.
    pub fn locked_in(&self, prefix: &FileId, map: &FileMap, me: u8) -> Option<TxnNo>
        ensures { result ≡ locked_in prefix.now map.now me self.now }
    {
        least_known_lock(self.rows.as_slice(), self.locked, prefix, map, me)
    }

    /// The row of this number.
    pub fn row(&self, no: LeaseNo) -> Option<&Row>
        ensures row { option_copied result ≡ find (has_no no) self.now }
        ensures valid { IsTable self.now }
    {
        row_at(self.rows.as_slice(), no)
    }
}

impl Twin for Rows {
    fn copy(&self, alloc: Global) -> Result<Rows, Memory> {
        let rows = self.rows.copy(alloc)?;
        let index = FieldIndex::of(alloc, rows.as_slice());
        Ok(Rows {
            rows,
            index,
            least: self.least,
            locked: self.locked,
        })
    }

    fn discard(self) {}
}

/// Answers the question, and adds the row where the lease is given.
fn ask(
    rows: &mut Vec<Row>,
    index: &mut FieldIndex,
    alloc: Global,
    no: LeaseNo,
    session: Session,
    field: &Field,
    kind: LeaseKind,
    until: u64,
) -> Result<Asked, Memory>
    requires ordered { is_ordered rows.old.items ≡ true }
    requires index { IsIndexOf index.old rows.old.items }
    ensures answer { IfOk result (λ asked. asked ≡ answer rows.old.items session field.now kind) }
    ensures rows { IfOk result (λ asked. rows.new.items ≡
        rows_after asked (given_row no session field.now kind until) rows.old.items) }
    ensures err { OnErr result (rows.new.items ≡ rows.old.items) }
    ensures index { IsIndexOf index.new rows.new.items }
{
    let asked = answer(rows, index, session, field, kind);
    if let Asked::Granted { .. } = asked {
        let row = Row {
            no,
            session,
            field: field.copy(alloc)?,
            kind,
            until,
            promise: None,
            lock: None,
        };
        put_row(rows, row)?;
        index.add(alloc, field, no);
    }
    Ok(asked)
}

/// What the question is answered.
#[tactic(auto, using(crate::proofs::Goes::all_live))]
fn answer(
    rows: &[Row],
    index: &FieldIndex,
    session: Session,
    field: &Field,
    kind: LeaseKind,
) -> Asked
    requires ordered { is_ordered rows.now ≡ true }
    requires index { IsIndexOf index.now rows.now }
    ensures { result ≡ answer rows.now session field.now kind }
{
    reads::answer(rows, Some(index), 0, 1, session, field, kind)
}

/// The numbers and sessions of the rows on the field.
fn rows_on(
    alloc: Global,
    rows: &[Row],
    index: &FieldIndex,
    field: &Field,
) -> Result<List<(LeaseNo, Session)>, Memory>
    requires ordered { is_ordered rows.now ≡ true }
    requires index { IsIndexOf index.now rows.now }
    ensures { IfOk result (λ told. told ≡ rows_on field.now rows.now) }
{
    if index.is_whole() {
        on_by(alloc, rows, index, field)
    } else {
        table::rows_on(alloc, rows, field)
    }
}
