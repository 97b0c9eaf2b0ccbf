//! A table of rows on modes.
ghost use Rattle.std.specs.Prelude.{◌≡◌, ◌↔◌, [], true, false, not, map, IsOk, IfOk, IfErr, OnOk, OnErr, Some};
ghost use Rattle.std.specs.List.{filter, find, list_any};
ghost use Rattle.std.specs.Option.{option_copied};
ghost use Rattle.fs_ident.specs.declared.actor.LeaseNo.{LeaseNo as Number};
ghost use Rattle.fs_field.specs.declared.field.Field.TheVariants.{SelfW, Other};
ghost use Rattle.fs_field.specs.declared.lease_kind.LeaseKind.TheVariants.{Shared, Exclusive};
ghost use Rattle.fs_field.specs.Table.{has_no, renewed_row, is_live, is_lease, is_ordered, is_unlocked, locked_row, unlocked_row, rows_on, borne_numbers};
ghost use Rattle.fs_rows.specs.Bearing.{AreInOrderOnce};
ghost use Rattle.fs_rows.specs.Bounds.{EndNoSooner};
ghost use Rattle.fs_rows.specs.Moving.{are_new, locked_in, rows_given, rows_left};
ghost use Rattle.fs_moderows.specs.Moving.{are_on_modes, fits, selves_listed};
ghost use Rattle.fs_moderows.specs.Answer.{answer_self, answer_other, stands_against_self, stands_against_reap, is_self_of_other, given_row, rows_after, reap_blocker, IsLeast};
ghost use Rattle.fs_moderows.specs.Index.{IsIndexOf};
ghost use Rattle.fs_moderows.specs.Table.{IsModeTable};
ghost use Rattle.fs_rows.specs.Granted.{with_rows};
ghost use Rattle.fs_rows.specs.Table.{IsTable};

use crate::answers;
use crate::bounds::{lapse_from, least_known_lock, unlock_known};
use crate::index::FileIndex;
use crate::indexed::{forget_given, forget_row, note_each};
use crate::live::Live;
use crate::putting::put_each;
use fs_field::{Asked, Field, LeaseKind, Row, Unknown, table};
use fs_ident::{FileId, LeaseNo, List, Memory, Session, Twin, TxnNo};
use fs_map::{FileMap, MapPiece};
use fs_modes::{Mode, Modes};
use fs_rows::{
    Rows, drop_given, holds_at, least_end, lesser, numbered, or_locks, put_in_order, row_at,
};
use std::alloc::Global;
use std::marker::Model;

/// The rows on what sessions tell of modes, in order of number: exclusive ones that let a session change what it tells
/// of a mode, and shared ones that promise a session whether others have it. What stands against a lease depends on
/// who has handles on the file, which the caller tells.
#[derive(Debug, Drop)]
pub struct ModeRows {
    rows: List<Row>,
    /// Their numbers, by file.
    index: FileIndex,
    /// No row that no transaction keeps ends sooner.
    least: u64,
    /// Whether a transaction may keep a row.
    locked: bool,
}

impl Model for ModeRows {
    ghost use Rattle.std.specs.Prelude.{List};
    ghost use Rattle.fs_field.specs.declared.row.Row.{Row};
    ghost use Rattle.fs_rows.specs.Bounds.{AreBounds};
    ghost use Rattle.fs_moderows.specs.Index.{IsIndexOf};
    ghost use Rattle.fs_moderows.specs.Table.{IsModeTable};

    ghost Value = { List Row };

    ghost view = { λ r. r.rows };

    ghost invariant = { λ r. IsModeTable r.rows × AreBounds r.least r.locked r.rows
        × IsIndexOf r.index r.rows };
}

impl ModeRows {
    /// The empty table, which takes no memory.
    pub fn new(alloc: Global) -> ModeRows
        ensures { result ≡ [] }
    {
        ModeRows {
            rows: List::new(alloc),
            index: FileIndex::new(alloc),
            least: u64::MAX,
            locked: false,
        }
    }

    /// Lets the session change whether it has the mode on the file, or tells what stands against it: a transaction
    /// that keeps a row on that field, else the least row by which another session was told of others what this one
    /// could make untrue. `selves` has the sessions with handles on the file, each once, with the modes of its
    /// handles together. `no` is the lease's number, which no row has, and `until` the reading at which it ends.
    /// `Memory` when out of memory; the table is as it was then.
    pub fn ask_self(
        &mut self,
        alloc: Global,
        selves: &List<(Session, Modes)>,
        no: LeaseNo,
        session: Session,
        file: &FileId,
        m: Mode,
        until: u64,
    ) -> Result<Asked, Memory>
        requires new { list_any (has_no no) self.old ≡ false }
        ensures answer { IfOk result (λ asked. asked ≡
            answer_self selves.now self.old session file.now m) }
        ensures rows { IfOk result (λ asked. self.new ≡
            rows_after asked (given_row no session (SelfW file.now m) Exclusive until) self.old) }
        ensures err { OnErr result (self.new ≡ self.old) }
        ensures least { (blocker : Number) → result ≡ Ok (Asked.Wait blocker) →
            IsLeast (stands_against_self selves.now self.old session file.now m) self.old blocker }
        ensures valid { IsModeTable self.new }
    {
        self.least = lesser(self.least, until);
        ask_self(
            self.rows.items_mut(),
            &mut self.index,
            alloc,
            selves.as_slice(),
            no,
            session,
            file,
            m,
            until,
        )
    }

    /// Tells the session whether another has the mode on the file, and keeps it so as long as the row stands, or tells
    /// what stands against it: a transaction that keeps a row on that field, else the least row by which another
    /// session may change what it tells. `selves` has the sessions with handles on the file, each once, with the modes
    /// of its handles together. `no` is the lease's number, which no row has, and `until` the reading at which it ends.
    /// `Memory` when out of memory; the table is as it was then.
    pub fn ask_other(
        &mut self,
        alloc: Global,
        selves: &List<(Session, Modes)>,
        no: LeaseNo,
        session: Session,
        file: &FileId,
        m: Mode,
        until: u64,
    ) -> Result<Asked, Memory>
        requires new { list_any (has_no no) self.old ≡ false }
        ensures answer { IfOk result (λ asked. asked ≡
            answer_other selves.now self.old session file.now m) }
        ensures rows { IfOk result (λ asked. self.new ≡
            rows_after asked (given_row no session (Other file.now m) Shared until) self.old) }
        ensures err { OnErr result (self.new ≡ self.old) }
        ensures least { (blocker : Number) → result ≡ Ok (Asked.Wait blocker) →
            IsLeast (is_self_of_other file.now m session) self.old blocker }
        ensures valid { IsModeTable self.new }
    {
        self.least = lesser(self.least, until);
        ask_other(
            self.rows.items_mut(),
            &mut self.index,
            alloc,
            selves.as_slice(),
            no,
            session,
            file,
            m,
            until,
        )
    }

    /// The least row by which another session was told that others have a mode on the file, and that would become
    /// untrue if this session lost its handles on it. None where it may lose them. `selves` is as for `ask_self`.
    pub fn may_reap(
        &self,
        selves: &List<(Session, Modes)>,
        session: Session,
        file: &FileId,
    ) -> Option<LeaseNo>
        ensures blocker { result ≡ reap_blocker selves.now self.now session file.now }
        ensures least { (blocker : Number) → result ≡ Some blocker →
            IsLeast (stands_against_reap selves.now self.now session file.now) self.now blocker }
    {
        self.all().may_reap(selves, session, file)
    }

    /// The rows that are not over at the reading `now`: a transaction keeps them, or their end and the skew are not
    /// over. Nothing is dropped.
    pub fn live(&self, now: u64, skew: u64) -> Live<'_>
        ensures rows { result ≡ filter (is_live now skew) self.now }
        ensures valid { IsModeTable result }
    {
        Live::through(self.rows.as_slice(), &self.index, now, skew)
    }

    /// All rows, to be read: at the first reading and with some skew none is over.
    #[tactic(auto, using(fs_rows::proofs::Goes::all_live))]
    pub fn all(&self) -> Live<'_>
        ensures same { result ≡ self.now }
        ensures valid { IsModeTable self.now }
    {
        self.live(0, 1)
    }

    /// Drops the rows that are over at the reading `now`, as `lapse` does, and puts in these, in order; and the same in
    /// the table beside, with the others. `Memory` when out of memory; both tables are as they were then.
    pub fn grant_all(
        &mut self,
        alloc: Global,
        now: u64,
        skew: u64,
        rows: List<Row>,
        beside: &mut Rows,
        others: List<Row>,
    ) -> Result<(), Memory>
        requires table { IsModeTable (with_rows rows (filter (is_live now skew) self.old)) }
        requires beside { IsTable (with_rows others (filter (is_live now skew) beside.old)) }
        ensures ok { OnOk result (self.new ≡ with_rows rows (filter (is_live now skew) self.old)) }
        ensures err { OnErr result (self.new ≡ self.old) }
        ensures valid { IsModeTable self.new }
        ensures ok_beside { OnOk result (beside.new ≡
            with_rows others (filter (is_live now skew) beside.old)) }
        ensures err_beside { OnErr result (beside.new ≡ beside.old) }
    {
        self.locked = or_locks(self.locked, rows.as_slice());
        grant_all(
            self.rows.items_mut(),
            &mut self.index,
            alloc,
            &mut self.least,
            now,
            skew,
            rows,
            beside,
            others,
        )
    }

    /// Lets the row of this number end no sooner than `until`; its end is never lowered. `Unknown` where there is
    /// no such row; the table is as it was then.
    pub fn renew(&mut self, no: LeaseNo, until: u64) -> Result<(), Unknown>
        ensures known { IsOk result ↔ (list_any (has_no no) self.old ≡ true) }
        ensures unknown { IfErr result (λ e. e.no ≡ no) }
        ensures ok { OnOk result (self.new ≡ map (renewed_row no until) self.old) }
        ensures err { OnErr result (self.new ≡ self.old) }
        ensures valid { IsModeTable self.new }
    {
        if numbered::renew(self.rows.items_mut(), no, until) {
            Ok(())
        } else {
            Err(Unknown { no })
        }
    }

    /// Drops the row of this number, and tells whether there was one.
    pub fn release(&mut self, no: LeaseNo) -> bool
        ensures found { result ≡ list_any (has_no no) self.old }
        ensures rows { self.new ≡ filter (λ r. not (has_no no r)) self.old }
        ensures valid { IsModeTable self.new }
    {
        forget_row(&mut self.index, self.rows.as_slice(), no);
        numbered::release(self.rows.items_mut(), no)
    }

    /// Drops the rows whose end and the skew are over at the reading `now`, but for those that a transaction keeps.
    pub fn lapse(&mut self, now: u64, skew: u64)
        ensures rows { self.new ≡ filter (is_live now skew) self.old }
        ensures valid { IsModeTable self.new }
    {
        self.least = lapse_from(
            self.rows.items_mut(),
            &mut self.index,
            self.least,
            now,
            skew,
        );
    }

    /// Whether there is the row of this lease of the session.
    #[tactic(auto, using(fs_rows::proofs::Goes::all_live))]
    pub fn holds(&self, no: LeaseNo, session: Session, field: &Field, kind: LeaseKind) -> bool
        ensures { result ≡ list_any (is_lease no session field.now kind) self.now }
    {
        holds_at(self.rows.as_slice(), 0, 1, no, session, field, kind)
    }

    /// Lets the transaction keep the row of this number, and tells whether there was one that none kept.
    pub fn lock(&mut self, no: LeaseNo, txn: TxnNo) -> bool
        ensures found { result ≡ list_any (is_unlocked no) self.old }
        ensures rows { self.new ≡ map (locked_row no txn) self.old }
        ensures valid { IsModeTable self.new }
    {
        self.locked = true;
        numbered::lock(self.rows.items_mut(), no, txn)
    }

    /// Lets the transaction keep no row any more.
    pub fn unlock(&mut self, txn: TxnNo)
        ensures rows { self.new ≡ map (unlocked_row txn) self.old }
        ensures valid { IsModeTable self.new }
    {
        unlock_known(
            self.rows.items_mut(),
            &mut self.least,
            &mut self.locked,
            txn,
        );
    }

    /// The numbers and sessions of the rows on the field, in order of number, whether a transaction keeps them or
    /// not.
    pub fn on(&self, alloc: Global, field: &Field) -> Result<List<(LeaseNo, Session)>, Memory>
        ensures { IfOk result (λ told. told ≡ rows_on field.now self.now) }
    {
        table::rows_on(alloc, self.rows.as_slice(), field)
    }

    /// The last numbers of the files right below the directory that rows are on, each once, ascending.
    pub fn borne(&self, alloc: Global, dir: &FileId) -> Result<List<u32>, Memory>
        ensures { IfOk result (AreInOrderOnce (borne_numbers dir.now self.now)) }
    {
        let mut told = table::borne(alloc, self.rows.as_slice(), dir)?;
        put_in_order(told.items_mut());
        Ok(told)
    }

    /// Takes the rows on files that the piece gives out of the table: these, in order of number. `Memory` when out of
    /// memory; the table is as it was then.
    pub fn split(&mut self, alloc: Global, piece: &MapPiece) -> Result<List<Row>, Memory>
        ensures moved { IfOk result (λ moved. moved ≡
            rows_given piece.now.prefix piece.now.given self.old) }
        ensures left { OnOk result (self.new ≡
            rows_left piece.now.prefix piece.now.given self.old) }
        ensures err { OnErr result (self.new ≡ self.old) }
        ensures valid { IsModeTable self.new }
    {
        let moved = Live::all(self.rows.as_slice()).given(alloc, piece)?;
        forget_given(&mut self.index, self.rows.as_slice(), piece);
        drop_given(self.rows.items_mut(), piece);
        Ok(moved)
    }

    /// Drops the rows on files that the piece gives.
    pub fn leave(&mut self, piece: &MapPiece)
        ensures left { self.new ≡ rows_left piece.now.prefix piece.now.given self.old }
        ensures valid { IsModeTable self.new }
    {
        forget_given(&mut self.index, self.rows.as_slice(), piece);
        drop_given(self.rows.items_mut(), piece);
    }

    /// Puts in these rows, which are on what sessions tell of modes and have new numbers. `Memory` when out of
    /// memory; the table is as it was then.
    pub fn join(&mut self, alloc: Global, rows: List<Row>) -> Result<(), Memory>
        requires new { are_new self.old rows ≡ true }
        requires on_modes { are_on_modes rows ≡ true }
        ensures ok { OnOk result (self.new ≡ with_rows rows self.old) }
        ensures err { OnErr result (self.new ≡ self.old) }
        ensures valid { IsModeTable self.new }
    {
        self.least = lesser(self.least, least_end(rows.as_slice()));
        self.locked = or_locks(self.locked, rows.as_slice());
        join(self.rows.items_mut(), &mut self.index, alloc, rows)
    }

    /// Whether these rows conflict neither with one another nor with a row here, all in one table, and their numbers
    /// differ from one another and from all here. `selves` has files with the sessions that have handles on each, and the
    /// modes of each session's handles together; a file that is not there has none.
    pub fn fits(&self, selves: &List<(FileId, List<(Session, Modes)>)>, rows: &List<Row>) -> bool
        ensures { result ≡ fits (selves_listed selves.now) self.now rows.now }
    {
        Live::all(self.rows.as_slice()).fits(selves, rows)
    }

    /// The least transaction that keeps a row on a file that begins with the prefix and is `me`'s.
    pub fn locked_in(&self, prefix: &FileId, map: &FileMap, me: u8) -> Option<TxnNo>
        ensures { result ≡ locked_in prefix.now map.now me self.now }
    {
        least_known_lock(self.rows.as_slice(), self.locked, prefix, map, me)
    }

    /// The row of this number.
    pub fn row(&self, no: LeaseNo) -> Option<&Row>
        ensures row { option_copied result ≡ find (has_no no) self.now }
        ensures valid { IsModeTable self.now }
    {
        row_at(self.rows.as_slice(), no)
    }
}

impl Twin for ModeRows {
    fn copy(&self, alloc: Global) -> Result<ModeRows, Memory> {
        Ok(ModeRows {
            rows: self.rows.copy(alloc)?,
            index: self.index.copy(alloc)?,
            least: self.least,
            locked: self.locked,
        })
    }

    fn discard(self) {}
}

/// Answers the question, and adds the row where the lease is given.
fn ask_self(
    rows: &mut Vec<Row>,
    index: &mut FileIndex,
    alloc: Global,
    selves: &[(Session, Modes)],
    no: LeaseNo,
    session: Session,
    file: &FileId,
    m: Mode,
    until: u64,
) -> Result<Asked, Memory>
    requires ordered { is_ordered rows.old.items ≡ true }
    requires index { IsIndexOf index.old rows.old.items }
    ensures answer { IfOk result (λ asked. asked ≡
        answer_self selves.now rows.old.items session file.now m) }
    ensures rows { IfOk result (λ asked. rows.new.items ≡
        rows_after asked (given_row no session (SelfW file.now m) Exclusive until) rows.old.items) }
    ensures err { OnErr result (rows.new.items ≡ rows.old.items) }
    ensures index { IsIndexOf index.new rows.new.items }
{
    let field = Field::SelfW(file.copy(alloc)?, m);
    let live = Live::whole(rows, index);
    let asked = answers::answer_self(selves, &live, session, &field, file, m);
    let kind = LeaseKind::Exclusive;
    answers::give(rows, index, alloc, asked, no, session, field, kind, until)?;
    Ok(asked)
}

fn ask_other(
    rows: &mut Vec<Row>,
    index: &mut FileIndex,
    alloc: Global,
    selves: &[(Session, Modes)],
    no: LeaseNo,
    session: Session,
    file: &FileId,
    m: Mode,
    until: u64,
) -> Result<Asked, Memory>
    requires ordered { is_ordered rows.old.items ≡ true }
    requires index { IsIndexOf index.old rows.old.items }
    ensures answer { IfOk result (λ asked. asked ≡
        answer_other selves.now rows.old.items session file.now m) }
    ensures rows { IfOk result (λ asked. rows.new.items ≡
        rows_after asked (given_row no session (Other file.now m) Shared until) rows.old.items) }
    ensures err { OnErr result (rows.new.items ≡ rows.old.items) }
    ensures index { IsIndexOf index.new rows.new.items }
{
    let field = Field::Other(file.copy(alloc)?, m);
    let live = Live::whole(rows, index);
    let asked = answers::answer_other(selves, &live, session, &field, file, m);
    let kind = LeaseKind::Shared;
    answers::give(rows, index, alloc, asked, no, session, field, kind, until)?;
    Ok(asked)
}

/// Room is made first, then the table beside takes its rows or fails, and the rest cannot fail.
fn grant_all(
    rows: &mut Vec<Row>,
    index: &mut FileIndex,
    alloc: Global,
    least: &mut u64,
    now: u64,
    skew: u64,
    more: List<Row>,
    beside: &mut Rows,
    others: List<Row>,
) -> Result<(), Memory>
    requires ends { EndNoSooner least.old rows.old.items }
    requires ordered { is_ordered rows.old.items ≡ true }
    requires index { IsIndexOf index.old rows.old.items }
    requires table { IsModeTable (with_rows more (filter (is_live now skew) rows.old.items)) }
    requires beside { IsTable (with_rows others (filter (is_live now skew) beside.old)) }
    ensures ok { OnOk result (rows.new.items ≡
        with_rows more (filter (is_live now skew) rows.old.items)) }
    ensures err { OnErr result (rows.new.items ≡ rows.old.items) }
    ensures ends { EndNoSooner least.new rows.new.items }
    ensures index { IsIndexOf index.new rows.new.items }
    ensures ok_beside { OnOk result (beside.new ≡
        with_rows others (filter (is_live now skew) beside.old)) }
    ensures err_beside { OnErr result (beside.new ≡ beside.old) }
{
    rows.reserve(more.len())?;
    beside.grant_all(alloc, now, skew, others)?;
    let ends = least_end(more.as_slice());
    let left = lapse_from(rows, index, *least, now, skew);
    *least = lesser(left, ends);
    note_each(index, alloc, more.as_slice());
    put_each(rows, more);
    Ok(())
}

/// Puts in the rows, in order. Room is made first, and nothing can fail then.
fn join(
    rows: &mut Vec<Row>,
    index: &mut FileIndex,
    alloc: Global,
    came: List<Row>,
) -> Result<(), Memory>
    requires ordered { is_ordered (with_rows came rows.old.items) ≡ true }
    requires index { IsIndexOf index.old rows.old.items }
    ensures ok { OnOk result (rows.new.items ≡ with_rows came rows.old.items) }
    ensures err { OnErr result (rows.new.items ≡ rows.old.items) }
    ensures index { IsIndexOf index.new rows.new.items }
{
    rows.reserve(came.len())?;
    note_each(index, alloc, came.as_slice());
    put_each(rows, came);
    Ok(())
}
