//! All rows of a server.
ghost use Rattle.std.specs.Prelude.{◌≡◌, [], not, map, true, OnOk, OnErr};
ghost use Rattle.std.specs.List.{filter};
ghost use Rattle.fs_field.specs.Table.{has_no, renewed_row, is_live, locked_row, unlocked_row};
ghost use Rattle.fs_map.specs.Lists.{map_after_take};
ghost use Rattle.fs_parcel.specs.Parcel.{fits};
ghost use Rattle.fs_record.specs.Moving.{AreNumbersLeft, with_records};
ghost use Rattle.fs_rows.specs.Granted.{with_rows};
ghost use Rattle.fs_rows.specs.Moving.{rows_left};
ghost use Rattle.fs_server.specs.Rows.{AreRows};

use crate::all_live::AllLive;
use fs_field::Row;
use fs_ident::{LeaseNo, List, Memory, Twin, TxnNo};
use fs_map::{FileMap, MapPiece};
use fs_moderows::ModeRows;
use fs_parcel::{Parts, install_at};
use fs_record::{Parcel, Records};
use fs_rows::Rows;
use std::alloc::Global;
use std::marker::Model;

/// The rows of a server, in order of number: those on what sessions tell of modes stand in one table, and all others in
/// another.
#[derive(Drop)]
pub(crate) struct AllRows {
    plain: Rows,
    modes: ModeRows,
}

impl Model for AllRows {
    ghost use Rattle.std.specs.Prelude.{List};
    ghost use Rattle.fs_field.specs.declared.row.Row.{Row};
    ghost use Rattle.fs_rows.specs.Table.{IsTable};
    ghost use Rattle.fs_moderows.specs.Table.{IsModeTable};
    ghost use Rattle.fs_server.specs.Rows.{AreRows, in_one_list};

    ghost Value = { List Row };

    ghost view = { λ r. in_one_list r.plain r.modes };

    ghost invariant = { λ r. IsTable r.plain ×
        (IsModeTable r.modes × AreRows (in_one_list r.plain r.modes)) };
}

impl AllRows {
    /// No row, which takes no memory.
    pub(crate) fn new(alloc: Global) -> AllRows
        ensures { result ≡ [] }
    {
        AllRows {
            plain: Rows::new(alloc),
            modes: ModeRows::new(alloc),
        }
    }

    /// The rows that are not over at the reading `now`: a transaction keeps them, or their end and the skew are not
    /// over. Nothing is dropped.
    pub(crate) fn live(&self, now: u64, skew: u64) -> AllLive<'_>
        ensures rows { result ≡ filter (is_live now skew) self.now }
        ensures valid { AreRows result }
    {
        AllLive::at(&self.plain, &self.modes, now, skew)
    }

    /// Drops the rows whose end and the skew are over at the reading `now`, but for those that a transaction keeps.
    pub(crate) fn lapse(&mut self, now: u64, skew: u64)
        ensures { self.new ≡ filter (is_live now skew) self.old }
    {
        self.plain.lapse(now, skew);
        self.modes.lapse(now, skew);
    }

    /// Drops the rows that are over at the reading `now`, as `lapse` does, and puts in these, in order. `Memory`
    /// when out of memory; the rows are as they were then.
    pub(crate) fn grant_all(
        &mut self,
        alloc: Global,
        now: u64,
        skew: u64,
        rows: List<Row>,
    ) -> Result<(), Memory>
        requires { AreRows (with_rows rows (filter (is_live now skew) self.old)) }
        ensures ok { OnOk result (self.new ≡ with_rows rows (filter (is_live now skew) self.old)) }
        ensures err { OnErr result (self.new ≡ self.old) }
    {
        let parts = Parts::of(alloc, rows)?;
        self.modes.grant_all(alloc, now, skew, parts.modes, &mut self.plain, parts.plain)
    }

    /// Lets the row of this number, where there is one, end no sooner than `until`; its end is never lowered.
    pub(crate) fn renew(&mut self, no: LeaseNo, until: u64)
        ensures { self.new ≡ map (renewed_row no until) self.old }
    {
        let _ = self.plain.renew(no, until);
        let _ = self.modes.renew(no, until);
    }

    /// Lets the transaction keep the row of this number, where there is one that none keeps.
    pub(crate) fn lock(&mut self, no: LeaseNo, txn: TxnNo)
        ensures { self.new ≡ map (locked_row no txn) self.old }
    {
        self.plain.lock(no, txn);
        self.modes.lock(no, txn);
    }

    /// Lets the transaction keep no row any more.
    pub(crate) fn unlock(&mut self, txn: TxnNo)
        ensures { self.new ≡ map (unlocked_row txn) self.old }
    {
        self.plain.unlock(txn);
        self.modes.unlock(txn);
    }

    /// Drops the row of this number, where there is one.
    pub(crate) fn release(&mut self, no: LeaseNo)
        ensures { self.new ≡ filter (λ r. not (has_no no r)) self.old }
    {
        self.plain.release(no);
        self.modes.release(no);
    }

    /// Drops the rows on files that the piece gives.
    pub(crate) fn leave(&mut self, piece: &MapPiece)
        ensures { self.new ≡ rows_left piece.now.prefix piece.now.given self.old }
    {
        self.plain.leave(piece);
        self.modes.leave(piece);
    }

    /// Drops the rows that are over at the reading `now`, as `lapse` does, and puts all of the parcel, which fits among
    /// the others, in its place at `me`. `Memory` when out of memory; all is as it was then.
    pub(crate) fn install(
        &mut self,
        alloc: Global,
        records: &mut Records,
        map: &mut FileMap,
        me: u8,
        now: u64,
        skew: u64,
        p: Parcel,
    ) -> Result<(), Memory>
        requires fits { fits records.old (filter (is_live now skew) self.old) map.old me p ≡ true }
        requires nexts { AreNumbersLeft p.records }
        ensures rows { OnOk result
            (self.new ≡ with_rows p.rows (filter (is_live now skew) self.old)) }
        ensures records { OnOk result (records.new ≡ with_records p.records records.old) }
        ensures map { OnOk result (map.new ≡ map_after_take map.old me p.prefix p.piece.given) }
        ensures err_rows { OnErr result (self.new ≡ self.old) }
        ensures err_records { OnErr result (records.new ≡ records.old) }
        ensures err_map { OnErr result (map.new ≡ map.old) }
    {
        install_at(
            alloc,
            records,
            &mut self.plain,
            &mut self.modes,
            map,
            me,
            now,
            skew,
            p,
        )
    }
}

impl Twin for AllRows {
    fn copy(&self, alloc: Global) -> Result<AllRows, Memory> {
        Ok(AllRows {
            plain: self.plain.copy(alloc)?,
            modes: self.modes.copy(alloc)?,
        })
    }

    fn discard(self) {}
}
