//! Parcels, installed where they come.
ghost use Rattle.std.specs.Prelude.{◌≡◌, true, OnOk, OnErr};
ghost use Rattle.std.specs.List.{filter};
ghost use Rattle.fs_field.specs.Table.{is_live};
ghost use Rattle.fs_map.specs.Lists.{map_after_take};
ghost use Rattle.fs_moderows.specs.Table.{IsModeTable};
ghost use Rattle.fs_record.specs.Moving.{AreEachRecords, AreNumbersLeft, are_absent, are_distinct, with_records};
ghost use Rattle.fs_rows.specs.Granted.{with_rows};
ghost use Rattle.fs_rows.specs.Table.{IsTable};
ghost use Rattle.fs_parcel.specs.Parcel.{fits};
ghost use Rattle.fs_parcel.specs.Rows.{are_one_list, in_one_list, rows_off_modes, rows_on_modes};

use crate::parts::Parts;
use fs_ident::Memory;
use fs_map::FileMap;
use fs_moderows::ModeRows;
use fs_record::{Parcel, Records};
use fs_rows::Rows;
use std::alloc::Global;

/// Puts all of the parcel in its place at `me`, which manages what it gives from now on. `Memory` when out of
/// memory; all is as it was then. No number stands in both tables. Each record that comes
/// has a next number from 1 to 4294967296: `Record::has_number_left` is the test.
pub fn install(
    alloc: Global,
    records: &mut Records,
    rows: &mut Rows,
    modes: &mut ModeRows,
    map: &mut FileMap,
    me: u8,
    p: Parcel,
) -> Result<(), Memory>
    requires fits { fits records.old (in_one_list rows.old modes.old) map.old me p ≡ true }
    requires nexts { AreNumbersLeft p.records }
    requires numbers { are_one_list rows.old modes.old ≡ true }
    ensures records { OnOk result (records.new ≡ with_records p.records records.old) }
    ensures rows { OnOk result (rows.new ≡ with_rows (rows_off_modes p.rows) rows.old) }
    ensures modes { OnOk result (modes.new ≡ with_rows (rows_on_modes p.rows) modes.old) }
    ensures map { OnOk result (map.new ≡ map_after_take map.old me p.prefix p.piece.given) }
    ensures err_records { OnErr result (records.new ≡ records.old) }
    ensures err_rows { OnErr result (rows.new ≡ rows.old) }
    ensures err_modes { OnErr result (modes.new ≡ modes.old) }
    ensures err_map { OnErr result (map.new ≡ map.old) }
{
    install_at(alloc, records, rows, modes, map, me, 0, 1, p)
}

/// Puts the parcel in its place at the reading `now`: the rows that are over are dropped, as `lapse` does.
pub fn install_at(
    alloc: Global,
    records: &mut Records,
    rows: &mut Rows,
    modes: &mut ModeRows,
    map: &mut FileMap,
    me: u8,
    now: u64,
    skew: u64,
    p: Parcel,
) -> Result<(), Memory>
    requires fits { fits records.old
        (filter (is_live now skew) (in_one_list rows.old modes.old)) map.old me p ≡ true }
    requires nexts { AreNumbersLeft p.records }
    requires numbers { are_one_list rows.old modes.old ≡ true }
    ensures records { OnOk result (records.new ≡ with_records p.records records.old) }
    ensures rows { OnOk result (rows.new ≡
        with_rows (rows_off_modes p.rows) (filter (is_live now skew) rows.old)) }
    ensures modes { OnOk result (modes.new ≡
        with_rows (rows_on_modes p.rows) (filter (is_live now skew) modes.old)) }
    ensures map { OnOk result (map.new ≡ map_after_take map.old me p.prefix p.piece.given) }
    ensures err_records { OnErr result (records.new ≡ records.old) }
    ensures err_rows { OnErr result (rows.new ≡ rows.old) }
    ensures err_modes { OnErr result (modes.new ≡ modes.old) }
    ensures err_map { OnErr result (map.new ≡ map.old) }
{
    rows.all();
    modes.all();
    let taking = map.begin_take(alloc, me, &p.piece)?;
    match put_in(alloc, records, rows, modes, now, skew, p) {
        Ok(()) => {
            *map = taking.finish();
            Ok(())
        }
        Err(wanting) => {
            *map = taking.give_up();
            Err(wanting)
        }
    }
}

/// The parcel's records and rows come into their tables, or none of them when out of memory.
fn put_in(
    alloc: Global,
    records: &mut Records,
    rows: &mut Rows,
    modes: &mut ModeRows,
    now: u64,
    skew: u64,
    p: Parcel,
) -> Result<(), Memory>
    requires records { AreEachRecords p.records }
    requires distinct { are_distinct p.records ≡ true }
    requires absent { are_absent records.old p.records ≡ true }
    requires plain { IsTable
        (with_rows (rows_off_modes p.rows) (filter (is_live now skew) rows.old)) }
    requires modes { IsModeTable
        (with_rows (rows_on_modes p.rows) (filter (is_live now skew) modes.old)) }
    ensures records { OnOk result (records.new ≡ with_records p.records records.old) }
    ensures rows { OnOk result (rows.new ≡
        with_rows (rows_off_modes p.rows) (filter (is_live now skew) rows.old)) }
    ensures modes { OnOk result (modes.new ≡
        with_rows (rows_on_modes p.rows) (filter (is_live now skew) modes.old)) }
    ensures err_records { OnErr result (records.new ≡ records.old) }
    ensures err_rows { OnErr result (rows.new ≡ rows.old) }
    ensures err_modes { OnErr result (modes.new ≡ modes.old) }
{
    let parts = Parts::of(alloc, p.rows)?;
    let came = records.join_noting(alloc, p.records)?;
    match modes.grant_all(alloc, now, skew, parts.modes, rows, parts.plain) {
        Ok(()) => Ok(()),
        Err(wanting) => {
            records.leave_files(&came);
            Err(wanting)
        }
    }
}
