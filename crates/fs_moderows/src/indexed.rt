//! An index beside the rows whose numbers it has.
ghost use Rattle.std.specs.Prelude.{◌≡◌, true, not, OnOk, OnErr, List as Seq};
ghost use Rattle.std.specs.List.{filter};
ghost use Rattle.fs_field.specs.declared.row.Row.{Row as TheRow};
ghost use Rattle.fs_field.specs.Table.{has_no, is_live, is_ordered, with_row};
ghost use Rattle.fs_rows.specs.Granted.{with_rows};
ghost use Rattle.fs_rows.specs.Moving.{rows_left};
ghost use Rattle.fs_moderows.specs.Index.{IsIndexOf, IsPassed};

use crate::index::FileIndex;
use crate::putting::put_one;
use fs_field::Row;
use fs_field::table::is_live;
use fs_ident::{LeaseNo, Memory};
use fs_map::MapPiece;
use fs_rows::{GivenFiles, row_at};
use std::alloc::Global;

/// Puts in the row, and adds its number.
pub(crate) fn add_row(
    rows: &mut Vec<Row>,
    index: &mut FileIndex,
    alloc: Global,
    given: Row,
) -> Result<(), Memory>
    requires ordered { is_ordered rows.old.items ≡ true }
    requires index { IsIndexOf index.old rows.old.items }
    ensures ok { OnOk result (rows.new.items ≡ with_row given rows.old.items) }
    ensures err { OnErr result (rows.new.items ≡ rows.old.items) }
    ensures index { IsIndexOf index.new rows.new.items }
{
    rows.reserve(1)?;
    index.add(alloc, given.field.file(), given.no);
    put_one(rows, given);
    Ok(())
}

/// Adds the numbers of these rows.
pub(crate) fn note_each(index: &mut FileIndex, alloc: Global, more: &[Row])
    ensures { (rows : Seq TheRow) → is_ordered (with_rows more.now rows) ≡ true →
        IsIndexOf index.old rows → IsIndexOf index.new (with_rows more.now rows) }
{
    for row in more {
        index.add(alloc, row.field.file(), row.no);
    }
}

/// Takes out the numbers of the rows that are over.
pub(crate) fn forget_over(index: &mut FileIndex, rows: &[Row], now: u64, skew: u64)
    requires ordered { is_ordered rows.now ≡ true }
    requires index { IsIndexOf index.old rows.now }
    ensures { IsIndexOf index.new (filter (is_live now skew) rows.now) }
{
    for row in rows {
        pass(index, row, is_live(row, now, skew));
    }
}

/// Takes out the numbers of the rows on files that the piece gives.
pub(crate) fn forget_given(index: &mut FileIndex, rows: &[Row], piece: &MapPiece)
    requires ordered { is_ordered rows.now ≡ true }
    requires index { IsIndexOf index.old rows.now }
    ensures { IsIndexOf index.new (rows_left piece.now.prefix piece.now.given rows.now) }
{
    let given = GivenFiles::of(piece);
    for row in rows {
        pass(index, row, !given.has(row.field.file()));
    }
}

/// Takes out the row's number, unless it stays.
fn pass(index: &mut FileIndex, row: &Row, stays: bool)
    ensures { IsPassed stays row.now index.old index.new }
{
    if !stays {
        index.forget(row.field.file(), row.no);
    }
}

/// Takes out the number.
pub(crate) fn forget_row(index: &mut FileIndex, rows: &[Row], no: LeaseNo)
    requires ordered { is_ordered rows.now ≡ true }
    requires index { IsIndexOf index.old rows.now }
    ensures { IsIndexOf index.new (filter (λ r. not (has_no no r)) rows.now) }
{
    match row_at(rows, no) {
        Some(row) => index.forget(row.field.file(), no),
        None => {}
    }
}
