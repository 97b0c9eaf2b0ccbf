//! An index beside the rows whose numbers it has.
ghost use Rattle.std.specs.Prelude.{◌≡◌, true, not, List as Seq};
ghost use Rattle.std.specs.List.{filter};
ghost use Rattle.fs_field.specs.declared.row.Row.{Row as TheRow};
ghost use Rattle.fs_field.specs.Table.{has_no, is_live, is_ordered};
ghost use Rattle.fs_rows.specs.Granted.{with_rows};
ghost use Rattle.fs_rows.specs.Index.{IsIndexOf, IsPassed};
ghost use Rattle.fs_rows.specs.Moving.{rows_left};

use crate::given_files::GivenFiles;
use crate::index::FieldIndex;
use crate::seek::row_at;
use fs_field::Row;
use fs_field::table::is_live;
use fs_ident::LeaseNo;
use fs_map::MapPiece;
use std::alloc::Global;

/// Adds the numbers of these rows.
pub(crate) fn note_each(index: &mut FieldIndex, alloc: Global, more: &[Row])
    ensures { (rows : Seq TheRow) → IsIndexOf index.old rows →
        IsIndexOf index.new (with_rows more.now rows) }
{
    for row in more {
        index.add(alloc, &row.field, row.no);
    }
}

/// Takes out the numbers of the rows that are over.
pub(crate) fn forget_over(index: &mut FieldIndex, rows: &[Row], now: u64, skew: u64)
    requires ordered { is_ordered rows.now ≡ true }
    requires index { IsIndexOf index.old rows.now }
    ensures { IsIndexOf index.new (filter (is_live now skew) rows.now) }
{
    for row in rows {
        pass(index, row, is_live(row, now, skew));
    }
}

/// Takes out the numbers of the rows on files that the piece gives.
pub(crate) fn forget_given(index: &mut FieldIndex, rows: &[Row], piece: &MapPiece)
    requires ordered { is_ordered rows.now ≡ true }
    requires index { IsIndexOf index.old rows.now }
    ensures { IsIndexOf index.new (rows_left piece.now.prefix piece.now.given rows.now) }
{
    let given = GivenFiles::of(piece);
    for row in rows {
        pass(index, row, !given.has(row.field.file()));
    }
}

/// Takes out the row's number, unless it stays.
fn pass(index: &mut FieldIndex, row: &Row, stays: bool)
    ensures { IsPassed stays row.now index.old index.new }
{
    if !stays {
        index.forget(&row.field, row.no);
    }
}

/// Takes out the number.
pub(crate) fn forget_row(index: &mut FieldIndex, rows: &[Row], no: LeaseNo)
    requires ordered { is_ordered rows.now ≡ true }
    requires index { IsIndexOf index.old rows.now }
    ensures { IsIndexOf index.new (filter (λ r. not (has_no no r)) rows.now) }
{
    match row_at(rows, no) {
        Some(row) => index.forget(&row.field, no),
        None => {}
    }
}
