//! Several rows more at once, and those that are over dropped.
ghost use Rattle.std.specs.Prelude.{◌≡◌, true, ◌+◌, ◌<◌, ◌≤◌, length, unwrap_or, vec_len, vec_capacity, OnOk, OnErr};
ghost use Rattle.std.specs.List.{filter, position};
ghost use Rattle.fs_field.specs.Table.{is_live, is_ordered, no_before, with_row};
ghost use Rattle.fs_rows.specs.Bounds.{EndNoSooner};
ghost use Rattle.fs_rows.specs.Granted.{with_rows};
ghost use Rattle.fs_rows.specs.Index.{IsIndexOf};

use crate::bounds::{lapse_from, least_end, lesser};
use crate::index::FieldIndex;
use crate::indexed::note_each;
use crate::seek::place_at;
use fs_field::Row;
use fs_field::table::{is_live, place};
use fs_ident::{List, Memory};
use std::alloc::Global;

/// Drops the rows that are over at the reading, and puts in the others, in order. Room is made first, and nothing can
/// fail then. No row that no transaction keeps ends sooner than `least`, before and after.
pub(crate) fn grant_all(
    rows: &mut Vec<Row>,
    index: &mut FieldIndex,
    alloc: Global,
    least: &mut u64,
    now: u64,
    skew: u64,
    more: List<Row>,
) -> Result<(), Memory>
    requires ends { EndNoSooner least.old rows.old.items }
    requires ordered { is_ordered rows.old.items ≡ true }
    requires index { IsIndexOf index.old rows.old.items }
    requires after { is_ordered (with_rows more (filter (is_live now skew) rows.old.items)) ≡ true }
    ensures ok { OnOk result (rows.new.items ≡
        with_rows more (filter (is_live now skew) rows.old.items)) }
    ensures err { OnErr result (rows.new.items ≡ rows.old.items) }
    ensures ends { EndNoSooner least.new rows.new.items }
    ensures index { IsIndexOf index.new rows.new.items }
{
    rows.reserve(more.len())?;
    let ends = least_end(more.as_slice());
    let left = lapse_from(rows, index, *least, now, skew);
    *least = lesser(left, ends);
    note_each(index, alloc, more.as_slice());
    put_all(rows, more);
    Ok(())
}

/// Drops the rows that are over at the reading; the room stays.
pub fn keep_live(rows: &mut Vec<Row>, now: u64, skew: u64)
    ensures live { rows.new.items ≡ filter (is_live now skew) rows.old.items }
    ensures fewer { vec_len rows.new ≤ vec_len rows.old }
    ensures room { vec_capacity rows.new ≡ vec_capacity rows.old }
{
    rows.retain(|row| is_live(row, now, skew));
}

/// Puts in each, in order, where there is room for all.
pub fn put_each(rows: &mut Vec<Row>, more: List<Row>)
    requires { vec_len rows.old + length more ≤ vec_capacity rows.old }
    ensures { rows.new.items ≡ with_rows more rows.old.items }
{
    for row in more.into_vec() {
        let at = place(rows, row.no);
        put(rows, at, row);
    }
}

/// Puts in each, in order, where there is room for all and the rows are in order then: each place is found by a search.
pub(crate) fn put_all(rows: &mut Vec<Row>, more: List<Row>)
    requires room { vec_len rows.old + length more ≤ vec_capacity rows.old }
    requires after { is_ordered (with_rows more rows.old.items) ≡ true }
    ensures { rows.new.items ≡ with_rows more rows.old.items }
{
    for row in more.into_vec() {
        let at = place_at(rows, row.no);
        put(rows, at, row);
    }
}

/// Puts a row there, before the first with a greater number, where there is room.
fn put(rows: &mut Vec<Row>, at: usize, row: Row)
    requires room { vec_len rows.old < vec_capacity rows.old }
    requires place { at ≡ unwrap_or (position (λ r. no_before row.no r.no) rows.old.items)
        (length rows.old.items) }
    ensures rows { rows.new.items ≡ with_row row rows.old.items }
    ensures len { vec_len rows.new ≡ vec_len rows.old + 1 }
    ensures room { vec_capacity rows.new ≡ vec_capacity rows.old }
{
    match rows.insert(at, row) {
        Ok(()) => {}
        Err(_) => unreachable!(),
    }
}
