//! Rows that are put into a list in order of number, each at its place by a search.
ghost use Rattle.std.specs.Prelude.{◌≡◌, ◌+◌, ◌<◌, ◌≤◌, true, length, vec_len, vec_capacity};
ghost use Rattle.fs_field.specs.Table.{is_ordered, with_row};
ghost use Rattle.fs_rows.specs.Granted.{with_rows};

use fs_field::Row;
use fs_ident::List;
use fs_rows::place_at;

/// Puts in each, in order, where there is room for all.
pub(crate) fn put_each(rows: &mut Vec<Row>, more: List<Row>)
    requires room { vec_len rows.old + length more ≤ vec_capacity rows.old }
    requires ordered { is_ordered (with_rows more rows.old.items) ≡ true }
    ensures { rows.new.items ≡ with_rows more rows.old.items }
{
    for row in more.into_vec() {
        put_one(rows, row);
    }
}

/// Puts a row before the first with a greater number, where there is room.
pub(crate) fn put_one(rows: &mut Vec<Row>, row: Row)
    requires room { vec_len rows.old < vec_capacity rows.old }
    requires ordered { is_ordered rows.old.items ≡ true }
    ensures rows { rows.new.items ≡ with_row row rows.old.items }
    ensures len { vec_len rows.new ≡ vec_len rows.old + 1 }
    ensures room { vec_capacity rows.new ≡ vec_capacity rows.old }
{
    let at = place_at(rows, row.no);
    match rows.insert(at, row) {
        Ok(()) => {}
        Err(_) => unreachable!(),
    }
}
