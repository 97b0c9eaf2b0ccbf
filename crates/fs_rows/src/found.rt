//! The rows on a field, found by their numbers.
ghost use Rattle.std.specs.Prelude.{◌≡◌, ◌&&◌, true, map, IfOk};
ghost use Rattle.std.specs.List.{filter};
ghost use Rattle.fs_field.specs.Table.{is_live, is_ordered, rows_on};
ghost use Rattle.fs_rows.specs.Index.{IsIndexOf};
ghost use Rattle.fs_rows.specs.Live.{unlocked_on};
ghost use Rattle.fs_rows.specs.Sought.{passes};
ghost use Rattle.fs_rows.specs.Picked.{AreRising, picked};

use crate::index::FieldIndex;
use crate::seek::{Sought, sought_at};
use fs_field::{Field, Row};
use fs_ident::{LeaseNo, List, Memory, Session};
use std::alloc::Global;

/// The numbers and sessions of the rows on the field that are not over and that no transaction keeps.
pub(crate) fn unlocked_by(
    alloc: Global,
    rows: &[Row],
    index: &FieldIndex,
    now: u64,
    skew: u64,
    field: &Field,
) -> Result<List<(LeaseNo, Session)>, Memory>
    requires index { IsIndexOf index.now rows.now }
    requires ordered { is_ordered rows.now ≡ true }
    requires whole { index.now.whole ≡ true }
    ensures { IfOk result (λ told. told ≡
        unlocked_on field.now (filter (is_live now skew) rows.now)) }
{
    let numbers = in_order(alloc, index.on(field))?;
    pairs_of(
        alloc,
        rows,
        numbers.as_slice(),
        now,
        skew,
        &Sought::Free(field),
    )
}

/// The numbers and sessions of the rows on the field.
pub(crate) fn on_by(
    alloc: Global,
    rows: &[Row],
    index: &FieldIndex,
    field: &Field,
) -> Result<List<(LeaseNo, Session)>, Memory>
    requires index { IsIndexOf index.now rows.now }
    requires ordered { is_ordered rows.now ≡ true }
    requires whole { index.now.whole ≡ true }
    ensures { IfOk result (λ told. told ≡ rows_on field.now rows.now) }
{
    let numbers = in_order(alloc, index.on(field))?;
    pairs_of(alloc, rows, numbers.as_slice(), 0, 1, &Sought::On(field))
}

/// The numbers in order, each once.
fn in_order(alloc: Global, numbers: &[LeaseNo]) -> Result<List<LeaseNo>, Memory>
    ensures { IfOk result (λ ordered. AreRising numbers.now ordered) }
{
    let mut ordered = List::new(alloc);
    ordered.items_mut().extend_from_slice(numbers)?;
    put_in_order(ordered.items_mut());
    Ok(ordered)
}

fn put_in_order(numbers: &mut Vec<LeaseNo>)
    ensures { AreRising numbers.old.items numbers.new.items }
{
    numbers.sort_unstable();
    numbers.dedup();
}

/// The numbers and sessions of the rows with these numbers that are not over and are sought.
fn pairs_of(
    alloc: Global,
    rows: &[Row],
    numbers: &[LeaseNo],
    now: u64,
    skew: u64,
    sought: &Sought<'_>,
) -> Result<List<(LeaseNo, Session)>, Memory>
    requires { is_ordered rows.now ≡ true }
    ensures { IfOk result (λ pairs. pairs ≡ map (λ r. (r.no, r.session))
        (picked (λ r. is_live now skew r && passes sought.now r) rows.now numbers.now)) }
{
    let mut pairs = List::new(alloc);
    for no in numbers {
        match sought_at(rows, no, now, skew, sought) {
            Some(row) => pairs.push((row.no, row.session))?,
            None => {}
        }
    }
    Ok(pairs)
}
