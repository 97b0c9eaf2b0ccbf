//! What a table knows of all its rows, so as not to look at each where there is nothing to find.
ghost use Rattle.std.specs.Prelude.{◌≡◌, true, ◌+◌, ◌≤◌, ◌||◌, nat_lt, is_some, map, vec_len, vec_capacity};
ghost use Rattle.std.specs.List.{filter, list_any};
ghost use Rattle.fs_field.specs.declared.row.Row.{Row as TheRow};
ghost use Rattle.fs_field.specs.Table.{is_live, is_ordered, unlocked_row};
ghost use Rattle.fs_rows.specs.Moving.{locked_in};
ghost use Rattle.fs_rows.specs.Index.{IsIndexOf};
ghost use Rattle.fs_rows.specs.Bounds.{end_or, least_end, EndNoSooner, AreLocksKnown};

use crate::grants::keep_live;
use crate::index::FieldIndex;
use crate::indexed::forget_over;
use crate::moving::least_lock;
use fs_field::{Row, table};
use fs_ident::{FileId, TxnNo};
use fs_map::FileMap;

/// The least end of the rows that no transaction keeps.
#[tactic(auto, using(crate::proofs::Knowing::ends_are))]
pub fn least_end(rows: &[Row]) -> u64
    ensures { EndNoSooner result rows.now }
{
    least_from(rows)
}

#[tactic(auto, using(crate::proofs::Knowing::least_step))]
fn least_from(rows: &[Row]) -> u64
    ensures { result ≡ least_end 18446744073709551615 rows.now }
{
    let mut least = u64::MAX;
    for row in rows {
        least = end_or(least, row);
    }
    least
}

/// The lesser of this and the row's end, where no transaction keeps the row.
fn end_or(least: u64, row: &Row) -> u64
    ensures { result ≡ end_or least row.now }
{
    if row.lock.is_none() && row.until < least {
        row.until
    } else {
        least
    }
}

/// Whether it was so before, or a transaction keeps one of the rows.
pub fn or_locks(locked: bool, rows: &[Row]) -> bool
    ensures { result ≡ (locked || list_any (λ (r : TheRow). is_some r.lock) rows.now) }
{
    locked || any_lock(rows)
}

/// Whether a transaction keeps one of the rows.
pub fn any_lock(rows: &[Row]) -> bool
    ensures { result ≡ list_any (λ (r : TheRow). is_some r.lock) rows.now }
{
    rows.iter().any(|row| row.lock.is_some())
}

/// Whether the end and the skew are still to come.
pub fn is_ahead(now: u64, skew: u64, end: u64) -> bool
    ensures { result ≡ nat_lt now (end + skew) }
{
    now < skew || now - skew < end
}

/// The lesser of two ends.
pub fn lesser(a: u64, b: u64) -> u64
    ensures first { result ≤ a }
    ensures second { result ≤ b }
{
    if a < b { a } else { b }
}

/// Drops the rows that are over at the reading, where the others end no sooner than `least`, and tells a reading that
/// is as good for what is left. No row is looked at where none can be over.
#[tactic(auto, using(crate::proofs::Knowing::none_over))]
pub(crate) fn lapse_from(
    rows: &mut Vec<Row>,
    index: &mut FieldIndex,
    least: u64,
    now: u64,
    skew: u64,
) -> u64
    requires ends { EndNoSooner least rows.old.items }
    requires ordered { is_ordered rows.old.items ≡ true }
    requires index { IsIndexOf index.old rows.old.items }
    ensures live { rows.new.items ≡ filter (is_live now skew) rows.old.items }
    ensures least { EndNoSooner result rows.new.items }
    ensures fewer { vec_len rows.new ≤ vec_len rows.old }
    ensures room { vec_capacity rows.new ≡ vec_capacity rows.old }
    ensures index { IsIndexOf index.new rows.new.items }
{
    if is_ahead(now, skew, least) {
        return least;
    }
    forget_over(index, rows, now, skew);
    keep_live(rows, now, skew);
    least_end(rows)
}

/// Lets the transaction keep no row any more. No row is looked at where none is kept.
#[tactic(auto, using(crate::proofs::Knowing::none_to_go, crate::proofs::Knowing::locks_are))]
pub(crate) fn unlock_known(rows: &mut Vec<Row>, least: &mut u64, locked: &mut bool, txn: TxnNo)
    requires ends { EndNoSooner least.old rows.old.items }
    requires locks { AreLocksKnown locked.old rows.old.items }
    ensures rows { rows.new.items ≡ map (unlocked_row txn) rows.old.items }
    ensures ends { EndNoSooner least.new rows.new.items }
    ensures locks { AreLocksKnown locked.new rows.new.items }
{
    if !*locked {
        return;
    }
    unlock(rows, txn);
    *least = 0;
    *locked = any_lock(rows);
}

fn unlock(rows: &mut Vec<Row>, txn: TxnNo)
    ensures { rows.new.items ≡ map (unlocked_row txn) rows.old.items }
{
    table::unlock(rows, txn);
}

/// The least transaction that keeps a row on a file that begins with the prefix and is `me`'s. No row is looked at
/// where none is kept.
#[tactic(auto, using(crate::proofs::Knowing::none_locked_in, crate::proofs::Goes::all_live))]
pub(crate) fn least_known_lock(
    rows: &[Row],
    locked: bool,
    prefix: &FileId,
    map: &FileMap,
    me: u8,
) -> Option<TxnNo>
    requires { AreLocksKnown locked rows.now }
    ensures { result ≡ locked_in prefix.now map.now me rows.now }
{
    if !locked {
        return None;
    }
    least_lock(rows, 0, 1, prefix, map, me)
}
