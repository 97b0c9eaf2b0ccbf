//! What a table knows of all its rows, so as not to look at each where there is nothing to find.
ghost use Rattle.std.specs.Prelude.{◌≡◌, ◌≤◌, true, map, vec_len, vec_capacity};
ghost use Rattle.std.specs.List.{filter};
ghost use Rattle.fs_field.specs.Table.{is_live, is_ordered, unlocked_row};
ghost use Rattle.fs_rows.specs.Bounds.{EndNoSooner, AreLocksKnown};
ghost use Rattle.fs_rows.specs.Moving.{locked_in};
ghost use Rattle.fs_moderows.specs.Index.{IsIndexOf};

use crate::index::FileIndex;
use crate::indexed::forget_over;
use fs_field::{Row, table};
use fs_ident::{FileId, TxnNo};
use fs_map::FileMap;
use fs_rows::{any_lock, is_ahead, keep_live, least_end, least_lock};

/// Drops the rows that are over at the reading, where the others end no sooner than `least`, and tells a reading that
/// is as good for what is left. No row is looked at where none can be over.
#[tactic(auto, using(fs_rows::proofs::Knowing::none_over))]
pub(crate) fn lapse_from(
    rows: &mut Vec<Row>,
    index: &mut FileIndex,
    least: u64,
    now: u64,
    skew: u64,
) -> u64
    requires ends { EndNoSooner least rows.old.items }
    requires ordered { is_ordered rows.old.items ≡ true }
    requires index { IsIndexOf index.old rows.old.items }
    ensures live { rows.new.items ≡ filter (is_live now skew) rows.old.items }
    ensures least { EndNoSooner result rows.new.items }
    ensures fewer { vec_len rows.new ≤ vec_len rows.old }
    ensures room { vec_capacity rows.new ≡ vec_capacity rows.old }
    ensures index { IsIndexOf index.new rows.new.items }
{
    if is_ahead(now, skew, least) {
        return least;
    }
    forget_over(index, rows, now, skew);
    keep_live(rows, now, skew);
    least_end(rows)
}

/// Lets the transaction keep no row any more. No row is looked at where none is kept.
#[tactic(auto, using(fs_rows::proofs::Knowing::none_to_go, fs_rows::proofs::Knowing::locks_are))]
pub(crate) fn unlock_known(rows: &mut Vec<Row>, least: &mut u64, locked: &mut bool, txn: TxnNo)
    requires ends { EndNoSooner least.old rows.old.items }
    requires locks { AreLocksKnown locked.old rows.old.items }
    ensures rows { rows.new.items ≡ map (unlocked_row txn) rows.old.items }
    ensures ends { EndNoSooner least.new rows.new.items }
    ensures locks { AreLocksKnown locked.new rows.new.items }
{
    if !*locked {
        return;
    }
    unlock(rows, txn);
    *least = least_end(rows);
    *locked = any_lock(rows);
}

fn unlock(rows: &mut Vec<Row>, txn: TxnNo)
    ensures { rows.new.items ≡ map (unlocked_row txn) rows.old.items }
{
    table::unlock(rows, txn);
}

/// The least transaction that keeps a row on a file that begins with the prefix and is `me`'s. No row is looked at
/// where none is kept.
#[tactic(auto, using(fs_rows::proofs::Knowing::none_locked_in, fs_rows::proofs::Goes::all_live))]
pub(crate) fn least_known_lock(
    rows: &[Row],
    locked: bool,
    prefix: &FileId,
    map: &FileMap,
    me: u8,
) -> Option<TxnNo>
    requires { AreLocksKnown locked rows.now }
    ensures { result ≡ locked_in prefix.now map.now me rows.now }
{
    if !locked {
        return None;
    }
    least_lock(rows, 0, 1, prefix, map, me)
}
