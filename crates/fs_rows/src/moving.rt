//! Rows that go to another server, and rows that come from one, over plain lists of rows.
ghost use Rattle.std.specs.Prelude.{◌≡◌, true, IfOk, OnOk, OnErr};
ghost use Rattle.std.specs.List.{filter, list_any};
ghost use Rattle.fs_field.specs.Conflict.{plain_conflict};
ghost use Rattle.fs_field.specs.Table.{is_live, is_ordered};
ghost use Rattle.fs_rows.specs.Granted.{with_rows};
ghost use Rattle.fs_rows.specs.Index.{IsIndexOf, IsSeen};
ghost use Rattle.fs_rows.specs.Moving.{are_new, fits, is_new, least_of, lock_below, locked_in, rows_given, rows_left, stands_beside};

use crate::given_files::GivenFiles;
use crate::grants::put_all;
use crate::index::FieldIndex;
use crate::indexed::note_each;
use crate::reads;
use fs_field::Row;
use fs_field::table::{self, is_live};
use fs_ident::{FileId, List, Memory, Twin, TxnNo};
use fs_map::{FileMap, MapPiece};
use std::alloc::Global;

/// Copies of the rows, not over at the reading `now`, on files that the piece gives.
#[tactic(auto, using(crate::proofs::Goes::given_step))]
pub fn copy_given(
    alloc: Global,
    rows: &[Row],
    now: u64,
    skew: u64,
    piece: &MapPiece,
) -> Result<List<Row>, Memory>
    ensures { IfOk result (λ moved. moved ≡
        rows_given piece.now.prefix piece.now.given (filter (is_live now skew) rows.now)) }
{
    let given = GivenFiles::of(piece);
    let mut moved = List::new(alloc);
    for row in rows {
        if is_live(row, now, skew) && given.has(row.field.file()) {
            moved.push(row.copy(alloc)?)?;
        }
    }
    Ok(moved)
}

/// Drops the rows on files that the piece gives.
pub fn drop_given(rows: &mut Vec<Row>, piece: &MapPiece)
    ensures { rows.new.items ≡ rows_left piece.now.prefix piece.now.given rows.old.items }
{
    let given = GivenFiles::of(piece);
    rows.retain(|row| !given.has(row.field.file()));
}

/// The least transaction that keeps a row, not over at the reading `now`, on a file that begins with the prefix and is
/// `me`'s.
pub fn least_lock(
    rows: &[Row],
    now: u64,
    skew: u64,
    prefix: &FileId,
    map: &FileMap,
    me: u8,
) -> Option<TxnNo>
    ensures { result ≡ locked_in prefix.now map.now me (filter (is_live now skew) rows.now) }
{
    let mut least = None;
    for row in rows {
        if is_live(row, now, skew) {
            least = least_of(least, lock_below(row, prefix, map, me));
        }
    }
    least
}

/// Puts in the rows, in order. Room is made first, and nothing can fail then.
pub(crate) fn add_all(
    rows: &mut Vec<Row>,
    index: &mut FieldIndex,
    alloc: Global,
    more: List<Row>,
) -> Result<(), Memory>
    requires index { IsIndexOf index.old rows.old.items }
    requires after { is_ordered (with_rows more rows.old.items) ≡ true }
    ensures ok { OnOk result (rows.new.items ≡ with_rows more rows.old.items) }
    ensures err { OnErr result (rows.new.items ≡ rows.old.items) }
    ensures index { IsIndexOf index.new rows.new.items }
{
    rows.reserve(more.len())?;
    note_each(index, alloc, more.as_slice());
    put_all(rows, more);
    Ok(())
}

/// The transaction that keeps the row, where it is on a file that begins with the prefix and is `me`'s.
fn lock_below(row: &Row, prefix: &FileId, map: &FileMap, me: u8) -> Option<TxnNo>
    ensures { result ≡ lock_below prefix.now map.now me row.now }
{
    let file = row.field.file();
    if row.lock.is_some() && file.begins(prefix) && map.owner(file).1 == me {
        row.lock
    } else {
        None
    }
}

/// The lesser of two transactions, of which either may be wanting.
fn least_of(first: Option<TxnNo>, second: Option<TxnNo>) -> Option<TxnNo>
    ensures { result ≡ least_of first second }
{
    match (first, second) {
        (None, _) => second,
        (Some(_), None) => first,
        (Some(a), Some(b)) => { if b < a { second } else { first } }
    }
}

/// Whether each of the rows has a number that no row here, not over at the reading `now`, and none of those before it
/// has.
#[tactic(auto, using(crate::proofs::Comes::are_new_append))]
pub(crate) fn are_new(
    rows: &[Row],
    index: Option<&FieldIndex>,
    now: u64,
    skew: u64,
    more: &[Row],
) -> bool
    requires { IsSeen index rows.now }
    ensures { result ≡ are_new (filter (is_live now skew) rows.now) more.now }
{
    let mut before = more;
    while let Some((row, earlier)) = before.split_last() {
        if reads::has(rows, index, now, skew, row.no) || table::has_row(earlier, row.no) {
            return false;
        }
        before = earlier;
    }
    true
}

/// Whether the rows are new, as `are_new` tells, and each conflicts neither with a row here nor with one of those
/// before it, by sessions, fields and kinds alone.
#[tactic(auto, using(crate::proofs::Comes::fits_append, crate::proofs::Goes::all_live))]
pub(crate) fn fit(
    rows: &[Row],
    index: Option<&FieldIndex>,
    now: u64,
    skew: u64,
    more: &[Row],
) -> bool
    requires { IsSeen index rows.now }
    ensures { result ≡ fits (filter (is_live now skew) rows.now) more.now }
{
    let mut before = more;
    while let Some((row, earlier)) = before.split_last() {
        if !stands_beside(rows, index, now, skew, row) || !stands_beside(earlier, None, 0, 1, row) {
            return false;
        }
        before = earlier;
    }
    true
}

/// Whether no row, not over at the reading `now`, has the number of this one or conflicts with it by sessions, fields
/// and kinds alone. At the reading 0 with a skew of 1 no row is over.
fn stands_beside(rows: &[Row], index: Option<&FieldIndex>, now: u64, skew: u64, row: &Row) -> bool
    requires { IsSeen index rows.now }
    ensures { result ≡ stands_beside (filter (is_live now skew) rows.now) row.now }
{
    !reads::has(rows, index, now, skew, row.no) && !is_against_any(rows, index, now, skew, row)
}

/// Whether such a row conflicts with this one by sessions, fields and kinds alone.
#[tactic(auto, using(crate::proofs::LiveSteps::found))]
fn is_against_any(rows: &[Row], index: Option<&FieldIndex>, now: u64, skew: u64, row: &Row) -> bool
    requires { IsSeen index rows.now }
    ensures { result ≡ list_any (plain_conflict row.now) (filter (is_live now skew) rows.now) }
{
    reads::first_against(rows, index, now, skew, row.session, &row.field, row.kind).is_some()
}
