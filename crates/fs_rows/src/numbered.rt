//! Rows that are found by their number, and changed where they stand: the rows are in order. Public as a module, since
//! `fs_moderows` keeps its rows by these calls too.
ghost use Rattle.std.specs.Prelude.{◌≡◌, true, not, map};
ghost use Rattle.std.specs.List.{filter, list_any, position};
ghost use Rattle.fs_field.specs.Table.{has_no, is_ordered, is_unlocked, locked_row, renewed_row};

use fs_field::Row;
use fs_ident::{LeaseNo, TxnNo};

/// Where the row of the number stands.
fn place_of(rows: &[Row], no: LeaseNo) -> Option<usize>
    requires { is_ordered rows.now ≡ true }
    ensures { result ≡ position (has_no no) rows.now }
{
    let at = rows.partition_point(|row| row.no < no);
    match rows.get(at) {
        Some(row) => { if row.no == no { Some(at) } else { None } }
        None => None,
    }
}

/// Lets the row of this number end no sooner than `until`, and tells whether there is one.
pub fn renew(rows: &mut Vec<Row>, no: LeaseNo, until: u64) -> bool
    requires { is_ordered rows.old.items ≡ true }
    ensures found { result ≡ list_any (has_no no) rows.old.items }
    ensures rows { rows.new.items ≡ map (renewed_row no until) rows.old.items }
{
    match place_of(rows, no) {
        Some(at) => {
            renew_one(&mut rows[at], no, until);
            true
        }
        None => false,
    }
}

fn renew_one(row: &mut Row, no: LeaseNo, until: u64)
    ensures { row.new ≡ renewed_row no until row.old }
{
    if row.no == no && row.until < until {
        row.until = until;
    }
}

/// Lets the transaction keep the row of this number, and tells whether there was one that none kept.
pub fn lock(rows: &mut Vec<Row>, no: LeaseNo, txn: TxnNo) -> bool
    requires { is_ordered rows.old.items ≡ true }
    ensures found { result ≡ list_any (is_unlocked no) rows.old.items }
    ensures rows { rows.new.items ≡ map (locked_row no txn) rows.old.items }
{
    match place_of(rows, no) {
        Some(at) => lock_one(&mut rows[at], no, txn),
        None => false,
    }
}

fn lock_one(row: &mut Row, no: LeaseNo, txn: TxnNo) -> bool
    ensures found { result ≡ is_unlocked no row.old }
    ensures row { row.new ≡ locked_row no txn row.old }
{
    let found = row.no == no && row.lock.is_none();
    if found {
        row.lock = Some(txn);
    }
    found
}

/// Drops the row of this number, and tells whether there was one.
pub fn release(rows: &mut Vec<Row>, no: LeaseNo) -> bool
    requires { is_ordered rows.old.items ≡ true }
    ensures found { result ≡ list_any (has_no no) rows.old.items }
    ensures rows { rows.new.items ≡ filter (λ r. not (has_no no r)) rows.old.items }
{
    match place_of(rows, no) {
        Some(at) => {
            drop(rows.remove(at));
            true
        }
        None => false,
    }
}
