//! Rows by number, and the first of those with given numbers.
ghost use Rattle.std.specs.Prelude.{◌≡◌, ◌≤◌, ◌&&◌, true, length, unwrap_or, OnOk, OnErr};
ghost use Rattle.std.specs.List.{filter, find, list_any, position};
ghost use Rattle.std.specs.FinMap.{entries};
ghost use Rattle.std.specs.Option.{option_copied};
ghost use Rattle.fs_ident.specs.Maps.{map_of};
ghost use Rattle.fs_field.specs.Table.{has_no, is_live, is_ordered, no_before, with_row};
ghost use Rattle.fs_rows.specs.Borne.{any_has, any_named};
ghost use Rattle.fs_rows.specs.Index.{has_number, is_listed};
ghost use Rattle.fs_rows.specs.Sought.{lesser_row, passes};

use crate::against::stands_against;
use fs_field::table::is_live;
use fs_field::{Field, LeaseKind, Row};
use fs_ident::{LeaseNo, List, Memory, Name, Session};
use std::collections::BTreeMap;

/// Which rows are sought.
#[derive(Drop)]
pub(crate) enum Sought<'a> {
    /// Those on the field that a transaction keeps.
    Lock(&'a Field),
    /// Those that keep the session from such a lease.
    Against(Session, &'a Field, LeaseKind),
    /// Those of the session on the field.
    Of(Session, &'a Field),
    /// Those on the field.
    On(&'a Field),
    /// Those on the field that no transaction keeps.
    Free(&'a Field),
}

impl<'a> Sought<'a> {
    fn passes(&self, row: &Row) -> bool
        ensures { result ≡ passes self.now row.now }
    {
        match self {
            Sought::Lock(field) => row.field.is(field) && row.lock.is_some(),
            Sought::Against(session, field, kind) => stands_against(row, *session, field, *kind),
            Sought::Of(session, field) => row.field.is(field) && row.session == *session,
            Sought::On(field) => row.field.is(field),
            Sought::Free(field) => row.field.is(field) && row.lock.is_none(),
        }
    }
}

/// The row of the number, by a search: the rows are in order.
pub fn row_at(rows: &[Row], no: LeaseNo) -> Option<&Row>
    requires { is_ordered rows.now ≡ true }
    ensures { option_copied result ≡ find (has_no no) rows.now }
{
    let at = rows.partition_point(|row| row.no < no);
    match rows.get(at) {
        Some(row) => { if row.no == no { Some(row) } else { None } }
        None => None,
    }
}

/// The row of the number, where it is not over.
pub fn live_at(rows: &[Row], no: LeaseNo, now: u64, skew: u64) -> Option<&Row>
    requires { is_ordered rows.now ≡ true }
    ensures { option_copied result ≡ find (has_no no) (filter (is_live now skew) rows.now) }
{
    match row_at(rows, no) {
        Some(row) => {
            if is_live(row, now, skew) {
                Some(row)
            } else {
                None
            }
        }
        None => None,
    }
}

/// Whether a row with one of these numbers is not over.
pub(crate) fn any_at(rows: &[Row], numbers: &[LeaseNo], now: u64, skew: u64) -> bool
    requires { is_ordered rows.now ≡ true }
    ensures { result ≡ any_has numbers.now (filter (is_live now skew) rows.now) }
{
    for no in numbers {
        if has_live(rows, *no, now, skew) {
            return true;
        }
    }
    false
}

/// Whether a row with one of the numbers under any of the names is not over.
pub(crate) fn any_under(
    rows: &[Row],
    named: &BTreeMap<Name, List<LeaseNo>>,
    now: u64,
    skew: u64,
) -> bool
    requires { is_ordered rows.now ≡ true }
    ensures { result ≡
        any_named (entries (map_of named.now)) (filter (is_live now skew) rows.now) }
{
    for entry in named.iter() {
        if any_at(rows, entry.1.as_slice(), now, skew) {
            return true;
        }
    }
    false
}

/// Whether the row of the number is not over.
#[tactic(auto, using(crate::proofs::LiveSteps::found))]
fn has_live(rows: &[Row], no: LeaseNo, now: u64, skew: u64) -> bool
    requires { is_ordered rows.now ≡ true }
    ensures { result ≡ list_any (has_no no) (filter (is_live now skew) rows.now) }
{
    live_at(rows, no, now, skew).is_some()
}

/// The first of the rows with these numbers that is not over and is sought.
pub(crate) fn least_among<'a>(
    rows: &'a [Row],
    numbers: &[LeaseNo],
    now: u64,
    skew: u64,
    sought: &Sought<'_>,
) -> Option<&'a Row>
    requires { is_ordered rows.now ≡ true }
    ensures { option_copied result ≡ find (λ r. has_number r.no numbers.now &&
        (is_live now skew r && passes sought.now r)) rows.now }
{
    let mut least = None;
    for no in numbers {
        least = lesser(least, sought_at(rows, no, now, skew, sought));
    }
    least
}

/// The first of the rows with the numbers under any of the names that is not over and is sought.
pub(crate) fn least_named<'a>(
    rows: &'a [Row],
    named: &BTreeMap<Name, List<LeaseNo>>,
    now: u64,
    skew: u64,
    sought: &Sought<'_>,
) -> Option<&'a Row>
    requires { is_ordered rows.now ≡ true }
    ensures { option_copied result ≡ find (λ r. is_listed r.no named.now.entries &&
        (is_live now skew r && passes sought.now r)) rows.now }
{
    let mut least = None;
    for entry in named.iter() {
        least = lesser(
            least,
            least_among(rows, entry.1.as_slice(), now, skew, sought),
        );
    }
    least
}

/// The row of the number, where it is not over and is sought.
pub(crate) fn sought_at<'a>(
    rows: &'a [Row],
    no: &LeaseNo,
    now: u64,
    skew: u64,
    sought: &Sought<'_>,
) -> Option<&'a Row>
    requires { is_ordered rows.now ≡ true }
    ensures { option_copied result ≡ find (λ r. has_no no.now r &&
        (is_live now skew r && passes sought.now r)) rows.now }
{
    match row_at(rows, *no) {
        Some(row) => {
            if is_live(row, now, skew) && sought.passes(row) {
                Some(row)
            } else {
                None
            }
        }
        None => None,
    }
}

/// The one with the lesser number of two rows, of which either may be wanting.
pub(crate) fn lesser<'a>(first: Option<&'a Row>, second: Option<&'a Row>) -> Option<&'a Row>
    ensures { option_copied result ≡
        lesser_row (option_copied first.entry) (option_copied second.entry) }
{
    match (first, second) {
        (None, _) => second,
        (Some(_), None) => first,
        (Some(a), Some(b)) => { if b.no < a.no { second } else { first } }
    }
}

/// Puts a row before the first with a greater number: the rows are in order.
pub(crate) fn put_row(rows: &mut Vec<Row>, row: Row) -> Result<(), Memory>
    requires { is_ordered rows.old.items ≡ true }
    ensures ok { OnOk result (rows.new.items ≡ with_row row rows.old.items) }
    ensures err { OnErr result (rows.new.items ≡ rows.old.items) }
{
    let at = place_at(rows, row.no);
    rows.insert(at, row)?;
    Ok(())
}

/// Where the first row with a greater number stands, or the length.
pub fn place_at(rows: &[Row], no: LeaseNo) -> usize
    requires { is_ordered rows.now ≡ true }
    ensures place { result ≡ unwrap_or (position (λ r. no_before no r.no) rows.now)
        (length rows.now) }
    ensures within { result ≤ length rows.now }
{
    rows.partition_point(|row| !(no < row.no))
}
