//! The first of the rows on a file that is sought, without a walk over all rows.
ghost use Rattle.std.specs.Prelude.{◌≡◌, ◌&&◌, true};
ghost use Rattle.std.specs.List.{filter, find};
ghost use Rattle.std.specs.Option.{option_copied};
ghost use Rattle.fs_field.specs.Table.{has_no, is_live, is_ordered};
ghost use Rattle.fs_moderows.specs.Index.{IsIndexOf, IsSeen, numbers_on};
ghost use Rattle.fs_moderows.specs.Sought.{file_sought, only, passes};

use crate::against::{is_self_of_other, stands_by, stands_by_each};
use crate::fixed::{EachMode, Fixed, is_other_of_other, lets_change};
use crate::index::FileIndex;
use fs_field::table::is_live;
use fs_field::{Field, Row};
use fs_ident::{FileId, LeaseNo, Session};
use fs_modes::Mode;
use fs_rows::row_at;

/// Which rows are sought. All are on one file.
#[derive(Drop)]
pub(crate) enum Sought<'a> {
    /// Those that let the session change what it tells of the mode on the file.
    SelfOf(&'a FileId, Mode, Session),
    /// Those that let another session change it.
    SelfOfOther(&'a FileId, Mode, Session),
    /// Those that tell another session what others have of the mode.
    OtherOfOther(&'a FileId, Mode, Session),
    /// Those that keep the session from changing what it tells, where these others are fixed.
    Against(&'a FileId, Mode, Session, Fixed),
    /// Those that keep the session from losing its handles on the file, by what was found of each mode.
    Resting(&'a FileId, Session, &'a EachMode),
    /// Those on the field that a transaction keeps.
    Kept(&'a Field),
}

impl<'a> Sought<'a> {
    fn file(&self) -> &FileId
        ensures { result.now ≡ file_sought self.now }
    {
        match self {
            Sought::SelfOf(file, _, _)
            | Sought::SelfOfOther(file, _, _)
            | Sought::OtherOfOther(file, _, _) => file,
            Sought::Against(file, _, _, _) => file,
            Sought::Resting(file, _, _) => file,
            Sought::Kept(field) => field.file(),
        }
    }

    fn passes(&self, row: &Row) -> bool
        ensures { result ≡ passes self.now row.now }
    {
        match self {
            Sought::SelfOf(file, m, session) => lets_change(row, file, *m, *session),
            Sought::SelfOfOther(file, m, session) => is_self_of_other(row, file, *m, *session),
            Sought::OtherOfOther(file, m, session) => is_other_of_other(row, file, *m, *session),
            Sought::Against(file, m, session, fixed) => stands_by(*fixed, *session, file, *m, row),
            Sought::Resting(file, session, each) => stands_by_each(each, *session, file, row),
            Sought::Kept(field) => row.field.is(field) && row.lock.is_some(),
        }
    }
}

/// The first of these rows that is not over and is sought. With an index only the rows on its file are looked at.
pub(crate) fn first_sought<'a>(
    rows: &'a [Row],
    index: Option<&FileIndex>,
    now: u64,
    skew: u64,
    sought: &Sought<'_>,
) -> Option<&'a Row>
    requires { IsSeen index rows.now }
    ensures { option_copied result ≡
        find (passes sought.now) (filter (is_live now skew) rows.now) }
{
    if let Some(index) = index {
        if index.is_whole() {
            return first_listed(rows, index, now, skew, sought);
        }
    }
    first_in(rows, now, skew, sought)
}

/// The first row that is not over and is sought, of those whose numbers the index has on its file.
fn first_listed<'a>(
    rows: &'a [Row],
    index: &FileIndex,
    now: u64,
    skew: u64,
    sought: &Sought<'_>,
) -> Option<&'a Row>
    requires index { IsIndexOf index.now rows.now }
    requires ordered { is_ordered rows.now ≡ true }
    requires whole { index.now.whole ≡ true }
    ensures { option_copied result ≡
        find (passes sought.now) (filter (is_live now skew) rows.now) }
{
    first_numbered(rows, index.on(sought.file()), now, skew, sought)
}

fn first_numbered<'a>(
    rows: &'a [Row],
    numbers: &[LeaseNo],
    now: u64,
    skew: u64,
    sought: &Sought<'_>,
) -> Option<&'a Row>
    requires ordered { is_ordered rows.now ≡ true }
    requires numbers { numbers.now ≡ numbers_on (file_sought sought.now) rows.now }
    ensures { option_copied result ≡
        find (passes sought.now) (filter (is_live now skew) rows.now) }
{
    for no in numbers {
        let found = sought_at(rows, *no, now, skew, sought);
        if found.is_some() {
            return found;
        }
    }
    None
}

/// The row of the number, where it is not over and is sought.
fn sought_at<'a>(
    rows: &'a [Row],
    no: LeaseNo,
    now: u64,
    skew: u64,
    sought: &Sought<'_>,
) -> Option<&'a Row>
    requires { is_ordered rows.now ≡ true }
    ensures { option_copied result ≡ only (λ r. is_live now skew r && passes sought.now r)
        (find (has_no no) rows.now) }
{
    match row_at(rows, no) {
        Some(row) => {
            if is_live(row, now, skew) && sought.passes(row) {
                Some(row)
            } else {
                None
            }
        }
        None => None,
    }
}

/// The first row that is not over and is sought, by a walk over all rows.
#[tactic(auto, using(fs_rows::proofs::LiveSteps::find_step))]
fn first_in<'a>(rows: &'a [Row], now: u64, skew: u64, sought: &Sought<'_>) -> Option<&'a Row>
    ensures { option_copied result ≡
        find (passes sought.now) (filter (is_live now skew) rows.now) }
{
    for row in rows {
        if is_live(row, now, skew) && sought.passes(row) {
            return Some(row);
        }
    }
    None
}
