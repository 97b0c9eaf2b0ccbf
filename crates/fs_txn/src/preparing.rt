//! The vote of a server on a part.
ghost use Rattle.std.specs.Prelude.{◌≡◌, not, map, if◌then◌else◌, IfOk, OnErr};
ghost use Rattle.std.specs.Option.{option_copied};
ghost use Rattle.fs_field.specs.Field.{tells_no_mode};
ghost use Rattle.fs_field.specs.Table.{locked_row};
ghost use Rattle.fs_map.specs.Map.{longest};
ghost use Rattle.fs_txn.specs.Preparing.{first_gone, has_row, moved_to, path_against, rows_locked, rows_voted, uses_of_modes, uses_off, vote_by, vote_on};

use fs_field::{Part, Use, Vote};
use fs_ident::{Memory, PathNo, Session, Twin, TxnNo};
use fs_map::FileMap;
use fs_moderows::ModeRows;
use fs_rows::Rows;
use std::alloc::Global;

/// Votes on a part of the session's transaction, and locks its rows exactly where the vote is Yes. In this order: `Moved` where
/// the map gives the part's file to another server than `me`; `Ended` for the first lease without its row, with the reading `now`
/// in milliseconds; `PathsOut` where the part freezes a file and a path over it is given out here; else Yes. `through` is the
/// least path lease given out here whose path has the file that the part freezes. `Memory` when out of memory;
/// the rows are as they were then.
pub fn prepare(
    alloc: Global,
    rows: &mut Rows,
    modes: &mut ModeRows,
    map: &FileMap,
    me: u8,
    now: u64,
    session: Session,
    txn: TxnNo,
    part: &Part,
    through: Option<PathNo>,
) -> Result<Vote, Memory>
    ensures vote { IfOk result (λ vote. vote ≡
        vote_on rows.old modes.old map.now me now session part.now through) }
    ensures rows { IfOk result (λ vote. rows.new ≡
        rows_voted vote txn (uses_off part.now.uses) rows.old) }
    ensures modes { IfOk result (λ vote. modes.new ≡
        rows_voted vote txn (uses_of_modes part.now.uses) modes.old) }
    ensures err_rows { OnErr result (rows.new ≡ rows.old) }
    ensures err_modes { OnErr result (modes.new ≡ modes.old) }
{
    if map.owner(&part.file).1 != me {
        return moved_to(alloc, map, part);
    }
    let against = if part.freeze.is_some() { through } else { None };
    let vote = vote_by(
        first_gone(rows, modes, session, part.uses.as_slice()),
        against,
        now,
    );
    if matches!(vote, Vote::Yes) {
        lock_all(rows, modes, txn, part.uses.as_slice());
    }
    Ok(vote)
}

/// The vote where the file is elsewhere.
fn moved_to(alloc: Global, map: &FileMap, part: &Part) -> Result<Vote, Memory>
    ensures { IfOk result (λ vote. vote ≡ moved_to (longest map.now part.now.file)) }
{
    let (prefix, to) = map.owner(&part.file);
    Ok(Vote::Moved {
        prefix: prefix.copy(alloc)?,
        to,
    })
}

/// The vote where the file is here.
fn vote_by(gone: Option<&Use>, through: Option<PathNo>, now: u64) -> Vote
    ensures { result ≡ vote_by (option_copied gone.entry) through now }
{
    match (gone, through) {
        (Some(used), _) => Vote::Ended {
            lease: used.no,
            until: used.until,
            now,
        },
        (None, Some(no)) => Vote::PathsOut { no },
        (None, None) => Vote::Yes,
    }
}

/// The first use without its row.
fn first_gone<'a>(
    rows: &Rows,
    modes: &ModeRows,
    session: Session,
    uses: &'a [Use],
) -> Option<&'a Use>
    ensures { option_copied result ≡ first_gone rows.now modes.now session uses.now }
{
    uses.iter()
        .find(|used| !has_row(rows, modes, session, used))
}

/// Whether the row of the lease stands.
fn has_row(rows: &Rows, modes: &ModeRows, session: Session, used: &Use) -> bool
    ensures { result ≡ has_row rows.now modes.now session used.now }
{
    if used.field.tells_no_mode() {
        rows.holds(used.no, session, &used.field, used.kind)
    } else {
        modes.holds(used.no, session, &used.field, used.kind)
    }
}

/// Locks the rows of the leases, each in its table.
fn lock_all(rows: &mut Rows, modes: &mut ModeRows, txn: TxnNo, uses: &[Use])
    ensures rows { rows.new ≡ rows_locked txn (uses_off uses.now) rows.old }
    ensures modes { modes.new ≡ rows_locked txn (uses_of_modes uses.now) modes.old }
{
    for used in uses {
        lock_one(rows, modes, txn, used);
    }
}

/// Locks the row of the lease in its table.
fn lock_one(rows: &mut Rows, modes: &mut ModeRows, txn: TxnNo, used: &Use)
    ensures rows { rows.new ≡ (if tells_no_mode used.now.field
        then map (locked_row used.now.no txn) rows.old else rows.old) }
    ensures modes { modes.new ≡ (if not (tells_no_mode used.now.field)
        then map (locked_row used.now.no txn) modes.old else modes.old) }
{
    if used.field.tells_no_mode() {
        rows.lock(used.no, txn);
    } else {
        modes.lock(used.no, txn);
    }
}
