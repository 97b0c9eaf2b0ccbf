//! Why what a server has below a prefix does not go.
ghost use Rattle.std.specs.Prelude.{◌≡◌, IfOk};
ghost use Rattle.fs_rows.specs.Moving.{least_of, locked_in};
ghost use Rattle.fs_parcel.specs.Parcel.{busy_or, move_refusal, paths_out};
ghost use Rattle.fs_parcel.specs.Rows.{in_one_list};

use crate::error::MoveError;
use fs_ident::{FileId, Memory, PathNo, Twin, TxnNo};
use fs_map::FileMap;
use fs_moderows::Live as LiveModes;
use fs_record::Records;
use fs_rows::Live as LivePlain;
use std::alloc::Global;

/// Why what `me` has below the prefix does not go to the server `to`, the first of the reasons; none where it may.
/// `through` is the least path lease that goes through a file that would go.
pub fn refusal(
    alloc: Global,
    records: &Records,
    rows: &LivePlain<'_>,
    modes: &LiveModes<'_>,
    map: &FileMap,
    me: u8,
    prefix: &FileId,
    to: u8,
    through: Option<PathNo>,
) -> Result<Option<MoveError>, Memory>
    ensures { IfOk result (λ why. why ≡
        move_refusal records.now (in_one_list rows.now modes.now) map.now me prefix.now to
        through) }
{
    let (listed, server) = map.owner(prefix);
    if server != me {
        return Ok(Some(MoveError::NotMine {
            prefix: listed.copy(alloc)?,
            to: server,
        }));
    }
    if records.get(prefix).is_none() {
        return Ok(Some(MoveError::NoFile));
    }
    if to == me {
        return Ok(Some(MoveError::Same));
    }
    Ok(busy(least_lock(rows, modes, map, me, prefix), through))
}

/// A transaction keeps a row, or else a path lease goes through.
fn busy(kept: Option<TxnNo>, through: Option<PathNo>) -> Option<MoveError>
    ensures { result ≡ busy_or kept (paths_out through) }
{
    match (kept, through) {
        (Some(txn), _) => Some(MoveError::Busy { txn }),
        (None, Some(no)) => Some(MoveError::Paths { no }),
        (None, None) => None,
    }
}

/// The least transaction that keeps a row, of either table, on a file that begins with the prefix and is `me`'s.
fn least_lock(
    rows: &LivePlain<'_>,
    modes: &LiveModes<'_>,
    map: &FileMap,
    me: u8,
    prefix: &FileId,
) -> Option<TxnNo>
    ensures { result ≡ locked_in prefix.now map.now me (in_one_list rows.now modes.now) }
{
    least(
        rows.locked_in(prefix, map, me),
        modes.locked_in(prefix, map, me),
    )
}

fn least(a: Option<TxnNo>, b: Option<TxnNo>) -> Option<TxnNo>
    ensures { result ≡ least_of a b }
{
    match (a, b) {
        (None, b) => b,
        (a, None) => a,
        (Some(a), Some(b)) => { if b < a { Some(b) } else { Some(a) } }
    }
}
