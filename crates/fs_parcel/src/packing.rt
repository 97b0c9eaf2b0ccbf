//! Parcels, packed up where they go.
ghost use Rattle.std.specs.Prelude.{true, ◌≡◌, ◌≢◌, ◌⊎◌, Some, IfOk, OnOk, OnErr, IsErrOf};
ghost use Rattle.fs_map.specs.Lists.{map_after_give, piece_of};
ghost use Rattle.fs_map.specs.Map.{server_of};
ghost use Rattle.fs_moderows.specs.Table.{IsModeTable};
ghost use Rattle.fs_record.specs.Moving.{records_given, records_left};
ghost use Rattle.fs_rows.specs.Moving.{rows_given, rows_left};
ghost use Rattle.fs_rows.specs.Table.{IsTable};
ghost use Rattle.fs_parcel.specs.Parcel.{move_refusal, parcel_of};
ghost use Rattle.fs_parcel.specs.Rows.{are_one_list, in_one_list};
ghost use Rattle.fs_parcel.specs.declared.error.MoveError.{MoveError as TheError};
ghost use Rattle.fs_parcel.specs.declared.error.MoveError.TheVariants.{Memory as Wanting};

use crate::error::MoveError;
use crate::parts::merged;
use crate::refusing::refusal;
use fs_ident::{FileId, Memory, PathNo, Twin};
use fs_map::{FileMap, MapPiece};
use fs_moderows::{Live as LiveModes, ModeRows};
use fs_record::{Parcel, Records};
use fs_rows::{Live as LivePlain, Rows};
use std::alloc::Global;

/// A copy of all that `me` has below the prefix, which it manages. Nothing changes.
pub fn packed(
    alloc: Global,
    records: &Records,
    rows: &LivePlain<'_>,
    modes: &LiveModes<'_>,
    map: &FileMap,
    me: u8,
    prefix: &FileId,
) -> Result<Parcel, Memory>
    requires mine { server_of map.now prefix.now ≡ me }
    requires plain { IsTable rows.now }
    requires modes { IsModeTable modes.now }
    requires numbers { are_one_list rows.now modes.now ≡ true }
    ensures { IfOk result (λ p. p ≡
        parcel_of records.now (in_one_list rows.now modes.now) map.now me prefix.now) }
{
    let piece = map.piece(alloc, me, prefix)?;
    filled(alloc, records, rows, modes, piece)
}

/// The parcel of this piece, with copies of what it gives.
fn filled(
    alloc: Global,
    records: &Records,
    rows: &LivePlain<'_>,
    modes: &LiveModes<'_>,
    piece: MapPiece,
) -> Result<Parcel, Memory>
    requires plain { IsTable rows.now }
    requires modes { IsModeTable modes.now }
    requires numbers { are_one_list rows.now modes.now ≡ true }
    ensures prefix { IfOk result (λ p. p.prefix ≡ piece.prefix) }
    ensures piece { IfOk result (λ p. p.piece ≡ piece) }
    ensures records { IfOk result (λ p. p.records ≡
        records_given piece.prefix piece.given records.now) }
    ensures rows { IfOk result (λ p. p.rows ≡
        rows_given piece.prefix piece.given (in_one_list rows.now modes.now)) }
{
    let plain = rows.given(alloc, &piece)?;
    let of_modes = modes.given(alloc, &piece)?;
    Ok(Parcel {
        prefix: piece.prefix.copy(alloc)?,
        records: records.given(alloc, &piece)?,
        rows: merged(alloc, plain, of_modes)?,
        piece,
    })
}

/// Takes all that `me` has below the prefix away, for the server `to`, which manages it from now on. `through` is the
/// least path lease that goes through a file that would go. After an error all is as it was. No number stands in both
/// tables: `are_one_list` is the test.
pub fn pack_up(
    alloc: Global,
    records: &mut Records,
    rows: &mut Rows,
    modes: &mut ModeRows,
    map: &mut FileMap,
    me: u8,
    prefix: &FileId,
    to: u8,
    through: Option<PathNo>,
) -> Result<Parcel, MoveError>
    requires { are_one_list rows.old modes.old ≡ true }
    ensures parcel { IfOk result (λ p. p ≡
        parcel_of records.old (in_one_list rows.old modes.old) map.old me prefix.now) }
    ensures records { OnOk result
        (records.new ≡ records_left prefix.now (piece_of map.old me prefix.now) records.old) }
    ensures rows { OnOk result
        (rows.new ≡ rows_left prefix.now (piece_of map.old me prefix.now) rows.old) }
    ensures modes { OnOk result
        (modes.new ≡ rows_left prefix.now (piece_of map.old me prefix.now) modes.old) }
    ensures map { OnOk result (map.new ≡ map_after_give map.old me prefix.now to) }
    ensures refused { (e : TheError) → e ≢ Wanting → IsErrOf result e →
        move_refusal records.old (in_one_list rows.old modes.old) map.old me prefix.now to through ≡
        Some e }
    ensures only { (e : TheError) →
        move_refusal records.old (in_one_list rows.old modes.old) map.old me prefix.now to through ≡
        Some e → IsErrOf result e ⊎ IsErrOf result Wanting }
    ensures err_records { OnErr result (records.new ≡ records.old) }
    ensures err_rows { OnErr result (rows.new ≡ rows.old) }
    ensures err_modes { OnErr result (modes.new ≡ modes.old) }
    ensures err_map { OnErr result (map.new ≡ map.old) }
{
    let plain = rows.all();
    let of_modes = modes.all();
    if let Some(why) = refusal(
        alloc, records, &plain, &of_modes, map, me, prefix, to, through,
    )? {
        return Err(why);
    }
    let piece = map.piece(alloc, me, prefix)?;
    let p = filled(alloc, records, &plain, &of_modes, piece)?;
    map.take(alloc, to, &p.piece)?;
    records.leave_these(&p.piece, &p.records);
    rows.leave(&p.piece);
    modes.leave(&p.piece);
    Ok(p)
}
