//! Parcels as bytes.
ghost use Rattle.std.specs.Prelude.{◌≡◌, ◌++◌, true, OnOk};
ghost use Rattle.fs_wire.specs.Readers.{Gives};
ghost use Rattle.fs_msg.specs.Spelling.{piece, parcel};
ghost use Rattle.fs_msg.specs.Reading.{piece_at, parcel_at};
ghost use Rattle.fs_msg.specs.Ranges.{FitsPiece, FitsParcel};
ghost use Rattle.fs_msg.specs.Readable.{is_readable_parcel};

use crate::bytes::record::{put_records, records_of};
use fs_field::Row;
use fs_ident::{FileId, List};
use fs_map::MapPiece;
use fs_record::Parcel;
use fs_wire::{ReadError, Wire};
use std::alloc::{AllocError, Global};

/// Adds the spelling of a part of a map at the end.
#[tactic(auto, unfolding(crate::specs::Spelling::piece))]
fn put_piece(p: &MapPiece, out: &mut Vec<u8>) -> Result<(), AllocError>
    ensures text { OnOk result (out.new.items ≡ out.old.items ++ piece p.now) }
    ensures fits { OnOk result (FitsPiece p.now) }
{
    p.prefix.put(out)?;
    p.given.put(out)
}

/// Adds the spelling of a parcel at the end.
#[tactic(auto, unfolding(crate::specs::Spelling::parcel))]
pub(crate) fn put_parcel(p: &Parcel, out: &mut Vec<u8>) -> Result<(), AllocError>
    ensures text { OnOk result (out.new.items ≡ out.old.items ++ parcel p.now) }
    ensures fits { OnOk result (is_readable_parcel p.now ≡ true → FitsParcel p.now) }
{
    p.prefix.put(out)?;
    put_piece(&p.piece, out)?;
    put_records(&p.records, out)?;
    p.rows.put(out)
}

/// The part of a map at the beginning, and the bytes behind it.
#[tactic(auto, unfolding(crate::specs::Reading::piece_at, fs_wire::specs::Readers::map_at))]
fn piece_of(alloc: Global, bytes: &[u8]) -> Result<(MapPiece, &[u8]), ReadError>
    ensures { Gives (λ x. (x.0, x.1.now)) result (piece_at bytes.now) }
{
    let ((prefix, given), rest) = <(FileId, List<(FileId, bool)>)>::get(alloc, bytes)?;
    Ok((MapPiece { prefix, given }, rest))
}

/// The parcel at the beginning, and the bytes behind it.
#[tactic(auto, unfolding(crate::specs::Reading::parcel_at, fs_wire::specs::Readers::pair_at, fs_wire::specs::Readers::then_at, fs_wire::specs::Readers::map_at))]
pub(crate) fn parcel_of(alloc: Global, bytes: &[u8]) -> Result<(Parcel, &[u8]), ReadError>
    ensures { Gives (λ x. (x.0, x.1.now)) result (parcel_at bytes.now) }
{
    let (prefix, rest) = FileId::get(alloc, bytes)?;
    let (piece, rest) = piece_of(alloc, rest)?;
    let (records, rest) = records_of(alloc, rest)?;
    let (rows, rest) = <List<Row>>::get(alloc, rest)?;
    let parcel = Parcel {
        prefix,
        piece,
        records,
        rows,
    };
    Ok((parcel, rest))
}
