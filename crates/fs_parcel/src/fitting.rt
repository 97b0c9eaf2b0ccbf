//! Whether a parcel is one that an honest server sends.
ghost use Rattle.std.specs.Prelude.{◌≡◌, ◌&&◌, true, IfOk};
ghost use Rattle.std.specs.List.{list_all, list_any};
ghost use Rattle.fs_ident.specs.Ident.{same};
ghost use Rattle.fs_ident.specs.Ordered.{are_keys_in_order};
ghost use Rattle.fs_map.specs.Map.{gives};
ghost use Rattle.fs_moderows.specs.Table.{IsModeTable};
ghost use Rattle.fs_record.specs.Moving.{are_distinct};
ghost use Rattle.fs_moderows.specs.Moving.{selves_listed};
ghost use Rattle.fs_moderows.specs.Moving as on_modes;
ghost use Rattle.fs_rows.specs.Moving as off_modes;
ghost use Rattle.fs_rows.specs.Moving.{are_new, is_on_given};
ghost use Rattle.fs_rows.specs.Table.{IsTable};
ghost use Rattle.fs_parcel.specs.Parcel.{fits, is_elsewhere, is_formed, is_in_order, is_of_given, rows_fit, selves_of_records};
ghost use Rattle.fs_parcel.specs.Rows.{are_one_list, in_one_list};

use crate::in_order::files_rise;
use crate::parts::Parts;
use fs_field::Row;
use fs_ident::{FileId, List, Memory, Session, Twin};
use fs_map::{FileMap, MapPiece};
use fs_moderows::{Live as LiveModes, ModeRows};
use fs_modes::Modes;
use fs_record::{Parcel, Record, Records, selves};
use fs_rows::{Live as LivePlain, Rows};
use std::alloc::Global;

/// Whether the parcel is one that an honest server sends to `me`: its piece is the reduced list of its prefix; its records
/// and rows are on identifiers that it gives, of which none is managed here or has a record here; no two records are of
/// one file, and each is strictly sorted; the numbers of its rows differ from one another and from all here, and none of
/// them conflicts with another or with one here. That a number of this server's was given is not asked here. No number
/// stands in both tables.
pub fn fits(
    alloc: Global,
    records: &Records,
    rows: &Rows,
    modes: &ModeRows,
    map: &FileMap,
    me: u8,
    p: &Parcel,
) -> Result<bool, Memory>
    requires { are_one_list rows.now modes.now ≡ true }
    ensures { IfOk result (λ fit. fit ≡
        fits records.now (in_one_list rows.now modes.now) map.now me p.now) }
{
    fits_at(alloc, records, &rows.all(), &modes.all(), map, me, p)
}

/// Whether the parcel is one for `fits`, where only the rows that are not over at a reading count here.
pub fn fits_at(
    alloc: Global,
    records: &Records,
    rows: &LivePlain<'_>,
    modes: &LiveModes<'_>,
    map: &FileMap,
    me: u8,
    p: &Parcel,
) -> Result<bool, Memory>
    requires plain { IsTable rows.now }
    requires modes { IsModeTable modes.now }
    requires numbers { are_one_list rows.now modes.now ≡ true }
    ensures { IfOk result (λ fit. fit ≡
        fits records.now (in_one_list rows.now modes.now) map.now me p.now) }
{
    if !is_formed(p) || !is_of_given(p) || !is_elsewhere(records, map, me, p) {
        return Ok(false);
    }
    rows_fit(alloc, rows, modes, p)
}

/// Whether the piece is one of the prefix, and the records are in order, no two of one file.
fn is_formed(p: &Parcel) -> bool
    ensures { result ≡ is_formed p.now }
{
    p.piece.prefix == p.prefix
        && p.piece.is_piece()
        && are_distinct(p.records.as_slice())
        && are_in_order(p.records.as_slice())
}

/// Whether no two records are of one file. Where they stand in order of identifier, as an honest server sends them, one
/// walk over them tells it.
fn are_distinct(records: &[(FileId, Record)]) -> bool
    ensures { result ≡ are_distinct records.now }
{
    files_rise(records) || are_apart(records)
}

/// Whether no two records are of one file, in any order: each pair is compared.
fn are_apart(records: &[(FileId, Record)]) -> bool
    ensures { result ≡ are_distinct records.now }
{
    let mut rest = records;
    while let Some((first, later)) = rest.split_first() {
        if has_record(later, &first.0) {
            return false;
        }
        rest = later;
    }
    true
}

fn has_record(records: &[(FileId, Record)], file: &FileId) -> bool
    ensures { result ≡ list_any (λ e. same e.0 file.now) records.now }
{
    records.iter().any(|entry| entry.0 == *file)
}

/// Whether the children and the handles of each record rise.
fn are_in_order(records: &[(FileId, Record)]) -> bool
    ensures { result ≡ list_all (λ e. is_in_order e.1) records.now }
{
    records.iter().all(|entry| entry.1.is_in_order())
}

/// Whether all records and rows are of identifiers that the piece gives.
fn is_of_given(p: &Parcel) -> bool
    requires { is_formed p.now ≡ true }
    ensures { result ≡ is_of_given p.now }
{
    are_records_given(&p.piece, p.records.as_slice()) && are_rows_given(&p.piece, p.rows.as_slice())
}

fn are_records_given(piece: &MapPiece, records: &[(FileId, Record)]) -> bool
    requires { are_keys_in_order piece.now.given ≡ true }
    ensures { result ≡
        list_all (λ e. gives piece.now.prefix piece.now.given e.0) records.now }
{
    records.iter().all(|entry| piece.finds(&entry.0))
}

fn are_rows_given(piece: &MapPiece, rows: &[Row]) -> bool
    requires { are_keys_in_order piece.now.given ≡ true }
    ensures { result ≡ list_all (is_on_given piece.now.prefix piece.now.given) rows.now }
{
    rows.iter().all(|row| piece.finds(row.field.file()))
}

/// Whether nothing that the piece gives is here.
fn is_elsewhere(records: &Records, map: &FileMap, me: u8, p: &Parcel) -> bool
    requires { is_formed p.now ≡ true }
    ensures { result ≡ is_elsewhere records.now map.now me p.now }
{
    !map.owns_given(me, &p.piece) && !records.has_given(&p.piece)
}

/// Whether the rows have new numbers, and none conflicts.
fn rows_fit(
    alloc: Global,
    rows: &LivePlain<'_>,
    modes: &LiveModes<'_>,
    p: &Parcel,
) -> Result<bool, Memory>
    requires plain { IsTable rows.now }
    requires modes { IsModeTable modes.now }
    requires numbers { are_one_list rows.now modes.now ≡ true }
    ensures { IfOk result (λ fit. fit ≡ rows_fit (in_one_list rows.now modes.now) p.now) }
{
    if !are_new(rows, modes, &p.rows) {
        return Ok(false);
    }
    let parts = Parts::of(alloc, p.rows.copy(alloc)?)?;
    let selves = selves_of_records(alloc, p.records.as_slice())?;
    Ok(go_beside(rows, modes, &selves, &parts))
}

/// Whether the numbers of the rows differ from one another and from those in both tables.
fn are_new(rows: &LivePlain<'_>, modes: &LiveModes<'_>, more: &List<Row>) -> bool
    ensures { result ≡ are_new (in_one_list rows.now modes.now) more.now }
{
    rows.are_new(more) && modes.are_new(more)
}

/// Whether each table takes its part.
fn go_beside(
    rows: &LivePlain<'_>,
    modes: &LiveModes<'_>,
    selves: &List<(FileId, List<(Session, Modes)>)>,
    parts: &Parts,
) -> bool
    ensures { result ≡ (off_modes.fits rows.now parts.now.plain &&
        on_modes.fits (selves_listed selves.now) modes.now parts.now.modes) }
{
    rows.fits(&parts.plain) && modes.fits(selves, &parts.modes)
}

/// The sessions with handles on the file of each record, with the modes of each.
fn selves_of_records(
    alloc: Global,
    records: &[(FileId, Record)],
) -> Result<List<(FileId, List<(Session, Modes)>)>, Memory>
    ensures { IfOk result (λ told. told ≡ selves_of_records records.now) }
{
    let mut told = List::new(alloc);
    for (id, kept) in records {
        told.push((
            id.copy(alloc)?,
            selves(alloc, kept.node.handles.as_slice())?,
        ))?;
    }
    Ok(told)
}
