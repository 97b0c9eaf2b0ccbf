//! The last numbers of the files right below a directory that rows are on, found by the index.
ghost use Rattle.std.specs.Prelude.{◌≡◌, ◌==◌, ℕ, true, IfOk};
ghost use Rattle.std.specs.List.{filter, list_any};
ghost use Rattle.std.specs.FinMap.{entries};
ghost use Rattle.fs_ident.specs.Maps.{map_of};
ghost use Rattle.fs_field.specs.Table.{borne_numbers, is_live, is_ordered};
ghost use Rattle.fs_rows.specs.Borne.{number_told, numbers_below};
ghost use Rattle.fs_rows.specs.Index.{IsIndexOf};

use crate::index::{FieldIndex, OnFile};
use fs_field::Row;
use fs_field::table::child_number;
use fs_ident::{FileId, List, Memory};
use std::alloc::Global;
use std::collections::BTreeMap;

/// The last numbers of the files right below the directory that rows are on which are not over.
pub(crate) fn borne_by(
    alloc: Global,
    rows: &[Row],
    index: &FieldIndex,
    now: u64,
    skew: u64,
    dir: &FileId,
) -> Result<List<u32>, Memory>
    requires index { IsIndexOf index.now rows.now }
    requires ordered { is_ordered rows.now ≡ true }
    requires whole { index.now.whole ≡ true }
    ensures { IfOk result (λ told. (k : ℕ) → list_any (λ b. b == k) told ≡
        list_any (λ b. b == k) (borne_numbers dir.now (filter (is_live now skew) rows.now))) }
{
    numbers_below(alloc, rows, index.files(), now, skew, dir)
}

/// Those of these files: the ones that begin with the directory stand together, from it on.
fn numbers_below(
    alloc: Global,
    rows: &[Row],
    files: &BTreeMap<FileId, OnFile>,
    now: u64,
    skew: u64,
    dir: &FileId,
) -> Result<List<u32>, Memory>
    requires { is_ordered rows.now ≡ true }
    ensures { IfOk result (λ told. told ≡
        numbers_below dir.now (filter (is_live now skew) rows.now) (entries (map_of files.now))) }
{
    let mut told = List::new(alloc);
    for entry in files.range(dir..) {
        if !entry.0.begins(dir) {
            return Ok(told);
        }
        if let Some(k) = number_told(rows, now, skew, dir, entry.0, entry.1) {
            told.push(k)?;
        }
    }
    Ok(told)
}

/// The last number of the file, where it stands right below the directory and a row is on it that is not over.
fn number_told(
    rows: &[Row],
    now: u64,
    skew: u64,
    dir: &FileId,
    file: &FileId,
    on_file: &OnFile,
) -> Option<u32>
    requires { is_ordered rows.now ≡ true }
    ensures { result ≡
        number_told dir.now (filter (is_live now skew) rows.now) (file.now, on_file.now) }
{
    match child_number(dir, file) {
        Some(k) => {
            if on_file.has_any(rows, now, skew) {
                Some(k)
            } else {
                None
            }
        }
        None => None,
    }
}
