//! The numbers that a directory gives to new files.
ghost use Rattle.std.specs.Prelude.{◌≡◌, ◌↔◌, ◌≤◌, ◌<◌, true, false, IfOk, OnOk, OnErr, IsErrOf, IfSome, Some, None, length, option_map};
ghost use Rattle.fs_ident.specs.Ident.{child};
ghost use Rattle.fs_record.specs.Fresh.{is_borne, free_from, fresh_number, is_directory, records_after_gift};
ghost use Rattle.fs_record.specs.Records.{AreRecords};
ghost use Rattle.fs_ident.specs.Maps.{map_of};
ghost use Rattle.fs_record.specs.declared.error.FreshError.TheVariants.{NoDir, NoIds};

use crate::changes::set_next;
use crate::error::FreshError;
use crate::lookups::{next, node};
use crate::record::Record;
use fs_ident::{DEPTH, FileId, IdError, Kind};
use std::alloc::Global;
use std::collections::BTreeMap;

/// The first number that no identifier has.
const NUMBERS_END: u64 = 4294967296;

/// Gives an identifier for a new file in the directory.
pub fn fresh(
    alloc: Global,
    records: &mut BTreeMap<FileId, Record>,
    dir: &FileId,
    borne: &[u32],
) -> Result<FileId, FreshError>
    requires { AreRecords (map_of records.old) }
    ensures ok { IfOk result (λ id. Some id ≡
        option_map (child dir.now) (fresh_number (map_of records.old) dir.now borne.now)) }
    ensures records { OnOk result (map_of records.new ≡
        records_after_gift (map_of records.old) dir.now
        (fresh_number (map_of records.old) dir.now borne.now)) }
    ensures no_dir { IsErrOf result NoDir ↔ (is_directory (map_of records.old) dir.now ≡ false) }
    ensures no_ids { IsErrOf result NoIds ↔ ((is_directory (map_of records.old) dir.now ≡ true) ×
        (fresh_number (map_of records.old) dir.now borne.now ≡ None)) }
    ensures err { OnErr result (map_of records.new ≡ map_of records.old) }
{
    let (id, k) = fresh_id(alloc, records, dir, borne)?;
    gift(records, dir, k);
    Ok(id)
}

/// The identifier that a new file in the directory would be given, and its last number.
pub fn fresh_id(
    alloc: Global,
    records: &BTreeMap<FileId, Record>,
    dir: &FileId,
    borne: &[u32],
) -> Result<(FileId, u32), FreshError>
    requires { AreRecords (map_of records.now) }
    ensures id { IfOk result (λ given. given.0 ≡ child dir.now given.1) }
    ensures number { IfOk result (λ given.
        fresh_number (map_of records.now) dir.now borne.now ≡ Some given.1) }
    ensures no_dir { IsErrOf result NoDir ↔ (is_directory (map_of records.now) dir.now ≡ false) }
    ensures no_ids { IsErrOf result NoIds ↔ ((is_directory (map_of records.now) dir.now ≡ true) ×
        (fresh_number (map_of records.now) dir.now borne.now ≡ None)) }
{
    if !is_directory(records, dir) {
        return Err(FreshError::NoDir);
    }
    let Some(k) = fresh_number(records, dir, borne) else {
        return Err(FreshError::NoIds);
    };
    Ok((below(alloc, dir, k)?, k))
}

/// Gives the number: the directory goes on behind it.
pub fn gift(records: &mut BTreeMap<FileId, Record>, dir: &FileId, k: u32)
    ensures { map_of records.new ≡ records_after_gift (map_of records.old) dir.now (Some k) }
{
    set_next(records, dir, u64::from(k) + 1);
}

/// Whether the directory has a record here.
pub fn is_directory(records: &BTreeMap<FileId, Record>, dir: &FileId) -> bool
    requires { AreRecords (map_of records.now) }
    ensures { result ≡ is_directory (map_of records.now) dir.now }
{
    match node(records, dir) {
        Some(node) => node.kind == Kind::Dir,
        None => false,
    }
}

/// The number of the new file, if there is one.
fn fresh_number(records: &BTreeMap<FileId, Record>, dir: &FileId, borne: &[u32]) -> Option<u32>
    requires { AreRecords (map_of records.now) }
    ensures same { result ≡ fresh_number (map_of records.now) dir.now borne.now }
    ensures positive { IfSome result (λ k. 1 ≤ k) }
    ensures shallow { IfSome result (λ _. length dir.now < DEPTH) }
{
    if dir.numbers().len() == DEPTH {
        return None;
    }
    free_from(next(records, dir), borne)
}

/// The least number from `next` on that is not borne.
#[tactic(auto, using(crate::proofs::FreshNumbers::free_step, crate::proofs::FreshNumbers::free_end))]
fn free_from(next: u64, borne: &[u32]) -> Option<u32>
    ensures same { result ≡ free_from next borne.now }
    ensures from { IfSome result (λ k. next ≤ k) }
{
    for k in next..NUMBERS_END {
        let k = k as u32;
        if !is_borne(borne, k) {
            return Some(k);
        }
    }
    None
}

fn is_borne(borne: &[u32], k: u32) -> bool
    ensures { result ≡ is_borne borne.now k }
{
    borne.iter().any(|b| *b == k)
}

/// The identifier with the number appended.
fn below(alloc: Global, dir: &FileId, k: u32) -> Result<FileId, FreshError>
    requires positive { 1 ≤ k }
    requires shallow { length dir.now < DEPTH }
    ensures ok { IfOk result (λ id. id ≡ child dir.now k) }
    ensures no_dir { IsErrOf result NoDir → ⊥ }
    ensures no_ids { IsErrOf result NoIds → ⊥ }
{
    match dir.child(alloc, k) {
        Ok(id) => Ok(id),
        Err(IdError::Memory) => Err(FreshError::Memory),
        Err(_) => unreachable!(),
    }
}
