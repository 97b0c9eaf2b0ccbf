//! Looking up records.
ghost use Rattle.std.specs.Prelude.{◌≡◌, ◌≤◌, IfOk, IfSome};
ghost use Rattle.std.specs.FinMap as map;
ghost use Rattle.std.specs.Option.{option_copied};
ghost use Rattle.fs_model.specs.Namespace.{IsInOrder};
ghost use Rattle.fs_record.specs.Records.{AreRecords, node_of, next_of};
ghost use Rattle.fs_ident.specs.Maps.{map_of};

use crate::record::Record;
use fs_ident::{FileId, List, Memory, add_copy};
use fs_model::Node;
use std::alloc::Global;
use std::collections::BTreeMap;

/// The record of the file.
#[tactic(auto, using(fs_ident::proofs::MapsOf::maps))]
pub fn record<'a>(records: &'a BTreeMap<FileId, Record>, id: &FileId) -> Option<&'a Record>
    ensures { option_copied result ≡ map.get (map_of records.now) id.now }
{
    records.get(id)
}

/// The node of the file.
#[tactic(auto, using(fs_ident::proofs::MapsOf::maps))]
pub fn node<'a>(records: &'a BTreeMap<FileId, Record>, id: &FileId) -> Option<&'a Node>
    requires { AreRecords (map_of records.now) }
    ensures same { option_copied result ≡ node_of (map.get (map_of records.now) id.now) }
    ensures in_order { IfSome result (λ n. IsInOrder n.now) }
{
    match records.get(id) {
        Some(record) => Some(&record.node),
        None => None,
    }
}

/// The next number of the file, which is 1 where it has no record.
#[tactic(auto, using(fs_ident::proofs::MapsOf::maps))]
pub fn next(records: &BTreeMap<FileId, Record>, id: &FileId) -> u64
    requires { AreRecords (map_of records.now) }
    ensures same { result ≡ next_of (map.get (map_of records.now) id.now) }
    ensures positive { 1 ≤ result }
    ensures bound { result ≤ 4294967296 }
{
    match records.get(id) {
        Some(record) => record.next,
        None => 1,
    }
}

/// The identifiers that have a value, in order.
pub fn files<V>(alloc: Global, records: &BTreeMap<FileId, V>) -> Result<List<FileId>, Memory>
    ensures { IfOk result (λ ids. ids ≡ map.keys (map_of records.now)) }
{
    let mut ids = List::from_vec(Vec::with_capacity(alloc, records.len())?);
    for id in records.keys() {
        add_copy(alloc, &mut ids, id)?;
    }
    Ok(ids)
}
