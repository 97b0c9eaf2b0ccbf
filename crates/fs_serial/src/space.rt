//! The namespace that servers hold.
ghost use Rattle.std.specs.Prelude.{◌≡◌, ◌≤◌, ◌^◌, map, IfOk, OnOk};
ghost use Rattle.std.specs.FinMap as finite;
ghost use Rattle.fs_ident.specs.In.{In};
ghost use Rattle.fs_model.specs.Namespace.{IsInOrder};
ghost use Rattle.fs_record.specs.Records.{next_of, nodes_of};
ghost use Rattle.fs_record.specs.declared.parcel.Parcel.{Parcel as TheParcel};
ghost use Rattle.fs_record.specs.Moving.{AreInOrder};
ghost use Rattle.fs_serial.specs.Joined.{records_of_all, with_node, with_nodes, with_nodes_in};
ghost use Rattle.fs_txn.specs.Decided.{held_with};

use fs_field::Effect;
use fs_ident::{FileId, List, Memory, Twin};
use fs_model::{Node, Space};
use fs_record::{Parcel, Record, Records};
use fs_server::ServerCore;
use std::alloc::Global;

/// The namespace that the servers and the parcels on their way between them hold together, with what was decided and is on its
/// way to the servers of its files. Where several have one file, the last counts: no two of honest servers have. The children
/// and the handles of each parcel's records are in order: `Record::is_in_order` is the test.
pub fn joined(
    alloc: Global,
    servers: &List<ServerCore>,
    in_flight: &List<Parcel>,
    decided: &List<Effect>,
) -> Result<Space, Memory>
    requires { (p : TheParcel) → In p in_flight.now → AreInOrder p.records }
    ensures { IfOk result (λ space. space ≡ nodes_of
        (held_with decided.now (records_of_all servers.now in_flight.now))) }
{
    let mut all = held(alloc, servers, in_flight)?;
    for e in decided.as_slice() {
        all.apply(alloc, e)?;
    }
    let mut space = Space::empty(alloc);
    put_records(alloc, &all, &mut space)?;
    Ok(space)
}

/// Records with the nodes of all that the servers and the parcels hold.
fn held(
    alloc: Global,
    servers: &List<ServerCore>,
    in_flight: &List<Parcel>,
) -> Result<Records, Memory>
    requires { (p : TheParcel) → In p in_flight.now → AreInOrder p.records }
    ensures { IfOk result (λ all. nodes_of all ≡
        nodes_of (records_of_all servers.now in_flight.now)) }
{
    let mut all = Records::new(alloc, false)?;
    for server in servers.as_slice() {
        take_records(alloc, server.records(), &mut all)?;
    }
    for parcel in in_flight.as_slice() {
        take_all(alloc, parcel.records.as_slice(), &mut all)?;
    }
    Ok(all)
}

/// Takes over the nodes of these records.
fn take_records(alloc: Global, records: &Records, all: &mut Records) -> Result<(), Memory>
    ensures { OnOk result (nodes_of all.new ≡
        with_nodes records.now (finite.keys records.now) (nodes_of all.old)) }
{
    let files = records.files(alloc)?;
    for file in files.as_slice() {
        take_node(alloc, records, file, all)?;
    }
    Ok(())
}

/// Takes over the node of the file, if it has one.
fn take_node(
    alloc: Global,
    records: &Records,
    file: &FileId,
    all: &mut Records,
) -> Result<(), Memory>
    ensures { OnOk result (nodes_of all.new ≡
        with_node file.now (finite.get records.now file.now) (nodes_of all.old)) }
{
    match records.get(file) {
        Some(record) => take(alloc, file, &record.node, all),
        None => Ok(()),
    }
}

/// Takes over the nodes of all of these.
fn take_all(alloc: Global, records: &[(FileId, Record)], all: &mut Records) -> Result<(), Memory>
    requires { AreInOrder records.now }
    ensures { OnOk result (nodes_of all.new ≡ with_nodes_in records.now (nodes_of all.old)) }
{
    for entry in records {
        take(alloc, &entry.0, &entry.1.node, all)?;
    }
    Ok(())
}

/// Gives the file this node.
fn take(alloc: Global, file: &FileId, node: &Node, all: &mut Records) -> Result<(), Memory>
    requires { IsInOrder node.now }
    ensures { OnOk result (nodes_of all.new ≡
        finite.insert (nodes_of all.old) file.now node.now) }
{
    let next = next_in(all, file);
    let node = node.copy(alloc)?;
    all.put(file.copy(alloc)?, Record { node, next })?;
    Ok(())
}

/// The file's next number, which does not fall.
fn next_in(all: &Records, file: &FileId) -> u64
    ensures same { result ≡ next_of (finite.get all.now file.now) }
    ensures least { 1 ≤ result }
    ensures most { result ≤ 2 ^ 32 }
{
    match all.get(file) {
        Some(record) => record.next,
        None => 1,
    }
}

/// Gives each of the files the node of its record.
fn put_records(alloc: Global, records: &Records, space: &mut Space) -> Result<(), Memory>
    ensures { OnOk result (space.new ≡
        with_nodes records.now (finite.keys records.now) space.old) }
{
    let files = records.files(alloc)?;
    for file in files.as_slice() {
        put_node(alloc, records, file, space)?;
    }
    Ok(())
}

/// Gives the file the node of its record, if it has one.
fn put_node(
    alloc: Global,
    records: &Records,
    file: &FileId,
    space: &mut Space,
) -> Result<(), Memory>
    ensures { OnOk result (space.new ≡
        with_node file.now (finite.get records.now file.now) space.old) }
{
    match records.get(file) {
        Some(record) => space.put(alloc, file, record.node.copy(alloc)?),
        None => Ok(()),
    }
}
