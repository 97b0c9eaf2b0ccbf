//! Changes of one record.
ghost use Rattle.std.specs.Prelude.{◌≡◌, true, IfOk, OnOk, OnErr, None, Some};
ghost use Rattle.std.specs.FinMap as map;
ghost use Rattle.fs_field.specs.declared.effect.Effect.TheVariants.{SetChild, SetParent, NewNode, RemoveNode, AddHandle, RemoveHandle, SetInfo};
ghost use Rattle.fs_record.specs.Applied.{records_after, takes_away};
ghost use Rattle.fs_record.specs.Fresh.{with_next};
ghost use Rattle.fs_record.specs.Records.{AreRecords};
ghost use Rattle.fs_ident.specs.Maps.{map_of};

use crate::lookups::next;
use crate::record::Record;
use fs_field::Effect;
use fs_ident::{FileId, Kind, Memory, Name, Session, Twin, copy_two};
use fs_model::{Handle, Node, children, handles};
use std::alloc::Global;
use std::collections::BTreeMap;

/// Does the effect, or nothing where its file has no record, unless the file begins to live.
pub fn apply(
    alloc: Global,
    records: &mut BTreeMap<FileId, Record>,
    e: &Effect,
) -> Result<(), Memory>
    requires { AreRecords (map_of records.old) }
    ensures ok { OnOk result (map_of records.new ≡ records_after (map_of records.old) e.now) }
    ensures err { OnErr result (map_of records.new ≡ map_of records.old) }
{
    match e {
        Effect::SetChild {
            dir,
            name,
            to: Some(file),
        } => return link(alloc, records, dir, name, file),
        Effect::SetChild {
            dir,
            name,
            to: None,
        } => unlink(records, dir, name),
        Effect::SetParent { file, dir, name } => return place(alloc, records, file, dir, name),
        Effect::NewNode {
            file,
            kind,
            dir,
            name,
        } => return begin(alloc, records, file, *kind, dir, name),
        Effect::RemoveNode { file } => remove(records, file),
        Effect::AddHandle {
            file,
            session,
            h,
            modes,
        } => {
            let handle = Handle {
                session: *session,
                h: *h,
                modes: *modes,
            };
            return open(records, file, handle);
        }
        Effect::RemoveHandle { file, session, h } => close(records, file, *session, *h),
        Effect::SetInfo { file, size, stamp } => set(records, file, *size, *stamp),
    }
    Ok(())
}

/// Takes the name or the file of the effect away.
pub fn take_away(records: &mut BTreeMap<FileId, Record>, e: &Effect)
    requires kept { AreRecords (map_of records.old) }
    requires removal { takes_away e.now ≡ true }
    ensures { map_of records.new ≡ records_after (map_of records.old) e.now }
{
    match e {
        Effect::SetChild {
            dir,
            name,
            to: None,
        } => unlink(records, dir, name),
        Effect::RemoveNode { file } => remove(records, file),
        _ => unreachable!(),
    }
}

/// Gives the file this record, whatever it had.
pub fn add(records: &mut BTreeMap<FileId, Record>, file: FileId, kept: Record) -> Result<(), Memory>
    ensures ok { OnOk result (map_of records.new ≡ map.insert (map_of records.old) file kept) }
    ensures err { OnErr result (map_of records.new ≡ map_of records.old) }
{
    drop(swap(records, file, kept)?);
    Ok(())
}

/// Gives the file this record, and hands out what it had.
#[tactic(auto, using(fs_ident::proofs::MapsOf::maps))]
fn swap(
    records: &mut BTreeMap<FileId, Record>,
    file: FileId,
    kept: Record,
) -> Result<Option<Record>, Memory>
    ensures ok { OnOk result (map_of records.new ≡ map.insert (map_of records.old) file kept) }
    ensures was { IfOk result (λ was. was ≡ map.get (map_of records.old) file) }
    ensures err { OnErr result (map_of records.new ≡ map_of records.old) }
{
    Ok(records.insert(file, kept)?)
}

/// Lets the name stand for the file.
#[tactic(auto, using(fs_ident::proofs::MapsOf::maps, fs_ident::proofs::MapsOf::map_of_absent))]
fn link(
    alloc: Global,
    records: &mut BTreeMap<FileId, Record>,
    dir: &FileId,
    name: &Name,
    file: &FileId,
) -> Result<(), Memory>
    requires { AreRecords (map_of records.old) }
    ensures ok { OnOk result (map_of records.new ≡
        records_after (map_of records.old) (SetChild dir.now name.now (Some file.now))) }
    ensures err { OnErr result (map_of records.new ≡ map_of records.old) }
{
    let (name, file) = copy_two(alloc, name, file)?;
    match records.get_mut(dir) {
        Some(record) => children::link(&mut record.node.children, name, file),
        None => Ok(()),
    }
}

/// Lets the name stand for no file.
#[tactic(auto, using(fs_ident::proofs::MapsOf::maps, fs_ident::proofs::MapsOf::map_of_absent))]
pub fn unlink(records: &mut BTreeMap<FileId, Record>, dir: &FileId, name: &Name)
    requires { AreRecords (map_of records.old) }
    ensures { map_of records.new ≡
        records_after (map_of records.old) (SetChild dir.now name.now None) }
{
    match records.get_mut(dir) {
        Some(record) => {
            children::take(&mut record.node.children, name);
        }
        None => {}
    }
}

/// Puts the file into another place.
#[tactic(auto, using(fs_ident::proofs::MapsOf::maps, fs_ident::proofs::MapsOf::map_of_absent))]
fn place(
    alloc: Global,
    records: &mut BTreeMap<FileId, Record>,
    file: &FileId,
    dir: &FileId,
    name: &Name,
) -> Result<(), Memory>
    ensures ok { OnOk result (map_of records.new ≡
        records_after (map_of records.old) (SetParent file.now dir.now name.now)) }
    ensures err { OnErr result (map_of records.new ≡ map_of records.old) }
{
    let place = copy_two(alloc, dir, name)?;
    match records.get_mut(file) {
        Some(record) => record.node.parent = Some(place),
        None => {}
    }
    Ok(())
}

/// Makes the file anew.
fn begin(
    alloc: Global,
    records: &mut BTreeMap<FileId, Record>,
    file: &FileId,
    kind: Kind,
    dir: &FileId,
    name: &Name,
) -> Result<(), Memory>
    requires { AreRecords (map_of records.old) }
    ensures ok { OnOk result (map_of records.new ≡
        records_after (map_of records.old) (NewNode file.now kind dir.now name.now)) }
    ensures err { OnErr result (map_of records.new ≡ map_of records.old) }
{
    drop(make(alloc, records, file, kind, dir, name)?);
    Ok(())
}

/// Makes the file anew, and hands out the record that it had. That one's next number is kept, and else the first is 1.
#[tactic(auto, using(fs_ident::proofs::MapsOf::maps))]
pub fn make(
    alloc: Global,
    records: &mut BTreeMap<FileId, Record>,
    file: &FileId,
    kind: Kind,
    dir: &FileId,
    name: &Name,
) -> Result<Option<Record>, Memory>
    requires { AreRecords (map_of records.old) }
    ensures ok { OnOk result (map_of records.new ≡
        records_after (map_of records.old) (NewNode file.now kind dir.now name.now)) }
    ensures was { IfOk result (λ was. was ≡ map.get (map_of records.old) file.now) }
    ensures err { OnErr result (map_of records.new ≡ map_of records.old) }
{
    let made = file.copy(alloc)?;
    let place = copy_two(alloc, dir, name)?;
    let record = Record {
        node: Node::new(alloc, kind, Some(place)),
        next: next(records, file),
    };
    swap(records, made, record)
}

/// Takes the record away.
pub fn remove(records: &mut BTreeMap<FileId, Record>, file: &FileId)
    ensures { map_of records.new ≡ records_after (map_of records.old) (RemoveNode file.now) }
{
    records.remove(file);
}

/// Lets the session have the file open.
#[tactic(auto, using(fs_ident::proofs::MapsOf::maps, fs_ident::proofs::MapsOf::map_of_absent))]
fn open(records: &mut BTreeMap<FileId, Record>, file: &FileId, handle: Handle) -> Result<(), Memory>
    requires { AreRecords (map_of records.old) }
    ensures ok { OnOk result (map_of records.new ≡
        records_after (map_of records.old)
        (AddHandle file.now handle.session handle.h handle.modes)) }
    ensures err { OnErr result (map_of records.new ≡ map_of records.old) }
{
    match records.get_mut(file) {
        Some(record) => handles::reopen(&mut record.node.handles, handle),
        None => Ok(()),
    }
}

/// Takes away what the session has under the handle.
#[tactic(auto, using(fs_ident::proofs::MapsOf::maps, fs_ident::proofs::MapsOf::map_of_absent))]
fn close(records: &mut BTreeMap<FileId, Record>, file: &FileId, session: Session, h: u32)
    ensures { map_of records.new ≡
        records_after (map_of records.old) (RemoveHandle file.now session h) }
{
    match records.get_mut(file) {
        Some(record) => handles::close(&mut record.node.handles, session, h),
        None => {}
    }
}

/// Sets size and stamp.
#[tactic(auto, using(fs_ident::proofs::MapsOf::maps, fs_ident::proofs::MapsOf::map_of_absent))]
pub fn set(records: &mut BTreeMap<FileId, Record>, file: &FileId, size: u64, stamp: u64)
    ensures { map_of records.new ≡
        records_after (map_of records.old) (SetInfo file.now size stamp) }
{
    match records.get_mut(file) {
        Some(record) => {
            record.node.size = size;
            record.node.stamp = stamp;
        }
        None => {}
    }
}

/// Sets the next number of the file, if it has a record.
#[tactic(auto, using(fs_ident::proofs::MapsOf::maps))]
pub fn set_next(records: &mut BTreeMap<FileId, Record>, file: &FileId, next: u64)
    ensures { map_of records.new ≡
        with_next (map_of records.old) file.now next (map.get (map_of records.old) file.now) }
{
    match records.get_mut(file) {
        Some(record) => record.next = next,
        None => {}
    }
}
