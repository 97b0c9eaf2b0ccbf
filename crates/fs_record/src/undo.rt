//! Taking an effect back without memory.
ghost use Rattle.std.specs.Prelude.{◌≡◌, IsTrue, false, true, IfOk, IfSome, Some};
ghost use Rattle.std.specs.FinMap as map;
ghost use Rattle.std.specs.Option.{option_copied};
ghost use Rattle.fs_ident.specs.Maps.{map_of};
ghost use Rattle.fs_ident.specs.Ordered.{are_keys_in_order};
ghost use Rattle.fs_model.specs.Namespace.{IsInOrder};
ghost use Rattle.fs_model.specs.Sound.{child_of, parent_of};
ghost use Rattle.fs_field.specs.After.{changed_file};
ghost use Rattle.fs_record.specs.Applied.{is_birth, is_undoable, with_at};
ghost use Rattle.fs_record.specs.Records.{AreRecords};
ghost use Rattle.fs_record.specs.ValueOf.{handles_of, info_of};
ghost use Rattle.fs_record.specs.Undo.{part_of, with_child_again, with_part, undone, undone_all, AreRecordsBack};
ghost use Rattle.fs_record.specs.declared.undo.Part.TheVariants.{Child, Parent, Handles, Info, Whole};

use crate::changes::{remove, set, unlink};
use crate::lookups::node;
use crate::record::Record;
use crate::values::child;
use fs_field::Effect;
use fs_ident::{FileId, List, Memory, Name, Twin, search_by_name};
use fs_model::{Handle, Node};
use std::alloc::Global;
use std::collections::BTreeMap;
use std::mem;

/// What an effect changes, as it was before.
#[derive(Drop)]
pub enum Part {
    /// What the name stood for.
    Child(Name, Option<FileId>),
    /// The directory that the file stood in, and its name there.
    Parent(Option<(FileId, Name)>),
    /// All handles of the file.
    Handles(List<Handle>),
    /// Size and stamp.
    Info(u64, u64),
    /// The whole record, or its absence.
    Whole(Option<Record>),
}

/// What undoes an effect: the part of the file's record as it was.
#[derive(Drop)]
pub struct Undo {
    pub file: FileId,
    pub was: Part,
}

/// Whether the effect can be taken back without memory: it takes neither a file nor a name away.
pub fn is_undoable(e: &Effect) -> bool
    ensures { result ≡ is_undoable e.now }
{
    !matches!(
        e,
        Effect::SetChild { to: None, .. } | Effect::RemoveNode { .. }
    )
}

/// The part of a node that the effect changes.
pub fn part_before(
    alloc: Global,
    records: &BTreeMap<FileId, Record>,
    e: &Effect,
) -> Result<Part, Memory>
    requires kept { AreRecords (map_of records.now) }
    requires undoable { is_undoable e.now ≡ true }
    requires living { is_birth e.now ≡ false }
    ensures { IfOk result (λ was. was ≡
        part_of e.now (map.get (map_of records.now) (changed_file e.now))) }
{
    let node = node(records, e.changed_file());
    match e {
        Effect::SetChild { name, .. } => child_before(alloc, node, name),
        Effect::SetParent { .. } => parent(alloc, node),
        Effect::AddHandle { .. } | Effect::RemoveHandle { .. } => opens(alloc, node),
        Effect::SetInfo { .. } => Ok(size_and_stamp(node)),
        Effect::NewNode { .. } | Effect::RemoveNode { .. } => unreachable!(),
    }
}

/// What the name stands for.
fn child_before(alloc: Global, node: Option<&Node>, name: &Name) -> Result<Part, Memory>
    requires { IfSome node (λ n. IsInOrder n.now) }
    ensures { IfOk result (λ was. was ≡
        Child name.now (child_of (option_copied node.entry) name.now)) }
{
    let name_again = name.copy(alloc)?;
    Ok(Part::Child(name_again, child(alloc, node, name)?))
}

/// The directory that the file stands in, and its name there.
fn parent(alloc: Global, node: Option<&Node>) -> Result<Part, Memory>
    ensures { IfOk result (λ was. was ≡ Parent (parent_of (option_copied node.entry))) }
{
    match node {
        Some(node) => Ok(Part::Parent(node.parent.copy(alloc)?)),
        None => Ok(Part::Parent(None)),
    }
}

/// All handles of the file.
fn opens(alloc: Global, node: Option<&Node>) -> Result<Part, Memory>
    ensures { IfOk result (λ was. was ≡ Handles (handles_of (option_copied node.entry))) }
{
    match node {
        Some(node) => Ok(Part::Handles(node.handles.copy(alloc)?)),
        None => Ok(Part::Handles(List::new(alloc))),
    }
}

fn size_and_stamp(node: Option<&Node>) -> Part
    ensures { result ≡ Info (info_of (option_copied node.entry)).0
        (info_of (option_copied node.entry)).1 }
{
    match node {
        Some(node) => Part::Info(node.size, node.stamp),
        None => Part::Info(0, 0),
    }
}

/// Brings the part of the file's record back.
pub fn take_back(records: &mut BTreeMap<FileId, Record>, u: Undo)
    requires { AreRecords (map_of records.old) }
    ensures { map_of records.new ≡ undone u (map_of records.old) }
{
    let Undo { file, was } = u;
    match was {
        Part::Child(name, was) => link_back(records, &file, name, was),
        Part::Parent(was) => replant(records, &file, was),
        Part::Handles(was) => reopen(records, &file, was),
        Part::Info(size, stamp) => set(records, &file, size, stamp),
        Part::Whole(was) => put_back(records, &file, was),
    }
}

/// Lets the name stand for what it stood for.
fn link_back(records: &mut BTreeMap<FileId, Record>, dir: &FileId, name: Name, was: Option<FileId>)
    requires { AreRecords (map_of records.old) }
    ensures { map_of records.new ≡ with_at (map_of records.old) dir.now
        (with_part (Child name was) (map.get (map_of records.old) dir.now)) }
{
    match was {
        Some(to) => relink(records, dir, name, to),
        None => unlink(records, dir, &name),
    }
}

/// Puts the record back, or takes the new one away.
fn put_back(records: &mut BTreeMap<FileId, Record>, file: &FileId, was: Option<Record>)
    ensures { map_of records.new ≡ with_at (map_of records.old) file.now
        (with_part (Whole was) (map.get (map_of records.old) file.now)) }
{
    match was {
        Some(was) => restore(records, file, was),
        None => remove(records, file),
    }
}

/// Lets the name stand for the file again, where it stands for any.
#[tactic(auto, using(fs_ident::proofs::MapsOf::maps, fs_ident::proofs::MapsOf::map_of_absent))]
fn relink(records: &mut BTreeMap<FileId, Record>, dir: &FileId, name: Name, to: FileId)
    requires { AreRecords (map_of records.old) }
    ensures { map_of records.new ≡ with_at (map_of records.old) dir.now
        (with_part (Child name (Some to)) (map.get (map_of records.old) dir.now)) }
{
    match records.get_mut(dir) {
        Some(record) => link_again(&mut record.node.children, name, to),
        None => {}
    }
}

fn link_again(children: &mut List<(Name, FileId)>, name: Name, file: FileId)
    requires { IsTrue (are_keys_in_order children.old) }
    ensures { children.new ≡ with_child_again children.old name file }
{
    match search_by_name(children.as_slice(), &name) {
        Ok(at) => {
            children.replace(at, (name, file));
        }
        Err(_) => {}
    }
}

/// Puts the file where it stood.
#[tactic(auto, using(fs_ident::proofs::MapsOf::maps, fs_ident::proofs::MapsOf::map_of_absent))]
fn replant(records: &mut BTreeMap<FileId, Record>, file: &FileId, was: Option<(FileId, Name)>)
    ensures { map_of records.new ≡ with_at (map_of records.old) file.now
        (with_part (Parent was) (map.get (map_of records.old) file.now)) }
{
    match records.get_mut(file) {
        Some(record) => record.node.parent = was,
        None => {}
    }
}

/// Gives the file the handles that it had.
#[tactic(auto, using(fs_ident::proofs::MapsOf::maps, fs_ident::proofs::MapsOf::map_of_absent))]
fn reopen(records: &mut BTreeMap<FileId, Record>, file: &FileId, was: List<Handle>)
    ensures { map_of records.new ≡ with_at (map_of records.old) file.now
        (with_part (Handles was) (map.get (map_of records.old) file.now)) }
{
    match records.get_mut(file) {
        Some(record) => record.node.handles = was,
        None => {}
    }
}

/// Puts the record in place of the file's.
#[tactic(auto, using(fs_ident::proofs::MapsOf::maps, fs_ident::proofs::MapsOf::map_of_absent))]
fn restore(records: &mut BTreeMap<FileId, Record>, file: &FileId, was: Record)
    ensures { map_of records.new ≡ with_at (map_of records.old) file.now
        (with_part (Whole (Some was)) (map.get (map_of records.old) file.now)) }
{
    match records.get_mut(file) {
        Some(record) => drop(mem::replace(record, was)),
        None => {}
    }
}

/// Undoes all, the last first.
pub fn take_back_all(records: &mut BTreeMap<FileId, Record>, undos: Vec<Undo>)
    requires { AreRecordsBack undos.items (map_of records.old) }
    ensures { map_of records.new ≡ undone_all undos.items (map_of records.old) }
{
    let mut undos = undos;
    while let Some(u) = undos.pop() {
        take_back(records, u);
    }
}
