//! The numbers of the rows on each field: by file, in order, and for each file by what of it a row is on.
ghost use Rattle.std.specs.Prelude.{◌≡◌, ◌∷◌, [], true, IfOk, OnOk};
ghost use Rattle.std.specs.List.{filter};
ghost use Rattle.std.specs.Option.{option_copied, option_map};
ghost use Rattle.std.specs.FinMap.{get, insert};
ghost use Rattle.fs_ident.specs.Maps.{map_of};
ghost use Rattle.fs_field.specs.declared.field.Field.{Field as TheField};
ghost use Rattle.fs_field.specs.declared.field.Field.TheVariants.{Names};
ghost use Rattle.fs_field.specs.Field.{file_of, tells_no_mode};
ghost use Rattle.fs_field.specs.Table.{is_live, is_ordered};
ghost use Rattle.fs_rows.specs.Borne.{is_on};
ghost use Rattle.fs_rows.specs.Index.{ChangesAt, ChangesIn, ChangesOf, IsIndexOf, IsNoted, and_number, but_number, children_of, has_none, listed, numbers_at, numbers_in, numbers_of};

use crate::seek::{any_at, any_under};
use fs_field::{Field, Row};
use fs_ident::{FileId, LeaseNo, List, Memory, Name, Twin};
use std::alloc::Global;
use std::collections::BTreeMap;

/// The numbers of the rows on each field. Its keys are files, in order; a file that no row is on is none of them.
#[derive(Debug, Drop)]
pub(crate) struct FieldIndex {
    files: BTreeMap<FileId, OnFile>,
    /// Whether it has them all. It has not any more once memory was wanting.
    whole: bool,
}

/// The numbers of the rows on each field of one file.
#[derive(Debug, Drop)]
pub(crate) struct OnFile {
    life: List<LeaseNo>,
    names: List<LeaseNo>,
    info: List<LeaseNo>,
    own: List<LeaseNo>,
    children: BTreeMap<Name, List<LeaseNo>>,
}

impl FieldIndex {
    /// That of no row, which takes no memory.
    pub(crate) fn new(alloc: Global) -> FieldIndex
        ensures { IsIndexOf result [] }
    {
        FieldIndex {
            files: BTreeMap::new(alloc),
            whole: true,
        }
    }

    /// That of these rows, as far as there is memory.
    pub(crate) fn of(alloc: Global, rows: &[Row]) -> FieldIndex
        ensures { IsIndexOf result rows.now }
    {
        let mut index = FieldIndex::new(alloc);
        for row in rows {
            index.add(alloc, &row.field, row.no);
        }
        index
    }

    /// Whether it has the numbers of all rows.
    pub(crate) fn is_whole(&self) -> bool
        ensures { result ≡ self.now.whole }
    {
        self.whole
    }

    /// What is on each file.
    pub(crate) fn files(&self) -> &BTreeMap<FileId, OnFile>
        ensures { result.now ≡ self.now.files }
    {
        &self.files
    }

    /// The numbers on the field.
    pub(crate) fn on(&self, field: &Field) -> &[LeaseNo]
        ensures { result.now ≡ numbers_of self.now.files field.now }
    {
        match found(&self.files, field.file()) {
            Some(on_file) => on_file.on(field),
            None => &[],
        }
    }

    /// The numbers on the names of the directory.
    pub(crate) fn on_names(&self, dir: &FileId) -> &[LeaseNo]
        ensures { result.now ≡ numbers_of self.now.files (Names dir.now) }
    {
        match found(&self.files, dir) {
            Some(on_file) => on_file.names.as_slice(),
            None => &[],
        }
    }

    /// The numbers on the children of the directory, by name.
    pub(crate) fn on_children(&self, dir: &FileId) -> Option<&BTreeMap<Name, List<LeaseNo>>>
        ensures { option_copied result ≡
            option_map children_of (get (map_of self.now.files) dir.now) }
    {
        match found(&self.files, dir) {
            Some(on_file) => Some(&on_file.children),
            None => None,
        }
    }

    /// Adds the number on the field. It is not whole any more when out of memory.
    pub(crate) fn add(&mut self, alloc: Global, field: &Field, no: LeaseNo)
        ensures { IsNoted no field.now self.old self.new }
    {
        if !field.tells_no_mode() {
            self.whole = false;
            return;
        }
        match add_number(alloc, &mut self.files, field, no) {
            Ok(()) => {}
            Err(_) => self.whole = false,
        }
    }

    /// Takes the number off the field, which takes no memory.
    pub(crate) fn forget(&mut self, field: &Field, no: LeaseNo)
        ensures whole { self.new.whole ≡ self.old.whole }
        ensures changed { ChangesOf (but_number no) field.now self.old.files self.new.files }
    {
        if thin(&mut self.files, field, no) {
            self.files.remove(field.file());
        }
    }
}

fn add_number(
    alloc: Global,
    files: &mut BTreeMap<FileId, OnFile>,
    field: &Field,
    no: LeaseNo,
) -> Result<(), Memory>
    requires { tells_no_mode field.now ≡ true }
    ensures { OnOk result (ChangesOf (and_number no) field.now files.old files.new) }
{
    match files.get_mut(field.file()) {
        Some(on_file) => on_file.add(alloc, field, no),
        None => {
            let mut on_file = OnFile::new(alloc);
            on_file.add(alloc, field, no)?;
            put_file(files, field.file().copy(alloc)?, on_file)
        }
    }
}

#[tactic(auto, using(fs_ident::proofs::MapsOf::maps))]
fn found<'a>(files: &'a BTreeMap<FileId, OnFile>, file: &FileId) -> Option<&'a OnFile>
    ensures { option_copied result ≡ get (map_of files.now) file.now }
{
    files.get(file)
}

#[tactic(auto, using(fs_ident::proofs::MapsOf::maps))]
fn put_file(
    files: &mut BTreeMap<FileId, OnFile>,
    file: FileId,
    on_file: OnFile,
) -> Result<(), Memory>
    ensures { OnOk result (map_of files.new ≡ insert (map_of files.old) file on_file) }
{
    files.insert(file, on_file)?;
    Ok(())
}

/// Takes the number off the field, and tells whether none is left on its file.
fn thin(files: &mut BTreeMap<FileId, OnFile>, field: &Field, no: LeaseNo) -> bool
    ensures changed { ChangesOf (but_number no) field.now files.old files.new }
    ensures empty { result ≡ true → (f : TheField) →
        numbers_at (get (map_of files.new) (file_of field.now)) f ≡ [] }
{
    match files.get_mut(field.file()) {
        Some(on_file) => {
            on_file.forget(field, no);
            on_file.is_empty()
        }
        None => false,
    }
}

impl OnFile {
    fn new(alloc: Global) -> OnFile
        ensures { (field : TheField) → numbers_in result field ≡ [] }
    {
        OnFile {
            life: List::new(alloc),
            names: List::new(alloc),
            info: List::new(alloc),
            own: List::new(alloc),
            children: BTreeMap::new(alloc),
        }
    }

    /// Whether no number is on any field.
    fn is_empty(&self) -> bool
        ensures { result ≡ has_none self.now }
    {
        self.life.is_empty()
            && self.names.is_empty()
            && (self.info.is_empty() && self.own.is_empty())
            && self.children.len() == 0
    }

    /// Whether a row that is not over is on a field of this file.
    pub(crate) fn has_any(&self, rows: &[Row], now: u64, skew: u64) -> bool
        requires { is_ordered rows.now ≡ true }
        ensures { result ≡ is_on self.now (filter (is_live now skew) rows.now) }
    {
        any_at(rows, self.life.as_slice(), now, skew)
            || any_at(rows, self.names.as_slice(), now, skew)
            || any_at(rows, self.info.as_slice(), now, skew)
            || any_at(rows, self.own.as_slice(), now, skew)
            || any_under(rows, &self.children, now, skew)
    }

    /// The numbers on the field of this file.
    fn on(&self, field: &Field) -> &[LeaseNo]
        ensures { result.now ≡ numbers_in self.now field.now }
    {
        match field {
            Field::Life(_) => self.life.as_slice(),
            Field::Child(_, name) => child(&self.children, name),
            Field::Names(_) => self.names.as_slice(),
            Field::Info(_) => self.info.as_slice(),
            Field::Own(_) => self.own.as_slice(),
            Field::SelfW(_, _) | Field::Other(_, _) => &[],
        }
    }

    fn add(&mut self, alloc: Global, field: &Field, no: LeaseNo) -> Result<(), Memory>
        requires { tells_no_mode field.now ≡ true }
        ensures { OnOk result (ChangesIn (and_number no) field.now self.old self.new) }
    {
        match field {
            Field::Life(_) => self.life.push(no),
            Field::Child(_, name) => add_child(alloc, &mut self.children, name, no),
            Field::Names(_) => self.names.push(no),
            Field::Info(_) => self.info.push(no),
            Field::Own(_) => self.own.push(no),
            Field::SelfW(_, _) | Field::Other(_, _) => unreachable!(),
        }
    }

    fn forget(&mut self, field: &Field, no: LeaseNo)
        ensures { ChangesIn (but_number no) field.now self.old self.new }
    {
        match field {
            Field::Life(_) => take_out(self.life.items_mut(), no),
            Field::Child(_, name) => forget_child(&mut self.children, name, no),
            Field::Names(_) => take_out(self.names.items_mut(), no),
            Field::Info(_) => take_out(self.info.items_mut(), no),
            Field::Own(_) => take_out(self.own.items_mut(), no),
            Field::SelfW(_, _) | Field::Other(_, _) => {}
        }
    }
}

/// The numbers on the field of the name.
#[tactic(auto, using(fs_ident::proofs::MapsOf::maps))]
fn child<'a>(children: &'a BTreeMap<Name, List<LeaseNo>>, name: &Name) -> &'a [LeaseNo]
    ensures { result.now ≡ listed (get (map_of children.now) name.now) }
{
    match children.get(name) {
        Some(numbers) => numbers.as_slice(),
        None => &[],
    }
}

/// Adds the number to those of the name.
fn add_child(
    alloc: Global,
    children: &mut BTreeMap<Name, List<LeaseNo>>,
    name: &Name,
    no: LeaseNo,
) -> Result<(), Memory>
    ensures { OnOk result (ChangesAt (and_number no) name.now children.old children.new) }
{
    match children.get_mut(name) {
        Some(numbers) => numbers.push(no),
        None => {
            let first = first_number(alloc, no)?;
            put_child(children, name.copy(alloc)?, first)
        }
    }
}

fn first_number(alloc: Global, no: LeaseNo) -> Result<List<LeaseNo>, Memory>
    ensures { IfOk result (λ numbers. numbers ≡ no ∷ []) }
{
    let mut numbers = List::new(alloc);
    numbers.push(no)?;
    Ok(numbers)
}

#[tactic(auto, using(fs_ident::proofs::MapsOf::maps))]
fn put_child(
    children: &mut BTreeMap<Name, List<LeaseNo>>,
    name: Name,
    numbers: List<LeaseNo>,
) -> Result<(), Memory>
    ensures { OnOk result (map_of children.new ≡ insert (map_of children.old) name numbers) }
{
    children.insert(name, numbers)?;
    Ok(())
}

/// Takes the number off those of the name.
fn forget_child(children: &mut BTreeMap<Name, List<LeaseNo>>, name: &Name, no: LeaseNo)
    ensures { ChangesAt (but_number no) name.now children.old children.new }
{
    if thin_child(children, name, no) {
        children.remove(name);
    }
}

/// Takes the number off those of the name, and tells whether none is left.
fn thin_child(children: &mut BTreeMap<Name, List<LeaseNo>>, name: &Name, no: LeaseNo) -> bool
    ensures changed { ChangesAt (but_number no) name.now children.old children.new }
    ensures empty { result ≡ true → listed (get (map_of children.new) name.now) ≡ [] }
{
    match children.get_mut(name) {
        Some(numbers) => {
            take_out(numbers.items_mut(), no);
            numbers.is_empty()
        }
        None => false,
    }
}

/// Takes the number out.
fn take_out(numbers: &mut Vec<LeaseNo>, no: LeaseNo)
    ensures { numbers.new.items ≡ but_number no numbers.old.items }
{
    numbers.retain(|n| *n != no);
}
