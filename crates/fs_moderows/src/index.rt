//! The numbers of the rows on each file, by file, in order.
ghost use Rattle.std.specs.Prelude.{◌≡◌, ◌≤◌, ◌∷◌, [], true, length, unwrap_or, IfOk, OnOk};
ghost use Rattle.std.specs.List.{position};
ghost use Rattle.std.specs.FinMap.{get, insert};
ghost use Rattle.std.specs.Option.{option_copied};
ghost use Rattle.fs_ident.specs.Maps.{map_of};
ghost use Rattle.fs_field.specs.Table.{no_before};
ghost use Rattle.fs_rows.specs.Index.{ChangesAt, but_number, listed};
ghost use Rattle.fs_moderows.specs.Index.{IsIndexOf, IsNoted, numbers_of, with_number};

use fs_ident::{FileId, LeaseNo, List, Memory, Twin, copy_map};
use std::alloc::Global;
use std::collections::BTreeMap;

/// The numbers of the rows on each file, in order. A file that no row is on is none of its keys.
#[derive(Debug, Drop)]
pub(crate) struct FileIndex {
    files: BTreeMap<FileId, List<LeaseNo>>,
    /// Whether it has them all. It has not any more once memory was wanting.
    whole: bool,
}

impl FileIndex {
    /// That of no row, which takes no memory.
    pub(crate) fn new(alloc: Global) -> FileIndex
        ensures { IsIndexOf result [] }
    {
        FileIndex {
            files: BTreeMap::new(alloc),
            whole: true,
        }
    }

    /// One that lists the same.
    pub(crate) fn copy(&self, alloc: Global) -> Result<FileIndex, Memory>
        ensures whole { IfOk result (λ twin. twin.whole ≡ self.now.whole) }
        ensures files { IfOk result (λ twin. map_of twin.files ≡ map_of self.now.files) }
    {
        Ok(FileIndex {
            files: copy_map(alloc, &self.files)?,
            whole: self.whole,
        })
    }

    /// Whether it has the numbers of all rows.
    pub(crate) fn is_whole(&self) -> bool
        ensures { result ≡ self.now.whole }
    {
        self.whole
    }

    /// The numbers on the file.
    #[tactic(auto, using(fs_ident::proofs::MapsOf::maps))]
    pub(crate) fn on(&self, file: &FileId) -> &[LeaseNo]
        ensures { result.now ≡ numbers_of self.now.files file.now }
    {
        match self.files.get(file) {
            Some(numbers) => numbers.as_slice(),
            None => &[],
        }
    }

    /// Adds the number on the file. It is not whole any more when out of memory.
    pub(crate) fn add(&mut self, alloc: Global, file: &FileId, no: LeaseNo)
        ensures { IsNoted no file.now self.old self.new }
    {
        match add_number(alloc, &mut self.files, file, no) {
            Ok(()) => {}
            Err(_) => self.whole = false,
        }
    }

    /// Takes the number off the file, which takes no memory.
    pub(crate) fn forget(&mut self, file: &FileId, no: LeaseNo)
        ensures whole { self.new.whole ≡ self.old.whole }
        ensures changed { ChangesAt (but_number no) file.now self.old.files self.new.files }
    {
        if thin(&mut self.files, file, no) {
            self.files.remove(file);
        }
    }
}

/// Adds the number to those of the file.
fn add_number(
    alloc: Global,
    files: &mut BTreeMap<FileId, List<LeaseNo>>,
    file: &FileId,
    no: LeaseNo,
) -> Result<(), Memory>
    ensures { OnOk result (ChangesAt (with_number no) file.now files.old files.new) }
{
    match files.get_mut(file) {
        Some(numbers) => put_number(numbers.items_mut(), no),
        None => {
            let first = first_number(alloc, no)?;
            put_file(files, file.copy(alloc)?, first)
        }
    }
}

/// Puts the number before the first that is greater.
fn put_number(numbers: &mut Vec<LeaseNo>, no: LeaseNo) -> Result<(), Memory>
    ensures { OnOk result (numbers.new.items ≡ with_number no numbers.old.items) }
{
    let at = place_for(numbers, no);
    numbers.insert(at, no)?;
    Ok(())
}

/// Where the first number that is greater stands, or the length.
#[tactic(auto, using(fs_field::proofs::Places::place_is, fs_field::proofs::Places::place_step))]
fn place_for(numbers: &[LeaseNo], no: LeaseNo) -> usize
    ensures place { result ≡ unwrap_or (position (λ n. no_before no n) numbers.now)
        (length numbers.now) }
    ensures within { result ≤ length numbers.now }
{
    for at in 0..numbers.len() {
        if no < numbers[at] {
            return at;
        }
    }
    numbers.len()
}

fn first_number(alloc: Global, no: LeaseNo) -> Result<List<LeaseNo>, Memory>
    ensures { IfOk result (λ numbers. numbers ≡ no ∷ []) }
{
    let mut numbers = List::new(alloc);
    numbers.push(no)?;
    Ok(numbers)
}

#[tactic(auto, using(fs_ident::proofs::MapsOf::maps))]
fn put_file(
    files: &mut BTreeMap<FileId, List<LeaseNo>>,
    file: FileId,
    numbers: List<LeaseNo>,
) -> Result<(), Memory>
    ensures { OnOk result (map_of files.new ≡ insert (map_of files.old) file numbers) }
{
    files.insert(file, numbers)?;
    Ok(())
}

/// Takes the number off those of the file, and tells whether none is left.
fn thin(files: &mut BTreeMap<FileId, List<LeaseNo>>, file: &FileId, no: LeaseNo) -> bool
    ensures changed { ChangesAt (but_number no) file.now files.old files.new }
    ensures empty { result ≡ true → listed (get (map_of files.new) file.now) ≡ [] }
{
    match files.get_mut(file) {
        Some(numbers) => {
            take_out(numbers.items_mut(), no);
            numbers.is_empty()
        }
        None => false,
    }
}

/// Takes the number out.
fn take_out(numbers: &mut Vec<LeaseNo>, no: LeaseNo)
    ensures { numbers.new.items ≡ but_number no numbers.old.items }
{
    numbers.retain(|n| *n != no);
}
