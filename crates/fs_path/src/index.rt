//! Leases by file: at each file their numbers in order, each with the server at its other end. A look-up, a name more and a name
//! less cost a search by halves among the files, and one among the names at that file.
ghost use Rattle.std.specs.Prelude.{◌≡◌, true, false, ℕ, List as Seq, IfOk, OnOk, [], ◌≤◌, length, unwrap_or};
ghost use Rattle.std.specs.FinMap.{entries, get, insert};
ghost use Rattle.std.specs.List.{position};
ghost use Rattle.std.specs.Option.{option_copied};
ghost use Rattle.fs_ident.specs.Maps.{map_of};
ghost use Rattle.fs_path.specs.Leases.{lesser_no, path_before};
ghost use Rattle.fs_path.specs.Walk.{is_among};
ghost use Rattle.fs_path.specs.Into.{given_names, names_into};
ghost use Rattle.fs_path.specs.Merged.{with_each};
ghost use Rattle.fs_path.specs.Index.{AddsUnmet, AreRisingAt, ChangesAmong, ChangesAt, IsNoted, IsOver, are_rising, first_named, is_numbered, least_into, named_at, no_of_named, number_into, with_named, without_named};

use crate::by_file::{items_at, put_first, take_file};
use crate::files::{goes_over, is_given};
use crate::merging::put_each;
use fs_ident::{FileId, List, Memory, PathNo, Twin, copy_map};
use fs_map::FileMap;
use std::alloc::Global;
use std::collections::BTreeMap;

/// The leases at each file, in order of number, each with the server at its other end. Its keys are files; one without a lease is
/// none of them.
#[derive(Debug, Drop)]
pub(crate) struct FileIndex {
    files: BTreeMap<FileId, List<(u8, PathNo)>>,
    /// Whether it has them all, and no two have one number. It has not any more once memory was wanting.
    whole: bool,
}

impl FileIndex {
    /// That of no lease, which takes no memory.
    pub(crate) fn new(alloc: Global) -> FileIndex
        ensures { IsOver result [] }
    {
        FileIndex {
            files: BTreeMap::new(alloc),
            whole: true,
        }
    }

    /// An equal one.
    pub(crate) fn copy(&self, alloc: Global) -> Result<FileIndex, Memory>
        ensures whole { IfOk result (λ twin. twin.whole ≡ self.now.whole) }
        ensures files { IfOk result (λ twin. map_of twin.files ≡ map_of self.now.files) }
    {
        Ok(FileIndex {
            files: copy_map(alloc, &self.files)?,
            whole: self.whole,
        })
    }

    /// Whether it has all leases, and no two have one number.
    pub(crate) fn is_whole(&self) -> bool
        ensures { result ≡ self.now.whole }
    {
        self.whole
    }

    /// The leases at the file.
    pub(crate) fn at(&self, file: &FileId) -> &[(u8, PathNo)]
        ensures { result.now ≡ named_at self.now.files file.now }
    {
        items_at(&self.files, file)
    }

    /// The least number at the files below the prefix that are `me`'s.
    pub(crate) fn least_into(&self, map: &FileMap, me: u8, prefix: &FileId) -> Option<PathNo>
        ensures { result ≡ least_into map.now me prefix.now (entries (map_of self.now.files)) }
    {
        least_into(&self.files, map, me, prefix)
    }

    /// The names at the files below the prefix that are `me`'s, in order of number, each once.
    pub(crate) fn names_into(
        &self,
        alloc: Global,
        map: &FileMap,
        me: u8,
        prefix: &FileId,
    ) -> Result<List<(u8, PathNo)>, Memory>
        ensures { IfOk result (λ names. names ≡
            names_into map.now me prefix.now (entries (map_of self.now.files))) }
    {
        names_into(alloc, &self.files, map, me, prefix)
    }

    /// The names at each file.
    pub(crate) fn files(&self) -> &BTreeMap<FileId, List<(u8, PathNo)>>
        ensures { result.now ≡ self.now.files }
    {
        &self.files
    }

    /// One lease more at each of the files. It is not whole any more where the number is no new one, or when out of
    /// memory.
    pub(crate) fn note(&mut self, alloc: Global, files: &[FileId], name: (u8, PathNo), is_new: bool)
        requires { self.old.whole ≡ true → AreRisingAt self.old.files }
        ensures { IsNoted is_new name files.now self.old self.new }
    {
        if self.whole && is_new {
            match add_all(alloc, &mut self.files, files, name) {
                Ok(()) => {}
                Err(_) => self.whole = false,
            }
        } else {
            self.whole = false;
        }
    }

    /// The lease of the number stands at none of the files any more.
    pub(crate) fn forget(&mut self, files: &[FileId], no: PathNo)
        requires { AreRisingAt self.old.files }
        ensures whole { self.new.whole ≡ self.old.whole }
        ensures files { ChangesAmong (without_named no) files.now self.old.files self.new.files }
    {
        for file in files {
            forget_at(&mut self.files, file, no);
        }
    }
}

/// The least number at the files below the prefix that are `me`'s: those below it stand together, from it on.
fn least_into(
    by_file: &BTreeMap<FileId, List<(u8, PathNo)>>,
    map: &FileMap,
    me: u8,
    prefix: &FileId,
) -> Option<PathNo>
    ensures { result ≡ least_into map.now me prefix.now (entries (map_of by_file.now)) }
{
    let mut least = None;
    for entry in by_file.range(prefix..) {
        if !entry.0.begins(prefix) {
            return least;
        }
        least = lesser(least, number_into(map, me, prefix, entry.0, entry.1));
    }
    least
}

/// The first number at the file, where it is below the prefix and `me`'s.
fn number_into(
    map: &FileMap,
    me: u8,
    prefix: &FileId,
    file: &FileId,
    names: &List<(u8, PathNo)>,
) -> Option<PathNo>
    ensures { result ≡ number_into map.now me prefix.now (file.now, names.now) }
{
    if is_given(map, me, prefix, file) {
        first_no(names.as_slice())
    } else {
        None
    }
}

/// The names at the files below the prefix that are `me`'s, in order of number, each once.
fn names_into(
    alloc: Global,
    by_file: &BTreeMap<FileId, List<(u8, PathNo)>>,
    map: &FileMap,
    me: u8,
    prefix: &FileId,
) -> Result<List<(u8, PathNo)>, Memory>
    ensures { IfOk result (λ names. names ≡
        names_into map.now me prefix.now (entries (map_of by_file.now))) }
{
    let mut list = List::new(alloc);
    for entry in by_file.range(prefix..) {
        if !entry.0.begins(prefix) {
            return Ok(list);
        }
        put_given(&mut list, map, me, prefix, entry.0, entry.1)?;
    }
    Ok(list)
}

/// The names at the file join the others, where it is below the prefix and `me`'s.
fn put_given(
    list: &mut List<(u8, PathNo)>,
    map: &FileMap,
    me: u8,
    prefix: &FileId,
    file: &FileId,
    names: &List<(u8, PathNo)>,
) -> Result<(), Memory>
    requires { are_rising no_of_named list.old ≡ true }
    ensures { OnOk result (list.new ≡
        with_each (given_names map.now me prefix.now (file.now, names.now)) list.old) }
{
    if is_given(map, me, prefix, file) {
        put_each(list, names.as_slice())
    } else {
        Ok(())
    }
}

/// The first number of some names.
pub(crate) fn first_no(names: &[(u8, PathNo)]) -> Option<PathNo>
    ensures { result ≡ first_named names.now }
{
    match names.first() {
        Some(name) => Some(name.1),
        None => None,
    }
}

/// The lesser of two numbers, of which either may be wanting.
pub(crate) fn lesser(first: Option<PathNo>, second: Option<PathNo>) -> Option<PathNo>
    ensures { result ≡ lesser_no first second }
{
    match (first, second) {
        (None, _) => second,
        (Some(_), None) => first,
        (Some(a), Some(b)) => { if b < a { second } else { first } }
    }
}

/// One lease more at each of the files.
fn add_all(
    alloc: Global,
    by_file: &mut BTreeMap<FileId, List<(u8, PathNo)>>,
    files: &[FileId],
    name: (u8, PathNo),
) -> Result<(), Memory>
    requires { AreRisingAt by_file.old }
    ensures { OnOk result (ChangesAmong (with_named name) files.now by_file.old by_file.new) }
{
    for at in 0..files.len() {
        add_unmet(alloc, by_file, &files[..at], &files[at], name)?;
    }
    Ok(())
}

/// One lease more at the file, unless it was met before.
fn add_unmet(
    alloc: Global,
    by_file: &mut BTreeMap<FileId, List<(u8, PathNo)>>,
    met: &[FileId],
    file: &FileId,
    name: (u8, PathNo),
) -> Result<(), Memory>
    requires { is_among file.now met.now ≡ false →
        are_rising no_of_named (named_at by_file.old file.now) ≡ true }
    ensures { OnOk result
        (AddsUnmet name (is_among file.now met.now) file.now by_file.old by_file.new) }
{
    if goes_over(met, file) {
        Ok(())
    } else {
        add_at(alloc, by_file, file, name)
    }
}

/// One lease more at the file.
fn add_at(
    alloc: Global,
    by_file: &mut BTreeMap<FileId, List<(u8, PathNo)>>,
    file: &FileId,
    name: (u8, PathNo),
) -> Result<(), Memory>
    requires { are_rising no_of_named (named_at by_file.old file.now) ≡ true }
    ensures { OnOk result (ChangesAt (with_named name) file.now by_file.old by_file.new) }
{
    match by_file.get_mut(file) {
        Some(names) => put_name(names.items_mut(), name),
        None => put_first(alloc, by_file, file, name),
    }
}

/// The lease of the number does not stand at the file any more.
fn forget_at(by_file: &mut BTreeMap<FileId, List<(u8, PathNo)>>, file: &FileId, no: PathNo)
    requires { are_rising no_of_named (named_at by_file.old file.now) ≡ true }
    ensures { ChangesAt (without_named no) file.now by_file.old by_file.new }
{
    if thin(by_file, file, no) {
        take_file(by_file, file);
    }
}

/// Takes the lease of the number off the file, and tells whether none is left there.
fn thin(by_file: &mut BTreeMap<FileId, List<(u8, PathNo)>>, file: &FileId, no: PathNo) -> bool
    requires { are_rising no_of_named (named_at by_file.old file.now) ≡ true }
    ensures changed { ChangesAt (without_named no) file.now by_file.old by_file.new }
    ensures empty { result ≡ true → named_at by_file.new file.now ≡ [] }
{
    match by_file.get_mut(file) {
        Some(names) => {
            take_name(names.items_mut(), no);
            names.is_empty()
        }
        None => false,
    }
}

/// Puts the name before the first with a greater number.
pub(crate) fn put_name(names: &mut Vec<(u8, PathNo)>, name: (u8, PathNo)) -> Result<(), Memory>
    requires { are_rising no_of_named names.old.items ≡ true }
    ensures { OnOk result (names.new.items ≡ with_named name names.old.items) }
{
    let at = place_behind(names, name.1);
    names.insert(at, name)?;
    Ok(())
}

/// Where the first with a greater number stands, or the length.
pub(crate) fn place_behind(names: &[(u8, PathNo)], no: PathNo) -> usize
    requires { are_rising no_of_named names.now ≡ true }
    ensures place { result ≡ unwrap_or (position (λ n. path_before no n.1) names.now)
        (length names.now) }
    ensures within { result ≤ length names.now }
{
    names.partition_point(|name| !(no < name.1))
}

/// Takes out the name of the number.
fn take_name(names: &mut Vec<(u8, PathNo)>, no: PathNo)
    requires { are_rising no_of_named names.old.items ≡ true }
    ensures { names.new.items ≡ without_named no names.old.items }
{
    match place_of_name(names, no) {
        Some(at) => {
            names.remove(at);
        }
        None => {}
    }
}

/// Where the name of the number stands.
pub(crate) fn place_of_name(names: &[(u8, PathNo)], no: PathNo) -> Option<usize>
    requires { are_rising no_of_named names.now ≡ true }
    ensures { result ≡ position (is_numbered no_of_named no) names.now }
{
    let at = names.partition_point(|name| name.1 < no);
    match names.get(at) {
        Some(name) => { if name.1 == no { Some(at) } else { None } }
        None => None,
    }
}
