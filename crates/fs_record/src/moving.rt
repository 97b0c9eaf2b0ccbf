//! Records that go to another server, and records that come from one.
//!
//! What begins with a prefix stands together in the tree, in order.
ghost use Rattle.std.specs.Prelude.{◌≡◌, ◌+◌, ◌<◌, ◌≤◌, ◌++◌, ◌∷◌, [], true, not, length, vec_len, vec_capacity, IfOk, OnOk, OnErr};
ghost use Rattle.std.specs.FinMap as map;
ghost use Rattle.std.specs.Map.{keys_of};
ghost use Rattle.fs_ident.specs.Maps.{map_of};
ghost use Rattle.fs_ident.specs.Ordered.{are_keys_in_order};
ghost use Rattle.fs_map.specs.Map.{gives};
ghost use Rattle.fs_model.specs.Step.{is_empty};
ghost use Rattle.fs_record.specs.Moving.{are_absent, are_distinct, records_given, records_left, records_without, with_records};
ghost use Rattle.fs_record.specs.Walk.{taken_back, taken_out, with_file};

use crate::changes::{add, remove};
use crate::record::Record;
use fs_ident::{FileId, List, Memory, Twin, add_copy, copy_two};
use fs_map::MapPiece;
use std::alloc::Global;
use std::collections::BTreeMap;

/// Whether the piece gives the file. A list in order is searched, and any other gone over.
fn is_given(piece: &MapPiece, ordered: bool, file: &FileId) -> bool
    requires { ordered ≡ are_keys_in_order piece.now.given }
    ensures { result ≡ gives piece.now.prefix piece.now.given file.now }
{
    if ordered {
        piece.finds(file)
    } else {
        piece.gives(file)
    }
}

/// Copies of the records of files that the piece gives, in order of identifier.
pub fn given(
    alloc: Global,
    records: &BTreeMap<FileId, Record>,
    piece: &MapPiece,
) -> Result<List<(FileId, Record)>, Memory>
    ensures { IfOk result (λ moved. moved ≡
        records_given piece.now.prefix piece.now.given (map_of records.now)) }
{
    let mut moved = List::new(alloc);
    let ordered = piece.is_in_order();
    for entry in records.range(&piece.prefix..) {
        if !entry.0.begins(&piece.prefix) {
            return Ok(moved);
        }
        if is_given(piece, ordered, entry.0) {
            moved.push(copy_two(alloc, entry.0, entry.1)?)?;
        }
    }
    Ok(moved)
}

/// Whether a file that the piece gives has a record.
pub fn has_given(records: &BTreeMap<FileId, Record>, piece: &MapPiece) -> bool
    ensures { result ≡
        not (is_empty (records_given piece.now.prefix piece.now.given (map_of records.now))) }
{
    let ordered = piece.is_in_order();
    for entry in records.range(&piece.prefix..) {
        if !entry.0.begins(&piece.prefix) {
            return false;
        }
        if is_given(piece, ordered, entry.0) {
            return true;
        }
    }
    false
}

/// Drops the records of these files, and looks at no other.
pub fn leave_files(records: &mut BTreeMap<FileId, Record>, files: &[FileId])
    ensures { map_of records.new ≡ records_without files.now (map_of records.old) }
{
    for gone in files {
        remove(records, gone);
    }
}

/// Drops the records of the files that stand in this list, and looks at no other.
pub fn leave_these(records: &mut BTreeMap<FileId, Record>, moved: &[(FileId, Record)])
    ensures { map_of records.new ≡ records_without (keys_of moved.now) (map_of records.old) }
{
    for (file, _) in moved {
        remove(records, file);
    }
}

/// Takes the records of files that the piece gives away. No record is copied.
#[tactic(auto, using(crate::proofs::TakenOut::taken_given, crate::proofs::TakenOut::left_given))]
pub fn split(
    alloc: Global,
    records: &mut BTreeMap<FileId, Record>,
    piece: &MapPiece,
) -> Result<List<(FileId, Record)>, Memory>
    ensures moved { IfOk result (λ moved. moved ≡
        records_given piece.now.prefix piece.now.given (map_of records.old)) }
    ensures left { OnOk result (map_of records.new ≡
        records_left piece.now.prefix piece.now.given (map_of records.old)) }
    ensures err { OnErr result (map_of records.new ≡ map_of records.old) }
{
    let files = given_files(alloc, records, piece)?;
    let mut moved = Vec::with_capacity(alloc, files.len())?;
    take_out(records, files.as_slice(), &mut moved);
    Ok(List::from_vec(moved))
}

/// The files that the piece gives and that have records, in order.
fn given_files(
    alloc: Global,
    records: &BTreeMap<FileId, Record>,
    piece: &MapPiece,
) -> Result<List<FileId>, Memory>
    ensures { IfOk result (λ files. files ≡
        keys_of (records_given piece.now.prefix piece.now.given (map_of records.now))) }
{
    let mut files = List::new(alloc);
    let ordered = piece.is_in_order();
    for entry in records.range(&piece.prefix..) {
        if !entry.0.begins(&piece.prefix) {
            return Ok(files);
        }
        if is_given(piece, ordered, entry.0) {
            add_copy(alloc, &mut files, entry.0)?;
        }
    }
    Ok(files)
}

/// Takes the records of these files out, one after another, where there is room for all.
fn take_out(
    records: &mut BTreeMap<FileId, Record>,
    files: &[FileId],
    moved: &mut Vec<(FileId, Record)>,
)
    requires { vec_len moved.old + length files.now ≤ vec_capacity moved.old }
    ensures moved { moved.new.items ≡
        moved.old.items ++ taken_out files.now (map_of records.old) }
    ensures left { map_of records.new ≡ records_without files.now (map_of records.old) }
{
    for file in files {
        take_one(records, file, moved);
    }
}

/// Takes the record of the file out, if it has one, where there is room.
fn take_one(
    records: &mut BTreeMap<FileId, Record>,
    file: &FileId,
    moved: &mut Vec<(FileId, Record)>,
)
    requires { vec_len moved.old < vec_capacity moved.old }
    ensures moved { moved.new.items ≡ moved.old.items ++
        with_file file.now (map.get (map_of records.old) file.now) [] }
    ensures left { map_of records.new ≡ map.remove (map_of records.old) file.now }
    ensures len { vec_len moved.new ≤ vec_len moved.old + 1 }
    ensures room { vec_capacity moved.old ≤ vec_capacity moved.new }
{
    match records.remove_entry(file) {
        Some(entry) => match moved.push(entry) {
            Ok(()) => {}
            Err(_) => unreachable!(),
        },
        None => {}
    }
}

/// Gives these files their records; these are the files. When out of memory those that came are taken away again.
pub fn join(
    alloc: Global,
    records: &mut BTreeMap<FileId, Record>,
    more: Vec<(FileId, Record)>,
) -> Result<List<FileId>, Memory>
    requires distinct { are_distinct more.items ≡ true }
    requires absent { are_absent (map_of records.old) more.items ≡ true }
    ensures files { IfOk result (λ files. files ≡ keys_of more.items) }
    ensures ok { OnOk result (map_of records.new ≡ with_records more.items (map_of records.old)) }
    ensures err { OnErr result (map_of records.new ≡ map_of records.old) }
{
    let mut came = Vec::new(alloc);
    for entry in more {
        match add_noted(alloc, records, entry.0, entry.1, &mut came) {
            Ok(()) => {}
            Err(wanting) => {
                take_away(records, came);
                return Err(wanting);
            }
        }
    }
    Ok(List::from_vec(came))
}

/// Gives the file this record, and notes the file.
fn add_noted(
    alloc: Global,
    records: &mut BTreeMap<FileId, Record>,
    file: FileId,
    kept: Record,
    came: &mut Vec<FileId>,
) -> Result<(), Memory>
    ensures ok { OnOk result (map_of records.new ≡ map.insert (map_of records.old) file kept) }
    ensures noted { OnOk result (came.new.items ≡ came.old.items ++ file ∷ []) }
    ensures err { OnErr result (map_of records.new ≡ map_of records.old) }
    ensures none_noted { OnErr result (came.new.items ≡ came.old.items) }
{
    let twin = copy_with_room(alloc, &file, came)?;
    add(records, file, kept)?;
    match came.push(twin) {
        Ok(()) => Ok(()),
        Err(_) => unreachable!(),
    }
}

/// A copy of the identifier, for which there is room.
fn copy_with_room(alloc: Global, file: &FileId, came: &mut Vec<FileId>) -> Result<FileId, Memory>
    ensures twin { IfOk result (λ twin. twin ≡ file.now) }
    ensures room { OnOk result (vec_len came.new < vec_capacity came.new) }
    ensures same { came.new.items ≡ came.old.items }
{
    came.reserve(1)?;
    file.copy(alloc)
}

/// Takes the records of these files away, the last first.
fn take_away(records: &mut BTreeMap<FileId, Record>, came: Vec<FileId>)
    ensures { map_of records.new ≡ taken_back came.items (map_of records.old) }
{
    let mut came = came;
    while let Some(file) = came.pop() {
        remove(records, &file);
    }
}
