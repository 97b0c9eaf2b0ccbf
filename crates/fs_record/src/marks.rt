//! Marks of the files that sessions have handles on, so that they are found without a walk over all records.
ghost use Rattle.std.specs.Prelude.{◌≡◌, ◌++◌, ◌∷◌, [], false, true, Some, None, IfOk, OnOk, OnErr, is_some};
ghost use Rattle.std.specs.FinMap as map;
ghost use Rattle.std.specs.List.{list_all};
ghost use Rattle.std.specs.Map.{keys_of};
ghost use Rattle.fs_ident.specs.Maps.{map_of};
ghost use Rattle.fs_record.specs.Applied.{is_undoable, records_after, records_after_all, takes_away};
ghost use Rattle.fs_record.specs.Marks.{AreBetween, AreMarked, MarkOpen, changed_files, is_open_at, mark, open_among, opened_by, opens, settled};
ghost use Rattle.fs_record.specs.Moving.{are_absent, are_distinct, records_given, records_left, with_records};
ghost use Rattle.fs_record.specs.Opens.{is_open};
ghost use Rattle.fs_record.specs.Records.{AreRecords};

use crate::record::Record;
use crate::{changes, moving, together};
use fs_field::Effect;
use fs_ident::{FileId, List, Memory, Twin, add_copy};
use fs_map::MapPiece;
use std::alloc::Global;
use std::collections::BTreeMap;

/// The mark of a file that sessions have handles on.
#[derive(Debug, Drop)]
pub struct Mark {}

impl Twin for Mark {
    fn copy(&self, _: Global) -> Result<Mark, Memory> {
        Ok(Mark {})
    }

    fn discard(self) {}
}

/// Whether some session has a handle on the file.
#[tactic(auto, using(crate::proofs::OpenFiles::none_is_empty))]
pub fn is_open(kept: &Record) -> bool
    ensures { result ≡ is_open (Some kept.now.node) }
{
    !kept.node.handles.is_empty()
}

/// Whether some session has a handle on the file of this identifier; one without a record is not open.
#[tactic(auto, using(fs_ident::proofs::MapsOf::maps))]
fn is_open_at(records: &BTreeMap<FileId, Record>, file: &FileId) -> bool
    ensures { result ≡ is_open_at (map_of records.now) file.now }
{
    match records.get(file) {
        None => false,
        Some(kept) => is_open(kept),
    }
}

/// Marks the file.
#[tactic(auto, using(fs_ident::proofs::MapsOf::maps))]
pub fn note(alloc: Global, marks: &mut BTreeMap<FileId, Mark>, file: &FileId) -> Result<(), Memory>
    ensures ok { OnOk result (map_of marks.new ≡ map.insert (map_of marks.old) file.now mark) }
    ensures err { OnErr result (map_of marks.new ≡ map_of marks.old) }
{
    marks.insert(file.copy(alloc)?, Mark {})?;
    Ok(())
}

/// Takes away the mark of the file, unless the file is open.
pub fn settle(marks: &mut BTreeMap<FileId, Mark>, records: &BTreeMap<FileId, Record>, file: &FileId)
    ensures { map_of marks.new ≡ settled (map_of records.now) (map_of marks.old) file.now }
{
    if !is_open_at(records, file) {
        take(marks, file);
    }
}

/// Takes away the mark of the file.
fn take(marks: &mut BTreeMap<FileId, Mark>, file: &FileId)
    ensures { map_of marks.new ≡ map.remove (map_of marks.old) file.now }
{
    marks.remove(file);
}

/// Takes away the marks of those of these files that are not open.
pub fn settle_all(
    marks: &mut BTreeMap<FileId, Mark>,
    records: &BTreeMap<FileId, Record>,
    files: &[FileId],
)
    requires { MarkOpen files.now (map_of marks.old) (map_of records.now) }
    ensures { MarkOpen [] (map_of marks.new) (map_of records.now) }
{
    for file in files {
        settle(marks, records, file);
    }
}

/// Takes away the marks of those files of these records that are not open.
pub fn settle_these(
    marks: &mut BTreeMap<FileId, Mark>,
    records: &BTreeMap<FileId, Record>,
    moved: &[(FileId, Record)],
)
    requires { MarkOpen (keys_of moved.now) (map_of marks.old) (map_of records.now) }
    ensures { MarkOpen [] (map_of marks.new) (map_of records.now) }
{
    for (file, _) in moved {
        settle(marks, records, file);
    }
}

/// Takes away the marks of those files that the effects change and that are not open.
fn settle_changed(
    marks: &mut BTreeMap<FileId, Mark>,
    records: &BTreeMap<FileId, Record>,
    effects: &[Effect],
)
    requires { MarkOpen (changed_files effects.now) (map_of marks.old) (map_of records.now) }
    ensures { MarkOpen [] (map_of marks.new) (map_of records.now) }
{
    for e in effects {
        settle(marks, records, e.changed_file());
    }
}

fn opens(e: &Effect) -> bool
    ensures { result ≡ opens e.now }
{
    match e {
        Effect::AddHandle { .. } => true,
        _ => false,
    }
}

/// Marks the file of the effect, where that opens it.
fn note_opened(alloc: Global, marks: &mut BTreeMap<FileId, Mark>, e: &Effect) -> Result<(), Memory>
    ensures between { AreBetween (map_of marks.old) (map_of marks.new)
        (changed_files (e.now ∷ [])) }
    ensures marked { OnOk result (AreMarked (opened_by (e.now ∷ [])) (map_of marks.new)) }
{
    if opens(e) {
        note(alloc, marks, e.changed_file())?;
    }
    Ok(())
}

/// Does the effect, or nothing where its file has no record, unless the file begins to live.
pub fn apply(
    alloc: Global,
    marks: &mut BTreeMap<FileId, Mark>,
    records: &mut BTreeMap<FileId, Record>,
    e: &Effect,
) -> Result<(), Memory>
    requires records { AreRecords (map_of records.old) }
    requires marks { MarkOpen [] (map_of marks.old) (map_of records.old) }
    ensures ok { OnOk result (map_of records.new ≡ records_after (map_of records.old) e.now) }
    ensures err { OnErr result (map_of records.new ≡ map_of records.old) }
    ensures marks { MarkOpen [] (map_of marks.new) (map_of records.new) }
{
    let done = match note_opened(alloc, marks, e) {
        Ok(()) => changes::apply(alloc, records, e),
        Err(wanting) => Err(wanting),
    };
    settle(marks, records, e.changed_file());
    done
}

/// Takes the name or the file of the effect away.
pub fn take_away(
    marks: &mut BTreeMap<FileId, Mark>,
    records: &mut BTreeMap<FileId, Record>,
    e: &Effect,
)
    requires records { AreRecords (map_of records.old) }
    requires removal { takes_away e.now ≡ true }
    requires marks { MarkOpen [] (map_of marks.old) (map_of records.old) }
    ensures records { map_of records.new ≡ records_after (map_of records.old) e.now }
    ensures marks { MarkOpen [] (map_of marks.new) (map_of records.new) }
{
    changes::take_away(records, e);
    settle(marks, records, e.changed_file());
}

/// Does the effects in order, or none of them when out of memory.
pub fn apply_all(
    alloc: Global,
    marks: &mut BTreeMap<FileId, Mark>,
    records: &mut BTreeMap<FileId, Record>,
    effects: &[Effect],
) -> Result<(), Memory>
    requires records { AreRecords (map_of records.old) }
    requires undoable { list_all is_undoable effects.now ≡ true }
    requires marks { MarkOpen [] (map_of marks.old) (map_of records.old) }
    ensures ok { OnOk result (map_of records.new ≡
        records_after_all (map_of records.old) effects.now) }
    ensures err { OnErr result (map_of records.new ≡ map_of records.old) }
    ensures marks { MarkOpen [] (map_of marks.new) (map_of records.new) }
{
    let done = match note_all(alloc, marks, effects) {
        Ok(()) => together::apply_all(alloc, records, effects),
        Err(wanting) => Err(wanting),
    };
    settle_changed(marks, records, effects);
    done
}

/// Marks the files that the effects open. When out of memory some of them are marked.
fn note_all(
    alloc: Global,
    marks: &mut BTreeMap<FileId, Mark>,
    effects: &[Effect],
) -> Result<(), Memory>
    ensures between { AreBetween (map_of marks.old) (map_of marks.new) (changed_files effects.now) }
    ensures marked { OnOk result (AreMarked (opened_by effects.now) (map_of marks.new)) }
{
    for e in effects {
        note_opened(alloc, marks, e)?;
    }
    Ok(())
}

/// Gives the file this record, whatever it had.
pub fn put(
    alloc: Global,
    marks: &mut BTreeMap<FileId, Mark>,
    records: &mut BTreeMap<FileId, Record>,
    file: FileId,
    kept: Record,
) -> Result<(), Memory>
    requires { MarkOpen [] (map_of marks.old) (map_of records.old) }
    ensures ok { OnOk result (map_of records.new ≡ map.insert (map_of records.old) file kept) }
    ensures err { OnErr result (map_of records.new ≡ map_of records.old) }
    ensures marks { MarkOpen [] (map_of marks.new) (map_of records.new) }
{
    let twin = file.copy(alloc)?;
    note(alloc, marks, &twin)?;
    let done = changes::add(records, file, kept);
    settle(marks, records, &twin);
    done
}

/// Takes the records of files that the piece gives away. No record is copied.
pub fn split(
    alloc: Global,
    marks: &mut BTreeMap<FileId, Mark>,
    records: &mut BTreeMap<FileId, Record>,
    piece: &MapPiece,
) -> Result<List<(FileId, Record)>, Memory>
    requires { MarkOpen [] (map_of marks.old) (map_of records.old) }
    ensures moved { IfOk result (λ moved. moved ≡
        records_given piece.now.prefix piece.now.given (map_of records.old)) }
    ensures left { OnOk result (map_of records.new ≡
        records_left piece.now.prefix piece.now.given (map_of records.old)) }
    ensures err { OnErr result (map_of records.new ≡ map_of records.old) }
    ensures marks { MarkOpen [] (map_of marks.new) (map_of records.new) }
{
    let moved = moving::split(alloc, records, piece)?;
    settle_these(marks, records, moved.as_slice());
    Ok(moved)
}

/// Gives these files their records; these are the files. When out of memory nothing changed.
pub fn join(
    alloc: Global,
    marks: &mut BTreeMap<FileId, Mark>,
    records: &mut BTreeMap<FileId, Record>,
    more: Vec<(FileId, Record)>,
) -> Result<List<FileId>, Memory>
    requires distinct { are_distinct more.items ≡ true }
    requires absent { are_absent (map_of records.old) more.items ≡ true }
    requires marks { MarkOpen [] (map_of marks.old) (map_of records.old) }
    ensures files { IfOk result (λ files. files ≡ keys_of more.items) }
    ensures ok { OnOk result (map_of records.new ≡ with_records more.items (map_of records.old)) }
    ensures err { OnErr result (map_of records.new ≡ map_of records.old) }
    ensures marks { MarkOpen [] (map_of marks.new) (map_of records.new) }
{
    let opened = open_among(alloc, &more)?;
    let done = match note_files(alloc, marks, opened.as_slice()) {
        Ok(()) => moving::join(alloc, records, more),
        Err(wanting) => Err(wanting),
    };
    settle_all(marks, records, opened.as_slice());
    done
}

/// The files of those of these records that are open.
fn open_among(alloc: Global, more: &[(FileId, Record)]) -> Result<List<FileId>, Memory>
    ensures { IfOk result (λ files. files ≡ open_among more.now) }
{
    let mut files = List::new(alloc);
    for (file, kept) in more {
        if is_open(kept) {
            add_copy(alloc, &mut files, file)?;
        }
    }
    Ok(files)
}

/// Marks these files. When out of memory some of them are marked.
fn note_files(
    alloc: Global,
    marks: &mut BTreeMap<FileId, Mark>,
    files: &[FileId],
) -> Result<(), Memory>
    ensures between { AreBetween (map_of marks.old) (map_of marks.new) files.now }
    ensures marked { OnOk result (AreMarked files.now (map_of marks.new)) }
{
    for file in files {
        note(alloc, marks, file)?;
    }
    Ok(())
}
