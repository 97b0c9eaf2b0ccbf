//! The records of one server as one value.
ghost use Rattle.std.specs.Prelude.{◌≡◌, ◌↔◌, ◌≤◌, true, false, not, IfOk, OnOk, OnErr, IsErrOf, Some, None, option_map};
ghost use Rattle.std.specs.FinMap as map;
ghost use Rattle.std.specs.List.{list_all};
ghost use Rattle.std.specs.Map.{keys_of};
ghost use Rattle.std.specs.Option.{option_copied};
ghost use Rattle.fs_ident.specs.Ident.{child};
ghost use Rattle.fs_record.specs.Applied.{records_after, records_after_all, has_target, is_undoable, takes_away};
ghost use Rattle.fs_record.specs.Effects.{reap_effects};
ghost use Rattle.fs_record.specs.Moving.{AreEachRecords, are_absent, are_distinct, records_given, records_left, records_without, with_records};
ghost use Rattle.fs_model.specs.Step.{is_empty};
ghost use Rattle.fs_record.specs.Opens.{open_files};
ghost use Rattle.fs_record.specs.Fresh.{fresh_number, is_directory, records_after_gift};
ghost use Rattle.fs_record.specs.Records.{IsRecord, first_records, AreRecords, next_of, root_record};
ghost use Rattle.fs_record.specs.ValueOf.{value_of, is_other, selves_in};
ghost use Rattle.fs_field.specs.After.{value_after};
ghost use Rattle.fs_field.specs.declared.field.Field.{Field as TheField};
ghost use Rattle.fs_ident.specs.declared.actor.Session.{Session as TheSession};
ghost use Rattle.fs_record.specs.declared.error.FreshError.TheVariants.{NoDir, NoIds};

use crate::error::FreshError;
use crate::lookups::{files, next, node, record};
use crate::marks::{Mark, settle_all, settle_these};
use crate::op_effects::reap;
use crate::record::Record;
use crate::values::{handles, value_at};
use crate::{handles as opens, marks, moving, numbers};
use fs_field::{Effect, Field, Value};
use fs_ident::{FileId, Kind, List, Memory, Session, Twin, copy_map};
use fs_map::MapPiece;
use fs_model::Node;
use fs_modes::Modes;
use std::alloc::Global;
use std::collections::BTreeMap;
use std::marker::Model;

/// The records of files, by identifier. The files that sessions have handles on are marked.
#[derive(Drop)]
pub struct Records {
    alloc: Global,
    records: BTreeMap<FileId, Record>,
    marks: BTreeMap<FileId, Mark>,
}

impl Model for Records {
    ghost use Rattle.std.specs.FinMap as map;
    ghost use Rattle.std.specs.Coded.{coded_list, coded_ℕ};
    ghost use Rattle.fs_record.specs.Records.{RecordMap, AreRecords};
    ghost use Rattle.std.specs.Prelude.{[]};
    ghost use Rattle.fs_ident.specs.Maps.{map_of};
    ghost use Rattle.fs_record.specs.Marks.{MarkOpen};
    ghost use Rattle.fs_record.specs.contracts.record.Record as kept;

    ghost Value = { RecordMap };

    ghost coded = { map.code (coded_list coded_ℕ) kept.the_row.coded };

    ghost view = { λ s. map_of s.records };

    ghost invariant = { λ s.
        AreRecords (map_of s.records) × MarkOpen [] (map_of s.marks) (map_of s.records) };
}

impl Records {
    /// The root directory alone where `first`, and else no record.
    pub fn new(alloc: Global, first: bool) -> Result<Records, Memory>
        ensures { IfOk result (λ records. records ≡ first_records first) }
    {
        let mut records = Records::empty(alloc);
        if first {
            records.put(FileId::root(alloc), root(alloc))?;
        }
        Ok(records)
    }

    /// No record.
    fn empty(alloc: Global) -> Records
        ensures { result ≡ map.empty }
    {
        Records {
            alloc,
            records: BTreeMap::new(alloc),
            marks: BTreeMap::new(alloc),
        }
    }

    /// Gives the file this record, whatever it had. Its next number does not fall: `next_number` is the test, and 1 for
    /// a file without a record.
    pub fn put(&mut self, id: FileId, kept: Record) -> Result<(), Memory>
        requires kept { IsRecord kept }
        requires next { next_of (map.get self.old id) ≤ kept.next }
        ensures ok { OnOk result (self.new ≡ map.insert self.old id kept) }
        ensures err { OnErr result (self.new ≡ self.old) }
    {
        marks::put(self.alloc, &mut self.marks, &mut self.records, id, kept)
    }

    /// The record of the file.
    pub fn get(&self, id: &FileId) -> Option<&Record>
        ensures same { option_copied result ≡ map.get self.now id.now }
        ensures valid { AreRecords self.now }
    {
        record(&self.records, id)
    }

    /// The identifiers of all records, in order.
    pub fn files(&self, alloc: Global) -> Result<List<FileId>, Memory>
        ensures { IfOk result (λ ids. ids ≡ map.keys self.now) }
    {
        files(alloc, &self.records)
    }

    /// The identifiers of the files that sessions have handles on, in order.
    #[tactic(auto, using(crate::proofs::Marked::keys_open))]
    pub fn open_files(&self, alloc: Global) -> Result<List<FileId>, Memory>
        ensures files { IfOk result (λ ids. ids ≡ open_files self.now) }
        ensures valid { AreRecords self.now }
    {
        files(alloc, &self.marks)
    }

    /// The value of the field, as the session sees it. A file without a record does not live, and has no names, no
    /// handles, and size and stamp 0.
    pub fn value_of(&self, alloc: Global, session: Session, field: &Field) -> Result<Value, Memory>
        ensures { IfOk result (λ value. value ≡ value_of self.now session field.now) }
    {
        value_at(alloc, node(&self.records, field.file()), session, field)
    }

    /// The sessions with handles on the file, by number, each with what its handles have together.
    pub fn selves(&self, alloc: Global, file: &FileId) -> Result<List<(Session, Modes)>, Memory>
        ensures { IfOk result (λ told. told ≡ selves_in self.now file.now) }
    {
        opens::selves(alloc, handles(node(&self.records, file)))
    }

    /// The effects of a reap: each of the session's handles on the file is taken away.
    pub fn reap_effects(
        &self,
        alloc: Global,
        file: &FileId,
        by: Session,
    ) -> Result<List<Effect>, Memory>
        ensures { IfOk result (λ effects. effects ≡ reap_effects self.now file.now by) }
    {
        reap(alloc, file, handles(node(&self.records, file)), by)
    }

    /// Does the effect. Where its file (for a name its directory) has no record nothing changes, unless the file
    /// begins to live. When out of memory nothing changes.
    pub fn apply(&mut self, alloc: Global, e: &Effect) -> Result<(), Memory>
        ensures ok { OnOk result (self.new ≡ records_after self.old e.now) }
        ensures values { OnOk result ((s : TheSession) (field : TheField) → is_other field ≡ false →
            has_target self.old e.now ≡ true →
            value_of self.new s field ≡ value_after s field (value_of self.old s field) e.now) }
        ensures err { OnErr result (self.new ≡ self.old) }
    {
        marks::apply(alloc, &mut self.marks, &mut self.records, e)
    }

    /// Does the effects in order, or none of them when out of memory; nothing has changed then. `is_undoable` is
    /// the test of which effects it takes. It copies no record: of each effect it keeps what the effect changes.
    pub fn apply_all(&mut self, alloc: Global, effects: &List<Effect>) -> Result<(), Memory>
        requires { list_all is_undoable effects.now ≡ true }
        ensures ok { OnOk result (self.new ≡ records_after_all self.old effects.now) }
        ensures err { OnErr result (self.new ≡ self.old) }
    {
        marks::apply_all(
            alloc,
            &mut self.marks,
            &mut self.records,
            effects.as_slice(),
        )
    }

    /// Does the effect, which takes a file or a name away: it is none that `is_undoable` takes. It wants no memory.
    pub fn take_away(&mut self, e: &Effect)
        requires { takes_away e.now ≡ true }
        ensures { self.new ≡ records_after self.old e.now }
    {
        marks::take_away(&mut self.marks, &mut self.records, e);
    }

    /// Gives the identifier of a new file in the directory: with the least number, from the directory's next one
    /// on, that is none of `borne`. The number after it is then the next one. `NoDir` where the directory has no
    /// record here or is a file. Else `NoIds` where it has 32 numbers already, or where no such number is below
    /// 4294967296.
    pub fn fresh(
        &mut self,
        alloc: Global,
        dir: &FileId,
        borne: &List<u32>,
    ) -> Result<FileId, FreshError>
        ensures ok { IfOk result (λ id. Some id ≡
            option_map (child dir.now) (fresh_number self.old dir.now borne.now)) }
        ensures records { OnOk result (self.new ≡
            records_after_gift self.old dir.now (fresh_number self.old dir.now borne.now)) }
        ensures no_dir { IsErrOf result NoDir ↔ (is_directory self.old dir.now ≡ false) }
        ensures no_ids { IsErrOf result NoIds ↔
            ((is_directory self.old dir.now ≡ true) ×
            (fresh_number self.old dir.now borne.now ≡ None)) }
        ensures err { OnErr result (self.new ≡ self.old) }
    {
        numbers::fresh(alloc, &mut self.records, dir, borne.as_slice())
    }

    /// The identifier that `fresh` would give, with the same causes where it would give none. Nothing is given.
    pub fn fresh_id(
        &self,
        alloc: Global,
        dir: &FileId,
        borne: &List<u32>,
    ) -> Result<FileId, FreshError>
        ensures ok { IfOk result (λ id. Some id ≡
            option_map (child dir.now) (fresh_number self.now dir.now borne.now)) }
        ensures no_dir { IsErrOf result NoDir ↔ (is_directory self.now dir.now ≡ false) }
        ensures no_ids { IsErrOf result NoIds ↔
            ((is_directory self.now dir.now ≡ true) ×
            (fresh_number self.now dir.now borne.now ≡ None)) }
    {
        let (id, _) = numbers::fresh_id(alloc, &self.records, dir, borne.as_slice())?;
        Ok(id)
    }

    /// Gives the last number of an identifier below the directory: the number after it is then the directory's next
    /// one. It was given to no file before: it is at least `next_number`. It takes no memory, and nothing changes where
    /// the directory has no record.
    pub fn gift(&mut self, dir: &FileId, k: u32)
        requires { next_of (map.get self.old dir.now) ≤ k }
        ensures { self.new ≡ records_after_gift self.old dir.now (Some k) }
    {
        numbers::gift(&mut self.records, dir, k);
    }

    /// The number from which on the directory gives numbers to new files, which is 1 where it has no record.
    pub fn next_number(&self, dir: &FileId) -> u64
        ensures { result ≡ next_of (map.get self.now dir.now) }
    {
        next(&self.records, dir)
    }

    /// Copies of the records of files that the piece gives, in order of identifier.
    pub fn given(&self, alloc: Global, piece: &MapPiece) -> Result<List<(FileId, Record)>, Memory>
        ensures given { IfOk result (λ moved. moved ≡
            records_given piece.now.prefix piece.now.given self.now) }
        ensures valid { AreRecords self.now }
    {
        moving::given(alloc, &self.records, piece)
    }

    /// Drops the records of these files. It searches for each of them, and looks at no other.
    pub fn leave_files(&mut self, files: &List<FileId>)
        ensures { self.new ≡ records_without files.now self.old }
    {
        moving::leave_files(&mut self.records, files.as_slice());
        settle_all(&mut self.marks, &self.records, files.as_slice());
    }

    /// Drops these records, which are those of files that the piece gives: `given` tells them. It searches for each of
    /// them, and looks at no other.
    pub fn leave_these(&mut self, piece: &MapPiece, moved: &List<(FileId, Record)>)
        requires { moved.now ≡ records_given piece.now.prefix piece.now.given self.old }
        ensures { self.new ≡ records_left piece.now.prefix piece.now.given self.old }
    {
        moving::leave_these(&mut self.records, moved.as_slice());
        settle_these(&mut self.marks, &self.records, moved.as_slice());
    }

    /// Whether a file that the piece gives has a record.
    pub fn has_given(&self, piece: &MapPiece) -> bool
        ensures { result ≡
            not (is_empty (records_given piece.now.prefix piece.now.given self.now)) }
    {
        moving::has_given(&self.records, piece)
    }

    /// Takes the records of files that the piece gives away: these, in order of identifier. `Memory` when out of
    /// memory; the records are as they were then.
    pub fn split(
        &mut self,
        alloc: Global,
        piece: &MapPiece,
    ) -> Result<List<(FileId, Record)>, Memory>
        ensures moved { IfOk result (λ moved. moved ≡
            records_given piece.now.prefix piece.now.given self.old) }
        ensures left { OnOk result (self.new ≡
            records_left piece.now.prefix piece.now.given self.old) }
        ensures err { OnErr result (self.new ≡ self.old) }
        ensures valid { AreRecords self.old }
    {
        marks::split(alloc, &mut self.marks, &mut self.records, piece)
    }

    /// Gives these files their records; none has one here, and none stands twice. `Memory` when out of memory; the
    /// records are as they were then.
    pub fn join(&mut self, alloc: Global, records: List<(FileId, Record)>) -> Result<(), Memory>
        requires records { AreEachRecords records }
        requires distinct { are_distinct records ≡ true }
        requires absent { are_absent self.old records ≡ true }
        ensures ok { OnOk result (self.new ≡ with_records records self.old) }
        ensures err { OnErr result (self.new ≡ self.old) }
    {
        self.join_noting(alloc, records)?;
        Ok(())
    }

    /// Gives these files their records, as `join` does, and tells which files these are.
    pub fn join_noting(
        &mut self,
        alloc: Global,
        records: List<(FileId, Record)>,
    ) -> Result<List<FileId>, Memory>
        requires records { AreEachRecords records }
        requires distinct { are_distinct records ≡ true }
        requires absent { are_absent self.old records ≡ true }
        ensures files { IfOk result (λ files. files ≡ keys_of records) }
        ensures ok { OnOk result (self.new ≡ with_records records self.old) }
        ensures err { OnErr result (self.new ≡ self.old) }
    {
        marks::join(
            alloc,
            &mut self.marks,
            &mut self.records,
            records.into_vec(),
        )
    }

    /// Whether it is a directory that has a record here.
    pub fn is_directory(&self, dir: &FileId) -> bool
        ensures { result ≡ is_directory self.now dir.now }
    {
        numbers::is_directory(&self.records, dir)
    }
}

impl Twin for Records {
    fn copy(&self, alloc: Global) -> Result<Records, Memory> {
        let marks = copy_map(alloc, &self.marks)?;
        Ok(Records {
            alloc,
            records: copy_map(alloc, &self.records)?,
            marks,
        })
    }

    fn discard(self) {}
}

/// The root's record, with nothing in it.
fn root(alloc: Global) -> Record
    ensures { result ≡ root_record }
{
    Record {
        node: Node::new(alloc, Kind::Dir, None),
        next: 1,
    }
}
