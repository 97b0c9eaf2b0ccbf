//! Several effects, all of them or none.
ghost use Rattle.std.specs.Prelude.{◌≡◌, [], ◌∷◌, ◌++◌, false, true, IfOk, OnOk, OnErr};
ghost use Rattle.std.specs.List.{list_all};
ghost use Rattle.fs_ident.specs.Maps.{map_of};
ghost use Rattle.fs_record.specs.Applied.{is_birth, is_undoable, records_after, records_after_all};
ghost use Rattle.fs_record.specs.Records.{AreRecords};
ghost use Rattle.fs_record.specs.Undo.{undo_of};

use crate::changes::{apply, make};
use crate::record::Record;
use crate::undo::{Part, Undo, part_before, take_back_all};
use fs_field::Effect;
use fs_ident::{FileId, Memory, Twin};
use std::alloc::Global;
use std::collections::BTreeMap;

/// Does the effects in order. When out of memory those that were done are taken back.
pub fn apply_all(
    alloc: Global,
    records: &mut BTreeMap<FileId, Record>,
    effects: &[Effect],
) -> Result<(), Memory>
    requires kept { AreRecords (map_of records.old) }
    requires undoable { list_all is_undoable effects.now ≡ true }
    ensures ok { OnOk result (map_of records.new ≡
        records_after_all (map_of records.old) effects.now) }
    ensures err { OnErr result (map_of records.new ≡ map_of records.old) }
{
    let mut undos = Vec::new(alloc);
    for e in effects {
        match apply_noted(alloc, records, e, &mut undos) {
            Ok(()) => {}
            Err(wanting) => {
                take_back_all(records, undos);
                return Err(wanting);
            }
        }
    }
    Ok(())
}

/// Does the effect, and notes what undoes it.
fn apply_noted(
    alloc: Global,
    records: &mut BTreeMap<FileId, Record>,
    e: &Effect,
    undos: &mut Vec<Undo>,
) -> Result<(), Memory>
    requires kept { AreRecords (map_of records.old) }
    requires undoable { is_undoable e.now ≡ true }
    ensures ok { OnOk result (map_of records.new ≡ records_after (map_of records.old) e.now) }
    ensures noted { OnOk result (undos.new.items ≡
        undos.old.items ++ undo_of e.now (map_of records.old) ∷ []) }
    ensures err { OnErr result (map_of records.new ≡ map_of records.old) }
    ensures none_noted { OnErr result (undos.new.items ≡ undos.old.items) }
{
    undos.reserve(1)?;
    let undo = apply_undoably(alloc, records, e)?;
    match undos.push(undo) {
        Ok(()) => Ok(()),
        Err(_) => unreachable!(),
    }
}

/// Does the effect, and tells what undoes it. A record that a new file takes the place of is moved.
fn apply_undoably(
    alloc: Global,
    records: &mut BTreeMap<FileId, Record>,
    e: &Effect,
) -> Result<Undo, Memory>
    requires kept { AreRecords (map_of records.old) }
    requires undoable { is_undoable e.now ≡ true }
    ensures ok { OnOk result (map_of records.new ≡ records_after (map_of records.old) e.now) }
    ensures undo { IfOk result (λ u. u ≡ undo_of e.now (map_of records.old)) }
    ensures err { OnErr result (map_of records.new ≡ map_of records.old) }
{
    match e {
        Effect::NewNode {
            file,
            kind,
            dir,
            name,
        } => {
            let made = file.copy(alloc)?;
            let was = make(alloc, records, file, *kind, dir, name)?;
            Ok(Undo {
                file: made,
                was: Part::Whole(was),
            })
        }
        _ => change(alloc, records, e),
    }
}

/// Does an effect that changes a part of a node, and tells what undoes it.
fn change(alloc: Global, records: &mut BTreeMap<FileId, Record>, e: &Effect) -> Result<Undo, Memory>
    requires kept { AreRecords (map_of records.old) }
    requires undoable { is_undoable e.now ≡ true }
    requires living { is_birth e.now ≡ false }
    ensures ok { OnOk result (map_of records.new ≡ records_after (map_of records.old) e.now) }
    ensures undo { IfOk result (λ u. u ≡ undo_of e.now (map_of records.old)) }
    ensures err { OnErr result (map_of records.new ≡ map_of records.old) }
{
    let undo = Undo {
        file: e.changed_file().copy(alloc)?,
        was: part_before(alloc, records, e)?,
    };
    apply(alloc, records, e).and(Ok(undo))
}
