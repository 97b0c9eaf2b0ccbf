//! One step of the walk from a file to the root.
ghost use Rattle.std.specs.Prelude.{◌≡◌, ◌∷◌, IfOk, is_some};
ghost use Rattle.std.specs.FinMap as map;
ghost use Rattle.std.specs.Option.{option_copied};
ghost use Rattle.fs_model.specs.Sound.{parent_of};
ghost use Rattle.fs_path.specs.Walk.{is_among, rise_from, rise_to};
ghost use Rattle.fs_record.specs.Records.{node_of};

use crate::files::goes_over;
use fs_ident::{FileId, Memory, Name, Twin, TxnNo};
use fs_record::Records;
use std::alloc::Global;

/// What the walk finds at a file.
#[derive(Drop)]
pub enum Rise {
    /// The transaction keeps the file where it is.
    Frozen(TxnNo),
    /// It has no parent.
    Ends,
    /// Its parent is not here, or was met before.
    Topmost(FileId),
    /// Its parent is here.
    On(FileId),
}

/// What the walk finds at a file, which that transaction keeps, above those that it met.
pub(crate) fn rise_at(
    alloc: Global,
    records: &Records,
    file: &FileId,
    below: &[FileId],
    frozen: Option<TxnNo>,
) -> Result<Rise, Memory>
    ensures { IfOk result (λ r. r ≡ rise_from records.now (file.now ∷ below.now) file.now frozen) }
{
    match frozen {
        Some(txn) => Ok(Rise::Frozen(txn)),
        None => rise_to(alloc, records, file, below, parent(records, file)),
    }
}

/// Whether the walk goes on to that directory.
fn rise_to(
    alloc: Global,
    records: &Records,
    file: &FileId,
    below: &[FileId],
    place: Option<&(FileId, Name)>,
) -> Result<Rise, Memory>
    ensures { IfOk result (λ r. r ≡
        rise_to records.now (file.now ∷ below.now) (option_copied place.entry)) }
{
    match place {
        None => Ok(Rise::Ends),
        Some((dir, _)) => {
            let parent = dir.copy(alloc)?;
            if is_here(records, dir) && !is_met(file, below, dir) {
                Ok(Rise::On(parent))
            } else {
                Ok(Rise::Topmost(parent))
            }
        }
    }
}

/// Whether the file has a record here.
fn is_here(records: &Records, file: &FileId) -> bool
    ensures { result ≡ is_some (map.get records.now file.now) }
{
    records.get(file).is_some()
}

/// Whether the directory is the file or one of those below it.
fn is_met(file: &FileId, below: &[FileId], dir: &FileId) -> bool
    ensures { result ≡ is_among dir.now (file.now ∷ below.now) }
{
    file == dir || goes_over(below, dir)
}

/// The directory in which the file stands, and its name there.
fn parent<'a>(records: &'a Records, file: &FileId) -> Option<&'a (FileId, Name)>
    ensures { option_copied result ≡ parent_of (node_of (map.get records.now file.now)) }
{
    match records.get(file) {
        Some(record) => record.node.parent.as_ref(),
        None => None,
    }
}
