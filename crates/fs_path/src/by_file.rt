//! Lists that stand at files: of each file its items. A file without one is no key.
ghost use Rattle.std.specs.Prelude.{◌≡◌, ◌∷◌, [], OnOk, IfOk};
ghost use Rattle.std.specs.FinMap.{get, insert, remove};
ghost use Rattle.std.specs.Option.{option_copied};
ghost use Rattle.fs_ident.specs.Maps.{map_of};
ghost use Rattle.fs_path.specs.ByFile.{listed_at};

use fs_ident::{FileId, List, Memory, Twin};
use std::alloc::Global;
use std::collections::BTreeMap;

/// The items at the file.
pub(crate) fn items_at<'a, T>(by_file: &'a BTreeMap<FileId, List<T>>, file: &FileId) -> &'a [T]
    ensures { result.now ≡ listed_at by_file.now file.now }
{
    match found(by_file, file) {
        Some(items) => items.as_slice(),
        None => &[],
    }
}

#[tactic(auto, using(fs_ident::proofs::MapsOf::maps))]
fn found<'a, T>(by_file: &'a BTreeMap<FileId, List<T>>, file: &FileId) -> Option<&'a List<T>>
    ensures { option_copied result ≡ get (map_of by_file.now) file.now }
{
    by_file.get(file)
}

/// The file has this item alone.
pub(crate) fn put_first<T: Drop>(
    alloc: Global,
    by_file: &mut BTreeMap<FileId, List<T>>,
    file: &FileId,
    item: T,
) -> Result<(), Memory>
    ensures { OnOk result (map_of by_file.new ≡ insert (map_of by_file.old) file.now (item ∷ [])) }
{
    let first = alone(alloc, item)?;
    put_file(by_file, file.copy(alloc)?, first)
}

fn alone<T: Drop>(alloc: Global, item: T) -> Result<List<T>, Memory>
    ensures { IfOk result (λ items. items ≡ item ∷ []) }
{
    let mut items = List::new(alloc);
    items.push(item)?;
    Ok(items)
}

#[tactic(auto, using(fs_ident::proofs::MapsOf::maps))]
fn put_file<T: Drop>(
    by_file: &mut BTreeMap<FileId, List<T>>,
    file: FileId,
    items: List<T>,
) -> Result<(), Memory>
    ensures { OnOk result (map_of by_file.new ≡ insert (map_of by_file.old) file items) }
{
    by_file.insert(file, items)?;
    Ok(())
}

/// The file is no key any more.
pub(crate) fn take_file<T: Drop>(by_file: &mut BTreeMap<FileId, List<T>>, file: &FileId)
    ensures { map_of by_file.new ≡ remove (map_of by_file.old) file.now }
{
    by_file.remove(file);
}
