//! Tree maps by the numbers of sessions, of values that are to be given up.
ghost use Rattle.std.specs.Prelude.{◌≡◌, IfOk, OnOk, OnErr};
ghost use Rattle.std.specs.FinMap.{insert};
ghost use Rattle.fs_ident.specs.Maps.{numbered_map_of};

use fs_ident::{Memory, Twin};
use std::alloc::Global;
use std::collections::BTreeMap;

/// A map with the same values.
pub(crate) fn copy_all<V: Twin>(
    alloc: Global,
    values: &BTreeMap<u16, V>,
) -> Result<BTreeMap<u16, V>, Memory>
    ensures { IfOk result (λ twin. numbered_map_of twin ≡ numbered_map_of values.now) }
{
    let mut twin = BTreeMap::new(alloc);
    for entry in values.iter() {
        match put_copy(alloc, &mut twin, *entry.0, entry.1) {
            Ok(()) => {}
            Err(e) => {
                discard_all(twin);
                return Err(e);
            }
        }
    }
    Ok(twin)
}

/// Puts a copy of the value at the number.
fn put_copy<V: Twin>(
    alloc: Global,
    twin: &mut BTreeMap<u16, V>,
    number: u16,
    value: &V,
) -> Result<(), Memory>
    ensures { OnOk result (numbered_map_of twin.new ≡
        insert (numbered_map_of twin.old) number value.now) }
{
    let copy = value.copy(alloc)?;
    put(twin, number, copy)
}

/// Puts the value at the number, and gives up what stood there. When out of memory, the value is given up.
#[tactic(auto, using(fs_ident::proofs::MapsOf::numbered_maps))]
pub(crate) fn put<V: Twin>(
    values: &mut BTreeMap<u16, V>,
    number: u16,
    value: V,
) -> Result<(), Memory>
    ensures ok { OnOk result (numbered_map_of values.new ≡
        insert (numbered_map_of values.old) number value) }
    ensures err { OnErr result (numbered_map_of values.new ≡ numbered_map_of values.old) }
{
    match values.insert(number, value) {
        Ok(None) => Ok(()),
        Ok(Some(before)) => {
            before.discard();
            Ok(())
        }
        Err(full) => {
            full.value.1.discard();
            Err(Memory)
        }
    }
}

/// Gives up every value.
pub(crate) fn discard_all<V: Twin>(values: BTreeMap<u16, V>) {
    let mut values = values;
    while let Some((_, value)) = values.pop_first() {
        value.discard();
    }
    values.destroy_empty();
}
