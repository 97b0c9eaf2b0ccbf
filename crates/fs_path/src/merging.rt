//! Names of leases that are put into a list in order of number, each number once.
ghost use Rattle.std.specs.Prelude.{◌≡◌, true, OnOk};
ghost use Rattle.fs_path.specs.Index.{are_rising, no_of_named};
ghost use Rattle.fs_path.specs.Merged.{with_each, with_once};

use crate::index::{place_of_name, put_name};
use fs_ident::{List, Memory, PathNo};

/// Each of these names, unless its number is there.
#[tactic(auto, using(crate::proofs::Merges::once_rises, crate::proofs::Merges::each_step))]
pub(crate) fn put_each(list: &mut List<(u8, PathNo)>, names: &[(u8, PathNo)]) -> Result<(), Memory>
    requires { are_rising no_of_named list.old ≡ true }
    ensures { OnOk result (list.new ≡ with_each names.now list.old) }
{
    for name in names {
        put_once(list, *name)?;
    }
    Ok(())
}

/// The name before the first with a greater number, unless its number is there.
pub(crate) fn put_once(list: &mut List<(u8, PathNo)>, name: (u8, PathNo)) -> Result<(), Memory>
    requires { are_rising no_of_named list.old ≡ true }
    ensures { OnOk result (list.new ≡ with_once name list.old) }
{
    match place_of_name(list.as_slice(), name.1) {
        Some(_) => Ok(()),
        None => put_name(list.items_mut(), name),
    }
}
