//! Lists that grow at their end.
ghost use Rattle.std.specs.Prelude.{◌≡◌, ◌++◌, OnOk, OnErr};
ghost use Rattle.fs_actor.specs.Listed.{listed};

use fs_ident::{List, Memory};

/// Puts the items of a list behind those of another, all of them or none.
pub fn append<T: Drop>(list: &mut List<T>, more: List<T>) -> Result<(), Memory>
    ensures ok { OnOk result (list.new ≡ list.old ++ more) }
    ensures err { OnErr result (list.new ≡ list.old) }
{
    let mut more = more.into_vec();
    list.items_mut().append(&mut more)?;
    Ok(())
}

/// Puts the item, if there is one, behind those of the list.
pub(crate) fn add<T: Drop>(list: &mut List<T>, item: Option<T>) -> Result<(), Memory>
    ensures ok { OnOk result (list.new ≡ list.old ++ listed item) }
    ensures err { OnErr result (list.new ≡ list.old) }
{
    match item {
        Some(item) => list.push(item),
        None => Ok(()),
    }
}
