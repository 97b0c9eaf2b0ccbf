//! The names of a directory, in byte order.
ghost use Rattle.std.specs.Prelude.{◌≡◌, not, length, unwrap_or, ◌≤◌, OnOk, OnErr};
ghost use Rattle.std.specs.List.{position, filter};
ghost use Rattle.fs_field.specs.After.{is_before, with_name, without_name};
ghost use Rattle.fs_ident.specs.Ident.{same};

use fs_ident::{List, Memory, Name, Twin};
use std::alloc::Global;

/// Puts the name before the first greater one, unless it is there.
#[tactic(auto, using(fs_ident::proofs::Put::put_at))]
pub fn with_name(alloc: Global, names: &mut List<Name>, name: &Name) -> Result<(), Memory>
    ensures ok { OnOk result (names.new ≡ with_name names.old name.now) }
    ensures err { OnErr result (names.new ≡ names.old) }
{
    if names.as_slice().contains(name) {
        return Ok(());
    }
    let name = name.copy(alloc)?;
    let at = place(names.as_slice(), &name);
    names.insert(at, name)
}

/// Takes the name out.
pub fn without_name(names: &mut List<Name>, name: &Name)
    ensures { names.new ≡ without_name names.old name.now }
{
    retain_others(names.items_mut(), name);
}

/// Where the first greater name stands, or the length.
#[tactic(auto, using(crate::proofs::Places::place_is, crate::proofs::Places::place_step))]
fn place(names: &[Name], name: &Name) -> usize
    ensures place { result ≡ unwrap_or (position (is_before name.now) names.now)
        (length names.now) }
    ensures within { result ≤ length names.now }
{
    for at in 0..names.len() {
        if name < &names[at] {
            return at;
        }
    }
    names.len()
}

/// Drops the name.
fn retain_others(names: &mut Vec<Name>, name: &Name)
    ensures { names.new.items ≡ filter (λ n. not (same n name.now)) names.old.items }
{
    names.retain(|other| other != name);
}
