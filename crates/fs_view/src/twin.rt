//! The leases of a client again, and their end.
ghost use Rattle.std.specs.Prelude.{◌≡◌, [], ◌∷◌, ◌++◌, IfOk, OnOk};
ghost use Rattle.fs_view.specs.Index.{AreFound, IsIndexOf, IsAdded};

use crate::index::FieldIndex;
use crate::leases::Leases;
use crate::view_lease::{Standing, ViewLease};
use fs_ident::{Memory, Twin};
use std::alloc::Global;

/// Copies the leases.
pub(crate) fn copy(alloc: Global, leases: &Leases) -> Result<Leases, Memory>
    requires { AreFound leases.now }
    ensures same { IfOk result (λ twin. twin.kept.items ≡ leases.now.kept.items) }
    ensures found { IfOk result AreFound }
{
    let numbers = leases.numbers.clone()?;
    let kept = copy_all(alloc, &leases.kept)?;
    let index = index_of(alloc, &kept);
    Ok(Leases {
        kept,
        numbers,
        index,
        least: leases.least,
    })
}

/// The numbers of the leases by field, as far as there is memory.
fn index_of(alloc: Global, kept: &[ViewLease]) -> FieldIndex
    ensures { IsIndexOf result kept.now }
{
    let mut index = FieldIndex::new(alloc);
    for lease in kept {
        add(&mut index, alloc, &lease.standing);
    }
    index
}

/// Adds the number of the lease on its field, unless it goes back.
fn add(index: &mut FieldIndex, alloc: Global, standing: &Standing)
    ensures { IsAdded standing.now index.old index.new }
{
    match standing {
        Standing::Held(held) => index.add(alloc, held.field(), held.no()),
        Standing::Pinned(pinned) => index.add(alloc, pinned.field(), pinned.no()),
        Standing::Leaving(_) => {}
    }
}

/// Spends every lease, with the whole core that has them.
pub(crate) fn discard(leases: Leases) {
    let Leases {
        kept,
        numbers: _,
        index: _,
        least: _,
    } = leases;
    discard_all(kept);
}

fn discard_all(leases: Vec<ViewLease>) {
    let mut leases = leases;
    while let Some(kept) = leases.pop() {
        kept.discard();
    }
    leases.destroy_empty();
}

fn copy_all(alloc: Global, leases: &[ViewLease]) -> Result<Vec<ViewLease>, Memory>
    ensures { IfOk result (λ twin. twin.items ≡ leases.now) }
{
    let mut twin = Vec::with_capacity(alloc, leases.len())?;
    for kept in leases {
        match add_copy(alloc, &mut twin, kept) {
            Ok(()) => {}
            Err(e) => {
                discard_all(twin);
                return Err(e);
            }
        }
    }
    Ok(twin)
}

/// Adds a copy of the lease, or spends it, with the core that was to have it, when out of memory.
fn add_copy(alloc: Global, twin: &mut Vec<ViewLease>, kept: &ViewLease) -> Result<(), Memory>
    ensures { OnOk result (twin.new.items ≡ twin.old.items ++ kept.now ∷ []) }
{
    match twin.push(kept.copy(alloc)?) {
        Ok(()) => Ok(()),
        Err(full) => {
            full.value.discard();
            Err(Memory)
        }
    }
}
