//! The leases of a client, and what they are found by.
ghost use Rattle.std.specs.Prelude.{◌≡◌, ◌+◌, ◌<◌, ◌≤◌, [], None, filter, find, length, vec_len, vec_capacity, IfSome, OnOk};
ghost use Rattle.std.specs.List.{list_any, position};
ghost use Rattle.std.specs.Option.{option_copied};
ghost use Rattle.indexmap.specs.IndexSet.{spare};
ghost use Rattle.fs_view.specs.Index.{AreFound, IsTakenOff, better_of, numbers_on};
ghost use Rattle.fs_view.specs.ViewLease.{has_number, is_live};
ghost use Rattle.fs_view.specs.View.{taken_from};

use crate::index::FieldIndex;
use crate::key::Key;
use crate::known::{is_better, taken_of};
use crate::view_lease::{Standing, ViewLease};
use fs_field::{Field, LeaseKind};
use fs_ident::{LeaseNo, Memory};
use indexmap::IndexSet;
use std::alloc::Global;

/// The leases in order of grant. The number that stands at a place is that of the lease at that place.
#[derive(Debug)]
pub(crate) struct Leases {
    pub(crate) kept: Vec<ViewLease>,
    pub(crate) numbers: IndexSet<Key>,
    pub(crate) index: FieldIndex,
    /// No lease ends sooner.
    pub(crate) least: u64,
}

impl Leases {
    /// No lease, which takes no memory.
    pub(crate) fn new(alloc: Global) -> Leases
        ensures none { result.kept.items ≡ [] }
        ensures found { AreFound result }
    {
        Leases {
            kept: Vec::new(alloc),
            numbers: IndexSet::new(alloc),
            index: FieldIndex::new(alloc),
            least: u64::MAX,
        }
    }
}

/// Makes room for so many leases more. `Memory` when out of memory; the leases are as they were.
pub(crate) fn reserve(leases: &mut Leases, more: usize) -> Result<(), Memory>
    requires { AreFound leases.old }
    ensures same { leases.new.kept.items ≡ leases.old.kept.items }
    ensures found { AreFound leases.new }
    ensures room { OnOk result (vec_len leases.new.kept + more ≤ vec_capacity leases.new.kept) }
    ensures spare { OnOk result (more ≤ spare leases.new.numbers) }
{
    leases.kept.reserve(more)?;
    leases.numbers.reserve(more)?;
    Ok(())
}

/// A held lease is taken off its field.
pub(crate) fn take_off(index: &mut FieldIndex, standing: &Standing)
    ensures { IsTakenOff standing.now index.old index.new }
{
    match standing {
        Standing::Held(held) => index.forget(held.field(), held.no()),
        Standing::Pinned(_) | Standing::Leaving(_) => {}
    }
}

/// Where the lease of this number stands.
pub(crate) fn place(leases: &Leases, no: LeaseNo) -> Option<usize>
    requires { AreFound leases.now }
    ensures same { result ≡ position (has_number no) leases.now.kept.items }
    ensures within { IfSome result (λ at. at < length leases.now.kept.items) }
{
    leases.numbers.get_index_of(&Key::of(no))
}

/// The lease of this number.
pub(crate) fn numbered(leases: &Leases, no: LeaseNo) -> Option<&ViewLease>
    requires { AreFound leases.now }
    ensures { option_copied result ≡ find (has_number no) leases.now.kept.items }
{
    match place(leases, no) {
        None => None,
        Some(at) => Some(&leases.kept[at]),
    }
}

/// Whether a lease has this number.
pub(crate) fn has(leases: &Leases, no: LeaseNo) -> bool
    requires { AreFound leases.now }
    ensures { result ≡ list_any (has_number no) leases.now.kept.items }
{
    place(leases, no).is_some()
}

/// Whether a lease that is not over at the reading has this number.
pub(crate) fn has_live(leases: &Leases, now: u64, no: LeaseNo) -> bool
    requires { AreFound leases.now }
    ensures { result ≡ list_any (has_number no) (filter (is_live now) leases.now.kept.items) }
{
    match numbered(leases, no) {
        None => false,
        Some(kept) => !kept.standing.has_ended(now),
    }
}

/// The lease that is taken for the field at the reading: of those that serve for it the one that ends last, and of
/// several that end together the one with the least number.
pub(crate) fn taken<'a>(
    leases: &'a Leases,
    now: u64,
    field: &Field,
    kind: LeaseKind,
) -> Option<&'a ViewLease>
    requires { AreFound leases.now }
    ensures { option_copied result ≡ taken_from now field.now kind None leases.now.kept.items }
{
    if leases.index.is_whole() {
        return taken_by(leases, leases.index.on(field), now, field, kind);
    }
    taken_of(&leases.kept, now, field, kind)
}

/// The lease that is taken of those of these numbers, which are those on the field.
fn taken_by<'a>(
    leases: &'a Leases,
    numbers: &[LeaseNo],
    now: u64,
    field: &Field,
    kind: LeaseKind,
) -> Option<&'a ViewLease>
    requires found { AreFound leases.now }
    requires numbers { numbers.now ≡ numbers_on field.now leases.now.kept.items }
    ensures { option_copied result ≡ taken_from now field.now kind None leases.now.kept.items }
{
    let mut best: Option<&'a ViewLease> = None;
    for no in numbers {
        best = better_of(best, numbered(leases, *no), now, field, kind);
    }
    best
}

/// The better one of the best so far and this lease, if there is one.
fn better_of<'a>(
    best: Option<&'a ViewLease>,
    kept: Option<&'a ViewLease>,
    now: u64,
    field: &Field,
    kind: LeaseKind,
) -> Option<&'a ViewLease>
    ensures { option_copied result ≡
        better_of now field.now kind (option_copied best.entry) (option_copied kept.entry) }
{
    match kept {
        None => best,
        Some(kept) => {
            if kept.standing.serves(now, field, kind) && is_better(kept, best) {
                Some(kept)
            } else {
                best
            }
        }
    }
}
