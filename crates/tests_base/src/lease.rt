//! The life of a lease, and copies compared whole.
ghost use Rattle.std.specs.Prelude.{◌≡◌};

use crate::{is_copied, same};
use fs_field::{Field, LeaseKind};
use fs_ident::{FileId, LeaseNo, Twin};
use fs_lease::{Held, Leaving, Pinned, Unpinned};
use std::alloc::Global;
use std::process::Abort;
use std::test::Fail;

const NO: LeaseNo = LeaseNo {
    server: 1,
    count: 7,
};

/// An exclusive lease on size and stamp of the root, until 100.
fn granted(alloc: Global) -> Held
    ensures { result.until ≡ 100 }
{
    Held::new(
        NO,
        Field::Info(FileId::root(alloc)),
        LeaseKind::Exclusive,
        100,
    )
}

/// Whether the field is of the root.
fn is_of_root(file: &FileId) -> bool {
    file.numbers().is_empty()
}

/// It is held, and its copy too.
fn is_held(rt: &impl Abort, alloc: Global, lease: &Held, until: u64) -> Result<(), Fail> {
    same(rt, (lease.no(), lease.until()), (NO, until));
    same(rt, lease.kind(), LeaseKind::Exclusive);
    same(rt, is_of_root(lease.field().file()), true);
    is_copied(rt, alloc, lease)
}

/// So many entries use it, and its copy too.
fn is_pinned(
    rt: &impl Abort,
    alloc: Global,
    lease: &Pinned,
    until: u64,
    entries: u64,
) -> Result<(), Fail> {
    same(
        rt,
        (lease.no(), lease.until(), lease.entries()),
        (NO, until, entries),
    );
    same(rt, lease.kind(), LeaseKind::Exclusive);
    same(rt, is_of_root(lease.field().file()), true);
    is_copied(rt, alloc, lease)
}

/// It leaves, and its copy too.
fn is_leaving(rt: &impl Abort, alloc: Global, lease: &Leaving) -> Result<(), Fail> {
    same(rt, lease.no(), NO);
    same(rt, is_of_root(lease.file()), true);
    is_copied(rt, alloc, lease)
}

/// A lease that is free again is renewed and given back.
fn goes_back(rt: &impl Abort, alloc: Global, held: Held) -> Result<(), Fail> {
    let leaving = held.renewed(300).leave();
    let done = is_leaving(rt, alloc, &leaving);
    leaving.released();
    done
}

/// A lease that one entry uses.
fn ends(rt: &impl Abort, alloc: Global, pinned: Pinned) -> Result<(), Fail> {
    match pinned.unpin() {
        Unpinned::Still(pinned) => {
            pinned.discard();
            Err(Fail::from("it is free"))
        }
        Unpinned::Free(held) => goes_back(rt, alloc, held),
    }
}

/// A lease that two entries use.
fn ends_twice(rt: &impl Abort, alloc: Global, pinned: Pinned) -> Result<(), Fail> {
    match pinned.unpin() {
        Unpinned::Free(held) => {
            held.discard();
            Err(Fail::from("it is not free"))
        }
        Unpinned::Still(pinned) => ends(rt, alloc, pinned),
    }
}

#[test]
fn a_lease_is_held(rt: HostRuntime) -> Result<(), Fail> {
    let held = granted(rt.alloc());
    let done = is_held(&rt, rt.alloc(), &held, 100);
    held.discard();
    done
}

#[test]
fn a_lease_is_pinned(rt: HostRuntime) -> Result<(), Fail> {
    let pinned = granted(rt.alloc()).pin().more().renewed(200);
    let done = is_pinned(&rt, rt.alloc(), &pinned, 200, 2);
    pinned.discard();
    done
}

/// A lease is pinned by two entries, freed, renewed and given back.
#[test]
fn from_grant_to_release(rt: HostRuntime) -> Result<(), Fail> {
    ends_twice(
        &rt,
        rt.alloc(),
        granted(rt.alloc()).pin().more().renewed(200),
    )
}

/// A lease ends at a reading that is no less than its end.
#[test]
fn from_grant_to_end(rt: HostRuntime) {
    granted(rt.alloc()).ended(100);
}
