//! Leases as their server gave them.
ghost use Rattle.std.specs.Prelude.{◌≡◌, ◌+◌, ◌<◌, ◌≤◌, ◌++◌, ◌∷◌, [], length, map, true, false, vec_len, vec_capacity};
ghost use Rattle.std.specs.List.{list_any};
ghost use Rattle.indexmap.specs.IndexSet.{spare};
ghost use Rattle.fs_view.specs.Index.{AreFound};
ghost use Rattle.fs_view.specs.ViewLease.{has_number};
ghost use Rattle.fs_view.specs.View.{can_grant_all, kept_new};

use crate::ends::lesser;
use crate::key::Key;
use crate::leases::Leases;
use crate::view_lease::{Standing, ViewLease};
use fs_field::{Field, LeaseKind, Value};
use fs_ident::{FileId, LeaseNo, List, Memory, Twin, copy_three};
use fs_lease::Held;
use std::alloc::Global;

/// A lease that a server gives, with what its field says.
#[derive(Debug, Drop)]
pub struct NewLease {
    pub no: LeaseNo,
    pub field: Field,
    pub kind: LeaseKind,
    /// The reading from which on it is over.
    pub until: u64,
    pub value: Value,
    /// The directory for which the identifier of its file was given.
    pub below: Option<FileId>,
}

impl NewLease {
    /// The lease as it is kept.
    fn kept(self) -> ViewLease
        ensures { result ≡ kept_new self }
    {
        let NewLease {
            no,
            field,
            kind,
            until,
            value,
            below,
        } = self;
        ViewLease {
            standing: Standing::Held(Held::new(no, field, kind, until)),
            base: value,
            recalled: false,
            below,
        }
    }
}

/// Adds the leases behind the others, in order, where there is room for them.
pub(crate) fn add_all(leases: &mut Leases, alloc: Global, new: List<NewLease>)
    requires room { vec_len leases.old.kept + length new ≤ vec_capacity leases.old.kept }
    requires spare { length new ≤ spare leases.old.numbers }
    requires fits { can_grant_all new leases.old.kept.items ≡ true }
    requires found { AreFound leases.old }
    ensures added { leases.new.kept.items ≡ leases.old.kept.items ++ map kept_new new }
    ensures found { AreFound leases.new }
{
    for lease in new.into_vec() {
        add_one(leases, alloc, lease);
    }
}

/// Adds the lease behind the others, where there is room for it.
pub(crate) fn add_one(leases: &mut Leases, alloc: Global, lease: NewLease)
    requires room { vec_len leases.old.kept < vec_capacity leases.old.kept }
    requires spare { 0 < spare leases.old.numbers }
    requires new { list_any (has_number lease.no) leases.old.kept.items ≡ false }
    requires found { AreFound leases.old }
    ensures added { leases.new.kept.items ≡ leases.old.kept.items ++ kept_new lease ∷ [] }
    ensures found { AreFound leases.new }
    ensures len { vec_len leases.new.kept ≡ vec_len leases.old.kept + 1 }
    ensures capacity { vec_capacity leases.old.kept ≤ vec_capacity leases.new.kept }
    ensures spare { spare leases.old.numbers ≤ spare leases.new.numbers + 1 }
{
    leases.least = lesser(leases.least, lease.until);
    leases.index.add(alloc, &lease.field, lease.no);
    match leases.numbers.insert(Key::of(lease.no)) {
        Ok(_) => {}
        Err(_) => unreachable!(),
    }
    match leases.kept.push(lease.kept()) {
        Ok(()) => {}
        Err(_) => unreachable!(),
    }
}

impl Twin for NewLease {
    fn copy(&self, alloc: Global) -> Result<NewLease, Memory> {
        let (field, value, below) = copy_three(alloc, &self.field, &self.value, &self.below)?;
        Ok(NewLease {
            no: self.no,
            field,
            kind: self.kind,
            until: self.until,
            value,
            below,
        })
    }

    fn discard(self) {
        drop(self);
    }
}
