//! When leases are over.
ghost use Rattle.std.specs.Prelude.{◌≡◌, ◌≤◌, vec_len, vec_capacity, true, false, not, filter, ◌||◌, nat_lt};
ghost use Rattle.std.specs.List.{list_all};
ghost use Rattle.indexmap.specs.IndexSet.{spare};
ghost use Rattle.fs_view.specs.Index.{AreFound, end_no_sooner, lesser, lesser_end};
ghost use Rattle.fs_view.specs.ViewLease.{has_ended, is_leaving, until_of};
ghost use Rattle.fs_view.specs.declared.view_lease.ViewLease.{ViewLease as TheViewLease};

use crate::leases::{Leases, take_off};
use crate::view_lease::{Standing, ViewLease};

/// Gives up every lease that no entry uses and that is over at the reading. No lease is looked at where none can be over.
pub(crate) fn lapse(leases: &mut Leases, now: u64)
    requires { AreFound leases.old }
    ensures live { leases.new.kept.items ≡
        filter (λ k. not (has_ended now k.standing)) leases.old.kept.items }
    ensures found { AreFound leases.new }
    ensures len { vec_len leases.new.kept ≤ vec_len leases.old.kept }
    ensures capacity { vec_capacity leases.new.kept ≡ vec_capacity leases.old.kept }
    ensures spare { spare leases.old.numbers ≤ spare leases.new.numbers }
{
    if now < leases.least {
        return;
    }
    let mut at = 0;
    while at < leases.kept.len() {
        if leases.kept[at].standing.has_ended(now) {
            take_off(&mut leases.index, &leases.kept[at].standing);
            leases.numbers.shift_remove_index(at);
            leases.kept.remove(at).ended(now);
        } else {
            at += 1;
        }
    }
    leases.least = least_end(&leases.kept);
}

/// Whether a lease that does not go back may end at this reading or before. Where not, none does.
pub(crate) fn may_end(leases: &Leases, soon: u64) -> bool
    requires { AreFound leases.now }
    ensures { result ≡ false → list_all
        (λ (k : TheViewLease). is_leaving k.standing || nat_lt soon (until_of k.standing))
        leases.now.kept.items ≡ true }
{
    leases.least <= soon
}

/// The least end of the leases that do not go back.
fn least_end(kept: &[ViewLease]) -> u64
    ensures { end_no_sooner result kept.now ≡ true }
{
    let mut least = u64::MAX;
    for lease in kept {
        least = lesser_end(least, &lease.standing);
    }
    least
}

/// The lesser of this and the lease's end, unless it goes back.
fn lesser_end(least: u64, standing: &Standing) -> u64
    ensures { result ≡ lesser_end least standing.now }
{
    match standing {
        Standing::Held(held) => lesser(least, held.until()),
        Standing::Pinned(pinned) => lesser(least, pinned.until()),
        Standing::Leaving(_) => least,
    }
}

/// The lesser of two ends.
pub(crate) fn lesser(a: u64, b: u64) -> u64
    ensures { result ≡ lesser a b }
{
    if a < b { a } else { b }
}
