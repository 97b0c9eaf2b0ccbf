//! Whether entries more can use leases.
ghost use Rattle.std.specs.Prelude.{◌≡◌, ◌+◌, ◌≤◌, length};
ghost use Rattle.fs_view.specs.Index.{AreFound};
ghost use Rattle.fs_view.specs.ViewLease.{has_number, takes_pin};
ghost use Rattle.fs_view.specs.Pins.{takes_after, times_in};
ghost use Rattle.fs_view.specs.View.{can_pin_all, stands};

use crate::leases::{Leases, numbered};
use crate::view_lease::Standing;
use fs_field::Use;
use fs_ident::LeaseNo;

/// Whether one entry more can use each of these leases, one after another.
pub(crate) fn can_pin_all(leases: &Leases, uses: &[Use]) -> bool
    requires { AreFound leases.now }
    ensures { result ≡ can_pin_all uses.now leases.now.kept.items }
{
    for at in 0..uses.len() {
        let no = uses[at].no;
        if !takes_after(leases, no, times_in(&uses[..at], no)) {
            return false;
        }
    }
    true
}

/// How many of the uses are of the lease of this number.
fn times_in(uses: &[Use], no: LeaseNo) -> u64
    ensures same { result ≡ times_in no uses.now }
    ensures most { result ≤ length uses.now }
{
    let mut times = 0;
    for u in uses {
        if u.no == no {
            times += 1;
        }
    }
    times
}

/// Whether one entry more can use the lease of this number when so many more do.
fn takes_after(leases: &Leases, no: LeaseNo, more: u64) -> bool
    requires { AreFound leases.now }
    ensures { result ≡ stands (takes_after more) no leases.now.kept.items }
{
    match numbered(leases, no) {
        None => false,
        Some(kept) => match &kept.standing {
            Standing::Held(_) => more < u64::MAX,
            Standing::Pinned(pinned) => pinned.entries() < u64::MAX - more,
            Standing::Leaving(_) => false,
        },
    }
}
