//! The leases that are not over at a reading.
ghost use Rattle.std.specs.Prelude.{◌≡◌, ◌&&◌, not, map, IfOk};
ghost use Rattle.std.specs.List.{filter};
ghost use Rattle.fs_client.specs.Live.{is_ending, is_returned, live_of};
ghost use Rattle.fs_client.specs.Turns.{ends_by, has_to_go, pair_of};

use fs_ident::{FileId, LeaseNo, List, Memory, Twin};
use fs_view::{Standing, View, ViewLease};
use std::alloc::Global;

/// Those that have to go back, each with its file.
#[tactic(auto, using(crate::proofs::Chosen::chosen_step))]
pub(crate) fn returned(
    alloc: Global,
    leases: &[ViewLease],
    reading: u64,
) -> Result<List<(FileId, LeaseNo)>, Memory>
    ensures { IfOk result (λ pairs. pairs ≡ map pair_of
        (filter (λ k. has_to_go k.recalled k.standing) (live_of reading leases.now))) }
{
    let mut pairs = List::new(alloc);
    for kept in leases {
        if is_returned(kept, reading) {
            pairs.push(pair_of(alloc, kept)?)?;
        }
    }
    Ok(pairs)
}

/// Those that do not go back and end at this reading or before, each with its file. No lease is looked at where none can.
#[tactic(auto, using(crate::proofs::Chosen::none_ends))]
pub(crate) fn ending(
    alloc: Global,
    view: &View,
    reading: u64,
    soon: u64,
) -> Result<List<(FileId, LeaseNo)>, Memory>
    ensures { IfOk result (λ pairs. pairs ≡ map pair_of
        (filter (λ k. not k.recalled && ends_by soon k.standing)
        (live_of reading view.now.leases))) }
{
    if view.may_end(soon) {
        return each_ending(alloc, view.kept(), reading, soon);
    }
    Ok(List::new(alloc))
}

#[tactic(auto, using(crate::proofs::Chosen::chosen_step))]
fn each_ending(
    alloc: Global,
    leases: &[ViewLease],
    reading: u64,
    soon: u64,
) -> Result<List<(FileId, LeaseNo)>, Memory>
    ensures { IfOk result (λ pairs. pairs ≡ map pair_of
        (filter (λ k. not k.recalled && ends_by soon k.standing) (live_of reading leases.now))) }
{
    let mut pairs = List::new(alloc);
    for kept in leases {
        if is_ending(kept, reading, soon) {
            pairs.push(pair_of(alloc, kept)?)?;
        }
    }
    Ok(pairs)
}

/// The lease and its file.
fn pair_of(alloc: Global, kept: &ViewLease) -> Result<(FileId, LeaseNo), Memory>
    ensures { IfOk result (λ pair. pair ≡ pair_of kept.now) }
{
    Ok((kept.standing.file().copy(alloc)?, kept.standing.no()))
}

/// Whether the lease is there and goes back: its server asked for it and no entry uses it, or it is on its way already.
fn is_returned(kept: &ViewLease, reading: u64) -> bool
    ensures { result ≡ is_returned reading kept.now }
{
    match &kept.standing {
        Standing::Held(held) => reading < held.until() && kept.recalled,
        Standing::Pinned(_) => false,
        Standing::Leaving(_) => true,
    }
}

/// Whether the lease is there, does not go back, and ends at this reading or before.
fn is_ending(kept: &ViewLease, reading: u64, soon: u64) -> bool
    ensures { result ≡ is_ending reading soon kept.now }
{
    if kept.recalled {
        return false;
    }
    match &kept.standing {
        Standing::Held(held) => reading < held.until() && held.until() <= soon,
        Standing::Pinned(pinned) => pinned.until() <= soon,
        Standing::Leaving(_) => false,
    }
}
