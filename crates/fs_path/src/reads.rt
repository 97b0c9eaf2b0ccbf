//! What is read of the tables.
ghost use Rattle.std.specs.Prelude.{◌≡◌, true, IfOk, option_map};
ghost use Rattle.std.specs.List.{find};
ghost use Rattle.fs_path.specs.Index.{IsHad, IsOver, IsVia, are_rising, no_of_held, no_of_issued};
ghost use Rattle.fs_path.specs.Leases.{PathLease, goes_into};
ghost use Rattle.fs_path.specs.Returns.{held_from};
ghost use Rattle.fs_path.specs.Tables.{holds, issued_to, lease_of, through};

use crate::having::Having;
use crate::held_index::HeldIndex;
use crate::index::{FileIndex, first_no};
use crate::issued::Issued;
use crate::numbered::{has_held, place_of_held, place_of_issued};
use fs_ident::{FileId, List, Memory, PathNo};
use fs_map::FileMap;
use std::alloc::Global;

/// The server to which the lease of the number is given out.
pub(crate) fn issued_to(issued: &[Issued], over: &FileIndex, no: PathNo) -> Option<u8>
    requires { IsOver over.now issued.now }
    ensures { result ≡ issued_to no issued.now }
{
    if over.is_whole() {
        found_issued_to(issued, no)
    } else {
        walk_issued_to(issued, no)
    }
}

fn found_issued_to(issued: &[Issued], no: PathNo) -> Option<u8>
    requires { are_rising no_of_issued issued.now ≡ true }
    ensures { result ≡ issued_to no issued.now }
{
    match place_of_issued(issued, no) {
        Some(at) => Some(issued[at].to()),
        None => None,
    }
}

/// The server to which the lease of the number is given out, by a walk over all leases.
#[tactic(auto, using(crate::proofs::Steps::find_step))]
fn walk_issued_to(issued: &[Issued], no: PathNo) -> Option<u8>
    ensures { result ≡ issued_to no issued.now }
{
    for l in issued {
        if l.no() == no {
            return Some(l.to());
        }
    }
    None
}

/// Whether the lease of the number is had.
pub(crate) fn holds(held: &[Having], had: &HeldIndex, no: PathNo) -> bool
    requires { IsHad had.now held.now }
    ensures { result ≡ holds no held.now }
{
    if had.own.is_whole() {
        has_held(held, no)
    } else {
        walk_holds(held, no)
    }
}

/// Whether it is, found lease after lease.
#[tactic(auto, using(crate::proofs::Steps::any_step))]
fn walk_holds(held: &[Having], no: PathNo) -> bool
    ensures { result ≡ holds no held.now }
{
    for h in held {
        if h.no() == no {
            return true;
        }
    }
    false
}

/// The server from which the lease of the number is had.
pub(crate) fn held_from(held: &[Having], had: &HeldIndex, no: PathNo) -> Option<u8>
    requires { IsHad had.now held.now }
    ensures { result ≡ held_from no held.now }
{
    if had.own.is_whole() {
        found_held_from(held, no)
    } else {
        walk_held_from(held, no)
    }
}

fn found_held_from(held: &[Having], no: PathNo) -> Option<u8>
    requires { are_rising no_of_held held.now ≡ true }
    ensures { result ≡ held_from no held.now }
{
    match place_of_held(held, no) {
        Some(at) => Some(held[at].named_to_peer().0),
        None => None,
    }
}

/// That server, found lease after lease.
#[tactic(auto, using(crate::proofs::Steps::find_step))]
fn walk_held_from(held: &[Having], no: PathNo) -> Option<u8>
    ensures { result ≡ held_from no held.now }
{
    for h in held {
        if h.no() == no {
            return Some(h.named_to_peer().0);
        }
    }
    None
}

/// The first one given out whose path goes over the file.
pub(crate) fn through(issued: &[Issued], over: &FileIndex, file: &FileId) -> Option<PathNo>
    requires { IsOver over.now issued.now }
    ensures { result ≡ through file.now issued.now }
{
    if over.is_whole() {
        first_no(over.at(file))
    } else {
        walk_through(issued, file)
    }
}

/// A copy of some names.
pub(crate) fn copy_names(
    alloc: Global,
    names: &[(u8, PathNo)],
) -> Result<List<(u8, PathNo)>, Memory>
    ensures { IfOk result (λ list. list ≡ names.now) }
{
    let mut list = List::new(alloc);
    list.items_mut().extend_from_slice(names)?;
    Ok(list)
}

/// The first whose path goes over the file, path after path.
#[tactic(auto, using(crate::proofs::Steps::find_step))]
fn walk_through(issued: &[Issued], file: &FileId) -> Option<PathNo>
    ensures { result ≡ through file.now issued.now }
{
    for l in issued {
        if l.goes_over(file) {
            return Some(l.no());
        }
    }
    None
}

/// The first one given out whose path goes over a file below the prefix that is `me`'s.
pub(crate) fn first_issued(
    issued: &[Issued],
    over: &FileIndex,
    map: &FileMap,
    me: u8,
    prefix: &FileId,
) -> Option<PathNo>
    requires { IsOver over.now issued.now }
    ensures { result ≡ option_map (λ (l : PathLease). l.no)
        (find (goes_into map.now me prefix.now) issued.now) }
{
    if over.is_whole() {
        over.least_into(map, me, prefix)
    } else {
        walk_first_issued(issued, map, me, prefix)
    }
}

/// That one, found path after path.
#[tactic(auto, using(crate::proofs::Steps::find_step))]
fn walk_first_issued(issued: &[Issued], map: &FileMap, me: u8, prefix: &FileId) -> Option<PathNo>
    ensures { result ≡ option_map (λ (l : PathLease). l.no)
        (find (goes_into map.now me prefix.now) issued.now) }
{
    for l in issued {
        if l.goes_into(map, me, prefix) {
            return Some(l.no());
        }
    }
    None
}

/// The first one from another server whose path does.
pub(crate) fn first_held(
    held: &[Having],
    via: &FileIndex,
    map: &FileMap,
    me: u8,
    prefix: &FileId,
) -> Option<PathNo>
    requires { IsVia via.now held.now }
    ensures { result ≡ option_map (λ h. (lease_of h).no)
        (find (λ h. goes_into map.now me prefix.now (lease_of h)) held.now) }
{
    if via.is_whole() {
        via.least_into(map, me, prefix)
    } else {
        walk_first_held(held, map, me, prefix)
    }
}

/// That one, found path after path.
#[tactic(auto, using(crate::proofs::Steps::find_step))]
fn walk_first_held(held: &[Having], map: &FileMap, me: u8, prefix: &FileId) -> Option<PathNo>
    ensures { result ≡ option_map (λ h. (lease_of h).no)
        (find (λ h. goes_into map.now me prefix.now (lease_of h)) held.now) }
{
    for h in held {
        if h.goes_into(map, me, prefix) {
            return Some(h.no());
        }
    }
    None
}
