//! Leases that join a table, in order.
ghost use Rattle.std.specs.Prelude.{◌≡◌, ◌≤◌, true, length, unwrap_or, OnOk, OnErr};
ghost use Rattle.std.specs.List.{position};
ghost use Rattle.fs_path.specs.Index.{IsHad, IsNewAmong, IsOver, are_rising, no_of_held, no_of_issued};
ghost use Rattle.fs_path.specs.Leases.{path_before};
ghost use Rattle.fs_path.specs.Tables.{lease_of, with_held, with_issued};

use crate::having::Having;
use crate::held_index::HeldIndex;
use crate::index::FileIndex;
use crate::issued::Issued;
use crate::numbered::{has_held, has_issued, place_behind_held, place_behind_issued};
use fs_ident::{FileId, List, Memory, PathNo, Twin};
use std::alloc::Global;

/// One lease more that is given out: that of the file with this path, to that server.
pub(crate) fn issue(
    issued: &mut Vec<Issued>,
    over: &mut FileIndex,
    alloc: Global,
    l: Issued,
    path: &List<FileId>,
) -> Result<(), Memory>
    requires path { path.now ≡ l.path }
    requires index { IsOver over.old issued.old.items }
    ensures ok { OnOk result (issued.new.items ≡ with_issued l issued.old.items) }
    ensures err { OnErr result (issued.new.items ≡ issued.old.items) }
    ensures index { IsOver over.new issued.new.items }
{
    let name = l.named_to_peer();
    let is_new = is_new_among(issued, over, name.1);
    put_issued(issued, over.is_whole(), l)?;
    over.note(alloc, path.as_slice(), name, is_new);
    Ok(())
}

/// Whether none of these has the number. It says so only while the index is whole.
fn is_new_among(issued: &[Issued], over: &FileIndex, no: PathNo) -> bool
    requires { IsOver over.now issued.now }
    ensures { IsNewAmong no_of_issued no issued.now result }
{
    over.is_whole() && !has_issued(issued, no)
}

/// One lease more; it is spent when out of memory.
fn put_issued(issued: &mut Vec<Issued>, rising: bool, l: Issued) -> Result<(), Memory>
    requires { rising ≡ true → are_rising no_of_issued issued.old.items ≡ true }
    ensures ok { OnOk result (issued.new.items ≡ with_issued l issued.old.items) }
    ensures err { OnErr result (issued.new.items ≡ issued.old.items) }
{
    let at = issued_place(issued, rising, l.no());
    match issued.insert(at, l) {
        Ok(()) => Ok(()),
        Err(full) => {
            full.value.discard();
            Err(Memory)
        }
    }
}

/// One lease more from another server.
pub(crate) fn take_held(
    held: &mut Vec<Having>,
    had: &mut HeldIndex,
    alloc: Global,
    h: Having,
    file: &FileId,
    path: &List<FileId>,
) -> Result<(), Memory>
    requires file { file.now ≡ (lease_of h).file }
    requires path { path.now ≡ (lease_of h).path }
    requires index { IsHad had.old held.old.items }
    ensures ok { OnOk result (held.new.items ≡ with_held h held.old.items) }
    ensures err { OnErr result (held.new.items ≡ held.old.items) }
    ensures index { IsHad had.new held.new.items }
{
    let name = h.named_to_peer();
    let is_new = is_new_held(held, had, name.1);
    put_held(held, had.own.is_whole(), h)?;
    had.note(alloc, file, path, name, is_new);
    Ok(())
}

/// Whether none from another server has the number. It says so only while the index is whole.
#[tactic(auto, using(crate::proofs::Own::own_rises))]
fn is_new_held(held: &[Having], had: &HeldIndex, no: PathNo) -> bool
    requires { IsHad had.now held.now }
    ensures { IsNewAmong no_of_held no held.now result }
{
    had.own.is_whole() && !has_held(held, no)
}

/// One lease more from another server; it is spent when out of memory.
fn put_held(held: &mut Vec<Having>, rising: bool, h: Having) -> Result<(), Memory>
    requires { rising ≡ true → are_rising no_of_held held.old.items ≡ true }
    ensures ok { OnOk result (held.new.items ≡ with_held h held.old.items) }
    ensures err { OnErr result (held.new.items ≡ held.old.items) }
{
    let at = held_place(held, rising, h.no());
    match held.insert(at, h) {
        Ok(()) => Ok(()),
        Err(full) => {
            full.value.discard();
            Err(Memory)
        }
    }
}

/// Where the first lease with a greater number stands, or the length.
fn issued_place(issued: &[Issued], rising: bool, no: PathNo) -> usize
    requires { rising ≡ true → are_rising no_of_issued issued.now ≡ true }
    ensures place { result ≡ unwrap_or (position (λ x. path_before no x.no) issued.now)
        (length issued.now) }
    ensures within { result ≤ length issued.now }
{
    if rising {
        place_behind_issued(issued, no)
    } else {
        walk_issued_place(issued, no)
    }
}

/// Where the first lease with a greater number stands, or the length; the numbers need not rise.
#[tactic(auto, using(fs_field::proofs::Places::place_is, fs_field::proofs::Places::place_step))]
fn walk_issued_place(issued: &[Issued], no: PathNo) -> usize
    ensures place { result ≡ unwrap_or (position (λ x. path_before no x.no) issued.now)
        (length issued.now) }
    ensures within { result ≤ length issued.now }
{
    for at in 0..issued.len() {
        if no < issued[at].no() {
            return at;
        }
    }
    issued.len()
}

/// Where the first lease from another server with a greater number stands, or the length.
fn held_place(held: &[Having], rising: bool, no: PathNo) -> usize
    requires { rising ≡ true → are_rising no_of_held held.now ≡ true }
    ensures place { result ≡ unwrap_or (position (λ x. path_before no (lease_of x).no) held.now)
        (length held.now) }
    ensures within { result ≤ length held.now }
{
    if rising {
        place_behind_held(held, no)
    } else {
        walk_held_place(held, no)
    }
}

/// Where that one stands, found lease after lease: the numbers may not rise.
#[tactic(auto, using(fs_field::proofs::Places::place_is, fs_field::proofs::Places::place_step))]
fn walk_held_place(held: &[Having], no: PathNo) -> usize
    ensures place { result ≡ unwrap_or (position (λ x. path_before no (lease_of x).no) held.now)
        (length held.now) }
    ensures within { result ≤ length held.now }
{
    for at in 0..held.len() {
        if no < held[at].no() {
            return at;
        }
    }
    held.len()
}
