//! The path of a file, as its server knows it.
ghost use Rattle.std.specs.Prelude.{◌≡◌, ◌++◌, [], true, Some, IfOk, option_map};
ghost use Rattle.fs_path.specs.Index.{IsHad, are_rising, if_used, no_of_held, used_named, used_of};
ghost use Rattle.fs_path.specs.Kept.{IsKept};
ghost use Rattle.fs_path.specs.Walk.{at_top, path_of, used_for};
ghost use Rattle.fs_path.specs.declared.having.Having.TheVariants.{Held};
ghost use Rattle.fs_path.specs.declared.used.Used.{Used as TheUsed};

use crate::having::Having;
use crate::held_index::HeldIndex;
use crate::kept::{KeptIndex, frozen_for};
use crate::numbered::place_of_held;
use crate::rise::{Rise, rise_at};
use crate::used::Used;
use fs_field::PathAnswer;
use fs_ident::{FileId, List, Memory, PathNo, Twin, TxnNo, add_copy};
use fs_record::Records;
use std::alloc::Global;

/// The path of the file: upwards by parents, and from the topmost file here on by a lease that may be used.
pub(crate) fn path_of(
    alloc: Global,
    held: &[Having],
    had: &HeldIndex,
    frozen: &[(FileId, TxnNo)],
    kept: &KeptIndex,
    records: &Records,
    file: &FileId,
) -> Result<PathAnswer, Memory>
    requires had { IsHad had.now held.now }
    requires kept { IsKept kept.now frozen.now }
    ensures { IfOk result (λ a. a ≡ path_of
        (record { issued = []; held = held.now; frozen = frozen.now }) records.now file.now) }
{
    let mut below = List::new(alloc);
    let mut at = file.copy(alloc)?;
    loop {
        match rise_at(
            alloc,
            records,
            &at,
            below.as_slice(),
            frozen_for(frozen, kept, &at),
        )? {
            Rise::Frozen(txn) => return Ok(PathAnswer::Frozen { file: at, txn }),
            Rise::Ends => {
                below.insert(0, at)?;
                return Ok(PathAnswer::Path(below));
            }
            Rise::Topmost(parent) => {
                return at_top(alloc, held, had, at, parent, below.as_slice());
            }
            Rise::On(parent) => {
                below.insert(0, at)?;
                at = parent;
            }
        }
    }
}

/// The path from the topmost file here on.
fn at_top(
    alloc: Global,
    held: &[Having],
    had: &HeldIndex,
    file: FileId,
    parent: FileId,
    below: &[FileId],
) -> Result<PathAnswer, Memory>
    requires { IsHad had.now held.now }
    ensures { IfOk result (λ a. a ≡ at_top (used_for file held.now) file parent below.now) }
{
    match used_for(held, had, &file) {
        Some(used) => Ok(PathAnswer::Path(joined(alloc, used.path(), below)?)),
        None => Ok(PathAnswer::Wanted { file, parent }),
    }
}

/// The first lease for the file that does not leave: it is used now.
fn used_for<'a>(held: &'a [Having], had: &HeldIndex, file: &FileId) -> Option<Used<'a>>
    requires { IsHad had.now held.now }
    ensures { option_map (λ (u : TheUsed). Held u.lease.now) result ≡ used_for file.now held.now }
{
    if had.own.is_whole() {
        used_named(held, had.own.at(file))
    } else {
        walk_used(held, file)
    }
}

/// The first of these that does not leave.
fn used_named<'a>(held: &'a [Having], names: &[(u8, PathNo)]) -> Option<Used<'a>>
    requires { are_rising no_of_held held.now ≡ true }
    ensures { option_map (λ (u : TheUsed). Held u.lease.now) result ≡
        used_named names.now held.now }
{
    for name in names {
        if let Some(used) = used_of(held, name.1) {
            return Some(used);
        }
    }
    None
}

/// The lease of the number, unless it leaves.
fn used_of<'a>(held: &'a [Having], no: PathNo) -> Option<Used<'a>>
    requires { are_rising no_of_held held.now ≡ true }
    ensures { option_map (λ (u : TheUsed). Held u.lease.now) result ≡ used_of no held.now }
{
    match place_of_held(held, no) {
        Some(at) => used(&held[at]),
        None => None,
    }
}

/// The lease, unless it leaves.
fn used(h: &Having) -> Option<Used<'_>>
    ensures { option_map (λ (u : TheUsed). Held u.lease.now) result ≡ if_used (Some h.now) }
{
    match h {
        Having::Held(lease) => Some(lease.used()),
        Having::Leaving(_) => None,
    }
}

/// The lease of that file which stands first and does not leave, found lease after lease.
#[tactic(auto, using(crate::proofs::Steps::find_step))]
fn walk_used<'a>(held: &'a [Having], file: &FileId) -> Option<Used<'a>>
    ensures { option_map (λ (u : TheUsed). Held u.lease.now) result ≡ used_for file.now held.now }
{
    for h in held {
        if let Having::Held(lease) = h {
            if lease.file() == file {
                return Some(lease.used());
            }
        }
    }
    None
}

/// Copies of the files of both.
fn joined(alloc: Global, front: &List<FileId>, back: &[FileId]) -> Result<List<FileId>, Memory>
    ensures { IfOk result (λ files. files ≡ front.now ++ back.now) }
{
    let mut files = front.copy(alloc)?;
    for file in back {
        add_copy(alloc, &mut files, file)?;
    }
    Ok(files)
}
