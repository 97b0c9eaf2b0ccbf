//! The files that transactions keep where they are: in order of transaction, and by file.
ghost use Rattle.std.specs.Prelude.{◌≡◌, ◌+◌, ◌<◌, ◌≤◌, [], length, map, true, unwrap_or, vec_capacity, vec_len, IfOk, OnOk, OnErr};
ghost use Rattle.std.specs.List.{position, remove_range};
ghost use Rattle.fs_ident.specs.Maps.{map_of};
ghost use Rattle.fs_path.specs.ByFile.{ChangesAmong, ChangesAt, listed_at};
ghost use Rattle.fs_path.specs.Kept.{AreInOrderAt, AreKept, IsKept, IsRange, are_in_order, but_txn, file_of, first_of, itself, txn_before, txn_of, with_txn};
ghost use Rattle.fs_path.specs.Returns.{without_txn};
ghost use Rattle.fs_path.specs.Tables.{frozen_for, with_all_frozen, with_frozen};

use crate::by_file::{items_at, put_first, take_file};
use fs_ident::{FileId, List, Memory, TxnNo, add_copy, copy_map};
use std::alloc::Global;
use std::collections::BTreeMap;

/// The transactions that keep each file, in order. A file that none keeps is no key.
#[derive(Debug, Drop)]
pub(crate) struct KeptIndex {
    files: BTreeMap<FileId, List<TxnNo>>,
    /// Whether it has them all. It has not any more once memory was wanting.
    whole: bool,
}

impl KeptIndex {
    /// That of no file, which takes no memory.
    pub fn new(alloc: Global) -> KeptIndex
        ensures { IsKept result [] }
    {
        KeptIndex {
            files: BTreeMap::new(alloc),
            whole: true,
        }
    }

    /// An equal one.
    pub fn copy(&self, alloc: Global) -> Result<KeptIndex, Memory>
        ensures whole { IfOk result (λ twin. twin.whole ≡ self.now.whole) }
        ensures files { IfOk result (λ twin. map_of twin.files ≡ map_of self.now.files) }
    {
        Ok(KeptIndex {
            files: copy_map(alloc, &self.files)?,
            whole: self.whole,
        })
    }

    /// The transaction keeps the file besides. It is not whole any more when out of memory.
    fn note(&mut self, alloc: Global, file: &FileId, txn: TxnNo)
        requires { self.old.whole ≡ true → AreInOrderAt self.old.files }
        ensures { self.new.whole ≡ true → (self.old.whole ≡ true) ×
            ChangesAt (with_txn txn) file.now self.old.files self.new.files }
    {
        if self.whole {
            match add_at(alloc, &mut self.files, file, txn) {
                Ok(()) => {}
                Err(_) => self.whole = false,
            }
        }
    }
}

/// The transaction keeps each of these files, one behind the other: all of them, or none when out of memory.
pub(crate) fn put_all_frozen(
    alloc: Global,
    frozen: &mut Vec<(FileId, TxnNo)>,
    kept: &mut KeptIndex,
    files: &[FileId],
    txn: TxnNo,
) -> Result<(), Memory>
    requires { IsKept kept.old frozen.old.items }
    ensures ok { OnOk result (frozen.new.items ≡ with_all_frozen txn files.now frozen.old.items) }
    ensures err { OnErr result (frozen.new.items ≡ frozen.old.items) }
    ensures kept { IsKept kept.new frozen.new.items }
{
    let copies = copies_of(alloc, files)?;
    frozen.reserve(copies.len())?;
    put_each_frozen(alloc, frozen, kept, copies, txn);
    Ok(())
}

/// A copy of each of these files.
fn copies_of(alloc: Global, files: &[FileId]) -> Result<List<FileId>, Memory>
    ensures { IfOk result (λ copies. copies ≡ files.now) }
{
    let mut copies = List::new(alloc);
    for file in files {
        add_copy(alloc, &mut copies, file)?;
    }
    Ok(copies)
}

/// The transaction keeps each of these files, where there is room for all.
fn put_each_frozen(
    alloc: Global,
    frozen: &mut Vec<(FileId, TxnNo)>,
    kept: &mut KeptIndex,
    files: List<FileId>,
    txn: TxnNo,
)
    requires room { vec_len frozen.old + length files ≤ vec_capacity frozen.old }
    requires kept { IsKept kept.old frozen.old.items }
    ensures items { frozen.new.items ≡ with_all_frozen txn files frozen.old.items }
    ensures kept { IsKept kept.new frozen.new.items }
{
    for file in files.into_vec() {
        put_frozen(alloc, frozen, kept, file, txn);
    }
}

/// One more file that the transaction keeps, where there is room for it.
fn put_frozen(
    alloc: Global,
    frozen: &mut Vec<(FileId, TxnNo)>,
    kept: &mut KeptIndex,
    file: FileId,
    txn: TxnNo,
)
    requires room { vec_len frozen.old < vec_capacity frozen.old }
    requires kept { IsKept kept.old frozen.old.items }
    ensures items { frozen.new.items ≡ with_frozen file txn frozen.old.items }
    ensures len { vec_len frozen.new ≡ vec_len frozen.old + 1 }
    ensures room { vec_capacity frozen.new ≡ vec_capacity frozen.old }
    ensures kept { IsKept kept.new frozen.new.items }
{
    let at = frozen_place(frozen, kept, txn);
    kept.note(alloc, &file, txn);
    match frozen.insert(at, (file, txn)) {
        Ok(()) => {}
        Err(_) => unreachable!(),
    }
}

/// Where the first file stands that a greater transaction keeps, or the length.
fn frozen_place(frozen: &[(FileId, TxnNo)], kept: &KeptIndex, txn: TxnNo) -> usize
    requires { IsKept kept.now frozen.now }
    ensures place { result ≡ unwrap_or (position (λ x. txn_before txn (txn_of x)) frozen.now)
        (length frozen.now) }
    ensures within { result ≤ length frozen.now }
{
    if kept.whole {
        place_behind(frozen, txn)
    } else {
        walk_frozen_place(frozen, txn)
    }
}

/// Where those of a greater transaction begin, found by halves.
fn place_behind(frozen: &[(FileId, TxnNo)], txn: TxnNo) -> usize
    requires { are_in_order txn_of frozen.now ≡ true }
    ensures place { result ≡ unwrap_or (position (λ x. txn_before txn (txn_of x)) frozen.now)
        (length frozen.now) }
    ensures within { result ≤ length frozen.now }
{
    frozen.partition_point(|x| !(txn < x.1))
}

/// Where the first file stands that a greater transaction keeps, found file after file.
#[tactic(auto, using(fs_field::proofs::Places::place_is, fs_field::proofs::Places::place_step))]
fn walk_frozen_place(frozen: &[(FileId, TxnNo)], txn: TxnNo) -> usize
    ensures place { result ≡ unwrap_or (position (λ x. txn_before txn (txn_of x)) frozen.now)
        (length frozen.now) }
    ensures within { result ≤ length frozen.now }
{
    for at in 0..frozen.len() {
        if txn < frozen[at].1 {
            return at;
        }
    }
    frozen.len()
}

/// The first transaction that keeps the file.
pub(crate) fn frozen_for(
    frozen: &[(FileId, TxnNo)],
    kept: &KeptIndex,
    file: &FileId,
) -> Option<TxnNo>
    requires { IsKept kept.now frozen.now }
    ensures { result ≡ frozen_for file.now frozen.now }
{
    if kept.whole {
        first_txn(items_at(&kept.files, file))
    } else {
        walk_frozen_for(frozen, file)
    }
}

fn first_txn(txns: &[TxnNo]) -> Option<TxnNo>
    ensures { result ≡ first_of txns.now }
{
    match txns.first() {
        Some(txn) => Some(*txn),
        None => None,
    }
}

/// The first transaction that keeps the file, found file after file.
#[tactic(auto, using(crate::proofs::Steps::find_step))]
fn walk_frozen_for(frozen: &[(FileId, TxnNo)], file: &FileId) -> Option<TxnNo>
    ensures { result ≡ frozen_for file.now frozen.now }
{
    for kept in frozen {
        if &kept.0 == file {
            return Some(kept.1);
        }
    }
    None
}

/// The transaction keeps none of these files any more. It takes no memory.
pub(crate) fn thaw(frozen: &mut Vec<(FileId, TxnNo)>, kept: &mut KeptIndex, txn: TxnNo)
    requires { IsKept kept.old frozen.old.items }
    ensures frozen { frozen.new.items ≡ without_txn txn frozen.old.items }
    ensures kept { IsKept kept.new frozen.new.items }
{
    if kept.whole {
        thaw_found(frozen, &mut kept.files, txn);
    } else {
        frozen.retain(|x| x.1 != txn);
    }
}

/// The transaction keeps none of these files any more: those that it keeps stand together.
fn thaw_found(
    frozen: &mut Vec<(FileId, TxnNo)>,
    by_file: &mut BTreeMap<FileId, List<TxnNo>>,
    txn: TxnNo,
)
    requires order { are_in_order txn_of frozen.old.items ≡ true }
    requires kept { AreKept by_file.old frozen.old.items }
    ensures frozen { frozen.new.items ≡ without_txn txn frozen.old.items }
    ensures kept { AreKept by_file.new frozen.new.items }
{
    let (from, behind) = range_of(frozen, txn);
    forget_each(by_file, &frozen[from..behind], txn);
    take_range(frozen, from, behind);
}

/// Where those begin that the transaction keeps, and where they end, found by halves.
fn range_of(frozen: &[(FileId, TxnNo)], txn: TxnNo) -> (usize, usize)
    requires { are_in_order txn_of frozen.now ≡ true }
    ensures range { IsRange txn_of txn frozen.now result.0 result.1 }
    ensures rises { result.0 ≤ result.1 }
    ensures within { result.1 ≤ length frozen.now }
{
    let from = frozen.partition_point(|x| x.1 < txn);
    let behind = frozen.partition_point(|x| !(txn < x.1));
    (from, behind)
}

/// The transaction keeps none of these files any more.
fn forget_each(by_file: &mut BTreeMap<FileId, List<TxnNo>>, frozen: &[(FileId, TxnNo)], txn: TxnNo)
    requires { AreInOrderAt by_file.old }
    ensures { ChangesAmong (but_txn txn) (map file_of frozen.now) by_file.old by_file.new }
{
    for kept in frozen {
        forget_at(by_file, &kept.0, txn);
    }
}

/// The transaction keeps the file besides.
fn add_at(
    alloc: Global,
    by_file: &mut BTreeMap<FileId, List<TxnNo>>,
    file: &FileId,
    txn: TxnNo,
) -> Result<(), Memory>
    requires { are_in_order itself (listed_at by_file.old file.now) ≡ true }
    ensures { OnOk result (ChangesAt (with_txn txn) file.now by_file.old by_file.new) }
{
    match by_file.get_mut(file) {
        Some(txns) => put_txn(txns.items_mut(), txn),
        None => put_first(alloc, by_file, file, txn),
    }
}

/// Puts the transaction before the first that is greater.
fn put_txn(txns: &mut Vec<TxnNo>, txn: TxnNo) -> Result<(), Memory>
    requires { are_in_order itself txns.old.items ≡ true }
    ensures { OnOk result (txns.new.items ≡ with_txn txn txns.old.items) }
{
    let at = place_behind_txn(txns, txn);
    txns.insert(at, txn)?;
    Ok(())
}

/// Where the greater transactions begin.
fn place_behind_txn(txns: &[TxnNo], txn: TxnNo) -> usize
    requires { are_in_order itself txns.now ≡ true }
    ensures place { result ≡ unwrap_or (position (λ t. txn_before txn t) txns.now)
        (length txns.now) }
    ensures within { result ≤ length txns.now }
{
    txns.partition_point(|t| !(txn < *t))
}

/// The transaction does not keep the file any more.
fn forget_at(by_file: &mut BTreeMap<FileId, List<TxnNo>>, file: &FileId, txn: TxnNo)
    requires { are_in_order itself (listed_at by_file.old file.now) ≡ true }
    ensures { ChangesAt (but_txn txn) file.now by_file.old by_file.new }
{
    if thin(by_file, file, txn) {
        take_file(by_file, file);
    }
}

/// Takes the transaction off the file, and tells whether none is left there.
fn thin(by_file: &mut BTreeMap<FileId, List<TxnNo>>, file: &FileId, txn: TxnNo) -> bool
    requires { are_in_order itself (listed_at by_file.old file.now) ≡ true }
    ensures changed { ChangesAt (but_txn txn) file.now by_file.old by_file.new }
    ensures empty { result ≡ true → listed_at by_file.new file.now ≡ [] }
{
    match by_file.get_mut(file) {
        Some(txns) => {
            take_txn(txns.items_mut(), txn);
            txns.is_empty()
        }
        None => false,
    }
}

/// Takes the transaction out, as often as it stands there.
fn take_txn(txns: &mut Vec<TxnNo>, txn: TxnNo)
    requires { are_in_order itself txns.old.items ≡ true }
    ensures { txns.new.items ≡ but_txn txn txns.old.items }
{
    let (from, behind) = range_of_txn(txns, txn);
    take_range(txns, from, behind);
}

/// Where the transaction begins to stand, and where it ends.
fn range_of_txn(txns: &[TxnNo], txn: TxnNo) -> (usize, usize)
    requires { are_in_order itself txns.now ≡ true }
    ensures range { IsRange itself txn txns.now result.0 result.1 }
    ensures rises { result.0 ≤ result.1 }
    ensures within { result.1 ≤ length txns.now }
{
    let from = txns.partition_point(|t| *t < txn);
    let behind = txns.partition_point(|t| !(txn < *t));
    (from, behind)
}

/// Takes out those from the one place to the other.
fn take_range<T: Drop>(items: &mut Vec<T>, from: usize, behind: usize)
    requires rises { from ≤ behind }
    requires within { behind ≤ vec_len items.old }
    ensures { items.new.items ≡ remove_range items.old.items from behind }
{
    items.drain(from..behind);
}
