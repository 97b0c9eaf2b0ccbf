//! The numbers that directories give to their children.
ghost use Rattle.std.specs.Prelude.{◌≡◌, ℕ, OnOk, OnErr, IsSome};
ghost use Rattle.std.specs.FinMap as map;
ghost use Rattle.fs_ident.specs.Maps.{map_of};
ghost use Rattle.fs_world.specs.Direct.{Numbers as TheNumbers, next_of};

use fs_ident::{FileId, Memory, Twin, copy_map};
use std::alloc::Global;
use std::collections::BTreeMap;
use std::marker::Model;

/// A number for each directory that has given one.
#[derive(Drop)]
pub(crate) struct Numbers {
    next: BTreeMap<FileId, u64>,
}

impl Model for Numbers {
    ghost use Rattle.std.specs.FinMap as map;
    ghost use Rattle.std.specs.Prelude.{ℕ};
    ghost use Rattle.std.specs.Ordering.{nat_cmp};
    ghost use Rattle.std.specs.Cmp.Lexicographic.{slice_cmp};
    ghost use Rattle.std.specs.Coded.{coded_list, coded_ℕ};
    ghost use Rattle.fs_ident.specs.Maps.{map_of};

    ghost Value = { map.FinMap (slice_cmp nat_cmp) ℕ };

    ghost coded = { map.code (coded_list coded_ℕ) coded_ℕ };

    ghost view = { λ n. map_of n.next };
}

impl Numbers {
    /// No directory has given a number.
    #[tactic(auto, unfolding(fs_ident::specs::Maps::map_of))]
    pub(crate) fn new(alloc: Global) -> Numbers
        ensures { result ≡ map.empty }
    {
        Numbers {
            next: BTreeMap::new(alloc),
        }
    }

    /// The directory's next number, if it has given one.
    pub(crate) fn get(&self, dir: &FileId) -> Option<u64>
        ensures { result ≡ map.get self.now dir.now }
    {
        number_in(&self.next, dir)
    }

    /// The directory's next number, from 1.
    pub(crate) fn next(&self, dir: &FileId) -> u64
        ensures { result ≡ next_of self.now dir.now }
    {
        self.get(dir).unwrap_or(1)
    }

    /// Puts a directory's next number.
    pub(crate) fn set(&mut self, alloc: Global, dir: &FileId, number: u64) -> Result<(), Memory>
        ensures ok { OnOk result (self.new ≡ map.insert self.old dir.now number) }
        ensures err { OnErr result (self.new ≡ self.old) }
    {
        set_in(alloc, &mut self.next, dir, number)
    }

    /// Undoes a `set`: the directory has again what it had before, which takes no memory.
    #[tactic(auto, using(fs_ident::proofs::MapsOf::put_backs))]
    pub(crate) fn restore(&mut self, dir: &FileId, before: Option<u64>)
        ensures { (numbers : TheNumbers) (n : ℕ) → self.old ≡ map.insert numbers dir.now n →
            before ≡ map.get numbers dir.now → self.new ≡ numbers }
    {
        match before {
            Some(number) => raise_in(&mut self.next, dir, number),
            None => remove_in(&mut self.next, dir),
        }
    }
}

impl Twin for Numbers {
    fn copy(&self, alloc: Global) -> Result<Numbers, Memory> {
        Ok(Numbers {
            next: copy_map(alloc, &self.next)?,
        })
    }

    fn discard(self) {}
}

#[tactic(auto, using(fs_ident::proofs::MapsOf::maps))]
fn number_in(next: &BTreeMap<FileId, u64>, dir: &FileId) -> Option<u64>
    ensures { result ≡ map.get (map_of next.now) dir.now }
{
    next.get(dir).copied()
}

#[tactic(auto, using(fs_ident::proofs::MapsOf::maps))]
fn set_in(
    alloc: Global,
    next: &mut BTreeMap<FileId, u64>,
    dir: &FileId,
    number: u64,
) -> Result<(), Memory>
    ensures ok { OnOk result (map_of next.new ≡ map.insert (map_of next.old) dir.now number) }
    ensures err { OnErr result (map_of next.new ≡ map_of next.old) }
{
    next.insert(dir.copy(alloc)?, number)?;
    Ok(())
}

#[tactic(auto, using(fs_ident::proofs::MapsOf::maps))]
fn raise_in(next: &mut BTreeMap<FileId, u64>, dir: &FileId, number: u64)
    ensures { IsSome (map.get (map_of next.old) dir.now) →
        map_of next.new ≡ map.insert (map_of next.old) dir.now number }
{
    match next.get_mut(dir) {
        Some(kept) => *kept = number,
        None => {}
    }
}

fn remove_in(next: &mut BTreeMap<FileId, u64>, dir: &FileId)
    ensures { map_of next.new ≡ map.remove (map_of next.old) dir.now }
{
    next.remove(dir);
}
