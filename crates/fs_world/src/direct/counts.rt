//! How many operations each session has asked for.
ghost use Rattle.std.specs.Prelude.{◌≡◌, OnOk, OnErr, IsSome};
ghost use Rattle.std.specs.FinMap as map;
ghost use Rattle.fs_ident.specs.Maps.{numbered_map_of};

use crate::by_session::{copy_all, put};
use fs_ident::{Memory, Session, Twin};
use std::alloc::Global;
use std::collections::BTreeMap;
use std::marker::Model;

/// A count for each session that has joined.
#[derive(Drop)]
pub(crate) struct Counts {
    asked: BTreeMap<u16, u64>,
}

impl Model for Counts {
    ghost use Rattle.std.specs.FinMap as map;
    ghost use Rattle.std.specs.Prelude.{ℕ};
    ghost use Rattle.std.specs.Ordering.{nat_cmp};
    ghost use Rattle.std.specs.Coded.{coded_ℕ};
    ghost use Rattle.fs_ident.specs.Maps.{numbered_map_of};

    ghost Value = { map.FinMap nat_cmp ℕ };

    ghost coded = { map.code coded_ℕ coded_ℕ };

    ghost view = { λ c. numbered_map_of c.asked };
}

impl Counts {
    /// No session has joined.
    #[tactic(auto, unfolding(fs_ident::specs::Maps::numbered_map_of))]
    pub(crate) fn new(alloc: Global) -> Counts
        ensures { result ≡ map.empty }
    {
        Counts {
            asked: BTreeMap::new(alloc),
        }
    }

    /// The session's count; None exactly where it has not joined.
    pub(crate) fn get(&self, s: Session) -> Option<u64>
        ensures { result ≡ map.get self.now s.0 }
    {
        count_in(&self.asked, s.0)
    }

    /// Puts a session's count.
    pub(crate) fn set(&mut self, s: Session, count: u64) -> Result<(), Memory>
        ensures ok { OnOk result (self.new ≡ map.insert self.old s.0 count) }
        ensures err { OnErr result (self.new ≡ self.old) }
    {
        put(&mut self.asked, s.0, count)
    }

    /// Puts another count of a session that has one, which takes no memory.
    pub(crate) fn raise(&mut self, s: Session, count: u64)
        requires { IsSome (map.get self.old s.0) }
        ensures { self.new ≡ map.insert self.old s.0 count }
    {
        raise_in(&mut self.asked, s.0, count);
    }
}

impl Twin for Counts {
    fn copy(&self, alloc: Global) -> Result<Counts, Memory> {
        Ok(Counts {
            asked: copy_all(alloc, &self.asked)?,
        })
    }

    fn discard(self) {}
}

#[tactic(auto, using(fs_ident::proofs::MapsOf::numbered_maps))]
fn count_in(asked: &BTreeMap<u16, u64>, session: u16) -> Option<u64>
    ensures { result ≡ map.get (numbered_map_of asked.now) session }
{
    asked.get(&session).copied()
}

#[tactic(auto, using(fs_ident::proofs::MapsOf::numbered_changes))]
fn raise_in(asked: &mut BTreeMap<u16, u64>, session: u16, count: u64)
    requires { IsSome (map.get (numbered_map_of asked.old) session) }
    ensures { numbered_map_of asked.new ≡ map.insert (numbered_map_of asked.old) session count }
{
    match asked.get_mut(&session) {
        Some(kept) => *kept = count,
        None => {}
    }
}
