//! Places of directories, so that a step up needs no search by identifier.
ghost use Rattle.std.specs.Prelude.{◌≡◌, ◌<◌, ◌++◌, ◌∷◌, ℕ, [], length, Some, None, IfOk, OnOk, OnErr};
ghost use Rattle.std.specs.FinMap as map;
ghost use Rattle.fs_ident.specs.Maps.{map_of};
ghost use Rattle.fs_model.specs.Ways.{file_at, up_at, directory_from, AreTrue, AreSole, IsGrown, StaysTrueBut, with_up};
ghost use Rattle.fs_model.specs.Namespace.{NodeMap};

use fs_ident::{FileId, List, Memory, copy_two};
use std::alloc::Global;
use std::collections::BTreeMap;
use std::marker::Model;

/// A file, and the place of the directory that it is in, where that is known.
#[derive(Debug, Drop)]
pub struct Way {
    pub file: FileId,
    pub up: Option<usize>,
}

/// Files that were met on the way up, each at its place. What is known of one that is put elsewhere must be forgotten.
#[derive(Drop)]
pub struct Ways {
    places: BTreeMap<FileId, usize>,
    ways: List<Way>,
}

impl Model for Ways {
    ghost use Rattle.std.specs.Prelude.{List as Seq};
    ghost use Rattle.fs_ident.specs.Maps.{map_of};
    ghost use Rattle.fs_model.specs.declared.ways.Way.{Way as Step};
    ghost use Rattle.fs_model.specs.Ways.{ArePlaced};

    ghost Value = { Seq Step };

    ghost view = { λ w. w.ways };

    ghost invariant = { λ w. ArePlaced (map_of w.places) w.ways };
}

impl Ways {
    /// No file.
    pub fn new(alloc: Global) -> Ways
        ensures { result ≡ [] }
    {
        Ways {
            places: BTreeMap::new(alloc),
            ways: List::new(alloc),
        }
    }

    /// Drops all files where there are more than twice so many.
    #[tactic(auto, using(crate::proofs::WaysUp::nothing_known))]
    pub fn limit(&mut self, alloc: Global, files: usize)
        ensures { (m : NodeMap) → AreTrue m self.old → AreTrue m self.new }
    {
        if self.ways.len() / 2 > files {
            *self = Ways::new(alloc);
        }
    }

    /// The place of the file, which is added where it has none.
    #[tactic(auto, using(crate::proofs::WaysUp::grown_same))]
    pub fn place(&mut self, alloc: Global, id: &FileId) -> Result<usize, Memory>
        ensures at { IfOk result (λ at. file_at self.new at ≡ Some id.now) }
        ensures grown { IsGrown self.old self.new }
        ensures sole { AreSole self.new }
    {
        match place_of(&self.places, id) {
            Some(at) => Ok(at),
            None => add(alloc, &mut self.places, &mut self.ways, id),
        }
    }

    /// The file at a place.
    pub fn file(&self, at: usize) -> &FileId
        requires { at < length self.now }
        ensures { file_at self.now at ≡ Some result.now }
    {
        &self.ways.as_slice()[at].file
    }

    /// The place of the directory that the file at a place is in, where it is known.
    pub fn up(&self, at: usize) -> Option<usize>
        requires { at < length self.now }
        ensures { result ≡ up_at self.now at }
    {
        self.ways.as_slice()[at].up
    }

    /// Notes that the file at the one place is in the directory at the other.
    pub fn learn(&mut self, at: usize, up: usize)
        requires at { at < length self.old }
        requires up { up < length self.old }
        ensures files { (j : ℕ) → file_at self.new j ≡ file_at self.old j }
        ensures so { (m : NodeMap) → AreTrue m self.old →
            file_at self.old up ≡ directory_from m (file_at self.old at) → AreTrue m self.new }
    {
        set_up(&mut self.ways, at, Some(up));
    }

    /// What is known of the way up from the file is known no more.
    pub fn forget(&mut self, id: &FileId)
        ensures { StaysTrueBut id.now self.old self.new }
    {
        if let Some(at) = place_of(&self.places, id) {
            set_up(&mut self.ways, at, None);
        }
    }
}

/// The place that the file has.
#[tactic(auto, using(fs_ident::proofs::MapsOf::maps))]
fn place_of(places: &BTreeMap<FileId, usize>, id: &FileId) -> Option<usize>
    ensures { result ≡ map.get (map_of places.now) id.now }
{
    places.get(id).copied()
}

/// Adds a file behind the others, or nothing when out of memory.
#[tactic(auto, using(fs_ident::proofs::MapsOf::maps))]
fn add(
    alloc: Global,
    places: &mut BTreeMap<FileId, usize>,
    ways: &mut List<Way>,
    id: &FileId,
) -> Result<usize, Memory>
    ensures at { IfOk result (λ at. at ≡ length ways.old) }
    ensures ways { OnOk result (ways.new ≡ ways.old ++ record { file = id.now; up = None } ∷ []) }
    ensures places { OnOk result (map_of places.new ≡
        map.insert (map_of places.old) id.now (length ways.old)) }
    ensures same_ways { OnErr result (ways.new ≡ ways.old) }
    ensures same_places { OnErr result (map_of places.new ≡ map_of places.old) }
{
    let (file, key) = copy_two(alloc, id, id)?;
    let at = ways.len();
    ways.push(Way { file, up: None })?;
    match places.insert(key, at) {
        Ok(_) => Ok(at),
        Err(_) => {
            ways.truncate(at);
            Err(Memory)
        }
    }
}

/// Sets the place of the directory of the file at a place.
fn set_up(ways: &mut List<Way>, at: usize, up: Option<usize>)
    requires { at < length ways.old }
    ensures { ways.new ≡ with_up ways.old at up }
{
    ways.at_mut(at).up = up;
}
