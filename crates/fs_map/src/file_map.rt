//! The map of a server or of a client.
ghost use Rattle.std.specs.Prelude.{◌≡◌, ◌≢◌, ℕ, List, Some, true, false, IfOk, OnOk, OnErr};
ghost use Rattle.fs_map.specs.Map.{IsMap, IsPiece, Tells, after_give, after_hint, after_take, first_map, gives, is_given, longest, server_of};
ghost use Rattle.fs_map.specs.Lists.{map_after_give, map_after_hint, map_after_take, owns_given, piece_of};

use crate::change::{change, hint_all, owns_given, piece_of};
use crate::listed::longest;
use crate::piece::MapPiece;
use crate::taking::{Taking, begin};
use fs_ident::{FileId, List, Memory, Twin};
use std::alloc::Global;
use std::marker::Model;
use std::mem;

/// Which server manages which files, as far as its holder knows: prefixes in order, each with its server. A prefix is
/// listed exactly where it is the root, or its server differs from its parent's.
#[derive(Debug, Drop)]
pub struct FileMap {
    owners: List<(FileId, u8)>,
}

impl Model for FileMap {
    ghost use Rattle.fs_map.specs.Map.{IsMap, Owners};

    ghost Value = { Owners };

    ghost view = { λ m. m.owners };

    ghost invariant = { λ m. IsMap m.owners };
}

impl FileMap {
    /// Everything is at server 0.
    pub fn new(alloc: Global) -> Result<FileMap, Memory>
        ensures { IfOk result (λ m. m ≡ first_map) }
    {
        let mut owners = List::new(alloc);
        owners.push((FileId::root(alloc), 0))?;
        Ok(FileMap { owners })
    }

    /// The map of this list.
    pub(crate) fn of(owners: List<(FileId, u8)>) -> FileMap
        requires { IsMap owners }
        ensures { result ≡ owners }
    {
        FileMap { owners }
    }

    /// The prefixes with their servers.
    pub fn listed(&self) -> &List<(FileId, u8)>
        ensures listed { result.now ≡ self.now }
        ensures valid { IsMap self.now }
    {
        &self.owners
    }

    /// The longest listed prefix of the identifier, and its server, which manages it.
    pub fn owner(&self, id: &FileId) -> (&FileId, u8)
        ensures longest { longest self.now id.now ≡ Some (result.0.now, result.1) }
        ensures server { server_of self.now id.now ≡ result.1 }
    {
        match longest(self.owners.as_slice(), id.numbers()) {
            Some(entry) => (&entry.0, entry.1),
            None => unreachable!(),
        }
    }

    /// What `me` has below the prefix: which identifiers these are. Nothing changes.
    pub fn piece(&self, alloc: Global, me: u8, prefix: &FileId) -> Result<MapPiece, Memory>
        requires { server_of self.now prefix.now ≡ me }
        ensures prefix { IfOk result (λ p. p.prefix ≡ prefix.now) }
        ensures listed { IfOk result (λ p. p.given ≡ piece_of self.now me prefix.now) }
        ensures piece { IfOk result (λ p. IsPiece prefix.now p.given) }
        ensures given { IfOk result (λ p. (id : List ℕ) →
            gives prefix.now p.given id ≡ is_given self.now me prefix.now id) }
    {
        piece_of(alloc, self.owners.as_slice(), me, prefix)
    }

    /// Whether some identifier that the piece gives is `me`'s.
    pub fn owns_given(&self, me: u8, piece: &MapPiece) -> bool
        requires { IsPiece piece.now.prefix piece.now.given }
        ensures places { result ≡ owns_given self.now me piece.now.prefix piece.now.given }
        ensures none { result ≡ false → (id : List ℕ) →
            gives piece.now.prefix piece.now.given id ≡ true → server_of self.now id ≢ me }
        ensures some { result ≡ true → (id : List ℕ) ×
            ((gives piece.now.prefix piece.now.given id ≡ true) × (server_of self.now id ≡ me)) }
    {
        owns_given(self.owners.as_slice(), me, piece)
    }

    /// The map where all below the prefix is said to be at that server. Nothing changes here.
    pub fn with_hint(&self, alloc: Global, prefix: &FileId, to: u8) -> Result<FileMap, Memory>
        ensures { IfOk result (λ m. m ≡ map_after_hint self.now prefix.now to) }
    {
        let mut map = self.copy(alloc)?;
        map.hint(alloc, prefix, to)?;
        Ok(map)
    }

    /// All below the prefix that is `me`'s goes to another server: which identifiers these are. `Memory` when out of
    /// memory; the map is as it was then.
    pub fn give(
        &mut self,
        alloc: Global,
        me: u8,
        prefix: &FileId,
        to: u8,
    ) -> Result<MapPiece, Memory>
        requires { server_of self.old prefix.now ≡ me }
        ensures map { OnOk result (self.new ≡ map_after_give self.old me prefix.now to) }
        ensures servers { OnOk result (Tells self.new (after_give self.old me prefix.now to)) }
        ensures valid { IsMap self.new }
        ensures prefix { IfOk result (λ p. p.prefix ≡ prefix.now) }
        ensures listed { IfOk result (λ p. p.given ≡ piece_of self.old me prefix.now) }
        ensures piece { IfOk result (λ p. IsPiece prefix.now p.given) }
        ensures given { IfOk result (λ p. (id : List ℕ) →
            gives prefix.now p.given id ≡ is_given self.old me prefix.now id) }
        ensures err { OnErr result (self.new ≡ self.old) }
    {
        let piece = piece_of(alloc, self.owners.as_slice(), me, prefix)?;
        change(alloc, &mut self.owners, &piece, to)?;
        Ok(piece)
    }

    /// What the piece gives comes to `me`; all else stays as it was known. `Memory` when out of memory; the map
    /// is as it was then.
    pub fn take(&mut self, alloc: Global, me: u8, piece: &MapPiece) -> Result<(), Memory>
        requires { IsPiece piece.now.prefix piece.now.given }
        ensures map { OnOk result
            (self.new ≡ map_after_take self.old me piece.now.prefix piece.now.given) }
        ensures servers { OnOk result
            (Tells self.new (after_take self.old me piece.now.prefix piece.now.given)) }
        ensures valid { IsMap self.new }
        ensures err { OnErr result (self.new ≡ self.old) }
    {
        change(alloc, &mut self.owners, piece, me)
    }

    /// Begins what `take` does: the map is taken out, and the first map stands in its place. What is handed out takes no
    /// more memory to become the map after the change, or to become the map as it was. `Memory` when out of memory;
    /// the map is as it was then.
    pub fn begin_take(&mut self, alloc: Global, me: u8, piece: &MapPiece) -> Result<Taking, Memory>
        requires { IsPiece piece.now.prefix piece.now.given }
        ensures before { IfOk result (λ t. t.before ≡ self.old) }
        ensures after { IfOk result (λ t. t.after ≡
            map_after_take self.old me piece.now.prefix piece.now.given) }
        ensures placeholder { OnOk result (self.new ≡ first_map) }
        ensures err { OnErr result (self.new ≡ self.old) }
    {
        let first = FileMap::new(alloc)?;
        let bounds = begin(alloc, &mut self.owners, piece, me)?;
        Ok(Taking::new(mem::replace(&mut self.owners, first.owners), bounds))
    }

    /// All below the prefix is said to be at that server. `Memory` when out of memory; the map is as it was
    /// then.
    pub fn hint(&mut self, alloc: Global, prefix: &FileId, to: u8) -> Result<(), Memory>
        ensures map { OnOk result (self.new ≡ map_after_hint self.old prefix.now to) }
        ensures servers { OnOk result (Tells self.new (after_hint self.old prefix.now to)) }
        ensures valid { IsMap self.new }
        ensures err { OnErr result (self.new ≡ self.old) }
    {
        hint_all(alloc, &mut self.owners, prefix, to)
    }
}

impl Twin for FileMap {
    fn copy(&self, alloc: Global) -> Result<FileMap, Memory> {
        Ok(FileMap {
            owners: self.owners.copy(alloc)?,
        })
    }

    fn discard(self) {}
}
