//! Leases from other servers by file: each at its own file, and at each file of its path.
ghost use Rattle.std.specs.Prelude.{◌≡◌, ◌∷◌, [], true, IfOk};
ghost use Rattle.fs_ident.specs.Maps.{map_of};
ghost use Rattle.fs_path.specs.Index.{AreRisingAt, ChangesAmong, IsHad, IsNoted, without_named};
ghost use Rattle.fs_path.specs.Tables.{lease_of};

use crate::having::Having;
use crate::index::FileIndex;
use fs_ident::{FileId, List, Memory, PathNo};
use std::alloc::Global;
use std::slice;

/// The leases from other servers by file. Memory may be wanting for the one and not for the other.
#[derive(Debug, Drop)]
pub(crate) struct HeldIndex {
    /// Each at its own file.
    pub own: FileIndex,
    /// Each at the files of its path.
    pub via: FileIndex,
}

impl HeldIndex {
    /// That of no lease, which takes no memory.
    pub fn new(alloc: Global) -> HeldIndex
        ensures { IsHad result [] }
    {
        HeldIndex {
            own: FileIndex::new(alloc),
            via: FileIndex::new(alloc),
        }
    }

    /// An equal one.
    pub fn copy(&self, alloc: Global) -> Result<HeldIndex, Memory>
        ensures own { IfOk result (λ twin. twin.own.whole ≡ self.now.own.whole ×
            map_of twin.own.files ≡ map_of self.now.own.files) }
        ensures via { IfOk result (λ twin. twin.via.whole ≡ self.now.via.whole ×
            map_of twin.via.files ≡ map_of self.now.via.files) }
    {
        let own = self.own.copy(alloc)?;
        let via = self.via.copy(alloc)?;
        Ok(HeldIndex { own, via })
    }

    /// One lease more, of that file with that path. Neither is whole any more where its number is no new one, or when out of memory.
    pub fn note(
        &mut self,
        alloc: Global,
        file: &FileId,
        path: &List<FileId>,
        name: (u8, PathNo),
        is_new: bool,
    )
        requires own { self.old.own.whole ≡ true → AreRisingAt self.old.own.files }
        requires via { self.old.via.whole ≡ true → AreRisingAt self.old.via.files }
        ensures own { IsNoted is_new name (file.now ∷ []) self.old.own self.new.own }
        ensures via { IsNoted is_new name path.now self.old.via self.new.via }
    {
        self.own.note(alloc, slice::from_ref(file), name, is_new);
        self.via.note(alloc, path.as_slice(), name, is_new);
    }

    /// The lease stands at no file any more.
    pub fn forget(&mut self, h: &Having)
        requires own { self.old.own.whole ≡ true → AreRisingAt self.old.own.files }
        requires via { self.old.via.whole ≡ true → AreRisingAt self.old.via.files }
        ensures own_whole { self.new.own.whole ≡ self.old.own.whole }
        ensures via_whole { self.new.via.whole ≡ self.old.via.whole }
        ensures own { self.old.own.whole ≡ true → ChangesAmong (without_named (lease_of h.now).no)
            ((lease_of h.now).file ∷ []) self.old.own.files self.new.own.files }
        ensures via { self.old.via.whole ≡ true → ChangesAmong (without_named (lease_of h.now).no)
            (lease_of h.now).path self.old.via.files self.new.via.files }
    {
        forget(&mut self.own, slice::from_ref(h.file()), h.no());
        forget(&mut self.via, h.path().as_slice(), h.no());
    }
}

/// The lease of the number stands at none of the files any more, where the index is whole.
fn forget(index: &mut FileIndex, files: &[FileId], no: PathNo)
    requires { index.old.whole ≡ true → AreRisingAt index.old.files }
    ensures whole { index.new.whole ≡ index.old.whole }
    ensures files { index.old.whole ≡ true →
        ChangesAmong (without_named no) files.now index.old.files index.new.files }
{
    if index.is_whole() {
        index.forget(files, no);
    }
}
