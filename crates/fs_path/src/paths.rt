//! The path leases of a server, those given out and those from other servers, and the files that transactions keep.
ghost use Rattle.std.specs.Prelude.{◌≡◌, ◌↔◌, IfOk, IfErr, OnOk, OnErr, IsSome};
ghost use Rattle.std.specs.FinMap as map;
ghost use Rattle.fs_path.specs.Leases.{goes_over};
ghost use Rattle.fs_path.specs.Returns.{after_give_back, after_recalled, after_released, give_back, recalled, recalls, releases, without_no, without_txn};
ghost use Rattle.fs_path.specs.Tables.{first_in, frozen_for, holds, is_leaving, issued_to, no_paths, through, with_all_frozen, with_frozen, with_held, with_issued};
ghost use Rattle.fs_path.specs.Walk.{path_of};
ghost use Rattle.fs_path.specs.declared.having.Having.TheVariants.{Held as IsHeld};

use crate::entering::{issue, take_held};
use crate::giving::{self, recalls_over};
use crate::having::Having;
use crate::held::Held;
use crate::held_index::HeldIndex;
use crate::index::{FileIndex, lesser};
use crate::issued::Issued;
use crate::kept::KeptIndex;
use crate::recalled::{GiveBack, Recalled};
use crate::{into, kept, reads, returning, walk};
use fs_field::PathAnswer;
use fs_ident::{FileId, List, Memory, PathNo, Twin, TxnNo, copy_two};
use fs_map::FileMap;
use fs_record::Records;
use std::alloc::Global;
use std::marker::Model;
use std::slice;

/// What a server keeps of path leases: none can be dropped, each has to be spent in one of the ways that its state has.
#[derive(Debug, Drop)]
pub struct Paths {
    issued: List<Issued>,
    held: List<Having>,
    frozen: List<(FileId, TxnNo)>,
    /// Those given out, by the files of their paths.
    over: FileIndex,
    /// Those from other servers, by their own files and by the files of their paths.
    had: HeldIndex,
    /// The files that transactions keep, by file.
    kept: KeptIndex,
}

impl Model for Paths {
    ghost use Rattle.fs_path.specs.Index.{IsHad, IsOver};
    ghost use Rattle.fs_path.specs.Kept.{IsKept};
    ghost use Rattle.fs_path.specs.Returns.{AreNeeded};
    ghost use Rattle.fs_path.specs.Tables.{PathTables};

    ghost Value = { PathTables };

    ghost view = { λ p. record { issued = p.issued; held = p.held; frozen = p.frozen } };

    ghost invariant = { λ p. IsOver p.over p.issued × IsHad p.had p.held ×
        AreNeeded p.issued p.held × IsKept p.kept p.frozen };
}

impl Paths {
    /// No lease, and no file that is kept.
    pub fn new(alloc: Global) -> Paths
        ensures { result ≡ no_paths }
    {
        Paths {
            issued: List::new(alloc),
            held: List::new(alloc),
            frozen: List::new(alloc),
            over: FileIndex::new(alloc),
            had: HeldIndex::new(alloc),
            kept: KeptIndex::new(alloc),
        }
    }

    /// The path of the file: upwards by parents while they are here, and from the topmost file here on by the path of the first
    /// lease for it that does not leave. `Wanted` where there is none, `Frozen` at the first file on the way that a transaction
    /// keeps. The file lives here, or its path is itself alone.
    pub fn path_of(
        &self,
        alloc: Global,
        records: &Records,
        file: &FileId,
    ) -> Result<PathAnswer, Memory>
        ensures { IfOk result (λ a. a ≡ path_of self.now records.now file.now) }
    {
        walk::path_of(
            alloc,
            self.held.as_slice(),
            &self.had,
            self.frozen.as_slice(),
            &self.kept,
            records,
            file,
        )
    }

    /// Gives a lease out: that of the file with this path, to that server.
    pub fn issue(
        &mut self,
        alloc: Global,
        no: PathNo,
        to: u8,
        file: &FileId,
        path: &List<FileId>,
    ) -> Result<(), Memory>
        ensures ok { OnOk result (self.new ≡ record self.old {
          issued = with_issued
              (record { no = no; peer = to; file = file.now; path = path.now }) self.old.issued;
        }) }
        ensures err { OnErr result (self.new ≡ self.old) }
    {
        let (own, files) = copy_two(alloc, file, path)?;
        issue(
            self.issued.items_mut(),
            &mut self.over,
            alloc,
            Issued::new(no, to, own, files),
            path,
        )
    }

    /// Takes a lease that another server gave out.
    pub fn granted(
        &mut self,
        alloc: Global,
        from: u8,
        no: PathNo,
        file: &FileId,
        path: &List<FileId>,
    ) -> Result<(), Memory>
        ensures ok { OnOk result (self.new ≡ record self.old {
          held = with_held
              (IsHeld (record { no = no; peer = from; file = file.now; path = path.now }))
              self.old.held;
        }) }
        ensures err { OnErr result (self.new ≡ self.old) }
    {
        let (own, files) = copy_two(alloc, file, path)?;
        take_held(
            self.held.items_mut(),
            &mut self.had,
            alloc,
            Having::Held(Held::new(from, no, own, files)),
            file,
            path,
        )
    }

    /// The least lease given out whose path goes over the file.
    pub fn through(&self, file: &FileId) -> Option<PathNo>
        ensures { result ≡ through file.now self.now.issued }
    {
        reads::through(self.issued.as_slice(), &self.over, file)
    }

    /// The least lease, given out or from another server, whose path goes over a file below the prefix that is `me`'s.
    pub fn first_in(&self, prefix: &FileId, map: &FileMap, me: u8) -> Option<PathNo>
        ensures { result ≡ first_in map.now me prefix.now self.now }
    {
        lesser(
            reads::first_issued(self.issued.as_slice(), &self.over, map, me, prefix),
            reads::first_held(self.held.as_slice(), &self.had.via, map, me, prefix),
        )
    }

    /// The leases given out whose path goes over the file, each with the server that has it, in order of number.
    pub fn recall_through(&self, alloc: Global, file: &FileId) -> Result<List<(u8, PathNo)>, Memory>
        ensures { IfOk result (λ list. list ≡ recalls (goes_over file.now) self.now.issued) }
    {
        recalls_over(alloc, self.issued.as_slice(), &self.over, file)
    }

    /// What `recall` comes to for the lease of this number; nothing changes.
    pub fn recall_of(&self, alloc: Global, no: PathNo) -> Result<Recalled, Memory>
        ensures { IfOk result (λ r. r ≡ recalled no self.now) }
    {
        let Some(to) = reads::held_from(self.held.as_slice(), &self.had, no) else {
            return Ok(Recalled::Unheld);
        };
        let down = giving::recalls_under(
            alloc,
            self.issued.as_slice(),
            &self.over,
            self.held.as_slice(),
            &self.had,
            no,
        )?;
        Ok(Recalled::first_down(to, down))
    }

    /// The lease of this number from another server goes where no path that was given out goes over its file, and else is leaving. It
    /// takes no memory.
    pub fn recall(&mut self, no: PathNo)
        ensures { self.new ≡ after_recalled no self.old }
    {
        giving::give_one_back(
            self.held.items_mut(),
            &mut self.had,
            self.issued.as_slice(),
            &self.over,
            no,
        );
    }

    /// The lease of this number from another server is asked back: it goes where no path that was given out goes over its file,
    /// and else is leaving.
    pub fn recalled(&mut self, alloc: Global, no: PathNo) -> Result<Recalled, Memory>
        ensures answer { IfOk result (λ r. r ≡ recalled no self.old) }
        ensures state { OnOk result (self.new ≡ after_recalled no self.old) }
        ensures err { OnErr result (self.new ≡ self.old) }
    {
        let Some(to) = reads::held_from(self.held.as_slice(), &self.had, no) else {
            return Ok(Recalled::Unheld);
        };
        let down = giving::recalls_under(
            alloc,
            self.issued.as_slice(),
            &self.over,
            self.held.as_slice(),
            &self.had,
            no,
        )?;
        giving::give_one_back(
            self.held.items_mut(),
            &mut self.had,
            self.issued.as_slice(),
            &self.over,
            no,
        );
        Ok(Recalled::first_down(to, down))
    }

    /// The leaving leases that go back with the lease of this number, which was given out, each with the server to which it goes, in
    /// order of number; nothing changes.
    pub fn releases_with(&self, alloc: Global, no: PathNo) -> Result<List<(u8, PathNo)>, Memory>
        ensures { IfOk result (λ list. list ≡
            releases is_leaving (without_no no self.now.issued) self.now.held) }
    {
        returning::releases_with(
            alloc,
            self.issued.as_slice(),
            &self.over,
            self.held.as_slice(),
            &self.had,
            no,
        )
    }

    /// The lease of this number that was given out is back, and the leaving ones go whose file no path that was given out goes over any
    /// more. It takes no memory.
    pub fn release(&mut self, no: PathNo)
        ensures { self.new ≡ after_released no self.old }
    {
        returning::release(
            self.issued.items_mut(),
            &mut self.over,
            self.held.items_mut(),
            &mut self.had,
            no,
        );
    }

    /// The lease of this number that was given out is back. The leaving ones go whose file no path that was given out goes over
    /// any more; each is told with the server to which it goes, in order of number.
    pub fn released(&mut self, alloc: Global, no: PathNo) -> Result<List<(u8, PathNo)>, Memory>
        ensures answer { IfOk result (λ list. list ≡
            releases is_leaving (without_no no self.old.issued) self.old.held) }
        ensures state { OnOk result (self.new ≡ after_released no self.old) }
        ensures err { OnErr result (self.new ≡ self.old) }
    {
        let list = self.releases_with(alloc, no)?;
        self.release(no);
        Ok(list)
    }

    /// What `ask_back` comes to for the files below the prefix that are `me`'s; nothing changes.
    pub fn back_from(
        &self,
        alloc: Global,
        prefix: &FileId,
        map: &FileMap,
        me: u8,
    ) -> Result<GiveBack, Memory>
        ensures { IfOk result (λ g. g ≡ give_back map.now me prefix.now self.now) }
    {
        let recalls = into::recalls_into(
            alloc,
            self.issued.as_slice(),
            &self.over,
            self.held.as_slice(),
            &self.had,
            map,
            me,
            prefix,
        )?;
        let releases = into::releases_into(
            alloc,
            self.issued.as_slice(),
            &self.over,
            self.held.as_slice(),
            &self.had,
            map,
            me,
            prefix,
        )?;
        Ok(GiveBack { recalls, releases })
    }

    /// The leases from other servers whose path goes over a file below the prefix that is `me`'s go, or are leaving. It takes no memory.
    pub fn ask_back(&mut self, prefix: &FileId, map: &FileMap, me: u8)
        ensures { self.new ≡ after_give_back map.now me prefix.now self.old }
    {
        into::ask_back(
            self.held.items_mut(),
            &mut self.had,
            self.issued.as_slice(),
            &self.over,
            map,
            me,
            prefix,
        );
    }

    /// All leases whose path goes over a file below the prefix that is `me`'s are asked back: those given out of their holders,
    /// with those on which one from another server rests; and those from other servers go or are leaving.
    pub fn recall_in(
        &mut self,
        alloc: Global,
        prefix: &FileId,
        map: &FileMap,
        me: u8,
    ) -> Result<GiveBack, Memory>
        ensures answer { IfOk result (λ g. g ≡ give_back map.now me prefix.now self.old) }
        ensures state { OnOk result (self.new ≡ after_give_back map.now me prefix.now self.old) }
        ensures err { OnErr result (self.new ≡ self.old) }
    {
        let back = self.back_from(alloc, prefix, map, me)?;
        self.ask_back(prefix, map, me);
        Ok(back)
    }

    /// The transaction keeps the file where it is, beside those that it keeps already.
    pub fn freeze(&mut self, alloc: Global, file: &FileId, txn: TxnNo) -> Result<(), Memory>
        ensures ok { OnOk result (self.new ≡
            record self.old { frozen = with_frozen file.now txn self.old.frozen }) }
        ensures err { OnErr result (self.new ≡ self.old) }
    {
        self.freeze_all(alloc, slice::from_ref(file), txn)
    }

    /// The transaction keeps each of these files where it is: all of them, or none when out of memory.
    pub fn freeze_all(&mut self, alloc: Global, files: &[FileId], txn: TxnNo) -> Result<(), Memory>
        ensures ok { OnOk result (self.new ≡
            record self.old { frozen = with_all_frozen txn files.now self.old.frozen }) }
        ensures err { OnErr result (self.new ≡ self.old) }
    {
        kept::put_all_frozen(alloc, self.frozen.items_mut(), &mut self.kept, files, txn)
    }

    /// The transaction keeps no file any more; those of others stay.
    pub fn thaw(&mut self, txn: TxnNo)
        ensures { self.new ≡ record self.old { frozen = without_txn txn self.old.frozen } }
    {
        kept::thaw(self.frozen.items_mut(), &mut self.kept, txn);
    }

    /// The least transaction that keeps the file.
    pub fn frozen(&self, file: &FileId) -> Option<TxnNo>
        ensures { result ≡ frozen_for file.now self.now.frozen }
    {
        kept::frozen_for(self.frozen.as_slice(), &self.kept, file)
    }

    /// The server to which the lease is given out; none exactly where it is not given out here.
    pub fn issued_to(&self, no: PathNo) -> Option<u8>
        ensures { result ≡ issued_to no self.now.issued }
    {
        reads::issued_to(self.issued.as_slice(), &self.over, no)
    }

    /// Whether the lease is had from another server, leaving or not.
    pub fn holds(&self, no: PathNo) -> bool
        ensures { result ≡ holds no self.now.held }
    {
        reads::holds(self.held.as_slice(), &self.had, no)
    }
}

impl Twin for Paths {
    fn copy(&self, alloc: Global) -> Result<Paths, Memory> {
        let frozen = self.frozen.copy(alloc)?;
        let over = self.over.copy(alloc)?;
        let had = self.had.copy(alloc)?;
        let kept = self.kept.copy(alloc)?;
        let issued = self.issued.copy(alloc)?;
        match self.held.copy(alloc) {
            Ok(held) => Ok(Paths {
                issued,
                held,
                frozen,
                over,
                had,
                kept,
            }),
            Err(e) => {
                issued.discard();
                Err(e)
            }
        }
    }

    /// Spends every lease, with the whole core that has them.
    fn discard(self) {
        let Paths {
            issued,
            held,
            frozen,
            over,
            had,
            kept,
        } = self;
        issued.discard();
        held.discard();
        frozen.discard();
        drop(over);
        drop(had);
        drop(kept);
    }
}
