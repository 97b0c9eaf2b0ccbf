//! What a server keeps.
ghost use Rattle.std.specs.Prelude.{◌≡◌};
ghost use Rattle.fs_map.specs.Map.{IsMap};
ghost use Rattle.fs_record.specs.Records.{AreRecords};

use crate::all_rows::AllRows;
use fs_ident::{FileId, List, Memory, Twin, copy_three, copy_two, zip_ok};
use fs_map::FileMap;
use fs_path::Paths;
use fs_record::Records;
use fs_txn::{Ending, Leading, Ready};
use std::alloc::Global;

/// What a server keeps.
#[derive(Drop)]
pub(crate) struct Server {
    /// The server's number.
    pub(crate) me: u8,
    /// By how much two clocks may differ.
    pub(crate) skew: u64,
    /// For how long a lease is given.
    pub(crate) term: u64,
    /// The greatest reading of an event so far.
    pub(crate) last: u64,
    /// How many leases were given so far.
    pub(crate) given: u64,
    /// How often a session lost its handles on a file so far.
    pub(crate) reaps: u64,
    /// How many transactions it led so far.
    pub(crate) txns: u64,
    pub(crate) rows: AllRows,
    pub(crate) records: Records,
    /// Which server manages which files, as far as it knows.
    pub(crate) map: FileMap,
    /// The parts of other servers' transactions that wait for their decision here.
    pub(crate) prepared: List<Ready>,
    /// The transactions that it leads, of which votes are awaited.
    pub(crate) leading: List<Leading>,
    /// The transactions that it led, of which other servers have to tell that all is done.
    pub(crate) ending: List<Ending>,
    /// The path leases that it gave out and has, and the files that transactions keep where they are.
    pub(crate) paths: Paths,
    /// The files whose paths it asked for, of which no answer came yet.
    pub(crate) asking: List<FileId>,
    /// How many path leases it gave out so far.
    pub(crate) paths_given: u64,
}

impl Server {
    /// The records, which are known to be in order.
    pub(crate) fn known_records(&self) -> &Records
        ensures records { result.now ≡ self.now.records }
        ensures valid { AreRecords self.now.records }
    {
        match self.map.listed().as_slice().first() {
            // each look-up tells it
            Some((root, _)) => self.records.get(root),
            None => unreachable!(),
        };
        &self.records
    }

    /// The map, which is known to be one.
    pub(crate) fn known_map(&self) -> &FileMap
        ensures map { result.now ≡ self.now.map }
        ensures valid { IsMap self.now.map }
    {
        self.map.listed();
        &self.map
    }
}

impl Twin for Server {
    fn copy(&self, alloc: Global) -> Result<Server, Memory> {
        let tables = copy_three(alloc, &self.rows, &self.records, &self.map)?;
        let parts = copy_three(alloc, &self.prepared, &self.leading, &self.ending);
        let ((rows, records, map), (prepared, leading, ending)) = zip_ok(tables, parts)?;
        let (paths, asking) = copy_two(alloc, &self.paths, &self.asking)?;
        Ok(Server {
            me: self.me,
            skew: self.skew,
            term: self.term,
            last: self.last,
            given: self.given,
            reaps: self.reaps,
            txns: self.txns,
            rows,
            records,
            map,
            prepared,
            leading,
            ending,
            paths,
            asking,
            paths_given: self.paths_given,
        })
    }

    fn discard(self) {
        drop(self);
    }
}
