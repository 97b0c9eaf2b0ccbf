//! A server at the reading of an event, while it is only read.
ghost use Rattle.std.specs.Prelude.{◌≡◌, ◌≤◌, IfOk};
ghost use Rattle.fs_ident.specs.declared.limits.TheConstants.{LATEST};
ghost use Rattle.fs_server.specs.Grants.{IsReady};
ghost use Rattle.fs_server.specs.PathSteps.{is_asking};
ghost use Rattle.fs_server.specs.Plan.{IsServer};
ghost use Rattle.fs_server.specs.Server.{begun, end_of, is_mine, moved};

use crate::all_live::AllLive;
use crate::state::Server;
use fs_ident::{FileId, Memory, Twin};
use fs_map::FileMap;
use fs_msg::End;
use fs_path::Paths;
use fs_record::Records;
use fs_txn::{Ending, Leading, Ready};
use std::alloc::Global;
use std::marker::Model;

/// A server at the reading of an event: the rows that are over at it are not seen. Nothing is copied.
#[derive(Drop)]
pub(crate) struct AtReading<'a> {
    server: &'a Server,
    reading: u64,
    live: AllLive<'a>,
}

impl<'a> Model for AtReading<'a> {
    ghost use Rattle.fs_server.specs.declared.state.Server.{Server};
    ghost use Rattle.fs_server.specs.contracts.state.Server as whole;

    ghost Value = { Server };

    ghost coded = { whole.the_row.coded };

    ghost view = { λ b. record b.server.now { last = b.reading; rows = b.live } };
}

impl<'a> AtReading<'a> {
    /// The server at the greatest reading so far, where this one is handed in.
    pub(crate) fn at(server: &'a Server, now: u64) -> AtReading<'a>
        requires server { IsServer server.now }
        requires reading { now ≤ LATEST }
        ensures begun { result ≡ begun now server.now }
        ensures ready { IsReady result }
    {
        let reading = server.last.max(now);
        AtReading {
            server,
            reading,
            live: server.rows.live(reading, server.skew),
        }
    }

    /// The server's number.
    pub(crate) fn me(&self) -> u8
        ensures { result ≡ self.now.me }
    {
        self.server.me
    }

    /// How often a session lost its handles on a file so far.
    pub(crate) fn reaps(&self) -> u64
        ensures { result ≡ self.now.reaps }
    {
        self.server.reaps
    }

    /// How many transactions it led so far.
    pub(crate) fn txns(&self) -> u64
        ensures { result ≡ self.now.txns }
    {
        self.server.txns
    }

    /// How many leases were given so far.
    pub(crate) fn given(&self) -> u64
        ensures { result ≡ self.now.given }
    {
        self.server.given
    }

    /// The reading of the event.
    pub(crate) fn reading(&self) -> u64
        ensures { result ≡ self.now.last }
    {
        self.reading
    }

    /// The reading at which a lease that is given now ends.
    pub(crate) fn end(&self) -> u64
        requires { IsServer self.now }
        ensures { result ≡ end_of self.now }
    {
        self.reading + self.server.term
    }

    /// The rows that are not over.
    pub(crate) fn rows(&self) -> &AllLive<'a>
        ensures { result.now ≡ self.now.rows }
    {
        &self.live
    }

    pub(crate) fn records(&self) -> &Records
        ensures { result.now ≡ self.now.records }
    {
        &self.server.records
    }

    /// Which server manages which files, as far as this one knows.
    pub(crate) fn map(&self) -> &FileMap
        ensures { result.now ≡ self.now.map }
    {
        &self.server.map
    }

    /// The parts of other servers' transactions that wait for their decision here.
    pub(crate) fn prepared(&self) -> &[Ready]
        ensures { result.now ≡ self.now.prepared }
    {
        self.server.prepared.as_slice()
    }

    /// The transactions that it leads, of which votes are awaited.
    pub(crate) fn leading(&self) -> &[Leading]
        ensures { result.now ≡ self.now.leading }
    {
        self.server.leading.as_slice()
    }

    /// The transactions that it led, of which other servers have to tell that all is done.
    pub(crate) fn ending(&self) -> &[Ending]
        ensures { result.now ≡ self.now.ending }
    {
        self.server.ending.as_slice()
    }

    /// Its path leases, and the files that transactions keep where they are.
    pub(crate) fn paths(&self) -> &Paths
        ensures { result.now ≡ self.now.paths }
    {
        &self.server.paths
    }

    /// How many path leases it gave out so far.
    pub(crate) fn paths_given(&self) -> u64
        ensures { result ≡ self.now.paths_given }
    {
        self.server.paths_given
    }

    /// Whether the path of the file was asked for, and no answer came yet.
    pub(crate) fn is_asking(&self, file: &FileId) -> bool
        ensures { result ≡ is_asking file.now self.now }
    {
        self.server.asking.as_slice().iter().any(|f| f == file)
    }

    /// Whether the server manages the identifier.
    pub(crate) fn is_mine(&self, id: &FileId) -> bool
        ensures { result ≡ is_mine self.now id.now }
    {
        self.server.map.owner(id).1 == self.server.me
    }

    /// Where the identifier is said to be: at the server of the longest prefix that the map lists.
    pub(crate) fn moved(&self, alloc: Global, id: &FileId) -> Result<End, Memory>
        ensures { IfOk result (λ end. end ≡ moved self.now id.now) }
    {
        let (prefix, to) = self.server.map.owner(id);
        Ok(End::Moved {
            prefix: prefix.copy(alloc)?,
            to,
        })
    }
}
