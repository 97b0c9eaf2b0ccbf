//! A client at the reading of an event, while it is only read.
ghost use Rattle.std.specs.Prelude.{◌≡◌, not, map, IfOk, List as Seq};
ghost use Rattle.std.specs.List.{filter_map, list_any, filter};
ghost use Rattle.std.specs.Option.{option_copied};
ghost use Rattle.fs_view.specs.ViewLease.{has_number};
ghost use Rattle.fs_view.specs.View.{can_pin_all, fresh, item_use, walk_in, given_by, known_by};
ghost use Rattle.fs_view.specs.Walk.{is_there};
ghost use Rattle.fs_client.specs.Acts.{hinted};
ghost use Rattle.fs_client.specs.Client.{begun};
ghost use Rattle.fs_client.specs.Turns.{ending, pair_of, returned};

use crate::exchange::Exchange;
use crate::led::Led;
use crate::live;
use crate::state::Client;
use fs_field::{Field, LeaseKind, Need, Use, Value};
use fs_ident::{FileId, LeaseNo, List, Memory, Session};
use fs_map::FileMap;
use fs_model::Op;
use fs_msg::Entry;
use fs_view::Walk;
use std::alloc::Global;
use std::marker::Model;

/// A client at the reading of an event: the leases that no entry uses and that are over at it are not seen. Nothing is
/// copied.
#[derive(Drop)]
pub(crate) struct AtReading<'a> {
    client: &'a Client,
    reading: u64,
}

impl<'a> Model for AtReading<'a> {
    ghost use Rattle.fs_client.specs.declared.state.Client.{Client};
    ghost use Rattle.fs_view.specs.View.{lapsed_at};

    ghost Value = { Client };

    ghost view = { λ b.
        record b.client.now { last = b.reading; view = lapsed_at b.reading b.client.now.view } };
}

impl<'a> AtReading<'a> {
    /// The client at the greatest reading so far, where this one is handed in.
    pub(crate) fn at(client: &'a Client, now: u64) -> AtReading<'a>
        ensures { result ≡ begun now client.now }
    {
        AtReading {
            client,
            reading: client.last.max(now),
        }
    }

    /// Whose client it is.
    pub(crate) fn session(&self) -> Session
        ensures { result ≡ self.now.session }
    {
        self.client.session
    }

    /// The reading of the event.
    pub(crate) fn reading(&self) -> u64
        ensures { result ≡ self.now.last }
    {
        self.reading
    }

    /// How long a lease lasts.
    pub(crate) fn term(&self) -> u64
        ensures { result ≡ self.now.term }
    {
        self.client.term
    }

    /// The number of the next operation.
    pub(crate) fn next(&self) -> u64
        ensures { result ≡ self.now.next }
    {
        self.client.next
    }

    /// The entry that was refused.
    pub(crate) fn over(&self) -> Option<u64>
        ensures { result ≡ self.now.over }
    {
        self.client.over
    }

    /// The question that stands.
    pub(crate) fn exchange(&self) -> &Option<Exchange>
        ensures { result.now ≡ self.now.exchange }
    {
        &self.client.exchange
    }

    /// The operation that a server leads.
    pub(crate) fn led(&self) -> &Option<Led>
        ensures { result.now ≡ self.now.led }
    {
        &self.client.led
    }

    /// What was answered and is not known to be admitted.
    pub(crate) fn log(&self) -> &List<Entry>
        ensures { result.now ≡ self.now.log }
    {
        &self.client.log
    }

    /// Which server manages which files, as far as servers said.
    pub(crate) fn hints(&self) -> &FileMap
        ensures { result.now ≡ self.now.hints }
    {
        &self.client.hints
    }

    /// The server that is said to manage the identifier.
    pub(crate) fn hinted(&self, id: &FileId) -> u8
        ensures { result ≡ hinted self.now id.now }
    {
        self.client.hints.owner(id).1
    }

    /// The directories that have no number left.
    pub(crate) fn full(&self) -> &[FileId]
        ensures { result.now ≡ self.now.full }
    {
        self.client.full.as_slice()
    }

    /// The walk of the operation's row of the table of needs.
    #[tactic(auto, using(fs_view::proofs::Lapsed::walk_passes))]
    pub(crate) fn walk(&self, alloc: Global, op: &Op) -> Result<Walk, Memory>
        ensures { IfOk result (λ w. w ≡ walk_in self.now.view self.now.last op.now) }
    {
        self.client.view.walk(alloc, self.reading, op)
    }

    /// What leases of the kind or a stronger one make known of the field.
    pub(crate) fn known(
        &self,
        alloc: Global,
        field: &Field,
        kind: LeaseKind,
    ) -> Result<Option<Value>, Memory>
        ensures { IfOk result (λ v. v ≡ known_by self.now.view self.now.last field.now kind) }
    {
        self.client.view.known(alloc, self.reading, field, kind)
    }

    /// Those of the items that are not there.
    #[tactic(auto, using(fs_view::proofs::Lapsed::absent_pass))]
    pub(crate) fn missing_of(&self, items: List<Need>) -> List<Need>
        ensures { result ≡ filter (λ need. not (is_there (known_by self.now.view self.now.last)
            (given_by self.now.view self.now.last) need)) items }
    {
        self.client.view.missing_of(self.reading, items)
    }

    /// The leases that the items are answered from, as an entry names them.
    pub(crate) fn uses_of(&self, alloc: Global, items: &List<Need>) -> Result<List<Use>, Memory>
        ensures { IfOk result (λ uses. uses ≡
            filter_map (item_use self.now.view self.now.last) items.now) }
    {
        self.client.view.uses_of(alloc, self.reading, items)
    }

    /// Whether each of the leases that items are answered from can take one entry more.
    pub(crate) fn can_pin(&self, uses: &List<Use>) -> bool
        requires { (items : Seq Need) ×
            (uses.now ≡ filter_map (item_use self.now.view self.now.last) items) }
        ensures { result ≡ can_pin_all uses.now self.now.view.leases }
    {
        self.client.view.can_pin(uses)
    }

    /// The identifier that is there for a new file in the directory.
    #[tactic(auto, using(fs_view::proofs::Lapsed::fresh_passes))]
    pub(crate) fn fresh(&self, dir: &FileId) -> Option<&FileId>
        ensures { option_copied result ≡ fresh self.now.view self.now.last dir.now }
    {
        self.client.view.fresh(self.reading, dir)
    }

    /// Whether a lease has this number.
    pub(crate) fn has(&self, no: LeaseNo) -> bool
        ensures { result ≡ list_any (has_number no) self.now.view.leases }
    {
        self.client.view.has_at(self.reading, no)
    }

    /// The leases that have to go back, each with its file.
    pub(crate) fn returned(&self, alloc: Global) -> Result<List<(FileId, LeaseNo)>, Memory>
        ensures { IfOk result (λ pairs. pairs ≡ map pair_of (returned self.now.view)) }
    {
        live::returned(alloc, self.client.view.kept(), self.reading)
    }

    /// The leases that do not go back and end at this reading or before, each with its file.
    pub(crate) fn ending(&self, alloc: Global, soon: u64) -> Result<List<(FileId, LeaseNo)>, Memory>
        ensures { IfOk result (λ pairs. pairs ≡ map pair_of (ending soon self.now.view)) }
    {
        live::ending(alloc, &self.client.view, self.reading, soon)
    }
}
