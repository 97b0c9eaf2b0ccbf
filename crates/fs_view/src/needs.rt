//! What a view lacks for an operation, what it uses for it, and its reply.
ghost use Rattle.std.specs.Prelude.{◌≡◌, [], Some, filter, not, IfOk};
ghost use Rattle.std.specs.List.{filter_map};
ghost use Rattle.fs_view.specs.View.{given_by, item_use, known_by, missing_in, nameless, reply_in, uses_in, walk_in};
ghost use Rattle.fs_view.specs.Walk.{is_there};

use crate::table::{nameless_walk, walk_of};
use crate::view::View;
use crate::walk::Walk;
use fs_field::{Need, Use};
use fs_ident::{List, Memory};
use fs_model::{Op, Reply};
use std::alloc::Global;

impl View {
    /// What the answer to the operation stands on at the reading, in order, and the reply where all of it is there.
    pub fn walk(&self, alloc: Global, now: u64, op: &Op) -> Result<Walk, Memory>
        ensures { IfOk result (λ w. w ≡ walk_in self.now now op.now) }
    {
        walk_of(self, alloc, now, op)
    }

    /// Those of the items that are not there at the reading.
    pub fn missing_of(&self, now: u64, items: List<Need>) -> List<Need>
        ensures { result ≡
            filter (λ need. not (is_there (known_by self.now now) (given_by self.now now) need))
            items }
    {
        let mut needs = items.into_vec();
        keep_missing(self, now, &mut needs);
        List::from_vec(needs)
    }

    /// The leases that the items are answered from at the reading, as an entry names them.
    pub fn uses_of(&self, alloc: Global, now: u64, items: &List<Need>) -> Result<List<Use>, Memory>
        ensures { IfOk result (λ uses. uses ≡ filter_map (item_use self.now now) items.now) }
    {
        uses_of(self, alloc, now, items.as_slice())
    }

    /// What the answer to the operation stands on and is not there at the reading, in order. A create that names an
    /// identifier needs what one does that names none.
    pub fn missing(&self, alloc: Global, now: u64, op: &Op) -> Result<List<Need>, Memory>
        ensures { IfOk result (λ needs. needs ≡ missing_in self.now now (nameless op.now)) }
    {
        let Walk { items, reply: _ } = nameless_walk(self, alloc, now, op)?;
        let mut needs = items.into_vec();
        keep_missing(self, now, &mut needs);
        Ok(List::from_vec(needs))
    }

    /// The leases that the operation is answered from at the reading, one for each thing that the answer stands on. A
    /// create that names an identifier uses what one does that names none.
    pub fn uses(&self, alloc: Global, now: u64, op: &Op) -> Result<List<Use>, Memory>
        requires { missing_in self.now now (nameless op.now) ≡ [] }
        ensures { IfOk result (λ uses. uses ≡ uses_in self.now now (nameless op.now)) }
    {
        let Walk { items, reply: _ } = nameless_walk(self, alloc, now, op)?;
        self.uses_of(alloc, now, &items)
    }

    /// The reply to the operation at the reading. Whether a rename would bring a directory into itself is told by no
    /// lease: that is tested elsewhere, and `Renamed` here.
    #[tactic(auto, using(crate::proofs::Walks::replied))]
    pub fn reply(&self, alloc: Global, now: u64, op: &Op) -> Result<Reply, Memory>
        requires { missing_in self.now now (nameless op.now) ≡ [] }
        ensures { IfOk result (λ reply. reply_in self.now now (nameless op.now) ≡ Some reply) }
    {
        let Walk { items: _, reply } = nameless_walk(self, alloc, now, op)?;
        match reply {
            Some(reply) => Ok(reply),
            None => unreachable!(),
        }
    }
}

/// Keeps the items that are not there.
fn keep_missing(view: &View, now: u64, needs: &mut Vec<Need>)
    ensures { needs.new.items ≡
        filter (λ need. not (is_there (known_by view.now now) (given_by view.now now) need))
        needs.old.items }
{
    needs.retain(|need| !is_there(view, now, need));
}

/// Whether the item is there.
fn is_there(view: &View, now: u64, need: &Need) -> bool
    ensures { result ≡ is_there (known_by view.now now) (given_by view.now now) need.now }
{
    match need {
        Need::Lease(field, kind) => view.knows(now, field, *kind),
        Need::Fresh(dir) => view.gives(now, dir),
    }
}

/// The leases that the items are answered from, as an entry names them.
#[tactic(auto, using(crate::proofs::Steps::use_step))]
fn uses_of(view: &View, alloc: Global, now: u64, items: &[Need]) -> Result<List<Use>, Memory>
    ensures { IfOk result (λ uses. uses ≡ filter_map (item_use view.now now) items.now) }
{
    let mut uses = List::new(alloc);
    for need in items {
        if let Some(u) = item_use(view, alloc, now, need)? {
            uses.push(u)?;
        }
    }
    Ok(uses)
}

/// The lease that the item is answered from, as an entry names it.
fn item_use(view: &View, alloc: Global, now: u64, need: &Need) -> Result<Option<Use>, Memory>
    ensures { IfOk result (λ u. u ≡ item_use view.now now need.now) }
{
    let kept = match need {
        Need::Lease(field, kind) => view.taken(now, field, *kind),
        Need::Fresh(dir) => view.taken_fresh(now, dir),
    };
    match kept {
        None => Ok(None),
        Some(kept) => kept.standing.as_use(alloc),
    }
}
