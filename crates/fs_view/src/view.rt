//! What a client knows.
ghost use Rattle.std.specs.Prelude.{◌≡◌, ◌<◌, ◌||◌, nat_lt, [], ◌∷◌, ◌++◌, true, false, is_some, length, map, Some, find, IfOk, OnOk, OnErr};
ghost use Rattle.std.specs.List.{list_all, list_any};
ghost use Rattle.std.specs.Option.{option_copied};
ghost use Rattle.fs_field.specs.Value.{is_value_of};
ghost use Rattle.fs_view.specs.ViewLease.{has_number, seen_of, takes_pin, is_held, is_pinned, is_leaving, until_of};
ghost use Rattle.fs_view.specs.declared.view_lease.ViewLease.{ViewLease as TheViewLease};
ghost use Rattle.fs_view.specs.View.{admitted_front, are_distinct, can_grant_all, can_pin_all, is_in_hand, stands, lapsed_at, given_up, with_grant, with_grants, fresh, given_by, known_by, offered, taken, taken_fresh, with_pins, without_pins, with_entry, with_admitted, with_first_admitted, with_recall, with_leaving, without_lease, with_end};

use crate::admit::{admit, drop_front, front};
use crate::change::{Change, change_at, pin_all, release, unpin_all};
use crate::ends::{self, lapse};
use crate::known::{after_log, offered};
use crate::leases::{self, Leases, numbered, reserve};
use crate::new_lease::{NewLease, add_all, add_one};
use crate::room::can_pin_all;
use crate::seen::Seen;
use crate::twin;
use crate::view_lease::ViewLease;
use fs_field::{Effect, Field, LeaseKind, Use, Value};
use fs_ident::{FileId, LeaseNo, List, Memory, Session, Twin};
use std::alloc::Global;
use std::marker::Model;
use std::slice;

/// What the client of one session knows: its leases in order of grant, each with its number, and for each entry of
/// its log what that will do.
#[derive(Debug)]
pub struct View {
    session: Session,
    leases: Leases,
    pending: List<List<Effect>>,
}

impl Model for View {
    ghost use Rattle.fs_view.specs.Index.{AreFound};
    ghost use Rattle.fs_view.specs.View.{View as Knowing};

    ghost Value = { Knowing };

    ghost view = { λ v.
        record { session = v.session; leases = v.leases.kept.items; pending = v.pending } };

    ghost invariant = { λ v. AreFound v.leases };
}

impl View {
    /// The view of a session that has no lease, which takes no memory.
    pub fn new(alloc: Global, session: Session) -> View
        ensures { result ≡ record { session = session; leases = []; pending = [] } }
    {
        View {
            session,
            leases: Leases::new(alloc),
            pending: List::new(alloc),
        }
    }

    /// The leases, in order of grant.
    #[tactic(auto, using(crate::proofs::Steps::seen_step))]
    pub fn leases(&self, alloc: Global) -> Result<List<Seen>, Memory>
        ensures { IfOk result (λ seen. seen ≡ map seen_of self.now.leases) }
    {
        let mut seen = List::new(alloc);
        for kept in &self.leases.kept {
            seen.push(kept.seen(alloc)?)?;
        }
        Ok(seen)
    }

    /// The leases as they are kept, in order of grant.
    pub fn kept(&self) -> &[ViewLease]
        ensures { result.now ≡ self.now.leases }
    {
        &self.leases.kept
    }

    /// The lease of this number, if there is one.
    pub fn lease(&self, no: LeaseNo) -> Option<&ViewLease>
        ensures { option_copied result ≡ find (has_number no) self.now.leases }
    {
        numbered(&self.leases, no)
    }

    /// Whether a lease has this number.
    pub fn has(&self, no: LeaseNo) -> bool
        ensures { result ≡ list_any (has_number no) self.now.leases }
    {
        leases::has(&self.leases, no)
    }

    /// Whether a lease has this number once those are given up that no entry uses and that are over at the reading.
    pub fn has_at(&self, now: u64, no: LeaseNo) -> bool
        ensures { result ≡ list_any (has_number no) (lapsed_at now self.now).leases }
    {
        leases::has_live(&self.leases, now, no)
    }

    /// Whether a lease that does not go back may end at this reading or before. Where not, none does.
    pub fn may_end(&self, soon: u64) -> bool
        ensures { result ≡ false → list_all
            (λ (k : TheViewLease). is_leaving k.standing || nat_lt soon (until_of k.standing))
            self.now.leases ≡ true }
    {
        ends::may_end(&self.leases, soon)
    }

    /// Whether the lease of this number is there and no entry uses it.
    pub fn is_held(&self, no: LeaseNo) -> bool
        ensures { result ≡ stands is_held no self.now.leases }
    {
        match self.lease(no) {
            None => false,
            Some(kept) => kept.standing.is_held(),
        }
    }

    /// Whether the lease of this number is there and goes back.
    pub fn is_leaving(&self, no: LeaseNo) -> bool
        ensures { result ≡ stands is_leaving no self.now.leases }
    {
        match self.lease(no) {
            None => false,
            Some(kept) => kept.standing.is_leaving(),
        }
    }

    /// Whether the lease of this number is there and does not go back.
    pub fn is_in_hand(&self, no: LeaseNo) -> bool
        ensures { result ≡ stands is_in_hand no self.now.leases }
    {
        match self.lease(no) {
            None => false,
            Some(kept) => !kept.standing.is_leaving(),
        }
    }

    /// Gives up every lease that no entry uses and that is over at the reading.
    pub fn lapse(&mut self, now: u64)
        ensures { self.new ≡ lapsed_at now self.old }
    {
        lapse(&mut self.leases, now);
    }

    /// Adds a lease behind the others, held, with the value that its field has; for an identifier of a new file also
    /// the directory that it is for. `Memory` when out of memory; nothing changed then.
    pub fn grant(
        &mut self,
        alloc: Global,
        no: LeaseNo,
        field: &Field,
        kind: LeaseKind,
        until: u64,
        value: Value,
        below: Option<&FileId>,
    ) -> Result<(), Memory>
        requires new { list_any (has_number no) self.old.leases ≡ false }
        requires fits { is_value_of field.now value ≡ true }
        ensures ok { OnOk result (self.new ≡
            with_grant no field.now kind until value (option_copied below.entry) self.old) }
        ensures err { OnErr result (self.new ≡ self.old) }
    {
        let below = match below {
            None => None,
            Some(dir) => Some(dir.copy(alloc)?),
        };
        let lease = NewLease {
            no,
            field: field.copy(alloc)?,
            kind,
            until,
            value,
            below,
        };
        reserve(&mut self.leases, 1)?;
        add_one(&mut self.leases, alloc, lease);
        Ok(())
    }

    /// What is over at the reading is given up, and these leases are added behind the others, held. `Memory` when
    /// out of memory; nothing changed then.
    pub fn grant_all(
        &mut self,
        alloc: Global,
        now: u64,
        leases: List<NewLease>,
    ) -> Result<(), Memory>
        requires { can_grant_all leases (lapsed_at now self.old).leases ≡ true }
        ensures ok { OnOk result (self.new ≡ with_grants leases (lapsed_at now self.old)) }
        ensures err { OnErr result (self.new ≡ self.old) }
    {
        reserve(&mut self.leases, leases.len())?;
        lapse(&mut self.leases, now);
        add_all(&mut self.leases, alloc, leases);
        Ok(())
    }

    /// The first identifier for a new file in the directory whose lease is exclusive and on that file's life, and is not over
    /// at the reading, where no entry makes the file.
    pub fn fresh(&self, now: u64, dir: &FileId) -> Option<&FileId>
        ensures { option_copied result ≡ fresh self.now now dir.now }
    {
        match self.offered(now, dir) {
            None => None,
            Some(kept) => Some(kept.standing.file()),
        }
    }

    /// Whether one entry more can use each of these leases, one after another.
    pub fn can_pin(&self, uses: &List<Use>) -> bool
        ensures same { result ≡ can_pin_all uses.now self.now.leases }
        ensures distinct { are_distinct self.now.leases ≡ true }
    {
        can_pin_all(&self.leases, uses.as_slice())
    }

    /// Each lease that is used has one entry more.
    pub fn pin(&mut self, uses: &List<Use>)
        requires { can_pin_all uses.now self.old.leases ≡ true }
        ensures { self.new ≡ with_pins uses.now self.old }
    {
        pin_all(&mut self.leases, uses.as_slice());
    }

    /// Each lease that is used has one entry less, where an entry uses it.
    pub fn unpin(&mut self, uses: &List<Use>)
        ensures { self.new ≡ without_pins uses.now self.old }
    {
        unpin_all(&mut self.leases, uses.as_slice());
    }

    /// Adds what one more entry of the log will do. `Memory` when out of memory; nothing changed then.
    pub fn append(&mut self, effects: List<Effect>) -> Result<(), Memory>
        ensures ok { OnOk result (self.new ≡ with_entry effects self.old) }
        ensures err { OnErr result (self.new ≡ self.old) }
    {
        self.pending.push(effects)
    }

    /// The first entry of the log is known to be admitted: what it did joins the base values. `Memory` when out of
    /// memory; nothing changed then.
    pub fn admit_first(&mut self, alloc: Global) -> Result<(), Memory>
        requires { 0 < length self.old.pending }
        ensures ok { OnOk result (self.new ≡ with_first_admitted self.old) }
        ensures err { OnErr result (self.new ≡ self.old) }
    {
        self.admit_front(alloc, 1)
    }

    /// The first so many entries of the log are known to be admitted: what they did joins the base values. `Memory`
    /// when out of memory; nothing changed then.
    pub fn admit_front(&mut self, alloc: Global, count: usize) -> Result<(), Memory>
        ensures ok { OnOk result (self.new ≡ admitted_front count self.old) }
        ensures err { OnErr result (self.new ≡ self.old) }
    {
        let admitted = front(self.pending.as_slice(), count);
        admit(&mut self.leases.kept, alloc, self.session, admitted)?;
        drop_front(self.pending.items_mut(), count);
        Ok(())
    }

    /// These effects are known to be admitted: they join the base values. `Memory` when out of memory; nothing
    /// changed then.
    pub fn admit(&mut self, alloc: Global, effects: &List<Effect>) -> Result<(), Memory>
        ensures ok { OnOk result (self.new ≡ with_admitted effects.now self.old) }
        ensures err { OnErr result (self.new ≡ self.old) }
    {
        admit(
            &mut self.leases.kept,
            alloc,
            self.session,
            slice::from_ref(effects),
        )
    }

    /// The server asked for the lease of this number: noted, unless it goes back already.
    pub fn recall(&mut self, no: LeaseNo)
        ensures { self.new ≡ with_recall no self.old }
    {
        change_at(&mut self.leases, no, Change::Recall);
    }

    /// The lease of this number goes back, where no entry uses it.
    pub fn leave(&mut self, no: LeaseNo)
        ensures { self.new ≡ with_leaving no self.old }
    {
        change_at(&mut self.leases, no, Change::Leave);
    }

    /// The lease of this number is given up, without a word to its server where no entry uses it.
    #[tactic(auto, using(crate::proofs::GoingBack::view_leaving, crate::proofs::GoingBack::view_gone))]
    pub fn give_up(&mut self, no: LeaseNo)
        ensures { self.new ≡ given_up no self.old }
    {
        if self.is_held(no) {
            self.leave(no);
            self.released(no);
        }
    }

    /// The server has the lease of this number back, which goes back (`is_leaving` is the test): it is given up.
    pub fn released(&mut self, no: LeaseNo)
        requires { stands is_leaving no self.old.leases ≡ true }
        ensures { self.new ≡ without_lease no self.old }
    {
        release(&mut self.leases, no);
    }

    /// The lease of this number has another end, unless it goes back.
    pub fn renew(&mut self, no: LeaseNo, until: u64)
        ensures { self.new ≡ with_end no until self.old }
    {
        change_at(&mut self.leases, no, Change::Renew(until));
    }

    /// What is known of the field at the reading, as far as leases of the kind or a stronger one make it known: its
    /// value after all that the session did.
    #[tactic(auto, unfolding(crate::specs::View::known_by))]
    pub fn known(
        &self,
        alloc: Global,
        now: u64,
        field: &Field,
        kind: LeaseKind,
    ) -> Result<Option<Value>, Memory>
        ensures { IfOk result (λ v. v ≡ known_by self.now now field.now kind) }
    {
        match self.taken(now, field, kind) {
            None => Ok(None),
            Some(kept) => {
                let base = kept.base.copy(alloc)?;
                let log = self.pending.as_slice();
                Ok(Some(after_log(alloc, self.session, field, base, log)?))
            }
        }
    }

    /// Whether the field is known at the reading.
    #[tactic(auto, unfolding(crate::specs::View::known_by))]
    pub fn knows(&self, now: u64, field: &Field, kind: LeaseKind) -> bool
        ensures { result ≡ is_some (known_by self.now now field.now kind) }
    {
        self.taken(now, field, kind).is_some()
    }

    /// Whether an identifier is there for a new file in the directory.
    pub fn gives(&self, now: u64, dir: &FileId) -> bool
        ensures { result ≡ given_by self.now now dir.now }
    {
        self.offered(now, dir).is_some()
    }

    /// The lease that is taken for the field at the reading.
    #[tactic(auto, unfolding(crate::specs::View::taken))]
    pub fn taken(&self, now: u64, field: &Field, kind: LeaseKind) -> Option<&ViewLease>
        ensures { option_copied result ≡ taken self.now now field.now kind }
    {
        leases::taken(&self.leases, now, field, kind)
    }

    /// The first lease that offers an identifier below the directory at the reading.
    #[tactic(auto, unfolding(crate::specs::View::offered))]
    pub fn offered(&self, now: u64, dir: &FileId) -> Option<&ViewLease>
        ensures { option_copied result ≡ offered self.now now dir.now }
    {
        offered(&self.leases.kept, now, dir, self.pending.as_slice())
    }

    /// The lease that is used for the identifier of a new file in the directory at the reading.
    pub fn taken_fresh(&self, now: u64, dir: &FileId) -> Option<&ViewLease>
        ensures { option_copied result ≡ taken_fresh self.now now dir.now }
    {
        match self.offered(now, dir) {
            None => None,
            Some(kept) => match kept.standing.field() {
                None => None,
                Some(field) => self.taken(now, field, LeaseKind::Exclusive),
            },
        }
    }

    /// Spends every lease, with the whole core that has them.
    pub fn discard(self) {
        let View {
            session: _,
            leases,
            pending: _,
        } = self;
        twin::discard(leases);
    }
}

impl Twin for View {
    fn copy(&self, alloc: Global) -> Result<View, Memory> {
        let pending = self.pending.copy(alloc)?;
        Ok(View {
            session: self.session,
            leases: twin::copy(alloc, &self.leases)?,
            pending,
        })
    }

    fn discard(self) {
        View::discard(self)
    }
}
