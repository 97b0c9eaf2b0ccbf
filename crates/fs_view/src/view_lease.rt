//! A lease that a client keeps.
ghost use Rattle.std.specs.Prelude.{◌≡◌, ◌+◌, ◌<◌, ◌≤◌, true, IfOk};
ghost use Rattle.std.specs.Option.{option_copied};
ghost use Rattle.fs_view.specs.ViewLease.{entries_of, field_in, file_in, has_ended, is_better_than, is_enough, is_held, is_leaving, leaving, makes_known, number_of, pinned, recalled_as, renewed, seen_of, serves, takes_pin, unpinned, until_of, use_in};

use crate::seen::Seen;
use fs_field::{Field, LeaseKind, Use, Value};
use fs_ident::{FileId, LeaseNo, Memory, Twin, copy_two, zip_ok};
use fs_lease::{Held, Leaving, Pinned, Unpinned};
use std::alloc::Global;

/// How a lease stands.
#[derive(Debug)]
pub enum Standing {
    /// No entry uses it.
    Held(Held),
    /// Entries use it.
    Pinned(Pinned),
    /// It goes back to its server.
    Leaving(Leaving),
}

/// A lease that a client keeps.
#[derive(Debug)]
pub struct ViewLease {
    pub standing: Standing,
    /// What its field says, as far as the session's operations are known to be admitted.
    pub base: Value,
    /// Its server asked for it.
    pub recalled: bool,
    /// The directory for which its file's identifier was given, until that file is known to be made.
    pub below: Option<FileId>,
}

impl Standing {
    /// Whether no entry uses it.
    pub fn is_held(&self) -> bool
        ensures { result ≡ is_held self.now }
    {
        matches!(self, Standing::Held(_))
    }

    /// Whether it goes back.
    pub fn is_leaving(&self) -> bool
        ensures { result ≡ is_leaving self.now }
    {
        matches!(self, Standing::Leaving(_))
    }

    /// Its number.
    pub fn no(&self) -> LeaseNo
        ensures { result ≡ number_of self.now }
    {
        match self {
            Standing::Held(held) => held.no(),
            Standing::Pinned(pinned) => pinned.no(),
            Standing::Leaving(leaving) => leaving.no(),
        }
    }

    /// The reading from which on it is not used; 0 where it goes back.
    pub fn until(&self) -> u64
        ensures { result ≡ until_of self.now }
    {
        match self {
            Standing::Held(held) => held.until(),
            Standing::Pinned(pinned) => pinned.until(),
            Standing::Leaving(_) => 0,
        }
    }

    /// Its field, unless it goes back.
    pub fn field(&self) -> Option<&Field>
        ensures { option_copied result ≡ field_in self.now }
    {
        match self {
            Standing::Held(held) => Some(held.field()),
            Standing::Pinned(pinned) => Some(pinned.field()),
            Standing::Leaving(_) => None,
        }
    }

    /// The file of its field.
    pub fn file(&self) -> &FileId
        ensures { result.now ≡ file_in self.now }
    {
        match self {
            Standing::Held(held) => held.field().file(),
            Standing::Pinned(pinned) => pinned.field().file(),
            Standing::Leaving(leaving) => leaving.file(),
        }
    }

    /// Whether its time is over at the reading and no entry uses it.
    pub fn has_ended(&self, now: u64) -> bool
        ensures { result ≡ has_ended now self.now }
    {
        match self {
            Standing::Held(held) => held.until() <= now,
            Standing::Pinned(_) | Standing::Leaving(_) => false,
        }
    }

    /// Whether it makes the field known at the reading, as far as a lease of the kind does.
    pub fn serves(&self, now: u64, field: &Field, kind: LeaseKind) -> bool
        ensures { result ≡ serves now field.now kind self.now }
    {
        match self {
            Standing::Held(held) => {
                held.field().is(field) && is_enough(held.kind(), kind) && now < held.until()
            }
            Standing::Pinned(pinned) => {
                pinned.field().is(field) && is_enough(pinned.kind(), kind) && now < pinned.until()
            }
            Standing::Leaving(_) => false,
        }
    }

    /// How an entry names it, unless it goes back.
    pub fn as_use(&self, alloc: Global) -> Result<Option<Use>, Memory>
        ensures { IfOk result (λ u. u ≡ use_in self.now) }
    {
        match self {
            Standing::Held(held) => Ok(Some(Use {
                field: held.field().copy(alloc)?,
                kind: held.kind(),
                no: held.no(),
                until: held.until(),
            })),
            Standing::Pinned(pinned) => Ok(Some(Use {
                field: pinned.field().copy(alloc)?,
                kind: pinned.kind(),
                no: pinned.no(),
                until: pinned.until(),
            })),
            Standing::Leaving(_) => Ok(None),
        }
    }

    /// One entry more uses it.
    pub fn pin(self) -> Standing
        requires { takes_pin self ≡ true }
        ensures { result ≡ pinned self }
    {
        match self {
            Standing::Held(held) => Standing::Pinned(held.pin()),
            Standing::Pinned(pinned) => Standing::Pinned(pinned.more()),
            Standing::Leaving(leaving) => Standing::Leaving(leaving),
        }
    }

    /// One entry less uses it.
    pub fn unpin(self) -> Standing
        ensures { result ≡ unpinned self }
    {
        match self {
            Standing::Pinned(pinned) => match pinned.unpin() {
                Unpinned::Still(pinned) => Standing::Pinned(pinned),
                Unpinned::Free(held) => Standing::Held(held),
            },
            Standing::Held(held) => Standing::Held(held),
            Standing::Leaving(leaving) => Standing::Leaving(leaving),
        }
    }

    /// Where no entry uses it, it goes back to its server.
    pub fn leave(self) -> Standing
        ensures { result ≡ leaving self }
    {
        match self {
            Standing::Held(held) => Standing::Leaving(held.leave()),
            Standing::Pinned(pinned) => Standing::Pinned(pinned),
            Standing::Leaving(leaving) => Standing::Leaving(leaving),
        }
    }

    /// It has a new end, unless it goes back.
    pub fn renewed(self, until: u64) -> Standing
        ensures { result ≡ renewed until self }
    {
        match self {
            Standing::Held(held) => Standing::Held(held.renewed(until)),
            Standing::Pinned(pinned) => Standing::Pinned(pinned.renewed(until)),
            Standing::Leaving(leaving) => Standing::Leaving(leaving),
        }
    }

    /// Whether its server asked for it, now that it asks: not where it goes back already.
    pub fn recalled_as(&self, recalled: bool) -> bool
        ensures { result ≡ recalled_as self.now recalled }
    {
        match self {
            Standing::Held(_) | Standing::Pinned(_) => true,
            Standing::Leaving(_) => recalled,
        }
    }

    /// Its time is over: spends it.
    pub fn ended(self, now: u64)
        requires { has_ended now self ≡ true }
    {
        match self {
            Standing::Held(held) => held.ended(now),
            Standing::Pinned(pinned) => {
                pinned.discard();
                unreachable!()
            }
            Standing::Leaving(leaving) => {
                leaving.discard();
                unreachable!()
            }
        }
    }

    /// It goes back, and its server has it back: spends it.
    pub fn released(self)
        requires { is_leaving self ≡ true }
    {
        match self {
            Standing::Leaving(leaving) => leaving.released(),
            Standing::Held(held) => {
                held.discard();
                unreachable!()
            }
            Standing::Pinned(pinned) => {
                pinned.discard();
                unreachable!()
            }
        }
    }
}

/// Whether a lease of the one kind is as good as one of the other.
fn is_enough(had: LeaseKind, wanted: LeaseKind) -> bool
    ensures { result ≡ is_enough had wanted }
{
    match (had, wanted) {
        (LeaseKind::Exclusive, _) => true,
        (LeaseKind::Shared, LeaseKind::Shared) => true,
        (LeaseKind::Shared, LeaseKind::Exclusive) => false,
    }
}

impl ViewLease {
    /// Whether it is taken before the other one.
    pub fn is_better_than(&self, other: &ViewLease) -> bool
        ensures { result ≡ is_better_than self.now.standing other.now.standing }
    {
        let until = self.standing.until();
        let other_until = other.standing.until();
        other_until < until || until == other_until && self.standing.no() < other.standing.no()
    }

    /// What others see of it.
    pub fn seen(&self, alloc: Global) -> Result<Seen, Memory>
        ensures { IfOk result (λ s. s ≡ seen_of self.now) }
    {
        let (until, entries) = match &self.standing {
            Standing::Held(held) => (Some(held.until()), 0),
            Standing::Pinned(pinned) => (Some(pinned.until()), pinned.entries()),
            Standing::Leaving(_) => (None, 0),
        };
        Ok(Seen {
            no: self.standing.no(),
            file: self.standing.file().copy(alloc)?,
            until,
            entries,
            recalled: self.recalled,
        })
    }

    /// Its time is over: spends it.
    pub fn ended(self, now: u64)
        requires { has_ended now self.standing ≡ true }
    {
        let ViewLease {
            standing,
            base: _,
            recalled: _,
            below: _,
        } = self;
        standing.ended(now);
    }

    /// It goes back, and its server has it back: spends it.
    pub fn released(self)
        requires { is_leaving self.standing ≡ true }
    {
        let ViewLease {
            standing,
            base: _,
            recalled: _,
            below: _,
        } = self;
        standing.released();
    }

    /// Spends it, with the whole core that has it.
    pub fn discard(self) {
        let ViewLease {
            standing,
            base: _,
            recalled: _,
            below: _,
        } = self;
        standing.discard();
    }
}

impl Twin for Standing {
    fn copy(&self, alloc: Global) -> Result<Standing, Memory> {
        match self {
            Standing::Held(held) => Ok(Standing::Held(held.copy(alloc)?)),
            Standing::Pinned(pinned) => Ok(Standing::Pinned(pinned.copy(alloc)?)),
            Standing::Leaving(leaving) => Ok(Standing::Leaving(leaving.copy(alloc)?)),
        }
    }

    fn discard(self) {
        match self {
            Standing::Held(held) => held.discard(),
            Standing::Pinned(pinned) => pinned.discard(),
            Standing::Leaving(leaving) => leaving.discard(),
        }
    }
}

impl Twin for ViewLease {
    fn copy(&self, alloc: Global) -> Result<ViewLease, Memory> {
        let values = copy_two(alloc, &self.base, &self.below)?;
        let ((base, below), standing) = zip_ok(values, self.standing.copy(alloc))?;
        Ok(ViewLease {
            standing,
            base,
            recalled: self.recalled,
            below,
        })
    }

    fn discard(self) {
        ViewLease::discard(self)
    }
}
