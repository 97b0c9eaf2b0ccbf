//! Steps of leases in place, which take no memory.
ghost use Rattle.std.specs.Prelude.{◌≡◌, true, not, filter, find, IfSome};
ghost use Rattle.fs_view.specs.Index.{AreFound, IsChanged, least_with};
ghost use Rattle.fs_view.specs.ViewLease.{has_number, is_leaving};
ghost use Rattle.fs_view.specs.Change.{changed, fits};
ghost use Rattle.fs_view.specs.View.{at_number, can_pin_all, pinned_all, unpinned_all};

use crate::ends::lesser;
use crate::index::FieldIndex;
use crate::leases::{Leases, place, take_off};
use crate::view_lease::{Standing, ViewLease};
use fs_field::Use;
use fs_ident::LeaseNo;

/// What becomes of a lease.
#[derive(Clone, Copy, Debug)]
pub enum Change {
    /// One entry more uses it.
    Pin,
    /// One entry less uses it.
    Unpin,
    /// Its server asked for it.
    Recall,
    /// It goes back, where no entry uses it.
    Leave,
    /// It has this end.
    Renew(u64),
}

impl ViewLease {
    /// The lease after the change.
    fn changed(self, change: Change) -> ViewLease
        requires { fits change self.standing ≡ true }
        ensures { result ≡ changed change self }
    {
        let ViewLease {
            standing,
            base,
            recalled,
            below,
        } = self;
        let (standing, recalled) = match change {
            Change::Pin => (standing.pin(), recalled),
            Change::Unpin => (standing.unpin(), recalled),
            Change::Recall => {
                let asked = standing.recalled_as(recalled);
                (standing, asked)
            }
            Change::Leave => (standing.leave(), recalled),
            Change::Renew(until) => (standing.renewed(until), recalled),
        };
        ViewLease {
            standing,
            base,
            recalled,
            below,
        }
    }
}

/// Changes the lease of this number, and no other, by taking it out and putting it back.
pub(crate) fn change_at(leases: &mut Leases, no: LeaseNo, change: Change)
    requires found { AreFound leases.old }
    requires fits { IfSome (find (has_number no) leases.old.kept.items) (λ k.
        fits change k.standing ≡ true) }
    ensures changed { leases.new.kept.items ≡
        at_number no (changed change) leases.old.kept.items }
    ensures found { AreFound leases.new }
{
    let Some(at) = place(leases, no) else {
        return;
    };
    note_change(&mut leases.index, &leases.kept[at].standing, change);
    leases.least = least_with(leases.least, change);
    let kept = leases.kept.remove(at).changed(change);
    match leases.kept.insert(at, kept) {
        Ok(()) => {}
        Err(_) => unreachable!(),
    }
}

/// A held lease that goes back is taken off its field.
fn note_change(index: &mut FieldIndex, standing: &Standing, change: Change)
    ensures { IsChanged change standing.now index.old index.new }
{
    match change {
        Change::Leave => take_off(index, standing),
        Change::Pin | Change::Unpin | Change::Recall | Change::Renew(_) => {}
    }
}

/// A lease that has a new end may end sooner than the others.
fn least_with(least: u64, change: Change) -> u64
    ensures { result ≡ least_with change least }
{
    match change {
        Change::Renew(until) => lesser(least, until),
        Change::Pin | Change::Unpin | Change::Recall | Change::Leave => least,
    }
}

/// Each lease that is used has one entry more.
pub(crate) fn pin_all(leases: &mut Leases, uses: &[Use])
    requires found { AreFound leases.old }
    requires room { can_pin_all uses.now leases.old.kept.items ≡ true }
    ensures pinned { leases.new.kept.items ≡ pinned_all uses.now leases.old.kept.items }
    ensures found { AreFound leases.new }
{
    for u in uses {
        change_at(leases, u.no, Change::Pin);
    }
}

/// Each lease that is used has one entry less.
pub(crate) fn unpin_all(leases: &mut Leases, uses: &[Use])
    requires { AreFound leases.old }
    ensures unpinned { leases.new.kept.items ≡ unpinned_all uses.now leases.old.kept.items }
    ensures found { AreFound leases.new }
{
    for u in uses {
        change_at(leases, u.no, Change::Unpin);
    }
}

/// Spends the lease of this number, which goes back, now that its server has it.
pub(crate) fn release(leases: &mut Leases, no: LeaseNo)
    requires found { AreFound leases.old }
    requires leaving { IfSome (find (has_number no) leases.old.kept.items) (λ k.
        is_leaving k.standing ≡ true) }
    ensures others { leases.new.kept.items ≡
        filter (λ k. not (has_number no k)) leases.old.kept.items }
    ensures found { AreFound leases.new }
{
    if let Some(at) = place(leases, no) {
        leases.numbers.shift_remove_index(at);
        leases.kept.remove(at).released();
    }
}
