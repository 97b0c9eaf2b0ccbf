//! What becomes of several leases of a view, one after another, without memory.
ghost use Rattle.std.specs.Prelude.{◌≡◌};
ghost use Rattle.fs_client.specs.Client.{leaving_all, released_all, released_one, renewed_all, renewed_one};

use fs_ident::LeaseNo;
use fs_view::View;

/// Each of these leases goes back.
pub(crate) fn leave_all(view: &mut View, numbers: &[LeaseNo])
    ensures { view.new ≡ leaving_all numbers.now view.old }
{
    for no in numbers {
        view.leave(*no);
    }
}

/// The server has each of these leases back, as far as they go back.
pub(crate) fn release_all(view: &mut View, numbers: &[LeaseNo])
    ensures { view.new ≡ released_all numbers.now view.old }
{
    for no in numbers {
        release_one(view, *no);
    }
}

/// One of them; a lease that does not go back stays.
fn release_one(view: &mut View, no: LeaseNo)
    ensures { view.new ≡ released_one no view.old }
{
    if view.is_leaving(no) {
        view.released(no);
    }
}

/// Each of these leases has another end, or none any more.
pub(crate) fn renew_all(view: &mut View, ends: &[(LeaseNo, Option<u64>)])
    ensures { view.new ≡ renewed_all ends.now view.old }
{
    for end in ends {
        renew_one(view, end.0, end.1);
    }
}

fn renew_one(view: &mut View, no: LeaseNo, until: Option<u64>)
    ensures { view.new ≡ renewed_one no until view.old }
{
    match until {
        Some(until) => view.renew(no, until),
        None => view.give_up(no),
    }
}
