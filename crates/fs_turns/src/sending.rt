//! The sends of a turn.
ghost use Rattle.std.specs.Prelude.{Some};
ghost use Rattle.fs_turns.specs.Run.{IsSent, IsSentOne};

use fs_ident::List;
use fs_io::{Addr, Link};

/// Sends each of the packets that is due to an address, and counts those that fail and those without an address.
pub(crate) fn send_all<L: Link>(link: &mut L, due: &[(Option<Addr>, List<u8>)], faults: &mut u64)
    ensures { IsSent due.now faults.old faults.new (L.calls link.old) (L.calls link.new) }
{
    for (to, bytes) in due {
        send_one(link, *to, bytes.as_slice(), faults);
    }
}

/// Sends this packet if it is due to an address, and counts it if it fails or has no address.
fn send_one<L: Link>(link: &mut L, to: Option<Addr>, bytes: &[u8], faults: &mut u64)
    ensures { IsSentOne (to, bytes.now) faults.old faults.new (L.calls link.old)
        (L.calls link.new) }
{
    match to {
        Some(to) => send_to(link, to, bytes, faults),
        None => *faults = faults.saturating_add(1),
    }
}

/// Sends this packet to the address, and counts it if it fails.
fn send_to<L: Link>(link: &mut L, to: Addr, bytes: &[u8], faults: &mut u64)
    ensures { IsSentOne (Some to, bytes.now) faults.old faults.new (L.calls link.old)
        (L.calls link.new) }
{
    if link.send(to, bytes).is_err() {
        *faults = faults.saturating_add(1);
    }
}
