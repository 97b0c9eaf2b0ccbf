//! Messages on their way from a server to others.
ghost use Rattle.std.specs.Prelude.{◌≡◌, ◌++◌, ◌∷◌, [], length, take, OnOk, OnErr};
ghost use Rattle.fs_serial.specs.Cluster.{in_flight_from};

use fs_ident::{List, Memory, Peer, Twin};
use fs_msg::Msg;
use fs_serial::InFlight;
use std::alloc::Global;

/// Those of these messages of the server that go to servers are on their way: all of them, or none when out of memory.
pub(crate) fn push_in_flight(
    alloc: Global,
    k: u8,
    in_flight: &mut List<InFlight>,
    send: &[(Peer, Msg)],
) -> Result<(), Memory>
    ensures ok { OnOk result (in_flight.new ≡ in_flight.old ++ in_flight_from k send.now) }
    ensures err { OnErr result (in_flight.new ≡ in_flight.old) }
{
    let before = in_flight.len();
    match push_each(alloc, k, in_flight, send) {
        Ok(()) => Ok(()),
        Err(e) => {
            in_flight.truncate(before);
            Err(e)
        }
    }
}

/// Puts those messages that go to servers on their way one by one; after an error some may be on their way.
fn push_each(
    alloc: Global,
    k: u8,
    in_flight: &mut List<InFlight>,
    send: &[(Peer, Msg)],
) -> Result<(), Memory>
    ensures ok { OnOk result (in_flight.new ≡ in_flight.old ++ in_flight_from k send.now) }
    ensures front { take (length in_flight.old) in_flight.new ≡ in_flight.old }
{
    for sent in send {
        push_one(alloc, k, in_flight, sent)?;
    }
    Ok(())
}

/// The message, if it goes to a server.
fn push_one(
    alloc: Global,
    k: u8,
    in_flight: &mut List<InFlight>,
    sent: &(Peer, Msg),
) -> Result<(), Memory>
    ensures ok { OnOk result (in_flight.new ≡ in_flight.old ++ in_flight_from k (sent.now ∷ [])) }
    ensures err { OnErr result (in_flight.new ≡ in_flight.old) }
{
    match sent {
        (Peer::Server(to), Msg::Peer(m)) => {
            let message = m.copy(alloc)?;
            in_flight.push(InFlight {
                from: k,
                to: *to,
                message,
            })
        }
        _ => Ok(()),
    }
}
