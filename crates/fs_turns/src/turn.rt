//! One turn of a node.
ghost use Rattle.std.specs.Prelude.{◌≡◌, ◌≤◌, ℕ, List, length, IfOk, IfSome, OnOk, IsErrOf};
ghost use Rattle.fs_io.specs.Faults.{Rose};
ghost use Rattle.fs_msg.specs.declared.core_error.Counter.{Counter as TheCounter};
ghost use Rattle.fs_turns.specs.Run.{IsSpentTurn, IsTaken, IsTurn, IsTurnCut, came_in, counted, datagram_of, got_of};

use crate::actor::{Actor, Turn};
use crate::counts::Counts;
use crate::sending::send_all;
use crate::stop::Stop;
use fs_io::{Addr, Clock, Failed, Link, Sink, write_all};
use std::alloc::Global;

/// One turn: one reading, one receive, one event of the actor, a send for each packet that is due to an address, and then the lines.
pub(crate) fn turn<A: Actor, C: Clock, L: Link, K: Sink>(
    alloc: Global,
    actor: &mut A,
    counts: &mut Counts,
    clock: &mut C,
    link: &mut L,
    out: &mut K,
    buf: &mut [u8],
) -> Result<(), Stop>
    requires { length buf.old ≡ 1100 }
    ensures turn { OnOk result (IsTurn A.step
        (record { actor = actor.old; counts = counts.old })
        (record { actor = actor.new; counts = counts.new })
        (record {
          readings = C.readings clock.old;
          calls = L.calls link.old;
          written = K.written out.old;
        })
        (record {
          readings = C.readings clock.new;
          calls = L.calls link.new;
          written = K.written out.new;
        })) }
    ensures memory { IsErrOf result Stop.Memory → out.new ≡ out.old }
    ensures unspent { (counter : TheCounter) → IsErrOf result (Stop.Spent counter) →
        out.new ≡ out.old }
    ensures spent { (counter : TheCounter) → IsErrOf result (Stop.Spent counter) →
        IsSpentTurn A.step counter actor.old (C.readings clock.old) (C.readings clock.new)
        (L.calls link.old) (L.calls link.new) }
    ensures cut { IsErrOf result Stop.Write → IsTurnCut A.step actor.old
        (record {
          readings = C.readings clock.old;
          calls = L.calls link.old;
          written = K.written out.old;
        })
        (record {
          readings = C.readings clock.new;
          calls = L.calls link.new;
          written = K.written out.new;
        }) }
    ensures fault { IsErrOf result Stop.Write → Rose (K.faults out.old) (K.faults out.new) }
    ensures quiet { OnOk result (K.faults out.new ≡ K.faults out.old) }
    ensures room { length buf.new ≡ length buf.old }
{
    let taken = taken(alloc, actor, counts, clock, link, buf)?;
    send_all(link, taken.due.as_slice(), &mut counts.send_faults);
    match write_all(out, &taken.lines) {
        Ok(()) => Ok(()),
        Err(Failed) => Err(Stop::Write),
    }
}

/// Reads the clock, receives, and lets the actor take what came.
fn taken<A: Actor, C: Clock, L: Link>(
    alloc: Global,
    actor: &mut A,
    counts: &mut Counts,
    clock: &mut C,
    link: &mut L,
    buf: &mut [u8],
) -> Result<Turn, Stop>
    requires { length buf.old ≡ 1100 }
    ensures ok { IfOk result (λ t. IsTaken A.step
        (record { actor = actor.old; counts = counts.old })
        (record { actor = actor.new; counts = counts.new }) t.due t.lines.items
        (C.readings clock.old) (C.readings clock.new) (L.calls link.old) (L.calls link.new)) }
    ensures spent { (counter : TheCounter) → IsErrOf result (Stop.Spent counter) →
        IsSpentTurn A.step counter actor.old (C.readings clock.old) (C.readings clock.new)
        (L.calls link.old) (L.calls link.new) }
    ensures not_write { IsErrOf result Stop.Write → ⊥ }
    ensures room { length buf.new ≡ length buf.old }
{
    let reading = clock.now();
    let answer = link.receive(buf);
    count(counts, answer);
    let turn = actor.step(alloc, reading, came_in(answer, buf))?;
    Ok(turn)
}

/// The datagram that came, if one did.
fn came_in(answer: Result<Option<(Addr, usize)>, Failed>, buf: &[u8]) -> Option<(Addr, &[u8])>
    requires { IfOk answer (λ got. IfSome got (λ d. d.1 ≤ length buf.now)) }
    ensures { datagram_of result ≡ came_in (got_of answer buf.now) }
{
    match answer {
        Ok(Some((from, n))) => Some((from, &buf[..n])),
        Ok(None) | Err(Failed) => None,
    }
}

/// One more turn, and one more failed receive where it failed.
fn count(counts: &mut Counts, answer: Result<Option<(Addr, usize)>, Failed>)
    ensures { (buf : List ℕ) → counts.new ≡ counted counts.old (got_of answer buf) }
{
    counts.turns = counts.turns.saturating_add(1);
    if answer.is_err() {
        counts.receive_faults = counts.receive_faults.saturating_add(1);
    }
}
