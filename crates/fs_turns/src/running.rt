//! The turns of a node.
ghost use Rattle.std.specs.Prelude.{◌≡◌, OnOk, IsErrOf};
ghost use Rattle.fs_io.specs.Faults.{Rose};
ghost use Rattle.fs_msg.specs.declared.core_error.Counter.{Counter as TheCounter};
ghost use Rattle.fs_turns.specs.Run.{IsRun, IsRunCut, IsRunSpent, IsWritten};

use crate::actor::Actor;
use crate::counts::Counts;
use crate::piece::PIECE;
use crate::stop::Stop;
use crate::turn::turn;
use fs_io::{Clock, Link, Sink};
use std::alloc::Global;

/// The turns of a node: so many, or fewer where its actor makes no more. `Write` where a line could not be written; `Spent` where the
/// actor's step needs a number after a counter's last one, and then the lines are those of the turns before.
pub fn run<A: Actor, C: Clock, L: Link, K: Sink>(
    alloc: Global,
    turns: u64,
    actor: &mut A,
    counts: &mut Counts,
    clock: &mut C,
    link: &mut L,
    out: &mut K,
) -> Result<(), Stop>
    ensures done { OnOk result (IsRun A.is_over A.step turns
        (record { actor = actor.old; counts = counts.old })
        (record { actor = actor.new; counts = counts.new })
        (record {
          readings = C.readings clock.old;
          calls = L.calls link.old;
          written = K.written out.old;
        })
        (record {
          readings = C.readings clock.new;
          calls = L.calls link.new;
          written = K.written out.new;
        })) }
    ensures memory { IsErrOf result Stop.Memory → IsWritten A.is_over A.step turns
        (record { actor = actor.old; counts = counts.old })
        (K.written out.old) (K.written out.new) }
    ensures spent { (counter : TheCounter) → IsErrOf result (Stop.Spent counter) →
        IsRunSpent A.is_over A.step turns counter
        (record { actor = actor.old; counts = counts.old })
        (record {
          readings = C.readings clock.old;
          calls = L.calls link.old;
          written = K.written out.old;
        })
        (record {
          readings = C.readings clock.new;
          calls = L.calls link.new;
          written = K.written out.new;
        }) }
    ensures cut { IsErrOf result Stop.Write → IsRunCut A.is_over A.step turns
        (record { actor = actor.old; counts = counts.old })
        (record {
          readings = C.readings clock.old;
          calls = L.calls link.old;
          written = K.written out.old;
        })
        (record {
          readings = C.readings clock.new;
          calls = L.calls link.new;
          written = K.written out.new;
        }) }
    ensures fault { IsErrOf result Stop.Write → Rose (K.faults out.old) (K.faults out.new) }
    ensures quiet { OnOk result (K.faults out.new ≡ K.faults out.old) }
{
    let mut buf = [0u8; PIECE];
    for _ in 0..turns {
        if actor.is_over() {
            return Ok(());
        }
        turn(alloc, actor, counts, clock, link, out, &mut buf)?;
    }
    Ok(())
}
