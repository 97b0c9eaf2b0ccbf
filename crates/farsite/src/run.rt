//! The run of a schedule.
ghost use Rattle.std.specs.Prelude.{◌≡◌, ◌<◌, ◌≤◌, ℕ, IfOk, IfNone, IfSome, OnOk, None, Some, IsErrOf};
ghost use Rattle.fs_msg.specs.declared.core_error.Counter.{Counter as TheCounter};
ghost use Rattle.fs_schedule.specs.Spelling.{FitsHead};
ghost use Rattle.fs_world.specs.Carried.{AllCarry};
ghost use Rattle.fs_world.specs.Refusals.{NoneHas, is_link_strange};
ghost use Rattle.fs_world.specs.World.{AtCounter, AtPackets, first_world, run_of, run_on, stop_in, stop_of};
ghost use Rattle.farsite.specs.Fitting.{MayHappen};
ghost use Rattle.farsite.specs.Status.{run_error};
ghost use Rattle.farsite.specs.Stopping.{StandsIn};
ghost use Rattle.farsite.specs.declared.run_error.RunError.TheVariants.{Memory as WantOfMemory, Packets, Spent};

use crate::run_error::RunError;
use fs_ident::List;
use fs_msg::CoreError;
use fs_schedule::{Event, Outcome, PACKETS, Schedule};
use fs_world::World;
use std::alloc::Global;

/// The world after the events of the schedule, and what each of them came to. `Spent` where an event needs a number after a
/// counter's last one, `Packets` where more packets were sent than the limit; the first of these that comes.
pub(crate) fn run(alloc: Global, schedule: &Schedule) -> Result<(World, List<Outcome>), RunError>
    requires head { FitsHead schedule.now.head }
    requires events { MayHappen (first_world schedule.now.head) schedule.now.events }
    ensures world { IfOk result (λ r. r.0 ≡ (run_of schedule.now).world) }
    ensures outcomes { IfOk result (λ r. r.1 ≡ (run_of schedule.now).outcomes) }
    ensures known { OnOk result (NoneHas is_link_strange (run_of schedule.now).outcomes) }
    ensures carried { OnOk result (AllCarry (first_world schedule.now.head) schedule.now.events) }
    ensures whole { OnOk result (stop_of schedule.now ≡ None) }
    ensures spent { (counter : TheCounter) → IsErrOf result (Spent counter) →
        stop_of schedule.now ≡ Some (AtCounter counter) }
    ensures packets { (line : ℕ) → IsErrOf result (Packets line) →
        stop_of schedule.now ≡ Some (AtPackets line) }
{
    let mut outcomes = List::new(alloc);
    let mut world = World::new(alloc, &schedule.head)?;
    match run_all(alloc, schedule.events.as_slice(), &mut world, &mut outcomes) {
        Ok(()) => Ok((world, outcomes)),
        Err(e) => {
            world.discard();
            Err(e)
        }
    }
}

/// The events happen to the world, one after another, and what each comes to is told. The first stands at line 2. `Memory` is
/// never told in place of a limit that was passed: the run was not broken off up to where it stands then.
fn run_all(
    alloc: Global,
    events: &[Event],
    world: &mut World,
    outcomes: &mut List<Outcome>,
) -> Result<(), RunError>
    requires { MayHappen world.old events.now }
    ensures run { OnOk result (record { world = world.new; outcomes = outcomes.new } ≡
        run_on (record { world = world.old; outcomes = outcomes.old }) events.now) }
    ensures known { OnOk result
        (NoneHas is_link_strange outcomes.old → NoneHas is_link_strange outcomes.new) }
    ensures carried { OnOk result (AllCarry world.old events.now) }
    ensures whole { OnOk result (stop_in world.old 2 events.now ≡ None) }
    ensures spent { (counter : TheCounter) → IsErrOf result (Spent counter) →
        stop_in world.old 2 events.now ≡ Some (AtCounter counter) }
    ensures packets { (line : ℕ) → IsErrOf result (Packets line) →
        stop_in world.old 2 events.now ≡ Some (AtPackets line) }
    ensures memory { IsErrOf result WantOfMemory → StandsIn world.old events.now world.new }
{
    for (at, e) in events.iter().enumerate() {
        let done = match world.step(alloc, e) {
            Ok(outcome) => outcomes.push(outcome),
            Err(e) => return Err(run_error(e)),
        };
        match flooded(world.packet_count(), at as u64 + 2) {
            Some(line) => return Err(RunError::Packets { line }),
            None => done?,
        }
    }
    Ok(())
}

/// Why a run is broken off at an event that is no step.
fn run_error(e: CoreError) -> RunError
    ensures { result ≡ run_error e }
{
    match e {
        CoreError::Spent { counter } => RunError::Spent { counter },
        CoreError::Memory => RunError::Memory,
    }
}

/// The line at which the run is broken off: this one exactly where more packets than the limit were sent.
pub(crate) fn flooded(sent: usize, line: u64) -> Option<u64>
    ensures many { IfSome result (λ at. (PACKETS < sent) × (at ≡ line)) }
    ensures few { IfNone result (sent ≤ PACKETS) }
{
    if PACKETS < sent { Some(line) } else { None }
}
