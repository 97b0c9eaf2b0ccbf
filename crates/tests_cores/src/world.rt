//! Worlds of both forms, from their schedules.
ghost use Rattle.std.specs.Prelude.{◌≡◌};
ghost use Rattle.std.specs.List.{AllByRecursion};
ghost use Rattle.fs_schedule.specs.Spelling.{FitsEvent, FitsHead};
ghost use Rattle.fs_world.specs.World.{first_world};

use crate::forms::{same, spend};
use fs_ident::Twin;
use fs_schedule::{Schedule, read_schedule};
use fs_world::World;
use std::alloc::Global;
use std::test::Fail;

/// How many items, packets and files there are after a run.
type Counts = (usize, usize, usize);

/// All events of the schedule, in order.
fn run(alloc: Global, world: &mut World, schedule: &Schedule) -> Result<(), Fail>
    requires world { world.old ≡ first_world schedule.now.head }
    requires fits { AllByRecursion (FitsEvent schedule.now.head) schedule.now.events }
{
    for event in schedule.events.as_slice() {
        world.step(alloc, event)?;
    }
    Ok(())
}

/// The counts after the schedule of the text, in a copy of its world.
fn counts(alloc: Global, text: &[u8]) -> Result<Counts, Fail> {
    let schedule = read_schedule(alloc, text)?;
    let counts = counts_of(alloc, &schedule);
    spend(schedule);
    counts
}

fn counts_of(alloc: Global, schedule: &Schedule) -> Result<Counts, Fail>
    requires head { FitsHead schedule.now.head }
    requires fits { AllByRecursion (FitsEvent schedule.now.head) schedule.now.events }
{
    let mut world = World::new(alloc, &schedule.head)?;
    let counts = counts_after(alloc, &mut world, schedule);
    world.discard();
    counts
}

fn counts_after(alloc: Global, world: &mut World, schedule: &Schedule) -> Result<Counts, Fail>
    requires world { world.old ≡ first_world schedule.now.head }
    requires fits { AllByRecursion (FitsEvent schedule.now.head) schedule.now.events }
{
    run(alloc, world, schedule)?;
    counted(alloc, world.copy(alloc)?)
}

/// The counts of the world, which is given up.
fn counted(alloc: Global, world: World) -> Result<Counts, Fail> {
    let counts = counts_in(alloc, &world);
    world.discard();
    counts
}

fn counts_in(alloc: Global, world: &World) -> Result<Counts, Fail> {
    let files = files_in(alloc, world)?;
    Ok((world.journal().len(), world.packet_count(), files))
}

fn files_in(alloc: Global, world: &World) -> Result<usize, Fail> {
    let space = world.space(alloc)?;
    let files = space.len();
    spend(space);
    Ok(files)
}

/// A name that is there twice is made once.
#[test]
fn a_direct_world(rt: HostRuntime) -> Result<(), Fail> {
    let text =
        b"farsite 1 direct\n0 join c1\n0 do c1 create / \"a\" dir\n0 do c1 create / \"a\" dir\n0 do c1 create / \"b\" dir";
    same(&rt, counts(rt.alloc(), text)?, (3, 0, 3));
    Ok(())
}

/// A directory is made under leases: the question, its answer, the log and its answer go out, and both answers are
/// acknowledged.
#[test]
fn a_served_world(rt: HostRuntime) -> Result<(), Fail> {
    let text =
        b"farsite 1 servers 1 skew 10 term 100\n0 join c1\n0 do c1 create / \"a\" dir\n0 tell next\n0 tell next\n0 do c1 create / \"a\" dir\n0 turn c1\n0 tell next\n0 tell next\n0 tell next";
    same(&rt, counts(rt.alloc(), text)?, (1, 6, 2));
    Ok(())
}
