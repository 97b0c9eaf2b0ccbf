//! The run of a made schedule.
ghost use Rattle.std.specs.Prelude.{◌≡◌, ◌≢◌, ◌++◌, ℕ, IfOk, OnOk, None, Some, IsErrOf, flat_map, length};
ghost use Rattle.fs_io.specs.Bytes.{IsPrefixWritten};
ghost use Rattle.fs_io.specs.Faults.{Rose};
ghost use Rattle.fs_msg.specs.declared.core_error.Counter.{Counter};
ghost use Rattle.fs_schedule.specs.Made.{made};
ghost use Rattle.fs_schedule.specs.Spelling.{FitsHead};
ghost use Rattle.fs_schedule.specs.declared.error.Which.{Which as Limited};
ghost use Rattle.fs_world.specs.Carried.{AllCarry};
ghost use Rattle.fs_world.specs.Refusals.{NoneHas, is_link_strange};
ghost use Rattle.fs_world.specs.World.{AtCounter, AtPackets, first_world, run_of, stop_of};
ghost use Rattle.farsite.specs.Fitting.{MayHappen};
ghost use Rattle.farsite.specs.Generated.{ended_in, generated_text, refused_by, refused_in};
ghost use Rattle.farsite.specs.Headline.{IsRunOf};
ghost use Rattle.farsite.specs.declared.run_error.RunError.TheVariants.{Packets, Spent};

use crate::causes::run_status;
use crate::lines::write_lines;
use crate::run::run;
use crate::run_error::RunError;
use crate::status::Status;
use fs_ident::{List, Memory};
use fs_io::{Failed, Sink};
use fs_msg::{End, Note, ServerNote};
use fs_report::generated_line;
use fs_schedule::{Outcome, Schedule, make};
use fs_world::World;
use std::alloc::Global;

/// Runs the schedule that is made from the number, and writes in one line what it came to.
pub(crate) fn generated<K: Sink>(alloc: Global, n: u64, out: &mut K) -> Status
    ensures done { result ≡ Status.Done → IsRunOf (made n) (generated_text n (run_of (made n)))
        (K.written out.old) (K.written out.new) }
    ensures usage { (word : ℕ) → result ≢ Status.Usage word }
    ensures bad_line { (line : ℕ) → result ≢ Status.BadLine line }
    ensures skewed { (line earlier : ℕ) → result ≢ Status.Skewed line earlier }
    ensures limit { (which : Limited) (at : ℕ) → result ≡ Status.Limit which at →
        (which ≡ Limited.Packets) × (stop_of (made n) ≡ Some (AtPackets at)) }
    ensures spent { (counter : Counter) → result ≡ Status.Spent counter →
        stop_of (made n) ≡ Some (AtCounter counter) }
    ensures too_long { (limit : ℕ) → result ≢ Status.TooLong limit }
    ensures read_fault { result ≢ Status.ReadFault }
    ensures linked { result ≢ Status.LinkFault }
    ensures write_fault { result ≡ Status.WriteFault → Rose (K.faults out.old) (K.faults out.new) }
    ensures quiet { result ≢ Status.WriteFault → K.faults out.new ≡ K.faults out.old }
    ensures prefix { result ≡ Status.WriteFault → (stop_of (made n) ≡ None) ×
        IsPrefixWritten (K.written out.old) (K.written out.new)
        (generated_text n (run_of (made n))) }
    ensures silent { result ≢ Status.Done → result ≢ Status.WriteFault → out.new ≡ out.old }
{
    match make(alloc, n) {
        Ok(schedule) => match line_of(alloc, n, &schedule) {
            Ok(line) => match write_lines(out, &line) {
                Ok(()) => Status::Done,
                Err(Failed) => Status::WriteFault,
            },
            Err(e) => run_status(e),
        },
        Err(Memory) => Status::Memory,
    }
}

/// The line of the schedule's run, where the schedule was made from the number. `Spent` where an
/// event needs a number after a counter's last one, `Packets` where more packets are sent than the
/// limit.
fn line_of(alloc: Global, n: u64, schedule: &Schedule) -> Result<Vec<u8>, RunError>
    requires head { FitsHead schedule.now.head }
    requires events { MayHappen (first_world schedule.now.head) schedule.now.events }
    ensures ok { IfOk result (λ v. v.items ≡ generated_text n (run_of schedule.now)) }
    ensures known { OnOk result (NoneHas is_link_strange (run_of schedule.now).outcomes) }
    ensures carried { OnOk result (AllCarry (first_world schedule.now.head) schedule.now.events) }
    ensures whole { OnOk result (stop_of schedule.now ≡ None) }
    ensures spent { (counter : Counter) → IsErrOf result (Spent counter) →
        stop_of schedule.now ≡ Some (AtCounter counter) }
    ensures packets { (line : ℕ) → IsErrOf result (Packets line) →
        stop_of schedule.now ≡ Some (AtPackets line) }
{
    let (world, outcomes) = run(alloc, schedule)?;
    let line = line(alloc, n, &world, &outcomes);
    world.discard();
    Ok(line?)
}

/// The line of a world and of what its events came to.
fn line(alloc: Global, n: u64, world: &World, outcomes: &List<Outcome>) -> Result<Vec<u8>, Memory>
    ensures { IfOk result (λ v. v.items ≡
        generated_text n (record { world = world.now; outcomes = outcomes.now })) }
{
    let events = outcomes.len() as u64;
    let journal = world.journal().len() as u64;
    let refused = count_refused(alloc, outcomes)?;
    let space = world.space(alloc)?;
    let nodes = space.len() as u64;
    drop(space);
    let mut line = Vec::new(alloc);
    generated_line(alloc, n, events, journal, refused, nodes, &mut line)?;
    Ok(line)
}

/// How many entries of logs were refused.
fn count_refused(alloc: Global, outcomes: &List<Outcome>) -> Result<u64, Memory>
    ensures { IfOk result (λ count. count ≡ length (refused_in outcomes.now)) }
{
    let mut numbers = Vec::new(alloc);
    for o in outcomes.as_slice() {
        add_refused(&o.notes, &mut numbers)?;
    }
    Ok(numbers.as_slice().len() as u64)
}

/// Adds the numbers of the entries that were refused with these notes.
fn add_refused(notes: &List<Note>, numbers: &mut Vec<u64>) -> Result<(), Memory>
    ensures { OnOk result (numbers.new.items ≡ numbers.old.items ++ flat_map refused_by notes.now) }
{
    for note in notes.as_slice() {
        add_refused_by(note, numbers)?;
    }
    Ok(())
}

/// Adds the numbers of the entries that were refused with this note.
fn add_refused_by(note: &Note, numbers: &mut Vec<u64>) -> Result<(), Memory>
    ensures { OnOk result (numbers.new.items ≡ numbers.old.items ++ refused_by note.now) }
{
    match note {
        Note::Server(ServerNote::Admits { end, gaps, .. }) => {
            add_ended(end, numbers)?;
            numbers.extend_from_slice(gaps.as_slice())?;
            Ok(())
        }
        _ => Ok(()),
    }
}

/// The number of the entry one of whose leases had ended, where that is the end.
fn add_ended(end: &End, numbers: &mut Vec<u64>) -> Result<(), Memory>
    ensures { OnOk result (numbers.new.items ≡ numbers.old.items ++ ended_in end.now) }
{
    match end {
        End::Ended { n, .. } => {
            numbers.push(*n)?;
            Ok(())
        }
        _ => Ok(()),
    }
}
