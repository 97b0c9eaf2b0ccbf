//! What is written of a schedule's run.
ghost use Rattle.std.specs.Prelude.{◌≡◌, ◌++◌, IfOk, OnOk, None, Some, IsErrOf, ℕ};
ghost use Rattle.fs_msg.specs.declared.core_error.Counter.{Counter as TheCounter};
ghost use Rattle.fs_report.specs.Json.{journal_json};
ghost use Rattle.fs_report.specs.Report.{outcomes_text, items_text, report_text};
ghost use Rattle.fs_schedule.specs.Spelling.{FitsHead};
ghost use Rattle.fs_world.specs.Carried.{AllCarry};
ghost use Rattle.fs_world.specs.Refusals.{NoneHas, is_link_strange};
ghost use Rattle.fs_world.specs.World.{AtCounter, AtPackets, first_world, run_of, stop_of};
ghost use Rattle.farsite.specs.Fitting.{MayHappen};
ghost use Rattle.farsite.specs.Headline.{text_of};
ghost use Rattle.farsite.specs.declared.run_error.RunError.TheVariants.{Packets, Spent};

use crate::run::run;
use crate::run_error::RunError;
use fs_ident::{List, Memory};
use fs_model::Space;
use fs_msg::Item;
use fs_report::{done_line, item_line, journal_json, outcome_line, space_lines};
use fs_schedule::{Outcome, Schedule};
use fs_words::Format;
use fs_world::World;
use std::alloc::Global;

/// The schedule's run in the format. `Spent` where an event needs a number after a counter's last one, `Packets`
/// where more packets are sent than the limit.
pub(crate) fn text_of(
    alloc: Global,
    format: Format,
    schedule: &Schedule,
) -> Result<Vec<u8>, RunError>
    requires head { FitsHead schedule.now.head }
    requires events { MayHappen (first_world schedule.now.head) schedule.now.events }
    ensures ok { IfOk result (λ v. v.items ≡ text_of format (run_of schedule.now)) }
    ensures known { OnOk result (NoneHas is_link_strange (run_of schedule.now).outcomes) }
    ensures carried { OnOk result (AllCarry (first_world schedule.now.head) schedule.now.events) }
    ensures whole { OnOk result (stop_of schedule.now ≡ None) }
    ensures spent { (counter : TheCounter) → IsErrOf result (Spent counter) →
        stop_of schedule.now ≡ Some (AtCounter counter) }
    ensures packets { (line : ℕ) → IsErrOf result (Packets line) →
        stop_of schedule.now ≡ Some (AtPackets line) }
{
    let (world, outcomes) = run(alloc, schedule)?;
    let text = text(alloc, format, &world, &outcomes);
    world.discard();
    Ok(text?)
}

/// A world and what its events came to, in the format.
fn text(
    alloc: Global,
    format: Format,
    world: &World,
    outcomes: &List<Outcome>,
) -> Result<Vec<u8>, Memory>
    ensures { IfOk result (λ v. v.items ≡
        text_of format (record { world = world.now; outcomes = outcomes.now })) }
{
    let space = world.space(alloc)?;
    match format {
        Format::Report => report(alloc, outcomes, world.journal(), &space),
        Format::Json => json(alloc, world.journal(), &space),
    }
}

/// The journal and the namespace in JSON.
fn json(alloc: Global, journal: &List<Item>, space: &Space) -> Result<Vec<u8>, Memory>
    ensures { IfOk result (λ v. v.items ≡ journal_json journal.now space.now) }
{
    let mut text = Vec::new(alloc);
    journal_json(alloc, journal, space, &mut text)?;
    Ok(text)
}

/// The lines of what was told, of the journal and of the namespace at the end.
fn report(
    alloc: Global,
    outcomes: &List<Outcome>,
    journal: &List<Item>,
    space: &Space,
) -> Result<Vec<u8>, Memory>
    ensures { IfOk result (λ v. v.items ≡ report_text outcomes.now journal.now space.now) }
{
    let mut report = Vec::new(alloc);
    write_outcomes(alloc, outcomes, &mut report)?;
    items(alloc, journal, &mut report)?;
    space_lines(alloc, space, &mut report)?;
    let events = outcomes.len() as u64;
    let admitted = journal.len() as u64;
    let nodes = space.len() as u64;
    done_line(alloc, events, admitted, nodes, &mut report)?;
    Ok(report)
}

fn write_outcomes(alloc: Global, all: &List<Outcome>, out: &mut Vec<u8>) -> Result<(), Memory>
    ensures { OnOk result (out.new.items ≡ out.old.items ++ outcomes_text 1 all.now) }
{
    for (at, o) in all.as_slice().iter().enumerate() {
        outcome_line(alloc, at as u64 + 1, o, out)?;
    }
    Ok(())
}

fn items(alloc: Global, all: &List<Item>, out: &mut Vec<u8>) -> Result<(), Memory>
    ensures { OnOk result (out.new.items ≡ out.old.items ++ items_text 1 all.now) }
{
    for (at, i) in all.as_slice().iter().enumerate() {
        item_line(alloc, at as u64 + 1, i, out)?;
    }
    Ok(())
}
