//! Made schedules.
ghost use Rattle.std.specs.Prelude.{◌≡◌, ◌≤◌, ◌∷◌, [], ◌++◌, IfOk, OnOk};
ghost use Rattle.fs_schedule.specs.Made.{asks, block, block_at, blocks, creates_dir, each, made, moves_before, session, state_after, tells, turns, with_event, with_events};
ghost use Rattle.fs_schedule.specs.declared.event.What.TheVariants as happens;

use crate::drawn_op::{create_dir, dir_id, drawn_op, move_dir};
use crate::draws::draws_from;
use crate::event::{Event, Head, Schedule, What};
use fs_ident::{List, Memory, Peer, Session, Twin};
use fs_model::Op;
use std::alloc::Global;

/// The form of every made schedule.
const HEAD: Head = Head::Servers {
    servers: 3,
    skew: 0,
    term: 1_000_000,
};

/// The schedule that is made from a number: six sessions ask three servers for operations that are
/// drawn, every packet arrives, and two directories go to other servers.
pub fn make(alloc: Global, n: u64) -> Result<Schedule, Memory>
    ensures { IfOk result (λ s. s ≡ made n) }
{
    let mut events = List::new(alloc);
    add_joins(&mut events)?;
    add_dirs(alloc, &mut events)?;
    add_blocks(alloc, n, &mut events)?;
    Ok(Schedule { head: HEAD, events })
}

fn add_joins(events: &mut List<Event>) -> Result<(), Memory>
    ensures { OnOk result (events.new ≡
        with_events events.old (each (λ k. happens.Join (session k) ∷ []) 6)) }
{
    for k in 0..6u16 {
        add(events, What::Join(Session(k + 1)))?;
    }
    Ok(())
}

fn add_dirs(alloc: Global, events: &mut List<Event>) -> Result<(), Memory>
    ensures { OnOk result (events.new ≡
        with_events events.old (each (λ k. block (session 1) (creates_dir k)) 8)) }
{
    for k in 0..8u8 {
        add_block(alloc, Session(1), create_dir(alloc, k + 1)?, events)?;
    }
    Ok(())
}

fn add_blocks(alloc: Global, n: u64, events: &mut List<Event>) -> Result<(), Memory>
    ensures { OnOk result (events.new ≡ with_events events.old (blocks n 1000)) }
{
    let mut state = n;
    for b in 0..1000u32 {
        add_moves(alloc, b, events)?;
        state = add_block_at(alloc, b, state, events)?;
    }
    Ok(())
}

/// Adds what stands before the block of a number.
fn add_moves(alloc: Global, b: u32, events: &mut List<Event>) -> Result<(), Memory>
    ensures { OnOk result (events.new ≡ with_events events.old (moves_before b)) }
{
    match b {
        300 => add_move(alloc, 1, events),
        600 => add_move(alloc, 2, events),
        _ => Ok(()),
    }
}

/// The first server gives the directory of a number to the server of this number.
fn add_move(alloc: Global, k: u8, events: &mut List<Event>) -> Result<(), Memory>
    requires { 1 ≤ k }
    ensures { OnOk result (events.new ≡ with_event events.old (happens.Move 0 (k ∷ []) k)) }
{
    let prefix = dir_id(alloc, u32::from(k))?;
    add(
        events,
        What::Move {
            at: 0,
            prefix,
            to: k,
        },
    )
}

/// Adds the block of a number, where this is the state of the draws before it, and tells the state
/// after it.
fn add_block_at(alloc: Global, b: u32, state: u64, events: &mut List<Event>) -> Result<u64, Memory>
    ensures events { OnOk result (events.new ≡ with_events events.old (block_at b state)) }
    ensures state { IfOk result (λ x. x ≡ state_after b state) }
{
    if 900 <= b && b < 910 {
        add_block(alloc, Session(1), move_dir(alloc)?, events)?;
        return Ok(state);
    }
    let draws = draws_from(state);
    let (op, state) = drawn_op(alloc, &draws)?;
    add_block(alloc, Session(draws.session), op, events)?;
    Ok(state)
}

/// Adds 52 events: the session asks for the operation four times, and then each session has its
/// turn.
fn add_block(
    alloc: Global,
    session: Session,
    op: Op,
    events: &mut List<Event>,
) -> Result<(), Memory>
    ensures { OnOk result (events.new ≡ with_events events.old (block session op)) }
{
    let added = add_asks_and_turns(alloc, session, &op, events);
    drop(op);
    added
}

fn add_asks_and_turns(
    alloc: Global,
    session: Session,
    op: &Op,
    events: &mut List<Event>,
) -> Result<(), Memory>
    ensures { OnOk result (events.new ≡
        with_events events.old (block session op.now)) }
{
    add_asks(alloc, session, op, events)?;
    add_turns(events)?;
    Ok(())
}

/// The session asks for the operation four times.
fn add_asks(
    alloc: Global,
    session: Session,
    op: &Op,
    events: &mut List<Event>,
) -> Result<(), Memory>
    ensures { OnOk result (events.new ≡
        with_events events.old (each (λ _. asks session op.now) 4)) }
{
    for k in 0..4u8 {
        add_ask(alloc, session, op, events)?;
    }
    Ok(())
}

/// Each session has its turn.
fn add_turns(events: &mut List<Event>) -> Result<(), Memory>
    ensures { OnOk result (events.new ≡ with_events events.old (each turns 6)) }
{
    for k in 0..6u16 {
        add_turn(k + 1, events)?;
    }
    Ok(())
}

/// The session asks for the operation, and what is on its way arrives.
fn add_ask(alloc: Global, session: Session, op: &Op, events: &mut List<Event>) -> Result<(), Memory>
    ensures { OnOk result (events.new ≡ with_events events.old (asks session op.now)) }
{
    add(events, What::Do(session, op.copy(alloc)?))?;
    add_tells(6, events)
}

/// A turn of the session of this number, and what is on its way arrives.
fn add_turn(k: u16, events: &mut List<Event>) -> Result<(), Memory>
    ensures { OnOk result (events.new ≡ with_events events.old (turns k)) }
{
    add(events, What::Turn(Peer::Client(Session(k))))?;
    add_tells(3, events)
}

/// The next packet arrives, so many times.
fn add_tells(many: u8, events: &mut List<Event>) -> Result<(), Memory>
    ensures { OnOk result (events.new ≡ with_events events.old (tells many)) }
{
    for k in 0..many {
        add(events, What::Tell(None))?;
    }
    Ok(())
}

/// One more event, whose reading is its number.
fn add(events: &mut List<Event>, what: What) -> Result<(), Memory>
    ensures { OnOk result (events.new ≡ with_event events.old what) }
{
    let reading = events.as_slice().len() as u64 + 1;
    events.push(Event { reading, what })
}
