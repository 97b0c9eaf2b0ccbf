//! The first events of a made schedule, beside a text that is made here from the rules alone.
use crate::{same, shows};
use fs_schedule::{Event, make, read_schedule};
use std::alloc::Global;
use std::process::Abort;
use std::test::Fail;

/// How many of the blocks behind the directories are looked at.
const BLOCKS: u32 = 24;

/// How many events a made schedule has.
const EVENTS: usize = 52_424;

/// A text that grows line by line, and the number of its last event.
#[derive(Drop)]
struct Text {
    lines: String,
    number: u64,
}

/// One more line.
fn add(alloc: Global, text: &mut Text, what: &str) -> Result<(), Fail> {
    text.number = text.number.wrapping_add(1);
    let line = format!(in alloc; "\n{} {what}", text.number)?;
    text.lines.push_str(&line)?;
    Ok(())
}

fn add_tells(alloc: Global, text: &mut Text, many: u32) -> Result<(), Fail> {
    for _ in 0..many {
        add(alloc, text, "tell next")?;
    }
    Ok(())
}

/// The block of a session and an operation.
fn add_block(alloc: Global, text: &mut Text, session: u64, op: &str) -> Result<(), Fail> {
    for _ in 0..4 {
        add(alloc, text, &format!(in alloc; "do c{session} {op}")?)?;
        add_tells(alloc, text, 6)?;
    }
    for c in 1..7u32 {
        add(alloc, text, &format!(in alloc; "turn c{c}")?)?;
        add_tells(alloc, text, 3)?;
    }
    Ok(())
}

/// A number from 0 below the bound, by arithmetic in 128 bits.
fn draw(x: &mut u128, bound: u128) -> u64 {
    *x = x
        .wrapping_mul(6_364_136_223_846_793_005)
        .wrapping_add(1_442_695_040_888_963_407)
        % 18_446_744_073_709_551_616;
    match bound {
        0 => 0,
        _ => (*x / 8_589_934_592 % bound) as u64,
    }
}

/// The operation of a kind; a file that is moved goes to the directory `t`.
fn op_of(alloc: Global, kind: u64, d: u64, j: u64, t: u64) -> Result<String, Fail> {
    Ok(match kind {
        0 => format!(in alloc; "create /{d} \"f{j}\" file")?,
        1 => format!(in alloc; "lookup /{d} \"f{j}\"")?,
        2 => format!(in alloc; "list /{d}")?,
        3 => format!(in alloc; "open /{d}/{j} 1 R -")?,
        4 => format!(in alloc; "close /{d}/{j} 1")?,
        5 => format!(in alloc; "info /{d}/{j}")?,
        6 => format!(in alloc; "rename /{d} \"f{j}\" /{t} \"f{j}\"")?,
        _ => format!(in alloc; "delete /{d} \"f{j}\"")?,
    })
}

/// The block that is drawn.
fn add_drawn(alloc: Global, text: &mut Text, x: &mut u128) -> Result<(), Fail> {
    let c = draw(x, 6).wrapping_add(1);
    let d = draw(x, 8).wrapping_add(1);
    let j = draw(x, 5).wrapping_add(1);
    let kind = draw(x, 8);
    let t = if kind == 6 {
        draw(x, 8).wrapping_add(1)
    } else {
        1
    };
    let op = op_of(alloc, kind, d, j, t)?;
    add_block(alloc, text, c, &op)
}

/// The text of the first events of what is made from the number.
fn first_events(alloc: Global, n: u64) -> Result<Text, Fail> {
    let mut text = Text {
        lines: String::from_str(alloc, "farsite 1 servers 3 skew 0 term 1000000")?,
        number: 0,
    };
    for c in 1..7u32 {
        add(alloc, &mut text, &format!(in alloc; "join c{c}")?)?;
    }
    for k in 1..9u32 {
        let op = format!(in alloc; "create / \"d{k}\" dir")?;
        add_block(alloc, &mut text, 1, &op)?;
    }
    let mut x = u128::from(n);
    for _ in 0..BLOCKS {
        add_drawn(alloc, &mut text, &mut x)?;
    }
    Ok(text)
}

/// The one event is the other.
fn is_event(rt: &impl Abort, alloc: Global, found: &Event, wanted: &Event) -> Result<(), Fail> {
    shows(rt, alloc, found, &format!(in alloc; "{wanted:?}")?)
}

/// The made events begin with these.
fn begin(rt: &impl Abort, alloc: Global, made: &[Event], first: &[Event]) -> Result<(), Fail> {
    for (at, wanted) in first.iter().enumerate() {
        match made.get(at) {
            Some(found) => is_event(rt, alloc, found, wanted)?,
            None => return Err(Fail::from("there are fewer events")),
        }
    }
    Ok(())
}

fn begins_with(rt: &impl Abort, alloc: Global, n: u64) -> Result<(), Fail> {
    let text = first_events(alloc, n)?;
    let first = read_schedule(alloc, text.lines.as_bytes())?;
    let made = make(alloc, n)?;
    same(rt, first.events.len() as u64, text.number);
    begin(rt, alloc, made.events.as_slice(), first.events.as_slice())
}

#[test]
fn first_made_events(rt: HostRuntime) -> Result<(), Fail> {
    begins_with(&rt, rt.alloc(), 1)?;
    begins_with(&rt, rt.alloc(), u64::MAX)
}

#[test]
fn how_many_made_events(rt: HostRuntime) -> Result<(), Fail> {
    let made = make(rt.alloc(), 1)?;
    same(&rt, made.events.len(), EVENTS);
    Ok(())
}
