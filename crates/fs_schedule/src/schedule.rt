//! Schedules, read line by line.
ghost use Rattle.std.specs.Prelude.{◌≡◌, ◌≤◌, ◌<◌, ◌+◌, ◌⊎◌, ℕ, true, false, length, IfOk, IfErr, OnOk, IsErrOf};
ghost use Rattle.std.specs.List.{AllByRecursion};
ghost use Rattle.fs_schedule.specs.declared.error.Which.{Which as Limited};
ghost use Rattle.fs_schedule.specs.Spelling.{FitsHead, FitsEvent, has_many, names_late};
ghost use Rattle.fs_schedule.specs.Lines.{lines_of};
ghost use Rattle.fs_schedule.specs.Skew.{IsTimely, IsUntimely};
ghost use Rattle.fs_schedule.specs.Faults.{AtLine, IsSkewed, AreLinesOf, Passes, HeadPasses, HeadHas, LineHas, AreEventLines, FaultsAt, PassesLimit, IsOutside, IsScheduleText, IsFirstFault};

use crate::cut::next_line;
use crate::error::{ScheduleError, Which};
use crate::event::{Event, Head, Schedule};
use crate::head::{has_many, head_at};
use crate::limits::{BYTES, EVENTS};
use crate::line::{event_at, names_late};
use crate::skew::untimely_line;
use crate::unread::Unread;
use fs_ident::List;
use std::alloc::Global;

/// The schedule that the bytes are the text of, within the limits. Otherwise the first faulty line, counted
/// from 1: `BadLine` where it is outside the grammar, else `Limit` with the limit that it passes. Where all lines
/// pass, `Skewed` with the first line whose reading is more than the skew before an earlier one, and the first such
/// earlier line.
pub fn read_schedule(alloc: Global, bytes: &[u8]) -> Result<Schedule, ScheduleError>
    ensures ok { IfOk result (λ s. IsScheduleText s bytes.now) }
    ensures form { IfOk result (λ s. FitsHead s.head) }
    ensures fits { IfOk result (λ s. AllByRecursion (FitsEvent s.head) s.events) }
    ensures bad_line { (line : ℕ) → IsErrOf result (ScheduleError.BadLine line) →
        IsFirstFault (AtLine line IsOutside) bytes.now }
    ensures limit { (which : Limited) (at : ℕ) → IsErrOf result (ScheduleError.Limit which at) →
        IsFirstFault (AtLine at (PassesLimit which)) bytes.now }
    ensures skewed { (line earlier : ℕ) → IsErrOf result (ScheduleError.Skewed line earlier) →
        IsFirstFault (IsSkewed line earlier) bytes.now }
{
    let schedule = read_lines(alloc, bytes)?;
    within_skew(schedule)
}

/// A schedule is refused exactly where a reading is more than the skew before an earlier one.
fn within_skew(schedule: Schedule) -> Result<Schedule, ScheduleError>
    ensures ok { IfOk result (λ s.
        (s ≡ schedule) × IsTimely schedule.head schedule.events) }
    ensures err { IfErr result (λ e. (line : ℕ) × (earlier : ℕ) ×
        (e ≡ ScheduleError.Skewed line earlier) ×
        IsUntimely schedule.head schedule.events line earlier) }
{
    match untimely_line(&schedule) {
        None => Ok(schedule),
        Some((line, earlier)) => {
            drop(schedule);
            Err(ScheduleError::Skewed { line, earlier })
        }
    }
}

/// Reads the lines of a schedule; the readings may fall back by any time.
fn read_lines(alloc: Global, bytes: &[u8]) -> Result<Schedule, ScheduleError>
    ensures ok { IfOk result (λ s. AreLinesOf s (lines_of bytes.now)) }
    ensures form { IfOk result (λ s. FitsHead s.head) }
    ensures fits { IfOk result (λ s. AllByRecursion (FitsEvent s.head) s.events) }
    ensures bad_line { (line : ℕ) → IsErrOf result (ScheduleError.BadLine line) →
        IsFirstFault (AtLine line IsOutside) bytes.now }
    ensures limit { (which : Limited) (at : ℕ) → IsErrOf result (ScheduleError.Limit which at) →
        IsFirstFault (AtLine at (PassesLimit which)) bytes.now }
    ensures not_skewed { (line earlier : ℕ) →
        IsErrOf result (ScheduleError.Skewed line earlier) → ⊥ }
{
    let (first, rest) = next_line(bytes);
    let head = read_head(alloc, first)?;
    match rest {
        Some(rest) => {
            let events = read_events(alloc, head, rest)?;
            Ok(Schedule { head, events })
        }
        None => {
            let events = List::new(alloc);
            Ok(Schedule { head, events })
        }
    }
}

fn read_head(alloc: Global, line: &[u8]) -> Result<Head, ScheduleError>
    ensures ok { IfOk result (λ head. HeadPasses head line.now) }
    ensures form { IfOk result FitsHead }
    ensures bad_line { (n : ℕ) → IsErrOf result (ScheduleError.BadLine n) →
        (n ≡ 1) × HeadHas IsOutside line.now }
    ensures limit { (which : Limited) (n : ℕ) → IsErrOf result (ScheduleError.Limit which n) →
        (n ≡ 1) × HeadHas (PassesLimit which) line.now }
    ensures not_skewed { (line earlier : ℕ) →
        IsErrOf result (ScheduleError.Skewed line earlier) → ⊥ }
{
    within_length(line, 1)?;
    match head_at(alloc, line) {
        Ok(head) => within_servers(head),
        Err(e) => Err(unread_line(e, 1)),
    }
}

/// Why a line is refused that is not read.
pub fn unread_line(e: Unread, line: u64) -> ScheduleError
    ensures outside { e ≡ Unread.Outside → result ≡ ScheduleError.BadLine line }
    ensures memory { e ≡ Unread.Memory → result ≡ ScheduleError.Memory }
{
    match e {
        Unread::Outside => ScheduleError::BadLine { line },
        Unread::Memory => ScheduleError::Memory,
    }
}

/// The line of this number is refused exactly where it has more bytes than the limit.
pub fn within_length(line: &[u8], at: u64) -> Result<(), ScheduleError>
    ensures short { OnOk result (length line.now ≤ BYTES) }
    ensures long { IfErr result (λ e.
        (BYTES < length line.now) × (e ≡ ScheduleError.Limit Limited.Bytes at)) }
{
    if BYTES < line.len() {
        return Err(ScheduleError::Limit {
            which: Which::Bytes,
            at,
        });
    }
    Ok(())
}

/// The first line is refused exactly where its form has more servers than the limit.
fn within_servers(head: Head) -> Result<Head, ScheduleError>
    ensures few { IfOk result (λ kept. (kept ≡ head) × (has_many head ≡ false)) }
    ensures many { IfErr result (λ e.
        (has_many head ≡ true) × (e ≡ ScheduleError.Limit Limited.Servers 1)) }
{
    if has_many(head) {
        return Err(ScheduleError::Limit {
            which: Which::Servers,
            at: 1,
        });
    }
    Ok(head)
}

fn read_events(alloc: Global, head: Head, text: &[u8]) -> Result<List<Event>, ScheduleError>
    ensures ok { IfOk result (λ es. AreEventLines head 0 es (lines_of text.now)) }
    ensures bad_line { (n : ℕ) → IsErrOf result (ScheduleError.BadLine n) →
        FaultsAt IsOutside head n 0 (lines_of text.now) }
    ensures limit { (which : Limited) (n : ℕ) → IsErrOf result (ScheduleError.Limit which n) →
        FaultsAt (PassesLimit which) head n 0 (lines_of text.now) }
    ensures not_skewed { (line earlier : ℕ) →
        IsErrOf result (ScheduleError.Skewed line earlier) → ⊥ }
{
    let mut events = List::new(alloc);
    let mut rest = text;
    loop {
        let (line, after) = next_line(rest);
        let event = read_line(alloc, head, events.len(), line)?;
        events.push(event)?;
        match after {
            Some(more) => rest = more,
            None => return Ok(events),
        }
    }
}

/// The event of a line that stands behind so many events.
fn read_line(alloc: Global, head: Head, before: usize, line: &[u8]) -> Result<Event, ScheduleError>
    requires { before ≤ EVENTS }
    ensures ok { IfOk result (λ e. Passes head before e line.now) }
    ensures bad_line { (n : ℕ) → IsErrOf result (ScheduleError.BadLine n) → (n ≡ before + 2) ×
        LineHas IsOutside head before line.now }
    ensures limit { (which : Limited) (n : ℕ) → IsErrOf result (ScheduleError.Limit which n) →
        (n ≡ before + 2) × LineHas (PassesLimit which) head before line.now }
    ensures not_skewed { (line earlier : ℕ) →
        IsErrOf result (ScheduleError.Skewed line earlier) → ⊥ }
{
    let at = before as u64 + 2;
    within_length(line, at)?;
    match event_at(alloc, head, line) {
        Ok(event) => within_limits(event, before),
        Err(e) => Err(unread_line(e, at)),
    }
}

/// A line behind so many events is refused exactly where its session is above the limit, or where they are as many as a
/// schedule has.
fn within_limits(event: Event, before: usize) -> Result<Event, ScheduleError>
    requires { before ≤ EVENTS }
    ensures ok { IfOk result (λ e.
        (e ≡ event) × (names_late event.what ≡ false) × (before < EVENTS)) }
    ensures err { IfErr result (λ e.
        ((names_late event.what ≡ true) ×
        (e ≡ ScheduleError.Limit Limited.Sessions (before + 2))) ⊎
        ((names_late event.what ≡ false) × (EVENTS ≤ before) ×
        (e ≡ ScheduleError.Limit Limited.Events (before + 2)))) }
{
    let at = before as u64 + 2;
    if names_late(&event.what) {
        drop(event);
        return Err(ScheduleError::Limit {
            which: Which::Sessions,
            at,
        });
    }
    if EVENTS <= before {
        drop(event);
        return Err(ScheduleError::Limit {
            which: Which::Events,
            at,
        });
    }
    Ok(event)
}
