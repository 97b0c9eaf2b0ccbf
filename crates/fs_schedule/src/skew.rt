//! How far readings fall back.
ghost use Rattle.std.specs.Prelude.{◌+◌, IfSome, IfNone};
ghost use Rattle.fs_schedule.specs.Skew.{IsWithinSkew, IsFirstSkew, IsTimely, IsUntimely};
ghost use Rattle.fs_schedule.specs.Ahead.{AllReadBelow, IsFirstAhead};

use crate::event::{Event, Head, Schedule};

/// The first line whose reading is more than the skew before an earlier one, and the first such earlier line.
pub fn untimely_line(schedule: &Schedule) -> Option<(u64, u64)>
    ensures found { IfSome result
        (λ p. IsUntimely schedule.now.head schedule.now.events p.0 p.1) }
    ensures none { IfNone result (IsTimely schedule.now.head schedule.now.events) }
{
    match schedule.head {
        Head::Direct => None,
        Head::Servers { skew, .. } => first_skew(skew, schedule.events.as_slice()),
    }
}

/// The first of the events whose reading is more than `skew` before an earlier one, and the first such earlier one.
fn first_skew(skew: u64, events: &[Event]) -> Option<(u64, u64)>
    ensures found { IfSome result (λ p. IsFirstSkew skew events.now p.0 p.1) }
    ensures none { IfNone result (IsWithinSkew skew events.now) }
{
    let mut greatest: u64 = 0;
    for at in 0..events.len() {
        let reading = events[at].reading;
        if skew < greatest.saturating_sub(reading) {
            match first_ahead(skew, reading, &events[..at]) {
                Some(earlier) => return Some((at as u64 + 2, earlier as u64 + 2)),
                None => unreachable!(),
            }
        }
        greatest = greatest.max(reading);
    }
    None
}

/// The place of the first event that is more than the skew ahead of the reading.
fn first_ahead(skew: u64, reading: u64, events: &[Event]) -> Option<usize>
    ensures found { IfSome result (λ at. IsFirstAhead (reading + skew) events.now at) }
    ensures none { IfNone result (AllReadBelow (reading + skew) events.now) }
{
    for at in 0..events.len() {
        if skew < events[at].reading.saturating_sub(reading) {
            return Some(at);
        }
    }
    None
}
