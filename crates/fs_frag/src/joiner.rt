//! Segments joined to messages.
ghost use Rattle.std.specs.Prelude.{◌≡◌, ◌≤◌, ◌+◌, ◌++◌, [], ◌∷◌, ℕ, length, take, drop, IfOk, IsErrOf, OnOk, OnErr, Ok, Err, option_map, MatchOption, if◌then◌else◌};
ghost use Rattle.fs_frag.specs.Joined.{answer_of, held_after, answers, held_by, held_before, joined_of};

use crate::error::FragError;
use crate::joined::{Back, Joined};
use crate::segment::Segment;
use fs_ident::{List, Memory, Twin, number_in_front};
use std::alloc::Global;
use std::marker::Model;
use std::mem;

/// The segments so far of a message that is not whole yet. Contracts see their bytes.
#[derive(Debug, Drop)]
pub struct Joiner {
    held: Vec<u8>,
}

impl Model for Joiner {
    ghost use Rattle.std.specs.Prelude.{List, ℕ};

    ghost Value = { List ℕ };

    ghost view = { λ j. j.held.items };
}

impl Joiner {
    /// A joiner that holds nothing.
    pub fn new(alloc: Global) -> Joiner
        ensures { result ≡ [] }
    {
        Joiner {
            held: Vec::new(alloc),
        }
    }

    /// Takes the next segment, and gives the message that ends with it. `Over` where the segments since the
    /// last message hold more than their first eight bytes announce: it counts the bytes of the message alone,
    /// without those eight. After a message and after `Over` the joiner begins anew.
    pub fn add(&mut self, alloc: Global, s: &Segment) -> Result<Option<Vec<u8>>, FragError>
        ensures ok { IfOk result (λ given. answer_of (self.old ++ s.now) ≡
            Ok (option_map (λ message. message.items) given)) }
        ensures over { (have want : ℕ) → IsErrOf result (FragError.Over have want) →
            answer_of (self.old ++ s.now) ≡ Err (FragError.Over have want) }
        ensures goes_on { OnOk result (self.new ≡
            held_after (answer_of (self.old ++ s.now)) (self.old ++ s.now)) }
        ensures begins_anew { (have want : ℕ) → IsErrOf result (FragError.Over have want) →
            self.new ≡ [] }
        ensures unchanged { IsErrOf result FragError.Memory → self.new ≡ self.old }
    {
        let before = self.held.len();
        self.held.extend_from_slice(s.bytes())?;
        let answer = answer_of(alloc, &self.held);
        match answer {
            Ok(None) => {}
            Err(FragError::Memory) => self.held.truncate(before),
            _ => self.held.clear(),
        }
        answer
    }

    /// Takes the next segments, all of them or none, and gives what they complete, in order, and how to undo it. The
    /// bytes that are held already are not copied.
    pub fn add_all(
        &mut self,
        alloc: Global,
        segments: &[Segment],
    ) -> Result<(List<Joined>, Back), Memory>
        ensures joined { IfOk result (λ told. told.0 ≡ joined_of (answers self.old segments.now)) }
        ensures back { IfOk result (λ told. held_before told.1 self.new ≡ self.old) }
        ensures state { OnOk result (self.new ≡ held_by self.old segments.now) }
        ensures err { OnErr result (self.new ≡ self.old) }
    {
        let before = self.held.len();
        match join_and_cut(alloc, &mut self.held, segments) {
            Ok((joined, rest)) => Ok((joined, self.keep(before, rest))),
            Err(e) => {
                self.held.truncate(before);
                Err(e)
            }
        }
    }

    /// Holds the rest alone, if one is given, and tells how to hold the first bytes again, so many.
    fn keep(&mut self, before: usize, rest: Option<Vec<u8>>) -> Back
        requires { before ≤ length self.old }
        ensures back { held_before result self.new ≡ take before self.old }
        ensures rest { MatchOption rest (self.new ≡ self.old) (λ bytes. self.new ≡ bytes.items) }
    {
        match rest {
            None => Back::Front(before),
            Some(rest) => {
                let mut held = mem::replace(&mut self.held, rest);
                held.truncate(before);
                Back::All(List::from_vec(held))
            }
        }
    }

    /// Holds again what it held before.
    pub fn undo(&mut self, back: Back)
        ensures { self.new ≡ held_before back self.old }
    {
        match back {
            Back::Same => {}
            Back::Front(len) => self.held.truncate(len),
            Back::All(held) => self.held = held.into_vec(),
        }
    }
}

impl Twin for Joiner {
    fn copy(&self, alloc: Global) -> Result<Joiner, Memory> {
        Ok(Joiner {
            held: Vec::from_slice(alloc, &self.held)?,
        })
    }

    fn discard(self) {}
}

/// The message that the bytes hold, if it is whole.
fn answer_of(alloc: Global, bytes: &[u8]) -> Result<Option<Vec<u8>>, FragError>
    ensures ok { IfOk result (λ given. answer_of bytes.now ≡
        Ok (option_map (λ message. message.items) given)) }
    ensures over { (have want : ℕ) → IsErrOf result (FragError.Over have want) →
        answer_of bytes.now ≡ Err (FragError.Over have want) }
{
    let Some((want, message)) = number_in_front(bytes) else {
        return Ok(None);
    };
    let have = message.len() as u64;
    if have < want {
        return Ok(None);
    }
    if have > want {
        return Err(FragError::Over { have, want });
    }
    Ok(Some(Vec::from_slice(alloc, message)?))
}

/// Appends the segments. Tells what they complete, and where the bytes that are still waiting begin.
fn join_all(
    alloc: Global,
    held: &mut Vec<u8>,
    segments: &[Segment],
) -> Result<(List<Joined>, usize), Memory>
    ensures joined { IfOk result (λ told. told.0 ≡
        joined_of (answers held.old.items segments.now)) }
    ensures within { IfOk result (λ told. told.1 ≤ length held.new.items) }
    ensures waiting { IfOk result (λ told. drop told.1 held.new.items ≡
        held_by held.old.items segments.now) }
    ensures longer { length held.old.items ≤ length held.new.items }
    ensures front { take (length held.old.items) held.new.items ≡ held.old.items }
{
    let mut joined = List::new(alloc);
    let mut start = 0;
    for segment in segments {
        held.extend_from_slice(segment.bytes())?;
        if !still_wait(alloc, &held[start..], &mut joined)? {
            start = held.len();
        }
    }
    Ok((joined, start))
}

/// Tells whether the bytes still wait. If not, adds what they complete.
fn still_wait(alloc: Global, bytes: &[u8], joined: &mut List<Joined>) -> Result<bool, Memory>
    ensures joined { OnOk result (joined.new ≡ joined.old ++
        joined_of (answer_of bytes.now ∷ [])) }
    ensures waiting { IfOk result (λ wait. held_after (answer_of bytes.now) bytes.now ≡
        if wait then bytes.now else []) }
{
    match answer_of(alloc, bytes) {
        Ok(None) => return Ok(true),
        Ok(Some(message)) => joined.push(Joined::Whole(List::from_vec(message)))?,
        Err(FragError::Over { .. }) => joined.push(Joined::Over)?,
        Err(FragError::Memory) => return Err(Memory),
    }
    Ok(false)
}

/// Appends the segments. Tells what they complete, and the bytes that are still waiting where they are not all.
fn join_and_cut(
    alloc: Global,
    held: &mut Vec<u8>,
    segments: &[Segment],
) -> Result<(List<Joined>, Option<Vec<u8>>), Memory>
    ensures joined { IfOk result (λ told. told.0 ≡
        joined_of (answers held.old.items segments.now)) }
    ensures waiting { IfOk result (λ told. MatchOption told.1
        (held.new.items ≡ held_by held.old.items segments.now)
        (λ rest. rest.items ≡ held_by held.old.items segments.now)) }
    ensures longer { length held.old.items ≤ length held.new.items }
    ensures front { take (length held.old.items) held.new.items ≡ held.old.items }
{
    let (joined, start) = join_all(alloc, held, segments)?;
    if start == 0 {
        return Ok((joined, None));
    }
    let rest = Vec::from_slice(alloc, &held[start..])?;
    Ok((joined, Some(rest)))
}
