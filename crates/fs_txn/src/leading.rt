//! Transactions that a server leads, until all of their parts have voted, and behind that until all that was decided is done.
ghost use Rattle.std.specs.Prelude.{◌≡◌, ◌==◌, ◌<◌, ◌≤◌, ◌^◌, ◌++◌, ℕ, length, not, is_some, slice_get, slice_set, vec_len, vec_capacity, IfOk, OnOk, OnErr};
ghost use Rattle.std.specs.List.{filter, flat_map, list_any};
ghost use Rattle.std.specs.Option.{option_copied};
ghost use Rattle.fs_txn.specs.Deciding.{told_effects};
ghost use Rattle.fs_txn.specs.Leading.{awaits_done, elsewhere, ending_of, leading_of, own_effects, said_yes, with_ending, with_leading, without_done, without_ending, without_leading, yes_from};

use crate::decision::Decision;
use crate::leader::Leader;
use fs_field::{Effect, Vote};
use fs_ident::{List, Memory, Session, Twin, TxnNo, add_copy, copy_two};
use fs_record::LedEnd;
use std::alloc::Global;

/// A transaction of which votes are awaited.
#[derive(Debug, Drop)]
pub struct Leading {
    pub leader: Leader,
    /// For each part the server that was asked last.
    pub at: List<u8>,
}

/// A transaction that is decided, and that other servers were told of.
#[derive(Debug, Drop)]
pub struct Ending {
    pub txn: TxnNo,
    /// The session whose operation it is.
    pub session: Session,
    /// What the session will be told.
    pub end: LedEnd,
    /// The parts that are not done yet, each with its server.
    pub awaits: List<(u8, u8)>,
}

/// The transaction of this number, of which votes are awaited.
pub fn find_leading(leading: &[Leading], txn: TxnNo) -> Option<&Leading>
    ensures { option_copied result ≡ leading_of txn leading.now }
{
    leading.iter().find(|l| l.leader.txn == txn)
}

/// Puts the transaction behind the others, in the place of any of its number, where there is room for one more.
pub fn put_leading(leading: &mut Vec<Leading>, l: Leading)
    requires { vec_len leading.old < vec_capacity leading.old }
    ensures { leading.new.items ≡ with_leading l leading.old.items }
{
    drop_leading(leading, l.leader.txn);
    match leading.push(l) {
        Ok(()) => {}
        Err(_) => unreachable!(),
    }
}

/// Drops the transaction of this number.
pub fn drop_leading(leading: &mut Vec<Leading>, txn: TxnNo)
    ensures others { leading.new.items ≡ without_leading txn leading.old.items }
    ensures fewer { vec_len leading.new ≤ vec_len leading.old }
    ensures room { vec_capacity leading.new ≡ vec_capacity leading.old }
{
    leading.retain(|l| !(l.leader.txn == txn));
}

/// The transaction of this number, of which other servers have to tell that all is done.
pub fn find_ending(ending: &[Ending], txn: TxnNo) -> Option<&Ending>
    ensures { option_copied result ≡ ending_of txn ending.now }
{
    ending.iter().find(|x| x.txn == txn)
}

/// Puts the transaction behind the others, in the place of any of its number, unless nothing of it is awaited.
/// `Memory` when out of memory; the others are as they were then.
pub fn keep_ending(ending: &mut Vec<Ending>, x: Ending) -> Result<(), Memory>
    ensures ok { OnOk result (ending.new.items ≡ with_ending x ending.old.items) }
    ensures err { OnErr result (ending.new.items ≡ ending.old.items) }
{
    ending.reserve(1)?;
    put_ending(ending, x);
    Ok(())
}

/// Puts the transaction behind the others as `keep_ending` does; there is room for one more.
pub fn put_ending(ending: &mut Vec<Ending>, x: Ending)
    requires { vec_len ending.old < vec_capacity ending.old }
    ensures { ending.new.items ≡ with_ending x ending.old.items }
{
    drop_ending(ending, x.txn);
    if x.awaits.as_slice().get(0).is_some() {
        match ending.push(x) {
            Ok(()) => {}
            Err(_) => unreachable!(),
        }
    }
}

fn drop_ending(ending: &mut Vec<Ending>, txn: TxnNo)
    ensures others { ending.new.items ≡ without_ending txn ending.old.items }
    ensures fewer { vec_len ending.new ≤ vec_len ending.old }
    ensures room { vec_capacity ending.new ≡ vec_capacity ending.old }
{
    ending.retain(|x| !(x.txn == txn));
}

/// The parts that said Yes at other servers than `me`, each with its server.
pub fn elsewhere(alloc: Global, me: u8, l: &Leading) -> Result<List<(u8, u8)>, Memory>
    requires { length l.now.leader.votes < 2 ^ 8 }
    ensures { IfOk result (λ parts. parts ≡ elsewhere me l.now) }
{
    let mut parts = yes_parts(alloc, l.leader.votes.as_slice(), l.at.as_slice())?;
    retain_elsewhere(parts.items_mut(), me);
    Ok(parts)
}

fn retain_elsewhere(parts: &mut Vec<(u8, u8)>, me: u8)
    ensures { parts.new.items ≡ filter (λ (x : ℕ × ℕ). not (x.1 == me)) parts.old.items }
{
    parts.retain(|x| x.1 != me);
}

/// The effects of the decision on the parts that said Yes here.
pub fn own_effects(
    alloc: Global,
    me: u8,
    l: &Leading,
    decision: &Decision,
) -> Result<List<Effect>, Memory>
    requires { length l.now.leader.votes < 2 ^ 8 }
    ensures { IfOk result (λ effects. effects ≡ own_effects me l.now decision.now) }
{
    let mut parts = yes_parts(alloc, l.leader.votes.as_slice(), l.at.as_slice())?;
    retain_own(parts.items_mut(), me);
    effects_of_all(alloc, parts.as_slice(), decision)
}

fn retain_own(parts: &mut Vec<(u8, u8)>, me: u8)
    ensures { parts.new.items ≡ filter (λ (x : ℕ × ℕ). x.1 == me) parts.old.items }
{
    parts.retain(|x| x.1 == me);
}

/// The effects of the decision on these parts, in their order.
fn effects_of_all(
    alloc: Global,
    parts: &[(u8, u8)],
    decision: &Decision,
) -> Result<List<Effect>, Memory>
    ensures { IfOk result (λ effects. effects ≡
        flat_map (λ (x : ℕ × ℕ). told_effects decision.now x.0) parts.now) }
{
    let mut effects = List::new(alloc);
    for part in parts {
        add_all(alloc, &mut effects, decision.effects_of(part.0))?;
    }
    Ok(effects)
}

fn add_all(alloc: Global, effects: &mut List<Effect>, more: &[Effect]) -> Result<(), Memory>
    ensures { OnOk result (effects.new ≡ effects.old ++ more.now) }
{
    for e in more {
        add_copy(alloc, effects, e)?;
    }
    Ok(())
}

/// The parts that said Yes, by their numbers, each with the server that was asked last.
fn yes_parts(alloc: Global, votes: &[Option<Vote>], at: &[u8]) -> Result<List<(u8, u8)>, Memory>
    requires { length votes.now < 2 ^ 8 }
    ensures { IfOk result (λ parts. parts ≡ yes_from 0 votes.now at.now) }
{
    let mut parts = List::new(alloc);
    for (i, vote) in votes.iter().enumerate() {
        let Some(server) = at.get(i) else {
            return Ok(parts);
        };
        if said_yes(vote) {
            parts.push((i as u8, *server))?;
        }
    }
    Ok(parts)
}

fn said_yes(vote: &Option<Vote>) -> bool
    ensures { result ≡ said_yes vote.now }
{
    matches!(vote, Some(Vote::Yes))
}

impl Ending {
    /// Whether it is awaited that the part is done.
    pub fn awaits(&self, number: u8) -> bool
        ensures { result ≡ awaits_done number self.now.awaits }
    {
        has_number(self.awaits.as_slice(), number)
    }

    /// The part is done.
    pub fn forget(&mut self, number: u8)
        ensures { self.new ≡ without_done number self.old }
    {
        retain_others(self.awaits.items_mut(), number);
    }

    /// Whether another part is awaited than this one.
    pub fn awaits_others(&self, number: u8) -> bool
        ensures { result ≡ is_some (slice_get (without_done number self.now).awaits 0) }
    {
        has_other_number(self.awaits.as_slice(), number)
    }
}

fn has_number(awaits: &[(u8, u8)], number: u8) -> bool
    ensures { result ≡ awaits_done number awaits.now }
{
    awaits.iter().any(|x| x.0 == number)
}

fn has_other_number(awaits: &[(u8, u8)], number: u8) -> bool
    ensures { result ≡ list_any (λ (x : ℕ × ℕ). not (x.0 == number)) awaits.now }
{
    awaits.iter().any(|x| x.0 != number)
}

fn retain_others(awaits: &mut Vec<(u8, u8)>, number: u8)
    ensures { awaits.new.items ≡ filter (λ (x : ℕ × ℕ). not (x.0 == number)) awaits.old.items }
{
    awaits.retain(|x| x.0 != number);
}

impl Leading {
    /// The server is asked for the part of this number.
    pub fn ask(&mut self, number: u8, to: u8)
        ensures { self.new ≡ record self.old { at = slice_set self.old.at number to } }
    {
        if (number as usize) < self.at.len() {
            self.at.replace(number as usize, to);
        }
    }
}

impl Twin for Leading {
    fn copy(&self, alloc: Global) -> Result<Leading, Memory> {
        let (leader, at) = copy_two(alloc, &self.leader, &self.at)?;
        Ok(Leading { leader, at })
    }

    fn discard(self) {
        drop(self);
    }
}

impl Twin for Ending {
    fn copy(&self, alloc: Global) -> Result<Ending, Memory> {
        let (end, awaits) = copy_two(alloc, &self.end, &self.awaits)?;
        Ok(Ending {
            txn: self.txn,
            session: self.session,
            end,
            awaits,
        })
    }

    fn discard(self) {
        drop(self);
    }
}
