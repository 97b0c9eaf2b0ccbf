//! How a leader decides.
ghost use Rattle.std.specs.Prelude.{◌≡◌, Option, Some, map, IfOk};
ghost use Rattle.std.specs.Option.{option_copied};
ghost use Rattle.fs_field.specs.declared.used.Part.{Part as ThePart};
ghost use Rattle.fs_record.specs.LedEffects.{led_effects};
ghost use Rattle.fs_txn.specs.Deciding.{decision, agreed, by_path, by_files, again, commit, effects_on, end_of_place, end_of_vote, first_end, needs_path, reply_of};

use crate::decision::Decision;
use crate::leader::Leader;
use crate::mode::Mode2;
use crate::parting::has_file;
use fs_field::{Effect, Part, PathAnswer, Vote};
use fs_ident::{FileId, List, Memory, Twin, add_copy, zip_ok};
use fs_model::{Op, Reply};
use fs_record::{LedEnd, Why, led_effects};
use std::alloc::Global;

/// The decision of a leader whose parts have voted.
pub fn decided(
    alloc: Global,
    leader: &Leader,
    path: Option<&PathAnswer>,
) -> Result<Decision, Memory>
    ensures { IfOk result (λ d. d ≡ decision leader.now (option_copied path.entry)) }
{
    match first_end(alloc, leader.votes.as_slice())? {
        Some(end) => Ok(Decision::Abort { end }),
        None => agreed(alloc, leader, path),
    }
}

/// The end that the first vote that is not Yes calls for.
#[tactic(auto, using(crate::proofs::Steps::end_step))]
fn first_end(alloc: Global, votes: &[Option<Vote>]) -> Result<Option<LedEnd>, Memory>
    ensures { IfOk result (λ end. end ≡ first_end votes.now) }
{
    for vote in votes {
        let end = end_of_place(alloc, vote)?;
        if end.is_some() {
            return Ok(end);
        }
    }
    Ok(None)
}

/// The end that a place among the votes calls for.
fn end_of_place(alloc: Global, vote: &Option<Vote>) -> Result<Option<LedEnd>, Memory>
    ensures { IfOk result (λ end. end ≡ end_of_place vote.now) }
{
    match vote {
        Some(vote) => end_of_vote(alloc, vote),
        None => Ok(Some(LedEnd::Again { why: Why::Changed })),
    }
}

/// The end that a vote calls for, if it is not Yes.
fn end_of_vote(alloc: Global, vote: &Vote) -> Result<Option<LedEnd>, Memory>
    ensures { IfOk result (λ end. end ≡ end_of_vote vote.now) }
{
    match vote {
        Vote::Yes => Ok(None),
        Vote::Ended { lease, until, now } => Ok(Some(LedEnd::Ended {
            lease: *lease,
            until: *until,
            now: *now,
        })),
        Vote::PathsOut { no } => Ok(Some(LedEnd::Again {
            why: Why::PathsOut { no: *no },
        })),
        Vote::Moved { prefix, to } => Ok(Some(LedEnd::Again {
            why: Why::Moved {
                prefix: prefix.copy(alloc)?,
                to: *to,
            },
        })),
    }
}

/// The decision where every part said Yes.
fn agreed(alloc: Global, leader: &Leader, path: Option<&PathAnswer>) -> Result<Decision, Memory>
    ensures { IfOk result (λ d. d ≡ agreed leader.now (option_copied path.entry)) }
{
    if needs_path(leader.mode, &leader.op) {
        by_path(alloc, leader, path)
    } else {
        commit(alloc, leader, reply_of(&leader.op))
    }
}

/// Whether a directory comes into another one, and that could be below it.
pub fn needs_path(mode: Mode2, op: &Op) -> bool
    ensures { result ≡ needs_path mode op.now }
{
    match mode {
        Mode2::Plain => false,
        Mode2::Freeze => !matches!(op, Op::Delete { .. }),
        Mode2::Check => true,
    }
}

/// The reply to a delete or a rename that goes on: `Deleted` to the one, `Renamed` to the other.
pub fn reply_of(op: &Op) -> Reply
    ensures { result ≡ reply_of op.now }
{
    match op {
        Op::Delete { .. } => Reply::Deleted,
        _ => Reply::Renamed,
    }
}

/// The decision by the path of the destination.
fn by_path(alloc: Global, leader: &Leader, path: Option<&PathAnswer>) -> Result<Decision, Memory>
    ensures { IfOk result (λ d. d ≡ by_path leader.now (option_copied path.entry)) }
{
    match path {
        Some(PathAnswer::Path(files)) => by_files(
            alloc,
            leader,
            has_file(files.as_slice(), &leader.file),
        ),
        Some(PathAnswer::Wanted { file, .. }) => Ok(again(Why::Wanted {
            file: file.copy(alloc)?,
        })),
        Some(PathAnswer::Frozen { file, txn }) => Ok(again(Why::Frozen {
            file: file.copy(alloc)?,
            txn: *txn,
        })),
        None => Ok(again(Why::Changed)),
    }
}

/// The decision by whether the file is on that path.
fn by_files(alloc: Global, leader: &Leader, is_on: bool) -> Result<Decision, Memory>
    ensures { IfOk result (λ d. d ≡ by_files leader.now leader.now.mode is_on) }
{
    match (leader.mode, is_on) {
        (Mode2::Check, true) => commit(alloc, leader, Reply::Cycle),
        (Mode2::Check, false) | (_, true) => Ok(again(Why::Changed)),
        (_, false) => commit(alloc, leader, Reply::Renamed),
    }
}

/// Nothing is admitted.
fn again(why: Why) -> Decision
    ensures { result ≡ again why }
{
    Decision::Abort {
        end: LedEnd::Again { why },
    }
}

/// The operation is admitted with the reply.
fn commit(alloc: Global, leader: &Leader, reply: Reply) -> Result<Decision, Memory>
    ensures { IfOk result (λ d. d ≡ commit leader.now reply) }
{
    let all = led_effects(alloc, &leader.op, &leader.file, &reply)?;
    let effects = effects_by_part(alloc, leader.parts.as_slice(), all.as_slice())?;
    Ok(Decision::Commit { reply, effects })
}

/// For each part the effects on its file.
fn effects_by_part(
    alloc: Global,
    parts: &[Part],
    effects: &[Effect],
) -> Result<List<List<Effect>>, Memory>
    ensures { IfOk result (λ told. told ≡
        map (λ (p : ThePart). effects_on effects.now p.file) parts.now) }
{
    let mut told = List::new(alloc);
    for part in parts {
        told.push(effects_on(alloc, effects, &part.file)?)?;
    }
    Ok(told)
}

/// The effects on the file.
#[tactic(auto, using(crate::proofs::Steps::effect_step))]
fn effects_on(alloc: Global, effects: &[Effect], file: &FileId) -> Result<List<Effect>, Memory>
    ensures { IfOk result (λ told. told ≡ effects_on effects.now file.now) }
{
    let mut told = List::new(alloc);
    for e in effects {
        if e.changed_file() == file {
            add_copy(alloc, &mut told, e)?;
        }
    }
    Ok(told)
}
