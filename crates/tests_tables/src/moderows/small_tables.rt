//! All tables of three sessions and one mode, against a plain search.
ghost use Rattle.std.specs.Prelude.{◌<◌};

use crate::forms::{kept, kept_by, same, spend};
use crate::moderows::{FALSE, GIVEN, Question, TRUE, WRITES, ask, blocker, number, opens, waits};
use fs_field::Asked;
use fs_ident::{LeaseNo, List, Memory, Session};
use fs_moderows::ModeRows;
use fs_modes::{Mode, Modes};
use std::alloc::Global;
use std::process::Abort;
use std::test::Fail;

/// Which of three sessions has the mode, which has a row by which it may change that, and what each was told of the
/// others.
#[derive(Clone, Copy)]
struct Case {
    has: [bool; 3],
    free: [bool; 3],
    told: [Option<bool>; 3],
}

impl Case {
    /// The case of a number below 1728.
    fn new(n: usize) -> Case {
        Case {
            has: bits(n),
            free: bits(n / 8),
            told: [told(n / 64), told(n / 192), told(n / 576)],
        }
    }

    /// Whether no one was told that none has the mode where another may turn it on.
    fn is_possible(&self) -> bool {
        for x in 0..3 {
            if self.told[x] == Some(false) && self.first_free(x).is_some() {
                return false;
            }
        }
        true
    }

    /// The first session beside this one that may change whether it has the mode.
    fn first_free(&self, x: usize) -> Option<usize> {
        for y in 0..3 {
            if y != x && self.free[y] {
                return Some(y);
            }
        }
        None
    }

    /// Whether a session that is neither of the two has the mode and cannot change that.
    fn has_third(&self, x: usize, y: usize) -> bool {
        for w in 0..3 {
            if w != x && w != y && self.has[w] && !self.free[w] {
                return true;
            }
        }
        false
    }

    /// The answer to a session that would know whether others have the mode.
    fn other(&self, x: usize) -> Asked {
        if self.has_third(x, x) {
            return TRUE;
        }
        match self.first_free(x) {
            Some(y) => waits(self_count(y)),
            None => FALSE,
        }
    }

    /// The answer to a session that would change whether it has the mode.
    fn own(&self, y: usize) -> Asked {
        for x in [2, 1, 0] {
            if x != y && self.told[x].is_some() {
                let holds = self.told[x] == Some(true) && self.has_third(x, y);
                if !holds {
                    return waits(other_count(x));
                }
            }
        }
        GIVEN
    }

    /// What keeps the session from losing its handles.
    fn reap(&self, s: usize) -> Option<LeaseNo>
        requires { s < 3 }
    {
        if !self.has[s] {
            return None;
        }
        for x in [2, 1, 0] {
            if x != s && self.told[x] == Some(true) && !self.has_third(x, s) {
                return Some(number(other_count(x)));
            }
        }
        None
    }
}

fn bits(n: usize) -> [bool; 3] {
    [n % 2 == 1, n / 2 % 2 == 1, n / 4 % 2 == 1]
}

fn told(n: usize) -> Option<bool> {
    match n % 3 {
        0 => None,
        1 => Some(false),
        _ => Some(true),
    }
}

fn session(s: usize) -> u16 {
    match s {
        0 => 1,
        1 => 2,
        _ => 3,
    }
}

/// The number of the session's row by which it may change what it tells.
fn self_count(s: usize) -> u64 {
    match s {
        0 => 1,
        1 => 2,
        _ => 3,
    }
}

/// The number of its row on what others tell: a later session has a lesser one.
fn other_count(s: usize) -> u64 {
    match s {
        0 => 6,
        1 => 5,
        _ => 4,
    }
}

/// The rows of the case: a fourth session has the mode where one was told that another has it.
fn built(alloc: Global, case: Case) -> Result<ModeRows, Fail> {
    let mut rows = ModeRows::new(alloc);
    let done = build(alloc, &mut rows, case);
    kept(rows, done)
}

fn build(alloc: Global, rows: &mut ModeRows, case: Case) -> Result<(), Fail> {
    for s in 0..3 {
        if case.free[s] {
            free(alloc, rows, s)?;
        }
    }
    for s in 0..3 {
        if let Some(told) = case.told[s] {
            tell(alloc, rows, s, told)?;
        }
    }
    Ok(())
}

/// The session gets the row by which it may change what it tells.
fn free(alloc: Global, rows: &mut ModeRows, s: usize) -> Result<(), Fail> {
    if put(alloc, rows, self_count(s), s, Question::SelfW, &[])? != GIVEN {
        return Err(Fail::from("a row of a case is not given"));
    }
    Ok(())
}

/// The session is told whether others have the mode.
fn tell(alloc: Global, rows: &mut ModeRows, s: usize, told: bool) -> Result<(), Fail> {
    let others: &[u16] = if told { &[4] } else { &[] };
    let wanted = Asked::Granted { value: Some(told) };
    if put(alloc, rows, other_count(s), s, Question::Other, others)? != wanted {
        return Err(Fail::from("a row of a case is not given"));
    }
    Ok(())
}

fn put(
    alloc: Global,
    rows: &mut ModeRows,
    count: u64,
    s: usize,
    question: Question,
    others: &[u16],
) -> Result<Asked, Fail> {
    let selves = opens(alloc, others, WRITES)?;
    let asked = ask(
        alloc,
        rows,
        &selves,
        count,
        session(s),
        question,
        Mode::AccW,
    );
    spend(selves);
    asked
}

/// The sessions of the case that have the mode.
fn who_has(alloc: Global, case: Case) -> Result<List<(Session, Modes)>, Fail> {
    let mut selves = List::new(alloc);
    let done = add_who_has(&mut selves, case);
    kept_by(selves, done)
}

fn add_who_has(selves: &mut List<(Session, Modes)>, case: Case) -> Result<(), Memory> {
    for s in 0..3 {
        if case.has[s] {
            selves.push((Session(session(s)), WRITES))?;
        }
    }
    Ok(())
}

/// The answer to the session's question, which leaves no row.
fn answer(
    alloc: Global,
    rows: &mut ModeRows,
    selves: &List<(Session, Modes)>,
    by: u16,
    question: Question,
) -> Result<Asked, Fail> {
    let asked = ask(alloc, rows, selves, 7, by, question, Mode::AccW)?;
    rows.release(number(7));
    Ok(asked)
}

/// Whether all answers to the session are those of a plain search.
fn agree(
    alloc: Global,
    rows: &mut ModeRows,
    selves: &List<(Session, Modes)>,
    case: Case,
    s: usize,
) -> Result<bool, Fail>
    requires { s < 3 }
{
    let by = session(s);
    if blocker(alloc, rows, selves, by) != case.reap(s) {
        return Ok(false);
    }
    if answer(alloc, rows, selves, by, Question::SelfW)? != case.own(s) {
        return Ok(false);
    }
    Ok(answer(alloc, rows, selves, by, Question::Other)? == case.other(s))
}

/// Whether all answers to the session are those of a plain search in the rows of the case.
fn agree_in(
    alloc: Global,
    selves: &List<(Session, Modes)>,
    case: Case,
    s: usize,
) -> Result<bool, Fail>
    requires { s < 3 }
{
    let mut rows = built(alloc, case)?;
    let all = agree(alloc, &mut rows, selves, case, s);
    spend(rows);
    all
}

/// Whether all answers to the session are those of a plain search, in the rows of the case and with those that have the
/// mode.
fn agrees(alloc: Global, case: Case, s: usize) -> Result<bool, Fail>
    requires { s < 3 }
{
    let selves = who_has(alloc, case)?;
    let all = agree_in(alloc, &selves, case, s);
    spend(selves);
    all
}

/// The case is another, or the answers to each session are those of a plain search.
fn all_agree(rt: &impl Abort, alloc: Global, n: usize) -> Result<(), Fail> {
    let case = Case::new(n);
    if case.is_possible() {
        for s in 0..3 {
            same(rt, (n, s, agrees(alloc, case, s)?), (n, s, true));
        }
    }
    Ok(())
}

#[test]
fn small_tables(rt: HostRuntime) -> Result<(), Fail> {
    for n in 0..1728 {
        all_agree(&rt, rt.alloc(), n)?;
    }
    Ok(())
}
