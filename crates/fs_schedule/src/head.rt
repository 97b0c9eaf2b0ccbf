//! Forms: what they have, and the first line that names one.
ghost use Rattle.std.specs.Prelude.{◌≡◌, ◌∷◌, [], codes};
ghost use Rattle.fs_schedule.specs.Words.{Bare};
ghost use Rattle.fs_schedule.specs.Spelling.{servers_in, has_many};
ghost use Rattle.fs_schedule.specs.Reading.{Tells, TellsSurely, word_of, words_in, IsToldCount, IsToldHead, IsToldHeadLine};

use crate::event::Head;
use crate::number::count_up_to;
use crate::operand::{count_at, is_bare, number_at};
use crate::unread::Unread;
use crate::word::Word;
use crate::words::words_of;
use fs_model::Op;
use fs_msg::{LONGEST, SERVERS};
use std::alloc::Global;

/// How many servers the form has.
pub fn servers_in(head: Head) -> u8
    ensures { result ≡ servers_in head }
{
    match head {
        Head::Direct => 0,
        Head::Servers { servers, .. } => servers,
    }
}

/// Whether it has more servers than the limit.
pub fn has_many(head: Head) -> bool
    ensures { result ≡ has_many head }
{
    match head {
        Head::Direct => false,
        Head::Servers { servers, .. } => SERVERS < servers,
    }
}

/// The form that the line names, with a number of servers above the limit as one more than the limit.
pub fn head_at(alloc: Global, line: &[u8]) -> Result<Head, Unread>
    ensures { Tells IsToldHeadLine result line.now }
{
    let words = words_of(alloc, line)?;
    head_of(words.as_slice())
}

fn head_of(words: &[Word]) -> Result<Head, Unread>
    ensures { TellsSurely IsToldHead result (words_in words.now) }
{
    let [product, version, form, operands @ ..] = words else {
        return Err(Unread::Outside);
    };
    if !is_bare(product, b"farsite") {
        return Err(Unread::Outside);
    }
    if !is_bare(version, b"1") {
        return Err(Unread::Outside);
    }
    head_by(form, operands)
}

/// The form that this word names, with its operands.
fn head_by(form: &Word, operands: &[Word]) -> Result<Head, Unread>
    ensures { TellsSurely IsToldHead result
        (Bare (codes "farsite") ∷ Bare (codes "1") ∷ word_of form.now ∷ words_in operands.now) }
{
    if is_bare(form, b"direct") {
        return direct_of(operands);
    }
    if is_bare(form, b"servers") {
        return servers_of(operands);
    }
    Err(Unread::Outside)
}

fn direct_of(operands: &[Word]) -> Result<Head, Unread>
    ensures { TellsSurely IsToldHead result
        (Bare (codes "farsite") ∷ Bare (codes "1") ∷ Bare (codes "direct") ∷
        words_in operands.now) }
{
    match operands {
        [] => Ok(Head::Direct),
        _ => Err(Unread::Outside),
    }
}

fn servers_of(operands: &[Word]) -> Result<Head, Unread>
    ensures { TellsSurely IsToldHead result
        (Bare (codes "farsite") ∷ Bare (codes "1") ∷ Bare (codes "servers") ∷
        words_in operands.now) }
{
    let [servers, skew_word, skew, term_word, term] = operands else {
        return Err(Unread::Outside);
    };
    if !is_bare(skew_word, b"skew") {
        return Err(Unread::Outside);
    }
    if !is_bare(term_word, b"term") {
        return Err(Unread::Outside);
    }
    servers_by(servers, skew, term)
}

/// The servers form with the numbers that these three words tell.
fn servers_by(servers: &Word, skew: &Word, term: &Word) -> Result<Head, Unread>
    ensures { TellsSurely IsToldHead result
        (Bare (codes "farsite") ∷ Bare (codes "1") ∷ Bare (codes "servers") ∷
        word_of servers.now ∷ Bare (codes "skew") ∷ word_of skew.now ∷
        Bare (codes "term") ∷ word_of term.now ∷ []) }
{
    let servers = servers_at(servers)?;
    let skew = number_at(LONGEST, skew)?;
    let term = count_at(LONGEST, term)?;
    Ok(Head::Servers {
        servers,
        skew,
        term,
    })
}

/// How many servers a form has, with every number above the limit as one more than the limit.
fn servers_at(word: &Word) -> Result<u8, Unread>
    ensures { TellsSurely IsToldCount result (word_of word.now) }
{
    let Word::Bare(digits) = word else {
        return Err(Unread::Outside);
    };
    let number = count_up_to(u16::from(SERVERS), digits)?;
    Ok(number as u8)
}
