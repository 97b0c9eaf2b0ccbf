//! Lines, read as lines of a script.
ghost use Rattle.std.specs.Prelude.{◌∷◌, [], true, false, codes};
ghost use Rattle.fs_schedule.specs.declared.event.Head.{Head as Form};
ghost use Rattle.fs_schedule.specs.Words.{Bare};
ghost use Rattle.fs_schedule.specs.Script.{FitsScript, IsScriptLine, script_words};
ghost use Rattle.fs_schedule.specs.Reading.{Reads, Tells, word_of, words_in};

use crate::actor::server_at;
use crate::event::Head;
use crate::field::field_at;
use crate::operand::{id_at, is_bare};
use crate::operation::op_at;
use crate::script::Script;
use crate::unread::Unread;
use crate::word::Word;
use crate::words::words_of;
use std::alloc::Global;

/// The line of a client's script, or of a server's, in the form.
pub fn script_at(alloc: Global, client: bool, head: Head, line: &[u8]) -> Result<Script, Unread>
    ensures { Tells (IsScriptLine client head) result line.now }
{
    let words = words_of(alloc, line)?;
    script_of(alloc, client, head, words.as_slice())
}

fn script_of(alloc: Global, client: bool, head: Head, words: &[Word]) -> Result<Script, Unread>
    ensures { Reads script_words (FitsScript client head) result (words_in words.now) }
{
    if client {
        client_line(alloc, head, words)
    } else {
        server_line(alloc, head, words)
    }
}

fn client_line(alloc: Global, head: Head, words: &[Word]) -> Result<Script, Unread>
    ensures { Reads script_words (FitsScript true head) result (words_in words.now) }
{
    let op = op_at(alloc, words)?;
    Ok(Script::Op(op))
}

fn server_line(alloc: Global, head: Head, words: &[Word]) -> Result<Script, Unread>
    ensures { Reads script_words (FitsScript false head) result (words_in words.now) }
{
    let [first, operands @ ..] = words else {
        return Err(Unread::Outside);
    };
    server_line_by(alloc, head, first, operands)
}

/// The line of a server's script that begins with this word.
fn server_line_by(
    alloc: Global,
    head: Head,
    first: &Word,
    operands: &[Word],
) -> Result<Script, Unread>
    ensures { Reads script_words (FitsScript false head) result
        (word_of first.now ∷ words_in operands.now) }
{
    if is_bare(first, b"recall") {
        recall_line(alloc, operands)
    } else if is_bare(first, b"move") {
        move_line(alloc, head, operands)
    } else {
        Err(Unread::Outside)
    }
}

fn recall_line(alloc: Global, operands: &[Word]) -> Result<Script, Unread>
    ensures { (head : Form) → Reads script_words (FitsScript false head) result
        (Bare (codes "recall") ∷ words_in operands.now) }
{
    let field = field_at(alloc, operands)?;
    Ok(Script::Recall(field))
}

fn move_line(alloc: Global, head: Head, operands: &[Word]) -> Result<Script, Unread>
    ensures { Reads script_words (FitsScript false head) result
        (Bare (codes "move") ∷ words_in operands.now) }
{
    let [prefix, to] = operands else {
        return Err(Unread::Outside);
    };
    move_by(alloc, head, prefix, to)
}

/// The move of this prefix to this server.
fn move_by(alloc: Global, head: Head, prefix: &Word, to: &Word) -> Result<Script, Unread>
    ensures { Reads script_words (FitsScript false head) result
        (Bare (codes "move") ∷ word_of prefix.now ∷ word_of to.now ∷ []) }
{
    let server = server_at(head, to)?;
    let id = id_at(alloc, prefix)?;
    Ok(Script::Move {
        prefix: id,
        to: server,
    })
}
