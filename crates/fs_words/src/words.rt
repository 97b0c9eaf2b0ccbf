//! The words of the command line.
ghost use Rattle.std.specs.Prelude.{◌≡◌, map, string_bytes, nat_eq, IfOk};
ghost use Rattle.std.specs.Cmp.Lexicographic.{pointwise};
ghost use Rattle.fs_words.specs.Usage.{FitsCommand, command_of, generate_words, made_words, node_words, run_words};

use crate::command::{Command, Format};
use crate::node::node_of;
use crate::number::number_in;

/// What the words ask for, or the number of the first word, from 1, that no form of the command
/// line has there.
pub fn command_of(words: &[String]) -> Result<Command, u64>
    ensures asked { result ≡ command_of (map string_bytes words.now) }
    ensures fits { IfOk result FitsCommand }
{
    let [first, rest @ ..] = words else {
        return Err(1);
    };
    if is_word(first, b"replay") {
        run_of(Format::Report, rest)
    } else if is_word(first, b"journal") {
        run_of(Format::Json, rest)
    } else if is_word(first, b"gen") {
        generate_of(rest)
    } else if is_word(first, b"node") {
        node_of(rest)
    } else {
        Err(1)
    }
}

/// A run that is written so, where no word stands behind.
fn run_of(format: Format, rest: &[String]) -> Result<Command, u64>
    ensures asked { result ≡ run_words format (map string_bytes rest.now) }
    ensures fits { IfOk result FitsCommand }
{
    match rest {
        [] => Ok(Command::Run(format)),
        _ => Err(2),
    }
}

/// A run of what is made from a number, where one stands behind and no other word.
fn generate_of(rest: &[String]) -> Result<Command, u64>
    ensures asked { result ≡ generate_words (map string_bytes rest.now) }
    ensures fits { IfOk result FitsCommand }
{
    match rest {
        [] => Err(2),
        [number, behind @ ..] => made_of(number_in(u64::MAX, number.as_bytes()), behind),
    }
}

/// A run of what is made from this number, where there is one and no other word stands behind.
fn made_of(number: Option<u64>, behind: &[String]) -> Result<Command, u64>
    ensures asked { result ≡ made_words number (map string_bytes behind.now) }
    ensures fits { IfOk result FitsCommand }
{
    match number {
        Some(n) => match behind {
            [] => Ok(Command::Generate { n }),
            _ => Err(3),
        },
        None => Err(2),
    }
}

/// Whether the word has these bytes.
pub fn is_word(word: &String, bytes: &[u8]) -> bool
    ensures { result ≡ pointwise nat_eq (string_bytes word.now) bytes.now }
{
    word.as_bytes() == bytes
}
