//! The program: runs a schedule and writes what is asked for of the run, or runs one server or client as a node.
#![tactic(auto)]

mod causes;
mod generated;
mod lines;
mod node;
mod page;
mod replay;
mod run;
mod run_error;
mod scheduled;
mod status;
mod top;

ghost use Rattle.std.specs.Prelude.{◌≡◌, ◌↔◌, ◌⊎◌, ◌+◌, ◌<◌, ◌^◌, ℕ, Err, map, string_bytes};
ghost use Rattle.std.specs.Io.KnownBytes.{Appends};
ghost use Rattle.std.specs.Process.{exit_status};
ghost use Rattle.fs_io.specs.Bytes.{IsPrefixWritten};
ghost use Rattle.fs_io.specs.Faults.{Rose};
ghost use Rattle.fs_words.specs.Usage.{command_of};
ghost use Rattle.farsite.specs.Status.{number_of};
ghost use Rattle.farsite.specs.Pages.{page_text};
ghost use Rattle.farsite.specs.declared.status.Status.TheVariants.{Done, WriteFault};

use crate::lines::write_lines;
use crate::page::{Page, page_of};
use crate::status::Status;
use crate::top::farsite;
use fs_ident::Memory;
use fs_io::{Failed, Sink, SystemClock, UdpLink, standard_input, standard_output};
use std::alloc::Global;
use std::env::FillError;
use std::net::Net;
use std::process::ExitCode;
use std::rt::Env;
use std::time::Clock as Time;

fn main(rt: HostRuntime) -> ExitCode {
    let status = call(&rt);
    ended(&rt, status)
}

/// What the words of the command line ask for.
fn call<R: Env + Input + Print + Net + Time + AllocGlobal>(rt: &R) -> Status {
    let Ok(words) = words_of(rt.alloc(), rt) else {
        return Status::Memory;
    };
    match page_of(&words) {
        Some(page) => printed(page, &mut standard_output(rt)),
        None => called(rt, &words),
    }
}

/// The words of the command line, without the program's name. A word that is not text has characters in it that no
/// word of any form has.
fn words_of(alloc: Global, env: &impl Env) -> Result<Vec<String>, Memory> {
    let mut words = Vec::new(alloc);
    for number in 0..usize::MAX {
        let Some(bytes) = word_at(alloc, env, place_of(number))? else {
            break;
        };
        words.push(String::from_utf8_lossy(alloc, &bytes)?)?;
    }
    Ok(words)
}

/// Where the word of this number stands, both counted from 0: the first word is the first behind the program's name.
fn place_of(number: usize) -> usize
    requires { number + 1 < 2 ^ 64 }
    ensures { result ≡ number + 1 }
{
    1 + number
}

/// The bytes of a word, None behind the last.
fn word_at(alloc: Global, env: &impl Env, at: usize) -> Result<Option<Vec<u8>>, Memory> {
    let mut room = 256usize;
    for _ in 0..usize::BITS {
        let mut bytes = vec![in alloc; 0u8; room]?;
        match env.arg(at, &mut bytes) {
            Ok(len) => {
                bytes.truncate(len);
                return Ok(Some(bytes));
            }
            Err(FillError::NotPresent) => return Ok(None),
            Err(FillError::TooLong) => room = room.saturating_add(room),
        }
    }
    Err(Memory)
}

/// Writes the page's text, each line by itself: done where all of it was written.
fn printed<K: Sink>(page: Page, out: &mut K) -> Status
    ensures done { result ≡ Done →
        Appends (K.written out.old) (K.written out.new) (page_text page) }
    ensures prefix { result ≡ WriteFault →
        IsPrefixWritten (K.written out.old) (K.written out.new) (page_text page) }
    ensures fault { result ≡ WriteFault → Rose (K.faults out.old) (K.faults out.new) }
    ensures quiet { result ≡ Done → K.faults out.new ≡ K.faults out.old }
    ensures either { (result ≡ Done) ⊎ (result ≡ WriteFault) }
{
    match write_lines(out, page.text().as_bytes()) {
        Ok(()) => Status::Done,
        Err(Failed) => Status::WriteFault,
    }
}

/// The top call over standard input and output, the system's clock, and a link over UDP, which has no socket before a node binds
/// its address.
fn called<R: Input + Print + Net + Time + AllocGlobal>(rt: &R, words: &[String]) -> Status
    ensures usage { (word : ℕ) → (result ≡ Status.Usage word) ↔
        (command_of (map string_bytes words.now) ≡ Err word) }
{
    let mut input = standard_input(rt);
    let mut out = standard_output(rt);
    let mut clock = SystemClock::new(rt);
    let mut link = UdpLink::new(rt);
    farsite(
        rt.alloc(),
        words,
        &mut input,
        &mut out,
        &mut clock,
        &mut link,
    )
}

/// Says how the call ended on standard error, unless it is done, and ends with the status's number, also where nothing
/// could be said.
fn ended(rt: &impl Eprint, status: Status) -> ExitCode
    ensures { exit_status result ≡ number_of status }
{
    if status != Status::Done {
        let _ = eprintln!(rt; "farsite: {status}");
    }
    ExitCode::from(status.number())
}

#[cfg(test)]
mod tests;
