//! A server with so many files that answers so many questions, or takes so many new files: the load that `bench/cores` times.
#![tactic(auto)]

ghost use Rattle.std.specs.Prelude.{◌≡◌, ◌≤◌, IfOk};

mod files;

use fs_msg::CoreError;
use std::alloc::Global;
use std::env;
use std::process::ExitCode;
use std::rt::Env;

fn main(rt: HostRuntime) -> ExitCode {
    let Some((count, rounds, makes)) = words_of(&rt) else {
        return ended(&rt, "usage: bench_cores FILES ROUNDS asks|creates", 2);
    };
    match files::run(rt.alloc(), count, rounds, makes) {
        Ok(()) => ended(&rt, "done", 0),
        Err(CoreError::Spent { counter: _ }) => ended(&rt, "a counter is spent", 1),
        Err(CoreError::Memory) => ended(&rt, "memory is wanting", 1),
    }
}

/// The words of the command line: how many files, how many rounds, and whether a round makes a file.
fn words_of<R: Env + AllocGlobal>(rt: &R) -> Option<(u32, u32, bool)> {
    let mut words = Vec::new(rt.alloc());
    for word in env::args(rt).ok()? {
        words.push(word).ok()?;
    }
    let [_, files, rounds, what] = words.as_slice() else {
        return None;
    };
    let files = files.as_str().parse::<u32>().ok()?;
    let rounds = rounds.as_str().parse::<u32>().ok()?;
    match what.as_str() {
        "asks" => Some((files, rounds, false)),
        "creates" => Some((files, rounds, true)),
        _ => None,
    }
}

/// Prints the line, and ends with the status.
fn ended(rt: &impl Print, line: &str, status: u8) -> ExitCode {
    match rt.println(line) {
        Ok(()) => ExitCode::from(status),
        Err(_) => ExitCode::from(1),
    }
}
