//! The top call.
ghost use Rattle.std.specs.Prelude.{◌≡◌, ◌≢◌, ◌↔◌, ◌⊎◌, ◌<◌, ◌≤◌, ℕ, Err, map, length, IfOk, IfSome, string_bytes};
ghost use Rattle.std.specs.Io.KnownBytes.{IsAtEnd};
ghost use Rattle.fs_io.specs.Faults.{Rose};
ghost use Rattle.fs_io.specs.declared.reading.TheConstants.{LIMIT};
ghost use Rattle.fs_launch.specs.Launch.{told};
ghost use Rattle.fs_msg.specs.declared.core_error.Counter.{Counter};
ghost use Rattle.fs_schedule.specs.Faults.{IsFirstFault, IsSkewed};
ghost use Rattle.fs_schedule.specs.declared.error.Which.{Which as Limited};
ghost use Rattle.fs_words.specs.Usage.{command_of};
ghost use Rattle.farsite.specs.Commands.{IsBadLine, IsBound, IsCut, IsDone, IsNoNode, IsPastLimit, IsRefused, IsScheduled, IsSilent, IsSpentAt, IsStarved, IsUnbound, IsUnread, IsUnturned, read_by};
ghost use Rattle.farsite.specs.Headline.{IsReadWhole};

use crate::generated::generated;
use crate::node::node;
use crate::scheduled::scheduled;
use crate::status::Status;
use fs_io::{Clock, Link, Sink, Source};
use fs_words::{Command, command_of};
use std::alloc::Global;

/// What the program does with the words of its command line, without its own name.
///
/// `replay` reads a schedule from the input to its end, runs it, and writes its report; `journal` writes the journal
/// and the namespace of the same run in JSON. `gen` makes a schedule from a number, runs it, and writes in one line what it came
/// to; it reads no input. `node` binds an address, reads a script from the input to its end, makes the turns of one
/// server or client, and writes its lines; nothing else calls the clock or the link. Where the status is neither `Done` nor
/// `WriteFault`, and of a node neither `Spent` nor `Memory`, nothing is written; at `Usage` and `LinkFault` nothing is read.
pub fn farsite<S: Source, K: Sink, C: Clock, L: Link>(
    alloc: Global,
    words: &[String],
    input: &mut S,
    out: &mut K,
    clock: &mut C,
    link: &mut L,
) -> Status
    ensures done { result ≡ Status.Done →
        IfOk (command_of (map string_bytes words.now)) (λ command.
        IfSome (read_by command (S.left input.old)) (λ bytes.
        IsDone command (map string_bytes words.now) bytes
        (told (C.readings clock.old) (L.calls link.old) (K.written out.old))
        (told (C.readings clock.new) (L.calls link.new) (K.written out.new)))) }
    ensures end { result ≡ Status.Done → IfOk (command_of (map string_bytes words.now))
        (λ command. IsAtEnd (read_by command (S.left input.new))) }
    ensures usage { (word : ℕ) → (result ≡ Status.Usage word) ↔
        (command_of (map string_bytes words.now) ≡ Err word) }
    ensures unread { IsUnread (command_of (map string_bytes words.now)) → input.new ≡ input.old }
    ensures bad_line { (line : ℕ) → result ≡ Status.BadLine line →
        IfOk (command_of (map string_bytes words.now)) (λ command.
        IfSome (read_by command (S.left input.old)) (λ bytes. IsBadLine command line bytes)) }
    ensures skewed { (line earlier : ℕ) → result ≡ Status.Skewed line earlier →
        IsScheduled (command_of (map string_bytes words.now)) ×
        IfSome (S.left input.old) (λ bytes. IsFirstFault (IsSkewed line earlier) bytes) }
    ensures limit { (which : Limited) (at : ℕ) → result ≡ Status.Limit which at →
        IfOk (command_of (map string_bytes words.now)) (λ command.
        IfSome (read_by command (S.left input.old)) (λ bytes. IsPastLimit command which at bytes)) }
    ensures spent { (counter : Counter) → result ≡ Status.Spent counter →
        IfOk (command_of (map string_bytes words.now)) (λ command.
        IfSome (read_by command (S.left input.old)) (λ bytes.
        IsSpentAt counter command (map string_bytes words.now) bytes
        (told (C.readings clock.old) (L.calls link.old) (K.written out.old))
        (told (C.readings clock.new) (L.calls link.new) (K.written out.new)))) }
    ensures memory { result ≡ Status.Memory → (out.new ≡ out.old) ⊎
        IfOk (command_of (map string_bytes words.now)) (λ command.
        IfSome (read_by command (S.left input.old)) (λ bytes.
        IsStarved command (map string_bytes words.now) bytes
        (told (C.readings clock.old) (L.calls link.old) (K.written out.old))
        (told (C.readings clock.new) (L.calls link.new) (K.written out.new)))) }
    ensures short { IsReadWhole result → IfOk (command_of (map string_bytes words.now)) (λ command.
        IfSome (read_by command (S.left input.old)) (λ bytes. length bytes ≤ LIMIT)) }
    ensures too_long { (limit : ℕ) → result ≡ Status.TooLong limit → (limit ≡ LIMIT) ×
        IfOk (command_of (map string_bytes words.now)) (λ command.
        IfSome (read_by command (S.left input.old)) (λ bytes. LIMIT < length bytes)) }
    ensures read_fault { result ≡ Status.ReadFault →
        Rose (S.faults input.old) (S.faults input.new) }
    ensures write_fault { result ≡ Status.WriteFault → Rose (K.faults out.old) (K.faults out.new) }
    ensures link_fault { result ≡ Status.LinkFault → Rose (L.faults link.old) (L.faults link.new) }
    ensures quiet_input { result ≢ Status.ReadFault → S.faults input.new ≡ S.faults input.old }
    ensures quiet_output { result ≡ Status.Done → K.faults out.new ≡ K.faults out.old }
    ensures prefix { result ≡ Status.WriteFault →
        IfOk (command_of (map string_bytes words.now)) (λ command.
        IfSome (read_by command (S.left input.old)) (λ bytes.
        IsCut command (map string_bytes words.now) bytes
        (told (C.readings clock.old) (L.calls link.old) (K.written out.old))
        (told (C.readings clock.new) (L.calls link.new) (K.written out.new)))) }
    ensures silent { IsSilent (command_of (map string_bytes words.now)) result →
        out.new ≡ out.old }
    ensures clock { IsUnturned (command_of (map string_bytes words.now)) result →
        clock.new ≡ clock.old }
    ensures link { IsNoNode (command_of (map string_bytes words.now)) → link.new ≡ link.old }
    ensures unbound { result ≡ Status.LinkFault → (input.new ≡ input.old) ×
        IfOk (command_of (map string_bytes words.now)) (λ command.
        IsUnbound command (L.calls link.old) (L.calls link.new)) }
    ensures bound { IsRefused result →
        IfOk (command_of (map string_bytes words.now)) (λ command.
        IsBound command (L.calls link.old) (L.calls link.new)) }
{
    match command_of(words) {
        Ok(Command::Run(format)) => scheduled(alloc, format, input, out),
        Ok(Command::Generate { n }) => generated(alloc, n, out),
        Ok(Command::Node(settings)) => node(alloc, settings, words, input, out, clock, link),
        Err(word) => Status::Usage { word },
    }
}
