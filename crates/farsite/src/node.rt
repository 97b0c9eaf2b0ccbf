//! One server or client as a node.
ghost use Rattle.std.specs.Prelude.{◌≡◌, ◌≢◌, ◌⊎◌, ◌<◌, ◌≤◌, ℕ, Ok, map, length, IfSome, string_bytes};
ghost use Rattle.std.specs.Io.KnownBytes.{IsAtEnd};
ghost use Rattle.fs_io.specs.Faults.{Rose};
ghost use Rattle.fs_io.specs.declared.reading.TheConstants.{LIMIT};
ghost use Rattle.fs_launch.specs.Launch.{told};
ghost use Rattle.fs_msg.specs.declared.core_error.Counter.{Counter};
ghost use Rattle.fs_schedule.specs.declared.error.Which.{Which as Limited};
ghost use Rattle.fs_words.specs.Usage.{FitsSettings};
ghost use Rattle.fs_words.specs.declared.command.Command.TheVariants.{Node};
ghost use Rattle.farsite.specs.Commands.{IsBadLine, IsBound, IsCut, IsDone, IsPastLimit, IsRefused, IsSilent, IsSpentAt, IsStarved, IsUnbound, IsUnturned};
ghost use Rattle.farsite.specs.Headline.{IsReadWhole};

use crate::causes::launch_status;
use crate::status::Status;
use fs_ident::Memory;
use fs_io::{Clock, Link, Sink, Source};
use fs_launch::launch;
use fs_words::{Settings, node_places};
use std::alloc::Global;

/// Runs the server or client of the settings as a node, among the places that the words tell.
pub(crate) fn node<S: Source, K: Sink, C: Clock, L: Link>(
    alloc: Global,
    settings: Settings,
    words: &[String],
    input: &mut S,
    out: &mut K,
    clock: &mut C,
    link: &mut L,
) -> Status
    requires { FitsSettings settings }
    ensures done { result ≡ Status.Done → IfSome (S.left input.old)
        (λ bytes. IsDone (Node settings) (map string_bytes words.now) bytes
        (told (C.readings clock.old) (L.calls link.old) (K.written out.old))
        (told (C.readings clock.new) (L.calls link.new) (K.written out.new))) }
    ensures end { result ≡ Status.Done → IsAtEnd (S.left input.new) }
    ensures usage { (word : ℕ) → result ≢ Status.Usage word }
    ensures bad_line { (line : ℕ) → result ≡ Status.BadLine line → IfSome (S.left input.old)
        (λ bytes. IsBadLine (Node settings) line bytes) }
    ensures skewed { (line earlier : ℕ) → result ≢ Status.Skewed line earlier }
    ensures limit { (which : Limited) (at : ℕ) → result ≡ Status.Limit which at →
        IfSome (S.left input.old) (λ bytes. IsPastLimit (Node settings) which at bytes) }
    ensures spent { (counter : Counter) → result ≡ Status.Spent counter →
        IfSome (S.left input.old)
        (λ bytes. IsSpentAt counter (Node settings) (map string_bytes words.now) bytes
        (told (C.readings clock.old) (L.calls link.old) (K.written out.old))
        (told (C.readings clock.new) (L.calls link.new) (K.written out.new))) }
    ensures memory { result ≡ Status.Memory → (out.new ≡ out.old) ⊎ IfSome (S.left input.old)
        (λ bytes. IsStarved (Node settings) (map string_bytes words.now) bytes
        (told (C.readings clock.old) (L.calls link.old) (K.written out.old))
        (told (C.readings clock.new) (L.calls link.new) (K.written out.new))) }
    ensures short { IsReadWhole result →
        IfSome (S.left input.old) (λ bytes. length bytes ≤ LIMIT) }
    ensures too_long { (limit : ℕ) → result ≡ Status.TooLong limit → (limit ≡ LIMIT) ×
        IfSome (S.left input.old) (λ bytes. LIMIT < length bytes) }
    ensures read_fault { result ≡ Status.ReadFault →
        Rose (S.faults input.old) (S.faults input.new) }
    ensures write_fault { result ≡ Status.WriteFault → Rose (K.faults out.old) (K.faults out.new) }
    ensures link_fault { result ≡ Status.LinkFault → Rose (L.faults link.old) (L.faults link.new) }
    ensures quiet_input { result ≢ Status.ReadFault → S.faults input.new ≡ S.faults input.old }
    ensures quiet_output { result ≡ Status.Done → K.faults out.new ≡ K.faults out.old }
    ensures prefix { result ≡ Status.WriteFault → IfSome (S.left input.old)
        (λ bytes. IsCut (Node settings) (map string_bytes words.now) bytes
        (told (C.readings clock.old) (L.calls link.old) (K.written out.old))
        (told (C.readings clock.new) (L.calls link.new) (K.written out.new))) }
    ensures silent { IsSilent (Ok (Node settings)) result → out.new ≡ out.old }
    ensures clock { IsUnturned (Ok (Node settings)) result → clock.new ≡ clock.old }
    ensures unbound { result ≡ Status.LinkFault → (input.new ≡ input.old) ×
        IsUnbound (Node settings) (L.calls link.old) (L.calls link.new) }
    ensures bound { IsRefused result →
        IsBound (Node settings) (L.calls link.old) (L.calls link.new) }
{
    match node_places(alloc, words) {
        Ok(places) => match launch(alloc, settings, places, input, out, clock, link) {
            Ok(()) => Status::Done,
            Err(e) => launch_status(e),
        },
        Err(Memory) => Status::Memory,
    }
}
