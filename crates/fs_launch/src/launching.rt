//! A node from its words on.
ghost use Rattle.std.specs.Prelude.{◌≡◌, ◌<◌, ◌≤◌, ℕ, length, Ok, Err, IfSome, OnOk, IsErrOf};
ghost use Rattle.std.specs.Io.KnownBytes.{IsAtEnd};
ghost use Rattle.fs_io.specs.Faults.{Rose};
ghost use Rattle.fs_io.specs.Told.{Adds};
ghost use Rattle.fs_io.specs.declared.reading.ReadError.TheVariants.{ReadFault, TooLong};
ghost use Rattle.fs_io.specs.declared.reading.TheConstants.{LIMIT};
ghost use Rattle.fs_launch.specs.Launch.{HasNodeFault, IsNotScript, IsReadWhole, IsUnturned, NodeComesTo, ScriptComesTo, bind_call, is_client, told};
ghost use Rattle.fs_launch.specs.declared.error.LaunchError.TheVariants.{Bind, Read, Script, Turns};
ghost use Rattle.fs_schedule.specs.Faults.{IsOutside, PassesLimit};
ghost use Rattle.fs_schedule.specs.declared.error.ScheduleError.TheVariants.{BadLine, Limit, Skewed};
ghost use Rattle.fs_schedule.specs.declared.error.Which.{Which as Limited};
ghost use Rattle.fs_turns.specs.declared.stop.Stop.{Stop as Stopped};
ghost use Rattle.fs_turns.specs.declared.stop.Stop.TheVariants.{Write};
ghost use Rattle.fs_words.specs.Usage.{FitsSettings};

use crate::error::LaunchError;
use crate::started::started;
use fs_ident::{List, Peer};
use fs_io::{Addr, Clock, Failed, Link, Sink, Source, read_all};
use fs_schedule::read_script;
use fs_words::Settings;
use std::alloc::Global;

/// Runs one client or server as a node: binds its address, reads its script from the input to its end, makes its turns, and
/// writes its last lines. Nothing else calls the link or the clock. `Bind` where the address was not bound; then nothing
/// is read. `Read` and `Script` where the input is no script; then there is no turn. `Turns` where the turns or the last lines
/// were broken off.
pub fn launch<S: Source, K: Sink, C: Clock, L: Link>(
    alloc: Global,
    settings: Settings,
    places: List<(Peer, Addr)>,
    input: &mut S,
    out: &mut K,
    clock: &mut C,
    link: &mut L,
) -> Result<(), LaunchError>
    requires { FitsSettings settings }
    ensures run { OnOk result (IfSome (S.left input.old) (λ bytes.
        NodeComesTo settings places bytes (Ok (tt {0}))
        (told (C.readings clock.old) (L.calls link.old) (K.written out.old))
        (told (C.readings clock.new) (L.calls link.new) (K.written out.new)))) }
    ensures broken { (why : Stopped) → IsErrOf result (Turns why) →
        IfSome (S.left input.old) (λ bytes. NodeComesTo settings places bytes (Err why)
        (told (C.readings clock.old) (L.calls link.old) (K.written out.old))
        (told (C.readings clock.new) (L.calls link.new) (K.written out.new))) }
    ensures end { OnOk result (IsAtEnd (S.left input.new)) }
    ensures bad_line { (line : ℕ) → IsErrOf result (Script (BadLine line)) →
        IfSome (S.left input.old) (λ bytes. HasNodeFault settings IsOutside line bytes) }
    ensures limit { (which : Limited) (at : ℕ) → IsErrOf result (Script (Limit which at)) →
        IfSome (S.left input.old) (λ bytes. HasNodeFault settings (PassesLimit which) at bytes) }
    ensures not_skewed { (line earlier : ℕ) → IsErrOf result (Script (Skewed line earlier)) → ⊥ }
    ensures short { IsReadWhole result → IfSome (S.left input.old) (λ bytes. length bytes ≤ LIMIT) }
    ensures too_long { (limit : ℕ) → IsErrOf result (Read (TooLong limit)) → (limit ≡ LIMIT) ×
        IfSome (S.left input.old) (λ bytes. LIMIT < length bytes) }
    ensures read_fault { IsErrOf result (Read ReadFault) →
        Rose (S.faults input.old) (S.faults input.new) }
    ensures bind_fault { IsErrOf result Bind → Rose (L.faults link.old) (L.faults link.new) }
    ensures write_fault { IsErrOf result (Turns Write) →
        Rose (K.faults out.old) (K.faults out.new) }
    ensures quiet_input { (IsErrOf result (Read ReadFault) → ⊥) →
        S.faults input.new ≡ S.faults input.old }
    ensures quiet_output { OnOk result (K.faults out.new ≡ K.faults out.old) }
    ensures unbound { IsErrOf result Bind → (input.new ≡ input.old) ×
        Adds (L.calls link.old) (L.calls link.new) (bind_call settings.at (Err (record {}))) }
    ensures unturned { IsNotScript result →
        Adds (L.calls link.old) (L.calls link.new) (bind_call settings.at (Ok (tt {0}))) }
    ensures clock { IsUnturned result → clock.new ≡ clock.old }
    ensures out { IsUnturned result → out.new ≡ out.old }
{
    match link.bind(settings.at) {
        Ok(()) => bound(alloc, settings, places, input, out, clock, link),
        Err(Failed) => Err(LaunchError::Bind),
    }
}

/// Reads the script of a node whose address is bound, makes its turns, and writes its last lines.
fn bound<S: Source, K: Sink, C: Clock, L: Link>(
    alloc: Global,
    settings: Settings,
    places: List<(Peer, Addr)>,
    input: &mut S,
    out: &mut K,
    clock: &mut C,
    link: &mut L,
) -> Result<(), LaunchError>
    requires { FitsSettings settings }
    ensures run { OnOk result (IfSome (S.left input.old) (λ bytes.
        ScriptComesTo settings places bytes (Ok (tt {0}))
        (told (C.readings clock.old) (L.calls link.old) (K.written out.old))
        (told (C.readings clock.new) (L.calls link.new) (K.written out.new)))) }
    ensures broken { (why : Stopped) → IsErrOf result (Turns why) →
        IfSome (S.left input.old) (λ bytes. ScriptComesTo settings places bytes (Err why)
        (told (C.readings clock.old) (L.calls link.old) (K.written out.old))
        (told (C.readings clock.new) (L.calls link.new) (K.written out.new))) }
    ensures end { OnOk result (IsAtEnd (S.left input.new)) }
    ensures bad_line { (line : ℕ) → IsErrOf result (Script (BadLine line)) →
        IfSome (S.left input.old) (λ bytes. HasNodeFault settings IsOutside line bytes) }
    ensures limit { (which : Limited) (at : ℕ) → IsErrOf result (Script (Limit which at)) →
        IfSome (S.left input.old) (λ bytes. HasNodeFault settings (PassesLimit which) at bytes) }
    ensures not_skewed { (line earlier : ℕ) → IsErrOf result (Script (Skewed line earlier)) → ⊥ }
    ensures short { IsReadWhole result → IfSome (S.left input.old) (λ bytes. length bytes ≤ LIMIT) }
    ensures too_long { (limit : ℕ) → IsErrOf result (Read (TooLong limit)) → (limit ≡ LIMIT) ×
        IfSome (S.left input.old) (λ bytes. LIMIT < length bytes) }
    ensures read_fault { IsErrOf result (Read ReadFault) →
        Rose (S.faults input.old) (S.faults input.new) }
    ensures write_fault { IsErrOf result (Turns Write) →
        Rose (K.faults out.old) (K.faults out.new) }
    ensures bind_fault { IsErrOf result Bind → ⊥ }
    ensures quiet_input { (IsErrOf result (Read ReadFault) → ⊥) →
        S.faults input.new ≡ S.faults input.old }
    ensures quiet_output { OnOk result (K.faults out.new ≡ K.faults out.old) }
    ensures link { IsNotScript result → link.new ≡ link.old }
    ensures clock { IsNotScript result → clock.new ≡ clock.old }
    ensures out { IsNotScript result → out.new ≡ out.old }
{
    match read_all(alloc, input) {
        Ok(bytes) => scripted(alloc, settings, places, &bytes, out, clock, link),
        Err(why) => Err(LaunchError::Read { why }),
    }
}

/// Parses these bytes of the input as the script, makes the node's turns, and writes its last lines.
fn scripted<K: Sink, C: Clock, L: Link>(
    alloc: Global,
    settings: Settings,
    places: List<(Peer, Addr)>,
    bytes: &[u8],
    out: &mut K,
    clock: &mut C,
    link: &mut L,
) -> Result<(), LaunchError>
    requires { FitsSettings settings }
    ensures run { OnOk result (ScriptComesTo settings places bytes.now (Ok (tt {0}))
        (told (C.readings clock.old) (L.calls link.old) (K.written out.old))
        (told (C.readings clock.new) (L.calls link.new) (K.written out.new))) }
    ensures broken { (why : Stopped) → IsErrOf result (Turns why) →
        ScriptComesTo settings places bytes.now (Err why)
        (told (C.readings clock.old) (L.calls link.old) (K.written out.old))
        (told (C.readings clock.new) (L.calls link.new) (K.written out.new)) }
    ensures bad_line { (line : ℕ) → IsErrOf result (Script (BadLine line)) →
        HasNodeFault settings IsOutside line bytes.now }
    ensures limit { (which : Limited) (at : ℕ) → IsErrOf result (Script (Limit which at)) →
        HasNodeFault settings (PassesLimit which) at bytes.now }
    ensures not_skewed { (line earlier : ℕ) → IsErrOf result (Script (Skewed line earlier)) → ⊥ }
    ensures read { IsReadWhole result }
    ensures write_fault { IsErrOf result (Turns Write) →
        Rose (K.faults out.old) (K.faults out.new) }
    ensures quiet_output { OnOk result (K.faults out.new ≡ K.faults out.old) }
    ensures link { IsNotScript result → link.new ≡ link.old }
    ensures clock { IsNotScript result → clock.new ≡ clock.old }
    ensures out { IsNotScript result → out.new ≡ out.old }
{
    match read_script(alloc, is_client(settings.who), settings.servers, bytes) {
        Ok(script) => match started(alloc, settings, places, script, clock, link, out) {
            Ok(()) => Ok(()),
            Err(why) => Err(LaunchError::Turns { why }),
        },
        Err(why) => Err(LaunchError::Script { why }),
    }
}

fn is_client(who: Peer) -> bool
    ensures { result ≡ is_client who }
{
    match who {
        Peer::Server(_) => false,
        Peer::Client(_) => true,
    }
}
