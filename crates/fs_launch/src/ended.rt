//! The turns of a node, and then its last lines.
ghost use Rattle.std.specs.Prelude.{◌≡◌, OnOk, OnErr, IfErr, IsErrOf};
ghost use Rattle.std.specs.Io.KnownBytes.{Appends};
ghost use Rattle.fs_io.specs.Bytes.{IsPrefixWritten};
ghost use Rattle.fs_io.specs.Faults.{Rose};
ghost use Rattle.fs_launch.specs.Launch.{ComesTo, client_role, server_role, told};

use fs_ident::Memory;
use fs_io::{Clock, Failed, Link, Sink, write_all};
use fs_node::{ClientNode, ServerNode};
use fs_turns::{Counts, Stop, run};
use std::alloc::Global;

/// The turns of a client's node, so many at most, and then its last lines.
pub(crate) fn client_ended<C: Clock, L: Link, K: Sink>(
    alloc: Global,
    turns: u64,
    node: &mut ClientNode,
    clock: &mut C,
    link: &mut L,
    out: &mut K,
) -> Result<(), Stop>
    ensures comes { ComesTo (client_role node.old) turns result
        (told (C.readings clock.old) (L.calls link.old) (K.written out.old))
        (told (C.readings clock.new) (L.calls link.new) (K.written out.new)) }
    ensures fault { IsErrOf result Stop.Write → Rose (K.faults out.old) (K.faults out.new) }
    ensures quiet { OnOk result (K.faults out.new ≡ K.faults out.old) }
{
    let mut counts = Counts {
        turns: 0,
        receive_faults: 0,
        send_faults: 0,
    };
    match run(alloc, turns, node, &mut counts, clock, link, out) {
        Ok(()) => match node.ending(alloc, &counts) {
            Ok(text) => written(out, &text),
            Err(Memory) => Err(Stop::Memory),
        },
        Err(why) => Err(why),
    }
}

/// The turns of a server's node, so many at most, and then its last lines.
pub(crate) fn server_ended<C: Clock, L: Link, K: Sink>(
    alloc: Global,
    turns: u64,
    node: &mut ServerNode,
    clock: &mut C,
    link: &mut L,
    out: &mut K,
) -> Result<(), Stop>
    ensures comes { ComesTo (server_role node.old) turns result
        (told (C.readings clock.old) (L.calls link.old) (K.written out.old))
        (told (C.readings clock.new) (L.calls link.new) (K.written out.new)) }
    ensures fault { IsErrOf result Stop.Write → Rose (K.faults out.old) (K.faults out.new) }
    ensures quiet { OnOk result (K.faults out.new ≡ K.faults out.old) }
{
    let mut counts = Counts {
        turns: 0,
        receive_faults: 0,
        send_faults: 0,
    };
    match run(alloc, turns, node, &mut counts, clock, link, out) {
        Ok(()) => match node.ending(alloc, &counts) {
            Ok(text) => written(out, &text),
            Err(Memory) => Err(Stop::Memory),
        },
        Err(why) => Err(why),
    }
}

/// Writes a node's last lines.
fn written<K: Sink>(out: &mut K, lines: &[u8]) -> Result<(), Stop>
    ensures done { OnOk result (Appends (K.written out.old) (K.written out.new) lines.now) }
    ensures cut { OnErr result
        (IsPrefixWritten (K.written out.old) (K.written out.new) lines.now) }
    ensures write { IfErr result (λ why. why ≡ Stop.Write) }
    ensures fault { OnErr result (Rose (K.faults out.old) (K.faults out.new)) }
    ensures quiet { OnOk result (K.faults out.new ≡ K.faults out.old) }
{
    match write_all(out, lines) {
        Ok(()) => Ok(()),
        Err(Failed) => Err(Stop::Write),
    }
}
