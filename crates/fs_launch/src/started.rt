//! A node with its script.
ghost use Rattle.std.specs.Prelude.{◌≡◌, ◌≤◌, ◌<◌, OnOk, IsErrOf};
ghost use Rattle.std.specs.List.{AllByRecursion};
ghost use Rattle.fs_ident.specs.declared.limits.TheConstants.{SESSIONS};
ghost use Rattle.fs_io.specs.Faults.{Rose};
ghost use Rattle.fs_launch.specs.Launch.{ActorComesTo, ComesTo, client_role, is_client, server_role, told};
ghost use Rattle.fs_msg.specs.declared.limits.TheConstants.{LONGEST, SERVERS};
ghost use Rattle.fs_node.specs.ClientNode.{first_client_node};
ghost use Rattle.fs_node.specs.Scripts.{AreAskable};
ghost use Rattle.fs_node.specs.ServerNode.{first_server_node};
ghost use Rattle.fs_schedule.specs.Script.{FitsScript, served};
ghost use Rattle.fs_words.specs.Usage.{FitsSettings};

use crate::ended::{client_ended, server_ended};
use fs_ident::{List, Memory, Peer, Session};
use fs_io::{Addr, Clock, Link, Sink};
use fs_node::{ClientNode, ServerNode};
use fs_schedule::Script;
use fs_turns::Stop;
use fs_words::Settings;
use std::alloc::Global;

/// Runs the actor that the settings name, and writes its last lines.
pub(crate) fn started<C: Clock, L: Link, K: Sink>(
    alloc: Global,
    settings: Settings,
    places: List<(Peer, Addr)>,
    script: List<Script>,
    clock: &mut C,
    link: &mut L,
    out: &mut K,
) -> Result<(), Stop>
    requires fits { FitsSettings settings }
    requires script { AllByRecursion
        (FitsScript (is_client settings.who) (served settings.servers)) script }
    ensures comes { ActorComesTo settings.who settings places script result
        (told (C.readings clock.old) (L.calls link.old) (K.written out.old))
        (told (C.readings clock.new) (L.calls link.new) (K.written out.new)) }
    ensures fault { IsErrOf result Stop.Write → Rose (K.faults out.old) (K.faults out.new) }
    ensures quiet { OnOk result (K.faults out.new ≡ K.faults out.old) }
{
    match settings.who {
        Peer::Server(me) => server_started(alloc, settings, me, places, script, clock, link, out),
        Peer::Client(s) => client_started(alloc, settings, s, places, script, clock, link, out),
    }
}

/// Runs the client of this session, and writes its last lines.
fn client_started<C: Clock, L: Link, K: Sink>(
    alloc: Global,
    settings: Settings,
    session: Session,
    places: List<(Peer, Addr)>,
    script: List<Script>,
    clock: &mut C,
    link: &mut L,
    out: &mut K,
) -> Result<(), Stop>
    requires first { 1 ≤ session.0 }
    requires few { session.0 ≤ SESSIONS }
    requires some { 1 ≤ settings.term }
    requires most { settings.term ≤ LONGEST }
    requires askable { AreAskable script }
    ensures comes { ComesTo (client_role (first_client_node session settings.term places script))
        settings.turns result (told (C.readings clock.old) (L.calls link.old) (K.written out.old))
        (told (C.readings clock.new) (L.calls link.new) (K.written out.new)) }
    ensures fault { IsErrOf result Stop.Write → Rose (K.faults out.old) (K.faults out.new) }
    ensures quiet { OnOk result (K.faults out.new ≡ K.faults out.old) }
{
    match ClientNode::new(alloc, session, settings.term, places, script) {
        Ok(mut node) => {
            let ended = client_ended(alloc, settings.turns, &mut node, clock, link, out);
            node.discard();
            ended
        }
        Err(Memory) => Err(Stop::Memory),
    }
}

/// Runs this server, and writes its last lines.
fn server_started<C: Clock, L: Link, K: Sink>(
    alloc: Global,
    settings: Settings,
    me: u8,
    places: List<(Peer, Addr)>,
    script: List<Script>,
    clock: &mut C,
    link: &mut L,
    out: &mut K,
) -> Result<(), Stop>
    requires few { me < SERVERS }
    requires skew { settings.skew ≤ LONGEST }
    requires some { 1 ≤ settings.term }
    requires most { settings.term ≤ LONGEST }
    ensures comes { ComesTo
        (server_role (first_server_node me settings.skew settings.term places script))
        settings.turns result (told (C.readings clock.old) (L.calls link.old) (K.written out.old))
        (told (C.readings clock.new) (L.calls link.new) (K.written out.new)) }
    ensures fault { IsErrOf result Stop.Write → Rose (K.faults out.old) (K.faults out.new) }
    ensures quiet { OnOk result (K.faults out.new ≡ K.faults out.old) }
{
    match ServerNode::new(alloc, me, settings.skew, settings.term, places, script) {
        Ok(mut node) => server_ended(alloc, settings.turns, &mut node, clock, link, out),
        Err(Memory) => Err(Stop::Memory),
    }
}
