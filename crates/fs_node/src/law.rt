//! A law of a client's turns, over the definitions alone.
ghost use Rattle.std.specs.Prelude.{ℕ, List, Option};
ghost use Rattle.fs_ident.specs.declared.actor.Session.{Session};
ghost use Rattle.fs_io.specs.Calls.{Datagram};
ghost use Rattle.fs_node.specs.ClientNode.{client_step, first_client_node};
ghost use Rattle.fs_node.specs.Peers.{Peers};
ghost use Rattle.fs_node.specs.ScriptLines.{HasLines};
ghost use Rattle.fs_node.specs.declared.client_state.ClientState.{ClientState};
ghost use Rattle.fs_schedule.specs.declared.script.Script.{Script};

/// No more lines of a client's script are done than it has, whatever arrives; and while a server leads a line, one is left
/// that is not done. So the count of lines never comes to the end of its type.
pub fn no_more_lines_are_done_than_there_are()
    ensures first { (s : Session) (term : ℕ) (peers : Peers) (script : List Script) →
        HasLines (first_client_node s term peers script) }
    ensures turns { (x : ClientState) (reading : ℕ) (came : Option Datagram) → HasLines x →
        HasLines (client_step x reading came).after }
{}
