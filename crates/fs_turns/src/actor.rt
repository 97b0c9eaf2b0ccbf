//! What a node runs.
ghost use Rattle.std.specs.Prelude.{◌≡◌, ℕ, Bool, None, Some, Option, IfOk, IsErrOf, OnOk};
ghost use Rattle.fs_io.specs.Calls.{Datagram};
ghost use Rattle.fs_msg.specs.declared.core_error.Counter.{Counter as TheCounter};
ghost use Rattle.fs_turns.specs.Run.{Stepped, datagram_of};

use fs_ident::List;
use fs_io::Addr;
use fs_msg::CoreError;
use std::alloc::Global;

/// What a turn of an actor comes to: the packets that are due, each with the address of its addressee where it has one, and the
/// lines.
#[derive(Debug, Drop)]
pub struct Turn {
    pub due: List<(Option<Addr>, List<u8>)>,
    pub lines: Vec<u8>,
}

/// What a node runs: an actor with its links and its script.
pub trait Actor {
    /// Whether it makes no more turns.
    ghost is_over: { Self → Bool };

    /// What a turn at a reading makes of it, and of the datagram that came, if one did.
    ghost step: { Self → ℕ → Option Datagram → Stepped Self };

    /// Whether it makes no more turns.
    fn is_over(&self) -> bool
        ensures { result ≡ is_over self.now };

    /// A turn at this reading, with the datagram that came, if one did. `Spent` where a number after a counter's last one
    /// is needed.
    fn step(
        &mut self,
        alloc: Global,
        reading: u64,
        came: Option<(Addr, &[u8])>,
    ) -> Result<Turn, CoreError>
        ensures after { OnOk result (self.new ≡
            (step self.old reading (datagram_of came.entry)).after) }
        ensures due { IfOk result (λ t. t.due ≡
            (step self.old reading (datagram_of came.entry)).due) }
        ensures lines { IfOk result (λ t.
            t.lines.items ≡ (step self.old reading (datagram_of came.entry)).lines) }
        ensures whole { OnOk result (
            (step self.old reading (datagram_of came.entry)).spent ≡ None) }
        ensures spent { (counter : TheCounter) → IsErrOf result (CoreError.Spent counter) →
            (step self.old reading (datagram_of came.entry)).spent ≡ Some counter };
}
