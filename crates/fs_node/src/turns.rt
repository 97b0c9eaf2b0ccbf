//! What a turn comes to, whoever the actor is.
ghost use Rattle.std.specs.Prelude.{◌≡◌, IfOk, OnErr, OnOk, flat_map, length};
ghost use Rattle.fs_node.specs.Counting.{raised_by};
ghost use Rattle.fs_node.specs.Peers.{due_of};
ghost use Rattle.fs_report.specs.Report.{item_text};

use crate::peers::due_of;
use crate::texts::lines_of;
use fs_ident::{List, Memory, Peer};
use fs_io::Addr;
use fs_msg::Item;
use fs_turns::Turn;
use fs_window::Sent;
use std::alloc::Global;

/// The packets go out, and each of the items has its line and is counted.
pub(crate) fn turn_of(
    alloc: Global,
    peers: &[(Peer, Addr)],
    items: &[Item],
    packets: List<Sent>,
    admitted: &mut u64,
) -> Result<Turn, Memory>
    ensures due { IfOk result (λ t. t.due ≡ due_of peers.now packets) }
    ensures lines { IfOk result (λ t. t.lines.items ≡ flat_map item_text items.now) }
    ensures admitted { OnOk result (admitted.new ≡ raised_by admitted.old (length items.now)) }
    ensures err { OnErr result (admitted.new ≡ admitted.old) }
{
    let lines = lines_of(alloc, items)?;
    let due = due_of(alloc, peers, packets)?;
    *admitted = admitted.saturating_add(items.len() as u64);
    Ok(Turn { due, lines })
}
