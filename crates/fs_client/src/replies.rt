//! One entry more.
ghost use Rattle.std.specs.Prelude.{◌≡◌, ◌+◌, ◌<◌, true, length, OnOk, OnErr};
ghost use Rattle.fs_client.specs.Client.{begun, can_change, with_reply};

use crate::change::Change;
use crate::commits::begin;
use crate::state::Client;
use fs_field::Effect;
use fs_ident::{List, Memory};
use fs_msg::Entry;

/// The entry joins the log, with what it will do; its leases are pinned, and its number is used up.
pub(crate) fn reply(
    client: &mut Client,
    now: u64,
    entry: Entry,
    effects: List<Effect>,
) -> Result<(), Memory>
    requires { can_change (Change.Reply entry effects) (begun now client.old) ≡ true }
    ensures ok { OnOk result (client.new ≡ with_reply entry effects (begun now client.old)) }
    ensures err { OnErr result (client.new ≡ client.old) }
{
    let at = client.log.len();
    client.log.push(entry)?;
    match client.view.append(effects) {
        Ok(()) => {}
        Err(e) => {
            client.log.truncate(at);
            return Err(e);
        }
    }
    begin(client, now);
    client.view.pin(&client.log.as_slice()[at].uses);
    client.next += 1;
    Ok(())
}
