//! The first entries of the log are known to be admitted.
ghost use Rattle.std.specs.Prelude.{◌≡◌, ◌≤◌, drop, take, length, OnOk, OnErr};
ghost use Rattle.fs_client.specs.Client.{begun, with_shipped};
ghost use Rattle.fs_client.specs.Admitted.{freed};

use crate::commits::begin;
use crate::state::Client;
use fs_ident::Memory;
use fs_msg::Entry;
use fs_view::View;
use std::alloc::Global;

/// So many entries leave the log: what they did joins the values, and their leases are unpinned. The refused entry is
/// noted, and no question stands any more.
pub(crate) fn admit(
    alloc: Global,
    client: &mut Client,
    now: u64,
    count: u64,
    over: Option<u64>,
) -> Result<(), Memory>
    ensures ok { OnOk result (client.new ≡ with_shipped count over (begun now client.old)) }
    ensures err { OnErr result (client.new ≡ client.old) }
{
    let count = count as usize;
    let some = front(client.log.as_slice(), count).len();
    client.view.admit_front(alloc, some)?;
    begin(client, now);
    free_all(&mut client.view, front(client.log.as_slice(), count));
    drop_front(client.log.items_mut(), count);
    client.over = over;
    client.exchange = None;
    Ok(())
}

/// The leases that these entries used are unpinned.
fn free_all(view: &mut View, entries: &[Entry])
    ensures { view.new ≡ freed entries.now view.old }
{
    for entry in entries {
        view.unpin(&entry.uses);
    }
}

/// The first so many entries, or all.
pub(crate) fn front(log: &[Entry], count: usize) -> &[Entry]
    ensures { result.now ≡ take count log.now }
{
    if count < log.len() {
        &log[..count]
    } else {
        log
    }
}

/// Takes the first so many entries away, or all.
fn drop_front(log: &mut Vec<Entry>, count: usize)
    ensures { log.new.items ≡ drop count log.old.items }
{
    let count = count.min(log.len());
    let rest = log.len() - count;
    log.rotate_left(count);
    log.truncate(rest);
}
