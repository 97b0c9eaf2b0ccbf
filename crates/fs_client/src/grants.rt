//! Leases come.
ghost use Rattle.std.specs.Prelude.{◌≡◌, Some, true, take, length, OnOk, OnErr};
ghost use Rattle.fs_client.specs.Client.{begun, can_change, full_after, with_granted};

use crate::change::Change;
use crate::needs::is_among;
use crate::state::Client;
use fs_ident::{FileId, List, Memory};
use fs_view::NewLease;
use std::alloc::Global;

/// The leases join the others, a directory without a number left is remembered, and no question stands any more.
pub(crate) fn grant(
    alloc: Global,
    client: &mut Client,
    now: u64,
    leases: List<NewLease>,
    full: Option<FileId>,
) -> Result<(), Memory>
    requires { can_change (Change.Grant leases full) (begun now client.old) ≡ true }
    ensures ok { OnOk result (client.new ≡ with_granted leases full (begun now client.old)) }
    ensures err { OnErr result (client.new ≡ client.old) }
{
    let reading = client.last.max(now);
    let before = client.full.len();
    remember(&mut client.full, full)?;
    match client.view.grant_all(alloc, reading, leases) {
        Ok(()) => {}
        Err(e) => {
            client.full.truncate(before);
            return Err(e);
        }
    }
    client.last = reading;
    client.exchange = None;
    Ok(())
}

/// Adds the directory, if there is one and it is not there yet.
fn remember(full: &mut List<FileId>, dir: Option<FileId>) -> Result<(), Memory>
    ensures ok { OnOk result (full.new ≡ full_after dir full.old) }
    ensures back { OnOk result (take (length full.old) full.new ≡ full.old) }
    ensures err { OnErr result (full.new ≡ full.old) }
{
    match dir {
        None => Ok(()),
        Some(dir) => remember_one(full, dir),
    }
}

fn remember_one(full: &mut List<FileId>, dir: FileId) -> Result<(), Memory>
    ensures ok { OnOk result (full.new ≡ full_after (Some dir) full.old) }
    ensures back { OnOk result (take (length full.old) full.new ≡ full.old) }
    ensures err { OnErr result (full.new ≡ full.old) }
{
    if is_among(full.as_slice(), &dir) {
        return Ok(());
    }
    full.push(dir)
}
