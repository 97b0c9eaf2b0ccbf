//! Where entries of the log are handed in.
ghost use Rattle.std.specs.Prelude.{◌≡◌};
ghost use Rattle.std.specs.Option.{option_copied};
ghost use Rattle.fs_client.specs.Home.{first_home};

use fs_ident::FileId;
use fs_msg::Entry;

/// The home of the first entry.
pub(crate) fn first_home(log: &[Entry]) -> Option<&FileId>
    ensures { option_copied result ≡ first_home log.now }
{
    match log {
        [] => None,
        [first, ..] => Some(first.op.home()),
    }
}
