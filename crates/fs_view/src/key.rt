//! The number of a lease as a key.
ghost use Rattle.std.specs.Prelude.{◌≡◌};
ghost use Rattle.fs_view.specs.Index.{key_of};

use fs_ident::LeaseNo;

/// The number of a lease, as a key that is found by its hash.
#[derive(Clone, Copy, Debug, PartialEq, Eq, Hash)]
pub(crate) struct Key {
    server: u8,
    count: u64,
}

impl Key {
    pub(crate) fn of(no: LeaseNo) -> Key
        ensures { result ≡ key_of no }
    {
        Key {
            server: no.server,
            count: no.count,
        }
    }
}
