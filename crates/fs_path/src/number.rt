//! The numbers of a server's path leases.
ghost use Rattle.std.specs.Prelude.{◌≡◌};
ghost use Rattle.fs_path.specs.Numbers.{next_path};

use fs_ident::PathNo;

/// The number of the next path lease that the server `me` gives out, where it has given out `given` so far; none exactly where
/// these are u64::MAX, and the numbers are spent.
pub fn next_path(me: u8, given: u64) -> Option<PathNo>
    ensures { result ≡ next_path me given }
{
    if given < u64::MAX {
        Some(PathNo {
            server: me,
            count: given + 1,
        })
    } else {
        None
    }
}
