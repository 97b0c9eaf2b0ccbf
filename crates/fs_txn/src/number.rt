//! The numbers of a server's transactions.
ghost use Rattle.std.specs.Prelude.{◌≡◌};
ghost use Rattle.fs_txn.specs.Numbers.{next_txn};

use fs_ident::TxnNo;

/// The number of the next transaction that the server `me` leads, where it has led `given` so far; none exactly where these are
/// u64::MAX, and the numbers are spent.
pub fn next_txn(me: u8, given: u64) -> Option<TxnNo>
    ensures { result ≡ next_txn me given }
{
    if given < u64::MAX {
        Some(TxnNo {
            server: me,
            count: given + 1,
        })
    } else {
        None
    }
}
