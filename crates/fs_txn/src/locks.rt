//! Laws of the locks of one server's rows.
ghost use Rattle.fs_txn.specs.Locks.{CommitKeepsLocks, DecideKeepsLocks, LastDoneKeepsLocks, OthersKeepLocks, YesKeepsLocks};

/// Rows stay locked for each part that said Yes until its decision is applied, behind a commit until all others know it, and for
/// no other transaction; the last part of a transaction unlocks its rows. Every other kind of step keeps this where it leaves locks.
pub fn steps_keep_locks()
    ensures agreed { YesKeepsLocks }
    ensures applied { DecideKeepsLocks }
    ensures committed { CommitKeepsLocks }
    ensures last { LastDoneKeepsLocks }
    ensures others { OthersKeepLocks }
{}
