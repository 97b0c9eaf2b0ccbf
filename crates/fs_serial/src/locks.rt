//! A lock is no part of a lease's row.
ghost use Rattle.fs_serial.specs.Locks.{LockKeepsParts, UnlockKeepsParts};

/// Where all parts hold, they hold after a row is locked for a transaction, and after the rows of a transaction are
/// unlocked.
pub fn a_lock_keeps_the_parts()
    ensures locked { LockKeepsParts }
    ensures unlocked { UnlockKeepsParts }
{}
