//! Laws of tables of rows on modes: they stay without conflict, and what was told stays true.
ghost use Rattle.std.specs.Prelude.{◌≡◌, ℕ, Bool, List, Some, None, map, not, true, false};
ghost use Rattle.fs_ident.specs.Ordered.{Keyed};
ghost use Rattle.fs_rows.specs.Granted.{with_rows};
ghost use Rattle.fs_rows.specs.Moving.{rows_given, rows_left};
ghost use Rattle.std.specs.List.{filter, list_any};
ghost use Rattle.fs_ident.specs.In.{In};
ghost use Rattle.fs_ident.specs.declared.actor.LeaseNo.{LeaseNo};
ghost use Rattle.fs_ident.specs.declared.actor.Session.{Session};
ghost use Rattle.fs_ident.specs.declared.actor.TxnNo.{TxnNo};
ghost use Rattle.fs_modes.specs.declared.modes.Mode.{Mode};
ghost use Rattle.fs_field.specs.declared.field.Field.TheVariants.{SelfW, Other};
ghost use Rattle.fs_field.specs.declared.lease_kind.LeaseKind.TheVariants.{Shared, Exclusive};
ghost use Rattle.fs_field.specs.declared.row.Row.{Row};
ghost use Rattle.fs_field.specs.Conflict.{Selves, NoConflict};
ghost use Rattle.fs_field.specs.Table.{has_no, is_live, renewed_row, locked_row, unlocked_row};
ghost use Rattle.fs_moderows.specs.Answer.{answer_self, answer_other, given_row, rows_after, reap_blocker};
ghost use Rattle.fs_moderows.specs.Kept.{ChangesByRows, KeptPromises, others_have, selves_without};
ghost use Rattle.fs_moderows.specs.Moving.{are_on_modes, fits};
ghost use Rattle.fs_moderows.specs.Table.{IsModeTable};

/// After a question of a session that would change what it tells, rows are without conflict, and promises kept, where
/// they were, by the handles that the answer looked at.
pub fn asking_for_self_is_safe()
    ensures free { (selves : Selves) (rows : List Row) (no : LeaseNo) (y : Session) (f : List ℕ)
        (m : Mode) (until : ℕ) → IsModeTable rows → NoConflict selves rows →
        NoConflict selves (rows_after (answer_self (selves f) rows y f m)
        (given_row no y (SelfW f m) Exclusive until) rows) }
    ensures kept { (selves : Selves) (rows : List Row) (no : LeaseNo) (y : Session) (f : List ℕ)
        (m : Mode) (until : ℕ) → KeptPromises selves rows →
        KeptPromises selves (rows_after (answer_self (selves f) rows y f m)
        (given_row no y (SelfW f m) Exclusive until) rows) }
{}

/// After a question of a session that would know what others have, rows are without conflict, and promises kept, where
/// they were, by the handles that the answer looked at.
pub fn asking_for_other_is_safe()
    ensures free { (selves : Selves) (rows : List Row) (no : LeaseNo) (x : Session) (f : List ℕ)
        (m : Mode) (until : ℕ) → IsModeTable rows → NoConflict selves rows →
        NoConflict selves (rows_after (answer_other (selves f) rows x f m)
        (given_row no x (Other f m) Shared until) rows) }
    ensures kept { (selves : Selves) (rows : List Row) (no : LeaseNo) (x : Session) (f : List ℕ)
        (m : Mode) (until : ℕ) → KeptPromises selves rows →
        KeptPromises selves (rows_after (answer_other (selves f) rows x f m)
        (given_row no x (Other f m) Shared until) rows) }
{}

/// Whoever has handles: rows without conflict are so after a release, a lapse, a renewal, a lock and an unlock.
pub fn rows_stay_without_conflict()
    ensures released { (selves : Selves) (rows : List Row) (no : LeaseNo) → IsModeTable rows →
        NoConflict selves rows → NoConflict selves (filter (λ r. not (has_no no r)) rows) }
    ensures lapsed { (selves : Selves) (rows : List Row) (now skew : ℕ) → IsModeTable rows →
        NoConflict selves rows → NoConflict selves (filter (is_live now skew) rows) }
    ensures renewed { (selves : Selves) (rows : List Row) (no : LeaseNo) (until : ℕ) →
        IsModeTable rows → NoConflict selves rows →
        NoConflict selves (map (renewed_row no until) rows) }
    ensures locked { (selves : Selves) (rows : List Row) (no : LeaseNo) (txn : TxnNo) →
        IsModeTable rows → NoConflict selves rows →
        NoConflict selves (map (locked_row no txn) rows) }
    ensures unlocked { (selves : Selves) (rows : List Row) (txn : TxnNo) → IsModeTable rows →
        NoConflict selves rows → NoConflict selves (map (unlocked_row txn) rows) }
{}

/// Whoever has handles: promises that are kept are so after a release, a lapse, a renewal, a lock and an unlock.
pub fn promises_stay_kept()
    ensures released { (selves : Selves) (rows : List Row) (no : LeaseNo) →
        KeptPromises selves rows → KeptPromises selves (filter (λ r. not (has_no no r)) rows) }
    ensures lapsed { (selves : Selves) (rows : List Row) (now skew : ℕ) →
        KeptPromises selves rows → KeptPromises selves (filter (is_live now skew) rows) }
    ensures renewed { (selves : Selves) (rows : List Row) (no : LeaseNo) (until : ℕ) →
        KeptPromises selves rows → KeptPromises selves (map (renewed_row no until) rows) }
    ensures locked { (selves : Selves) (rows : List Row) (no : LeaseNo) (txn : TxnNo) →
        KeptPromises selves rows → KeptPromises selves (map (locked_row no txn) rows) }
    ensures unlocked { (selves : Selves) (rows : List Row) (txn : TxnNo) →
        KeptPromises selves rows → KeptPromises selves (map (unlocked_row txn) rows) }
{}

/// Where no row keeps a session from losing its handles on a file, rows are without conflict, and promises kept, where
/// they were, once it lost them.
pub fn reaps_are_safe()
    ensures free { (selves : Selves) (rows : List Row) (s : Session) (f : List ℕ) →
        IsModeTable rows → reap_blocker (selves f) rows s f ≡ None → NoConflict selves rows →
        NoConflict (selves_without f s selves) rows }
    ensures kept { (selves : Selves) (rows : List Row) (s : Session) (f : List ℕ) →
        reap_blocker (selves f) rows s f ≡ None → KeptPromises selves rows →
        KeptPromises (selves_without f s selves) rows }
{}

/// Where handles come or go, and only sessions that a row lets do so come to have a mode or to have it no more, rows are
/// without conflict, and promises kept, where they were.
pub fn changes_by_rows_are_safe()
    ensures free { (rows : List Row) (before changed : Selves) → IsModeTable rows →
        ChangesByRows rows before changed → NoConflict before rows → NoConflict changed rows }
    ensures kept { (rows : List Row) (before changed : Selves) →
        ChangesByRows rows before changed → KeptPromises before rows → KeptPromises changed rows }
{}

/// Rows whose promises are kept do not conflict.
pub fn kept_promises_are_without_conflict()
    ensures { (selves : Selves) (rows : List Row) → IsModeTable rows → KeptPromises selves rows →
        NoConflict selves rows }
{}

/// A promise that is kept is whether another session has the mode.
pub fn promises_are_what_others_have()
    ensures { (selves : Selves) (rows : List Row) → KeptPromises selves rows → (row : Row) →
        In row rows → (f : List ℕ) (m : Mode) (promise : Bool) → row.field ≡ Other f m →
        row.promise ≡ Some promise → promise ≡ others_have (selves f) m row.session }
{}

/// Rows that come beside those of a table, with new numbers that fit, leave it without conflict where it was; and
/// whatever goes leaves it so.
pub fn moved_rows_are_safe()
    ensures came { (selves : Selves) (rows more : List Row) → IsModeTable rows →
        are_on_modes more ≡ true → fits selves rows more ≡ true →
        NoConflict selves rows → NoConflict selves (with_rows more rows) }
    ensures gone { (selves : Selves) (rows : List Row) (prefix : List ℕ) (given : Keyed Bool) →
        IsModeTable rows → NoConflict selves rows →
        NoConflict selves (rows_left prefix given rows) }
{}
