//! Laws of parts, votes, locks and decisions.
ghost use Rattle.std.specs.Prelude.{◌≡◌, ◌≤◌, ◌==◌, ◌++◌, ℕ, [], List, length, map, Option, Some, true, false, slice_get, is_some};
ghost use Rattle.std.specs.List.{flat_map};
ghost use Rattle.fs_field.specs.Conflict.{NoPlainConflict};
ghost use Rattle.fs_field.specs.Table.{is_lease};
ghost use Rattle.fs_field.specs.declared.effect.Effect.{Effect};
ghost use Rattle.fs_field.specs.declared.path.PathAnswer.{PathAnswer};
ghost use Rattle.fs_field.specs.declared.row.Row.{Row};
ghost use Rattle.fs_field.specs.declared.used.Part.{Part};
ghost use Rattle.fs_field.specs.declared.used.Use.{Use};
ghost use Rattle.fs_field.specs.declared.vote.Vote.{Vote};
ghost use Rattle.fs_field.specs.declared.vote.Vote.TheVariants.{Yes};
ghost use Rattle.fs_ident.specs.Ident.{same};
ghost use Rattle.fs_ident.specs.In.{In};
ghost use Rattle.fs_ident.specs.declared.actor.PathNo.{PathNo};
ghost use Rattle.fs_ident.specs.declared.actor.Session.{Session};
ghost use Rattle.fs_ident.specs.declared.actor.TxnNo.{TxnNo};
ghost use Rattle.fs_map.specs.Map.{Owners};
ghost use Rattle.fs_model.specs.Asking.{home_of};
ghost use Rattle.fs_model.specs.Namespace.{NodeMap};
ghost use Rattle.fs_model.specs.declared.op.Op.{Op};
ghost use Rattle.fs_model.specs.declared.reply.Reply.{Reply};
ghost use Rattle.fs_record.specs.Applied.{records_after_all};
ghost use Rattle.fs_record.specs.LedEffects.{led_effects};
ghost use Rattle.fs_record.specs.Records.{AreRecords, RecordMap};
ghost use Rattle.fs_record.specs.declared.led_end.LedEnd.{LedEnd};
ghost use Rattle.fs_txn.specs.Decided.{AreApart, AreDecided, IsApart, SplitIsOneStep, held_with};
ghost use Rattle.fs_txn.specs.Deciding.{decision, effects_on, told_effects};
ghost use Rattle.fs_txn.specs.Grants.{GrantIsTrue};
ghost use Rattle.fs_txn.specs.Guards.{IsGuarded};
ghost use Rattle.fs_txn.specs.Locks.{rows_decided, without_part};
ghost use Rattle.fs_txn.specs.Parts.{parts_of, source_of};
ghost use Rattle.fs_txn.specs.Preparing.{rows_voted, table_of, uses_of_modes, uses_off, vote_on};
ghost use Rattle.fs_txn.specs.Ready.{agreed_of, records_decided, rows_left_by, without_prepared};
ghost use Rattle.fs_txn.specs.Votes.{after_vote, after_votes, are_awaited, awaits, counted_of, is_moved};
ghost use Rattle.fs_txn.specs.declared.decision.Decision.{Decision};
ghost use Rattle.fs_txn.specs.declared.decision.Decision.TheVariants.{Commit, Abort};
ghost use Rattle.fs_txn.specs.declared.leader.Leader.{Leader};
ghost use Rattle.fs_txn.specs.declared.mode.Mode2.{Mode2};
ghost use Rattle.fs_txn.specs.declared.ready.Ready.{Ready};

/// Where a leader commits, every part voted Yes.
pub fn a_commit_has_every_yes()
    ensures { (l : Leader) (path : Option PathAnswer) (reply : Reply)
        (effects : List (List Effect)) →
        decision l path ≡ Commit reply effects → (v : Option Vote) → In v l.votes → v ≡ Some Yes }
{}

/// Of the votes that come one after another, each awaited when it comes, at most one of a part is counted; it stays as it was
/// counted.
pub fn a_part_votes_once()
    ensures once { (l : Leader) (part : ℕ) (votes : List (ℕ × Vote)) → are_awaited votes l ≡ true →
        length (counted_of part votes) ≤ 1 }
    ensures counted { (l : Leader) (part : ℕ) (v : Vote) → awaits l part ≡ true →
        is_moved v ≡ false →
        slice_get (after_vote part v l).votes part ≡ Some (Some v) }
    ensures stays { (l : Leader) (part : ℕ) (v : Vote) (votes : List (ℕ × Vote)) →
        slice_get l.votes part ≡ Some (Some v) → are_awaited votes l ≡ true →
        slice_get (after_votes votes l).votes part ≡ Some (Some v) }
{}

/// An abort has no effects, at any part.
pub fn aborts_have_no_effects()
    ensures { (end : LedEnd) (part : ℕ) → told_effects (Abort end) part ≡ [] }
{}

/// Two parts of a transaction are told effects on different files. Every part but the home's is told no more than that a name
/// goes, that a file gets its place, or that it goes.
pub fn parts_are_told_apart()
    ensures files { (op : Op) (file : List ℕ) (uses : List Use) (mode : Mode2) (j k : ℕ)
        (a b : Part) →
        (j == k) ≡ false → slice_get (parts_of op file uses mode) j ≡ Some a →
        slice_get (parts_of op file uses mode) k ≡ Some b → same a.file b.file ≡ false }
    ensures apart { (l : Leader) (uses : List Use) (path : Option PathAnswer) (j k : ℕ) →
        l.parts ≡ parts_of l.op l.file uses l.mode → (j == k) ≡ false →
        AreApart (told_effects (decision l path) j) (told_effects (decision l path) k) }
    ensures decided { (l : Leader) (path : Option PathAnswer) (k : ℕ) (a : Part) →
        slice_get l.parts k ≡ Some a → same a.file (home_of l.op) ≡ false →
        AreDecided (told_effects (decision l path) k) }
{}

/// A server that votes Yes has a locked row of the session for each lease of the part.
pub fn a_yes_locks_every_lease()
    ensures { (rows modes : List Row) (owners : Owners) (me now : ℕ) (by : Session) (txn : TxnNo)
        (p : Part) (through : Option PathNo) →
        vote_on rows modes owners me now by p through ≡ Yes → (u : Use) → In u p.uses →
        (r : Row) × In r (table_of (rows_voted Yes txn (uses_off p.uses) rows)
        (rows_voted Yes txn (uses_of_modes p.uses) modes) u) ×
        (is_lease u.no by u.field u.kind r ≡ true) × (is_some r.lock ≡ true) }
{}

/// What is decided and on its way goes past what servers apply meanwhile, where these are apart: an admission changes the records
/// and what all hold together by the same effects; a commit that applies its own effects and sends the others is one step of what
/// all hold; a part that applies what was decided changes nothing of it.
pub fn decided_effects_go_past()
    ensures admission { (m : RecordMap) (decided es : List Effect) → AreRecords m →
        AreDecided decided → AreApart decided es →
        held_with decided (records_after_all m es) ≡ records_after_all (held_with decided m) es }
    ensures commit { (m : RecordMap) (decided own remote : List Effect) → AreRecords m →
        AreDecided decided → AreApart decided own →
        held_with (decided ++ remote) (records_after_all m own) ≡
        records_after_all (held_with decided m) (own ++ remote) }
    ensures decide { (m : RecordMap) (front its back : List Effect) → AreRecords m →
        AreDecided front → AreApart front its →
        held_with (front ++ back) (records_after_all m its) ≡
        held_with (front ++ (its ++ back)) m }
{}

/// A commit that applies the effects of the leader's own parts and sends the others, whichever these are, is one step of what all
/// servers hold together: all its effects in their order.
pub fn a_split_commit_is_one_step()
    ensures { SplitIsOneStep }
{}

/// What leaders tell other servers keeps its order where what takes a file or a name away comes behind the rest.
pub fn what_leaders_tell_keeps_its_order()
    ensures { (m : RecordMap) (es : List Effect) → AreDecided es →
        records_decided es m ≡ records_after_all m es }
{}

/// Where a part is decided, the parts that still wait and the rows are those of which the laws of locks speak.
pub fn decisions_leave_parts_and_locks()
    ensures parts { (txn : TxnNo) (number : ℕ) (prepared : List Ready) →
        map agreed_of (without_prepared txn number prepared) ≡
        without_part (record { txn = txn; part = number }) (map agreed_of prepared) }
    ensures rows { (txn : TxnNo) (number : ℕ) (prepared : List Ready) (rows : List Row) →
        rows_left_by txn (without_prepared txn number prepared) rows ≡
        rows_decided (record { txn = txn; part = number }) rows (map agreed_of prepared) }
{}

/// Effects that are decided for two sessions are apart while both have their rows locked.
pub fn guarded_effects_are_apart()
    ensures { (rows : List Row) (held : NodeMap) (x y : Session) (d e : Effect) →
        NoPlainConflict rows →
        (x.0 == y.0) ≡ false → IsGuarded rows held x d → IsGuarded rows held y e → IsApart d e }
{}

/// All parts together are told the operation's effects, in order, where the file that moves or goes is not a directory that gets or
/// loses its name. Whatever it is, records to which all parts are applied, one after another, are those after the operation's effects.
pub fn parts_share_all_effects()
    ensures told { (op : Op) (file : List ℕ) (uses : List Use) (mode : Mode2) (reply : Reply) →
        same file (home_of op) ≡ false → same file (source_of op) ≡ false →
        flat_map (λ (a : Part). effects_on (led_effects op file reply) a.file)
        (parts_of op file uses mode) ≡
        led_effects op file reply }
    ensures records { (m : RecordMap) (op : Op) (file : List ℕ) (uses : List Use) (mode : Mode2)
        (reply : Reply) →
        records_after_all m (flat_map (λ (a : Part). effects_on (led_effects op file reply) a.file)
        (parts_of op file uses mode)) ≡
        records_after_all m (led_effects op file reply) }
{}

/// What a server tells with a lease that it gives is what all servers hold together, though effects that were decided for other
/// sessions are still on their way to its records; but for size and stamp of a file that goes.
pub fn a_grant_is_true()
    ensures { GrantIsTrue }
{}
