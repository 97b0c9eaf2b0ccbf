//! Laws of needs and replies.
ghost use Rattle.std.specs.Prelude.{◌≡◌, ◌==◌, ℕ, length, List, false, true, not, None, Some, is_some};
ghost use Rattle.std.specs.List.{list_any};
ghost use Rattle.fs_field.specs.declared.field.Field.{Field};
ghost use Rattle.fs_field.specs.declared.lease_kind.LeaseKind.{LeaseKind};
ghost use Rattle.fs_ident.specs.declared.actor.Session.{Session};
ghost use Rattle.fs_model.specs.Namespace.{NodeMap};
ghost use Rattle.fs_model.specs.Sound.{IsSound, is_change};
ghost use Rattle.fs_model.specs.Step.{is_empty, step};
ghost use Rattle.fs_model.specs.declared.op.Op.{Op};
ghost use Rattle.fs_model.specs.declared.op.Op.TheVariants as op;
ghost use Rattle.fs_model.specs.declared.reply.Reply.{Reply};
ghost use Rattle.fs_record.specs.Effects.{effects_of, tells_its_effects};
ghost use Rattle.fs_record.specs.Records.{AreRecords, RecordMap, nodes_of};
ghost use Rattle.fs_record.specs.ValueOf.{is_other, value_of};
ghost use Rattle.fs_view.specs.Laws.{AgreeOn, AreAnsweredAlike, but_cycle, HasAll, IsBestOf, IsOffered, IsUnborn, IsNewWhereMade, IsUsedByBest, NoneIsOffered, have_room, item_meets};
ghost use Rattle.fs_view.specs.LedLaws.{LedValuesFollow, LedValuesStay};
ghost use Rattle.fs_view.specs.declared.view_lease.ViewLease.{ViewLease};
ghost use Rattle.fs_view.specs.ViewLease.{serves};
ghost use Rattle.fs_record.specs.Applied.{records_after_all};
ghost use Rattle.fs_view.specs.View.{View, are_distinct, can_pin_all, fresh, nameless, taken, uses_in, value_after_all};
ghost use Rattle.fs_view.specs.Walk.{Known, Given, walk, known_in, always};

/// An operation stands on its items alone: where nothing is missing, whoever knows the items, with the same values,
/// needs the same and gets the same reply.
pub fn needs_are_enough()
    ensures { (known other : Known) (given others : Given) (op : Op) →
        is_some (walk known given op).reply ≡ true →
        HasAll known other others (walk known given op).items →
        walk other others op ≡ walk known given op }
{}

/// With the values of a space the reply of a plain operation is the one that the operation gets in that space. A
/// file is made only under an identifier that is named, of the directory, and of no file that lives.
pub fn replies_are_the_step()
    ensures { (m : NodeMap) (by : Session) (op : Op) (reply : Reply) → tells_its_effects op ≡ true →
        IsNewWhereMade m op reply → (walk (known_in m by) always op).reply ≡ Some reply →
        (step m by op).reply ≡ reply }
{}

/// With the values of a sound space the reply of a delete is the one that it gets in that space.
pub fn deletes_are_the_step()
    ensures { (m : NodeMap) (by : Session) (dir name : List ℕ) → IsSound m →
        (walk (known_in m by) always (op.Delete dir name)).reply ≡
        Some (step m by (op.Delete dir name)).reply }
{}

/// With the values of a space the reply of a rename is the one that it gets in that space, but that no field tells
/// that a directory would come into itself.
pub fn renames_are_the_step()
    ensures { (m : NodeMap) (by : Session) (sdir sname ddir dname : List ℕ) →
        (walk (known_in m by) always (op.Rename sdir sname ddir dname)).reply ≡
        Some (but_cycle (step m by (op.Rename sdir sname ddir dname)).reply) }
{}

/// A plain operation has effects exactly where its reply is one of a change.
pub fn reads_have_no_effects()
    ensures { (m : NodeMap) (by : Session) (op : Op) (reply : Reply) → tells_its_effects op ≡ true →
        (step m by op).reply ≡ reply → is_empty (effects_of by op reply) ≡ not (is_change reply) }
{}

/// After the effects of a plain operation that got its reply the session itself sees of every field what the
/// effects make of the value that it saw.
pub fn own_values_follow()
    ensures { (m : RecordMap) (by : Session) (op : Op) (reply : Reply) (field : Field) →
        AreRecords m → tells_its_effects op ≡ true → (step (nodes_of m) by op).reply ≡ reply →
        value_of (records_after_all m (effects_of by op reply)) by field ≡
        value_after_all by field (value_of m by field) (effects_of by op reply) }
{}

/// After the effects of a plain operation that got its reply another session sees of a field what it saw before,
/// unless an exclusive item of the operation meets the field. What it is told of others' modes is apart.
pub fn other_values_stay()
    ensures { (m : RecordMap) (by other : Session) (op : Op) (reply : Reply) (field : Field)
        (kind : LeaseKind) → AreRecords m → tells_its_effects op ≡ true →
        (step (nodes_of m) by op).reply ≡ reply →
        (by.0 == other.0) ≡ false → is_other field ≡ false →
        list_any (item_meets field kind) (walk (known_in (nodes_of m) by) always op).items ≡ false →
        value_of (records_after_all m (effects_of by op reply)) other field ≡
        value_of m other field }
{}

/// After the effects of a delete or a rename that got its reply any session sees of every field what the effects make of the
/// value that it saw. That is what it saw, unless an exclusive item of the operation meets the field, or the field is size
/// and stamp of a file that went.
pub fn led_values_follow()
    ensures follow { LedValuesFollow }
    ensures stay { LedValuesStay }
{}

/// The leases that an operation is answered from take an entry more each, where no lease has too many already.
pub fn uses_can_be_pinned()
    ensures { (v : View) (now : ℕ) (op : Op) → are_distinct v.leases ≡ true →
        have_room (length (uses_in v now op)) v.leases ≡ true →
        can_pin_all (uses_in v now op) v.leases ≡ true }
{}

/// Of several leases that serve for a field the one is taken that no other one is better than, and none only where none
/// serves. For a fresh identifier it is the one that is taken for the life of its file.
pub fn the_best_lease_is_taken()
    ensures best { (v : View) (now : ℕ) (field : Field) (kind : LeaseKind) (k : ViewLease) →
        taken v now field kind ≡ Some k → IsBestOf v.leases now field kind k }
    ensures none { (v : View) (now : ℕ) (field : Field) (kind : LeaseKind) →
        taken v now field kind ≡ None →
        list_any (λ (k : ViewLease). serves now field kind k.standing) v.leases ≡ false }
    ensures fresh { (v : View) (now : ℕ) (dir id : List ℕ) →
        fresh v now dir ≡ Some id → IsUsedByBest v now dir id }
{}

/// An identifier is there for a new file in the directory exactly where an exclusive lease on the life of its file serves,
/// the identifier was given for that directory, and no entry of the log makes the file.
pub fn identifiers_are_offered_by_leases()
    ensures some { (v : View) (now : ℕ) (dir id : List ℕ) →
        fresh v now dir ≡ Some id → IsOffered v now dir id }
    ensures none { (v : View) (now : ℕ) (dir : List ℕ) →
        fresh v now dir ≡ None → NoneIsOffered v now dir }
{}

/// An operation stands on the values of its needs: two sound spaces that agree on them, as one session sees them, give it
/// the same reply and the same effects. Apart are a create whose identifier has a node, and whether a rename would bring
/// a directory into itself: ancestors alone tell that.
pub fn operations_stand_on_their_needs()
    ensures { (m n : NodeMap) (by : Session) (op : Op) → IsSound m → IsSound n →
        IsUnborn m op → IsUnborn n op →
        AgreeOn m n by (walk (known_in m by) always (nameless op)).items →
        AreAnsweredAlike m n by op }
{}
