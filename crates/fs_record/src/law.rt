//! Laws of records.
ghost use Rattle.std.specs.Prelude.{◌≡◌, ◌⊎◌, ◌+◌, ◌<◌, ◌≤◌, ◌^◌, ℕ, Bool, List, length, Option, Some, None, true, false, not, ◌==◌, is_some, if◌then◌else◌};
ghost use Rattle.std.specs.FinMap.{empty, get};
ghost use Rattle.fs_ident.specs.Ordered.{Keyed};
ghost use Rattle.fs_map.specs.Map.{gives};
ghost use Rattle.std.specs.List.{filter};
ghost use Rattle.fs_field.specs.After.{value_after};
ghost use Rattle.fs_ident.specs.Ident.{same};
ghost use Rattle.fs_field.specs.declared.effect.Effect.{Effect};
ghost use Rattle.fs_field.specs.declared.field.Field.{Field};
ghost use Rattle.fs_ident.specs.declared.actor.Session.{Session};
ghost use Rattle.fs_model.specs.Namespace.{NodeMap};
ghost use Rattle.fs_model.specs.Step.{step};
ghost use Rattle.fs_model.specs.declared.op.Op.{Op};
ghost use Rattle.fs_model.specs.declared.op.Op.TheVariants.{Reap};
ghost use Rattle.fs_model.specs.declared.reply.Reply.{Reply};
ghost use Rattle.fs_record.specs.Applied.{records_after, records_after_all, nodes_after, nodes_after_all, has_target};
ghost use Rattle.fs_record.specs.Effects.{effects_of, tells_its_effects, reap_effects};
ghost use Rattle.fs_record.specs.Fresh.{IsLeastFree, is_borne, fresh_number, records_after_gift};
ghost use Rattle.fs_record.specs.Records.{RecordMap, AreRecords, nodes_of, node_of, next_of};
ghost use Rattle.fs_record.specs.Moving.{AreEachRecords, are_absent, are_distinct, records_given, records_left, with_records};
ghost use Rattle.fs_record.specs.Changes.{Change, after_change, after_changes, can_change, can_each_change, has_record_throughout, number_given};
ghost use Rattle.fs_record.specs.ValueOf.{value_of, is_other, selves_in, selves_of, has_handle, modes_of, modes_told_of, is_by_session};
ghost use Rattle.fs_model.specs.Handles.{handles_are_in_order};
ghost use Rattle.fs_model.specs.declared.node.Handle.{Handle};
ghost use Rattle.fs_record.specs.declared.record.Record.{Record};

/// An effect that has its file here changes what a session sees of every field, but for what other sessions have,
/// just as it changes the values that the session keeps. Every other effect changes nothing.
pub fn values_follow_effects()
    ensures follows { (m : RecordMap) (s : Session) (field : Field) (e : Effect) → AreRecords m →
        is_other field ≡ false → has_target m e ≡ true →
        value_of (records_after m e) s field ≡ value_after s field (value_of m s field) e }
    ensures stays { (m : RecordMap) (e : Effect) → has_target m e ≡ false → records_after m e ≡ m }
{}

/// The effects of an operation that it and its reply tell, one after the other, lead to the space that the operation
/// leads to, by the reply that it gets there.
pub fn effects_are_the_step()
    ensures { (m : NodeMap) (by : Session) (op : Op) (reply : Reply) → tells_its_effects op ≡ true →
        (step m by op).reply ≡ reply →
        nodes_after_all m (effects_of by op reply) ≡ (step m by op).nodes }
{}

/// An effect does to records without their next numbers what it does to nodes.
pub fn nodes_change_alike()
    ensures node { (m : RecordMap) (id : List ℕ) → get (nodes_of m) id ≡ node_of (get m id) }
    ensures effect { (m : RecordMap) (e : Effect) →
        nodes_of (records_after m e) ≡ nodes_after (nodes_of m) e }
{}

/// A number that a directory gives is the least free one; where it gives none it is too deep or none is free. It
/// then goes on behind that number, and nothing else changes.
pub fn gifts_are_least()
    ensures some { (m : RecordMap) (dir borne : List ℕ) (k : ℕ) →
        fresh_number m dir borne ≡ Some k → IsLeastFree (next_of (get m dir)) borne k }
    ensures none { (m : RecordMap) (dir borne : List ℕ) → fresh_number m dir borne ≡ None →
        (length dir ≡ 32) ⊎
        ((k : ℕ) → next_of (get m dir) ≤ k → k < 2 ^ 32 → is_borne borne k ≡ true) }
    ensures here { (m : RecordMap) (dir : List ℕ) (k : ℕ) (r : Record) → get m dir ≡ Some r →
        get (records_after_gift m dir (Some k)) dir ≡ Some (record r { next = k + 1 }) }
    ensures elsewhere { (m : RecordMap) (dir id : List ℕ) (k : Option ℕ) → same id dir ≡ false →
        get (records_after_gift m dir k) id ≡ get m id }
{}

/// An effect keeps the next number of every record that stands after it, and a record that was not there begins
/// with 1.
pub fn effects_keep_next_numbers()
    ensures { (m : RecordMap) (e : Effect) (id : List ℕ) →
        is_some (get (records_after m e) id) ≡ true →
        next_of (get (records_after m e) id) ≡ next_of (get m id) }
{}

/// While its record stands a directory gives no number twice, whichever calls change the records.
pub fn no_number_is_given_twice()
    ensures { (m : RecordMap) (dir : List ℕ) (k j : ℕ) (first last : Change)
        (changes : List Change) →
        can_change m first ≡ true → number_given m first ≡ Some (dir, k) →
        has_record_throughout dir (after_change m first) changes ≡ true →
        can_each_change (after_change m first) changes ≡ true →
        can_change (after_changes (after_change m first) changes) last ≡ true →
        number_given (after_changes (after_change m first) changes) last ≡ Some (dir, j) →
        k < j }
{}

/// The sessions with handles on a file are told by number, each once, with what its handles have together.
pub fn selves_are_by_session()
    ensures told { (s : Session) (handles : List Handle) → handles_are_in_order handles ≡ true →
        modes_told_of s (selves_of handles) ≡
        (if has_handle s handles then Some (modes_of s handles) else None) }
    ensures rising { (handles : List Handle) → handles_are_in_order handles ≡ true →
        is_by_session (selves_of handles) ≡ true }
{}

/// The effects of a reap lead to the space that the reap leads to, whoever does it, and the session is told no more of
/// those with handles on the file.
pub fn reaps_take_handles()
    ensures nodes { (m : RecordMap) (by session : Session) (file : List ℕ) →
        nodes_of (records_after_all m (reap_effects m file session)) ≡
        (step (nodes_of m) by (Reap file session)).nodes }
    ensures selves { (m : RecordMap) (session : Session) (file id : List ℕ) → AreRecords m →
        selves_in (records_after_all m (reap_effects m file session)) id ≡
        (if same id file then filter (λ e. not (e.0.0 == session.0)) (selves_in m id)
        else selves_in m id) }
{}

/// What goes and what is left are together what was, each file in one of the two.
pub fn records_go_or_stay()
    ensures given { (m : RecordMap) (prefix file : List ℕ) (given : Keyed Bool) →
        gives prefix given file ≡ true →
        (get (records_left prefix given m) file ≡ None) ×
        (get (with_records (records_given prefix given m) empty) file ≡ get m file) }
    ensures left { (m : RecordMap) (prefix file : List ℕ) (given : Keyed Bool) →
        gives prefix given file ≡ false →
        (get (records_left prefix given m) file ≡ get m file) ×
        (get (with_records (records_given prefix given m) empty) file ≡ None) }
{}

/// What goes are records of different files, of which none is left; where they come again all is as it was.
pub fn what_goes_can_come()
    ensures records { (m : RecordMap) (prefix : List ℕ) (given : Keyed Bool) → AreRecords m →
        AreEachRecords (records_given prefix given m) }
    ensures distinct { (m : RecordMap) (prefix : List ℕ) (given : Keyed Bool) →
        are_distinct (records_given prefix given m) ≡ true }
    ensures absent { (m : RecordMap) (prefix : List ℕ) (given : Keyed Bool) →
        are_absent (records_left prefix given m) (records_given prefix given m) ≡ true }
    ensures again { (m : RecordMap) (prefix : List ℕ) (given : Keyed Bool) →
        with_records (records_given prefix given m) (records_left prefix given m) ≡ m }
{}
