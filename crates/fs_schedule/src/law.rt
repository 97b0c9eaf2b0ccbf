//! Laws of schedules and their texts.
ghost use Rattle.std.specs.Prelude.{◌≡◌, ◌≤◌, ℕ, Bool, List as Seq, length};
ghost use Rattle.std.specs.List.{AllByRecursion};
ghost use Rattle.fs_ident.specs.declared.limits.TheConstants.{LATEST, SESSIONS};
ghost use Rattle.fs_msg.specs.declared.limits.TheConstants.{LONGEST, SERVERS};
ghost use Rattle.fs_schedule.specs.declared.limits.TheConstants.{BYTES, EVENTS, PACKETS};
ghost use Rattle.fs_schedule.specs.declared.event.Schedule.{Schedule as Told};
ghost use Rattle.fs_schedule.specs.Made.{made};
ghost use Rattle.fs_schedule.specs.Skew.{IsTimely};
ghost use Rattle.fs_schedule.specs.Spelling.{FitsHead, FitsEvent};
ghost use Rattle.fs_schedule.specs.declared.script.Script.{Script as ScriptLine};
ghost use Rattle.fs_schedule.specs.Faults.{Fault, IsScheduleText, IsFirstFault, LineFault};
ghost use Rattle.fs_schedule.specs.Script.{FitsScript, HasScriptFault, IsScriptText, served};

/// The limits, each as a number: how many bytes a line has at most, how many events a schedule, how many packets are sent
/// in a run, how many servers there are, the greatest number of a session, the longest skew and term and the latest
/// reading in milliseconds.
pub fn limits_of_schedules()
    ensures bytes { BYTES ≡ 4096 }
    ensures events { EVENTS ≡ 65536 }
    ensures packets { PACKETS ≡ 1048576 }
    ensures servers { SERVERS ≡ 15 }
    ensures sessions { SESSIONS ≡ 1000 }
    ensures longest { LONGEST ≡ 1000000000 }
    ensures latest { LATEST ≡ 1000000000000000 }
{}

/// A text is the text of one schedule at most, of a form and of events of the grammar, and then it has no fault; its
/// first fault is one.
pub fn one_reading()
    ensures schedule { (s t : Told) (bytes : Seq ℕ) → IsScheduleText s bytes →
        IsScheduleText t bytes → s ≡ t }
    ensures fault { (f g : Fault) (bytes : Seq ℕ) → IsFirstFault f bytes → IsFirstFault g bytes →
        f ≡ g }
    ensures apart { (s : Told) (f : Fault) (bytes : Seq ℕ) → IsFirstFault f bytes →
        IsScheduleText s bytes → ⊥ }
    ensures form { (s : Told) (bytes : Seq ℕ) → IsScheduleText s bytes → FitsHead s.head }
    ensures fits { (s : Told) (bytes : Seq ℕ) → IsScheduleText s bytes →
        AllByRecursion (FitsEvent s.head) s.events }
{}

/// A text is the text of one script at most, of lines of the grammar, and then it has no fault; its first fault is one.
pub fn one_script()
    ensures script { (client : Bool) (servers : ℕ) (s t : Seq ScriptLine) (bytes : Seq ℕ) →
        IsScriptText client servers s bytes → IsScriptText client servers t bytes → s ≡ t }
    ensures fault { (client : Bool) (servers : ℕ) (f g : LineFault) (m n : ℕ) (bytes : Seq ℕ) →
        HasScriptFault client servers f m bytes → HasScriptFault client servers g n bytes →
        (f ≡ g) × (m ≡ n) }
    ensures apart { (client : Bool) (servers : ℕ) (s : Seq ScriptLine) (f : LineFault) (at : ℕ)
        (bytes : Seq ℕ) → HasScriptFault client servers f at bytes →
        IsScriptText client servers s bytes → ⊥ }
    ensures fits { (client : Bool) (servers : ℕ) (s : Seq ScriptLine) (bytes : Seq ℕ) →
        IsScriptText client servers s bytes →
        AllByRecursion (FitsScript client (served servers)) s }
{}

/// Every made schedule is one that may be run, as those that are read are: of a form and of events
/// of the grammar, no more of them than there may be, and no reading is before an earlier one by
/// more than the skew.
pub fn made_schedules()
    ensures form { (n : ℕ) → FitsHead (made n).head }
    ensures fits { (n : ℕ) → AllByRecursion (FitsEvent (made n).head) (made n).events }
    ensures timely { (n : ℕ) → IsTimely (made n).head (made n).events }
    ensures few { (n : ℕ) → length (made n).events ≤ EVENTS }
{}
