//! Laws of every run, over the definitions alone.
ghost use Rattle.std.specs.Prelude.{◌≡◌, ◌<◌, ◌^◌, length, [], None};
ghost use Rattle.fs_schedule.specs.declared.event.Head.TheVariants as head;
ghost use Rattle.fs_schedule.specs.declared.event.Schedule.{Schedule};
ghost use Rattle.fs_world.specs.Carried.{AllCarry};
ghost use Rattle.fs_world.specs.Order.{AllAdmitted, replies_given};
ghost use Rattle.fs_world.specs.Over.{AllCaused, said_from};
ghost use Rattle.fs_world.specs.Parts.{AllPartsHold, IsOrderlyWorld};
ghost use Rattle.fs_world.specs.Refusals.{AllFair, NoneHas, is_core_strange};
ghost use Rattle.fs_world.specs.Safe.{IsSerial};
ghost use Rattle.fs_schedule.specs.Skew.{IsTimely};
ghost use Rattle.fs_schedule.specs.Spelling.{FitsHead};
ghost use Rattle.fs_world.specs.Within.{AllWithin};
ghost use Rattle.fs_world.specs.World.{AllMayHappen, first_world, journal_of, run_of, stop_of};

/// Whatever callers may ask for, whatever moves from server to server, and whatever was lost, repeated or reordered on
/// the way, where no clock falls behind another by more than the skew, and numbers and lengths stay within 64 bits: the journal of all
/// servers is one serial run of the namespace in session order, to the space that the servers hold together, and every space
/// on its way is safe. In the direct form, which has no clocks and no links, every reply that was told is in the journal.
pub fn every_run_is_serial()
    ensures serial { (s : Schedule) → FitsHead s.head → AllMayHappen s.head s.events →
        IsTimely s.head s.events → AllWithin (first_world s.head) s.events →
        IsSerial s.events (run_of s) }
    ensures admitted { (s : Schedule) → s.head ≡ head.Direct → AllMayHappen s.head s.events →
        AllAdmitted (journal_of (run_of s).world) (replies_given s.events (run_of s).outcomes) }
{}

/// After every event of such a run, since each ends a run of its own, all parts of the invariant of the servers and their
/// clients hold, for the skew of the head and the greatest reading so far; and what the journal and each client's log have for a
/// session is, one for one, what the notes of the run told it, and then the reply that is on its way of what a server led.
pub fn every_run_keeps_all_parts()
    ensures { (s : Schedule) → FitsHead s.head → AllMayHappen s.head s.events →
        IsTimely s.head s.events → AllWithin (first_world s.head) s.events →
        AllPartsHold s.head s.events (run_of s) }
{}

/// Whatever the clocks show, within the skew or not: after every event, since each ends a run of its own, each identifier has one
/// place, each row and record is at its place, no number is given twice, no two rows conflict, and the namespace that the servers
/// hold together is sound.
pub fn every_run_is_orderly()
    ensures { (s : Schedule) → FitsHead s.head → AllMayHappen s.head s.events →
        AllWithin (first_world s.head) s.events → IsOrderlyWorld (run_of s).world }
{}

/// A run of the direct form of less than 2^64 events is not broken off.
pub fn no_short_run_is_spent()
    ensures { (s : Schedule) → s.head ≡ head.Direct → length s.events < 2 ^ 64 →
        stop_of s ≡ None }
{}

/// No core of a server or of a client is ever told what no honest actor sends: no question, no answer, no parcel and no
/// message of path leases.
pub fn no_core_is_told_what_is_strange()
    ensures { (s : Schedule) → FitsHead s.head → AllMayHappen s.head s.events →
        IsTimely s.head s.events → AllWithin (first_world s.head) s.events →
        NoneHas is_core_strange (run_of s).outcomes }
{}

/// A server refuses an entry only of the log that the event hands in, and only where a lease that it used has no row any
/// more, with no server and in no parcel on its way, and had ended at the reading of that event; it says so of that entry
/// and of its first such lease. It holds back exactly the entries behind it, and none where it refuses none. An operation that a
/// server leads is refused because of a lease only where the transaction's own session waits for an operation to be led that used
/// that lease, which has no row any more and had ended at the reading that is noted; and a session notes so only where it is that one.
pub fn refusals_are_fair()
    ensures { (s : Schedule) → FitsHead s.head → AllMayHappen s.head s.events →
        IsTimely s.head s.events → AllWithin (first_world s.head) s.events →
        AllFair (first_world s.head) s.events }
{}

/// Along every run from a first world within the limits of numbers and lengths, with any readings, links carry what was sent: before
/// each event whatever was sent is a packet, and what it joins where it comes, however often it is told and however late, are
/// exactly the bytes of the first messages between the two, in order, each of which can be read.
pub fn links_carry_along_every_run()
    ensures { (s : Schedule) → FitsHead s.head → AllWithin (first_world s.head) s.events →
        AllCarry (first_world s.head) s.events }
{}

/// In every run within the limits of numbers and lengths, a session is over only behind an answer in which it heard that its entry
/// of that number was refused, and it hears only answers that a server gave to its log, behind that server's own note.
pub fn sessions_are_over_behind_refusals()
    ensures { (s : Schedule) → FitsHead s.head → AllWithin (first_world s.head) s.events →
        AllCaused [] (said_from (first_world s.head) s.events) }
{}
