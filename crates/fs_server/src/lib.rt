//! The core of a server: leases, renewals, releases, logs, turns and moves, one event at a time. It knows no clock, no
//! socket and no file.
//!
//! An event is planned and then carried out. Neither copies the rows, the records or the core. With `r` rows and `f` files
//! - each item, pair and entry looks for the prefixes of its file in the map (log of its length for each);
//! - a question scans the rows once or twice for each item, and finds one record for each (log f); giving the leases
//!   moves at most `r` rows for each;
//! - a question over a mode gathers the sessions with handles on the file, and scans the rows on modes for each of them
//!   that has the mode; where it would change what a session tells, it does so for each row on what others tell;
//! - a fresh identifier scans the rows once, and then the numbers that they bear for each number that it tries;
//! - a renewal and a release scan the rows for each pair, a log for each use up to the first whose row is gone;
//! - an entry that is admitted finds its records (log f), and a create puts a name among those of its directory;
//! - an operation that is led scans the rows for each use of the parts that are here, up to the first of a part whose row is gone; any
//!   other part is copied into a message. What is led so far is looked through for its number (`t` transactions). A commit finds three
//!   records (log f) at most, and puts a name among those of its directory or takes one away; when it is carried out each row that it
//!   locks is found (log r), and where it is decided the rows are scanned once to unlock them;
//! - where a directory goes, a part that keeps it where it is looks for the first path lease over it among those given out; where there is
//!   one, all of them are looked for, with a message for each. The files that are kept while votes are awaited are put among all that are
//!   kept, and these are scanned once where it is decided;
//! - where a directory comes into another one, the path of that one is looked for as for a question, once when the transaction begins and
//!   once where all have voted, and the directory is looked for on it;
//! - a vote copies the transaction (its parts and their uses) and looks for it among all that are led (t), and so does a part that is
//!   done; with the last one the rows are scanned once;
//! - a part that another server asks for scans the rows for each of its uses up to the first whose row is gone, and is copied twice;
//!   when it is carried out each of its rows is found (log r), and its file is put among all that are kept;
//! - a decision of such a part finds the records of its effects (log f); with the last part of a transaction it scans the rows once, and the
//!   files that are kept;
//! - a turn looks at every record once for the files that are open, and scans the rows once for each session with handles
//!   on one of these. For one with no lease on its handles it scans them once more, and for each row that was told of the
//!   modes of others on the file once for each session with handles on it. A handle that is lost finds its record (log f);
//! - a move scans the rows twice, for what keeps it and for what goes, and copies what goes, its records twice. When it is
//!   carried out it scans the rows once more, and finds each record that goes (log f); the part of the map below its
//!   prefix is written anew;
//! - a parcel is copied, and so is the map, of which each place is looked for in the parcel. Each of its rows is
//!   compared with all rows, and moves at most `r`; each of its records finds its place (log f);
//! - a path lease that is asked back or comes back, and a move that is refused because of paths, cost what `fs_path` needs to find which leases
//!   rest on which, once when it is planned and once when it is carried out, and a message for each that is told; a move finds the first
//!   lease over what is to go before it is made;
//! - a question for a path goes from the directory up by the records that are here (log f for each), once more over those that it
//!   passed, and over the path leases from other servers; what it gives out is copied twice. A path that comes is compared with those
//!   leases and finds a record (log f), and is copied once; a denial finds a record. Each looks through the questions that stand;
//!   when it is carried out a path is put among the others by its number;
//! - every event scans the rows once for those that are over, when it is carried out.
#![tactic(auto)]

mod all_live;
mod all_rows;
mod asks;
mod at_reading;
mod begins;
mod change;
mod commits;
mod concludes;
mod counts;
mod decide;
mod event;
mod follows;
mod fresh;
mod grants;
mod law;
mod leading_law;
mod leads;
mod moves;
mod out;
mod pairs;
mod path_asks;
mod path_change;
mod path_changes;
mod path_grants;
mod path_returns;
mod plan;
mod reaps;
mod recalls;
mod server_core;
mod ships;
mod state;

pub use event::ServerEvent;
pub use law::{
    a_move_that_nothing_refuses_is_made, a_move_that_paths_refuse_asks_them_back,
    a_part_is_decided_once, a_path_is_asked_for_once, a_yes_has_its_rows_locked,
    a_yes_keeps_its_file, an_identifier_comes_behind_all_items, decided_effects_are_applied,
    items_are_given_in_order, operations_are_led_at_home, parts_here_vote_at_once,
    parts_of_others_are_voted_on, paths_are_given_as_they_are_known, paths_change_no_file,
    paths_in_the_way_are_asked_back, the_last_part_frees_the_files, the_last_part_unlocks_the_rows,
    what_is_not_admitted_changes_no_file, what_is_not_yes_changes_nothing,
};
pub use leading_law::{
    a_commit_splits_by_servers, a_cycle_changes_no_file, a_decision_frees_the_files,
    a_rename_keeps_its_rows, a_session_is_told_when_all_is_done, an_abort_does_nothing,
    an_own_yes_keeps_its_file, each_part_is_told_once, the_path_is_taken_again,
    what_nobody_awaits_is_strange,
};
pub use out::ServerOut;
pub use plan::Plan;
pub use server_core::ServerCore;
