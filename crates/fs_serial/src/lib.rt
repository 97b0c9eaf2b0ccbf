//! Why every schedule's journal is one serial run: the parts of the invariant, and the laws that keep them.
#![tactic(auto)]

mod commit;
mod decided;
mod in_flight;
mod law;
mod locks;
mod path_law;
mod space;

pub use commit::a_commit_keeps_the_parts;
pub use decided::what_is_decided_goes_past_all_events;
pub use in_flight::InFlight;
pub use law::{
    a_gift_keeps_the_parts, a_move_leaves_all_as_it_was, a_parcel_that_comes_leaves_all_as_it_was,
    a_reap_keeps_the_parts, a_refused_entry_had_ended, a_reply_keeps_the_parts,
    a_standing_entry_is_admitted, an_admitted_entry_keeps_the_parts, every_run_is_one_serial_run,
    every_run_is_orderly, every_run_keeps_all_parts, nothing_that_comes_is_strange,
    refusals_are_fair, rows_are_without_conflict, the_clients_events_keep_all_parts,
    the_first_cluster_has_all_parts, the_servers_events_keep_all_parts, what_is_led_ends_fairly,
    what_was_promised_is_so,
};
pub use locks::a_lock_keeps_the_parts;
pub use path_law::{
    a_file_that_is_kept_is_on_no_path, a_path_that_is_taken_is_true, every_run_keeps_paths,
    path_leases_keep_paths, paths_rest_on_what_servers_keep,
};
pub use space::joined;
