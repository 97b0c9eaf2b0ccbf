//! Led operations as transactions: what is asked of whom, votes, locks and decisions.
#![tactic(auto)]

mod deciding;
mod decision;
mod law;
mod leader;
mod leading;
mod locks;
mod mode;
mod number;
mod parting;
mod preparing;
mod ready;
mod stages;
mod tally;

pub use deciding::{needs_path, reply_of};
pub use decision::Decision;
pub use law::{
    a_commit_has_every_yes, a_grant_is_true, a_part_votes_once, a_split_commit_is_one_step,
    a_yes_locks_every_lease, aborts_have_no_effects, decided_effects_go_past,
    decisions_leave_parts_and_locks, guarded_effects_are_apart, parts_are_told_apart,
    parts_share_all_effects, what_leaders_tell_keeps_its_order,
};
pub use leader::Leader;
pub use leading::{
    Ending, Leading, drop_leading, elsewhere, find_ending, find_leading, keep_ending, own_effects,
    put_ending, put_leading,
};
pub use locks::steps_keep_locks;
pub use mode::Mode2;
pub use number::next_txn;
pub use parting::parts;
pub use preparing::prepare;
pub use ready::{Ready, drop_prepared, is_awaited, is_prepared};
pub use stages::words_keep_stages;
pub use tally::Tally;
