//! What a client knows from its leases, and what it cannot answer without.
#![tactic(auto)]

mod admit;
mod change;
mod delete;
mod ends;
mod gone;
mod index;
mod key;
mod known;
mod law;
mod leases;
mod led_law;
mod needs;
mod new_lease;
mod rename;
mod room;
mod seen;
mod table;
mod told;
mod twin;
mod view;
mod view_lease;
mod walk;

pub use gone::what_is_gone_is_unread;
pub use law::{
    deletes_are_the_step, identifiers_are_offered_by_leases, led_values_follow, needs_are_enough,
    operations_stand_on_their_needs, other_values_stay, own_values_follow, reads_have_no_effects,
    renames_are_the_step, replies_are_the_step, the_best_lease_is_taken, uses_can_be_pinned,
};
pub use led_law::led_effects_stand_on_their_needs;
pub use new_lease::NewLease;
pub use seen::Seen;
pub use view::View;
pub use view_lease::{Standing, ViewLease};
pub use walk::Walk;
