//! Path leases: a server that has a file's directory hands the path from the root to the file down to the server that has the file,
//! and asks it back before a file on it moves.
//!
//! Leases stand in order of number. Those given out stand also at each file of their paths, those from other servers at their own file
//! and at each file of their paths, and files that transactions keep in order of transaction and each with the transactions that keep
//! it. So a call costs what it names: `issued_to`, `holds` and a lease that is asked back by its number a search by halves, `through`
//! and `frozen` one look-up of the file, `recall_through` and `recalled` besides it what they tell, `path_of` two of each file on the
//! way, `issue` and `granted` such a search and a look-up of each file that the lease stands at, `released` one of each file of its
//! path, and `freeze` and `thaw` one of each file that they name. `first_in` and `recall_in` cost the files of the part that paths go
//! over, with what is told. What comes or goes in the middle of a list moves what stands behind it, and looks at none of it. Whether a
//! path goes over a file is one look-up wherever it is asked. A leaving lease is always one that a path which was given out needs, so
//! nothing else is looked at when one is back.
//! Where memory was wanting for an index, or one number came twice, every call that would use it goes through all.
#![tactic(auto)]

mod asked;
mod by_file;
mod entering;
mod files;
mod giving;
mod having;
mod held;
mod held_index;
mod index;
mod into;
mod issued;
mod kept;
mod law;
mod leaving;
mod merging;
mod number;
mod numbered;
mod paths;
mod reads;
mod recalled;
mod returning;
mod rise;
mod used;
mod walk;

pub use having::Having;
pub use held::Held;
pub use issued::Issued;
pub use law::{
    a_file_is_frozen_until_all_are_over, a_leaving_lease_is_used_for_nothing,
    a_path_that_is_taken_begins_at_the_top, each_number_is_given_once,
    what_goes_back_is_on_no_path, what_stands_in_the_way_is_told,
};
pub use leaving::Leaving;
pub use number::next_path;
pub use paths::Paths;
pub use recalled::{GiveBack, Recalled};
pub use used::Used;
