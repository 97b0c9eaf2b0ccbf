//! Which server manages which files: for each identifier the server of its longest listed prefix.
//!
//! With `p` listed prefixes and identifiers of at most 32 numbers: the server of an identifier is found by at most 33
//! searches (32 log p). A change looks only at the listed prefixes that begin with the piece's: by a piece of `q` prefixes,
//! where `r` of the map begin with its own, it asks the servers of at most `r + q` places and of those above them, puts
//! copies of the prefixes that stand there then behind the list, and moves them past those that come after them. It may stop
//! halfway, when it has all its memory, and is then made or given up. Whether something of the piece is a server's is asked
//! of at most `r + q` places too.
#![tactic(auto)]

mod change;
mod file_map;
mod law;
mod listed;
mod part;
mod piece;
mod taking;

pub use file_map::FileMap;
pub use law::{
    a_piece_is_told_by_what_it_gives, changed_maps_are_maps, changes_list_nothing_new,
    maps_are_told_by_their_servers, places_show_what_is_owned, the_longest_prefix_is_found,
};
pub use piece::MapPiece;
pub use taking::Taking;
