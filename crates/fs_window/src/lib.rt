//! Links between actors over a network that loses, repeats and reorders packets.
#![tactic(auto)]

mod error;
mod heard;
mod kept;
mod law;
mod link;
mod links;
mod packet;
mod peers;
mod post;
mod queue;
mod sent;
mod touched;
mod undo;
mod was;
mod width;
mod window;

pub use error::LinkError;
pub use fs_frag::Joined;
pub use heard::Heard;
pub use law::{
    a_narrow_end_keeps_nothing, each_actor_has_a_link, in_order, links_have_a_width,
    messages_stay_in_order, packets_are_read_back, packets_stay_honest, segments_stay_in_order,
};
pub use packet::{Packet, read_packet, write_packet};
pub use post::Post;
pub use sent::Sent;
pub use undo::Undo;
pub use width::LINK_WIDTH;
pub use window::Window;
