//! The lines of a report.
#![tactic(auto)]

mod acts;
mod client_notes;
mod done;
mod ends;
mod generated;
mod items;
mod journal;
mod law;
mod led;
mod needs;
mod node_end;
mod node_lines;
mod notes;
mod op_text;
mod outcomes;
mod pieces;
mod refusals;
mod reply_text;
mod server_notes;
mod space_values;
mod spaces;
mod strings;

pub use done::done_line;
pub use generated::generated_line;
pub use items::{item_line, item_text};
pub use journal::journal_json;
pub use law::the_namespace_is_its_lines;
pub use node_end::{open_line, over_line, summary_line};
pub use outcomes::outcome_line;
pub use spaces::space_lines;
