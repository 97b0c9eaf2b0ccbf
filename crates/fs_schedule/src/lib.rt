//! Schedules: what is to happen, read from lines.
#![tactic(auto)]

mod actor;
mod cut;
mod drawn_op;
mod draws;
mod error;
mod event;
mod field;
mod head;
mod law;
mod limits;
mod line;
mod made;
mod number;
mod operand;
mod operands;
mod operation;
mod outcome;
mod schedule;
mod script;
mod script_line;
mod scripts;
mod session;
mod skew;
mod unread;
mod word;
mod words;

pub use error::{ScheduleError, Which};
pub use event::{Event, Head, Schedule, What};
pub use law::{limits_of_schedules, made_schedules, one_reading, one_script};
pub use limits::{BYTES, EVENTS, PACKETS};
pub use made::make;
pub use outcome::Outcome;
pub use schedule::read_schedule;
pub use script::Script;
pub use scripts::read_script;
