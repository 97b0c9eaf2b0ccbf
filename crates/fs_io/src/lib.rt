//! Where bytes and datagrams come from and go, what the time is, and the same in memory.
#![tactic(auto)]

mod addr;
mod call;
mod call_log;
mod clock;
mod failed;
mod fault_plan;
mod law;
mod link;
mod mem_clock;
mod mem_link;
mod mem_sink;
mod mem_source;
mod reading;
mod sink;
mod source;
mod standard;
mod store;
mod sure_link;
mod sure_sink;
mod sure_source;
mod system_clock;
mod udp_link;
mod writing;

pub use addr::Addr;
pub use call::{Call, CallKind};
pub use clock::Clock;
pub use failed::Failed;
pub use law::limits_of_input;
pub use link::Link;
pub use mem_clock::MemClock;
pub use mem_link::MemLink;
pub use mem_sink::MemSink;
pub use mem_source::MemSource;
pub use reading::{LIMIT, ReadError, read_all};
pub use sink::Sink;
pub use source::Source;
pub use standard::{StdinSource, StdoutSink, standard_input, standard_output};
pub use sure_link::SureLink;
pub use sure_sink::SureSink;
pub use sure_source::SureSource;
pub use system_clock::SystemClock;
pub use udp_link::UdpLink;
pub use writing::write_all;
