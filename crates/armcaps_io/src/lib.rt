//! Where armcaps meets the outside: sources of bytes, sinks of bytes, and counts of what failed.
#![tactic(auto)]

mod count;
mod counted;
mod mem_sink;
mod mem_source;
mod pieces;
mod reading;
mod real_sink;
mod real_source;
mod sink;
mod source;
mod sure_source;
mod writing;

pub use counted::Counted;
pub use mem_sink::MemSink;
pub use mem_source::MemSource;
pub use pieces::{Pieces, send_all};
pub use reading::{InFault, read_on, read_to_limit};
pub use real_sink::RealSink;
pub use real_source::RealSource;
pub use sink::Sink;
pub use source::{Failed, Source};
pub use sure_source::SureSource;
pub use writing::{WriteFault, write_whole};
