//! How bytes and moments come in and go out: sources, sinks and clocks, over memory and over the operating system.
#![tactic(auto)]

mod adapters;
mod clock;
mod counting;
mod memory;
mod sink;
mod source;
mod to_end;

pub use adapters::{FileSource, Opened, Reading, SystemClock, Writing};
pub use clock::{Clock, moment_from};
pub use counting::{count, count_wants};
pub use memory::{MemoryClock, MemorySink, MemorySource};
pub use sink::{Sink, write_all};
pub use source::Source;
pub use to_end::{ReadFault, read_to_end};
