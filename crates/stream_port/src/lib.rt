//! What a run has of the outside beside its media: sources and sinks of bytes, a clock, and what
//! comes of its messages.
#![tactic(auto)]

mod adapters;
mod clocks;
mod fates;
mod fixed_clocks;
mod memory_fates;
mod memory_sinks;
mod memory_sources;
mod ports;
mod seconds_clocks;

pub use adapters::{ReadSource, WriteSink};
pub use clocks::Clock;
pub use fates::{Asked, Fate, Fates};
pub use fixed_clocks::FixedClock;
pub use memory_fates::{FateRule, MemoryFates};
pub use memory_sinks::MemorySink;
pub use memory_sources::MemorySource;
pub use ports::{Sink, SinkFault, Source, SourceFault};
pub use seconds_clocks::SecondsClock;
