//! Where bytes come from and go to: sources, sinks, both with planned faults, and a reader of lines.
#![tactic(auto)]

pub mod faulty;
pub mod input_end;
mod line_buffer;
pub mod line_reader;
pub mod sink;
pub mod source;
mod window;

pub use faulty::{FaultySink, FaultySource};
pub use input_end::InputEnd;
pub use line_reader::{LineReader, Next};
pub use sink::{MemorySink, Sink, StdSink};
pub use source::{Failed, MemorySource, Source, StdSource};
