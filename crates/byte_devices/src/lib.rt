//! Where bytes come from and go to: sources and sinks, in memory and over a reader and a writer.
#![tactic(auto)]

mod call_plan;
mod clean_sink;
mod clean_source;
#[cfg(test)]
mod edge_tests;
mod input_source;
mod intake;
mod mem_sink;
mod mem_source;
#[cfg(test)]
mod mem_tests;
mod output;
mod output_sink;
mod sink;
mod source;

pub use clean_sink::CleanSink;
pub use clean_source::CleanSource;
pub use input_source::InputSource;
pub use intake::{Unread, read_all};
pub use mem_sink::MemSink;
pub use mem_source::MemSource;
pub use output::{Unwritten, deliver};
pub use output_sink::OutputSink;
pub use sink::Sink;
pub use source::{Failed, Source};
