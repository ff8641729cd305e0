//! The command `dlr`: from its words and the bytes of a source to a status and the bytes in a sink.
#![tactic(auto)]

mod announcing;
mod checking;
mod command;
mod execution;
mod loading;
mod report;
mod status;
#[cfg(test)]
mod tests;

pub use byte_devices::{
    CleanSink, CleanSource, Failed, InputSource, MemSink, MemSource, OutputSink, Sink, Source,
};
pub use checking::check_only;
pub use command::{TopOutcome, top};
pub use command_words::{Command, Options, WordsRefused, read_words};
pub use engine_tasks::{Gate, OpenGate, Report, TaskEnd};
pub use report::render;
pub use status::{
    ALL_DONE, MEMORY, REFUSED, SINK_FAILED, SOURCE_FAILED, TASK_FAULTED, WORDS_REFUSED,
};
