//! The program `dlr`: the command over the process's own words, standard input and standard output.
#![tactic(auto)]

mod words;

use dlr_top::{InputSource, MEMORY, OpenGate, OutputSink, top};
use std::process::ExitCode;

fn main(rt: HostRuntime) -> ExitCode {
    let Ok(words) = words::after_name(&rt) else {
        return ExitCode::from(MEMORY);
    };
    let mut source = InputSource::new(rt.stdin());
    let mut sink = OutputSink::new(rt.stdout());
    let outcome = top(
        &rt,
        rt.alloc(),
        words.as_slice(),
        &mut source,
        &mut sink,
        &OpenGate,
    );
    ExitCode::from(outcome.status)
}
