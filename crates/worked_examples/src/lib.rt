//! Worked examples: whole scripts through the command, over a source and a sink in memory.
#![tactic(auto)]

#[cfg(test)]
mod command_tests;
#[cfg(test)]
mod commands;
#[cfg(test)]
mod failing_tests;
#[cfg(test)]
mod gate_tests;
#[cfg(test)]
mod journals;
#[cfg(test)]
mod language_tests;
#[cfg(test)]
mod refusal_tests;
#[cfg(test)]
mod trade;
