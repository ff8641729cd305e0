//! The program `dlr_where`: shows where in a script a refusal of `dlr` points. Its words are those of the refusal line
//! after `refused: `, as `BadToken` and `15`, and its standard input is the script. Where the words name no place of the
//! script, it writes nothing.
#![tactic(auto)]

use script_places::explain;
use std::io::Read;
use std::process::ExitCode;
use std::{env, io};

/// The most bytes that a script may have.
const MOST_BYTES: usize = 1_048_576;

fn main(rt: HostRuntime) -> ExitCode {
    match answer(&rt) {
        Ok(()) => ExitCode::SUCCESS,
        Err(_) => ExitCode::FAILURE,
    }
}

/// Reads the words and the script, and writes what is shown of the place.
fn answer(rt: &HostRuntime) -> io::Result<()> {
    let alloc = rt.alloc();
    let words: Vec<String> = env::args(rt)?.skip(1).collect(alloc)?;
    let mut script = Vec::new(alloc);
    rt.stdin().read_to_end(&mut script)?;
    if script.len() > MOST_BYTES {
        return Ok(());
    }
    match explain(alloc, words.as_slice(), script.as_slice())? {
        Some(text) => rt.print(text.as_str()),
        None => Ok(()),
    }
}
