//! The command over a source and a sink in memory that never fail.
use dlr_top::{CleanSink, CleanSource, OpenGate, top};
use dyn_value::DynText;
use std::alloc::Global;
use std::sync::Wait;
use std::test::Fail;
use std::thread::Threads;

/// Words, a script, the whole text that is written, and the status.
pub(crate) type Row = (&'static str, &'static str, &'static str, u8);

/// What the command wrote, and its status.
#[derive(Drop)]
pub(crate) struct Ran {
    pub(crate) written: Vec<u8>,
    pub(crate) status: u8,
}

/// Runs the command with these words, parted by blanks, over this script.
pub(crate) fn run<R: Threads + Wait + Sync>(
    rt: &R,
    alloc: Global,
    words: &str,
    script: &[u8],
) -> Result<Ran, Fail> {
    let texts = texts_of(alloc, words)?;
    let mut source = CleanSource::new(Vec::from_slice(alloc, script)?);
    let mut sink = CleanSink::new(alloc);
    let outcome = top(
        rt,
        alloc,
        texts.as_slice(),
        &mut source,
        &mut sink,
        &OpenGate,
    );
    Ok(Ran {
        written: Vec::from_slice(alloc, sink.bytes())?,
        status: outcome.status,
    })
}

/// The words of a line, which are parted by blanks.
pub(crate) fn texts_of(alloc: Global, line: &str) -> Result<Vec<DynText>, Fail> {
    let mut texts = Vec::new(alloc);
    for word in line.split_ascii_whitespace() {
        let text = DynText::from_str(alloc, word)?;
        texts.push(text.ok_or("a long word")?)?;
    }
    Ok(texts)
}
