//! Worked examples over a source and a sink in memory that move their bytes by pieces, and of whose calls one fails.
use crate::journals::{Example, JOURNALS};
use dlr_top::{
    MemSink, MemSource, OpenGate, REFUSED, SINK_FAILED, SOURCE_FAILED, WORDS_REFUSED, top,
};
use dyn_value::DynText;
use std::alloc::Global;
use std::process::Abort;
use std::sync::Wait;
use std::test::Fail;
use std::thread::Threads;

/// More bytes than any text here has.
const WHOLE: usize = 4_096;

/// A device: its pieces, and the call of it that fails.
#[derive(Clone, Copy)]
struct Device {
    piece: usize,
    fails_at: Option<u32>,
}

const CLEAN: Device = Device {
    piece: WHOLE,
    fails_at: None,
};

/// What the command wrote, its status, and whether it has a report.
#[derive(Drop)]
struct Ran {
    written: Vec<u8>,
    status: u8,
    reported: bool,
}

fn fails(alloc: Global, device: Device) -> Result<Vec<u32>, Fail> {
    let mut numbers = Vec::new(alloc);
    if let Some(number) = device.fails_at {
        numbers.push(number)?;
    }
    Ok(numbers)
}

/// Runs the command with these words, parted by blanks, over this script.
fn run<R: Threads + Wait + Sync>(
    rt: &R,
    alloc: Global,
    words: &str,
    script: &str,
    source: Device,
    sink: Device,
) -> Result<Ran, Fail> {
    let mut texts = Vec::new(alloc);
    for word in words.split_ascii_whitespace() {
        let text = DynText::from_str(alloc, word)?;
        texts.push(text.ok_or("a long word")?)?;
    }
    let bytes = Vec::from_slice(alloc, script.as_bytes())?;
    let mut source = MemSource::new(bytes, source.piece.max(1), fails(alloc, source)?);
    let mut sink = MemSink::new(alloc, sink.piece.max(1), fails(alloc, sink)?);
    let outcome = top(
        rt,
        alloc,
        texts.as_slice(),
        &mut source,
        &mut sink,
        &OpenGate,
    );
    Ok(Ran {
        written: Vec::from_slice(alloc, sink.bytes())?,
        status: outcome.status,
        reported: outcome.report.is_some(),
    })
}

/// How many calls move so many bytes by pieces of this size.
fn calls(bytes: usize, piece: usize) -> Result<u32, Fail> {
    Ok(u32::try_from(bytes.div_ceil(piece.max(1)))?)
}

#[test]
fn a_source_that_fails_at_its_second_read_gives_status_4(rt: HostRuntime) -> Result<(), Fail> {
    let source = Device {
        piece: 8,
        fails_at: Some(1),
    };
    let ran = run(
        &rt,
        rt.alloc(),
        "run",
        "task a { print (1 + 2); }",
        source,
        CLEAN,
    )?;
    assert_eq!(rt; ran.status, SOURCE_FAILED);
    assert_eq!(rt; ran.written.as_slice(), b"".as_slice());
    assert!(rt; !ran.reported);
    Ok(())
}

#[test]
fn a_sink_that_fails_at_its_third_write_keeps_two_pieces(rt: HostRuntime) -> Result<(), Fail> {
    let sink = Device {
        piece: 5,
        fails_at: Some(2),
    };
    let script = "task a { print 1; print 2; print 3; }";
    let ran = run(&rt, rt.alloc(), "run", script, CLEAN, sink)?;
    assert_eq!(rt; ran.status, SINK_FAILED);
    assert_eq!(rt; ran.written.as_slice(), b"a: 1\na: 2\n".as_slice());
    assert!(rt; ran.reported);
    Ok(())
}

// Each read of the script fails in turn, that which tells its end too. No read comes after that one.
fn fail_each_read<R: Threads + Wait + Abort + Sync>(
    rt: &R,
    alloc: Global,
    example: Example,
    piece: usize,
) -> Result<(), Fail> {
    let reads = calls(example.script.len(), piece)?.saturating_add(1);
    for read in 0..reads {
        let source = Device {
            piece,
            fails_at: Some(read),
        };
        let ran = run(rt, alloc, example.words, example.script, source, CLEAN)?;
        assert_eq!(rt; ran.status, SOURCE_FAILED, "read {read}");
        assert_eq!(rt; ran.written.as_slice(), b"".as_slice(), "read {read}");
        assert!(rt; !ran.reported, "read {read}");
    }
    let source = Device {
        piece,
        fails_at: Some(reads),
    };
    let ran = run(rt, alloc, example.words, example.script, source, CLEAN)?;
    assert_eq!(rt; ran.status, example.status);
    assert_eq!(rt; ran.written.as_slice(), example.text.as_bytes());
    Ok(())
}

// Each write of the text fails in turn: the sink has the pieces before it. Then this is the status.
fn fail_each_write<R: Threads + Wait + Abort + Sync>(
    rt: &R,
    alloc: Global,
    example: Example,
    piece: usize,
    status: u8,
) -> Result<(), Fail> {
    let text = example.text.as_bytes();
    let writes = calls(text.len(), piece)?;
    for write in 0..writes {
        let sink = Device {
            piece,
            fails_at: Some(write),
        };
        let ran = run(rt, alloc, example.words, example.script, CLEAN, sink)?;
        let taken = (write as usize).saturating_mul(piece);
        assert_eq!(rt; ran.status, status, "write {write}");
        assert_eq!(rt;
            Some(ran.written.as_slice()),
            text.get(..taken),
            "write {write}"
        );
        assert_eq!(rt; ran.reported, status == SINK_FAILED, "write {write}");
    }
    let sink = Device {
        piece,
        fails_at: Some(writes),
    };
    let ran = run(rt, alloc, example.words, example.script, CLEAN, sink)?;
    assert_eq!(rt; ran.status, example.status);
    assert_eq!(rt; ran.written.as_slice(), text);
    Ok(())
}

#[test]
fn each_read_failing_in_turn_gives_status_4_and_nothing_written(
    rt: HostRuntime,
) -> Result<(), Fail> {
    for example in JOURNALS {
        for piece in [8, WHOLE] {
            fail_each_read(&rt, rt.alloc(), example, piece)?;
        }
    }
    fail_each_read(&rt, rt.alloc(), JOURNALS[2], 1)
}

#[test]
fn each_write_failing_in_turn_gives_status_5_and_the_pieces_before(
    rt: HostRuntime,
) -> Result<(), Fail> {
    for example in JOURNALS {
        for piece in [7, WHOLE] {
            fail_each_write(&rt, rt.alloc(), example, piece, SINK_FAILED)?;
        }
    }
    fail_each_write(&rt, rt.alloc(), JOURNALS[2], 1, SINK_FAILED)
}

#[test]
fn a_line_of_a_refusal_is_cut_where_a_write_fails(rt: HostRuntime) -> Result<(), Fail> {
    let script = Example {
        words: "run --journal",
        script: "shared s; task a { s.n = }",
        text: "refused: Syntax 10\n",
        status: REFUSED,
    };
    let words = Example {
        words: "run --journal --journal",
        script: "shared s;",
        text: "usage: dlr run [--serial] [--journal] [--stats] [--rules] [--turns N] [--objects N] | check | drill SEED\n",
        status: WORDS_REFUSED,
    };
    for example in [script, words] {
        for piece in [1, 7, WHOLE] {
            fail_each_write(&rt, rt.alloc(), example, piece, example.status)?;
        }
    }
    Ok(())
}
