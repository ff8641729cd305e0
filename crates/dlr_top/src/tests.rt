//! The command over devices that move one to three bytes a call, and fail in mid-stream.
use super::*;
use dyn_value::DynText;
use std::alloc::{AllocError, Global};
use std::sync::Wait;
use std::test::Fail;
use std::thread::Threads;

const USAGE: &str =
    "usage: dlr run [--serial] [--journal] [--stats] [--rules] [--turns N] [--objects N] | check | drill SEED\n";

// No call of a device has this number.
const NEVER: u64 = u64::MAX;

// Gives one to three bytes a call, and fails at the call of this number.
#[derive(Drop)]
struct SlowSource {
    clean: CleanSource,
    calls: u64,
    fails_at: u64,
    faults: u64,
}

impl Source for SlowSource {
    ghost use Rattle.std.specs.Prelude.{None};

    ghost held = { λ _. None };

    ghost faults = { λ s. s.faults };

    fn read(&mut self, into: &mut [u8]) -> Result<usize, Failed> {
        let call = self.calls;
        self.calls = call.saturating_add(1);
        if call == self.fails_at {
            self.faults = self.faults.saturating_add(1);
            return Err(Failed);
        }
        let most = into.len().min((call % 3) as usize + 1);
        self.clean.read(&mut into[..most])
    }
}

// Takes one to three bytes a call, and fails at the call of this number. Counts how often room was reserved, and
// the writes that were not offered all that is left of it.
#[derive(Drop)]
struct SlowSink {
    clean: CleanSink,
    calls: u64,
    fails_at: u64,
    faults: u64,
    reserved: u64,
    left: usize,
    short: u64,
}

impl Sink for SlowSink {
    ghost use Rattle.std.specs.Prelude.{None};
    ghost use Rattle.byte_devices.specs.Clean.{reserved_room};

    ghost has = { λ _. None };

    ghost faults = { λ s. s.faults };

    ghost room = { λ s. reserved_room s.clean };

    fn reserve(&mut self, bytes: usize) -> Result<(), AllocError> {
        self.reserved = self.reserved.saturating_add(1);
        self.left = bytes;
        self.clean.reserve(bytes)
    }

    fn write(&mut self, piece: &[u8]) -> Result<usize, Failed> {
        let call = self.calls;
        self.calls = call.saturating_add(1);
        if call == self.fails_at {
            self.faults = self.faults.saturating_add(1);
            return Err(Failed);
        }
        if piece.len() != self.left {
            self.short = self.short.saturating_add(1);
        }
        let most = piece.len().min((call % 3) as usize + 1);
        self.left = self.left.saturating_sub(most);
        self.clean.write(&piece[..most])
    }
}

fn slow_source(alloc: Global, text: &str, fails_at: u64) -> Result<SlowSource, AllocError> {
    Ok(SlowSource {
        clean: CleanSource::new(Vec::from_slice(alloc, text.as_bytes())?),
        calls: 0,
        fails_at,
        faults: 0,
    })
}

fn slow_sink(alloc: Global, fails_at: u64) -> SlowSink {
    SlowSink {
        clean: CleanSink::new(alloc),
        calls: 0,
        fails_at,
        faults: 0,
        reserved: 0,
        left: 0,
        short: 0,
    }
}

// How the command ended with these words.
fn command<R: Threads + Wait + Sync, S: Source, K: Sink>(
    rt: &R,
    alloc: Global,
    texts: &[&str],
    source: &mut S,
    sink: &mut K,
) -> Result<TopOutcome, AllocError> {
    let mut words = Vec::new(alloc);
    for text in texts {
        if let Some(word) = DynText::from_str(alloc, text)? {
            words.push(word)?;
        }
    }
    Ok(top(rt, alloc, words.as_slice(), source, sink, &OpenGate))
}

#[test]
fn words_that_are_no_command_give_the_usage_line(rt: HostRuntime) -> Result<(), Fail> {
    let alloc = rt.alloc();
    let cases: [(&[&str], u64, &str); 11] = [
        (&[], NEVER, USAGE),
        (&["ran"], NEVER, USAGE),
        (&["run", "run"], NEVER, USAGE),
        (&[""], NEVER, USAGE),
        (&["--journal"], NEVER, USAGE),
        (&["--serial", "run"], NEVER, USAGE),
        (&["run", "--serial", "--serial"], NEVER, USAGE),
        (&["run", "--journal", "--serial", "--journal"], NEVER, USAGE),
        (&["run", "--journal", "--stats"], NEVER, USAGE),
        // The writes take 1, 2 and 3 bytes before the fourth fails.
        (&["drill"], 3, "usage:"),
        (&["Run"], 0, ""),
    ];
    for (texts, fails_at, want) in cases {
        let mut source = slow_source(alloc, "task a { print 1; }", 0)?;
        let mut sink = slow_sink(alloc, fails_at);
        let outcome = command(&rt, alloc, texts, &mut source, &mut sink)?;
        assert_eq!(rt; outcome.status, WORDS_REFUSED);
        assert!(rt; outcome.report.is_none());
        assert_eq!(rt; sink.clean.bytes(), want.as_bytes());
        assert_eq!(rt; source.calls, 0);
    }
    Ok(())
}

#[test]
fn a_source_that_fails_leaves_the_sink_as_it_was(rt: HostRuntime) -> Result<(), Fail> {
    let alloc = rt.alloc();
    for fails_at in [0, 1, 4, 9] {
        let mut source = slow_source(alloc, "task a { print (1 + 2); }", fails_at)?;
        let mut sink = slow_sink(alloc, NEVER);
        let outcome = command(&rt, alloc, &["run"], &mut source, &mut sink)?;
        assert_eq!(rt; outcome.status, SOURCE_FAILED, "at {fails_at}");
        assert!(rt; outcome.report.is_none());
        assert_eq!(rt; sink.clean.bytes(), b"".as_slice());
        assert_eq!(rt; sink.calls, 0);
    }
    Ok(())
}

#[test]
fn a_reader_and_a_writer_serve_the_command(rt: HostRuntime) -> Result<(), Fail> {
    let alloc = rt.alloc();
    let mut written: Vec<u8> = Vec::new(alloc);
    let mut source = InputSource::new(b"task a { }".as_slice());
    let mut sink = OutputSink::new(&mut written);
    let outcome = command(&rt, alloc, &["drill"], &mut source, &mut sink)?;
    assert_eq!(rt; outcome.status, WORDS_REFUSED);
    assert_eq!(rt; written.as_slice(), USAGE.as_bytes());
    Ok(())
}

// Two tasks over two shared objects and one that is made.
const OBJECTS: &str = "shared o; shared p;
task a { o.x = 1; o.y = (2 + 3); print o.x; let n = new(); n.up = o; print n; }
task b { delete o.x; o.x = p; print p.z; }";

const LINES: &str = "a: 1\na: obj#2\nb! NoMember \"z\"\n";

const JOURNALS: &str = "object 0
  a SetMember \"x\" 1 -> nil
  a SetMember \"y\" 5 -> nil
  a GetMember \"x\" -> 1
  b DeleteMember \"x\" -> nil
  b SetMember \"x\" obj#1 -> nil
  members \"y\" 5, \"x\" obj#1
object 1
  b GetMember \"z\" -> ! NoMember \"z\"
  members
object 2
  a SetMember \"up\" obj#0 -> nil
  members \"up\" obj#0
";

#[test]
fn journals_are_written_where_they_are_asked_for(rt: HostRuntime) -> Result<(), Fail> {
    let alloc = rt.alloc();
    let cases: [(&[&str], &str); 3] = [
        (&["run", "--serial"], ""),
        (&["run", "--journal", "--serial"], JOURNALS),
        (&["run", "--serial", "--journal"], JOURNALS),
    ];
    for (texts, journals) in cases {
        let mut source = slow_source(alloc, OBJECTS, NEVER)?;
        let mut sink = slow_sink(alloc, NEVER);
        let outcome = command(&rt, alloc, texts, &mut source, &mut sink)?;
        let mut want = Vec::from_slice(alloc, LINES.as_bytes())?;
        want.extend_from_slice(journals.as_bytes())?;
        assert_eq!(rt; outcome.status, TASK_FAULTED);
        assert_eq!(rt; sink.clean.bytes(), want.as_slice());
    }
    Ok(())
}

#[test]
fn a_sink_that_fails_keeps_a_front_of_the_text(rt: HostRuntime) -> Result<(), Fail> {
    let alloc = rt.alloc();
    // The writes take 1, 2 and 2 bytes.
    for (fails_at, want, status) in [
        (0, "", SINK_FAILED),
        (1, "a", SINK_FAILED),
        (2, "a: ", SINK_FAILED),
        (NEVER, "a: 3\n", ALL_DONE),
    ] {
        let mut source = slow_source(alloc, "task a { print (1 + 2); }", NEVER)?;
        let mut sink = slow_sink(alloc, fails_at);
        let outcome = command(&rt, alloc, &["run"], &mut source, &mut sink)?;
        assert_eq!(rt; outcome.status, status, "at {fails_at}");
        assert!(rt; outcome.report.is_some());
        assert_eq!(rt; sink.clean.bytes(), want.as_bytes());
        assert_eq!(rt; sink.reserved, 1);
        assert_eq!(rt; sink.short, 0);
    }
    Ok(())
}

#[test]
fn a_check_writes_ok_or_the_refusal(rt: HostRuntime) -> Result<(), Fail> {
    let alloc = rt.alloc();
    let cases: [(&str, &str, u8); 9] = [
        ("", "ok\n", ALL_DONE),
        ("task a { print nil.x; }", "ok\n", ALL_DONE),
        ("# \u{fffe}\nshared s;", "ok\n", ALL_DONE),
        ("task a { print \"ab", "refused: BadToken 15\n", REFUSED),
        ("task a { print (1 +", "refused: Syntax 7\n", REFUSED),
        ("task a { print 1 + 2; }", "refused: Syntax 5\n", REFUSED),
        ("task a { print x; }", "refused: BadName 4\n", REFUSED),
        (
            "fn f(a, b, c, d, e, f1, g, h, i, j, k, l, m, n, o, p, q) { }",
            "refused: TooMany parameters\n",
            REFUSED,
        ),
        ("shared s; shared s;", "refused: BadName 4\n", REFUSED),
    ];
    for (script, want, status) in cases {
        let mut source = slow_source(alloc, script, NEVER)?;
        let mut sink = slow_sink(alloc, NEVER);
        let outcome = command(&rt, alloc, &["check"], &mut source, &mut sink)?;
        assert_eq!(rt; outcome.status, status, "{script}");
        assert!(rt; outcome.report.is_none());
        assert_eq!(rt; sink.clean.bytes(), want.as_bytes(), "{script}");
        let mut source = slow_source(alloc, script, NEVER)?;
        let mut sink = slow_sink(alloc, NEVER);
        assert_eq!(rt;
            check_only(alloc, &mut source, &mut sink),
            status,
            "{script}"
        );
        assert_eq!(rt; sink.clean.bytes(), want.as_bytes(), "{script}");
    }
    Ok(())
}

#[test]
fn a_check_tells_which_device_failed(rt: HostRuntime) -> Result<(), Fail> {
    let alloc = rt.alloc();
    for (script, source_fails_at, sink_fails_at, want, status) in [
        ("task a { }", 2, NEVER, "", SOURCE_FAILED),
        ("task a {", 2, NEVER, "", SOURCE_FAILED),
        // The writes take 1 and 2 bytes.
        ("task a { }", NEVER, 1, "o", SINK_FAILED),
        ("task a {", NEVER, 2, "ref", REFUSED),
    ] {
        let mut source = slow_source(alloc, script, source_fails_at)?;
        let mut sink = slow_sink(alloc, sink_fails_at);
        assert_eq!(rt;
            check_only(alloc, &mut source, &mut sink),
            status,
            "{script}"
        );
        assert_eq!(rt; sink.clean.bytes(), want.as_bytes(), "{script}");
    }
    Ok(())
}

#[test]
fn turns_and_objects_are_those_of_the_words(rt: HostRuntime) -> Result<(), Fail> {
    let alloc = rt.alloc();
    let loops = "task a { let i = 0; while (i < 5) { i = (i + 1); print i; } }";
    let makes = "shared s; task a { print new(); print new(); }";
    let cases: [(&[&str], &str, &str); 4] = [
        (
            &["run", "--turns", "5"],
            loops,
            "a: 1\na: 2\na: 3\na: 4\na: 5\n",
        ),
        (
            &["run", "--turns=4"],
            loops,
            "a: 1\na: 2\na: 3\na: 4\na! Turns\n",
        ),
        (&["run", "--objects", "2"], makes, "a: obj#1\na: obj#2\n"),
        (&["run", "--objects=1"], makes, "a: obj#1\na! HeapFull\n"),
    ];
    for (texts, script, want) in cases {
        let mut source = slow_source(alloc, script, NEVER)?;
        let mut sink = slow_sink(alloc, NEVER);
        command(&rt, alloc, texts, &mut source, &mut sink)?;
        assert_eq!(rt; sink.clean.bytes(), want.as_bytes());
    }
    Ok(())
}

#[test]
fn the_first_cause_decides(rt: HostRuntime) -> Result<(), Fail> {
    let alloc = rt.alloc();
    for (word, script, source_fails_at, sink_fails_at, status) in [
        ("ran", "task a {", 0, 0, WORDS_REFUSED),
        ("run", "task a {", 0, 0, SOURCE_FAILED),
        ("run", "task a { }", 0, 0, SOURCE_FAILED),
        ("run", "task a {", NEVER, 0, REFUSED),
        ("run", "task a { print nil.x; }", NEVER, 0, SINK_FAILED),
        ("run", "task a { print nil.x; }", NEVER, NEVER, TASK_FAULTED),
    ] {
        let mut source = slow_source(alloc, script, source_fails_at)?;
        let mut sink = slow_sink(alloc, sink_fails_at);
        let outcome = command(&rt, alloc, &[word], &mut source, &mut sink)?;
        assert_eq!(rt; outcome.status, status, "{word}, {script}");
    }
    Ok(())
}
