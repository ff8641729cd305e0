//! Tasks run beside each other: each is held before an operation until the other one has come as far.
use crate::commands::texts_of;
use dlr_top::{CleanSink, CleanSource, Gate, top};
use std::hint::spin_loop;
use std::sync::Wait;
use std::sync::atomic::{AtomicBool, Ordering};
use std::test::Fail;
use std::thread::yield_now;

const SCRIPT: &[u8] = b"shared s; task a { s.a = 1; s.b = 2; } task b { s.c = 3; s.d = 4; }";

/// How often a task tries before it is late.
const TRIES: u32 = 50_000_000;

/// Holds each of two tasks before its first and its second operation until the other one has come there too.
#[derive(Drop)]
struct MeetingGate {
    first: [AtomicBool; 2],
    second: [AtomicBool; 2],
    late: AtomicBool,
}

impl Gate for MeetingGate {
    fn at<R: Wait>(&self, _rt: &R, task: u32, number: u64) {
        let marks = match number {
            0 => &self.first,
            1 => &self.second,
            _ => return,
        };
        match task {
            0 => meet(&marks[0], &marks[1], &self.late),
            1 => meet(&marks[1], &marks[0], &self.late),
            _ => {}
        }
    }
}

/// Marks the one, and tries until the other is marked.
fn meet(here: &AtomicBool, there: &AtomicBool, late: &AtomicBool) {
    here.store(true, Ordering::SeqCst);
    for tries in 0..TRIES {
        if there.load(Ordering::SeqCst) {
            return;
        }
        if tries % 64 == 63 {
            yield_now();
        } else {
            spin_loop();
        }
    }
    late.store(true, Ordering::SeqCst);
}

#[test]
fn two_tasks_come_to_each_operation_together(rt: HostRuntime) -> Result<(), Fail> {
    let alloc = rt.alloc();
    let gate = MeetingGate {
        first: [AtomicBool::new(false), AtomicBool::new(false)],
        second: [AtomicBool::new(false), AtomicBool::new(false)],
        late: AtomicBool::new(false),
    };
    let words = texts_of(alloc, "run")?;
    let mut source = CleanSource::new(Vec::from_slice(alloc, SCRIPT)?);
    let mut sink = CleanSink::new(alloc);
    let outcome = top(&rt, alloc, words.as_slice(), &mut source, &mut sink, &gate);
    assert!(rt; outcome.status == 0);
    for mark in gate.first.iter().chain(gate.second.iter()) {
        assert!(rt; mark.load(Ordering::SeqCst));
    }
    assert!(rt; !gate.late.load(Ordering::SeqCst));
    Ok(())
}
