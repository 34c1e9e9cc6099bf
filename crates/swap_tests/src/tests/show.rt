//! What no clause says: that callers run beside one another, that a played trace is judged legal,
//! and texts at fault.

use std::alloc::Global;
use std::process::Abort;
use std::sync::Wait;
use std::sync::atomic::{AtomicBool, AtomicU32, Ordering};
use std::test::Fail;
use std::thread::Threads;
use std::{str, thread};
use swap_base::{Caller, Field};
use swap_board::Point;
use swap_io::{MemSink, MemSource};
use swap_player::Gate;
use swap_run::{Ending, run_lab};
use swap_script::{ScriptRefused, Why};
use swap_show::play_source;

/// The number of a call that never fails.
const NEVER: u32 = u32::MAX;

/// A gate that every pump passes.
struct Open;

impl Gate for Open {
    type No = ();

    fn may_pass(&self, _point: Point) -> Result<(), ()> {
        Ok(())
    }

    fn answered(&self, _caller: Caller, _number: u32) {}
}

/// A gate that holds the disk until a call of caller 1 is answered. The first answer of each of two
/// callers is waited for by both. It gives up after so many questions, or looks, and is marked
/// then.
#[derive(Drop)]
struct Meeting {
    is_answered: AtomicBool,
    entered: AtomicU32,
    questions: AtomicU32,
    gave_up: AtomicBool,
}

impl Meeting {
    fn new() -> Meeting {
        Meeting {
            is_answered: AtomicBool::new(false),
            entered: AtomicU32::new(0),
            questions: AtomicU32::new(0),
            gave_up: AtomicBool::new(false),
        }
    }

    fn gave_up(&self) -> bool {
        self.gave_up.load(Ordering::SeqCst)
    }
}

impl Gate for Meeting {
    type No = ();

    fn may_pass(&self, point: Point) -> Result<(), ()> {
        if point != Point::Disk || self.is_answered.load(Ordering::SeqCst) {
            return Ok(());
        }
        if self.questions.fetch_add(1, Ordering::SeqCst) < 10_000_000 {
            return Err(());
        }
        self.gave_up.store(true, Ordering::SeqCst);
        Ok(())
    }

    fn answered(&self, caller: Caller, number: u32) {
        if caller.0 == 1 {
            self.is_answered.store(true, Ordering::SeqCst);
        }
        if number > 0 {
            return;
        }
        self.entered.fetch_add(1, Ordering::SeqCst);
        for _ in 0..1_000_000_000u32 {
            if self.entered.load(Ordering::SeqCst) >= 2 {
                return;
            }
            thread::yield_now();
        }
        self.gave_up.store(true, Ordering::SeqCst);
    }
}

/// What a call gave.
#[derive(Debug, Drop)]
struct Ran {
    ending: Ending,
    out: MemSink,
}

/// Plays a text, where the call of the source and that of the sink with these numbers fail.
fn run<G: Gate, R: Threads + Wait + Sync>(
    rt: &R,
    alloc: Global,
    text: &str,
    failing: (u32, u32),
    gate: &G,
) -> Result<Ran, Fail> {
    let text = text.as_bytes().to_vec(alloc)?;
    let mut source = MemSource::make(text, vec![in alloc; failing.0]?);
    let failing = vec![in alloc; failing.1]?;
    let mut out = MemSink::make(alloc, 100_000, failing).map_err(|_| "sink")?;
    let ending = play_source(rt, alloc, 1, &mut source, &mut out, gate);
    Ok(Ran { ending, out })
}

/// Checks what was written, and compares the verdict.
fn judge(rt: &impl Abort, alloc: Global, out: &[u8], verdict: &str) -> Result<(), Fail> {
    let mut source = MemSource::make(out.to_vec(alloc)?, Vec::new(alloc));
    let mut told = MemSink::make(alloc, 100, Vec::new(alloc)).map_err(|_| "sink")?;
    let mut err = MemSink::make(alloc, 100, Vec::new(alloc)).map_err(|_| "sink")?;
    let status = run_lab(alloc, &["check"], &mut source, &mut told, &mut err);
    assert_eq!(rt; str::from_utf8(told.bytes())?, verdict);
    assert_eq!(rt; status, 0);
    Ok(())
}

/// Caller 0 needs the disk for its second call, which waits for caller 1's, and each waits for the
/// other's first answer: so neither can run behind the other.
#[test]
fn two_callers_meet(rt: HostRuntime) -> Result<(), Fail> {
    let text = "geometry 8 4 2 1 2 4 20\n0 out 3 aa\n0 out 2 bb\n1 in 5\n";
    let gate = Meeting::new();
    let ran = run(&rt, rt.alloc(), text, (NEVER, NEVER), &gate)?;
    assert!(rt; !gate.gave_up());
    assert_eq!(rt; ran.ending, Ending::Done);
    judge(&rt, rt.alloc(), ran.out.bytes(), "legal 3 entries\n")
}

/// Traces, and what a check says of what is written of each.
const TRACES: [(&str, &str); 5] = [
    ("geometry 8 4 2 4 2 4 20\n", "legal 0 entries\n"),
    (
        "geometry 8 4 2 4 2 4 20\n0 out 3 aa\n1 out 3 bb\n0 in 3\n1 in 3\n",
        "legal 4 entries\n",
    ),
    (
        "geometry 8 4 2 1 3 1 20\n0 out 3 aa\n0 out 2 bb\n0 in 3\n1 out 7 0102\n1 in 2\n2 in 7\n",
        "legal 6 entries\n",
    ),
    (
        "geometry 8 4 4 2 2 2 20\nlender 4 1 1\nlender 6 2 1\nmap 0 0\nmap 1 1\n0 out 3 aa\n0 out 4 bb\n1 in 3\n1 in 4\ncut 0 0 0\nconnect 0\n0 in 3\n",
        "legal 5 entries\n",
    ),
    (
        "geometry 8 4 4 1 4 1 5\nlender 4 0 0\nmap 0 0\nround 7\nhost 0 3 9\ncrash 0\nround 8\n0 out 0 01\n1 out 1 02\n2 out 2 03\n3 out 3 04\n3 in 0\n2 in 1\n1 in 2\n0 in 3\n",
        "legal 8 entries\n",
    ),
];

#[test]
fn played_traces_are_legal(rt: HostRuntime) -> Result<(), Fail> {
    for (text, verdict) in TRACES {
        let ran = run(&rt, rt.alloc(), text, (NEVER, NEVER), &Open)?;
        assert_eq!(rt; ran.ending, Ending::Done, "of {text:?}");
        judge(&rt, rt.alloc(), ran.out.bytes(), verdict)?;
    }
    Ok(())
}

/// Each lender is connected first, ascending, and the copy of a page leaves for the disk at the
/// end.
#[test]
fn one_caller_without_a_choice(rt: HostRuntime) -> Result<(), Fail> {
    let text = "geometry 8 4 2 4 1 4 20\nlender 4 1 1\nlender 4 1 1\n0 in 5\n";
    let ran = run(&rt, rt.alloc(), text, (NEVER, NEVER), &Open)?;
    let front =
        "geometry 8 4 2 4 1 4 20\nlender 4 1 1\nlender 4 1 1\nconnect 0 = link 0\nconnect 1 = link 1\n";
    assert!(rt; str::from_utf8(ran.out.bytes())?.starts_with(front));
    judge(&rt, rt.alloc(), ran.out.bytes(), "legal 1 entries\n")
}

#[test]
fn texts_at_fault_are_refused(rt: HostRuntime) -> Result<(), Fail> {
    for (text, line, why) in [
        ("", 1, Why::Geometry),
        ("geometry 8 4 2 4 2 4\n", 1, Why::Form),
        ("geometry 9 4 2 4 2 4 20\n", 1, Why::Field(Field::PageBytes)),
        ("geometry 8 4 2 4 2 4 20\nout 0 3 aa\n", 2, Why::Form),
        ("geometry 8 4 2 4 2 4 20\n\n2 in 3\n", 3, Why::Caller),
        ("geometry 8 4 2 4 2 4 20\n1 in 8\n", 2, Why::Page),
        ("geometry 8 4 2 4 2 4 20\nmap 0 0\n", 2, Why::Lender),
        ("geometry 8 4 2 4 2 4 20\n0 out 3 aabbcc\n", 2, Why::Pattern),
    ] {
        let ran = run(&rt, rt.alloc(), text, (NEVER, NEVER), &Open)?;
        let refused = ScriptRefused { line, why };
        assert_eq!(rt; ran.ending, Ending::Refused(refused), "of {text:?}");
        assert_eq!(rt; ran.out.bytes(), b"".as_slice());
    }
    Ok(())
}

#[test]
fn what_fails_at_the_streams_is_told(rt: HostRuntime) -> Result<(), Fail> {
    let text = "geometry 8 4 2 4 2 4 20\n0 in 5\n";
    let read = run(&rt, rt.alloc(), text, (0, NEVER), &Open)?;
    assert_eq!(rt; read.ending, Ending::ReadFailed);
    assert_eq!(rt; read.out.bytes(), b"".as_slice());
    let write = run(&rt, rt.alloc(), text, (NEVER, 1), &Open)?;
    assert_eq!(rt; write.ending, Ending::WriteFailed);
    assert_eq!(rt; write.out.bytes(), b"geometry 8 4 2 4 2 4 20\n".as_slice());
    Ok(())
}
