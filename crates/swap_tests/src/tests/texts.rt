//! Scripts from a source that fails, into a sink that fails, cut short, and with a byte changed.

use std::alloc::Global;
use std::process::Abort;
use std::str;
use std::test::Fail;
use swap_io::{MemSink, MemSource};
use swap_run::run_lab;

/// A page goes to the disk and comes back from it.
const FROM_THE_DISK: &str =
    "geometry 8 4 2 4 2 4 20\nout 0 3 aa\nstart\ndisk write 3 ok\nin 0 3\ndisk read 0 ok\nfinish 0\n";

/// A lender wants its slot back while a read and a write are in flight.
const REVOCATION: &str =
    "geometry 8 4 2 4 2 4 20\nlender 3 1 0\nconnect 0\nmap 0 0\ngive 0\ngive 0\n\
    take 0\nout 0 3 aa\ngive 0\ntake 0\nstart\ndisk write 3 ok\nhost 0 10 0\ntake 0\ngive 0\nin 0 3\n\
    out 1 2 bb\ntake 0\ngive 0\ngive 0\ngive 0\ntake 0\ngive 0\ntake 0\ngive 0\nfinish 0\nin 0 3\n\
    disk read 0 ok\nfinish 0\nhost 0 0 0\nhost 0 0 0\nhost 0 0 0\nhost 0 0 0\nmap 0 0\ngive 0\ntake 0\n";

/// How many lines its transcript has, each of which is a call of the sink.
const LINES: u32 = 37;

/// The number of a call that isn't made.
const NEVER: u32 = u32::MAX;

/// What a call gave.
#[derive(Debug, Drop)]
struct Ran {
    status: u8,
    out: MemSink,
    err: MemSink,
}

/// Runs a text as a script; the source and the sink fail at the calls of these numbers.
fn run(alloc: Global, text: &[u8], read: u32, write: u32) -> Result<Ran, Fail> {
    let text = text.to_vec(alloc)?;
    let mut source = MemSource::make(text, vec![in alloc; read]?);
    let mut out = MemSink::make(alloc, 4000, vec![in alloc; write]?)?;
    let mut err = MemSink::make(alloc, 100, Vec::new(alloc))?;
    let status = run_lab(alloc, &["script"], &mut source, &mut out, &mut err);
    Ok(Ran { status, out, err })
}

/// How many lines a text has.
fn lines_in(text: &[u8]) -> usize {
    text.iter().filter(|byte| **byte == b'\n').count()
}

#[test]
fn a_source_fails_at_each_call(rt: HostRuntime) -> Result<(), Fail> {
    for (read, status, lines) in [(0, 3, 0), (1, 3, 0), (2, 0, 8)] {
        let ran = run(rt.alloc(), FROM_THE_DISK.as_bytes(), read, NEVER)?;
        assert_eq!(rt; ran.status, status, "read {read}");
        assert_eq!(rt; lines_in(ran.out.bytes()), lines, "read {read}");
    }
    Ok(())
}

#[test]
fn a_sink_fails_at_each_call(rt: HostRuntime) -> Result<(), Fail> {
    let whole = run(rt.alloc(), REVOCATION.as_bytes(), NEVER, LINES)?;
    assert_eq!(rt; whole.status, 0);
    assert_eq!(rt; lines_in(whole.out.bytes()), LINES as usize);
    for write in 0..LINES {
        let ran = run(rt.alloc(), REVOCATION.as_bytes(), NEVER, write)?;
        let front = ran.out.bytes();
        assert_eq!(rt; ran.status, 4, "write {write}");
        assert_eq!(rt; lines_in(front), write as usize, "write {write}");
        assert!(rt; whole.out.bytes().starts_with(front), "write {write}");
    }
    Ok(())
}

/// A text that is cut runs whole, or is refused at the line of the cut.
fn judge_cut(rt: &impl Abort, alloc: Global, front: &[u8]) -> Result<(), Fail> {
    let ran = run(alloc, front, NEVER, NEVER)?;
    if ran.status != 0 {
        let told = format!(in alloc; "line {}: ", lines_in(front).saturating_add(1))?;
        assert_eq!(rt; ran.status, 5, "a front of {} bytes", front.len());
        assert!(rt;
            ran.out.bytes().is_empty(),
            "a front of {} bytes",
            front.len()
        );
        assert!(rt;
            ran.err.bytes().starts_with(told.as_bytes()),
            "a front of {} bytes",
            front.len()
        );
    }
    Ok(())
}

#[test]
fn a_text_is_cut_at_each_place(rt: HostRuntime) -> Result<(), Fail> {
    let text = REVOCATION.as_bytes();
    for len in 0..=text.len() {
        judge_cut(&rt, rt.alloc(), &text[..len])?;
    }
    Ok(())
}

/// Bytes that end a line or a word, begin a comment, a word, a number or hex, or stand in no text.
const TELLING: [u8; 10] = [b'\n', b' ', b'#', b'-', b'0', b'1', b'9', b'a', 0, 255];

/// Whatever byte is changed, the text runs, with or without a failed call, or is refused.
fn judge_changed(rt: &impl Abort, alloc: Global, at: usize, byte: u8) -> Result<(), Fail> {
    let mut text = REVOCATION.as_bytes().to_vec(alloc)?;
    assert!(rt; at < text.len());
    text[at] = byte;
    let ran = run(alloc, &text, NEVER, NEVER)?;
    assert!(rt; matches!(ran.status, 0 | 1 | 5), "byte {at} as {byte}");
    let err = ran.err.bytes();
    assert_eq!(rt;
        ran.status == 5,
        err.starts_with(b"line "),
        "byte {at} as {byte}"
    );
    Ok(())
}

#[test]
fn each_byte_is_changed(rt: HostRuntime) -> Result<(), Fail> {
    for at in 0..REVOCATION.len() {
        for byte in TELLING {
            judge_changed(&rt, rt.alloc(), at, byte)?;
        }
    }
    Ok(())
}
