use super::super::shared::{Log, REPLIES};
use super::host;
use std::alloc::Global;
use std::process::Abort;
use std::sync::{Arc, Mutex, Wait};
use std::test::Fail;
use std::thread::Threads;
use swap_base::Caller;
use swap_board::Point;
use swap_io::{MemSink, MemSource};
use swap_live::run_live;
use swap_player::Gate;
use swap_run::run_lab;
use swap_sock::{Host, MemHost};

const USAGE: &str = "usage: remswap script|check|drill|play|lend\n";

/// The number of the call that fails, of the host and of `out`.
#[derive(Clone, Copy, Debug)]
pub(super) struct Failing {
    host: u32,
    out: u32,
}

pub(super) const NONE: Failing = Failing {
    host: u32::MAX,
    out: u32::MAX,
};

/// A gate that every pump passes.
struct Open;

impl Gate for Open {
    type No = ();

    fn may_pass(&self, _point: Point) -> Result<(), ()> {
        Ok(())
    }

    fn answered(&self, _caller: Caller, _number: u32) {}
}

/// What a call gave.
#[derive(Debug, Drop)]
pub(super) struct Ran {
    pub(super) status: u8,
    pub(super) out: MemSink,
    err: MemSink,
}

/// Runs the words; none where there is no memory for it.
pub(super) fn run<R, H>(
    rt: R,
    alloc: Global,
    words: &[&str],
    text: &str,
    host: &mut H,
    failing: Failing,
) -> Option<Ran>
where
    R: Threads + Wait + Copy + Send + Sync + 'static,
    H: Host,
    H::Disk: Send,
    H::Net: Send,
{
    let text = text.as_bytes().to_vec(alloc).ok()?;
    let mut source = MemSource::make(text, Vec::new(alloc));
    let failing = vec![in alloc; failing.out].ok()?;
    let mut out = MemSink::make(alloc, 4000, failing).ok()?;
    let mut err = MemSink::make(alloc, 64, Vec::new(alloc)).ok()?;
    let status = run_live(
        rt,
        alloc,
        words,
        &mut source,
        &mut out,
        &mut err,
        host,
        &Open,
    );
    Some(Ran { status, out, err })
}

/// Compares what a call gave with what is wanted on `out`, on `err` and as its status.
fn judge(rt: &impl Abort, name: &str, ran: &Ran, (out, err, status): (&str, &str, u8)) {
    assert_eq!(rt; ran.out.bytes(), out.as_bytes(), "out of {name}");
    assert_eq!(rt; ran.err.bytes(), err.as_bytes(), "err of {name}");
    assert_eq!(rt; ran.status, status, "status of {name}");
}

#[test]
fn words_lend_over_a_door_and_its_sink_takes_the_replies(rt: HostRuntime) -> Result<(), Fail> {
    let alloc = rt.alloc();
    let words = [
        "lend",
        "--listen",
        "127.0.0.1:4000",
        "--slots",
        "4",
        "--headroom",
        "1",
        "--extra",
        "1",
        "--page-bytes",
        "8",
        "--pages-per-slab",
        "4",
    ];
    let log = Arc::new(alloc, Mutex::new(Log::none()))?;
    let mut host = host(rt, alloc, Arc::try_clone(&log)?)?;
    let ran = run(rt, alloc, &words, "", &mut host, NONE).ok_or("memory")?;
    judge(&rt, "the first call", &ran, ("served 1 links\n", "", 0));
    assert!(rt; log.lock(&rt).is(&REPLIES));
    let ran = run(rt, alloc, &words, "", &mut host, NONE).ok_or("memory")?;
    judge(&rt, "a host without a door", &ran, ("", "host failed\n", 8));
    Ok(())
}

#[test]
fn each_status_comes_with_its_words_on_err(rt: HostRuntime) -> Result<(), Fail> {
    let alloc = rt.alloc();
    let lend = ["lend", "--listen", "127.0.0.1:4000", "--links", "2"];
    let first = Failing { host: 0, ..NONE };
    let write = Failing { out: 0, ..NONE };
    for (name, words, failing, want) in [
        ("links", lend.as_slice(), NONE, ("served 2 links\n", "", 0)),
        ("host", lend.as_slice(), first, ("", "host failed\n", 8)),
        ("write", lend.as_slice(), write, ("", "write failed\n", 4)),
        ("no options", ["lend"].as_slice(), NONE, ("", USAGE, 2)),
        ("no words", [].as_slice(), NONE, ("", USAGE, 2)),
    ] {
        let mut host = MemHost::make(alloc, vec![in alloc; failing.host]?);
        let ran = run(rt, alloc, words, "", &mut host, failing).ok_or("memory")?;
        judge(&rt, name, &ran, want);
    }
    Ok(())
}

/// A trace of one caller, of which only one thing can come.
const TRACE: &str = "geometry 8 4 2 4 1 4 20\n0 in 5\n";

const PLAYED: &str = "geometry 8 4 2 4 1 4 20\nin 0 5 = entry 0 in 5 of none zero 00\nend 1\n";

#[test]
fn words_play_a_trace(rt: HostRuntime) -> Result<(), Fail> {
    let alloc = rt.alloc();
    let write = Failing { out: 0, ..NONE };
    let host_first = Failing { host: 0, ..NONE };
    for (name, words, text, failing, want) in [
        ("a trace", ["play"].as_slice(), TRACE, NONE, (PLAYED, "", 0)),
        (
            "a number",
            ["play", "--number", "7"].as_slice(),
            TRACE,
            NONE,
            (PLAYED, "", 0),
        ),
        (
            "no trace",
            ["play"].as_slice(),
            "",
            NONE,
            ("", "line 1: geometry\n", 5),
        ),
        (
            "write",
            ["play"].as_slice(),
            TRACE,
            write,
            ("", "write failed\n", 4),
        ),
        (
            "no number",
            ["play", "--number", "07"].as_slice(),
            TRACE,
            NONE,
            ("", USAGE, 2),
        ),
        (
            "a disk in a file",
            ["play", "--disk", "x"].as_slice(),
            TRACE,
            NONE,
            (PLAYED, "", 0),
        ),
        (
            "a host without a disk",
            ["play", "--disk", "x"].as_slice(),
            TRACE,
            host_first,
            ("", "host failed\n", 8),
        ),
        (
            "no host is asked",
            ["play"].as_slice(),
            TRACE,
            host_first,
            (PLAYED, "", 0),
        ),
        (
            "an address too many",
            ["play", "--tcp", "127.0.0.1:4000"].as_slice(),
            TRACE,
            NONE,
            ("", "line 2: lenders\n", 5),
        ),
        (
            "no address",
            ["play", "--tcp", "localhost:4000"].as_slice(),
            TRACE,
            NONE,
            ("", USAGE, 2),
        ),
    ] {
        let mut host = MemHost::make(alloc, vec![in alloc; failing.host]?);
        let ran = run(rt, alloc, words, text, &mut host, failing).ok_or("memory")?;
        judge(&rt, name, &ran, want);
    }
    Ok(())
}

/// A trace of one lender and two calls.
pub(super) const LENT_TRACE: &str = "geometry 8 4 2 4 2 4 20\nlender 4 1 1\n0 out 3 aa\n0 in 3\n";

/// What `check` says of a transcript.
pub(super) fn verdict(alloc: Global, transcript: &[u8]) -> Result<Vec<u8>, Fail> {
    let text = transcript.to_vec(alloc)?;
    let mut source = MemSource::make(text, Vec::new(alloc));
    let mut out = MemSink::make(alloc, 64, Vec::new(alloc)).map_err(|_| "out")?;
    let mut err = MemSink::make(alloc, 64, Vec::new(alloc)).map_err(|_| "err")?;
    run_lab(alloc, &["check"], &mut source, &mut out, &mut err);
    Ok(out.bytes().to_vec(alloc)?)
}

#[test]
fn a_trace_over_what_a_host_gives_is_legal(rt: HostRuntime) -> Result<(), Fail> {
    let alloc = rt.alloc();
    let host_first = Failing { host: 0, ..NONE };
    let host_second = Failing { host: 1, ..NONE };
    for (name, words, failing, status) in [
        ("memory", ["play"].as_slice(), NONE, 0),
        ("disk", ["play", "--disk", "x"].as_slice(), NONE, 0),
        ("tcp", ["play", "--tcp", "10.0.0.1:4"].as_slice(), NONE, 0),
        (
            "both",
            ["play", "--disk", "x", "--tcp", "10.0.0.1:4"].as_slice(),
            NONE,
            0,
        ),
        ("no disk", ["play", "--disk", "x"].as_slice(), host_first, 8),
        (
            "no links",
            ["play", "--tcp", "10.0.0.1:4"].as_slice(),
            host_first,
            8,
        ),
        (
            "a disk, and no links",
            ["play", "--disk", "x", "--tcp", "10.0.0.1:4"].as_slice(),
            host_second,
            8,
        ),
    ] {
        let mut host = MemHost::make(alloc, vec![in alloc; failing.host]?);
        let ran = run(rt, alloc, words, LENT_TRACE, &mut host, failing).ok_or("memory")?;
        assert_eq!(rt; ran.status, status, "status of {name}");
        if status == 0 {
            let said = verdict(alloc, ran.out.bytes())?;
            assert_eq!(rt; said.as_slice(), b"legal 2 entries\n".as_slice(), "{name}");
        } else {
            assert_eq!(rt; ran.out.bytes(), b"".as_slice(), "out of {name}");
            assert_eq!(rt;
                ran.err.bytes(),
                b"host failed\n".as_slice(),
                "err of {name}"
            );
        }
    }
    Ok(())
}
