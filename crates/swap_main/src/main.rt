//! `remswap`, the program: its words, its streams and its status. What a call promises stands in
//! the contracts of `run_lab_in_blocks` and, for the commands that may wait, of `run_live`; here
//! the streams of the process, and the host of this machine, are passed to them.
#![tactic(auto)]

use std::alloc::Global;
use std::fs::{File, Files};
use std::net::{Net, TcpListener, TcpStream};
use std::process::ExitCode;
use std::sync::Wait;
use std::thread::Threads;
use std::{env, io};
use swap_base::{Caller, NoMemory};
use swap_board::Point;
use swap_host::RealHost;
use swap_io::{BlockSink, Sink, Source, StdSink, StdSource, write_line};
use swap_live::run_live;
use swap_player::Gate;
use swap_run::run_lab_in_blocks;

// A gate that every pump passes.
struct Open;

impl Gate for Open {
    type No = ();

    fn may_pass(&self, _point: Point) -> Result<(), ()> {
        Ok(())
    }

    fn answered(&self, _caller: Caller, _number: u32) {}
}

// The words after the program's name. A word that is no text makes them no form of words.
fn words_of(rt: &HostRuntime) -> io::Result<Vec<String>> {
    let mut words = Vec::new(rt.alloc());
    let args = match env::args(rt) {
        Ok(args) => args,
        Err(error) if error.kind() == io::ErrorKind::InvalidData => return Ok(words),
        Err(error) => return Err(error),
    };
    for word in args.skip(1) {
        words.push(word)?;
    }
    Ok(words)
}

fn texts_of(alloc: Global, owned: &[String]) -> Result<Vec<&str>, NoMemory> {
    let mut words = Vec::new(alloc);
    for word in owned {
        if words.push(word.as_str()).is_err() {
            return Err(NoMemory);
        }
    }
    Ok(words)
}

// Whether the first word is that of a command that may wait.
fn may_wait(words: &[String]) -> bool {
    match words.first() {
        Some(word) => matches!(word.as_str(), "lend" | "play"),
        None => false,
    }
}

// Passes the words on, and gives the status. What is written is gathered in blocks.
fn run<E: Sink>(rt: &HostRuntime, owned: &[String], err: &mut E) -> Result<u8, NoMemory> {
    let words = texts_of(rt.alloc(), owned)?;
    let mut source = StdSource::make(rt.stdin());
    let mut out = BlockSink::make(rt.alloc(), StdSink::make(rt.stdout()))?;
    Ok(run_lab_in_blocks(rt.alloc(), &words, &mut source, &mut out, err))
}

// The same of a command that may wait, over the host of this machine. What is written goes out at
// once.
fn run_over_host<R, S, K, E>(
    rt: R,
    alloc: Global,
    owned: &[String],
    source: &mut S,
    out: &mut K,
    err: &mut E,
) -> Result<u8, NoMemory>
where
    R: Wait
        + Threads
        + Files<File = File>
        + Net<Stream = TcpStream, Listener = TcpListener>
        + Copy
        + Send
        + Sync
        + 'static,
    S: Source,
    K: Sink,
    E: Sink,
{
    let words = texts_of(alloc, owned)?;
    let mut host = RealHost::make(rt, alloc);
    Ok(run_live(rt, alloc, &words, source, out, err, &mut host, &Open))
}

fn main(rt: HostRuntime) -> ExitCode {
    let mut err = StdSink::make(rt.stderr());
    let ran = match words_of(&rt) {
        Err(_) => Err(NoMemory),
        Ok(words) if may_wait(&words) => {
            let mut source = StdSource::make(rt.stdin());
            let mut out = StdSink::make(rt.stdout());
            run_over_host(rt, rt.alloc(), &words, &mut source, &mut out, &mut err)
        }
        Ok(words) => run(&rt, &words, &mut err),
    };
    match ran {
        Ok(status) => ExitCode::from(status),
        Err(_) => {
            let _ = write_line(&mut err, b"no memory\n");
            ExitCode::from(6)
        }
    }
}
