ghost use Rattle.std.specs.Prelude.{◌≡◌, ◌<◌, length, None, IfOk, OnOk};
ghost use Rattle.std.specs.Io.{ReadsAtMost, WritesAtMost};
ghost use Rattle.std.specs.Io.KnownBytes.{ReadConsumes, WriteAppends};
ghost use Rattle.swap_io.specs.Causes.{HasCause};

use crate::outgoing::{Outgoing, SharedOutgoing};
use std::alloc::Global;
use std::io::Read;
use std::marker::Model;
use std::net::TcpStream;
use std::sync::Wait;
use swap_base::NoMemory;
use swap_io::{ReadFailed, Sink, Source, WriteFailed};

/// What is read from over TCP. It doesn't tell what it has left, and counts its failed reads.
/// Before it reads from the system, what the sink of its link has gathered is written out; where
/// that fails, the read does.
#[derive(Drop)]
pub struct TcpSource<R: Wait + Copy> {
    rt: R,
    stream: TcpStream,
    outgoing: SharedOutgoing,
    faults: u64,
}

impl<R: Wait + Copy> Model for TcpSource<R> {
    ghost use Rattle.std.specs.Prelude.{None};
    ghost use Rattle.swap_io.specs.Told.{Told};

    ghost Value = { Told };

    ghost view = { λ s. record { bytes = None; faults = s.faults } };
}

impl<R: Wait + Copy> Source for TcpSource<R> {
    ghost left = { λ s. s.bytes };

    ghost faults = { λ s. s.faults };

    fn read(&mut self, buf: &mut [u8]) -> Result<usize, ReadFailed> {
        let written = self.outgoing.lock(&self.rt).before_read();
        let read = match written {
            Ok(()) => self.stream.read(buf).ok(),
            Err(WriteFailed) => None,
        };
        let Some(n) = read else {
            self.faults = self.faults.saturating_add(1);
            return Err(ReadFailed);
        };
        if 0 < n {
            self.outgoing.lock(&self.rt).after_read();
        }
        Ok(n)
    }
}

/// What is written to over TCP. It doesn't tell what it took, and counts its failed writes. What
/// it takes is gathered while the source of its link has bytes that it read and hasn't handed on.
/// After a write that failed each other fails too.
///
/// After one of them, and where the sink is dropped, the stream is shut in both directions, so that
/// whoever reads it comes to its end.
pub struct TcpSink<R: Wait + Copy> {
    rt: R,
    outgoing: SharedOutgoing,
    faults: u64,
}

impl<R: Wait + Copy> Model for TcpSink<R> {
    ghost use Rattle.std.specs.Prelude.{None};
    ghost use Rattle.swap_io.specs.Told.{Told};

    ghost Value = { Told };

    ghost view = { λ s. record { bytes = None; faults = s.faults } };
}

impl<R: Wait + Copy> Drop for TcpSink<R> {
    fn drop(self) {
        let TcpSink {
            rt,
            outgoing,
            faults: _,
        } = self;
        outgoing.lock(&rt).finish();
    }
}

impl<R: Wait + Copy> Sink for TcpSink<R> {
    ghost taken = { λ s. s.bytes };

    ghost faults = { λ s. s.faults };

    fn write(&mut self, bytes: &[u8]) -> Result<usize, WriteFailed> {
        let taken = self.outgoing.lock(&self.rt).take(bytes);
        if taken.is_err() {
            self.faults = self.faults.saturating_add(1);
        }
        taken
    }
}

/// The source and the sink of a link, without faults, over the two handles of its stream.
pub(crate) fn make_ends<R: Wait + Copy>(
    rt: R,
    alloc: Global,
    reader: TcpStream,
    writer: TcpStream,
) -> Result<(TcpSource<R>, TcpSink<R>), NoMemory>
    ensures source { IfOk result (λ r. r.0 ≡ record { bytes = None; faults = 0 }) }
    ensures sink { IfOk result (λ r. r.1 ≡ record { bytes = None; faults = 0 }) }
{
    let (theirs, ours) = Outgoing::pair(alloc, writer)?;
    let source = TcpSource {
        rt,
        stream: reader,
        outgoing: theirs,
        faults: 0,
    };
    let sink = TcpSink {
        rt,
        outgoing: ours,
        faults: 0,
    };
    Ok((source, sink))
}
