ghost use Rattle.std.specs.Prelude.{◌≡◌, ◌<◌, length, is_ok, if◌then◌else◌, IfOk, OnOk};
ghost use Rattle.std.specs.Io.{ReadsAtMost, WritesAtMost};
ghost use Rattle.std.specs.Io.KnownBytes.{ReadConsumes, WriteAppends};
ghost use Rattle.swap_io.specs.Causes.{HasCause};
ghost use Rattle.swap_io.specs.Memory.{raise};

use super::{ReadFailed, Sink, Source, WriteFailed};
use std::io::{Read, Write};
use std::marker::Model;

/// A source over std's reader: it passes on what the reader tells, and counts its errors.
#[derive(Debug, Drop)]
pub struct StdSource<R: Read + Drop> {
    reader: R,
    faults: u64,
}

impl<R: Read + Drop> Model for StdSource<R> {
    ghost use Rattle.swap_io.specs.Told.{Told};

    ghost Value = { Told };

    ghost view = { λ s. record { bytes = R.remaining s.reader; faults = s.faults } };
}

impl<R: Read + Drop> StdSource<R> {
    pub fn make(reader: R) -> StdSource<R>
        ensures { result ≡ record { bytes = R.remaining reader; faults = 0 } }
    {
        StdSource { reader, faults: 0 }
    }
}

impl<R: Read + Drop> Source for StdSource<R> {
    ghost left = { λ s. s.bytes };

    ghost faults = { λ s. s.faults };

    fn read(&mut self, buf: &mut [u8]) -> Result<usize, ReadFailed>
        requires { 0 < length buf.old }
        ensures bound { ReadsAtMost result buf.new }
        ensures bytes { ReadConsumes self.old.bytes self.new.bytes result buf.new }
        ensures cause { HasCause self.old.faults self.new.faults result }
        ensures unfailed { OnOk result (self.new.faults ≡ self.old.faults) }
        ensures count { self.new.faults
            ≡ (if is_ok result then self.old.faults else raise self.old.faults) }
    {
        let Ok(n) = self.reader.read(buf) else {
            self.faults = self.faults.saturating_add(1);
            return Err(ReadFailed);
        };
        Ok(n)
    }
}

/// A sink over std's writer: it passes on what the writer tells, and counts its errors. A write
/// that takes nothing of a piece is an error too.
#[derive(Debug, Drop)]
pub struct StdSink<W: Write + Drop> {
    writer: W,
    faults: u64,
}

impl<W: Write + Drop> Model for StdSink<W> {
    ghost use Rattle.swap_io.specs.Told.{Told};

    ghost Value = { Told };

    ghost view = { λ s. record { bytes = W.contents s.writer; faults = s.faults } };
}

impl<W: Write + Drop> StdSink<W> {
    pub fn make(writer: W) -> StdSink<W>
        ensures { result ≡ record { bytes = W.contents writer; faults = 0 } }
    {
        StdSink { writer, faults: 0 }
    }
}

impl<W: Write + Drop> Sink for StdSink<W> {
    ghost taken = { λ s. s.bytes };

    ghost faults = { λ s. s.faults };

    fn write(&mut self, bytes: &[u8]) -> Result<usize, WriteFailed>
        ensures bound { WritesAtMost result bytes.now }
        ensures some { IfOk result (λ n. 0 < length bytes.now → 0 < n) }
        ensures bytes { WriteAppends self.old.bytes self.new.bytes result bytes.now }
        ensures cause { HasCause self.old.faults self.new.faults result }
        ensures count { self.new.faults
            ≡ (if is_ok result then self.old.faults else raise self.old.faults) }
    {
        let written = self.writer.write(bytes).unwrap_or(0);
        if written == 0 && !bytes.is_empty() {
            self.faults = self.faults.saturating_add(1);
            return Err(WriteFailed);
        }
        Ok(written)
    }
}
