ghost use Rattle.std.specs.Prelude.{◌≡◌, ◌<◌, length, IfOk};
ghost use Rattle.std.specs.Io.{WritesAtMost};

use std::alloc::Global;
use std::io::Write;
use std::net::{Shutdown, TcpStream};
use std::sync::{Arc, Mutex};
use swap_base::NoMemory;
use swap_io::{BlockSink, Sink, WriteFailed};

/// A stream that is written to. Where it is dropped the stream is shut in both directions, so that
/// whoever reads it comes to its end.
struct Outlet {
    stream: TcpStream,
    faults: u64,
}

impl Drop for Outlet {
    fn drop(self) {
        let Outlet { stream, faults: _ } = self;
        let _ = stream.shutdown(Shutdown::Both);
    }
}

impl Sink for Outlet {
    ghost use Rattle.std.specs.Prelude.{None};

    ghost taken = { λ s. None };

    ghost faults = { λ s. s.faults };

    fn write(&mut self, bytes: &[u8]) -> Result<usize, WriteFailed> {
        let written = self.stream.write(bytes).unwrap_or(0);
        if written == 0 && !bytes.is_empty() {
            self.faults = self.faults.saturating_add(1);
            return Err(WriteFailed);
        }
        Ok(written)
    }
}

/// What goes out on a link, which its source and its sink share: a block that gathers before the
/// stream, until a write of it failed or the sink was dropped, and whether the source has handed
/// on all bytes that it read.
#[derive(Drop)]
pub(crate) struct Outgoing {
    block: Option<BlockSink<Outlet>>,
    is_read_out: bool,
}

/// What goes out on a link, for its source or its sink.
pub(crate) type SharedOutgoing = Arc<Mutex<Outgoing>, Global>;

impl Outgoing {
    /// Nothing was written to a stream and nothing read; twice: for the source and for the sink.
    pub(crate) fn pair(
        alloc: Global,
        stream: TcpStream,
    ) -> Result<(SharedOutgoing, SharedOutgoing), NoMemory> {
        let block = BlockSink::make(alloc, Outlet { stream, faults: 0 })?;
        let outgoing = Outgoing {
            block: Some(block),
            is_read_out: true,
        };
        let Ok(outgoing) = Arc::new(alloc, Mutex::new(outgoing)) else {
            return Err(NoMemory);
        };
        let Ok(other) = Arc::try_clone(&outgoing) else {
            return Err(NoMemory);
        };
        Ok((outgoing, other))
    }

    /// Gathers some bytes, at least one where there is one, and writes them out where no read is to
    /// come that would do it.
    pub(crate) fn take(&mut self, bytes: &[u8]) -> Result<usize, WriteFailed>
        ensures bound { WritesAtMost result bytes.now }
        ensures some { IfOk result (λ n. 0 < length bytes.now → 0 < n) }
    {
        let count = self.gather(bytes)?;
        if self.is_read_out {
            self.write_out()?;
        }
        Ok(count)
    }

    /// Gathers some bytes, at least one where there is one. None where a write failed before.
    fn gather(&mut self, bytes: &[u8]) -> Result<usize, WriteFailed>
        ensures bound { WritesAtMost result bytes.now }
        ensures some { IfOk result (λ n. 0 < length bytes.now → 0 < n) }
    {
        let Some(block) = &mut self.block else {
            return Err(WriteFailed);
        };
        let taken = block.write(bytes);
        if taken.is_err() {
            self.block = None;
        }
        taken
    }

    /// Writes out what is gathered. A failure is told once; the stream is shut then.
    fn write_out(&mut self) -> Result<(), WriteFailed> {
        let Some(block) = &mut self.block else {
            return Ok(());
        };
        let written = block.hand_on();
        if written.is_err() {
            self.block = None;
        }
        written
    }

    /// The source is about to wait for bytes: what is gathered is written out, and what comes next
    /// is written at once.
    pub(crate) fn before_read(&mut self) -> Result<(), WriteFailed> {
        self.is_read_out = true;
        self.write_out()
    }

    /// The source has bytes to hand on; it will come back for others, or its link ends.
    pub(crate) fn after_read(&mut self) {
        self.is_read_out = false;
    }

    /// The sink is dropped: what is gathered is written out, and the stream is shut.
    pub(crate) fn finish(&mut self) {
        let _ = self.write_out();
        self.block = None;
    }
}
