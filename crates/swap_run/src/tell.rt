//! What err is told, for which no memory is taken.
ghost use Rattle.std.specs.Prelude.{◌≡◌, ◌≤◌, ◌++◌, length, OnOk, OnErr};
ghost use Rattle.std.specs.Io.KnownBytes.{Appends};
ghost use Rattle.swap_io.specs.Causes.{HasCause, AppendsFront};
ghost use Rattle.swap_script.specs.Transcript.{refusal};
ghost use Rattle.swap_run.specs.Clause.{IsNoRefusal, stream, Told, err_text};

use crate::Ending;
use swap_io::{Sink, WriteFailed, write_line};
use swap_script::{ScriptRefused, why_word};

// What err is told, but of a refused line.
fn text_of(ending: Ending) -> &'static [u8]
    requires { IsNoRefusal ending }
    ensures text { result.now ≡ err_text ending }
    ensures len { length result.now ≤ 100 }
{
    match ending {
        Ending::Usage => b"usage: remswap script|check|drill|play|lend\n",
        Ending::ReadFailed => b"read failed\n",
        Ending::WriteFailed => b"write failed\n",
        Ending::NoMemory => b"no memory\n",
        Ending::HostFailed => b"host failed\n",
        Ending::TooLong => b"input too long\n",
        Ending::Done | Ending::Faulted | Ending::NotLegal | Ending::Refused(_) => b"",
    }
}

fn write_both<K: Sink>(sink: &mut K, first: &[u8], second: &[u8]) -> Result<(), WriteFailed>
    ensures ok { OnOk result
        (Appends (K.taken sink.old) (K.taken sink.new) (first.now ++ second.now)) }
    ensures err { OnErr result
        (AppendsFront (K.taken sink.old) (K.taken sink.new) (first.now ++ second.now)) }
    ensures cause { HasCause (K.faults sink.old) (K.faults sink.new) result }
{
    write_line(sink, first)?;
    write_line(sink, second)
}

// Writes the text of a refused line, piece by piece.
fn tell_refusal<E: Sink>(refused: &ScriptRefused, err: &mut E) -> Result<(), WriteFailed>
    ensures ok { OnOk result (Appends (E.taken err.old) (E.taken err.new) (refusal refused.now)) }
    ensures err { OnErr result
        (AppendsFront (E.taken err.old) (E.taken err.new) (refusal refused.now)) }
    ensures cause { HasCause (E.faults err.old) (E.faults err.new) result }
{
    let mut digits = itoa::Buffer::new();
    write_both(err, b"line ", digits.format(refused.line).as_bytes())?;
    write_both(err, b": ", why_word(refused.why))?;
    write_line(err, b"\n")
}

/// Tells `err` how a call ended; its failures change nothing.
pub fn tell<E: Sink>(ending: Ending, err: &mut E)
    ensures { Told
        (stream (E.taken err.old) (E.taken err.new) (E.faults err.old) (E.faults err.new))
        (err_text ending) }
{
    if let Ending::Refused(refused) = ending {
        let _ = tell_refusal(&refused, err);
    } else {
        let _ = write_line(err, text_of(ending));
    }
}
