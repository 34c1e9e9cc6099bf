// The transcript of a world's log.
ghost use Rattle.std.specs.Prelude.{OnOk, OnErr};
ghost use Rattle.std.specs.Io.KnownBytes.{Appends};
ghost use Rattle.swap_io.specs.Causes.{HasCause, AppendsFront};
ghost use Rattle.swap_show.specs.Printing.{EntriesStand, log_lines, world_transcript};

use swap_base::LenderSpec;
use swap_disk::DiskPort;
use swap_io::{LineBuf, Sink, WriteFailed, write_line};
use swap_run::print_headers;
use swap_script::{end_line, event_line};
use swap_table::ports_promise;
use swap_wire::Fabric;
use swap_world::{World, over_any_ports};

// Each entry that a world's log names stands in its history.
fn entries_stand<D: DiskPort, F: Fabric>(world: &World<D, F>)
    ensures { EntriesStand world.now.log world.now.core.device.history }
{
    world.reached();
    ports_promise::<D, F>();
    over_any_ports::<D, F>();
}

// Writes a line of each logged event.
fn print_log<D: DiskPort, F: Fabric, K: Sink>(
    world: &World<D, F>,
    line: &mut LineBuf,
    out: &mut K,
) -> Result<(), WriteFailed>
    ensures ok { OnOk result (Appends (K.taken out.old) (K.taken out.new) (log_lines world.now)) }
    ensures err { OnErr result
        (AppendsFront (K.taken out.old) (K.taken out.new) (log_lines world.now)) }
    ensures cause { HasCause (K.faults out.old) (K.faults out.new) result }
{
    entries_stand(world);
    let history = world.device().history();
    'lines: for i in 0..world.log_len() {
        let (event, seen) = world.logged(i);
        event_line(&event, &seen, history, line);
        write_line(out, line.bytes())?;
    }
    Ok(())
}

/// Writes the transcript of a world's log: the geometry, the lenders, a line of each logged event,
/// and the number of entries. After a failure a front of it was taken.
pub fn print_world<D: DiskPort, F: Fabric, K: Sink>(
    world: &World<D, F>,
    lenders: &[LenderSpec],
    line: &mut LineBuf,
    out: &mut K,
) -> Result<(), WriteFailed>
    ensures ok { OnOk result
        (Appends (K.taken out.old) (K.taken out.new) (world_transcript lenders.now world.now)) }
    ensures err { OnErr result
        (AppendsFront (K.taken out.old) (K.taken out.new)
        (world_transcript lenders.now world.now)) }
    ensures cause { HasCause (K.faults out.old) (K.faults out.new) result }
{
    let geometry = world.device().geometry();
    print_headers(&geometry, lenders, line, out)?;
    print_log(world, line, out)?;
    end_line(world.device().history().len(), line);
    write_line(out, line.bytes())
}
