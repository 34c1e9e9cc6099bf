ghost use Rattle.std.specs.Prelude.{◌≡◌, ◌+◌, ◌≤◌, length, flat_map, OnOk, OnErr, ◌++◌};
ghost use Rattle.std.specs.Io.KnownBytes.{Appends};
ghost use Rattle.swap_io.specs.Causes.{HasCause, AppendsFront};
ghost use Rattle.swap_world.specs.World.{reach, history};
ghost use Rattle.swap_script.specs.Transcript.{lender_header, end_line};
ghost use Rattle.swap_roundtrip.specs.Numbers.{NumbersFit};
ghost use Rattle.swap_run.specs.Printing.{world_in, headers, lines_from, HasRoomFor};

use swap_base::{Geometry, LenderSpec};
use swap_disk::MemDisk;
use swap_io::{LineBuf, Sink, WriteFailed, write_line};
use swap_link::Harbor;
use swap_roundtrip::line_fits;
use swap_script::{Walk, end_line, event_line, header_line, lender_line, lines_stay};
use swap_world::{World, histories_go_on, steps_are_next};

// Writes the line of each lender.
fn print_lenders<K: Sink>(
    lenders: &[LenderSpec],
    line: &mut LineBuf,
    out: &mut K,
) -> Result<(), WriteFailed>
    ensures ok { OnOk result
        (Appends (K.taken out.old) (K.taken out.new) (flat_map lender_header lenders.now)) }
    ensures err { OnErr result
        (AppendsFront (K.taken out.old) (K.taken out.new) (flat_map lender_header lenders.now)) }
    ensures cause { HasCause (K.faults out.old) (K.faults out.new) result }
{
    'lenders: for lender in lenders {
        lender_line(lender, line);
        write_line(out, line.bytes())?;
    }
    Ok(())
}

/// Writes the header lines: the geometry, and the lenders.
pub fn print_headers<K: Sink>(
    geometry: &Geometry,
    lenders: &[LenderSpec],
    line: &mut LineBuf,
    out: &mut K,
) -> Result<(), WriteFailed>
    ensures ok { OnOk result
        (Appends (K.taken out.old) (K.taken out.new) (headers geometry.now lenders.now)) }
    ensures err { OnErr result
        (AppendsFront (K.taken out.old) (K.taken out.new) (headers geometry.now lenders.now)) }
    ensures cause { HasCause (K.faults out.old) (K.faults out.new) result }
{
    header_line(geometry, line);
    write_line(out, line.bytes())?;
    print_lenders(lenders, line, out)
}

// Makes the events that are left, and writes a line of each.
fn print_events<K: Sink>(
    world: &mut World<MemDisk, Harbor>,
    walk: &mut Walk<'_>,
    page: &mut [u8],
    line: &mut LineBuf,
    out: &mut K,
) -> Result<(), WriteFailed>
    requires room { HasRoomFor world.old walk.old }
    requires page { length page.old ≡ walk.old.sizes.page_bytes }
    ensures world { OnOk result (world_in world.new ≡ reach (world_in world.old) walk.old.inputs) }
    ensures fits { OnOk result (NumbersFit (world_in world.old) walk.old.inputs) }
    ensures ok { OnOk result
        (Appends (K.taken out.old) (K.taken out.new)
        (lines_from (world_in world.old) walk.old.inputs)) }
    ensures err { OnErr result
        (AppendsFront (K.taken out.old) (K.taken out.new)
        (lines_from (world_in world.old) walk.old.inputs)) }
    ensures cause { HasCause (K.faults out.old) (K.faults out.new) result }
{
    steps_are_next();
    lines_stay();
    histories_go_on();
    'events: while let Some(event) = walk.next(page) {
        let seen = world.step(&event, page);
        let history = world.device().history();
        line_fits(event, seen, history);
        event_line(&event, &seen, history, line);
        write_line(out, line.bytes())?;
    }
    Ok(())
}

/// Runs the events of a walk from a world that nothing happened in, and writes their transcript.
pub(crate) fn print_run<K: Sink>(
    world: &mut World<MemDisk, Harbor>,
    lenders: &[LenderSpec],
    walk: &mut Walk<'_>,
    page: &mut [u8],
    line: &mut LineBuf,
    out: &mut K,
) -> Result<(), WriteFailed>
    requires room { HasRoomFor world.old walk.old }
    requires lenders { lenders.now ≡ walk.old.lenders }
    requires page { length page.old ≡ walk.old.sizes.page_bytes }
    ensures world { OnOk result (world_in world.new ≡ reach (world_in world.old) walk.old.inputs) }
    ensures fits { OnOk result (NumbersFit (world_in world.old) walk.old.inputs) }
    ensures ok { OnOk result
        (Appends (K.taken out.old) (K.taken out.new)
        (headers walk.old.sizes walk.old.lenders
        ++ lines_from (world_in world.old) walk.old.inputs
        ++ end_line (length (history (reach (world_in world.old) walk.old.inputs))))) }
    ensures err { OnErr result
        (AppendsFront (K.taken out.old) (K.taken out.new)
        (headers walk.old.sizes walk.old.lenders
        ++ lines_from (world_in world.old) walk.old.inputs
        ++ end_line (length (history (reach (world_in world.old) walk.old.inputs))))) }
    ensures cause { HasCause (K.faults out.old) (K.faults out.new) result }
{
    let geometry = world.device().geometry();
    print_headers(&geometry, lenders, line, out)?;
    print_events(world, walk, page, line, out)?;
    end_line(world.device().history().len(), line);
    write_line(out, line.bytes())
}
