ghost use Rattle.std.specs.Prelude.{◌≡◌, ◌≤◌, length, map, All, true, [], IfOk, OnErr, Err};
ghost use Rattle.swap_io.specs.Words.{number as number_of};
ghost use Rattle.swap_record.specs.History.{History};
ghost use Rattle.swap_script.specs.Reading.{script as script_of, IsWithinLimits};
ghost use Rattle.swap_world.specs.World.{start};
ghost use Rattle.swap_run.specs.Clause.{Ends, EndsWith, MayRun, stream, command_of, drill_command, drill_of, text_command, TextEnds, LabEnds, ScriptEnds, status_of};
ghost use Rattle.swap_run.specs.Blocks.{is_whole, HandsOn, IsFresh};
ghost use Rattle.swap_run.specs.Run.{has_failed, is_failed};
ghost use Rattle.swap_run.specs.Printing.{world_in, HasRoomFor};

use crate::check::{run_check, run_check_in_blocks};
use crate::drilling::{run_drill, run_drill_in_blocks};
use crate::print::print_run;
use crate::tell::tell;
use crate::{Command, Ending, scripts_keep_the_headline};
use std::alloc::Global;
use swap_base::{EntryNo, LenderSpec, NoMemory};
use swap_disk::MemDisk;
use swap_drill::MOST_CALLS;
use swap_io::{BlockSink, LineBuf, Sink, Source, WholeRefused, number, read_whole};
use swap_link::Harbor;
use swap_record::{Op, Record};
use swap_roundtrip::scripts_are_read_back;
use swap_script::{Script, TEXT_LIMIT, read_script};
use swap_world::World;

// Whether an entry is of a call that failed.
fn is_failed(op: Op) -> bool
    ensures { result ≡ is_failed op }
{
    match op {
        Op::PageOut | Op::PageIn { .. } => false,
        Op::Failed { .. } => true,
    }
}

/// Whether some call of a history failed.
pub fn has_failed(history: &Record) -> bool
    ensures { result ≡ has_failed history.now.history }
{
    let len = history.len();
    'entries: for i in 0..len {
        if is_failed(history.entry(EntryNo(len - 1 - i)).op) {
            return true;
        }
    }
    false
}

/// The lenders of a script.
pub fn lenders_of(alloc: Global, script: &Script<'_>) -> Result<Vec<LenderSpec>, NoMemory>
    ensures lenders { IfOk result (λ lenders. lenders.items ≡ script.now.lenders) }
    ensures limits { IfOk result (λ lenders. All IsWithinLimits lenders.items) }
{
    let mut lenders = Vec::new(alloc);
    'lenders: for i in 0..script.lenders() {
        if lenders.push(script.lender(i)).is_err() {
            return Err(NoMemory);
        }
    }
    Ok(lenders)
}

/// A world for a script's events, with room for all that they need.
fn world_for(
    alloc: Global,
    script: &Script<'_>,
    lenders: &[LenderSpec],
) -> Result<World<MemDisk, Harbor>, NoMemory>
    requires lenders { lenders.now ≡ script.now.lenders }
    requires limits { All IsWithinLimits lenders.now }
    ensures world { IfOk result (λ w. world_in w ≡ start script.now.sizes script.now.lenders) }
    ensures room { IfOk result (λ w. HasRoomFor w script.now) }
{
    let geometry = script.geometry();
    let disk = MemDisk::make(alloc, &geometry)?;
    let harbor = Harbor::make(alloc, &geometry, lenders)?;
    let mut world = World::make(alloc, geometry, script.lenders(), disk, harbor)?;
    if world
        .reserve(script.calls(), script.events() as usize)
        .is_err()
    {
        return Err(NoMemory);
    }
    Ok(world)
}

/// Runs a script's events, and writes their transcript.
fn run_events<K: Sink>(alloc: Global, script: &Script<'_>, out: &mut K) -> Ending
    ensures ends { LabEnds script.now
        (stream (K.taken out.old) (K.taken out.new) (K.faults out.old) (K.faults out.new))
        result }
    ensures later { K.faults out.old ≤ K.faults out.new }
{
    let Ok(mut line) = LineBuf::make(alloc) else {
        return Ending::NoMemory;
    };
    let page_bytes = script.geometry().page_bytes() as usize;
    let Ok(mut page) = vec![in alloc; 0u8; page_bytes] else {
        return Ending::NoMemory;
    };
    let Ok(lenders) = lenders_of(alloc, script) else {
        return Ending::NoMemory;
    };
    let Ok(mut world) = world_for(alloc, script, &lenders) else {
        return Ending::NoMemory;
    };
    let mut walk = script.walk();
    if print_run(&mut world, &lenders, &mut walk, &mut page, &mut line, out).is_err() {
        return Ending::WriteFailed;
    }
    if has_failed(world.device().history()) {
        Ending::Faulted
    } else {
        Ending::Done
    }
}

/// Runs a text as a script.
fn run_text<K: Sink>(alloc: Global, text: &[u8], out: &mut K) -> Ending
    requires { length text.now ≤ TEXT_LIMIT }
    ensures ends { TextEnds (script_of text.now)
        (stream (K.taken out.old) (K.taken out.new) (K.faults out.old) (K.faults out.new))
        result }
    ensures later { K.faults out.old ≤ K.faults out.new }
{
    match read_script(text) {
        Err(refused) => Ending::Refused(refused),
        Ok(script) => run_events(alloc, &script, out),
    }
}

/// Reads a script, and runs it.
fn run_script<S: Source, K: Sink>(alloc: Global, source: &mut S, out: &mut K) -> Ending
    ensures ends { ScriptEnds
        (stream (S.left source.old) (S.left source.new) (S.faults source.old)
        (S.faults source.new))
        (stream (K.taken out.old) (K.taken out.new) (K.faults out.old) (K.faults out.new))
        result }
    ensures later { K.faults out.old ≤ K.faults out.new }
{
    scripts_keep_the_headline();
    scripts_are_read_back();
    match read_whole(alloc, source, TEXT_LIMIT) {
        Ok(text) => run_text(alloc, &text, out),
        Err(WholeRefused::ReadFailed) => Ending::ReadFailed,
        Err(WholeRefused::TooLong) => Ending::TooLong,
        Err(WholeRefused::NoMemory) => Ending::NoMemory,
    }
}

// The drill of these two words, if they are numbers and it may have so many calls.
fn drill_of(number_word: &str, calls_word: &str) -> Option<Command>
    ensures { result ≡ drill_of (number_of number_word.now) (number_of calls_word.now) }
{
    let of_drill = number(number_word.as_bytes())?;
    let calls = number(calls_word.as_bytes())?;
    if calls > u64::from(MOST_CALLS) {
        return None;
    }
    Some(Command::RunDrill {
        number: of_drill,
        calls: calls as u32,
    })
}

// What one word alone asks for.
fn text_command(word: &str) -> Option<Command>
    ensures { result ≡ text_command word.now }
{
    match word {
        "script" => Some(Command::RunScript),
        "check" => Some(Command::CheckTranscript),
        _ => None,
    }
}

// What three words ask for.
fn drill_command(word: &str, number: &str, calls: &str) -> Option<Command>
    ensures { result ≡ drill_command word.now number.now calls.now }
{
    if word == "drill" {
        drill_of(number, calls)
    } else {
        None
    }
}

// What the words of the program ask for, if they are a form of words.
fn command_of(words: &[&str]) -> Option<Command>
    ensures { result ≡ command_of (map (λ word. word.now) words.now) }
{
    match words {
        [word] => text_command(word),
        [word, number, calls] => drill_command(word, number, calls),
        _ => None,
    }
}

/// The status that an ending is told by.
pub fn status_of(ending: Ending) -> u8
    ensures { result ≡ status_of ending }
{
    match ending {
        Ending::Done => 0,
        Ending::Faulted => 1,
        Ending::Usage => 2,
        Ending::ReadFailed => 3,
        Ending::WriteFailed => 4,
        Ending::Refused(_) => 5,
        Ending::NoMemory => 6,
        Ending::NotLegal => 7,
        Ending::HostFailed => 8,
        Ending::TooLong => 9,
    }
}

// Does what a command asks for.
fn run_command<S: Source, K: Sink>(
    alloc: Global,
    command: Option<Command>,
    source: &mut S,
    out: &mut K,
) -> Ending
    requires { MayRun command }
    ensures { Ends command
        (stream (S.left source.old) (S.left source.new) (S.faults source.old)
        (S.faults source.new))
        (stream (K.taken out.old) (K.taken out.new) (K.faults out.old) (K.faults out.new))
        result }
{
    match command {
        None => Ending::Usage,
        Some(Command::RunScript) => run_script(alloc, source, out),
        Some(Command::CheckTranscript) => run_check(alloc, source, out),
        Some(Command::RunDrill { number, calls }) => run_drill(alloc, number, calls, out),
    }
}

/// The top call for the commands that wait for nobody. `script` reads a script from `source`, runs
/// it, and writes its transcript to `out`, which read back gives the history that its events
/// reached; `check` reads a transcript, judges it, and writes the verdict; `drill` reads nothing,
/// makes the events of a number, and writes the summary. The answer is the program's status; what
/// went wrong is told to `err`, whose own failures change nothing. Each status has its cause in the
/// clause.
pub fn run_lab<S: Source, K: Sink, E: Sink>(
    alloc: Global,
    words: &[&str],
    source: &mut S,
    out: &mut K,
    err: &mut E,
) -> u8
    ensures { EndsWith (command_of (map (λ word. word.now) words.now))
        (stream (S.left source.old) (S.left source.new) (S.faults source.old)
        (S.faults source.new))
        (stream (K.taken out.old) (K.taken out.new) (K.faults out.old) (K.faults out.new))
        (stream (E.taken err.old) (E.taken err.new) (E.faults err.old) (E.faults err.new))
        result }
{
    let ending = run_command(alloc, command_of(words), source, out);
    tell(ending, err);
    status_of(ending)
}

// Whether a transcript, or a verdict, was written whole.
fn is_whole(ending: Ending) -> bool
    ensures { result ≡ is_whole ending }
{
    matches!(ending, Ending::Done | Ending::Faulted | Ending::NotLegal)
}

/// Hands on what is left of what was written. Where another sink took nothing of it there is none.
pub fn hand_on_rest<K: Sink + Drop>(ending: Ending, out: &mut BlockSink<K>) -> Ending
    ensures { HandsOn ending out.old out.new result }
{
    if !is_whole(ending) {
        return ending;
    }
    match out.hand_on() {
        Ok(()) => ending,
        Err(_) => Ending::WriteFailed,
    }
}

// Runs a script before a sink that gathers, and hands on the rest of its transcript.
fn run_script_in_blocks<S: Source, K: Sink + Drop>(
    alloc: Global,
    source: &mut S,
    out: &mut BlockSink<K>,
) -> Ending
    requires held { out.old.held ≡ [] }
    requires fresh { IsFresh out.old.handed }
    ensures { ScriptEnds
        (stream (S.left source.old) (S.left source.new) (S.faults source.old)
        (S.faults source.new))
        (stream out.old.handed out.new.handed out.old.faults out.new.faults) result }
{
    let ran = run_script(alloc, source, out);
    hand_on_rest(ran, out)
}

// Does what a command asks for, before a sink that gathers.
fn run_command_in_blocks<S: Source, K: Sink + Drop>(
    alloc: Global,
    command: Option<Command>,
    source: &mut S,
    out: &mut BlockSink<K>,
) -> Ending
    requires may { MayRun command }
    requires held { out.old.held ≡ [] }
    requires fresh { IsFresh out.old.handed }
    ensures { Ends command
        (stream (S.left source.old) (S.left source.new) (S.faults source.old)
        (S.faults source.new))
        (stream out.old.handed out.new.handed out.old.faults out.new.faults) result }
{
    match command {
        None => Ending::Usage,
        Some(Command::RunScript) => run_script_in_blocks(alloc, source, out),
        Some(Command::CheckTranscript) => run_check_in_blocks(alloc, source, out),
        Some(Command::RunDrill { number, calls }) => {
            run_drill_in_blocks(alloc, number, calls, out)
        }
    }
}

/// The top call before a sink that gathers. `out` takes the transcript in blocks, and its rest is
/// handed on at the end, so the clause speaks of what the sink behind it took: a last write that
/// fails is status 4, as any other.
pub fn run_lab_in_blocks<S: Source, K: Sink + Drop, E: Sink>(
    alloc: Global,
    words: &[&str],
    source: &mut S,
    out: &mut BlockSink<K>,
    err: &mut E,
) -> u8
    requires held { out.old.held ≡ [] }
    requires fresh { IsFresh out.old.handed }
    ensures { EndsWith (command_of (map (λ word. word.now) words.now))
        (stream (S.left source.old) (S.left source.new) (S.faults source.old)
        (S.faults source.new))
        (stream out.old.handed out.new.handed out.old.faults out.new.faults)
        (stream (E.taken err.old) (E.taken err.new) (E.faults err.old) (E.faults err.new))
        result }
{
    let ending = run_command_in_blocks(alloc, command_of(words), source, out);
    tell(ending, err);
    status_of(ending)
}
