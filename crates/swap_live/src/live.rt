ghost use Rattle.std.specs.Prelude.{◌≡◌, ◌≤◌, map, true, length, Some, None, IfOk, IfErr, IfSome};
ghost use Rattle.swap_options.specs.Lend.{keeps_limits};
ghost use Rattle.swap_options.specs.Play.{play_asked};
ghost use Rattle.swap_show.specs.Clause.{read_of, written_to};
ghost use Rattle.swap_live.specs.Live.{command_is, command_of, host_dealt, ending_of, KeepsLimits, EndsAsLending, EndsAsPlaying, LiveEnds, LiveEndsWith, LendsComplete, PlaysComplete};
ghost use Rattle.swap_base.specs.declared.TheConstants.{MOST_LENDERS};

use crate::{LendEnd, Offer, lend};
use std::alloc::Global;
use std::sync::Wait;
use std::thread::Threads;
use swap_hosted::{hosted_completes, play_hosted};
use swap_io::{Sink, Source};
use swap_options::{
    LendOptions, OptionsRefused, PlayOptions, limits_let_lend, read_lend, read_play,
};
use swap_player::Gate;
use swap_run::{Ending, status_of, tell_ending};
use swap_show::{play_source, shows_complete};
use swap_sock::Host;

/// What the words of a command that may wait ask for.
#[derive(Debug, Drop)]
pub enum LiveCommand<'w> {
    Lend(LendOptions),
    Play(PlayOptions<'w>),
}

/// What the words ask for.
fn command_of<'w>(alloc: Global, words: &'w [&'w str]) -> Result<LiveCommand<'w>, OptionsRefused>
    ensures command { IfOk result
        (λ command. command_of (map (λ word. word.now) words.now) ≡ Some (command_is command)) }
    ensures limits { IfOk result KeepsLimits }
    ensures usage { IfErr result
        (λ why. why ≡ OptionsRefused.Usage
        → command_of (map (λ word. word.now) words.now) ≡ None) }
{
    let Some((word, options)) = words.split_first() else {
        return Err(OptionsRefused::Usage);
    };
    match *word {
        "lend" => match read_lend(alloc, options) {
            Ok(options) => Ok(LiveCommand::Lend(options)),
            Err(why) => Err(why),
        },
        "play" => match read_play(alloc, options) {
            Ok(options) => Ok(LiveCommand::Play(options)),
            Err(why) => Err(why),
        },
        _ => Err(OptionsRefused::Usage),
    }
}

/// How the program ends where lending does.
fn ending_of(end: LendEnd) -> Ending
    ensures { result ≡ ending_of end }
{
    match end {
        LendEnd::Served => Ending::Done,
        LendEnd::WriteFailed => Ending::WriteFailed,
        LendEnd::HostFailed => Ending::HostFailed,
        LendEnd::NoMemory => Ending::NoMemory,
    }
}

/// Lends by these options.
fn run_lend<R, K, H>(
    rt: R,
    alloc: Global,
    options: &LendOptions,
    out: &mut K,
    host: &mut H,
) -> Ending
where
    R: Threads + Wait + Copy + Send + 'static,
    K: Sink,
    H: Host,
    requires { keeps_limits options.now ≡ true }
    ensures ends { EndsAsLending H.Disk.DiskPort H.Net.Fabric H.Entrance.links
        H.Entrance.Reader.left
        H.Entrance.Reader.faults H.Entrance.Writer.faults options.now
        (written_to K.Sink out.old out.new) (host_dealt H.Host host.old host.new) result }
{
    limits_let_lend();
    let offer = Offer {
        spec: options.spec,
        page_bytes: options.page_bytes,
        pages_per_slab: options.pages_per_slab,
        links: options.links,
        used: options.used,
    };
    ending_of(lend(rt, alloc, host, &options.listen, &offer, out))
}

/// Plays by these options: in memory where they give neither a file for the disk nor addresses of
/// lenders.
fn run_play<R, S, K, H, G>(
    rt: &R,
    alloc: Global,
    options: &PlayOptions<'_>,
    source: &mut S,
    out: &mut K,
    host: &mut H,
    gate: &G,
) -> Ending
where
    R: Threads + Wait + Sync,
    S: Source,
    K: Sink,
    H: Host,
    H::Disk: Send,
    H::Net: Send,
    G: Gate,
    requires lenders { IfSome options.now.tcp (λ lenders. length lenders.items ≤ MOST_LENDERS) }
    ensures ends { EndsAsPlaying H.Disk.DiskPort H.Net.Fabric (play_asked options.now)
        (read_of S.Source source.old source.new) (written_to K.Sink out.old out.new)
        (host_dealt H.Host host.old host.new) result }
{
    match (options.disk, &options.tcp) {
        (None, None) => play_source(rt, alloc, options.number, source, out, gate),
        (None, Some(_)) | (Some(_), _) => {
            play_hosted(rt, alloc, options, source, out, host, gate)
        }
    }
}

/// Does what the words ask for.
fn run_words<R, S, K, H, G>(
    rt: R,
    alloc: Global,
    words: &[&str],
    source: &mut S,
    out: &mut K,
    host: &mut H,
    gate: &G,
) -> Ending
where
    R: Threads + Wait + Copy + Send + Sync + 'static,
    S: Source,
    K: Sink,
    H: Host,
    H::Disk: Send,
    H::Net: Send,
    G: Gate,
    ensures ends { LiveEnds H.Disk.DiskPort H.Net.Fabric H.Entrance.links H.Entrance.Reader.left
        H.Entrance.Reader.faults H.Entrance.Writer.faults
        (command_of (map (λ word. word.now) words.now)) (read_of S.Source source.old source.new)
        (written_to K.Sink out.old out.new) (host_dealt H.Host host.old host.new) result }
{
    match command_of(alloc, words) {
        Ok(LiveCommand::Lend(options)) => run_lend(rt, alloc, &options, out, host),
        Ok(LiveCommand::Play(options)) => {
            run_play(&rt, alloc, &options, source, out, host, gate)
        }
        Err(OptionsRefused::Usage) => Ending::Usage,
        Err(OptionsRefused::NoMemory) => Ending::NoMemory,
    }
}

/// The top call for the commands that may wait; its promise holds if it returns. `lend` reads
/// nothing, opens a door at an address of the host, serves so many links, gives the door back and
/// writes `served N links` to `out`. `play` reads a trace from `source`, plays it, each caller in a
/// thread of its own, and writes the transcript of what was made to `out`.
/// Its disk is the host's at a path where one is given, and its lenders are reached at addresses
/// over the host where they are given; what isn't given is in memory, and the host isn't asked for
/// it. What the host gave goes back to it as the run left it, or is dropped where memory runs out.
/// `gate` lets the pumps pass and hears of the answers. Words of any other form are status 2. The
/// answer is the program's status; what went wrong is told to `err`, whose own failures change
/// nothing. Each status has its cause in the clause.
pub fn run_live<R, S, K, E, H, G>(
    rt: R,
    alloc: Global,
    words: &[&str],
    source: &mut S,
    out: &mut K,
    err: &mut E,
    host: &mut H,
    gate: &G,
) -> u8
where
    R: Threads + Wait + Copy + Send + Sync + 'static,
    S: Source,
    K: Sink,
    E: Sink,
    H: Host,
    H::Disk: Send,
    H::Net: Send,
    G: Gate,
    ensures ends { LiveEndsWith H.Disk.DiskPort H.Net.Fabric H.Entrance.links H.Entrance.Reader.left
        H.Entrance.Reader.faults H.Entrance.Writer.faults
        (command_of (map (λ word. word.now) words.now)) (read_of S.Source source.old source.new)
        (written_to K.Sink out.old out.new) (written_to E.Sink err.old err.new)
        (host_dealt H.Host host.old host.new) result }
{
    let ending = run_words(rt, alloc, words, source, out, host, gate);
    tell_ending(ending, err);
    status_of(ending)
}

/// A call that lends, of which neither `out` nor the host fails, and so no door of its, ends by 0,
/// or by 6 for want of memory. One that plays a trace that is told and within the limit, for as
/// many lenders as addresses are given, of which neither `source`, `out` nor the host fails, ends
/// by 0, by 1 where a call failed, or by 6.
pub fn live_completes<H: Host>()
    ensures lends { LendsComplete H.Disk.DiskPort H.Net.Fabric H.Entrance.links
        H.Entrance.Reader.left
        H.Entrance.Reader.faults H.Entrance.Writer.faults }
    ensures plays { PlaysComplete H.Disk.DiskPort H.Net.Fabric H.Entrance.links
        H.Entrance.Reader.left
        H.Entrance.Reader.faults H.Entrance.Writer.faults }
{
    shows_complete();
    hosted_completes::<H::Disk, H::Net>();
}
