//! The device over its disk and its lenders: one event of the machine after another.
#![tactic(auto)]

ghost use Rattle.swap_world.specs.Laws.{AgreesAfterEach, AlwaysAgrees, AlwaysLegal, EachCallOnce, EntriesAreSeen, HistoriesGoOn, HoldsAfterEach, NothingChanges, StepsAreNext};
ghost use Rattle.swap_world.specs.Since.{AgainHasCause, GivesWhatWasHanded};
ghost use Rattle.swap_world.specs.Rows.{PageOutWithoutRoomFailsWhereAWriteFailed, ReadOvertakenByAPageOutAlreadyOnTheDisk, FailedDiskReadFailsThePageIn, FailedDiskReadWithANewerPageOut, AnotherCallersReadFails, PageInFromALender, LinksAreCutAndMadeAnew, LossOfTheReplySendsTheReadToTheDisk, TwoLendersAreAsked, TwoLendersAreAskedAndTheFreerLends, RevocationWithReadAndWriteInFlight};

mod events;
mod rounds;
mod world;

use swap_disk::DiskPort;
use swap_table::ports_promise;
use swap_wire::Fabric;
pub use world::World;

/// Whatever the events and whatever fails, the history over the disk and the lenders in memory is
/// one of an array of pages that starts as zeros.
pub fn always_legal()
    ensures { AlwaysLegal }
{}

/// Each caller's calls are answered once, in its order.
pub fn each_call_once()
    ensures { EachCallOnce }
{}

/// Over any disk that was blank and any fabric, after every list of events: the history is ordered,
/// each page-in from zeros or the queue is faithful, each that the disk gave too where it tells its
/// blocks, each that a lender gave as far as the fabric's answers tell, each caller's calls were
/// answered once, in its order, and the history holds exactly the entries that were seen. Each
/// failure has its cause: its two counts are the failed writes, or reads, before its last start and
/// before the step that ended it, the first below the second; and a page-in fails by its own read
/// alone, with no page-out of its page accepted since that read began.
pub fn over_any_ports<D: DiskPort, F: Fabric>()
    ensures { HoldsAfterEach D.DiskPort F.Fabric }
{
    ports_promise::<D, F>();
}

/// Over any disk that was blank and any fabric, after every list of events, the device, its disk
/// and its links agree: on the newest copies, on the requests under way and what their answers
/// bring, and on the pages that the lenders keep of the mapped slabs, each page with a set bit and
/// its content among them.
pub fn agrees_over_any_ports<D: DiskPort, F: Fabric>()
    ensures { AgreesAfterEach D.DiskPort F.Fabric }
{
    ports_promise::<D, F>();
}

/// Over any disk and any fabric, after every list of events: a page-in that a read answered gives
/// exactly the bytes that
/// `take` handed over for its caller's last started read.
pub fn reads_give_what_was_handed<D: DiskPort, F: Fabric>()
    ensures { GivesWhatWasHanded D.moves F.moves }
{}

/// Over any disk and any fabric, after every list of events: a call that reads anew has its cause.
/// Since its last start a page-out of its page was accepted, or the link ended through which it
/// waited.
pub fn again_has_cause<D: DiskPort, F: Fabric>()
    ensures { AgainHasCause D.DiskPort F.Fabric }
{}

/// So they do over the disk and the lenders in memory.
pub fn always_agrees()
    ensures { AlwaysAgrees }
{}

/// Over the disk and the lenders in memory the history holds exactly the entries that were seen, in
/// order, and each failure has its cause: its two counts, and for a page-in its own failed read.
pub fn entries_are_seen()
    ensures { EntriesAreSeen }
{}

/// Over the disk and the lenders in memory the world is a function of the events.
pub fn steps_are_next()
    ensures { StepsAreNext }
{}

/// Over the disk and the lenders in memory an event without an effect leaves the whole world as it
/// was: the device, the disk and the lenders.
pub fn nothing_changes()
    ensures { NothingChanges }
{}

/// A history goes on with every event over the disk and the lenders in memory.
pub fn histories_go_on()
    ensures { HistoriesGoOn }
{}

/// Rows of events, and what is seen of each.
pub fn rows()
    ensures without_room { PageOutWithoutRoomFailsWhereAWriteFailed }
    ensures overtaken { ReadOvertakenByAPageOutAlreadyOnTheDisk }
    ensures read_fails { FailedDiskReadFailsThePageIn }
    ensures newer { FailedDiskReadWithANewerPageOut }
    ensures anothers { AnotherCallersReadFails }
    ensures from_lender { PageInFromALender }
    ensures anew { LinksAreCutAndMadeAnew }
    ensures reply_lost { LossOfTheReplySendsTheReadToTheDisk }
    ensures asked { TwoLendersAreAsked }
    ensures freer { TwoLendersAreAskedAndTheFreerLends }
    ensures revoked { RevocationWithReadAndWriteInFlight }
{}
