ghost use Rattle.std.specs.Prelude.{◌≡◌, ◌≤◌, [], length};
ghost use Rattle.swap_lender.specs.Outbox.{outbox_with, IsReady};
ghost use Rattle.swap_node.specs.Boards.{PutsAll, count_unsettled};
ghost use Rattle.swap_node.specs.NodeView.{Told, Sends};

use crate::lines::Lines;
use swap_io::Sink;
use swap_lender::{LenderCore, Outbox};

/// Puts the messages of an outbox, each on its link.
fn put_all<K: Sink + Drop>(lines: &mut Lines<K>, out: &mut Outbox, page: &mut [u8])
    requires page { length page.old ≡ out.old.page_bytes }
    requires lines { lines.old.page_bytes ≡ out.old.page_bytes }
    ensures puts { PutsAll K.taken K.faults lines.old out.old.parcels lines.new }
    ensures out { out.new ≡ outbox_with out.old [] out.old.evicted }
    ensures unsettled { count_unsettled lines.new ≡ count_unsettled lines.old }
    ensures page_bytes { lines.new.page_bytes ≡ lines.old.page_bytes }
    ensures number { length lines.new.lines ≡ length lines.old.lines }
{
    'putting: while let Some((link, msg)) = out.pop(page) {
        lines.put(link, &msg, page);
    }
}

/// Tells the lender of each link on which a put failed, and puts what it sends then.
fn tell_all<K: Sink + Drop>(
    core: &mut LenderCore,
    lines: &mut Lines<K>,
    out: &mut Outbox,
    page: &mut [u8],
)
    requires out { IsReady out.old core.old.lending }
    requires page { length page.old ≡ core.old.lending.page_bytes }
    requires lines { lines.old.page_bytes ≡ core.old.lending.page_bytes }
    ensures told { Told K.taken K.faults core.old lines.old core.new lines.new }
    ensures failed { lines.new.failed ≡ [] }
    ensures lending { core.new.lending ≡ core.old.lending }
    ensures out { IsReady out.new core.old.lending }
    ensures page_bytes { lines.new.page_bytes ≡ lines.old.page_bytes }
    ensures number { length lines.new.lines ≡ length lines.old.lines }
{
    'telling: while let Some(link) = lines.next_failed() {
        core.gone(link, out);
        put_all(lines, out, page);
    }
}

/// Puts what the lender sent, and tells it of the links on which that failed.
pub(crate) fn send<K: Sink + Drop>(
    core: &mut LenderCore,
    lines: &mut Lines<K>,
    out: &mut Outbox,
    page: &mut [u8],
)
    requires room { core.old.lending.spec.slots ≤ out.old.room }
    requires out { out.old.page_bytes ≡ core.old.lending.page_bytes }
    requires page { length page.old ≡ core.old.lending.page_bytes }
    requires lines { lines.old.page_bytes ≡ core.old.lending.page_bytes }
    ensures sends { Sends K.taken K.faults core.old lines.old out.old.parcels core.new lines.new }
    ensures failed { lines.new.failed ≡ [] }
    ensures lending { core.new.lending ≡ core.old.lending }
    ensures out { IsReady out.new core.old.lending }
    ensures page_bytes { lines.new.page_bytes ≡ lines.old.page_bytes }
    ensures number { length lines.new.lines ≡ length lines.old.lines }
{
    put_all(lines, out, page);
    tell_all(core, lines, out, page);
}
