ghost use Rattle.std.specs.Prelude.{◌≡◌, ℕ, ◌<◌, length};
ghost use Rattle.swap_slabs.specs.Slabs.{is_local, is_borrowing, is_mapped, flying_of, asks, is_waiting, lender_of};

use std::process::Abort;
use std::test::Fail;
use swap_base::{Geometry, Lease, Lender, MOST_LENDERS, MOST_WINDOW, Slab};
use swap_slabs::{Chosen, Pair, Reply, SlabState, Slabs};

fn is_local(state: SlabState) -> bool
    ensures { result ≡ is_local state }
{
    matches!(state, SlabState::Local)
}

fn is_borrowing(state: SlabState) -> bool
    ensures { result ≡ is_borrowing state }
{
    matches!(state, SlabState::Borrowing { .. })
}

fn is_mapped(state: SlabState) -> bool
    ensures { result ≡ is_mapped state }
{
    matches!(state, SlabState::Mapped { .. })
}

fn flying_of(state: SlabState) -> u32
    ensures { result ≡ flying_of state }
{
    match state {
        SlabState::Mapped { flying, .. } | SlabState::Draining { flying, .. } => flying,
        _ => 0,
    }
}

fn is_waiting(reply: Reply) -> bool
    ensures { result ≡ is_waiting reply }
{
    matches!(reply, Reply::Waiting)
}

fn asks(state: SlabState, lender: Lender) -> bool
    ensures { result ≡ asks lender state }
{
    match state {
        SlabState::Asking(pair) => {
            (pair.first.0 == lender.0 && is_waiting(pair.one))
                || (pair.second.is_some_and(|second| second.0 == lender.0) && is_waiting(pair.two))
        }
        _ => false,
    }
}

/// A call of the table, of lenders and leases by their numbers.
#[derive(Clone, Copy)]
enum Move {
    Ask(u32),
    AskTwo(u32, u32),
    AskSecond(u32, u32),
    Answer(u32, Reply),
    Borrow(u32),
    Lent(u32),
    Refused,
    Begin,
    Settled,
    Evict,
    Lost(u32),
}

/// What a call answers.
#[derive(Clone, Copy, Debug, PartialEq, Eq)]
enum Told {
    Nothing,
    Waits,
    Choice(Chosen),
    Lease(u32),
}

fn leased(lease: Option<Lease>) -> Told {
    match lease {
        Some(lease) => Told::Lease(lease.0),
        None => Told::Nothing,
    }
}

fn ask(rt: &impl Abort, slabs: &mut Slabs, slab: Slab, first: u32, second: Option<Lender>)
    requires { slab.0 < length slabs.old }
    ensures { length slabs.new ≡ length slabs.old }
{
    assert!(rt; is_local(slabs.state(slab)));
    assert!(rt; first < MOST_LENDERS);
    if let Some(lender) = second {
        assert!(rt; lender.0 != first && lender.0 < MOST_LENDERS);
        slabs.ask(slab, Lender(first), Some(lender));
    } else {
        slabs.ask(slab, Lender(first), None);
    }
}

fn ask_second(rt: &impl Abort, slabs: &mut Slabs, slab: Slab, first: u32, second: u32)
    requires { slab.0 < length slabs.old }
    ensures { length slabs.new ≡ length slabs.old }
{
    let alone = SlabState::Asking(Pair {
        first: Lender(first),
        second: None,
        one: Reply::Waiting,
        two: Reply::Gone,
    });
    assert!(rt; slabs.state(slab) == alone);
    assert!(rt; second != first && second < MOST_LENDERS);
    slabs.ask_second(slab, Lender(first), Lender(second));
}

fn answer(rt: &impl Abort, slabs: &mut Slabs, slab: Slab, lender: u32, reply: Reply) -> Told
    requires { slab.0 < length slabs.old }
    ensures { length slabs.new ≡ length slabs.old }
{
    assert!(rt; asks(slabs.state(slab), Lender(lender)));
    assert!(rt; !is_waiting(reply));
    match slabs.answer(slab, Lender(lender), reply) {
        Some(choice) => Told::Choice(choice),
        None => Told::Waits,
    }
}

fn borrow(rt: &impl Abort, slabs: &mut Slabs, slab: Slab, lender: u32)
    requires { slab.0 < length slabs.old }
    ensures { length slabs.new ≡ length slabs.old }
{
    assert!(rt; is_local(slabs.state(slab)));
    assert!(rt; lender < MOST_LENDERS);
    slabs.borrow_from(slab, Lender(lender));
    assert!(rt; slabs.holds(Lender(lender)));
}

fn lent(rt: &impl Abort, slabs: &mut Slabs, slab: Slab, lease: u32)
    requires { slab.0 < length slabs.old }
    ensures { length slabs.new ≡ length slabs.old }
{
    let SlabState::Borrowing { lender } = slabs.state(slab) else {
        panic!(rt; "slab {} doesn't borrow", slab.0)
    };
    assert!(rt; lender.0 < MOST_LENDERS);
    assert!(rt; slabs.by_lease(lender, Lease(lease)).is_none());
    slabs.lent(slab, Lease(lease));
    assert!(rt;
        slabs
            .by_lease(lender, Lease(lease))
            .is_some_and(|found| found.0 == slab.0)
    );
}

fn begin(rt: &impl Abort, slabs: &mut Slabs, slab: Slab)
    requires { slab.0 < length slabs.old }
    ensures { length slabs.new ≡ length slabs.old }
{
    let state = slabs.state(slab);
    assert!(rt; is_mapped(state));
    assert!(rt; flying_of(state) < MOST_WINDOW);
    slabs.begin(slab);
}

fn make(rt: &impl Abort, slabs: &mut Slabs, slab: Slab, step: Move) -> Told
    requires { slab.0 < length slabs.old }
    ensures { length slabs.new ≡ length slabs.old }
{
    match step {
        Move::Ask(first) => ask(rt, slabs, slab, first, None),
        Move::AskTwo(first, second) => ask(rt, slabs, slab, first, Some(Lender(second))),
        Move::AskSecond(first, second) => ask_second(rt, slabs, slab, first, second),
        Move::Answer(lender, reply) => return answer(rt, slabs, slab, lender, reply),
        Move::Borrow(lender) => borrow(rt, slabs, slab, lender),
        Move::Lent(lease) => lent(rt, slabs, slab, lease),
        Move::Refused => {
            assert!(rt; is_borrowing(slabs.state(slab)));
            slabs.refused(slab);
        }
        Move::Begin => begin(rt, slabs, slab),
        Move::Settled => {
            assert!(rt; 0 < flying_of(slabs.state(slab)));
            return leased(slabs.settled(slab));
        }
        Move::Evict => {
            assert!(rt; is_mapped(slabs.state(slab)));
            return leased(slabs.evict(slab));
        }
        Move::Lost(lender) => {
            assert!(rt; lender < MOST_LENDERS);
            if let Some(slab) = slabs.one_at(Lender(lender)) {
                slabs.send_home(slab);
            }
            assert!(rt; !slabs.holds(Lender(lender)));
        }
    }
    Told::Nothing
}

fn asking(first: u32, second: Option<u32>, one: Reply, two: Reply) -> SlabState {
    SlabState::Asking(Pair {
        first: Lender(first),
        second: second.map(Lender),
        one,
        two,
    })
}

fn mapped(lender: u32, lease: u32, flying: u32) -> SlabState {
    SlabState::Mapped {
        lender: Lender(lender),
        lease: Lease(lease),
        flying,
    }
}

fn draining(lender: u32, lease: u32, flying: u32) -> SlabState {
    SlabState::Draining {
        lender: Lender(lender),
        lease: Lease(lease),
        flying,
    }
}

// Makes each move on the first of four slabs, and compares what it tells and the state after it.
fn run(rt: &impl Abort, slabs: &mut Slabs, moves: &[(Move, Told, SlabState)])
    requires { 0 < length slabs.old }
    ensures { length slabs.new ≡ length slabs.old }
{
    for (i, row) in moves.iter().enumerate() {
        let told = make(rt, slabs, Slab(0), row.0);
        assert!(rt; told == row.1, "what move {i} tells");
        assert!(rt; slabs.state(Slab(0)) == row.2, "the state after move {i}");
    }
}

#[test]
fn asked_lenders_are_chosen_by_their_free_slots(rt: HostRuntime) -> Result<(), Fail> {
    let sizes = Geometry::checked(8, 4, 4, 2, 2, 4, 20).map_err(|_| "sizes")?;
    let mut slabs = Slabs::make(rt.alloc(), &sizes).map_err(|_| "memory")?;
    let first = Told::Choice(Chosen::Lender(Lender(1)));
    let second = Told::Choice(Chosen::Lender(Lender(2)));
    let nobody = Told::Choice(Chosen::Nobody);
    let two = asking(1, Some(2), Reply::Waiting, Reply::Waiting);
    assert!(rt; sizes.slabs() == 4);
    run(
        &rt,
        &mut slabs,
        &[
            (
                Move::Ask(2),
                Told::Nothing,
                asking(2, None, Reply::Waiting, Reply::Gone),
            ),
            (Move::Answer(2, Reply::Free(3)), second, SlabState::Local),
            (
                Move::Ask(1),
                Told::Nothing,
                asking(1, None, Reply::Waiting, Reply::Gone),
            ),
            (Move::AskSecond(1, 2), Told::Nothing, two),
            (
                Move::Answer(2, Reply::Free(5)),
                Told::Waits,
                asking(1, Some(2), Reply::Waiting, Reply::Free(5)),
            ),
            (Move::Answer(1, Reply::Free(5)), first, SlabState::Local),
            (Move::AskTwo(1, 2), Told::Nothing, two),
            (
                Move::Answer(1, Reply::Free(4)),
                Told::Waits,
                asking(1, Some(2), Reply::Free(4), Reply::Waiting),
            ),
            (Move::Answer(2, Reply::Free(5)), second, SlabState::Local),
            (Move::AskTwo(1, 2), Told::Nothing, two),
            (
                Move::Answer(1, Reply::Gone),
                Told::Waits,
                asking(1, Some(2), Reply::Gone, Reply::Waiting),
            ),
            (
                Move::Lost(1),
                Told::Nothing,
                asking(1, Some(2), Reply::Gone, Reply::Waiting),
            ),
            (Move::Answer(2, Reply::Free(0)), nobody, SlabState::Local),
        ],
    );
    Ok(())
}

#[test]
fn slabs_are_lent_drained_and_lost(rt: HostRuntime) -> Result<(), Fail> {
    let sizes = Geometry::checked(8, 4, 4, 2, 2, 4, 20).map_err(|_| "sizes")?;
    let mut slabs = Slabs::make(rt.alloc(), &sizes).map_err(|_| "memory")?;
    let borrowing = SlabState::Borrowing { lender: Lender(1) };
    assert!(rt; sizes.slabs() == 4);
    run(
        &rt,
        &mut slabs,
        &[
            (Move::Borrow(1), Told::Nothing, borrowing),
            (Move::Refused, Told::Nothing, SlabState::Local),
            (Move::Borrow(1), Told::Nothing, borrowing),
            (Move::Lent(7), Told::Nothing, mapped(1, 7, 0)),
            (Move::Begin, Told::Nothing, mapped(1, 7, 1)),
            (Move::Settled, Told::Nothing, mapped(1, 7, 0)),
            (Move::Evict, Told::Lease(7), SlabState::Local),
            (Move::Borrow(1), Told::Nothing, borrowing),
            (Move::Lent(7), Told::Nothing, mapped(1, 7, 0)),
            (Move::Begin, Told::Nothing, mapped(1, 7, 1)),
            (Move::Begin, Told::Nothing, mapped(1, 7, 2)),
            (Move::Evict, Told::Nothing, draining(1, 7, 2)),
            (Move::Settled, Told::Nothing, draining(1, 7, 1)),
            (Move::Settled, Told::Lease(7), SlabState::Local),
            (Move::Borrow(1), Told::Nothing, borrowing),
            (Move::Lost(1), Told::Nothing, SlabState::Local),
            (Move::Borrow(1), Told::Nothing, borrowing),
            (Move::Lent(9), Told::Nothing, mapped(1, 9, 0)),
            (Move::Lost(2), Told::Nothing, mapped(1, 9, 0)),
            (Move::Begin, Told::Nothing, mapped(1, 9, 1)),
            (Move::Lost(1), Told::Nothing, SlabState::Local),
            (Move::Borrow(1), Told::Nothing, borrowing),
            (Move::Lent(9), Told::Nothing, mapped(1, 9, 0)),
            (Move::Begin, Told::Nothing, mapped(1, 9, 1)),
            (Move::Evict, Told::Nothing, draining(1, 9, 1)),
            (Move::Lost(1), Told::Nothing, SlabState::Local),
        ],
    );
    assert_eq!(rt; slabs.mapped(), 0);
    Ok(())
}

#[test]
fn sixty_four_requests_fly(rt: HostRuntime) -> Result<(), Fail> {
    let sizes = Geometry::checked(8, 4, 4, 2, 2, 4, 20).map_err(|_| "sizes")?;
    let mut slabs = Slabs::make(rt.alloc(), &sizes).map_err(|_| "memory")?;
    assert!(rt; sizes.slabs() == 4);
    borrow(&rt, &mut slabs, Slab(3), 0);
    lent(&rt, &mut slabs, Slab(3), 5);
    for _ in 0..MOST_WINDOW {
        begin(&rt, &mut slabs, Slab(3));
    }
    assert!(rt; slabs.state(Slab(3)) == mapped(0, 5, 64));
    assert_eq!(rt; slabs.mapped(), 1);
    Ok(())
}
