ghost use Rattle.std.specs.Prelude.{◌≡◌, ◌<◌, []};
ghost use Rattle.swap_turn.specs.Turns.{IsEarlier, Extends};
ghost use Rattle.swap_turn.specs.PassView.{IsFreeOf};

use std::alloc::Global;
use std::process::Abort;
use std::sync::Wait;
use std::test::Fail;
use std::thread;
use std::thread::Threads;
use swap_base::{Caller, EntryNo, Page};
use swap_record::{Record, ReserveRefused};
use swap_turn::{Pass, Told, TurnLock};

/// A value that is a record of pages of 8 bytes.
#[derive(Drop)]
struct Log {
    record: Record,
    ghost sized: { record.page_bytes ≡ 8 },
}

impl Told for Log {
    ghost history = { λ log. log.record.history };

    fn told(&self) -> u32 {
        self.record.len()
    }
}

impl Log {
    fn new(alloc: Global) -> Log
        ensures { result.record.history ≡ [] }
    {
        Log {
            record: Record::make(alloc, 8),
        }
    }

    fn page_out(&mut self, caller: u32, page: u32) -> Result<(), ReserveRefused>
        requires { caller < 64 }
        ensures { Extends caller self.old.record.history self.new.record.history }
    {
        self.record.reserve(1)?;
        self.record.push_out(Caller(caller), Page(page), &[0; 8]);
        Ok(())
    }

    /// The callers and pages of its entries.
    fn told_apart(&self, alloc: Global) -> Result<Vec<(u32, u32)>, Fail> {
        let mut all = Vec::new(alloc);
        for no in 0..self.record.len() {
            let entry = self.record.entry(EntryNo(no));
            all.push((entry.caller.0, entry.page.0))?;
        }
        Ok(all)
    }
}

/// One turn, which adds a page-out. The pass sees no less than before.
#[tactic(auto, using(swap_turn::proofs::Earlier::earlier_trans))]
fn page_out<R: Wait>(
    rt: &R,
    lock: &TurnLock<Log>,
    pass: &mut Pass,
    page: u32,
) -> Result<(), ReserveRefused>
    requires free { IsFreeOf lock.now pass.old }
    requires number { pass.old.number < 64 }
    ensures pass { IsFreeOf lock.now pass.new × (pass.new.number ≡ pass.old.number) }
    ensures seen { IsEarlier pass.old.seen pass.new.seen }
{
    let caller = pass.number();
    let mut turn = lock.take(rt, pass);
    let outcome = turn.value().page_out(caller, page);
    lock.give(pass, turn);
    outcome
}

#[test]
fn two_passes_take_and_give(rt: HostRuntime) -> Result<(), Fail> {
    let alloc: Global = rt.alloc();
    let (lock, mut passes) = TurnLock::make(alloc, Log::new(alloc), 2)?;
    let mut second = passes.pop().ok_or("the second pass")?;
    let mut first = passes.pop().ok_or("the first pass")?;
    assert!(rt; first.number() == 0 && second.number() == 1);
    page_out(&rt, &lock, &mut first, 7)?;
    page_out(&rt, &lock, &mut second, 8)?;
    passes.push(first)?;
    let Err((lock, mut passes)) = lock.close(passes) else {
        panic!(rt; "one pass of two closed the lock")
    };
    assert_eq!(rt; passes.len(), 1);
    passes.push(second)?;
    let Ok(log) = lock.close(passes) else {
        panic!(rt; "both passes left it open")
    };
    assert_eq!(rt;
        log.told_apart(alloc)?.as_slice(),
        [(0, 7), (1, 8)].as_slice()
    );
    Ok(())
}

/// Turns one after another, of which each adds a page-out.
fn page_outs<R: Wait>(rt: &R, lock: &TurnLock<Log>, pass: &mut Pass, count: u32) -> bool
    requires free { IsFreeOf lock.now pass.old }
    requires number { pass.old.number < 64 }
    ensures { IsFreeOf lock.now pass.new }
{
    let mut done = true;
    'pages: for page in 0..count {
        done = page_out(rt, lock, pass, page).is_ok() && done;
    }
    done
}

const TURNS: u32 = 50;

/// Two threads take turns, each with its own pass.
fn by_two_threads<R: Threads + Wait + Sync>(
    rt: &R,
    lock: &TurnLock<Log>,
    mut one: Pass,
    mut two: Pass,
) -> ((bool, Pass), (bool, Pass))
    requires free { IsFreeOf lock.now one × IsFreeOf lock.now two }
    requires numbers { (one.number < 64) × (two.number < 64) }
    ensures { IsFreeOf lock.now result.0.1 × IsFreeOf lock.now result.1.1 }
{
    thread::join(
        rt,
        || -> (bool, Pass)
            requires { IsFreeOf lock.now one × (one.number < 64) }
            ensures { IsFreeOf lock.entry.now result.1 }
        {
            let done = page_outs(rt, lock, &mut one, TURNS);
            (done, one)
        },
        || -> (bool, Pass)
            requires { IsFreeOf lock.now two × (two.number < 64) }
            ensures { IsFreeOf lock.entry.now result.1 }
        {
            let done = page_outs(rt, lock, &mut two, TURNS);
            (done, two)
        },
    )
}

fn leave_one_history<R: Threads + Wait + Abort + Sync>(rt: &R, alloc: Global) -> Result<(), Fail> {
    let (lock, mut passes) = TurnLock::make(alloc, Log::new(alloc), 2)?;
    let two = passes.pop().ok_or("the second pass")?;
    let one = passes.pop().ok_or("the first pass")?;
    let ((first, one), (second, two)) = by_two_threads(rt, &lock, one, two);
    assert!(rt; first && second);
    passes.push(one)?;
    passes.push(two)?;
    let Ok(log) = lock.close(passes) else {
        panic!(rt; "both passes left it open")
    };
    let told = log.told_apart(alloc)?;
    assert_eq!(rt; told.len(), 2 * TURNS as usize);
    for caller in 0..2u32 {
        let mut next = 0u32;
        for (by, page) in &told {
            if *by == caller {
                assert_eq!(rt; *page, next);
                next = next.wrapping_add(1);
            }
        }
        assert_eq!(rt; next, TURNS);
    }
    Ok(())
}

#[test]
fn two_threads_leave_one_history(rt: HostRuntime) -> Result<(), Fail> {
    leave_one_history(&rt, rt.alloc())
}
