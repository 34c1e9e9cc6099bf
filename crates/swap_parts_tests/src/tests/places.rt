ghost use Rattle.std.specs.Prelude.{◌≡◌};

use std::process::Abort;
use std::test::Fail;
use swap_places::Line;

const BOUND: u32 = 9;

// The line's numbers by `first` and `next`, one digit each, as one number.
fn read(line: &Line) -> u64 {
    let mut digits = 0;
    let mut at = line.first();
    for _ in 0..line.len().min(BOUND) {
        let Some(number) = at else { break };
        digits = digits % 1_000_000_000 * 10 + u64::from(number % 10);
        at = line.next(number);
    }
    digits
}

fn enter(rt: &impl Abort, line: &mut Line, number: u32)
    requires { line.old.bound ≡ 9 }
    ensures { line.new.bound ≡ 9 }
{
    assert!(rt; number < BOUND);
    assert!(rt; !line.has(number), "{number} is out");
    line.enter(number);
}

fn leave(rt: &impl Abort, line: &mut Line, number: u32)
    requires { line.old.bound ≡ 9 }
    ensures { line.new.bound ≡ 9 }
{
    assert!(rt; number < BOUND);
    assert!(rt; line.has(number), "{number} stands");
    line.leave(number);
}

#[test]
fn numbers_leave_from_each_place(rt: HostRuntime) -> Result<(), Fail> {
    let mut line = Line::make(rt.alloc(), BOUND).map_err(|_| "memory")?;
    assert!(rt; line.first().is_none());
    for number in [3, 8, 5, 1] {
        enter(&rt, &mut line, number);
    }
    assert_eq!(rt; read(&line), 3851);
    leave(&rt, &mut line, 5);
    assert_eq!(rt; read(&line), 381);
    leave(&rt, &mut line, 3);
    leave(&rt, &mut line, 1);
    assert_eq!(rt; read(&line), 8);
    enter(&rt, &mut line, 5);
    leave(&rt, &mut line, 8);
    leave(&rt, &mut line, 5);
    assert!(rt; line.first().is_none() && line.len() == 0);
    enter(&rt, &mut line, 8);
    assert_eq!(rt; line.first(), Some(8));
    Ok(())
}

#[test]
fn every_number_enters_and_leaves_in_order(rt: HostRuntime) -> Result<(), Fail> {
    let mut line = Line::make(rt.alloc(), BOUND).map_err(|_| "memory")?;
    for number in 1..BOUND {
        enter(&rt, &mut line, number);
    }
    assert_eq!(rt; read(&line), 12_345_678);
    for number in 1..BOUND {
        assert_eq!(rt; line.first(), Some(number));
        leave(&rt, &mut line, number);
    }
    assert_eq!(rt; line.len(), 0);
    Ok(())
}
