//! What no clause says: that memory suffices, the lines of a summary as text, and a longer drill.

use std::str;
use std::test::Fail;
use swap_drill::{DrillSummary, drill, put_summary};
use swap_io::LineBuf;

const NOTHING: DrillSummary = DrillSummary {
    entries: 0,
    outs: 0,
    ins: 0,
    faults: 0,
    zero: 0,
    queue: 0,
    disk: 0,
    lender: 0,
    busy: 0,
    waiting: 0,
    rounds: 0,
    mapped: 0,
};

#[test]
fn a_drill_is_counted(rt: HostRuntime) -> Result<(), Fail> {
    assert_eq!(rt; drill(rt.alloc(), 7, 0), Ok(NOTHING));
    assert_eq!(rt;
        drill(rt.alloc(), 7, 1_000),
        Ok(DrillSummary {
            entries: 1_000,
            outs: 475,
            ins: 525,
            zero: 175,
            queue: 15,
            disk: 324,
            lender: 11,
            rounds: 7,
            mapped: 1,
            ..NOTHING
        },)
    );
    Ok(())
}

#[test]
fn a_summary_is_six_lines(rt: HostRuntime) -> Result<(), Fail> {
    let Ok(mut lines) = LineBuf::make(rt.alloc()) else {
        return Err("no memory")?;
    };
    let summary = DrillSummary {
        entries: 10,
        outs: 3,
        ins: 5,
        faults: 2,
        zero: 1,
        queue: 0,
        disk: 4,
        lender: 6,
        busy: 7,
        waiting: 8,
        rounds: 9,
        mapped: 11,
    };
    put_summary(u64::MAX, 100_000, &summary, &mut lines);
    assert_eq!(rt;
        str::from_utf8(lines.bytes())?,
        "drill 18446744073709551615 100000\n\
         entries 10 out 3 in 5 fault 2\n\
         from zero 1 queue 0 disk 4 lender 6\n\
         busy 7 waiting 8\n\
         rounds 9 mapped 11\n\
         end 10\n"
    );
    Ok(())
}
