use std::test::Fail;
use swap_base::{CallKind, Caller, EntryNo, Lender, Origin, Page};
use swap_io::LineBuf;
use swap_record::{Entry, Op, Record, ReserveRefused, Verdict};

fn entry(caller: u32, number: u32, page: u32, op: Op) -> Entry {
    Entry {
        caller: Caller(caller),
        number,
        page: Page(page),
        op,
    }
}

#[test]
fn each_kind_of_entry_is_kept(rt: HostRuntime) -> Result<(), Fail> {
    let mut record = Record::make(rt.alloc(), 8);
    record.reserve(4)?;
    let (aa, zeros) = ([0xaa; 8], [0; 8]);
    let named = Some(EntryNo(0));
    let (since, at) = (1, 2);
    record.push_out(Caller(1), Page(3), &aa);
    record.push_in(Caller(0), Page(3), named, Origin::Queue, &aa);
    record.push_in(Caller(1), Page(2), None, Origin::Zero, &zeros);
    let last = record.push_failed(Caller(1), Page(3), CallKind::PageIn, since, at, &zeros);
    assert_eq!(rt; last, EntryNo(3));
    assert_eq!(rt; (record.len(), record.spare()), (4, 0));
    let queue = Origin::Queue;
    let origin = Origin::Zero;
    let kind = CallKind::PageIn;
    assert_eq!(rt; record.entry(EntryNo(0)), entry(1, 0, 3, Op::PageOut));
    assert_eq!(rt;
        record.entry(EntryNo(1)),
        entry(
            0,
            0,
            3,
            Op::PageIn {
                named,
                origin: queue
            }
        )
    );
    assert_eq!(rt;
        record.entry(EntryNo(2)),
        entry(
            1,
            1,
            2,
            Op::PageIn {
                named: None,
                origin
            }
        )
    );
    assert_eq!(rt;
        record.entry(EntryNo(3)),
        entry(1, 2, 3, Op::Failed { kind, since, at })
    );
    assert_eq!(rt; record.bytes(EntryNo(1)), aa.as_slice());
    assert_eq!(rt; record.bytes(EntryNo(2)), zeros.as_slice());
    Ok(())
}

#[test]
fn a_history_has_an_end(rt: HostRuntime) -> Result<(), Fail> {
    let mut record = Record::make(rt.alloc(), 4096);
    assert_eq!(rt; record.reserve(4_194_305), Err(ReserveRefused::TooMany));
    record.reserve(2)?;
    record.reserve(1)?;
    assert_eq!(rt; record.spare(), 2);
    record.push_out(Caller(63), Page(0), &[1; 4096]);
    assert_eq!(rt; record.reserve(4_194_304), Err(ReserveRefused::TooMany));
    assert_eq!(rt; (record.len(), record.spare()), (1, 1));
    Ok(())
}

#[test]
fn each_kind_of_entry_has_its_text(rt: HostRuntime) -> Result<(), Fail> {
    let mut record = Record::make(rt.alloc(), 8);
    record.reserve(6)?;
    let (aa, zeros) = ([0xaa; 8], [0; 8]);
    let named = Some(EntryNo(0));
    let lender = Origin::Lender(Lender(7));
    record.push_out(Caller(0), Page(3), &aa);
    record.push_in(Caller(0), Page(3), named, Origin::Queue, &aa);
    record.push_in(Caller(1), Page(5), None, Origin::Zero, &zeros);
    record.push_in(Caller(1), Page(3), named, lender, &[0, 1, 0, 1, 0, 1, 0, 1]);
    record.push_failed(Caller(1), Page(2), CallKind::PageOut, 0, 1, &[0xbb; 8]);
    record.push_failed(Caller(0), Page(3), CallKind::PageIn, 10, u64::MAX, &zeros);
    let texts = [
        "entry 0 out 3 aa",
        "entry 1 in 3 of 0 queue aa",
        "entry 2 in 5 of none zero 00",
        "entry 3 in 3 of 0 lender 7 0001",
        "entry 4 fault out 2 0 1 bb",
        "entry 5 fault in 3 10 18446744073709551615",
    ];
    let mut line = LineBuf::make(rt.alloc())?;
    for no in 0..6u32 {
        line.clear();
        record.entry_text(EntryNo(no), &mut line);
        assert_eq!(rt; line.bytes(), texts[no as usize].as_bytes());
    }
    Ok(())
}

/// What `check` says of two page-outs of page 3 with equal bytes, one of page 2, and this entry
/// behind them.
fn verdict(rt: &HostRuntime, page: u32, op: Op, fill: u8) -> Result<Verdict, Fail> {
    let mut record = Record::make(rt.alloc(), 8);
    record.reserve(4)?;
    record.push_out(Caller(0), Page(3), &[0xaa; 8]);
    record.push_out(Caller(1), Page(3), &[0xaa; 8]);
    record.push_out(Caller(0), Page(2), &[0xbb; 8]);
    match op {
        Op::PageOut => record.push_out(Caller(1), Page(page), &[fill; 8]),
        Op::PageIn { named, origin } => {
            record.push_in(Caller(1), Page(page), named, origin, &[fill; 8])
        }
        Op::Failed { kind, since, at } => {
            record.push_failed(Caller(1), Page(page), kind, since, at, &[fill; 8])
        }
    };
    Ok(record.check(rt.alloc())?)
}

fn page_in(named: Option<u32>, origin: Origin) -> Op {
    let named = named.map(EntryNo);
    Op::PageIn { named, origin }
}

fn fault(since: u64, at: u64) -> Op {
    let kind = CallKind::PageIn;
    Op::Failed { kind, since, at }
}

#[test]
fn each_kind_of_wrong_entry_is_found(rt: HostRuntime) -> Result<(), Fail> {
    let wrong = Verdict::NotLegal { at: EntryNo(3) };
    for (page, op, fill, want) in [
        (3, Op::PageOut, 1, Verdict::Legal),
        (3, page_in(Some(1), Origin::Queue), 0xaa, Verdict::Legal),
        (3, page_in(Some(0), Origin::Queue), 0xaa, wrong),
        (3, page_in(Some(2), Origin::Queue), 0xaa, wrong),
        (3, page_in(Some(3), Origin::Queue), 0xaa, wrong),
        (3, page_in(Some(1), Origin::Queue), 0xbb, wrong),
        (3, page_in(Some(1), Origin::Zero), 0xaa, wrong),
        (3, page_in(None, Origin::Zero), 0xaa, wrong),
        (9, page_in(None, Origin::Zero), 0, Verdict::Legal),
        (9, page_in(None, Origin::Zero), 1, wrong),
        (9, page_in(None, Origin::Disk), 0, wrong),
        (9, page_in(Some(2), Origin::Disk), 0xbb, wrong),
        (3, fault(1, 2), 0, Verdict::Legal),
        (3, fault(2, 2), 0, wrong),
    ] {
        let said = verdict(&rt, page, op, fill)?;
        assert_eq!(rt; said, want, "of {page} {op:?} {fill}");
    }
    Ok(())
}

#[test]
fn the_first_marked_entry_is_found(rt: HostRuntime) -> Result<(), Fail> {
    let mut record = Record::make(rt.alloc(), 4096);
    assert_eq!(rt; record.check(rt.alloc())?, Verdict::Legal);
    record.reserve(3)?;
    record.push_in(Caller(0), Page(7), None, Origin::Zero, &[0; 4096]);
    record.push_out(Caller(0), Page(7), &[1; 4096]);
    record.push_in(Caller(0), Page(7), None, Origin::Zero, &[0; 4096]);
    let wrong = |at| Verdict::NotLegal { at: EntryNo(at) };
    assert_eq!(rt; record.check(rt.alloc())?, wrong(2));
    record.note(EntryNo(1));
    assert_eq!(rt; record.check(rt.alloc())?, wrong(1));
    record.note(EntryNo(0));
    record.note(EntryNo(2));
    assert_eq!(rt; record.check(rt.alloc())?, wrong(0));
    Ok(())
}
