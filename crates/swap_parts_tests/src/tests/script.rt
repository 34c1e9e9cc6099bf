//! What no clause says: texts by hand, a walk, and printed lines.
ghost use Rattle.std.specs.Prelude.{◌≤◌, length};

use std::test::Fail;
use swap_base::{
    CallKind, Caller, DiskWhich, EntryNo, Field, Lease, Lender, Link, Origin, Page, Slab, Via,
};
use swap_io::LineBuf;
use swap_record::Record;
use swap_script::{
    ScriptRefused, TEXT_LIMIT, Why, end_line, event_line, header_line, lender_line, read_script,
    refusal_line,
};
use swap_wire::{Event, Msg, Seen};

fn refused(text: &str) -> Option<ScriptRefused>
    requires { length text.now ≤ TEXT_LIMIT }
{
    read_script(text.as_bytes()).err()
}

#[test]
fn each_field_is_named(rt: HostRuntime) {
    for (text, field) in [
        ("geometry 12 4 2 4 0 4 20", Field::PageBytes),
        ("geometry 8 0 2 4 2 4 20", Field::PagesPerSlab),
        ("geometry 8 4 0 4 2 4 20", Field::Slabs),
        ("geometry 8 4 2 1025 2 4 20", Field::Queue),
        ("geometry 8 4 2 4 17 4 20", Field::Callers),
        ("geometry 8 4 2 4 2 65 20", Field::Window),
        ("geometry 8 4 2 4 2 4 0", Field::Hot),
        ("geometry 8 65536 17 4 2 4 20", Field::Pages),
        ("geometry 4096 65536 2 4 2 4 20", Field::Bytes),
    ] {
        assert!(rt; text.len() < 100);
        let line = 1;
        let why = Why::Field(field);
        assert_eq!(rt;
            refused(text),
            Some(ScriptRefused { line, why }),
            "at {text:?}"
        );
    }
}

#[test]
fn the_first_fault_is_named_with_its_line(rt: HostRuntime) {
    for (text, line, why) in [
        ("", 1, Why::Geometry),
        ("# one\n\n# three", 4, Why::Geometry),
        (" geometry 8 4 2 4 2 4 20", 1, Why::Geometry),
        ("geometry 8 4 2 4 2 4 20 ", 1, Why::Form),
        ("geometry 8 4 2 4 2 4 4294967296", 1, Why::Form),
        (
            "#\ngeometry 8 4 2 4 2 4 20\n\nin  0 1\nin 9 9",
            4,
            Why::Form,
        ),
        ("geometry 8 4 2 4 2 4 20\nin 0 1\r\n", 2, Why::Form),
        ("geometry 8 4 2 4 2 4 20\ndisk write 0 yes", 2, Why::Form),
        ("geometry 8 4 2 4 2 4 20\nlender 4 1", 2, Why::Form),
        (
            "geometry 8 4 2 4 2 4 20\nlender 0 65 65",
            2,
            Why::Field(Field::Slots),
        ),
        (
            "geometry 8 4 2 4 2 4 20\nlender 64 65 65",
            2,
            Why::Field(Field::Headroom),
        ),
        (
            "geometry 8 4 2 4 2 4 20\nlender 64 64 65",
            2,
            Why::Field(Field::Extra),
        ),
        ("geometry 4096 65536 1 4 2 4 20\nlender 3 1 1", 2, Why::Lent),
        (
            "geometry 4096 65536 1 4 2 4 20\nlender 1 1 1\nlender 1 1 1\nlender 1 1 1",
            4,
            Why::Lent,
        ),
        (
            "geometry 8 4 2 4 2 4 20\nlender 4 1 1\nlender 4 1 1\nlender 4 1 1\nlender 4 1 1\n\
             lender 4 1 1\nlender 4 1 1\nlender 4 1 1\nlender 4 1 1\nlender 4 1 1",
            10,
            Why::Lenders,
        ),
        ("geometry 8 4 2 4 2 4 20\nstart\nlender 4 1 1", 3, Why::Form),
        (
            "geometry 8 4 2 4 2 4 20\nlender 4 1 1\nmap 2 1",
            3,
            Why::Slab,
        ),
        (
            "geometry 8 4 2 4 2 4 20\nlender 4 1 1\ngive 1",
            3,
            Why::Lender,
        ),
        ("geometry 8 4 2 4 2 4 20\nmap 0 0", 2, Why::Lender),
        (
            "geometry 8 4 2 4 2 4 20\nlender 4 1 1\nconnect 0\nconnect 1",
            4,
            Why::Lender,
        ),
        (
            "geometry 8 4 2 4 2 4 20\nlender 4 1 1\ncut 0 1 2\ncrash 1",
            4,
            Why::Lender,
        ),
        (
            "geometry 8 4 2 4 2 4 20\nlender 4 1 1\ntick 5\nhost 0 1 2\nround 1\nhost 1 1 2",
            6,
            Why::Lender,
        ),
        ("geometry 8 4 2 4 2 4 20\nout 2 8 aabbcc", 2, Why::Caller),
        ("geometry 8 4 2 4 2 4 20\nin 0 7\nin 0 8", 3, Why::Page),
        ("geometry 8 4 2 4 2 4 20\nout 0 0 aabbcc", 2, Why::Pattern),
    ] {
        assert!(rt; text.len() < 200);
        assert_eq!(rt;
            refused(text),
            Some(ScriptRefused { line, why }),
            "at {text:?}"
        );
    }
}

#[test]
fn a_walk_gives_each_event_and_its_page(rt: HostRuntime) -> Result<(), Fail> {
    let text =
        b"# all forms\ngeometry 8 4 2 4 2 4 20\nout 1 7 0102\n\nin 0 5\n# in 9 9\nfinish 1\nstart\ndisk write 7 ok\ndisk read 0 bad";
    let Ok(script) = read_script(text) else {
        return Err("refused")?;
    };
    assert_eq!(rt;
        (script.calls(), script.events(), script.lenders()),
        (2, 6, 0)
    );
    assert_eq!(rt;
        (script.geometry().page_bytes(), script.geometry().hot()),
        (8, 20)
    );
    let mut walk = script.walk();
    let mut page = [9; 8];
    assert!(rt; script.geometry().page_bytes() == 8);
    let out = Event::PageOut {
        caller: Caller(1),
        page: Page(7),
    };
    for want in [
        Some(out),
        Some(Event::PageIn {
            caller: Caller(0),
            page: Page(5),
        }),
        Some(Event::Finish { caller: Caller(1) }),
        Some(Event::Start),
        Some(Event::Disk {
            which: DiskWhich::Write(Page(7)),
            ok: true,
        }),
        Some(Event::Disk {
            which: DiskWhich::Read(Caller(0)),
            ok: false,
        }),
        None,
        None,
    ] {
        assert_eq!(rt; walk.next(&mut page), want);
        assert_eq!(rt; page, [1, 2, 1, 2, 1, 2, 1, 2]);
    }
    Ok(())
}

#[test]
fn a_walk_gives_the_events_of_a_lender(rt: HostRuntime) -> Result<(), Fail> {
    let text = "geometry 8 4 2 4 2 4 20\n# one\nlender 4 1 2\nlender 9 0 0\nconnect 0\nmap 1 0\n\
                give 0\ntake 0\ncut 0 3 4\ncrash 0\nconnect 0\n";
    assert!(rt; text.len() < 200);
    let Ok(script) = read_script(text.as_bytes()) else {
        return Err("refused")?;
    };
    assert_eq!(rt;
        (script.calls(), script.events(), script.lenders()),
        (0, 7, 2)
    );
    let mut line = LineBuf::make(rt.alloc())?;
    lender_line(&script.lender(0), &mut line);
    assert_eq!(rt; line.bytes(), b"lender 4 1 2\n".as_slice());
    lender_line(&script.lender(1), &mut line);
    assert_eq!(rt; line.bytes(), b"lender 9 0 0\n".as_slice());
    let lender = Lender(0);
    let slab = Slab(1);
    let mut walk = script.walk();
    let mut page = [9; 8];
    assert!(rt; script.geometry().page_bytes() == 8);
    for want in [
        Some(Event::Connect { lender }),
        Some(Event::Map { slab, lender }),
        Some(Event::Give { lender }),
        Some(Event::Take { lender }),
        Some(Event::Cut {
            lender,
            to_lender: 3,
            to_device: 4,
        }),
        Some(Event::Crash { lender }),
        Some(Event::Connect { lender }),
        None,
    ] {
        assert_eq!(rt; walk.next(&mut page), want);
        assert_eq!(rt; page, [9; 8]);
    }
    Ok(())
}

#[test]
fn calls_are_limited_by_their_bytes(rt: HostRuntime) -> Result<(), Fail> {
    let mut text = Vec::new(rt.alloc());
    text.extend_from_slice(b"geometry 4096 4 2 4 2 4 20\n")?;
    for _ in 0..262_144 {
        text.extend_from_slice(b"in 0 0\n")?;
    }
    assert!(rt; text.len() <= TEXT_LIMIT);
    assert!(rt; read_script(&text).is_ok());
    text.extend_from_slice(b"start\nout 0 0 00\n")?;
    assert!(rt; text.len() <= TEXT_LIMIT);
    let refused = ScriptRefused {
        line: 262_147,
        why: Why::Calls,
    };
    assert_eq!(rt; read_script(&text).err(), Some(refused));
    Ok(())
}

#[test]
fn lines_are_printed(rt: HostRuntime) -> Result<(), Fail> {
    let mut history = Record::make(rt.alloc(), 8);
    history.reserve(2)?;
    let out_entry = history.push_out(Caller(1), Page(7), &[0xaa; 8]);
    let fault = history.push_failed(Caller(0), Page(3), CallKind::PageIn, 1, 2, &[0; 8]);
    assert!(rt; history.len() == 2);
    let mut line = LineBuf::make(rt.alloc())?;
    let finish = Event::Finish { caller: Caller(0) };
    let start = Event::Start;
    let disk = Event::Disk {
        which: DiskWhich::Write(Page(7)),
        ok: false,
    };
    let read = Event::Disk {
        which: DiskWhich::Read(Caller(15)),
        ok: true,
    };
    let page_out = Event::PageOut {
        caller: Caller(1),
        page: Page(7),
    };
    let lender = Some(Lender(2));
    for (event, seen, want) in [
        (start, Seen::Nothing, "start = -\n"),
        (
            start,
            Seen::Started {
                page: Page(3),
                entry: EntryNo(12),
            },
            "start = write 3 12\n",
        ),
        (
            disk,
            Seen::WriteKept { entry: EntryNo(0) },
            "disk write 7 bad = kept 0\n",
        ),
        (
            disk,
            Seen::WriteDropped { entry: EntryNo(0) },
            "disk write 7 bad = dropped 0\n",
        ),
        (
            disk,
            Seen::Written { entry: EntryNo(0) },
            "disk write 7 bad = written 0\n",
        ),
        (
            read,
            Seen::ReadCame { page: Page(7) },
            "disk read 15 ok = came 7\n",
        ),
        (
            read,
            Seen::ReadFailed { page: Page(7) },
            "disk read 15 ok = failed 7\n",
        ),
        (finish, Seen::Busy, "finish 0 = busy\n"),
        (finish, Seen::Idle, "finish 0 = idle\n"),
        (finish, Seen::Room, "finish 0 = room\n"),
        (
            finish,
            Seen::Wait { via: Via::Disk },
            "finish 0 = wait disk\n",
        ),
        (
            finish,
            Seen::Again {
                via: Via::Lender(Lender(7)),
            },
            "finish 0 = again lender 7\n",
        ),
        (
            finish,
            Seen::Fault { entry: fault },
            "finish 0 = entry 1 fault in 3 1 2\n",
        ),
        (
            page_out,
            Seen::Done {
                entry: out_entry,
                sent: None,
            },
            "out 1 7 = entry 0 out 7 aa\n",
        ),
        (
            page_out,
            Seen::Done {
                entry: out_entry,
                sent: lender,
            },
            "out 1 7 = entry 0 out 7 aa to 2\n",
        ),
        (Event::Tick { word: 9 }, Seen::Nothing, "tick 9 = -\n"),
        (
            Event::Crash { lender: Lender(1) },
            Seen::Nothing,
            "crash 1 = -\n",
        ),
    ] {
        event_line(&event, &seen, &history, &mut line);
        assert_eq!(rt; line.bytes(), want.as_bytes());
    }
    end_line(4_194_304, &mut line);
    assert_eq!(rt; line.bytes(), b"end 4194304\n".as_slice());
    let refused = ScriptRefused {
        line: 67_108_865,
        why: Why::Field(Field::PagesPerSlab),
    };
    refusal_line(&refused, &mut line);
    assert_eq!(rt; line.bytes(), b"line 67108865: pages_per_slab\n".as_slice());
    let Ok(script) = read_script(b"geometry 4096 1024 16 256 4 32 20") else {
        return Err("refused")?;
    };
    header_line(&script.geometry(), &mut line);
    assert_eq!(rt;
        line.bytes(),
        b"geometry 4096 1024 16 256 4 32 20\n".as_slice()
    );
    Ok(())
}

#[test]
fn messages_are_printed(rt: HostRuntime) -> Result<(), Fail> {
    let history = Record::make(rt.alloc(), 8);
    let mut line = LineBuf::make(rt.alloc())?;
    let lender = Lender(7);
    let slab = Slab(4095);
    let lease = Lease(5);
    let place = 65_535;
    for (msg, want) in [
        (
            Msg::Hello {
                version: 1,
                page_bytes: 8,
                pages_per_slab: 4,
            },
            "take 7 = hello 1\n",
        ),
        (Msg::Query { slab }, "take 7 = query 4095\n"),
        (Msg::Borrow { slab }, "take 7 = borrow 4095\n"),
        (Msg::Write { lease, place }, "take 7 = write 5 65535\n"),
        (Msg::Read { lease, place }, "take 7 = read 5 65535\n"),
        (
            Msg::Rates {
                lease,
                value: u64::MAX,
            },
            "take 7 = rates 5 18446744073709551615\n",
        ),
        (Msg::Done { lease }, "take 7 = done 5\n"),
        (Msg::Room { slab, free: 64 }, "take 7 = room 4095 64\n"),
        (Msg::Lent { slab, lease }, "take 7 = lent 4095 5\n"),
        (Msg::Refused { slab }, "take 7 = refused 4095\n"),
        (Msg::Wrote { lease, place }, "take 7 = wrote 5 65535\n"),
        (Msg::PageIs { lease, place }, "take 7 = page 5 65535\n"),
        (Msg::AskRates { lease }, "take 7 = ask 5\n"),
        (Msg::Evict { lease }, "take 7 = evict 5\n"),
    ] {
        event_line(
            &Event::Take { lender },
            &Seen::Took { msg },
            &history,
            &mut line,
        );
        assert_eq!(rt; line.bytes(), want.as_bytes());
    }
    Ok(())
}

#[test]
fn what_a_link_shows_is_printed(rt: HostRuntime) -> Result<(), Fail> {
    let history = Record::make(rt.alloc(), 8);
    let mut line = LineBuf::make(rt.alloc())?;
    let lender = Lender(0);
    let slab = Slab(0);
    let msg = Msg::Borrow { slab };
    let reply = Some(Msg::Lent {
        slab,
        lease: Lease(2),
    });
    let give = Event::Give { lender };
    for (event, seen, want) in [
        (
            Event::Connect { lender },
            Seen::Linked { link: Link(3) },
            "connect 0 = link 3\n",
        ),
        (
            Event::Map { slab, lender },
            Seen::Borrowing,
            "map 0 0 = borrow\n",
        ),
        (
            give,
            Seen::Gave {
                msg,
                reply: None,
                evicted: 0,
            },
            "give 0 = borrow 0\n",
        ),
        (
            give,
            Seen::Gave {
                msg,
                reply,
                evicted: 1 << 63 | 5,
            },
            "give 0 = borrow 0 > lent 0 2 evict 0 2 63\n",
        ),
        (give, Seen::GaveEnd, "give 0 = end\n"),
        (give, Seen::GaveEnded { msg }, "give 0 = borrow 0 ended\n"),
        (Event::Take { lender }, Seen::Lost, "take 0 = lost\n"),
        (Event::Take { lender }, Seen::Lied, "take 0 = lied\n"),
    ] {
        event_line(&event, &seen, &history, &mut line);
        assert_eq!(rt; line.bytes(), want.as_bytes());
    }
    Ok(())
}
