//! What no clause says: a text for each reason, the walks of a trace, and the draws of a number.
ghost use Rattle.std.specs.Prelude.{◌≤◌, length};

use std::test::Fail;
use swap_base::{CallKind, Caller, Field, Lender, Page, Slab};
use swap_script::{ScriptRefused, TEXT_LIMIT, Why};
use swap_trace::{Draw, DrillDraws, read_trace};
use swap_wire::Event;

/// A text's first fault, where lenders are reached by so many addresses, or in memory.
fn refused(text: &str, tcp: Option<u32>) -> Option<ScriptRefused>
    requires { length text.now ≤ TEXT_LIMIT }
{
    read_trace(text.as_bytes(), tcp).err()
}

#[test]
fn each_reason_has_a_text(rt: HostRuntime) {
    for (text, tcp, line, why) in [
        ("# a trace", None, 2, Why::Geometry),
        (
            "geometry 12 4 2 4 2 4 20",
            None,
            1,
            Why::Field(Field::PageBytes),
        ),
        ("geometry 8 4 2 4 2 4 20\nout 0 3 aa", None, 2, Why::Form),
        ("geometry 8 4 2 4 2 4 20\n0 out 3 abc", None, 2, Why::Form),
        ("geometry 8 4 2 4 2 4 20\n0 in 3 aa", None, 2, Why::Form),
        ("geometry 8 4 2 4 2 4 20\n00 in 3", None, 2, Why::Form),
        ("geometry 8 4 2 4 2 4 20\ntick 5", None, 2, Why::Form),
        ("geometry 8 4 2 4 2 4 20\n 0 in 3", None, 2, Why::Form),
        (
            "geometry 8 4 2 4 2 4 20\nlender 0 65 65",
            None,
            2,
            Why::Field(Field::Slots),
        ),
        (
            "geometry 8 4 2 4 2 4 20\n0 in 3\nlender 4 1 1",
            None,
            3,
            Why::Form,
        ),
        (
            "geometry 8 4 2 4 2 4 20\nlender 1 1 1\nlender 1 1 1\nlender 1 1 1\nlender 1 1 1\nlender 1 1 1\nlender 1 1 1\nlender 1 1 1\nlender 1 1 1\nlender 1 1 1",
            None,
            10,
            Why::Lenders,
        ),
        (
            "geometry 4096 65536 1 4 2 4 20\nlender 1 0 0\nlender 1 0 0\nlender 1 0 0",
            None,
            4,
            Why::Lent,
        ),
        ("geometry 8 4 2 4 2 4 20\n2 in 8", None, 2, Why::Caller),
        ("geometry 8 4 2 4 2 4 20\n1 in 8", None, 2, Why::Page),
        ("geometry 8 4 2 4 2 4 20\nmap 2 0", None, 2, Why::Slab),
        ("geometry 8 4 2 4 2 4 20\nmap 1 0", None, 2, Why::Lender),
        (
            "geometry 8 4 2 4 2 4 20\n0 out 3 aabbcc",
            None,
            2,
            Why::Pattern,
        ),
        (
            "geometry 8 4 2 4 2 4 20\nlender 4 1 1\n\n0 in",
            Some(2),
            4,
            Why::Form,
        ),
        (
            "geometry 8 4 2 4 2 4 20\nlender 4 1 1\n\n9 in 9",
            Some(2),
            4,
            Why::Lenders,
        ),
        (
            "geometry 8 4 2 4 2 4 20\nlender 4 1 1\n\n",
            Some(2),
            4,
            Why::Lenders,
        ),
        (
            "geometry 8 4 2 4 2 4 20\nlender 4 1 1\nround 7\nhost 0 1 2",
            Some(1),
            4,
            Why::Tcp,
        ),
        (
            "geometry 8 4 2 4 2 4 20\nlender 4 1 1\ncut 1 0 0",
            Some(1),
            3,
            Why::Lender,
        ),
    ] {
        assert!(rt; text.len() < 200);
        assert_eq!(rt;
            refused(text, tcp),
            Some(ScriptRefused { line, why }),
            "at {text:?}"
        );
    }
}

const TWO_CALLERS: &[u8] = b"geometry 8 4 2 4 2 4 20
lender 4 1 1
lender 6 1 1
connect 1
0 out 3 aa
# 0 in 9
map 0 1
1 in 3
0 in 3
crash 0
0 out 7 0102
host 1 7 4294967296";

#[test]
fn a_callers_walk_gives_its_calls(rt: HostRuntime) -> Result<(), Fail> {
    let Ok(trace) = read_trace(TWO_CALLERS, None) else {
        return Err("refused")?;
    };
    let script = trace.script();
    assert_eq!(rt;
        (script.calls(), script.events(), script.lenders()),
        (4, 8, 2)
    );
    assert_eq!(rt;
        (script.geometry().page_bytes(), script.geometry().callers()),
        (8, 2)
    );
    assert!(rt; script.geometry().page_bytes() == 8 && script.geometry().callers() == 2);
    let mut walk = trace.caller(Caller(0));
    let caller = Caller(0);
    let page = Page(3);
    let mut bytes = [9; 8];
    for (want, filled) in [
        (Some(Event::PageOut { caller, page }), [0xaa; 8]),
        (Some(Event::PageIn { caller, page }), [0xaa; 8]),
        (
            Some(Event::PageOut {
                caller,
                page: Page(7),
            }),
            [1, 2, 1, 2, 1, 2, 1, 2],
        ),
        (None, [1, 2, 1, 2, 1, 2, 1, 2]),
        (None, [1, 2, 1, 2, 1, 2, 1, 2]),
    ] {
        assert_eq!(rt; walk.next(&mut bytes), want);
        assert_eq!(rt; bytes, filled);
    }
    Ok(())
}

#[test]
fn the_operators_walk_gives_the_other_events(rt: HostRuntime) -> Result<(), Fail> {
    let Ok(trace) = read_trace(TWO_CALLERS, None) else {
        return Err("refused")?;
    };
    let lender = Lender(1);
    let mut walk = trace.operator();
    let mut bytes = [9; 8];
    assert!(rt; trace.script().geometry().page_bytes() == 8);
    for want in [
        Some(Event::Connect { lender }),
        Some(Event::Map {
            slab: Slab(0),
            lender,
        }),
        Some(Event::Crash { lender: Lender(0) }),
        Some(Event::Host {
            lender,
            used: 7,
            word: 4_294_967_296,
        }),
        None,
    ] {
        assert_eq!(rt; walk.next(&mut bytes), want);
        assert_eq!(rt; bytes, [9; 8]);
    }
    Ok(())
}

#[test]
fn a_number_draws_calls(rt: HostRuntime) {
    let mut draws = DrillDraws::make(u64::MAX);
    for (caller, page, kind, byte, word) in [
        (2, 54, CallKind::PageOut, 95, 2_553_256_318),
        (2, 25, CallKind::PageOut, 123, 1_362_994_822),
        (0, 52, CallKind::PageIn, 47, 3_759_657_484),
        (1, 248, CallKind::PageIn, 91, 3_366_838_333),
        (2, 809, CallKind::PageOut, 242, 2_323_195_082),
    ] {
        let want = Draw {
            caller: Caller(caller),
            page: Page(page),
            kind,
            byte,
            word,
        };
        assert_eq!(rt; draws.next(), want);
    }
}
