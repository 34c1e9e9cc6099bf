//! What no clause says: texts by hand.

use std::test::Fail;
use swap_base::{EntryNo, Field};
use swap_record::Verdict;
use swap_script::{ScriptRefused, TEXT_LIMIT, Why};
use swap_transcript::{Judgement, TranscriptRefused, check_transcript};

const NINE_LENDERS: &str = "geometry 8 4 2 4 2 4 20\nlender 4 1 1\nlender 4 1 1\nlender 4 1 1\n\
    lender 4 1 1\nlender 4 1 1\nlender 4 1 1\nlender 4 1 1\nlender 4 1 1\nlender 4 1 1\nend 0\n";

/// One text for each reason that a short text can have, with the line that is named.
#[test]
fn each_reason_is_named(rt: HostRuntime) {
    for (text, line, why) in [
        ("", 1, Why::Geometry),
        (
            "geometry 8 4 2 4 2 4 20\nout 0 3 = entry 0 out 3 aa\n",
            3,
            Why::End,
        ),
        ("geometry 8 4 2 4 2 4 20\nend 1\n", 2, Why::End),
        ("geometry 8 4 2 4 2 4 20\nend x\n", 2, Why::Form),
        ("geometry 8 4 2 4 2 4 20\nend 0\nstart = -\n", 3, Why::Form),
        ("geometry 8 4 2 4 2 4 20\nstart = - \nend 0\n", 2, Why::Form),
        ("geometry 8 4 2 4 2 4 20\nstart - \nend 0\n", 2, Why::Form),
        (
            "geometry 8 4 2 4 2 4 20\nstart = written 0\nend 0\n",
            2,
            Why::Form,
        ),
        (
            "geometry 8 4 2 4 2 4 20\nout 0 3 = entry 0 out 3 aaaa\nend 1\n",
            2,
            Why::Form,
        ),
        (
            "geometry 8 4 2 4 2 4 20\nin 0 3 = entry 0 out 3 aa\nend 1\n",
            2,
            Why::Form,
        ),
        (
            "geometry 8 4 2 4 2 4 20\nin 0 3 = entry 0 in 2 of none zero 00\nend 1\n",
            2,
            Why::Form,
        ),
        (
            "geometry 8 4 2 4 2 4 20\ngive 0 = done 7 evict 64\nend 0\n",
            2,
            Why::Form,
        ),
        (
            "geometry 8 4 2 4 2 4 20\ngive 0 = done 7 evict 3 3\nend 0\n",
            2,
            Why::Form,
        ),
        (
            "geometry 8 4 2 4 2 4 20\ngive 0 = done 7 evict\nend 0\n",
            2,
            Why::Form,
        ),
        (
            "geometry 8 4 2 4 2 4 20\nfinish 2 = idle\nend 0\n",
            2,
            Why::Caller,
        ),
        (
            "geometry 8 4 2 4 2 4 20\nfinish 0 = entry 0 out 8 aa\nend 1\n",
            2,
            Why::Page,
        ),
        (
            "geometry 8 4 2 4 2 4 20\ndisk read 0 ok = came 8\nend 0\n",
            2,
            Why::Page,
        ),
        (
            "geometry 12 4 2 4 2 4 20\nend 0\n",
            1,
            Why::Field(Field::PageBytes),
        ),
        (
            "geometry 8 0 2 4 2 4 20\nend 0\n",
            1,
            Why::Field(Field::PagesPerSlab),
        ),
        (
            "geometry 8 4 0 4 2 4 20\nend 0\n",
            1,
            Why::Field(Field::Slabs),
        ),
        (
            "geometry 8 4 2 0 2 4 20\nend 0\n",
            1,
            Why::Field(Field::Queue),
        ),
        (
            "geometry 8 4 2 4 0 4 20\nend 0\n",
            1,
            Why::Field(Field::Callers),
        ),
        (
            "geometry 8 4 2 4 2 0 20\nend 0\n",
            1,
            Why::Field(Field::Window),
        ),
        ("geometry 8 4 2 4 2 4 0\nend 0\n", 1, Why::Field(Field::Hot)),
        (
            "geometry 8 65536 17 4 2 4 20\nend 0\n",
            1,
            Why::Field(Field::Pages),
        ),
        (
            "geometry 4096 65536 2 4 2 4 20\nend 0\n",
            1,
            Why::Field(Field::Bytes),
        ),
        (
            "geometry 8 4 2 4 2 4 20\nlender 0 0 0\nend 0\n",
            2,
            Why::Field(Field::Slots),
        ),
        (
            "geometry 8 4 2 4 2 4 20\nlender 4 65 0\nend 0\n",
            2,
            Why::Field(Field::Headroom),
        ),
        (
            "geometry 8 4 2 4 2 4 20\nlender 4 1 65\nend 0\n",
            2,
            Why::Field(Field::Extra),
        ),
        (
            "geometry 4096 16384 1 4 2 4 20\nlender 64 0 0\nend 0\n",
            2,
            Why::Lent,
        ),
        (NINE_LENDERS, 10, Why::Lenders),
    ] {
        assert!(rt; text.len() < 1000);
        assert_eq!(rt;
            check_transcript(rt.alloc(), text.as_bytes()).err(),
            Some(TranscriptRefused::Line(ScriptRefused { line, why })),
            "at {text:?}"
        );
    }
}

/// A line of each kind of result, and whether all entries are right.
#[test]
fn each_kind_of_result_is_read(rt: HostRuntime) -> Result<(), Fail> {
    for line in [
        "out 0 3 = room",
        "out 0 3 = busy",
        "in 1 3 = wait disk",
        "in 1 3 = wait lender 7",
        "finish 1 = idle",
        "finish 1 = wait lender 0",
        "finish 1 = room",
        "finish 1 = again disk",
        "start = write 3 0",
        "disk write 3 ok = written 0",
        "disk write 3 bad = kept 0",
        "disk write 3 bad = dropped 4294967295",
        "disk read 0 ok = came 7",
        "disk read 0 bad = failed 7",
        "disk read 0 bad = -",
        "tick 18446744073709551615 = none",
        "tick 5 = ask 1 2",
        "tick 5 = ask 1 2 0",
        "map 9 9 = borrow",
        "connect 9 = link 1",
        "give 9 = -",
        "give 9 = end",
        "give 9 = done 7 ended",
        "give 9 = query 3 > room 3 4",
        "give 9 = rates 0 65536 evict 0 63",
        "give 9 = write 0 1 > page 5 6 evict 1",
        "take 9 = lost",
        "take 9 = lied",
        "take 9 = ask 4",
        "cut 9 1 2 = cut",
        "crash 9 = crashed",
        "host 9 1 2 = 18446744073709551615",
        "host 9 1 2 = 3 ask 0 2",
        "round 6 = 9 mapped 1",
    ] {
        let text = format!(in rt.alloc(); "geometry 8 4 2 4 2 4 20\n{line}\nend 0\n")?;
        assert!(rt; text.len() < TEXT_LIMIT);
        let entries = 0;
        let verdict = Verdict::Legal;
        assert_eq!(rt;
            check_transcript(rt.alloc(), text.as_bytes()),
            Ok(Judgement { entries, verdict }),
            "at {line:?}"
        );
    }
    Ok(())
}

/// Each kind of entry, right and wrong: how many there are, and which is the first that is wrong.
#[test]
fn the_first_wrong_entry_is_named(rt: HostRuntime) -> Result<(), Fail> {
    for (lines, entries, wrong) in [
        (
            "out 0 3 = entry 0 out 3 aa to 1\nin 1 3 = entry 1 in 3 of 0 lender 1 aa",
            2,
            None,
        ),
        (
            "in 0 3 = entry 0 in 3 of none zero 00\nfinish 0 = entry 1 fault in 3 0 1",
            2,
            None,
        ),
        ("finish 0 = entry 0 fault out 3 4 5 aabb", 1, None),
        ("out 0 3 = entry 1 out 3 aa", 1, Some(0)),
        (
            "out 0 3 = entry 0 out 3 aa\nin 0 3 = entry 1 in 3 of 0 queue bb",
            2,
            Some(1),
        ),
        (
            "out 0 3 = entry 0 out 3 aa\nin 0 3 = entry 1 in 3 of none queue aa",
            2,
            Some(1),
        ),
        ("in 0 3 = entry 0 in 3 of none queue 00", 1, Some(0)),
        ("in 0 3 = entry 0 in 3 of none zero 01", 1, Some(0)),
        (
            "out 0 3 = entry 0 out 3 aa\nout 0 3 = entry 1 out 3 aa\nin 0 3 = entry 2 in 3 of 0 disk aa",
            3,
            Some(2),
        ),
        ("finish 0 = entry 0 fault in 3 2 2", 1, Some(0)),
        (
            "out 0 3 = entry 7 out 3 aa\nfinish 0 = entry 1 fault in 3 2 2",
            2,
            Some(0),
        ),
    ] {
        let text = format!(in rt.alloc(); "geometry 8 4 2 4 2 4 20\n{lines}\nend {entries}\n")?;
        assert!(rt; text.len() < TEXT_LIMIT);
        let verdict = match wrong {
            None => Verdict::Legal,
            Some(n) => Verdict::NotLegal { at: EntryNo(n) },
        };
        assert_eq!(rt;
            check_transcript(rt.alloc(), text.as_bytes()),
            Ok(Judgement { entries, verdict }),
            "at {lines:?}"
        );
    }
    Ok(())
}
