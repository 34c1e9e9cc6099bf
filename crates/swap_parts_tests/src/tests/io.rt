//! What no clause says: rows by hand, and each call that takes memory once.

use std::io;
use std::test::Fail;
use swap_io::{
    LINE_LENGTH, LineBuf, MemSink, MemSource, StdSink, StdSource, WholeRefused, WriteFailed,
    is_hex, number, pattern, read_whole, write_line,
};

#[test]
fn numbers_have_no_sign_and_no_leading_zero(rt: HostRuntime) {
    for (word, want) in [
        ("0", Some(0)),
        ("00", None),
        ("", None),
        ("042", None),
        ("16384", Some(16_384)),
        ("18446744073709551615", Some(u64::MAX)),
        ("18446744073709551616", None),
        ("100000000000000000000000000000000", None),
        ("1a", None),
        ("+1", None),
        (" 1", None),
        ("\u{e9}", None),
    ] {
        assert_eq!(rt; number(word.as_bytes()), want, "at {word:?}");
    }
}

#[test]
fn patterns_fill_pages(rt: HostRuntime) {
    for (word, want) in [
        ("aa", Some([0xaa; 8])),
        ("0102", Some([1, 2, 1, 2, 1, 2, 1, 2])),
        (
            "0011223344556677",
            Some([0, 0x11, 0x22, 0x33, 0x44, 0x55, 0x66, 0x77]),
        ),
        ("aabbcc", None),
        ("AA", None),
        ("a", None),
        ("", None),
        ("0g", None),
        ("00112233445566778899aabbccddeeff", None),
    ] {
        let mut page = [7; 8];
        let filled = pattern(word.as_bytes(), &mut page);
        assert_eq!(rt; filled, want.is_some(), "at {word:?}");
        assert_eq!(rt;
            page.as_slice(),
            want.unwrap_or([7; 8]).as_slice(),
            "at {word:?}"
        );
    }
    assert!(rt; is_hex(b"aabbcc"));
    assert!(rt; !is_hex(b"aabbc"));
}

#[test]
fn a_line_holds_text_numbers_and_pages(rt: HostRuntime) -> Result<(), Fail> {
    let mut line = LineBuf::make(rt.alloc())?;
    line.text(b"out ");
    line.decimal(16_383);
    line.text(b" ");
    line.shortest(&[1, 2, 1, 2, 1, 2, 1, 2]);
    assert_eq!(rt; line.bytes(), b"out 16383 0102".as_slice());
    assert_eq!(rt; line.room(), LINE_LENGTH - 14);
    line.clear();
    line.shortest(&[0; 4096]);
    assert_eq!(rt; line.bytes(), b"00".as_slice());
    Ok(())
}

#[test]
fn a_source_is_read_whole_or_refused(rt: HostRuntime) -> Result<(), Fail> {
    for (len, call, limit, want) in [
        (0, 9, 0, Ok(0)),
        (5000, 9, 5000, Ok(5000)),
        (5001, 9, 5000, Err(WholeRefused::TooLong)),
        (5000, 1, 5000, Err(WholeRefused::ReadFailed)),
        (5000, 2, 5000, Err(WholeRefused::ReadFailed)),
    ] {
        let bytes = vec![in rt.alloc(); 7; len]?;
        let failing = vec![in rt.alloc(); call]?;
        let mut source = MemSource::make(bytes, failing);
        let read = read_whole(rt.alloc(), &mut source, limit).map(|text| text.len());
        assert_eq!(rt; read, want, "{len} bytes, call {call} fails");
    }
    Ok(())
}

#[test]
fn a_sink_fails_where_listed_and_where_it_is_full(rt: HostRuntime) -> Result<(), Fail> {
    let failing = vec![in rt.alloc(); 1]?;
    let mut sink = MemSink::make(rt.alloc(), 8, failing)?;
    assert_eq!(rt; write_line(&mut sink, b"abcde"), Ok(()));
    assert_eq!(rt; write_line(&mut sink, b"lost"), Err(WriteFailed));
    assert_eq!(rt; write_line(&mut sink, b"fghij"), Err(WriteFailed));
    assert_eq!(rt; sink.bytes(), b"abcdefgh".as_slice());
    Ok(())
}

/// Gives two bytes, and then fails.
#[derive(Drop)]
struct Torn {
    given: bool,
}

impl io::Read for Torn {
    fn read(&mut self, buf: &mut [u8]) -> io::Result<usize> {
        if self.given || buf.len() < 2 {
            return Err(io::Error::from(io::ErrorKind::ConnectionReset));
        }
        self.given = true;
        buf[0] = b'a';
        buf[1] = b'b';
        Ok(2)
    }
}

#[test]
fn streams_pass_on_what_std_gives(rt: HostRuntime) -> Result<(), Fail> {
    let mut whole = StdSource::make(b"ab".as_slice());
    assert_eq!(rt;
        read_whole(rt.alloc(), &mut whole, 2)?.as_slice(),
        b"ab".as_slice()
    );
    let mut torn = StdSource::make(Torn { given: false });
    assert_eq!(rt;
        read_whole(rt.alloc(), &mut torn, 9).err(),
        Some(WholeRefused::ReadFailed)
    );
    let mut room = [0; 3];
    assert_eq!(rt;
        write_line(&mut StdSink::make(room.as_mut_slice()), b"abcde"),
        Err(WriteFailed)
    );
    assert_eq!(rt; room, *b"abc");
    assert_eq!(rt;
        write_line(&mut StdSink::make(vec![in rt.alloc()]?), b"abcde"),
        Ok(())
    );
    Ok(())
}
