use swap_base::LenderSpec;
use swap_options::{LendOptions, OptionsRefused, read_lend, read_play};
use swap_sock::Address;

/// The options of 127.0.0.1:7070 with these numbers.
fn lends(spec: LenderSpec, page_bytes: u32, pages_per_slab: u32, links: u32) -> LendOptions {
    LendOptions {
        listen: Address {
            a: 127,
            b: 0,
            c: 0,
            d: 1,
            port: 7_070,
        },
        spec,
        page_bytes,
        pages_per_slab,
        links,
        used: 0,
    }
}

const USUAL: LenderSpec = LenderSpec {
    slots: 16,
    headroom: 2,
    extra: 2,
};

const FEW: LenderSpec = LenderSpec {
    slots: 4,
    headroom: 1,
    extra: 0,
};

#[test]
fn words_give_options_or_are_refused(rt: HostRuntime) {
    let refused = Err(OptionsRefused::Usage);
    for (what, words, want) in [
        (
            "defaults",
            ["--listen", "127.0.0.1:7070"].as_slice(),
            Ok(lends(USUAL, 4_096, 1_024, 1)),
        ),
        (
            "all",
            [
                "--slots=4",
                "--headroom",
                "1",
                "--listen",
                "127.0.0.1:7070",
                "--extra",
                "0",
                "--page-bytes",
                "8",
                "--pages-per-slab",
                "4",
                "--links",
                "64",
            ]
            .as_slice(),
            Ok(lends(FEW, 8, 4, 64)),
        ),
        ("no address", [].as_slice(), refused),
        ("a name", ["--listen", "localhost:7070"].as_slice(), refused),
        (
            "twice",
            ["--listen", "127.0.0.1:7070", "--links", "1", "--links", "1"].as_slice(),
            refused,
        ),
        (
            "a leading zero",
            ["--listen", "127.0.0.1:7070", "--used", "00"].as_slice(),
            refused,
        ),
        (
            "a sign",
            ["--listen", "127.0.0.1:7070", "--used", "+1"].as_slice(),
            refused,
        ),
        (
            "past 32 bits",
            ["--listen", "127.0.0.1:7070", "--used", "4294967296"].as_slice(),
            refused,
        ),
        (
            "too many links",
            ["--listen", "127.0.0.1:7070", "--links", "65"].as_slice(),
            refused,
        ),
        (
            "no power of two",
            ["--listen", "127.0.0.1:7070", "--page-bytes", "24"].as_slice(),
            refused,
        ),
        (
            "too many bytes",
            ["--listen", "127.0.0.1:7070", "--pages-per-slab", "8193"].as_slice(),
            refused,
        ),
        (
            "no value",
            ["--listen", "127.0.0.1:7070", "--slots"].as_slice(),
            refused,
        ),
        (
            "help",
            ["--listen", "127.0.0.1:7070", "--help"].as_slice(),
            refused,
        ),
        (
            "a word too many",
            ["--listen", "127.0.0.1:7070", "4"].as_slice(),
            refused,
        ),
    ] {
        assert_eq!(rt; read_lend(rt.alloc(), words), want, "at {what:?}");
    }
}

/// 127.0.0.1 and a port.
fn at(port: u16) -> Address {
    Address {
        a: 127,
        b: 0,
        c: 0,
        d: 1,
        port,
    }
}

const EIGHT: &str =
    "127.0.0.1:1,127.0.0.1:2,127.0.0.1:3,127.0.0.1:4,127.0.0.1:5,127.0.0.1:6,127.0.0.1:7,127.0.0.1:8";

const NINE: &str =
    "127.0.0.1:1,127.0.0.1:2,127.0.0.1:3,127.0.0.1:4,127.0.0.1:5,127.0.0.1:6,127.0.0.1:7,127.0.0.1:8,127.0.0.1:9";

#[test]
fn words_give_what_a_trace_is_played_with(rt: HostRuntime) {
    let none = [].as_slice();
    let two = [at(1), at(65_535)];
    let eight = [at(1), at(2), at(3), at(4), at(5), at(6), at(7), at(8)];
    for (what, words, (number, disk, lenders)) in [
        ("defaults", [].as_slice(), (1, None, none)),
        (
            "all",
            [
                "--tcp",
                "127.0.0.1:1,127.0.0.1:65535",
                "--disk=a b",
                "--number",
                "18446744073709551615",
            ]
            .as_slice(),
            (u64::MAX, Some("a b"), two.as_slice()),
        ),
        ("no path", ["--disk", ""].as_slice(), (1, Some(""), none)),
        (
            "eight lenders",
            ["--tcp", EIGHT].as_slice(),
            (1, None, eight.as_slice()),
        ),
    ] {
        let Ok(options) = read_play(rt.alloc(), words) else {
            assert!(rt; false, "at {what:?}");
            return;
        };
        assert_eq!(rt; options.number, number, "at {what:?}");
        assert_eq!(rt; options.disk, disk, "at {what:?}");
        assert_eq!(rt; options.tcp.is_some(), !lenders.is_empty(), "at {what:?}");
        if let Some(tcp) = &options.tcp {
            assert_eq!(rt; tcp.as_slice(), lenders, "at {what:?}");
        }
    }
}

#[test]
fn other_words_play_nothing(rt: HostRuntime) {
    for words in [
        ["--number"].as_slice(),
        ["--number", "01"].as_slice(),
        ["--number", "18446744073709551616"].as_slice(),
        ["--number", "1", "--number", "1"].as_slice(),
        ["--disk"].as_slice(),
        ["--disk", "a", "--disk", "b"].as_slice(),
        ["--tcp", ""].as_slice(),
        ["--tcp", "127.0.0.1:1,"].as_slice(),
        ["--tcp", "127.0.0.1:1, 127.0.0.1:2"].as_slice(),
        ["--tcp", "127.0.0.1"].as_slice(),
        ["--tcp", NINE].as_slice(),
        ["--tcp", "127.0.0.1:1", "--tcp", "127.0.0.1:2"].as_slice(),
        ["--help"].as_slice(),
        ["--version"].as_slice(),
        ["a"].as_slice(),
    ] {
        let refused = matches!(read_play(rt.alloc(), words), Err(OptionsRefused::Usage));
        assert!(rt; refused, "at {words:?}");
    }
}
