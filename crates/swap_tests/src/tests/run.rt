//! What no clause says: the worked examples by name, what goes wrong at the streams, and texts at
//! fault.

use std::alloc::Global;
use std::process::Abort;
use std::str;
use std::test::Fail;
use swap_io::{MemSink, MemSource};
use swap_run::run_lab;

/// The number of the call that fails, at each stream.
#[derive(Clone, Copy, Debug)]
struct Failing {
    read: u32,
    out: u32,
    err: u32,
}

const NEVER: u32 = u32::MAX;

const NONE: Failing = Failing {
    read: NEVER,
    out: NEVER,
    err: NEVER,
};

/// What a call gave.
#[derive(Debug, Drop)]
struct Ran {
    status: u8,
    out: MemSink,
    err: MemSink,
}

fn run(alloc: Global, words: &[&str], text: &str, failing: Failing) -> Result<Ran, Fail> {
    let text = text.as_bytes().to_vec(alloc)?;
    let mut source = MemSource::make(text, vec![in alloc; failing.read]?);
    let mut out = MemSink::make(alloc, 1000, vec![in alloc; failing.out]?)?;
    let mut err = MemSink::make(alloc, 1000, vec![in alloc; failing.err]?)?;
    let status = run_lab(alloc, words, &mut source, &mut out, &mut err);
    Ok(Ran { status, out, err })
}

fn run_script(alloc: Global, text: &str, failing: Failing) -> Result<Ran, Fail> {
    run(alloc, &["script"], text, failing)
}

/// Compares what a call gave with what is wanted on `out`, on `err` and as its status.
fn judge(rt: &impl Abort, name: &str, ran: &Ran, want: (&str, &str, u8)) -> Result<(), Fail> {
    let (out, err, status) = want;
    assert_eq!(rt; str::from_utf8(ran.out.bytes())?, out, "out of {name}");
    assert_eq!(rt; str::from_utf8(ran.err.bytes())?, err, "err of {name}");
    assert_eq!(rt; ran.status, status, "status of {name}");
    Ok(())
}

/// Scripts by name, what they give on `out`, and their status; nothing is on `err`.
const QUEUE: [(&str, &str, &str, u8); 5] = [
    (
        "header_alone",
        "geometry 8 4 2 4 2 4 20\n",
        "geometry 8 4 2 4 2 4 20\nend 0\n",
        0,
    ),
    (
        "zeros_before_any_page_out",
        "geometry 8 4 2 4 2 4 20\nin 0 5\n",
        "geometry 8 4 2 4 2 4 20\n\
         in 0 5 = entry 0 in 5 of none zero 00\n\
         end 1\n",
        0,
    ),
    (
        "page_in_of_the_last_page",
        "geometry 8 4 2 4 2 4 20\nin 0 7\n",
        "geometry 8 4 2 4 2 4 20\n\
         in 0 7 = entry 0 in 7 of none zero 00\n\
         end 1\n",
        0,
    ),
    (
        "page_in_from_the_queue",
        "geometry 8 4 2 4 2 4 20\nout 0 3 aa\nin 0 3\n",
        "geometry 8 4 2 4 2 4 20\n\
         out 0 3 = entry 0 out 3 aa\n\
         in 0 3 = entry 1 in 3 of 0 queue aa\n\
         end 2\n",
        0,
    ),
    (
        "pattern_is_printed_shortest",
        "geometry 8 4 2 4 2 4 20\nout 0 0 0101\n",
        "geometry 8 4 2 4 2 4 20\n\
         out 0 0 = entry 0 out 0 01\n\
         end 1\n",
        0,
    ),
];

/// The same, of what the disk does.
const DISK: [(&str, &str, &str, u8); 8] = [
    (
        "page_in_from_the_disk",
        "geometry 8 4 2 4 2 4 20\nout 0 3 aa\nstart\ndisk write 3 ok\nin 0 3\ndisk read 0 ok\nfinish 0\n",
        "geometry 8 4 2 4 2 4 20\n\
         out 0 3 = entry 0 out 3 aa\n\
         start = write 3 0\n\
         disk write 3 ok = written 0\n\
         in 0 3 = wait disk\n\
         disk read 0 ok = came 3\n\
         finish 0 = entry 1 in 3 of 0 disk aa\n\
         end 2\n",
        0,
    ),
    (
        "second_page_out_replaces_the_copy_in_a_queue_of_one",
        "geometry 8 4 2 1 2 4 20\nout 0 3 aa\nout 0 3 bb\nstart\ndisk write 3 ok\nstart\n",
        "geometry 8 4 2 1 2 4 20\n\
         out 0 3 = entry 0 out 3 aa\n\
         out 0 3 = entry 1 out 3 bb\n\
         start = write 3 1\n\
         disk write 3 ok = written 1\n\
         start = -\n\
         end 2\n",
        0,
    ),
    (
        "page_out_while_the_older_copy_is_being_written",
        "geometry 8 4 2 2 2 4 20\nout 0 3 aa\nstart\nout 0 3 bb\ndisk write 3 ok\nin 1 3\nstart\n",
        "geometry 8 4 2 2 2 4 20\n\
         out 0 3 = entry 0 out 3 aa\n\
         start = write 3 0\n\
         out 0 3 = entry 1 out 3 bb\n\
         disk write 3 ok = written 0\n\
         in 1 3 = entry 2 in 3 of 1 queue bb\n\
         start = write 3 1\n\
         end 3\n",
        0,
    ),
    (
        "page_out_without_room_fails_where_a_write_failed",
        "geometry 8 4 2 1 2 4 20\nout 0 1 aa\nstart\nout 1 2 bb\ndisk write 1 bad\nfinish 1\nin 0 1\n",
        "geometry 8 4 2 1 2 4 20\n\
         out 0 1 = entry 0 out 1 aa\n\
         start = write 1 0\n\
         out 1 2 = room\n\
         disk write 1 bad = kept 0\n\
         finish 1 = entry 1 fault out 2 0 1 bb\n\
         in 0 1 = entry 2 in 1 of 0 queue aa\n\
         end 3\n",
        1,
    ),
    (
        "caller_waits_for_room",
        "geometry 8 4 2 1 2 4 20\nout 0 1 aa\nstart\nout 1 2 bb\nin 1 3\nfinish 0\nfinish 1\ndisk write 1 ok\nfinish 1\n",
        "geometry 8 4 2 1 2 4 20\n\
         out 0 1 = entry 0 out 1 aa\n\
         start = write 1 0\n\
         out 1 2 = room\n\
         in 1 3 = busy\n\
         finish 0 = idle\n\
         finish 1 = room\n\
         disk write 1 ok = written 0\n\
         finish 1 = entry 1 out 2 bb\n\
         end 2\n",
        0,
    ),
    (
        "failed_disk_read_fails_the_page_in",
        "geometry 8 4 2 4 2 4 20\nout 0 3 aa\nstart\ndisk write 3 ok\nin 0 3\ndisk read 0 bad\nfinish 0\n",
        "geometry 8 4 2 4 2 4 20\n\
         out 0 3 = entry 0 out 3 aa\n\
         start = write 3 0\n\
         disk write 3 ok = written 0\n\
         in 0 3 = wait disk\n\
         disk read 0 bad = failed 3\n\
         finish 0 = entry 1 fault in 3 0 1\n\
         end 2\n",
        1,
    ),
    (
        "failed_disk_read_with_a_newer_page_out",
        "geometry 8 4 2 4 2 4 20\nout 0 3 aa\nstart\ndisk write 3 ok\nin 0 3\ndisk read 0 bad\nout 1 3 bb\nfinish 0\n",
        "geometry 8 4 2 4 2 4 20\n\
         out 0 3 = entry 0 out 3 aa\n\
         start = write 3 0\n\
         disk write 3 ok = written 0\n\
         in 0 3 = wait disk\n\
         disk read 0 bad = failed 3\n\
         out 1 3 = entry 1 out 3 bb\n\
         finish 0 = entry 2 in 3 of 1 queue bb\n\
         end 3\n",
        0,
    ),
    (
        "read_overtaken_by_a_page_out_already_on_the_disk",
        "geometry 8 4 2 4 2 4 20\n\
         out 0 3 aa\n\
         start\n\
         disk write 3 ok\n\
         in 0 3\n\
         out 1 3 bb\n\
         start\n\
         disk read 0 ok\n\
         disk write 3 ok\n\
         finish 0\n\
         disk read 0 ok\n\
         finish 0\n",
        "geometry 8 4 2 4 2 4 20\n\
         out 0 3 = entry 0 out 3 aa\n\
         start = write 3 0\n\
         disk write 3 ok = written 0\n\
         in 0 3 = wait disk\n\
         out 1 3 = entry 1 out 3 bb\n\
         start = write 3 1\n\
         disk read 0 ok = came 3\n\
         disk write 3 ok = written 1\n\
         finish 0 = again disk\n\
         disk read 0 ok = came 3\n\
         finish 0 = entry 2 in 3 of 1 disk bb\n\
         end 3\n",
        0,
    ),
];

/// Scripts with a lender.
const LENDER: [(&str, &str, &str, u8); 3] = [
    (
        "page_in_from_a_lender",
        "geometry 8 4 2 4 2 4 20\nlender 4 1 1\nconnect 0\nmap 0 0\ngive 0\ngive 0\ntake 0\nout 0 3 aa\ngive 0\ntake 0\nstart\ndisk write 3 ok\nin 0 3\ngive 0\ntake 0\nfinish 0\n",
        "geometry 8 4 2 4 2 4 20\n\
         lender 4 1 1\n\
         connect 0 = link 0\n\
         map 0 0 = borrow\n\
         give 0 = hello 1\n\
         give 0 = borrow 0 > lent 0 0\n\
         take 0 = lent 0 0\n\
         out 0 3 = entry 0 out 3 aa to 0\n\
         give 0 = write 0 3 > wrote 0 3\n\
         take 0 = wrote 0 3\n\
         start = write 3 0\n\
         disk write 3 ok = written 0\n\
         in 0 3 = wait lender 0\n\
         give 0 = read 0 3 > page 0 3\n\
         take 0 = page 0 3\n\
         finish 0 = entry 1 in 3 of 0 lender 0 aa\n\
         end 2\n",
        0,
    ),
    (
        "page_out_between_request_and_reply_of_a_read",
        "geometry 8 4 2 4 2 4 20\nlender 4 1 1\nconnect 0\nmap 0 0\ngive 0\ngive 0\ntake 0\nout 0 3 aa\ngive 0\ntake 0\nstart\ndisk write 3 ok\nin 0 3\nout 1 3 bb\ngive 0\ntake 0\nfinish 0\n",
        "geometry 8 4 2 4 2 4 20\n\
         lender 4 1 1\n\
         connect 0 = link 0\n\
         map 0 0 = borrow\n\
         give 0 = hello 1\n\
         give 0 = borrow 0 > lent 0 0\n\
         take 0 = lent 0 0\n\
         out 0 3 = entry 0 out 3 aa to 0\n\
         give 0 = write 0 3 > wrote 0 3\n\
         take 0 = wrote 0 3\n\
         start = write 3 0\n\
         disk write 3 ok = written 0\n\
         in 0 3 = wait lender 0\n\
         out 1 3 = entry 1 out 3 bb to 0\n\
         give 0 = read 0 3 > page 0 3\n\
         take 0 = page 0 3\n\
         finish 0 = entry 2 in 3 of 1 queue bb\n\
         end 3\n",
        0,
    ),
    (
        "page_out_into_a_full_window_leaves_the_bit_clear",
        "geometry 8 4 2 4 2 1 20\nlender 4 1 1\nconnect 0\nmap 0 0\ngive 0\ngive 0\ntake 0\nout 0 3 aa\nout 0 3 bb\ngive 0\ntake 0\nstart\ndisk write 3 ok\nin 0 3\ndisk read 0 ok\nfinish 0\n",
        "geometry 8 4 2 4 2 1 20\n\
         lender 4 1 1\n\
         connect 0 = link 0\n\
         map 0 0 = borrow\n\
         give 0 = hello 1\n\
         give 0 = borrow 0 > lent 0 0\n\
         take 0 = lent 0 0\n\
         out 0 3 = entry 0 out 3 aa to 0\n\
         out 0 3 = entry 1 out 3 bb\n\
         give 0 = write 0 3 > wrote 0 3\n\
         take 0 = wrote 0 3\n\
         start = write 3 1\n\
         disk write 3 ok = written 1\n\
         in 0 3 = wait disk\n\
         disk read 0 ok = came 3\n\
         finish 0 = entry 2 in 3 of 1 disk bb\n\
         end 3\n",
        0,
    ),
];

/// Scripts with links that are cut, ended by a crash and made anew, and with two lenders.
const LINKS: [(&str, &str, &str, u8); 9] = [
    (
        "loss_after_the_reply_was_sent",
        "geometry 8 4 2 4 2 4 20\n\
         lender 4 1 1\n\
         connect 0\n\
         map 0 0\n\
         give 0\n\
         give 0\n\
         take 0\n\
         out 0 3 aa\n\
         give 0\n\
         take 0\n\
         start\n\
         disk write 3 ok\n\
         in 0 3\n\
         give 0\n\
         cut 0 0 1\n\
         take 0\n\
         take 0\n\
         finish 0\n",
        "geometry 8 4 2 4 2 4 20\n\
         lender 4 1 1\n\
         connect 0 = link 0\n\
         map 0 0 = borrow\n\
         give 0 = hello 1\n\
         give 0 = borrow 0 > lent 0 0\n\
         take 0 = lent 0 0\n\
         out 0 3 = entry 0 out 3 aa to 0\n\
         give 0 = write 0 3 > wrote 0 3\n\
         take 0 = wrote 0 3\n\
         start = write 3 0\n\
         disk write 3 ok = written 0\n\
         in 0 3 = wait lender 0\n\
         give 0 = read 0 3 > page 0 3\n\
         cut 0 0 1 = cut\n\
         take 0 = page 0 3\n\
         take 0 = lost\n\
         finish 0 = entry 1 in 3 of 0 lender 0 aa\n\
         end 2\n",
        0,
    ),
    (
        "loss_of_the_reply_sends_the_read_to_the_disk",
        "geometry 8 4 2 4 2 4 20\n\
         lender 4 1 1\n\
         connect 0\n\
         map 0 0\n\
         give 0\n\
         give 0\n\
         take 0\n\
         out 0 3 aa\n\
         give 0\n\
         take 0\n\
         start\n\
         disk write 3 ok\n\
         in 0 3\n\
         give 0\n\
         cut 0 0 0\n\
         take 0\n\
         finish 0\n\
         disk read 0 ok\n\
         finish 0\n",
        "geometry 8 4 2 4 2 4 20\n\
         lender 4 1 1\n\
         connect 0 = link 0\n\
         map 0 0 = borrow\n\
         give 0 = hello 1\n\
         give 0 = borrow 0 > lent 0 0\n\
         take 0 = lent 0 0\n\
         out 0 3 = entry 0 out 3 aa to 0\n\
         give 0 = write 0 3 > wrote 0 3\n\
         take 0 = wrote 0 3\n\
         start = write 3 0\n\
         disk write 3 ok = written 0\n\
         in 0 3 = wait lender 0\n\
         give 0 = read 0 3 > page 0 3\n\
         cut 0 0 0 = cut\n\
         take 0 = lost\n\
         finish 0 = again disk\n\
         disk read 0 ok = came 3\n\
         finish 0 = entry 1 in 3 of 0 disk aa\n\
         end 2\n",
        0,
    ),
    (
        "crash_with_the_loss_unread",
        "geometry 8 4 2 4 2 4 20\n\
         lender 4 1 1\n\
         connect 0\n\
         map 0 0\n\
         give 0\n\
         give 0\n\
         take 0\n\
         out 0 3 aa\n\
         give 0\n\
         take 0\n\
         start\n\
         disk write 3 ok\n\
         crash 0\n\
         in 0 3\n\
         connect 0\n\
         finish 0\n\
         map 0 0\n\
         give 0\n\
         give 0\n\
         take 0\n\
         disk read 0 ok\n\
         finish 0\n",
        "geometry 8 4 2 4 2 4 20\n\
         lender 4 1 1\n\
         connect 0 = link 0\n\
         map 0 0 = borrow\n\
         give 0 = hello 1\n\
         give 0 = borrow 0 > lent 0 0\n\
         take 0 = lent 0 0\n\
         out 0 3 = entry 0 out 3 aa to 0\n\
         give 0 = write 0 3 > wrote 0 3\n\
         take 0 = wrote 0 3\n\
         start = write 3 0\n\
         disk write 3 ok = written 0\n\
         crash 0 = crashed\n\
         in 0 3 = wait lender 0\n\
         connect 0 = link 1\n\
         finish 0 = again disk\n\
         map 0 0 = borrow\n\
         give 0 = hello 1\n\
         give 0 = borrow 0 > lent 0 0\n\
         take 0 = lent 0 0\n\
         disk read 0 ok = came 3\n\
         finish 0 = entry 1 in 3 of 0 disk aa\n\
         end 2\n",
        0,
    ),
    (
        "links_are_cut_and_made_anew",
        "geometry 8 4 2 4 2 4 20\n\
         lender 4 1 1\n\
         lender 4 1 1\n\
         cut 1 0 0\n\
         crash 1\n\
         connect 0\n\
         connect 1\n\
         map 0 1\n\
         cut 1 1 0\n\
         cut 1 1 0\n\
         give 1\n\
         give 1\n\
         take 1\n\
         connect 1\n\
         map 0 1\n\
         give 1\n\
         give 1\n\
         take 1\n\
         map 1 0\n\
         out 0 3 aa\n\
         out 0 7 bb\n\
         crash 0\n\
         take 0\n\
         connect 0\n\
         map 1 0\n",
        "geometry 8 4 2 4 2 4 20\n\
         lender 4 1 1\n\
         lender 4 1 1\n\
         cut 1 0 0 = -\n\
         crash 1 = crashed\n\
         connect 0 = link 0\n\
         connect 1 = link 1\n\
         map 0 1 = borrow\n\
         cut 1 1 0 = cut\n\
         cut 1 1 0 = -\n\
         give 1 = hello 1\n\
         give 1 = end\n\
         take 1 = lost\n\
         connect 1 = link 2\n\
         map 0 1 = borrow\n\
         give 1 = hello 1\n\
         give 1 = borrow 0 > lent 0 0\n\
         take 1 = lent 0 0\n\
         map 1 0 = borrow\n\
         out 0 3 = entry 0 out 3 aa to 1\n\
         out 0 7 = entry 1 out 7 bb\n\
         crash 0 = crashed\n\
         take 0 = lost\n\
         connect 0 = link 3\n\
         map 1 0 = borrow\n\
         end 2\n",
        0,
    ),
    (
        "usual_size_last_page",
        "geometry 4096 1024 16 256 4 32 20\n\
         lender 8 2 2\n\
         lender 8 2 2\n\
         out 3 16383 0102\n\
         in 0 16383\n",
        "geometry 4096 1024 16 256 4 32 20\n\
         lender 8 2 2\n\
         lender 8 2 2\n\
         out 3 16383 = entry 0 out 16383 0102\n\
         in 0 16383 = entry 1 in 16383 of 0 queue 0102\n\
         end 2\n",
        0,
    ),
    (
        "two_lenders_are_asked_and_the_freer_lends",
        "geometry 8 4 2 4 2 4 1\n\
         lender 4 1 1\n\
         lender 6 1 1\n\
         connect 0\n\
         connect 1\n\
         in 0 0\n\
         in 0 0\n\
         in 0 0\n\
         in 0 0\n\
         in 0 0\n\
         tick 0\n\
         give 0\n\
         give 0\n\
         give 1\n\
         give 1\n\
         take 0\n\
         take 1\n\
         give 1\n\
         take 1\n\
         out 0 0 aa\n",
        "geometry 8 4 2 4 2 4 1\n\
         lender 4 1 1\n\
         lender 6 1 1\n\
         connect 0 = link 0\n\
         connect 1 = link 1\n\
         in 0 0 = entry 0 in 0 of none zero 00\n\
         in 0 0 = entry 1 in 0 of none zero 00\n\
         in 0 0 = entry 2 in 0 of none zero 00\n\
         in 0 0 = entry 3 in 0 of none zero 00\n\
         in 0 0 = entry 4 in 0 of none zero 00\n\
         tick 0 = ask 0 0 1\n\
         give 0 = hello 1\n\
         give 0 = query 0 > room 0 3\n\
         give 1 = hello 1\n\
         give 1 = query 0 > room 0 5\n\
         take 0 = room 0 3\n\
         take 1 = room 0 5\n\
         give 1 = borrow 0 > lent 0 0\n\
         take 1 = lent 0 0\n\
         out 0 0 = entry 5 out 0 aa to 1\n\
         end 6\n",
        0,
    ),
    (
        "revocation_with_read_and_write_in_flight",
        "geometry 8 4 2 4 2 4 20\n\
         lender 3 1 0\n\
         connect 0\n\
         map 0 0\n\
         give 0\n\
         give 0\n\
         take 0\n\
         out 0 3 aa\n\
         give 0\n\
         take 0\n\
         start\n\
         disk write 3 ok\n\
         host 0 10 0\n\
         take 0\n\
         give 0\n\
         in 0 3\n\
         out 1 2 bb\n\
         take 0\n\
         give 0\n\
         give 0\n\
         give 0\n\
         take 0\n\
         give 0\n\
         take 0\n\
         give 0\n\
         finish 0\n\
         in 0 3\n\
         disk read 0 ok\n\
         finish 0\n\
         host 0 0 0\n\
         host 0 0 0\n\
         host 0 0 0\n\
         host 0 0 0\n\
         map 0 0\n\
         give 0\n\
         take 0\n",
        "geometry 8 4 2 4 2 4 20\n\
         lender 3 1 0\n\
         connect 0 = link 0\n\
         map 0 0 = borrow\n\
         give 0 = hello 1\n\
         give 0 = borrow 0 > lent 0 0\n\
         take 0 = lent 0 0\n\
         out 0 3 = entry 0 out 3 aa to 0\n\
         give 0 = write 0 3 > wrote 0 3\n\
         take 0 = wrote 0 3\n\
         start = write 3 0\n\
         disk write 3 ok = written 0\n\
         host 0 10 0 = 2 ask 0\n\
         take 0 = ask 0\n\
         give 0 = rates 0 0 evict 0\n\
         in 0 3 = wait lender 0\n\
         out 1 2 = entry 1 out 2 bb to 0\n\
         take 0 = evict 0\n\
         give 0 = read 0 3 > page 0 3\n\
         give 0 = write 0 2 > wrote 0 2\n\
         give 0 = -\n\
         take 0 = page 0 3\n\
         give 0 = -\n\
         take 0 = wrote 0 2\n\
         give 0 = done 0\n\
         finish 0 = entry 2 in 3 of 0 lender 0 aa\n\
         in 0 3 = wait disk\n\
         disk read 0 ok = came 3\n\
         finish 0 = entry 3 in 3 of 0 disk aa\n\
         host 0 0 0 = 2\n\
         host 0 0 0 = 2\n\
         host 0 0 0 = 2\n\
         host 0 0 0 = 1\n\
         map 0 0 = borrow\n\
         give 0 = borrow 0 > lent 0 1\n\
         take 0 = lent 0 1\n\
         end 4\n",
        0,
    ),
    (
        "lender_lends_while_it_has_room",
        "geometry 8 4 4 4 2 4 20\n\
         lender 4 1 0\n\
         connect 0\n\
         host 0 1 0\n\
         map 0 0\n\
         map 1 0\n\
         map 2 0\n\
         give 0\n\
         give 0\n\
         give 0\n\
         give 0\n",
        "geometry 8 4 4 4 2 4 20\n\
         lender 4 1 0\n\
         connect 0 = link 0\n\
         host 0 1 0 = 1\n\
         map 0 0 = borrow\n\
         map 1 0 = borrow\n\
         map 2 0 = borrow\n\
         give 0 = hello 1\n\
         give 0 = borrow 0 > lent 0 0\n\
         give 0 = borrow 1 > lent 1 1\n\
         give 0 = borrow 2 > refused 2\n\
         end 0\n",
        0,
    ),
    (
        "hot_slab_is_placed_by_a_round",
        "geometry 8 4 2 4 2 4 1\n\
         lender 4 1 1\n\
         lender 6 1 1\n\
         connect 0\n\
         connect 1\n\
         in 0 0\n\
         in 0 0\n\
         in 0 0\n\
         in 0 0\n\
         in 0 0\n\
         round 0\n\
         out 0 0 aa\n",
        "geometry 8 4 2 4 2 4 1\n\
         lender 4 1 1\n\
         lender 6 1 1\n\
         connect 0 = link 0\n\
         connect 1 = link 1\n\
         in 0 0 = entry 0 in 0 of none zero 00\n\
         in 0 0 = entry 1 in 0 of none zero 00\n\
         in 0 0 = entry 2 in 0 of none zero 00\n\
         in 0 0 = entry 3 in 0 of none zero 00\n\
         in 0 0 = entry 4 in 0 of none zero 00\n\
         round 0 = 9 mapped 1\n\
         out 0 0 = entry 5 out 0 aa to 1\n\
         end 6\n",
        0,
    ),
];

/// Texts by name that are no scripts, and what is on `err`.
const REFUSED: [(&str, &str, &str); 4] = [
    ("empty_text", "", "line 1: geometry\n"),
    (
        "page_bytes_not_a_power_of_two",
        "geometry 12 4 2 4 2 4 20\n",
        "line 1: page_bytes\n",
    ),
    (
        "page_out_of_range",
        "geometry 8 4 2 4 2 4 20\nin 0 7\nin 0 8\n",
        "line 3: page\n",
    ),
    (
        "pattern_of_three_bytes",
        "geometry 8 4 2 4 2 4 20\nout 0 0 aabbcc\n",
        "line 2: pattern\n",
    ),
];

#[test]
fn queue_rows(rt: HostRuntime) -> Result<(), Fail> {
    for (name, text, out, status) in QUEUE {
        let ran = run_script(rt.alloc(), text, NONE)?;
        judge(&rt, name, &ran, (out, "", status))?;
    }
    Ok(())
}

#[test]
fn disk_rows(rt: HostRuntime) -> Result<(), Fail> {
    for (name, text, out, status) in DISK {
        let ran = run_script(rt.alloc(), text, NONE)?;
        judge(&rt, name, &ran, (out, "", status))?;
    }
    Ok(())
}

#[test]
fn lender_rows(rt: HostRuntime) -> Result<(), Fail> {
    for (name, text, out, status) in LENDER {
        let ran = run_script(rt.alloc(), text, NONE)?;
        judge(&rt, name, &ran, (out, "", status))?;
    }
    Ok(())
}

#[test]
fn link_rows(rt: HostRuntime) -> Result<(), Fail> {
    for (name, text, out, status) in LINKS {
        let ran = run_script(rt.alloc(), text, NONE)?;
        judge(&rt, name, &ran, (out, "", status))?;
    }
    Ok(())
}

#[test]
fn refused_rows(rt: HostRuntime) -> Result<(), Fail> {
    for (name, text, err) in REFUSED {
        let ran = run_script(rt.alloc(), text, NONE)?;
        judge(&rt, name, &ran, ("", err, 5))?;
    }
    Ok(())
}

const PAGED: &str = "geometry 8 4 2 4 2 4 20\nout 0 3 aa\nin 0 3\n";

/// What `out` holds of that script's transcript where its call of a number fails.
const FRONTS: [(u32, &str); 4] = [
    (0, ""),
    (1, "geometry 8 4 2 4 2 4 20\n"),
    (2, "geometry 8 4 2 4 2 4 20\nout 0 3 = entry 0 out 3 aa\n"),
    (
        3,
        "geometry 8 4 2 4 2 4 20\nout 0 3 = entry 0 out 3 aa\nin 0 3 = entry 1 in 3 of 0 queue aa\n",
    ),
];

#[test]
fn a_source_that_fails_leaves_out_empty(rt: HostRuntime) -> Result<(), Fail> {
    for (read, name) in [(0, "read 0"), (1, "read 1")] {
        let ran = run_script(rt.alloc(), PAGED, Failing { read, ..NONE })?;
        judge(&rt, name, &ran, ("", "read failed\n", 3))?;
    }
    Ok(())
}

#[test]
fn a_read_that_is_not_made_does_not_fail(rt: HostRuntime) -> Result<(), Fail> {
    let ran = run_script(rt.alloc(), PAGED, Failing { read: 2, ..NONE })?;
    let out =
        "geometry 8 4 2 4 2 4 20\nout 0 3 = entry 0 out 3 aa\nin 0 3 = entry 1 in 3 of 0 queue aa\nend 2\n";
    judge(&rt, "read 2", &ran, (out, "", 0))
}

#[test]
fn a_script_of_the_disk_breaks_off_at_its_second_event(rt: HostRuntime) -> Result<(), Fail> {
    let text =
        "geometry 8 4 2 4 2 4 20\nout 0 3 aa\nstart\ndisk write 3 ok\nin 0 3\ndisk read 0 ok\nfinish 0\n";
    let ran = run_script(rt.alloc(), text, Failing { out: 2, ..NONE })?;
    let front = "geometry 8 4 2 4 2 4 20\nout 0 3 = entry 0 out 3 aa\n";
    judge(&rt, "write 2", &ran, (front, "write failed\n", 4))
}

#[test]
fn a_sink_that_fails_holds_the_lines_before(rt: HostRuntime) -> Result<(), Fail> {
    for (out, front) in FRONTS {
        let ran = run_script(rt.alloc(), PAGED, Failing { out, ..NONE })?;
        judge(&rt, front, &ran, (front, "write failed\n", 4))?;
    }
    Ok(())
}

#[test]
fn an_err_that_fails_changes_nothing_else(rt: HostRuntime) -> Result<(), Fail> {
    let failing = Failing { err: 0, ..NONE };
    for (name, text, _) in REFUSED {
        let ran = run_script(rt.alloc(), text, failing)?;
        judge(&rt, name, &ran, ("", "", 5))?;
    }
    let ran = run_script(rt.alloc(), PAGED, Failing { read: 1, ..failing })?;
    judge(&rt, "read 1", &ran, ("", "", 3))?;
    for (out, front) in FRONTS {
        let ran = run_script(rt.alloc(), PAGED, Failing { out, ..failing })?;
        judge(&rt, front, &ran, (front, "", 4))?;
    }
    let ran = run(rt.alloc(), &[], PAGED, failing)?;
    judge(&rt, "no words", &ran, ("", "", 2))
}

/// What `err` holds of a refusal where its call of a number fails.
const PIECES: [(u32, &str); 5] = [
    (0, ""),
    (1, "line "),
    (2, "line 3"),
    (3, "line 3: "),
    (4, "line 3: page"),
];

#[test]
fn an_err_that_fails_in_a_refusal_holds_a_front(rt: HostRuntime) -> Result<(), Fail> {
    let text = "geometry 8 4 2 4 2 4 20\nin 0 7\nin 0 8\n";
    for (err, front) in PIECES {
        let ran = run_script(rt.alloc(), text, Failing { err, ..NONE })?;
        judge(&rt, front, &ran, ("", front, 5))?;
    }
    Ok(())
}

#[test]
fn other_words_are_told_the_usage(rt: HostRuntime) -> Result<(), Fail> {
    let usage = "usage: remswap script|check|drill|play|lend\n";
    for (name, words) in [
        ("none", [].as_slice()),
        ("an empty one", [""].as_slice()),
        ("twice", ["script", "script"].as_slice()),
        ("a capital", ["Script"].as_slice()),
        ("a space", ["script "].as_slice()),
        ("another", ["play"].as_slice()),
        ("no calls", ["drill", "7"].as_slice()),
        ("too many calls", ["drill", "7", "100001"].as_slice()),
        ("a leading zero", ["drill", "07", "1"].as_slice()),
        ("a word more", ["drill", "7", "1", "1"].as_slice()),
    ] {
        let ran = run(rt.alloc(), words, PAGED, NONE)?;
        judge(&rt, name, &ran, ("", usage, 2))?;
    }
    Ok(())
}

/// Texts, and what `err` is told of them.
const FAULTS: [(&str, &str); 23] = [
    ("\n# no header\n", "line 3: geometry\n"),
    ("geometry 8 4 2 4 2 4\n", "line 1: form\n"),
    ("#\ngeometry 16384 4 2 4 2 4 20\n", "line 2: page_bytes\n"),
    ("geometry 8 65537 1 4 2 4 20\n", "line 1: pages_per_slab\n"),
    ("geometry 8 4 4097 4 2 4 20\n", "line 1: slabs\n"),
    ("geometry 8 4 2 0 2 4 20\n", "line 1: queue\n"),
    ("geometry 8 4 2 4 0 4 20\n", "line 1: callers\n"),
    ("geometry 8 4 2 4 2 0 20\n", "line 1: window\n"),
    ("geometry 8 4 2 4 2 4 65536\n", "line 1: hot\n"),
    ("geometry 8 1024 1025 4 2 4 20\n", "line 1: pages\n"),
    ("geometry 4096 1024 65 4 2 4 20\n", "line 1: bytes\n"),
    ("geometry 8 4 2 4 2 4 20\nstart now\n", "line 2: form\n"),
    (
        "geometry 8 4 2 4 2 4 20\nlender 65 1 1\n",
        "line 2: slots\n",
    ),
    (
        "geometry 8 4 2 4 2 4 20\nlender 4 65 1\n",
        "line 2: headroom\n",
    ),
    (
        "geometry 8 4 2 4 2 4 20\nlender 4 1 65\n",
        "line 2: extra\n",
    ),
    (
        "geometry 8 4 2 4 2 4 20\nlender 4 1 1\nlender 4 1 1\nlender 4 1 1\nlender 4 1 1\n\
         lender 4 1 1\nlender 4 1 1\nlender 4 1 1\nlender 4 1 1\nlender 4 1 1\n",
        "line 10: lenders\n",
    ),
    (
        "geometry 4096 65536 1 4 2 4 20\nlender 1 1 1\nlender 1 1 1\nlender 1 1 1\n",
        "line 4: lent\n",
    ),
    (
        "geometry 8 4 2 4 2 4 20\nlender 4 1 1\nmap 2 1\n",
        "line 3: slab\n",
    ),
    (
        "geometry 8 4 2 4 2 4 20\nlender 4 1 1\nconnect 0\nconnect 0\nconnect 1\n",
        "line 5: lender\n",
    ),
    (
        "geometry 8 4 2 4 2 4 20\ndisk read 2 ok\n",
        "line 2: caller\n",
    ),
    (
        "geometry 8 4 2 4 2 4 20\nstart\ndisk write 8 ok\n",
        "line 3: page\n",
    ),
    (
        "geometry 8 4 2 4 2 4 20\n\nout 1 1 00112233445566778899aabbccddeeff\n",
        "line 3: pattern\n",
    ),
    (
        "geometry 8 4 2 4 2 4 20\nin 0 8\nout 2 0 aa\n",
        "line 2: page\n",
    ),
];

#[test]
fn each_fault_is_told_with_its_line(rt: HostRuntime) -> Result<(), Fail> {
    for (text, err) in FAULTS {
        let ran = run_script(rt.alloc(), text, NONE)?;
        judge(&rt, text, &ran, ("", err, 5))?;
    }
    Ok(())
}

#[test]
fn too_many_calls_are_told(rt: HostRuntime) -> Result<(), Fail> {
    let mut text = Vec::new(rt.alloc());
    text.extend_from_slice(b"geometry 4096 4 2 4 2 4 20\n")?;
    for _ in 0..262_145 {
        text.extend_from_slice(b"in 0 0\n")?;
    }
    let ran = run_script(rt.alloc(), str::from_utf8(&text)?, NONE)?;
    judge(&rt, "calls", &ran, ("", "line 262146: calls\n", 5))
}

/// Texts to check by name, what they give on `out` and on `err`, and the status.
const CHECKS: [(&str, &str, &str, &str, u8); 3] = [
    (
        "check_of_a_legal_transcript",
        "geometry 8 4 2 4 2 4 20\nout 0 3 = entry 0 out 3 aa\nin 0 3 = entry 1 in 3 of 0 queue aa\nend 2\n",
        "legal 2 entries\n",
        "",
        0,
    ),
    (
        "check_of_a_wrong_page",
        "geometry 8 4 2 4 2 4 20\nout 0 3 = entry 0 out 3 aa\nin 0 3 = entry 1 in 3 of 0 queue bb\nend 2\n",
        "not legal at entry 1\n",
        "",
        7,
    ),
    (
        "check_without_the_end_line",
        "geometry 8 4 2 4 2 4 20\nout 0 3 = entry 0 out 3 aa\nin 0 3 = entry 1 in 3 of 0 queue aa\n",
        "",
        "line 4: end\n",
        5,
    ),
];

#[test]
fn check_rows(rt: HostRuntime) -> Result<(), Fail> {
    for (name, text, out, err, status) in CHECKS {
        let ran = run(rt.alloc(), &["check"], text, NONE)?;
        judge(&rt, name, &ran, (out, err, status))?;
    }
    Ok(())
}

#[test]
fn a_check_tells_its_streams_failures(rt: HostRuntime) -> Result<(), Fail> {
    let text = "geometry 8 4 2 4 2 4 20\nend 0\n";
    let ran = run(rt.alloc(), &["check"], text, Failing { read: 0, ..NONE })?;
    judge(&rt, "read 0", &ran, ("", "read failed\n", 3))?;
    let ran = run(rt.alloc(), &["check"], text, Failing { out: 0, ..NONE })?;
    judge(&rt, "write 0", &ran, ("", "write failed\n", 4))?;
    let ran = run(rt.alloc(), &["check", "check"], text, NONE)?;
    judge(
        &rt,
        "twice",
        &ran,
        ("", "usage: remswap script|check|drill|play|lend\n", 2),
    )
}

#[test]
fn a_drill_prints_its_summary(rt: HostRuntime) -> Result<(), Fail> {
    let words = ["drill", "7", "0"];
    let summary = "drill 7 0\n\
                   entries 0 out 0 in 0 fault 0\n\
                   from zero 0 queue 0 disk 0 lender 0\n\
                   busy 0 waiting 0\n\
                   rounds 0 mapped 0\n\
                   end 0\n";
    let ran = run(rt.alloc(), &words, PAGED, NONE)?;
    judge(&rt, "drill_without_calls", &ran, (summary, "", 0))?;
    let ran = run(rt.alloc(), &words, PAGED, Failing { out: 0, ..NONE })?;
    judge(&rt, "write 0", &ran, ("", "write failed\n", 4))
}
