ghost use Rattle.std.specs.Prelude.{◌≡◌, ◌≤◌, length};

use crate::post::{Arrival, Item};
use crate::writer::Opened;
use std::alloc::Global;
use std::io::Read;
use std::net::{Shutdown, TcpStream};
use std::sync::Wait;
use swap_base::{Link, NoMemory};
use swap_ends::{Bell, End};
use swap_wire::{Decoder, Next, Side};

/// How many bytes are read at most at a time.
const READ_LENGTH: usize = 65_536;

/// What the reader has to do with.
#[derive(Drop)]
pub(crate) struct Desk {
    pub(crate) streams: End<Opened>,
    pub(crate) arrivals: End<Arrival>,
    pub(crate) pages: End<Vec<u8>>,
    pub(crate) page_bytes: u32,
    pub(crate) alloc: Global,
}

/// A decoder, and how long its pages are.
#[derive(Drop)]
struct Paged {
    decoder: Decoder,
    page_bytes: u32,
    ghost sized: { decoder.page_bytes ≡ page_bytes },
}

impl Paged {
    fn make(alloc: Global, page_bytes: u32) -> Result<Paged, NoMemory>
        requires { (8 ≤ page_bytes) × (page_bytes ≤ 4096) }
    {
        let decoder = Decoder::make(alloc, Side::Lender, page_bytes)?;
        Ok(Paged {
            decoder,
            page_bytes,
        })
    }

    /// The next message. A buffer of another length makes the stream bad.
    fn next(&mut self, page: &mut [u8]) -> Next {
        if page.len() != self.page_bytes as usize {
            return Next::Bad { at: 0 };
        }
        self.decoder.next(page)
    }

    fn feed(&mut self, bytes: &[u8]) -> usize
        ensures { result ≤ length bytes.now }
    {
        self.decoder.feed(bytes)
    }
}

/// Reads one link after another, until it is told to stop. Each link that was connected, or
/// couldn't be, ends with an item that says so.
pub(crate) fn read<R: Wait>(rt: &R, mut desk: Desk, bell: &Bell) {
    for _ in rt.forever() {
        if bell.has_stopped() {
            return;
        }
        match desk.streams.pop(rt) {
            Some((link, stream)) => {
                if let Some(mut stream) = stream {
                    read_link(rt, &mut desk, bell, link, &mut stream);
                    let _ = stream.shutdown(Shutdown::Both);
                }
                let page = Vec::new(desk.alloc);
                let item = Item::End;
                tell(rt, &mut desk, bell, Arrival { link, item, page });
            }
            None => bell.wait(rt),
        }
    }
    unreachable!()
}

/// Tells the port what arrived; where the queue is full it waits until the port takes, or it is
/// told to stop.
fn tell<R: Wait>(rt: &R, desk: &mut Desk, bell: &Bell, arrival: Arrival) {
    let mut kept = arrival;
    for _ in rt.forever() {
        match desk.arrivals.push(rt, kept) {
            Ok(()) => return,
            Err(refused) => kept = refused,
        }
        if bell.has_stopped() {
            return;
        }
        bell.wait(rt);
    }
    unreachable!()
}

/// Reads the frames of one link to its end, or to a place where none stands.
fn read_link<R: Wait>(rt: &R, desk: &mut Desk, bell: &Bell, link: Link, stream: &mut TcpStream) {
    if desk.page_bytes < 8 || desk.page_bytes > 4096 {
        return;
    }
    let Ok(mut decoder) = Paged::make(desk.alloc, desk.page_bytes) else {
        return;
    };
    let Ok(mut bytes) = vec![in desk.alloc; 0; READ_LENGTH] else {
        return;
    };
    for _ in rt.forever() {
        let Ok(n) = stream.read(&mut bytes) else {
            return;
        };
        if n == 0 || !hand_on(rt, desk, bell, link, &mut decoder, &bytes[..n]) {
            return;
        }
    }
    unreachable!()
}

/// A buffer of a page that the port gave back; none where it is told to stop.
fn spare_page<R: Wait>(rt: &R, desk: &mut Desk, bell: &Bell) -> Option<Vec<u8>> {
    for _ in rt.forever() {
        if let Some(page) = desk.pages.pop(rt) {
            return Some(page);
        }
        if bell.has_stopped() {
            return None;
        }
        bell.wait(rt);
    }
    unreachable!()
}

/// Decodes a piece and tells its messages; false where the stream is bad or the port is gone.
fn hand_on<R: Wait>(
    rt: &R,
    desk: &mut Desk,
    bell: &Bell,
    link: Link,
    decoder: &mut Paged,
    piece: &[u8],
) -> bool {
    let mut rest = piece;
    for _ in rt.forever() {
        let taken = decoder.feed(rest);
        rest = &rest[taken..];
        let Some(mut page) = spare_page(rt, desk, bell) else {
            return false;
        };
        match decoder.next(page.as_mut_slice()) {
            Next::Got(msg) => {
                let item = Item::Got(msg);
                tell(rt, desk, bell, Arrival { link, item, page });
            }
            Next::More => {
                let _ = desk.pages.push(rt, page);
                if rest.is_empty() {
                    return true;
                }
            }
            Next::Bad { .. } => {
                let _ = desk.pages.push(rt, page);
                return false;
            }
        }
    }
    unreachable!()
}
