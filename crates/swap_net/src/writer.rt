use crate::post::Order;
use std::alloc::Global;
use std::io::{BufWriter, Write};
use std::net::{Net, Shutdown, SocketAddr, TcpListener, TcpStream};
use std::sync::Wait;
use std::thread;
use std::time::Duration;
use swap_base::Link;
use swap_ends::{Bell, End, SharedBell};
use swap_wire::FrameBuf;

/// How many seconds a connection, and a write to a peer that doesn't read, may take.
const SECONDS: u64 = 5;

/// How many bytes of frames are gathered at most before they are written.
const GATHERED: usize = 65_536;

/// How often the writer looks for an order before it sleeps. A thread that sleeps takes longer to
/// wake than most orders take to come.
const LOOKS: u32 = 64;

/// A link's stream for the reader; none where there is no connection.
pub(crate) type Opened = (Link, Option<TcpStream>);

/// The link that is open, and its stream with the frames that are gathered.
type Open = Option<(Link, BufWriter<TcpStream>)>;

/// What the writer has to do with.
#[derive(Drop)]
pub(crate) struct Desk {
    pub(crate) alloc: Global,
    pub(crate) orders: End<Order>,
    pub(crate) spare: End<FrameBuf>,
    pub(crate) streams: End<Opened>,
    pub(crate) reader: SharedBell,
}

/// Connects, writes frames and ends links, until it is told to stop. Frames that wait together are
/// written together; one that is alone is written at once.
pub(crate) fn write<R>(rt: &R, address: SocketAddr, mut desk: Desk, bell: &Bell)
where
    R: Wait + Net<Stream = TcpStream, Listener = TcpListener>,
{
    let mut open: Open = None;
    let mut looks = 0;
    for _ in rt.forever() {
        if bell.has_stopped() {
            shut(open);
            return;
        }
        match desk.orders.pop(rt) {
            Some(Order::Connect(link)) => {
                shut(open);
                open = connect(rt, desk.alloc, address, link);
                let theirs = match &open {
                    Some((_, stream)) => stream.get_ref().try_clone().ok(),
                    None => None,
                };
                hand_over(rt, &mut desk, bell, (link, theirs));
            }
            Some(Order::Frame(link, frame)) => {
                gather(&mut open, link, &frame);
                let _ = desk.spare.push(rt, frame);
                looks = 0;
            }
            Some(Order::End(_)) => {
                shut(open);
                open = None;
            }
            None => {
                write_out(&mut open);
                looks = rest(rt, bell, looks);
            }
        }
    }
    unreachable!()
}

/// Lets other threads go first, or sleeps where it was looked often enough; how often by now.
fn rest<R: Wait>(rt: &R, bell: &Bell, looks: u32) -> u32 {
    if looks < LOOKS {
        thread::yield_now();
        return looks + 1;
    }
    bell.wait(rt);
    0
}

/// Gives a stream to the reader; where the queue is full it tries again, until it is told to stop.
fn hand_over<R: Wait>(rt: &R, desk: &mut Desk, bell: &Bell, opened: Opened) {
    let mut kept = opened;
    for _ in rt.forever() {
        match desk.streams.push(rt, kept) {
            Ok(()) => break,
            Err(refused) => kept = refused,
        }
        if bell.has_stopped() {
            break;
        }
        thread::yield_now();
    }
    desk.reader.ring();
}

/// Gathers a frame of the link that is open.
fn gather(open: &mut Open, link: Link, frame: &FrameBuf) {
    if let Some((standing, stream)) = open {
        if standing.0 == link.0 && stream.write_all(frame.bytes()).is_err() {
            let _ = stream.get_ref().shutdown(Shutdown::Both);
        }
    }
}

/// Writes what is gathered. A write that fails shuts the stream, so that its reader comes to the
/// end.
fn write_out(open: &mut Open) {
    if let Some((_, stream)) = open {
        if stream.flush().is_err() {
            let _ = stream.get_ref().shutdown(Shutdown::Both);
        }
    }
}

fn connect<R>(rt: &R, alloc: Global, address: SocketAddr, link: Link) -> Open
where
    R: Net<Stream = TcpStream, Listener = TcpListener>,
{
    let stream = TcpStream::connect_timeout(rt, &address, Duration::from_secs(SECONDS)).ok()?;
    stream.set_nodelay(true).ok()?;
    stream
        .set_write_timeout(Some(Duration::from_secs(SECONDS)))
        .ok()?;
    let stream = BufWriter::with_capacity(alloc, GATHERED, stream).ok()?;
    Some((link, stream))
}

/// Writes what is gathered and ends the stream, so that its reader comes to the end too.
fn shut(mut open: Open) {
    write_out(&mut open);
    if let Some((_, stream)) = open {
        let _ = stream.get_ref().shutdown(Shutdown::Both);
    }
}
