ghost use Rattle.std.specs.Prelude.{◌≡◌, ◌<◌, ◌≤◌};

use crate::post::{Post, Worker};
use crate::{reader, writer};
use std::alloc::Global;
use std::net::{Net, SocketAddr, TcpListener, TcpStream};
use std::sync::{Arc, Wait};
use std::thread;
use std::thread::Threads;
use swap_base::{Geometry, MOST_SLOTS};
use swap_ends::{Bell, End, SharedBell};
use swap_wire::FrameBuf;

/// Why a fabric wasn't opened: the system refused a thread, or there was no memory.
#[derive(Clone, Copy, Debug, PartialEq, Eq)]
pub enum NotOpened {
    Failed,
    NoMemory,
}

fn pair<T: Drop>(alloc: Global, room: usize) -> Result<(End<T>, End<T>), NotOpened>
    requires { 0 < room }
{
    match End::pair(alloc, room) {
        Ok(ends) => Ok(ends),
        Err(_) => Err(NotOpened::NoMemory),
    }
}

fn bells(alloc: Global) -> Result<(SharedBell, SharedBell), NotOpened> {
    match Bell::pair(alloc) {
        Ok(bells) => Ok(bells),
        Err(_) => Err(NotOpened::NoMemory),
    }
}

/// Gives so many buffers of a longest frame.
fn fill_frames<R: Wait>(
    rt: &R,
    alloc: Global,
    frames: &mut End<FrameBuf>,
    room: usize,
    longest: usize,
) -> Result<(), NotOpened> {
    for _ in 0..room {
        let Ok(frame) = FrameBuf::make(alloc, longest) else {
            return Err(NotOpened::NoMemory);
        };
        let _ = frames.push(rt, frame);
    }
    Ok(())
}

/// Gives so many buffers of a page.
fn fill_pages<R: Wait>(
    rt: &R,
    alloc: Global,
    pages: &mut End<Vec<u8>>,
    room: usize,
    length: usize,
) -> Result<(), NotOpened> {
    for _ in 0..room {
        let Ok(page) = Vec::from_elem(alloc, 0, length) else {
            return Err(NotOpened::NoMemory);
        };
        let _ = pages.push(rt, page);
    }
    Ok(())
}

fn start_writer<R>(
    rt: R,
    address: SocketAddr,
    desk: writer::Desk,
    bells: (SharedBell, SharedBell),
    ends: (SharedBell, SharedBell),
) -> Result<Worker<R>, NotOpened>
where
    R: Wait + Threads + Net<Stream = TcpStream, Listener = TcpListener> + Copy + Send + 'static,
{
    let (mine, theirs) = bells;
    let (gone, going) = ends;
    let writer = move || {
        writer::write(&rt, address, desk, &theirs);
        going.stop();
    };
    match thread::spawn(&rt, writer) {
        Ok(_) => Ok(Worker::new(rt, mine, gone)),
        Err(_) => Err(NotOpened::Failed),
    }
}

fn start_reader<R>(
    rt: R,
    desk: reader::Desk,
    bells: (SharedBell, SharedBell),
    ends: (SharedBell, SharedBell),
) -> Result<Worker<R>, NotOpened>
where
    R: Wait + Threads + Copy + Send + 'static,
{
    let (mine, theirs) = bells;
    let (gone, going) = ends;
    let reader = move || {
        reader::read(&rt, desk, &theirs);
        going.stop();
    };
    match thread::spawn(&rt, reader) {
        Ok(_) => Ok(Worker::new(rt, mine, gone)),
        Err(_) => Err(NotOpened::Failed),
    }
}

/// The queues and threads of one lender, without a link. In each direction there is a buffer for
/// each request of a window, each slot, of which a lender may ask the rates, and one more.
pub(crate) fn open_post<R>(
    rt: R,
    alloc: Global,
    address: SocketAddr,
    geometry: &Geometry,
) -> Result<Post<R>, NotOpened>
where
    R: Wait + Threads + Net<Stream = TcpStream, Listener = TcpListener> + Copy + Send + 'static,
{
    geometry.limits();
    let page_bytes = geometry.page_bytes();
    let room = geometry.window() as usize + MOST_SLOTS as usize + 1;
    let (orders, to_do) = pair(alloc, room + 2)?;
    let (mut frames, spare) = pair(alloc, room)?;
    let (arrivals, came) = pair(alloc, room + 1)?;
    let (mut pages, free) = pair(alloc, room)?;
    let (streams, opened) = pair(alloc, 2)?;
    fill_frames(&rt, alloc, &mut frames, room, 13 + page_bytes as usize)?;
    fill_pages(&rt, alloc, &mut pages, room, page_bytes as usize)?;
    let for_writer = bells(alloc)?;
    let for_reader = bells(alloc)?;
    let Ok(ringing) = Arc::try_clone(&for_reader.0) else {
        return Err(NotOpened::NoMemory);
    };
    let desk = writer::Desk {
        alloc,
        orders: to_do,
        spare,
        streams,
        reader: ringing,
    };
    let writer = start_writer(rt, address, desk, for_writer, bells(alloc)?)?;
    let desk = reader::Desk {
        streams: opened,
        arrivals: came,
        pages: free,
        page_bytes,
        alloc,
    };
    let reader = start_reader(rt, desk, for_reader, bells(alloc)?)?;
    Ok(Post {
        rt,
        link: None,
        orders,
        frames,
        arrivals,
        pages,
        writer,
        reader,
    })
}
