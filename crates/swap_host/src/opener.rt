ghost use Rattle.std.specs.Prelude.{◌≡◌, [], true, length, IfOk};
ghost use Rattle.swap_file.specs.Files.{file_port};

use std::alloc::Global;
use std::fs::File;
use std::net::{Net, SocketAddr, TcpListener, TcpStream};
use std::sync::Wait;
use std::thread;
use std::thread::Threads;
use swap_base::Geometry;
use swap_ends::{Bell, End, SharedBell};
use swap_file::FileDisk;
use swap_net::SocketFabric;
use swap_sock::HostFault;

/// What is to be opened, for a device of these sizes: a disk over a file, or a fabric with a lender
/// at each address.
#[derive(Drop)]
pub(crate) enum Asked {
    Disk(File, Geometry),
    Net(Vec<SocketAddr>, Geometry),
}

fn same(sizes: &Geometry, other: &Geometry) -> bool
    ensures { result ≡ true → sizes.now ≡ other.now }
{
    *sizes == *other
}

/// A disk of these sizes, as it was opened.
#[derive(Drop)]
pub(crate) struct NewDisk<R: Wait + Copy> {
    disk: FileDisk<R>,
    sizes: Geometry,
    ghost new: { disk ≡ file_port sizes [] 0 [] },
}

impl<R: Wait + Copy> NewDisk<R> {
    /// The disk, where it has these sizes.
    pub(crate) fn of(self, sizes: &Geometry) -> Result<FileDisk<R>, HostFault>
        ensures { IfOk result (λ d. d ≡ file_port sizes.now [] 0 []) }
    {
        let NewDisk { disk, sizes: of } = self;
        if same(&of, sizes) {
            Ok(disk)
        } else {
            Err(HostFault::Failed)
        }
    }
}

/// A fabric of these sizes with so many lenders, as it was opened.
#[derive(Drop)]
pub(crate) struct NewNet<R: Wait + Copy> {
    net: SocketFabric<R>,
    sizes: Geometry,
    lenders: usize,
    ghost new: { net.is_of ≡ record { sizes = sizes; lenders = lenders } },
}

impl<R: Wait + Copy> NewNet<R> {
    /// The fabric, where it has these sizes and so many lenders.
    pub(crate) fn of(self, sizes: &Geometry, lenders: usize) -> Result<SocketFabric<R>, HostFault>
        ensures { IfOk result (λ n. n.is_of ≡ record { sizes = sizes.now; lenders = lenders }) }
    {
        let NewNet {
            net,
            sizes: of,
            lenders: number,
        } = self;
        if same(&of, sizes) && number == lenders {
            Ok(net)
        } else {
            Err(HostFault::Failed)
        }
    }
}

/// What came of it.
#[derive(Drop)]
pub(crate) enum Opened<R: Wait + Copy> {
    Disk(NewDisk<R>),
    Net(NewNet<R>),
    Refused(HostFault),
}

/// A thread that opens what it is asked for. The threads of a disk and of a fabric are started
/// there: in a method of a trait no thread can be.
pub(crate) struct Opener<R: Wait + Copy> {
    rt: R,
    asks: End<Asked>,
    answers: End<Opened<R>>,
    bell: SharedBell,
    answered: SharedBell,
    gone: SharedBell,
}

impl<R: Wait + Copy> Drop for Opener<R> {
    fn drop(self) {
        let Opener {
            rt,
            asks: _,
            answers: _,
            bell,
            answered: _,
            gone,
        } = self;
        bell.stop();
        gone.wait_for_stop(&rt);
    }
}

impl<R: Wait + Copy> Opener<R> {
    /// Has the thread open this, and waits for what comes of it.
    pub(crate) fn open(&mut self, asked: Asked) -> Opened<R> {
        let rt = self.rt;
        if self.asks.push(&rt, asked).is_err() {
            return Opened::Refused(HostFault::Failed);
        }
        self.bell.ring();
        for _ in rt.forever() {
            if let Some(opened) = self.answers.pop(&rt) {
                return opened;
            }
            self.answered.wait(&rt);
        }
        unreachable!()
    }
}

/// What the thread has to do with.
#[derive(Drop)]
struct Desk<R: Wait + Copy> {
    asks: End<Asked>,
    answers: End<Opened<R>>,
    bell: SharedBell,
    answered: SharedBell,
}

impl<R> Opener<R>
where
    R: Wait + Threads + Net<Stream = TcpStream, Listener = TcpListener> + Copy + Send + 'static,
{
    /// Starts the thread; none where the system refuses it, or there is no memory.
    pub(crate) fn start(rt: R, alloc: Global) -> Option<Opener<R>> {
        let (asks, to_open) = End::pair(alloc, 1).ok()?;
        let (answers, given) = End::pair(alloc, 1).ok()?;
        let (bell, bell_of_thread) = Bell::pair(alloc).ok()?;
        let (answered, answers_of_thread) = Bell::pair(alloc).ok()?;
        let (gone, going) = Bell::pair(alloc).ok()?;
        let desk = Desk {
            asks: to_open,
            answers: given,
            bell: bell_of_thread,
            answered: answers_of_thread,
        };
        let opener = move || {
            work(rt, alloc, desk);
            going.stop();
        };
        thread::spawn(&rt, opener).ok()?;
        Some(Opener {
            rt,
            asks,
            answers,
            bell,
            answered,
            gone,
        })
    }
}

/// Opens one after another, until it is told to stop.
fn work<R>(rt: R, alloc: Global, desk: Desk<R>)
where
    R: Wait + Threads + Net<Stream = TcpStream, Listener = TcpListener> + Copy + Send + 'static,
{
    let Desk {
        mut asks,
        mut answers,
        bell,
        answered,
    } = desk;
    for _ in rt.forever() {
        match asks.pop(&rt) {
            Some(asked) => {
                let _ = answers.push(&rt, carry_out(rt, alloc, asked));
                answered.ring();
            }
            None => {
                if bell.has_stopped() {
                    return;
                }
                bell.wait(&rt);
            }
        }
    }
    unreachable!()
}

/// Opens what is asked for.
fn carry_out<R>(rt: R, alloc: Global, asked: Asked) -> Opened<R>
where
    R: Wait + Threads + Net<Stream = TcpStream, Listener = TcpListener> + Copy + Send + 'static,
{
    match asked {
        Asked::Disk(file, sizes) => match FileDisk::over(rt, alloc, file, &sizes) {
            Ok(disk) => Opened::Disk(NewDisk { disk, sizes }),
            Err(swap_file::NotOpened::Failed) => Opened::Refused(HostFault::Failed),
            Err(swap_file::NotOpened::NoMemory) => Opened::Refused(HostFault::NoMemory),
        },
        Asked::Net(addresses, sizes) => match SocketFabric::open(rt, alloc, &addresses, &sizes) {
            Ok(net) => Opened::Net(NewNet {
                net,
                sizes,
                lenders: addresses.len(),
            }),
            Err(swap_net::NotOpened::Failed) => Opened::Refused(HostFault::Failed),
            Err(swap_net::NotOpened::NoMemory) => Opened::Refused(HostFault::NoMemory),
        },
    }
}
