ghost use Rattle.std.specs.Prelude.{◌≡◌, ◌<◌, ◌≤◌, length, map, vec_len, vec_capacity, IfOk};
ghost use Rattle.swap_net.specs.Posts.{FabricView};

use crate::opening::{NotOpened, open_post};
use crate::post::Post;
use std::alloc::Global;
use std::marker::Model;
use std::net::{Net, SocketAddr, TcpListener, TcpStream};
use std::sync::Wait;
use std::thread::Threads;
use swap_base::{Geometry, Lender, Link};
use swap_wire::{Fabric, Gave, Hosted, Msg, Sent, Took};

/// Links to lenders over TCP, with two threads for each lender. Its calls push to and pop from
/// queues, and take no memory; none waits for a peer. Where it is dropped its threads are told to
/// stop and end the links, and the drop waits for their end.
///
/// It tells nothing of pages. A full queue to a peer and bytes that are no frame end the link. What
/// arrived on an older link is dropped by the `take` that sees it.
pub struct SocketFabric<R: Wait + Copy> {
    geometry: Geometry,
    posts: Vec<Post<R>>,
}

impl<R: Wait + Copy> Model for SocketFabric<R> {
    ghost use Rattle.std.specs.Prelude.{length};
    ghost use Rattle.swap_net.specs.Posts.{FabricView};

    ghost Value = { FabricView };

    ghost view = { λ f.
        record {
          is_of = record { sizes = f.geometry; lenders = length f.posts.items };
          posts = f.posts.items;
        } };

    ghost invariant = { λ f. Unit {0} };
}

impl<R: Wait + Copy> Drop for SocketFabric<R> {
    fn drop(self) {
        let SocketFabric { geometry: _, posts } = self;
        for post in posts.iter() {
            post.stop();
        }
        drop(posts);
    }
}

impl<R: Wait + Copy> Fabric for SocketFabric<R> {
    ghost use Rattle.std.specs.Prelude.{◌≡◌};
    ghost use Rattle.swap_net.specs.Posts.{Moves};

    ghost of = { λ f. f.is_of };

    ghost moves = { Moves };

    ghost fresh = { λ f o. f.is_of ≡ o };

    ghost keeps = { λ f l k i bytes. Unit {0} };

    ghost owes = { λ f l pages. Unit {0} };

    ghost answers = { λ page given. Unit {0} };

    fn connect(&mut self, lender: Lender, link: Link) {
        self.posts[lender.0 as usize].connect(link);
    }

    fn send(&mut self, lender: Lender, msg: &Msg, page: &[u8]) -> Sent {
        self.geometry.limits();
        self.posts[lender.0 as usize].send(msg, page)
    }

    fn take(&mut self, lender: Lender, page: &mut [u8]) -> Took {
        self.posts[lender.0 as usize].take(page)
    }

    fn end(&mut self, lender: Lender) {
        self.posts[lender.0 as usize].end();
    }

    fn give(&mut self, _lender: Lender) -> Gave {
        Gave::Nothing
    }

    fn cut(&mut self, _lender: Lender, _to_lender: u32, _to_device: u32) -> bool {
        false
    }

    fn crash(&mut self, _lender: Lender) -> bool {
        false
    }

    fn host(&mut self, _lender: Lender, _used: u32, _word: u64) -> Option<Hosted> {
        None
    }

    ghost fresh_is_of = { λ f o is. is };

    ghost moves_keep_of = { λ f c r g moved. moved.0 };

    ghost taken_fits = { λ f l p g moved. moved.1 };

    ghost write_is_kept = { λ f l k i bytes g moved. tt };

    ghost kept_until = { λ f c r g l k i bytes moved kept until. tt };

    ghost new_link_owes_none = { λ f l n g moved. tt };

    ghost read_is_owed = { λ f l k i bytes pages g moved owed kept. tt };

    ghost page_was_owed = { λ f l p g page rest moved is owed. tt };

    ghost page_answers = { λ f l p g page rest moved is owed. tt };

    ghost owed_until = { λ f c r g l pages moved owed until. tt };
}

impl<R> SocketFabric<R>
where
    R: Wait + Threads + Net<Stream = TcpStream, Listener = TcpListener> + Copy + Send + 'static,
{
    /// Makes the queues, buffers and threads of one lender at each address. No link stands yet.
    pub fn open(
        rt: R,
        alloc: Global,
        addresses: &[SocketAddr],
        geometry: &Geometry,
    ) -> Result<SocketFabric<R>, NotOpened>
        ensures { IfOk result
            (λ f. f.is_of ≡ record { sizes = geometry.now; lenders = length addresses.now }) }
    {
        let Ok(mut posts) = Vec::with_capacity(alloc, addresses.len()) else {
            return Err(NotOpened::NoMemory);
        };
        for address in addresses {
            posts.push_reserved(open_post(rt, alloc, *address, geometry)?);
        }
        Ok(SocketFabric {
            geometry: *geometry,
            posts,
        })
    }
}
