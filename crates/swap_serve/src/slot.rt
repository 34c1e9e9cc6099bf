ghost use Rattle.std.specs.Prelude.{◌≡◌};
ghost use Rattle.std.specs.Arc.{arc_value};
ghost use Rattle.swap_wire.specs.declared.side.Side.TheVariants.{Device};
ghost use Rattle.swap_wire.specs.Decoding.{decoder_at_start};
ghost use Rattle.swap_sock.specs.Dealings.{left_by};
ghost use Rattle.swap_serve.specs.Hearing.{IsBegun, IsHeard};

use crate::listener::{Heard, Listener, hear};
use std::alloc::Global;
use std::marker::Model;
use std::snapshot::Snapshot;
use std::sync::{Arc, Mutex, Wait};
use std::thread;
use std::thread::{Promise, PromisedHandle, Threads};
use swap_base::Link;
use swap_io::{Sink, Source};
use swap_node::Node;

/// What a thread that hears a link promises: the link, with the reader as the door gave it.
#[derive(Drop)]
pub(crate) struct Pledge<S> {
    link: Link,
    page_bytes: u32,
    was: Snapshot<S>,
}

impl<S: Source + Drop, K: Sink + Drop> Promise<Heard<S, K>> for Pledge<S> {
    ghost use Rattle.swap_sock.specs.Dealings.{left_by};
    ghost use Rattle.swap_serve.specs.Hearing.{IsHeard};

    ghost kept_by = { λ p h.
        IsHeard S.left S.faults K.faults p.page_bytes p.was.value p.link
        (left_by h.reader h.end) h.ear };
}

/// A link that is heard in a thread, or was heard already, as no thread could be made.
#[derive(Drop)]
pub(crate) enum Task<S: Source + Drop, K: Sink + Drop> {
    Running(PromisedHandle<Heard<S, K>, Pledge<S>>),
    Over(Heard<S, K>),
}

/// A link that came, until it has ended. It means the link and its reader as it was given.
#[derive(Drop)]
pub(crate) struct Slot<S: Source + Drop, K: Sink + Drop> {
    link: Link,
    page_bytes: u32,
    was: Snapshot<S>,
    task: Task<S, K>,
}

impl<S: Source + Drop, K: Sink + Drop> Model for Slot<S, K> {
    ghost use Rattle.swap_serve.specs.Slots.{Visit, IsKept};

    ghost Value = { Visit S };

    ghost view = { λ s. record { link = s.link; page_bytes = s.page_bytes; given = s.was.value } };

    ghost invariant = { λ s.
        IsKept S.left S.faults K.faults s.task
        (record { link = s.link; page_bytes = s.page_bytes; given = s.was.value }) };
}

/// A lender that threads share.
pub(crate) type Shared<K> = Arc<Mutex<Node<K>>, Global>;

impl<S, K> Slot<S, K>
where
    S: Source + Drop + Send + 'static,
    K: Sink + Drop + Send + 'static,
{
    /// Hears a link, in a thread where one can be made.
    pub(crate) fn begin<R>(rt: R, node: Shared<K>, listener: Listener<S>) -> Slot<S, K>
    where
        R: Threads + Wait + Copy + Send + 'static,
        requires { IsBegun listener }
        ensures { result
            ≡ record {
              link = listener.ear.link;
              page_bytes = listener.decoder.page_bytes;
              given = listener.reader;
            } }
    {
        let link = listener.link();
        let page_bytes = listener.page_bytes();
        let was = listener.snapshot();
        let pledge = Pledge {
            link,
            page_bytes,
            was: listener.snapshot(),
        };
        let begun = thread::spawn_with(
            &rt,
            pledge,
            move || -> Heard<S, K>
                requires { IsBegun listener }
                ensures { IsHeard S.left S.faults K.faults listener.decoder.page_bytes
                    listener.reader listener.ear.link
                    (left_by result.reader result.end) result.ear }
            {
                let heard = listener;
                hear(&rt, &node, heard)
            },
        );
        let task = match begun {
            Ok(handle) => Task::Running(handle),
            Err(refused) => Task::Over((refused.value)()),
        };
        Slot {
            link,
            page_bytes,
            was,
            task,
        }
    }

    /// Waits for the link's end.
    pub(crate) fn finish<R: Threads>(self, rt: &R) -> Heard<S, K>
        ensures { IsHeard S.left S.faults K.faults self.page_bytes self.given self.link
            (left_by result.reader result.end) result.ear }
    {
        let Slot {
            link: _,
            page_bytes: _,
            was: _,
            task,
        } = self;
        match task {
            Task::Running(handle) => handle.join(rt),
            Task::Over(heard) => heard,
        }
    }
}
