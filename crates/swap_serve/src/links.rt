ghost use Rattle.std.specs.Prelude.{◌≡◌, ◌<◌, ◌≤◌, ◌*◌, ◌^◌, [], length, map, vec_capacity, IfOk, IfErr, OnOk, Err};
ghost use Rattle.swap_io.specs.Causes.{Rose};
ghost use Rattle.swap_lender.specs.Core.{IsLending};
ghost use Rattle.swap_sock.specs.Dealings.{gave_one};
ghost use Rattle.swap_serve.specs.Slots.{AreNumbered, IsParted};
ghost use Rattle.swap_serve.specs.Serving.{all_given, AskedLast, BreaksOff, IsServed};

use crate::listener::{Buffers, Listener};
use crate::slot::{Shared, Slot};
use std::alloc::Global;
use std::sync::{Arc, Mutex, Wait};
use std::thread::Threads;
use swap_base::{LenderSpec, Link};
use swap_node::{Ear, Node, Replies};
use swap_sock::{Door, HostFault};

/// Why links weren't served.
#[derive(Clone, Copy, Debug, PartialEq, Eq)]
pub enum NodeFault {
    HostFailed,
    NoMemory,
}

/// Lends to so many links of a door, with pages of 8 to 4,096 bytes, whose host uses so many slots
/// itself. Link i, from 0, is heard in a thread over the one lender, or at once where no thread can
/// be made; one that sends what isn't a frame, or a message that it may not send, ends alone. When
/// all have ended, each reader goes back to the door with its end, in order, and there is one ear
/// for each.
///
/// `HostFailed` comes only where the door gave no link and its count of faults rose, and else an
/// `Err` is `NoMemory`. The links that came before were heard to their end then, and went back to
/// the door; one that came as memory ran out may not.
pub fn serve<R, D>(
    rt: R,
    alloc: Global,
    door: &mut D,
    spec: LenderSpec,
    page_bytes: u32,
    pages_per_slab: u32,
    links: u32,
    used: u32,
) -> Result<Vec<Ear>, NodeFault>
where
    R: Threads + Wait + Copy + Send + 'static,
    D: Door,
    requires least { 8 ≤ page_bytes }
    requires most { page_bytes ≤ 4096 }
    requires limits { IsLending
        (record {
          spec = spec;
          page_bytes = page_bytes;
          pages_per_slab = pages_per_slab;
          links = links;
        }) }
    requires bytes { spec.slots * (pages_per_slab * page_bytes) < 2 ^ 64 }
    ensures served { IfOk result
        (λ ears.
        IsServed D.Reader.left D.Reader.faults D.Writer.faults page_bytes links
        (D.links door.old) (D.links door.new) ears.items) }
    ensures breaks { IfErr result
        (λ why.
        BreaksOff D.Reader.left D.Reader.faults D.Writer.faults page_bytes links why
        (D.links door.old) (D.links door.new)) }
    ensures later { D.faults door.old ≤ D.faults door.new }
    ensures cause { result ≡ Err NodeFault.HostFailed
        → Rose (D.faults door.old) (D.faults door.new) }
{
    let Ok(node) = Node::make(alloc, spec, page_bytes, pages_per_slab, links, used) else {
        return Err(NodeFault::NoMemory);
    };
    let Ok(node) = Arc::new(alloc, Mutex::new(node)) else {
        return Err(NodeFault::NoMemory);
    };
    let Ok(mut slots) = Vec::with_capacity(alloc, links as usize) else {
        return Err(NodeFault::NoMemory);
    };
    let Ok(mut ears) = Vec::with_capacity(alloc, links as usize) else {
        return Err(NodeFault::NoMemory);
    };
    let came = admit_all(rt, alloc, &node, door, page_bytes, links, &mut slots);
    part_all(&rt, door, slots, &mut ears);
    match came {
        Ok(()) => Ok(ears),
        Err(fault) => Err(fault),
    }
}

/// Takes so many links from the door.
fn admit_all<R, D>(
    rt: R,
    alloc: Global,
    node: &Shared<D::Writer>,
    door: &mut D,
    page_bytes: u32,
    links: u32,
    slots: &mut Vec<Slot<D::Reader, D::Writer>>,
) -> Result<(), NodeFault>
where
    R: Threads + Wait + Copy + Send + 'static,
    D: Door,
    requires least { 8 ≤ page_bytes }
    requires most { page_bytes ≤ 4096 }
    requires empty { slots.old.items ≡ [] }
    requires room { links ≤ vec_capacity slots.old }
    ensures number { OnOk result (length slots.new.items ≡ links) }
    ensures most { length slots.new.items ≤ links }
    ensures each { AreNumbered page_bytes 0 slots.new.items }
    ensures links { OnOk result
        (D.links door.new ≡ all_given (map (λ v. v.given) slots.new.items) (D.links door.old)) }
    ensures asked { IfErr result
        (λ why.
        AskedLast why (all_given (map (λ v. v.given) slots.new.items) (D.links door.old))
        (D.links door.new)) }
    ensures later { D.faults door.old ≤ D.faults door.new }
    ensures cause { result ≡ Err NodeFault.HostFailed
        → Rose (D.faults door.old) (D.faults door.new) }
{
    for i in 0..links {
        match admit(rt, alloc, node, door, Link(i), page_bytes) {
            Ok(slot) => slots.push_reserved(slot),
            Err(fault) => return Err(fault),
        }
    }
    Ok(())
}

/// The next link that comes, which is heard from now on.
fn admit<R, D>(
    rt: R,
    alloc: Global,
    node: &Shared<D::Writer>,
    door: &mut D,
    link: Link,
    page_bytes: u32,
) -> Result<Slot<D::Reader, D::Writer>, NodeFault>
where
    R: Threads + Wait + Copy + Send + 'static,
    D: Door,
    requires least { 8 ≤ page_bytes }
    requires most { page_bytes ≤ 4096 }
    ensures slot { IfOk result (λ v. (v.link ≡ link) × (v.page_bytes ≡ page_bytes)) }
    ensures links { IfOk result (λ v. D.links door.new ≡ gave_one tt v.given (D.links door.old)) }
    ensures asked { IfErr result (λ why. AskedLast why (D.links door.old) (D.links door.new)) }
    ensures later { D.faults door.old ≤ D.faults door.new }
    ensures cause { result ≡ Err NodeFault.HostFailed
        → Rose (D.faults door.old) (D.faults door.new) }
{
    let Ok(buffers) = Buffers::make(alloc, page_bytes) else {
        return Err(NodeFault::NoMemory);
    };
    let Ok(theirs) = Arc::try_clone(node) else {
        return Err(NodeFault::NoMemory);
    };
    let (reader, writer) = match door.next() {
        Ok(pair) => pair,
        Err(HostFault::Failed) => return Err(NodeFault::HostFailed),
        Err(HostFault::NoMemory) => return Err(NodeFault::NoMemory),
    };
    let Ok(replies) = Replies::make(alloc, writer, page_bytes) else {
        return Err(NodeFault::NoMemory);
    };
    let ear = node.lock(&rt).arrive(link, replies);
    Ok(Slot::begin(rt, theirs, Listener::new(reader, ear, buffers)))
}

/// Waits for each link's end, and gives its reader back to the door.
fn part_all<R, D>(rt: &R, door: &mut D, slots: Vec<Slot<D::Reader, D::Writer>>, ears: &mut Vec<Ear>)
where
    R: Threads,
    D: Door,
    requires empty { ears.old.items ≡ [] }
    requires room { length slots.items ≤ vec_capacity ears.old }
    ensures parted { IsParted D.Reader.left D.Reader.faults D.Writer.faults slots.items
        (D.links door.old) (D.links door.new) ears.new.items }
    ensures later { D.faults door.old ≤ D.faults door.new }
{
    for slot in slots {
        let heard = slot.finish(rt);
        ears.push_reserved(heard.ear);
        door.back(heard.reader, heard.end);
    }
}
