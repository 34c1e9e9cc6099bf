use std::fs::File;
use std::os::unix::fs::FileExt;
use std::sync::Wait;
use std::thread;
use swap_base::{DiskWhich, Page};
use swap_ends::{Bell, End};

/// What the thread is asked for. A write has its page in the bytes.
#[derive(Drop)]
pub(crate) struct Order {
    pub(crate) which: DiskWhich,
    pub(crate) page: Page,
    pub(crate) bytes: Vec<u8>,
}

/// What comes back from the thread. A read has its page in the bytes.
#[derive(Drop)]
pub struct Done {
    pub(crate) which: DiskWhich,
    pub(crate) ok: bool,
    pub(crate) bytes: Vec<u8>,
}

/// Reads or writes the page of an order.
fn carry_out(file: &File, order: Order) -> Done {
    let Order {
        which,
        page,
        mut bytes,
    } = order;
    let at = u64::from(page.0).saturating_mul(bytes.len() as u64);
    let ok = match which {
        DiskWhich::Write(_) => file.write_all_at(&bytes, at).is_ok(),
        DiskWhich::Read(_) => file.read_exact_at(&mut bytes, at).is_ok(),
    };
    Done { which, ok, bytes }
}

/// Carries out orders one after another, until it is told to stop and none is left.
pub(crate) fn work<R: Wait>(
    rt: &R,
    file: File,
    mut orders: End<Order>,
    mut dones: End<Done>,
    bell: &Bell,
) {
    for _ in rt.forever() {
        match orders.pop(rt) {
            Some(order) => hand_back(rt, &mut dones, bell, carry_out(&file, order)),
            None => {
                if bell.has_stopped() {
                    return;
                }
                bell.wait(rt);
            }
        }
    }
    unreachable!()
}

/// Gives an item back; where the queue is full it tries again, until it is told to stop.
fn hand_back<R: Wait>(rt: &R, dones: &mut End<Done>, bell: &Bell, done: Done) {
    let mut kept = done;
    for _ in rt.forever() {
        match dones.push(rt, kept) {
            Ok(()) => return,
            Err(refused) => kept = refused,
        }
        if bell.has_stopped() {
            return;
        }
        thread::yield_now();
    }
    unreachable!()
}
