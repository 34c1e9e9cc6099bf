ghost use Rattle.std.specs.Prelude.{◌≡◌, length, IfOk, IsSome, Some, None, replicate, true};
ghost use Rattle.swap_queue.specs.Cells.{entry_of, with_flying, land_after};

use std::alloc::{AllocError, Global};
use std::marker::Model;
use swap_base::{EntryNo, Page};

/// Whose copy a cell has, and whether it is on its way to the disk.
#[derive(Clone, Copy)]
pub(crate) struct Held {
    pub(crate) page: Page,
    pub(crate) entry: EntryNo,
    pub(crate) flying: bool,
}

/// Room for one copy.
#[derive(Drop)]
pub(crate) struct Cell {
    held: Option<Held>,
    bytes: Vec<u8>,
}

impl Model for Cell {
    ghost use Rattle.swap_queue.specs.Cells.{Kept};

    ghost Value = { Kept };

    ghost view = { λ c. record { held = c.held; bytes = c.bytes.items } };
}

impl Cell {
    /// A free cell with room for a page.
    pub(crate) fn make(alloc: Global, page_bytes: usize) -> Result<Cell, AllocError>
        ensures { IfOk result (λ c. c ≡ record { held = None; bytes = replicate page_bytes 0 }) }
    {
        Ok(Cell {
            held: None,
            bytes: vec![in alloc; 0; page_bytes]?,
        })
    }

    /// Keeps a copy in place of what it had.
    pub(crate) fn keep(&mut self, held: Held, bytes: &[u8])
        requires { length bytes.now ≡ length self.old.bytes }
        ensures { self.new ≡ record { held = Some held; bytes = bytes.now } }
    {
        self.held = Some(held);
        self.bytes.as_mut_slice().copy_from_slice(bytes);
    }

    /// Gives its copy out.
    pub(crate) fn give(&self, buf: &mut [u8]) -> EntryNo
        requires used { IsSome self.now.held }
        requires length { length buf.old ≡ length self.now.bytes }
        ensures bytes { buf.new ≡ self.now.bytes }
        ensures entry { Some result ≡ entry_of self.now.held }
    {
        buf.copy_from_slice(&self.bytes);
        self.held.unwrap().entry
    }

    /// Its copy goes to the disk.
    pub(crate) fn launch(&mut self)
        ensures { self.new
            ≡ record { held = with_flying true self.old.held; bytes = self.old.bytes } }
    {
        if let Some(held) = &mut self.held {
            held.flying = true;
        }
    }

    /// Its copy is back from the disk: it waits again where it is kept, else the cell is free.
    pub(crate) fn land(&mut self, keeps: bool) -> EntryNo
        requires { IsSome self.old.held }
        ensures entry { Some result ≡ entry_of self.old.held }
        ensures cell { self.new
            ≡ record { held = land_after keeps self.old.held; bytes = self.old.bytes } }
    {
        let held = self.held.unwrap();
        self.held = if keeps {
            Some(Held {
                flying: false,
                ..held
            })
        } else {
            None
        };
        held.entry
    }
}
