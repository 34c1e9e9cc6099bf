ghost use Rattle.std.specs.Prelude.{◌≡◌, ℕ, ◌*◌, ◌<◌, ◌^◌, length, IfOk, replicate, slice_set, slice_index_or, []};

use crate::bytes::{block, fill_block, write_block};
use std::alloc::{AllocError, Global};
use std::marker::Model;

/// Pages in one piece of memory, by their numbers. All memory is taken at `make`.
#[derive(Drop)]
pub struct Blocks {
    bytes: Vec<u8>,
    page_bytes: usize,
    pages: usize,
}

impl Model for Blocks {
    ghost use Rattle.std.specs.Prelude.{◌≡◌, ◌*◌, length};
    ghost use Rattle.swap_store.specs.Blocks.{Blocks as Pages, blocks_in};

    ghost Value = { Pages };

    ghost view = { λ b.
        record {
          blocks = blocks_in b.pages b.page_bytes b.bytes.items;
          page_bytes = b.page_bytes;
        } };

    ghost invariant = { λ b. length b.bytes.items ≡ b.pages * b.page_bytes };
}

impl Blocks {
    /// So many pages of zeros.
    pub fn make(alloc: Global, pages: usize, page_bytes: usize) -> Result<Blocks, AllocError>
        requires { pages * page_bytes < 2 ^ 64 }
        ensures { IfOk result
            (λ b. b
            ≡ record {
              blocks = replicate pages (replicate page_bytes 0);
              page_bytes = page_bytes;
            }) }
    {
        Ok(Blocks {
            bytes: vec![in alloc; 0; pages * page_bytes]?,
            page_bytes,
            pages,
        })
    }

    /// Reads a page.
    pub fn read(&self, page: usize, buf: &mut [u8])
        requires page { page < length self.now.blocks }
        requires buf { length buf.old ≡ self.now.page_bytes }
        ensures { buf.new ≡ slice_index_or self.now.blocks page [] }
    {
        buf.copy_from_slice(block(&self.bytes, self.page_bytes, page));
    }

    /// Writes a page.
    pub fn write(&mut self, page: usize, bytes: &[u8])
        requires page { page < length self.old.blocks }
        requires bytes { length bytes.now ≡ self.old.page_bytes }
        ensures { self.new
            ≡ record {
              blocks = slice_set self.old.blocks page bytes.now;
              page_bytes = self.old.page_bytes;
            } }
    {
        write_block(&mut self.bytes, self.page_bytes, page, bytes);
    }

    /// Makes each byte of a page this one.
    pub fn fill(&mut self, page: usize, value: u8)
        requires { page < length self.old.blocks }
        ensures { self.new
            ≡ record {
              blocks =
                  slice_set self.old.blocks page (replicate self.old.page_bytes value);
              page_bytes = self.old.page_bytes;
            } }
    {
        fill_block(&mut self.bytes, self.page_bytes, page, value);
    }
}
