ghost use Rattle.std.specs.Prelude.{◌≡◌, ◌*◌, ◌<◌, ◌≤◌, ◌^◌, length, IfOk, replicate, slice_set, slice_index_or, []};

use crate::bytes::{block, fill_block, write_block};
use std::alloc::{AllocError, Global};
use std::marker::Model;

/// Slabs of pages in one piece of memory, a page by the number of its slab and its place there. All
/// memory is taken at `make`.
#[derive(Drop)]
pub struct Slabs {
    bytes: Vec<u8>,
    page_bytes: usize,
    pages_per_slab: usize,
    slabs: usize,
}

impl Model for Slabs {
    ghost use Rattle.std.specs.Prelude.{◌≡◌, ◌*◌, length};
    ghost use Rattle.swap_store.specs.Slabs.{Slabs as Pages, slabs_in};

    ghost Value = { Pages };

    ghost view = { λ s.
        record {
          slabs = slabs_in s.slabs s.pages_per_slab s.page_bytes s.bytes.items;
          page_bytes = s.page_bytes;
          pages_per_slab = s.pages_per_slab;
        } };

    ghost invariant = { λ s. length s.bytes.items ≡ s.slabs * (s.pages_per_slab * s.page_bytes) };
}

impl Slabs {
    /// So many slabs of zeros.
    pub fn make(
        alloc: Global,
        slabs: usize,
        pages_per_slab: usize,
        page_bytes: usize,
    ) -> Result<Slabs, AllocError>
        requires some { 1 ≤ slabs }
        requires fits { slabs * (pages_per_slab * page_bytes) < 2 ^ 64 }
        ensures { IfOk result
            (λ s. s
            ≡ record {
              slabs =
                  replicate slabs (replicate pages_per_slab (replicate page_bytes 0));
              page_bytes = page_bytes;
              pages_per_slab = pages_per_slab;
            }) }
    {
        Ok(Slabs {
            bytes: vec![in alloc; 0; slabs * (pages_per_slab * page_bytes)]?,
            page_bytes,
            pages_per_slab,
            slabs,
        })
    }

    /// The page at a place of a slab.
    pub fn page(&self, slab: usize, place: usize) -> &[u8]
        requires slab { slab < length self.now.slabs }
        requires place { place < self.now.pages_per_slab }
        ensures page { result.now
            ≡ slice_index_or (slice_index_or self.now.slabs slab []) place [] }
        ensures bytes { length result.now ≡ self.now.page_bytes }
    {
        let slab_bytes = self.pages_per_slab * self.page_bytes;
        block(block(&self.bytes, slab_bytes, slab), self.page_bytes, place)
    }

    /// Writes the page at a place of a slab.
    pub fn write(&mut self, slab: usize, place: usize, page: &[u8])
        requires slab { slab < length self.old.slabs }
        requires place { place < self.old.pages_per_slab }
        requires page { length page.now ≡ self.old.page_bytes }
        ensures { self.new
            ≡ record self.old {
              slabs =
                  slice_set self.old.slabs slab
                  (slice_set (slice_index_or self.old.slabs slab []) place page.now);
            } }
    {
        let slab_bytes = self.pages_per_slab * self.page_bytes;
        let start = slab * slab_bytes;
        write_block(
            &mut self.bytes[start..start + slab_bytes],
            self.page_bytes,
            place,
            page,
        );
    }

    /// Makes a slab all zeros.
    pub fn clear(&mut self, slab: usize)
        requires { slab < length self.old.slabs }
        ensures { self.new
            ≡ record self.old {
              slabs =
                  slice_set self.old.slabs slab
                  (replicate self.old.pages_per_slab (replicate self.old.page_bytes 0));
            } }
    {
        let slab_bytes = self.pages_per_slab * self.page_bytes;
        fill_block(&mut self.bytes, slab_bytes, slab, 0);
    }

    /// Makes every slab all zeros.
    pub fn clear_all(&mut self)
        ensures { self.new
            ≡ record self.old {
              slabs =
                  replicate (length self.old.slabs)
                  (replicate self.old.pages_per_slab (replicate self.old.page_bytes 0));
            } }
    {
        self.bytes.as_mut_slice().fill(0);
    }
}
