//! Pages that lines print.
ghost use Rattle.std.specs.Prelude.{◌≡◌, ◌≤◌, ◌==◌, length, replicate, IfOk, IsTrue};
ghost use Rattle.std.specs.List.{list_any};
ghost use Rattle.swap_base.specs.Sizes.{page_lengths};
ghost use Rattle.std.specs.Option.{option_map};
ghost use Rattle.swap_transcript.specs.Told.{page_word, bytes_at, filled_or, page_left, behind_first};
ghost use Rattle.swap_io.specs.Words.{pattern};

use std::alloc::Global;
use std::marker::Model;
use swap_base::{Geometry, NoMemory};
use swap_io::{LineBuf, pattern};
use swap_script::text::Words;

/// The page that was read last, with room for the word of its shortest pattern.
#[derive(Drop)]
pub struct PageRead {
    page: Vec<u8>,
    word: LineBuf,
}

impl Model for PageRead {
    ghost use Rattle.std.specs.Prelude.{◌≡◌, ◌≤◌, ℕ, true, ◌==◌, List, length};
    ghost use Rattle.std.specs.List.{list_any};
    ghost use Rattle.swap_base.specs.Sizes.{page_lengths};

    ghost Value = { List ℕ };

    ghost view = { λ p. p.page.items };

    ghost invariant = { λ p. (list_any (λ n. length p.page.items == n) page_lengths ≡ true)
        × (length p.page.items ≤ 4_096) };
}

impl PageRead {
    /// Zeros, as many as a page of these sizes has bytes.
    pub fn make(alloc: Global, geometry: &Geometry) -> Result<PageRead, NoMemory>
        ensures { IfOk result (λ page. length page ≡ geometry.now.page_bytes) }
    {
        geometry.limits();
        let Ok(page) = vec![in alloc; 0u8; geometry.page_bytes() as usize] else {
            return Err(NoMemory);
        };
        let word = LineBuf::make(alloc)?;
        Ok(PageRead { page, word })
    }

    pub fn bytes(&self) -> &[u8]
        ensures { result.now ≡ self.now }
    {
        &self.page
    }

    /// Zeros stand for a page that isn't printed.
    pub fn clear(&mut self)
        ensures { self.new ≡ replicate (length self.old) 0 }
    {
        self.page.fill(0);
    }

    /// A page at the front of the words. A word that is none is taken too, and leaves what its
    /// pattern fills.
    pub fn read_at(&mut self, words: &mut Words<'_>) -> Option<()>
        ensures page { option_map (λ _. (self.new, words.new)) result
            ≡ bytes_at (length self.old) words.old }
        ensures size { length self.new ≡ length self.old }
        ensures left { self.new ≡ page_left self.old words.old }
        ensures words { words.new ≡ behind_first words.old }
    {
        page_by_word(words.next()?, &mut self.page, &mut self.word)
    }
}

/// Fills a page by the word of its shortest pattern, and by no other word.
fn page_by_word(word: &[u8], page: &mut [u8], shortest: &mut LineBuf) -> Option<()>
    requires length { IsTrue (list_any (λ n. length page.old == n) page_lengths) }
    requires few { length page.old ≤ 4_096 }
    ensures page { option_map (λ _. page.new) result ≡ page_word (length page.old) word.now }
    ensures left { page.new ≡ filled_or page.old (pattern (length page.old) word.now) }
{
    if !pattern(word, page) {
        return None;
    }
    shortest.clear();
    shortest.shortest(page);
    if shortest.bytes() == word {
        Some(())
    } else {
        None
    }
}
