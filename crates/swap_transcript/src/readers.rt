//! What stands at the front of a line's words is read, and the others are left.
ghost use Rattle.std.specs.Prelude.{◌≡◌};
ghost use Rattle.std.specs.Option.{option_map};
ghost use Rattle.swap_transcript.specs.Readers.{word_at, small_at, wide_at};

use swap_io::number;
use swap_script::forms::{is_word, small};
use swap_script::text::Words;

/// A given word.
pub fn word_at(name: &[u8], words: &mut Words<'_>) -> Option<()>
    ensures { option_map (λ _. words.new) result ≡ word_at name.now words.old }
{
    if is_word(words.next()?, name) {
        Some(())
    } else {
        None
    }
}

/// A number below 2^32.
pub fn small_at(words: &mut Words<'_>) -> Option<u32>
    ensures { option_map (λ n. (n, words.new)) result ≡ small_at words.old }
{
    small(words.next()?)
}

/// A number below 2^64.
pub fn wide_at(words: &mut Words<'_>) -> Option<u64>
    ensures { option_map (λ n. (n, words.new)) result ≡ wide_at words.old }
{
    number(words.next()?)
}
