ghost use Rattle.swap_io.specs.ReadBack.{NumbersAreReadBack, NumbersHaveOneWord, PagesAreReadBack};

/// Each number is read back from its word, and has no other; each page is read back from its
/// shortest pattern, whatever its length.
pub fn words_are_read_back()
    ensures numbers { NumbersAreReadBack }
    ensures one_word { NumbersHaveOneWord }
    ensures pages { PagesAreReadBack }
{}
