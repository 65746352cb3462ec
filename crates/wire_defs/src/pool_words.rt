//! Worked examples of pool words.
ghost use Rattle.std.specs.Prelude.{◌≡◌, ◌+◌, [], ◌∷◌, length};
ghost use Rattle.wire_defs.specs.PoolWords.{entry_words, words_from, word_count, bytes_in, IsWhole};

/// The entry `SET ^X(1)="a"` of number 1 has 26 bytes, and these six words.
pub fn an_entry_of_26_bytes_has_six_words()
    ensures words { entry_words 1 (0 ∷ 0 ∷ 0 ∷ 0 ∷ 0 ∷ 0 ∷ 0 ∷ 1 ∷ 1 ∷ 0 ∷ 0 ∷ 0 ∷ 1 ∷ 0 ∷ 1 ∷ 1 ∷ 6 ∷ 88 ∷ 0 ∷ 3 ∷ 65 ∷ 49 ∷ 0 ∷ 0 ∷ 1 ∷ 97 ∷ []) ≡ 0x1 ∷ 0x1a ∷ 0x1 ∷ 0x0100000001000101 ∷ 0x0658000341310000 ∷ 0x0161000000000000 ∷ [] }
    ensures bytes { bytes_in (0x1 ∷ 0x1a ∷ 0x1 ∷ 0x0100000001000101 ∷ 0x0658000341310000 ∷ 0x0161000000000000 ∷ []) ≡ 0 ∷ 0 ∷ 0 ∷ 0 ∷ 0 ∷ 0 ∷ 0 ∷ 1 ∷ 1 ∷ 0 ∷ 0 ∷ 0 ∷ 1 ∷ 0 ∷ 1 ∷ 1 ∷ 6 ∷ 88 ∷ 0 ∷ 3 ∷ 65 ∷ 49 ∷ 0 ∷ 0 ∷ 1 ∷ 97 ∷ [] }
{}

/// Entries of 26, 61 and 66 bytes have 6, 10 and 11 words.
pub fn words_are_counted()
    ensures short { word_count 26 ≡ 6 }
    ensures longer { word_count 61 ≡ 10 }
    ensures longest { word_count 66 ≡ 11 }
    ensures empty { word_count 0 ≡ 2 }
{}

/// In a pool of 16 words the first entry, of 6 words, is whole beside one of 10 words.
pub fn sixteen_words_are_whole()
    ensures { IsWhole 16 (word_count 26 + word_count 61) 0 }
{}

/// Beside one of 11 words it isn't whole.
pub fn seventeen_words_are_not()
    ensures { IsWhole 16 (word_count 26 + word_count 66) 0 → ⊥ }
{}
