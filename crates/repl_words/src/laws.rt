//! Laws of the words.
ghost use Rattle.std.specs.Prelude.{◌≡◌, ℕ, List, Some};
ghost use Rattle.repl_words.specs.Words.{Asks, Settings, words_reading};

/// Words are read as what they ask for: exactly those that the grammar has are a command line, and each asks for one thing.
pub fn words_are_read_as_asked()
    ensures found { (words : List (List ℕ)) (settings : Settings) → words_reading words ≡ Some settings → Asks words settings }
    ensures only { (words : List (List ℕ)) (settings : Settings) → Asks words settings → words_reading words ≡ Some settings }
{}
