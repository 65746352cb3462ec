//! The grammar of the words.
ghost use Rattle.std.specs.Prelude.{◌≡◌, map, string_bytes, is_some};
ghost use Rattle.repl_words.specs.Words.{is_disk_word, words_reading};
ghost use Rattle.repl_words.specs.Values.{is_joined_disk, is_apart_disk, are_options};

/// Whether a word may name disks.
fn names_disks(word: &[u8]) -> bool
    ensures { result ≡ is_disk_word word.now }
{
    match word {
        [] => false,
        [first, ..] => *first != b'-',
    }
}

/// Whether a word is `--disk=` and a word that names disks.
fn is_joined(option: &str) -> bool
    ensures { result ≡ is_joined_disk option.now }
{
    let option = option.as_bytes();
    option.starts_with(b"--disk=") && names_disks(&option[7..])
}

/// Whether two words are `--disk` and a word that names disks.
fn is_apart(option: &str, word: &str) -> bool
    ensures { result ≡ is_apart_disk option.now word.now }
{
    option == "--disk" && names_disks(word.as_bytes())
}

/// Whether the words are options of a run. There is one option, which is given once at most.
fn are_options(words: &[String]) -> bool
    ensures { result ≡ are_options (map string_bytes words.now) }
{
    match words {
        [] => true,
        [option] => is_joined(option.as_str()),
        [option, word] => is_apart(option.as_str(), word.as_str()),
        _ => false,
    }
}

/// Whether the words behind the program's name are a command line.
pub fn is_command_line(words: &[String]) -> bool
    ensures { result ≡ is_some (words_reading (map string_bytes words.now)) }
{
    match words {
        [] => false,
        [first, options @ ..] => first.as_str() == "run" && are_options(options),
    }
}
