//! The values of the words.
ghost use Rattle.std.specs.Prelude.{◌≡◌, ◌↔◌, true, is_some, map, option_map, option_and_then, string_bytes, codes, Some, None, IfOk, IfErr, OnErr, IsErrOf};
ghost use Rattle.clap.specs.Words.{first_value, found_of, kind_of};
ghost use Rattle.repl_words.specs.Words.{folder_named, words_reading};
ghost use Rattle.repl_words.specs.Values.{settings_of, disk_word};

use crate::grammar::is_command_line;
use crate::settings::{Words, WordsError};
use clap::error::ErrorKind;
use clap::{Arg, ArgAction, ArgMatches, Command, Error};
use std::alloc::Global;

/// Takes the word of each option of a run.
fn matched<'a>(alloc: Global, words: &'a [String]) -> Result<ArgMatches<'a>, Error>
    ensures disk { is_some (words_reading (map string_bytes words.entry.now)) ≡ true → IfOk result (λ m. first_value (found_of m) (codes "disk") ≡ disk_word (map string_bytes words.entry.now)) }
    ensures memory { is_some (words_reading (map string_bytes words.entry.now)) ≡ true → IfErr result (λ e. kind_of e ≡ ErrorKind.OutOfMemory) }
{
    let disk = Arg::new(alloc, "disk").long("disk").action(ArgAction::Set);
    let run = Command::new(alloc, "run")
        .disable_help_flag(true)
        .arg(disk)?;
    run.try_get_matches_from(words)
}

/// The folder that a disk's word names.
fn folder_of(alloc: Global, word: Option<&str>) -> Result<Option<String>, WordsError>
    ensures named { IfOk result (λ folder. option_map string_bytes folder ≡ option_and_then folder_named (option_map (λ w. w.now) word.entry)) }
    ensures err { OnErr result (IsErrOf result WordsError.NoMemory) }
{
    match word {
        None => Ok(None),
        Some(word) if word == "memory" => Ok(None),
        Some(word) => match String::from_str(alloc, word) {
            Ok(folder) => Ok(Some(folder)),
            Err(_) => Err(WordsError::NoMemory),
        },
    }
}

/// Reads the words behind the program's name.
///
/// # Errors
/// `BadWords` exactly where they are no command line, which is seen without memory; and `NoMemory`.
#[tactic(auto, using(crate::proofs::Clapped::words_read))]
pub fn words(alloc: Global, words: &[String]) -> Result<Words, WordsError>
    ensures read { IfOk result (λ read. words_reading (map string_bytes words.now) ≡ Some (settings_of read)) }
    ensures bad { IsErrOf result WordsError.BadWords ↔ words_reading (map string_bytes words.now) ≡ None }
{
    if !is_command_line(words) {
        return Err(WordsError::BadWords);
    }
    let Ok(matches) = matched(alloc, words) else {
        return Err(WordsError::NoMemory);
    };
    match folder_of(alloc, matches.get_str("disk")) {
        Ok(folder) => Ok(Words::Run { folder }),
        Err(error) => Err(error),
    }
}
