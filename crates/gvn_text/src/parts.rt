//! Where the parts of a line end.
ghost use Rattle.std.specs.Prelude.{◌≡◌, ◌≤◌, ◌==◌, false, length};
ghost use Rattle.script_defs.specs.Parts.{part_end, word_end, key_end, without_spaces, alone, node_at};
ghost use Rattle.gvn_key.specs.KeyText.{key_reading};
ghost use Rattle.gvn_text.specs.Reads.{Reads};

use super::fault::{Fault, bad};
use gvn_key::{Key, KeyError, NoMemory};
use std::alloc::Global;

/// How far a part goes: to the first space or mark outside quotes.
fn part_end(mark: u8, text: &[u8]) -> usize
    ensures end { result ≡ part_end mark false text.now }
    ensures within { result ≤ length text.now }
{
    let mut quoted = false;
    let mut at = 0;
    for byte in text {
        if !quoted && (*byte == b' ' || *byte == mark) {
            return at;
        }
        if *byte == b'"' {
            quoted = !quoted;
        }
        at += 1;
    }
    at
}

/// How far a part goes that a space ends.
pub fn word_end(text: &[u8]) -> usize
    ensures end { result ≡ word_end text.now }
    ensures within { result ≤ length text.now }
{
    part_end(b' ', text)
}

/// How far a key goes that a space or an equals sign ends.
pub fn key_end(text: &[u8]) -> usize
    ensures end { result ≡ key_end text.now }
    ensures within { result ≤ length text.now }
{
    part_end(b'=', text)
}

/// What stands behind the spaces at the front.
pub fn without_spaces(text: &[u8]) -> &[u8]
    ensures { result.now ≡ without_spaces text.now }
{
    let mut rest = text;
    while let [b' ', more @ ..] = rest {
        rest = more;
    }
    rest
}

/// Nothing more may come.
pub fn alone(len: usize, left: &[u8]) -> Result<(), Fault>
    ensures { Reads (λ x. x) (alone len left.now tt) result }
{
    if left.is_empty() {
        Ok(())
    } else {
        Err(bad(len, without_spaces(left)))
    }
}

/// The key of a part that stands at the front of what is left.
pub fn node_at(alloc: Global, len: usize, left: &[u8], part: &[u8]) -> Result<Key, Fault>
    ensures { Reads (λ key. key) (node_at len left.now (key_reading part.now)) result }
{
    match Key::parse(alloc, part) {
        Ok(key) => Ok(key),
        Err(KeyError::NoMemory) => Err(Fault::from(NoMemory)),
        Err(_) => Err(bad(len, left)),
    }
}
