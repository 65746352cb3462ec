//! Nodes alone, and levels of nodes.
ghost use Rattle.std.specs.Prelude.{◌≡◌, ◌-◌, ◌++◌, ◌∷◌, [], length, take, drop, IfOk};
ghost use Rattle.gvn_key.specs.KeyText.{key_reading};
ghost use Rattle.script_defs.specs.Parts.{last_node, level_of, top_level, below_level, empty_level, level_reading, last_level};
ghost use Rattle.gvn_text.specs.Reads.{Reads, ReadsPart};

use super::fault::{Fault, bad};
use super::parts::{alone, node_at, word_end};
use gvn_key::{Bytes, Key, KeyError, NoMemory};
use std::alloc::Global;

/// How many subscripts may stand before an empty last one.
const MOST_ABOVE: usize = 30;

/// A node, and nothing more.
pub fn last_node(alloc: Global, len: usize, left: &[u8]) -> Result<Key, Fault>
    ensures { Reads (λ key. key) (last_node len left.now) result }
{
    let (part, rest) = left.split_at(word_end(left));
    let key = node_at(alloc, len, left, part)?;
    alone(len, rest)?;
    Ok(key)
}

/// A node without its last subscript, and that subscript.
fn level_of(key: &Key) -> Result<Option<(Key, Bytes)>, NoMemory>
    ensures { ReadsPart (λ p. (p.0, p.1)) (level_of key.now) result }
{
    let count = key.depth();
    if count == 0 {
        return Ok(None);
    }
    let Some(last) = key.sub_at(count - 1)? else {
        unreachable!();
    };
    let above = key.front(count - 1)?;
    Ok(Some((above, last)))
}

/// The node of a text without subscripts, above an empty first one.
fn top_level(alloc: Global, text: &[u8]) -> Result<Option<(Key, Bytes)>, NoMemory>
    ensures { ReadsPart (λ p. (p.0, p.1)) (top_level (key_reading text.now)) result }
{
    match Key::parse(alloc, text) {
        Ok(key) => {
            if key.depth() == 0 {
                Ok(Some((key, Bytes::new(alloc))))
            } else {
                Ok(None)
            }
        }
        Err(KeyError::NoMemory) => Err(NoMemory),
        Err(_) => Ok(None),
    }
}

/// The node of a text that lacks its closing bracket, above an empty last subscript.
fn below_level(alloc: Global, text: &[u8]) -> Result<Option<(Key, Bytes)>, NoMemory>
    ensures { ReadsPart (λ p. (p.0, p.1)) (below_level (key_reading (text.now ++ 41 ∷ []))) result }
{
    let mut whole = Bytes::of(alloc, text)?;
    whole.push(b')')?;
    match Key::parse(alloc, whole.as_slice()) {
        Ok(key) => {
            if MOST_ABOVE < key.depth() {
                Ok(None)
            } else {
                Ok(Some((key, Bytes::new(alloc))))
            }
        }
        Err(KeyError::NoMemory) => Err(NoMemory),
        Err(_) => Ok(None),
    }
}

/// A level with an empty last subscript.
fn empty_level(alloc: Global, text: &[u8]) -> Result<Option<(Key, Bytes)>, NoMemory>
    ensures { ReadsPart (λ p. (p.0, p.1)) (empty_level (take (length text.now - 4) text.now) (drop (length text.now - 4) text.now)) result }
{
    let (front, end) = text.split_at(text.len().saturating_sub(4));
    if end == b"(\"\")".as_slice() {
        return top_level(alloc, front);
    }
    if end == b",\"\")".as_slice() {
        return below_level(alloc, front);
    }
    Ok(None)
}

/// The node above a level, and the last subscript at that level.
fn level_at(alloc: Global, text: &[u8]) -> Result<Option<(Key, Bytes)>, NoMemory>
    ensures { ReadsPart (λ p. (p.0, p.1)) (level_reading text.now) result }
{
    match Key::parse(alloc, text) {
        Ok(key) => level_of(&key),
        Err(KeyError::NoMemory) => Err(NoMemory),
        Err(_) => empty_level(alloc, text),
    }
}

/// A level, and nothing more.
pub fn last_level(alloc: Global, len: usize, left: &[u8]) -> Result<(Key, Bytes), Fault>
    ensures { Reads (λ p. (p.0, p.1)) (last_level len left.now) result }
{
    let (part, rest) = left.split_at(word_end(left));
    match level_at(alloc, part)? {
        None => Err(bad(len, left)),
        Some(level) => {
            alone(len, rest)?;
            Ok(level)
        }
    }
}
