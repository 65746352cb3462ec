//! Lines of an extract, read.
ghost use Rattle.std.specs.List.{list_any};
ghost use Rattle.std.specs.Prelude.{◌≡◌, ◌==◌, ◌≢◌, ◌++◌, ◌∷◌, ◌≤◌, ◌^◌, List, ℕ, decimal, codes, IfOk, MatchOption};
ghost use Rattle.global_defs.specs.declared.limits.TheConstants.{NUMBERS_END};
ghost use Rattle.global_defs.specs.Fields.{IsSiteName};
ghost use Rattle.jnl_extract.specs.Lines as lines;
ghost use Rattle.jnl_extract.specs.Lines.{line_body, header_body, line_word, line_head, update_word, update_tail, IsLine, IsBracket, IsHeld, PartsAre};
ghost use Rattle.jnl_extract.specs.Extracts.{IsSpelled};
ghost use Rattle.global_defs.specs.Entry as defs;
ghost use Rattle.jnl_extract.specs.Values.{head_value, line_value};

use super::cut::{cut, is_site_name, read_number};
use super::fields::{Head, read_head};
use super::update::read_update;
use gvn_key::terms::Update;
use gvn_key::{Bytes, NoMemory};
use std::alloc::Global;

/// The greatest number that an extract may begin with.
const LAST_FROM: u64 = global_defs::limits::NUMBERS_END;

/// A line behind the header.
#[derive(Debug, Drop)]
pub(crate) enum Line {
    /// The first line of an entry with more than one update.
    Opens(Head),
    /// An update.
    Holds(Head, Update),
    /// The last line of an entry with more than one update.
    Closes(Head),
}

/// The header's name and number, by its line without the line feed.
pub(crate) fn read_header(alloc: Global, line: &[u8]) -> Result<Option<(Bytes, u64)>, NoMemory>
    ensures { IfOk result (λ found. MatchOption found
        ((site : List ℕ) (from : ℕ) → IsSiteName site → 1 ≤ from → from ≤ NUMBERS_END → line.now ≡ header_body site from → ⊥)
        (λ p. IsSiteName p.0 × (1 ≤ p.1) × (p.1 ≤ NUMBERS_END) × (line.now ≡ header_body p.0 p.1))) }
{
    match cut(line, b'\\') {
        None => Ok(None),
        Some((word, rest)) => {
            if word == b"GTMRJEX01".as_slice() {
                read_beginning(alloc, rest)
            } else {
                Ok(None)
            }
        }
    }
}

/// A site's name, a backslash and a number.
fn read_beginning(alloc: Global, text: &[u8]) -> Result<Option<(Bytes, u64)>, NoMemory>
    ensures { IfOk result (λ found. MatchOption found
        ((site : List ℕ) (from : ℕ) → IsSiteName site → 1 ≤ from → from ≤ NUMBERS_END → text.now ≡ site ++ 92 ∷ decimal from → ⊥)
        (λ p. IsSiteName p.0 × (1 ≤ p.1) × (p.1 ≤ NUMBERS_END) × (text.now ≡ p.0 ++ 92 ∷ decimal p.1))) }
{
    match cut(text, b'\\') {
        None => Ok(None),
        Some((name, digits)) => {
            if !is_site_name(name) {
                return Ok(None);
            }
            match read_number(digits) {
                None => Ok(None),
                Some(from) => {
                    if from == 0 || LAST_FROM < from {
                        return Ok(None);
                    }
                    Ok(Some((Bytes::of(alloc, name)?, from)))
                }
            }
        }
    }
}

/// A line behind the header, by its text without the line feed.
pub(crate) fn read_line(alloc: Global, text: &[u8]) -> Result<Option<Line>, NoMemory>
    ensures { IfOk result (λ found. MatchOption found ((l : lines.Line) → IsLine l → text.now ≡ line_body l → ⊥)
        (λ l. IsLine (line_value l) × (text.now ≡ line_body (line_value l)))) }
{
    match cut(text, b'\\') {
        None => Ok(None),
        Some((word, rest)) => match cut(rest, b'\\') {
            None => Ok(None),
            Some((number, rest)) => match cut(rest, b'\\') {
                None => Ok(None),
                Some((stamp, rest)) => read_parts(alloc, word, number, stamp, rest),
            },
        },
    }
}

/// A line by its word, two of its fields, and the rest.
fn read_parts(
    alloc: Global,
    word: &[u8],
    number: &[u8],
    stamp: &[u8],
    rest: &[u8],
) -> Result<Option<Line>, NoMemory>
    ensures { IfOk result (λ found. MatchOption found ((l : lines.Line) → IsLine l → PartsAre l word.now number.now stamp.now rest.now → ⊥)
        (λ l. IsLine (line_value l) × PartsAre (line_value l) word.now number.now stamp.now rest.now)) }
{
    match cut(rest, b'\\') {
        None => match read_head(alloc, number, stamp, rest)? {
            None => Ok(None),
            Some(head) => Ok(bracket(word, head)),
        },
        Some((origin, tail)) => match read_head(alloc, number, stamp, origin)? {
            None => Ok(None),
            Some(head) => read_held(alloc, word, head, tail),
        },
    }
}

/// The first or the last line of an entry, by its word.
fn bracket(word: &[u8], head: Head) -> Option<Line>
    ensures { MatchOption result ((word.now ≢ codes "TSTART") × (word.now ≢ codes "TCOM"))
        (λ l. IsBracket (line_value l) × (word.now ≡ line_word (line_value l)) × (line_head (line_value l) ≡ head_value head)) }
{
    if word == b"TSTART".as_slice() {
        Some(Line::Opens(head))
    } else if word == b"TCOM".as_slice() {
        Some(Line::Closes(head))
    } else {
        None
    }
}

fn has_space(word: &[u8]) -> bool
    ensures { result ≡ list_any (λ b. b == 32) word.now }
{
    word.iter().any(|b| *b == b' ')
}

/// The line of an update.
fn read_held(alloc: Global, word: &[u8], head: Head, tail: &[u8]) -> Result<Option<Line>, NoMemory>
    ensures { IfOk result (λ found. MatchOption found ((u : defs.Update) → IsSpelled u → word.now ≡ update_word u → tail.now ≡ update_tail u → ⊥)
        (λ l. IsHeld (line_value l) (head_value head) word.now tail.now)) }
{
    if has_space(word) {
        return Ok(None);
    }
    match read_update(alloc, word, tail)? {
        None => Ok(None),
        Some(update) => Ok(Some(Line::Holds(head, update))),
    }
}
