//! A key's text read from the left.
ghost use Rattle.std.specs.Prelude.{◌≡◌, ◌≤◌, ◌++◌, ◌∷◌, [], ℕ, List, true, length, IfOk, OnOk};
ghost use Rattle.std.specs.List.{position_or_len};
ghost use Rattle.gvn_key.specs.KeyText.{is_end, is_bracket, begins_with_end, begins_string, string_at, numeral_at, sub_at, behind_sub, next_from, fault_past, subs_at, subs_in, key_reading, named, ReadsKey, ReadsSubs, ReadsOne};
ghost use Rattle.gvn_key.specs.ZwrText.{scan};
ghost use Rattle.gvn_key.specs.Reads.{next_view};
ghost use Rattle.gvn_key.specs.declared.reader.State.TheVariants as states;
ghost use Rattle.gvn_key.specs.KeyText.{IsTextOf, IsKeyText, AreBytes};
ghost use Rattle.gvn_key.specs.Faults.{MakesKey};
ghost use Rattle.global_defs.specs.Key as keys;
ghost use Rattle.global_defs.specs.Valid.{is_name, is_key};
ghost use Rattle.global_defs.specs.NodeText.{node_text};

use super::bytes::{Bytes, NoMemory};
use super::key::{Key, KeyError, is_name};
use super::numeral::is_number;
use super::reader::{is_whole, scan};
use global_defs::limits::{LONGEST_NAME, MOST_SUBS};
use std::alloc::Global;

/// A subscript's bytes, and the text behind it.
#[derive(Drop)]
struct Read<'a> {
    value: Bytes,
    left: &'a [u8],
}

/// What stands at a subscript's place.
#[derive(Drop)]
enum Next<'a> {
    /// A subscript, and the text of more behind a comma.
    More(Bytes, &'a [u8]),
    /// The last subscript.
    Last(Bytes),
    /// No subscript.
    Wrong(KeyError),
}

fn begins_with_end(text: &[u8]) -> bool
    ensures { result ≡ begins_with_end text.now }
{
    match text {
        [] => false,
        [byte, ..] => *byte == b',' || *byte == b')',
    }
}

fn begins_string(text: &[u8]) -> bool
    ensures { result ≡ begins_string text.now }
{
    match text {
        [] => false,
        [byte, ..] => *byte == b'"' || *byte == b'$',
    }
}

/// Where the first comma or closing bracket stands, or the text's end.
fn end_of_sub(text: &[u8]) -> usize
    ensures place { result ≡ position_or_len is_end text.now }
    ensures within { result ≤ length text.now }
{
    let mut at = 0;
    while at < text.len() && text[at] != b',' && text[at] != b')' {
        at += 1;
    }
    at
}

/// Where the first bracket stands, or the text's end.
fn end_of_name(text: &[u8]) -> usize
    ensures place { result ≡ position_or_len is_bracket text.now }
    ensures within { result ≤ length text.now }
{
    let mut at = 0;
    while at < text.len() && text[at] != b'(' && text[at] != b')' {
        at += 1;
    }
    at
}

fn string_at(alloc: Global, text: &[u8]) -> Result<Option<Read<'_>>, NoMemory>
    ensures { IfOk result (ReadsOne (λ r. record { value = r.value; left = r.left.now }) (string_at (scan states.Start text.now))) }
{
    let mut value = Bytes::new(alloc);
    let stopped = scan(text, &mut value)?;
    let left = &text[stopped.at..];
    if is_whole(stopped.state) && begins_with_end(left) {
        Ok(Some(Read { value, left }))
    } else {
        Ok(None)
    }
}

fn numeral_at(alloc: Global, text: &[u8]) -> Result<Option<Read<'_>>, NoMemory>
    ensures { IfOk result (ReadsOne (λ r. record { value = r.value; left = r.left.now }) (numeral_at (position_or_len is_end text.now) text.now)) }
{
    let (numeral, left) = text.split_at(end_of_sub(text));
    if is_number(numeral) && begins_with_end(left) {
        Ok(Some(Read {
            value: Bytes::of(alloc, numeral)?,
            left,
        }))
    } else {
        Ok(None)
    }
}

/// A subscript before a comma or a closing bracket.
fn sub_at(alloc: Global, text: &[u8]) -> Result<Option<Read<'_>>, NoMemory>
    ensures { IfOk result (ReadsOne (λ r. record { value = r.value; left = r.left.now }) (sub_at text.now)) }
{
    if begins_string(text) {
        string_at(alloc, text)
    } else {
        numeral_at(alloc, text)
    }
}

/// What stands behind a subscript: a comma, or the bracket that ends the text.
fn behind_sub(value: Bytes, left: &[u8]) -> Next<'_>
    ensures { next_view result ≡ behind_sub value left.now }
{
    match left {
        [] => Next::Wrong(KeyError::BadSub),
        [byte, rest @ ..] => {
            if *byte == b',' {
                Next::More(value, rest)
            } else if rest.is_empty() {
                Next::Last(value)
            } else {
                Next::Wrong(KeyError::BadSub)
            }
        }
    }
}

fn next_sub(alloc: Global, text: &[u8]) -> Result<Next<'_>, NoMemory>
    ensures { IfOk result (λ n. next_view n ≡ next_from (sub_at text.now)) }
{
    match sub_at(alloc, text)? {
        None => Ok(Next::Wrong(KeyError::BadSub)),
        Some(read) => {
            if read.value.is_empty() {
                Ok(Next::Wrong(KeyError::NullSub))
            } else {
                Ok(behind_sub(read.value, read.left))
            }
        }
    }
}

/// Why a 32nd subscript isn't taken.
fn fault_past(alloc: Global, text: &[u8]) -> Result<KeyError, NoMemory>
    ensures { IfOk result (λ e. e ≡ fault_past (sub_at text.now)) }
{
    match sub_at(alloc, text)? {
        None => Ok(KeyError::BadSub),
        Some(read) => {
            if read.value.is_empty() {
                Ok(KeyError::NullSub)
            } else {
                Ok(KeyError::TooManySubs)
            }
        }
    }
}

/// Subscripts to the text's end, at most 31.
fn subs_at(alloc: Global, text: &[u8]) -> Result<Vec<Bytes>, KeyError>
    ensures { ReadsSubs (λ v. v.items) (subs_at MOST_SUBS text.now) result }
{
    let mut subs = Vec::new(alloc);
    let mut rest = text;
    for _ in 0..MOST_SUBS {
        match next_sub(alloc, rest)? {
            Next::More(value, left) => {
                push(&mut subs, value)?;
                rest = left;
            }
            Next::Last(value) => {
                push(&mut subs, value)?;
                return Ok(subs);
            }
            Next::Wrong(fault) => return Err(fault),
        }
    }
    Err(fault_past(alloc, rest)?)
}

fn push(subs: &mut Vec<Bytes>, sub: Bytes) -> Result<(), NoMemory>
    ensures { OnOk result (subs.new.items ≡ subs.old.items ++ sub ∷ []) }
{
    subs.push(sub)?;
    Ok(())
}

/// The subscripts of what stands behind a name.
fn subs_in(alloc: Global, tail: &[u8]) -> Result<Vec<Bytes>, KeyError>
    ensures { ReadsSubs (λ v. v.items) (subs_in tail.now) result }
{
    match tail {
        [] => Ok(Vec::new(alloc)),
        [byte, rest @ ..] => {
            if *byte == b'(' {
                subs_at(alloc, rest)
            } else {
                Err(KeyError::BadSub)
            }
        }
    }
}

/// The key of a name and what stands behind it.
fn named(alloc: Global, name: &[u8], tail: &[u8]) -> Result<Key, KeyError>
    ensures { ReadsKey (named name.now tail.now) result }
{
    if !is_name(name) {
        return Err(KeyError::BadName);
    }
    if LONGEST_NAME < name.len() {
        return Err(KeyError::NameTooLong);
    }
    let subs = subs_in(alloc, tail)?;
    Key::new(alloc, name, &subs)
}

fn key_at(alloc: Global, text: &[u8]) -> Result<Key, KeyError>
    ensures { ReadsKey (key_reading text.now) result }
{
    match text {
        [] => Err(KeyError::BadName),
        [first, rest @ ..] => {
            if *first == b'^' {
                let (name, tail) = rest.split_at(end_of_name(rest));
                named(alloc, name, tail)
            } else {
                Err(KeyError::BadName)
            }
        }
    }
}

impl Key {
    /// The key of a text, as `^X(1,"a")`, or the text's first fault from the left. A subscript is a number's canonical
    /// numeral, or a string of any pieces in quotes and by codes.
    pub fn parse(alloc: Global, text: &[u8]) -> Result<Self, KeyError>
        // Which key, or which fault.
        ensures reading { ReadsKey (key_reading text.now) result }
        // What is read is in the grammar.
        ensures found { IfOk result (IsTextOf text.now) }
        // What is in the grammar is read to its key, or has the fault that its name and subscripts have.
        ensures only { (name : List ℕ) (subs : List (List ℕ)) → is_name name ≡ true → IsKeyText text.now name subs → MakesKey name subs result }
        // What was written is read back.
        ensures again { (key : keys.Key) → is_key key ≡ true → AreBytes key → text.now ≡ node_text key → ReadsKey (Ok key) result }
    {
        key_at(alloc, text)
    }
}
