//! Keys.
ghost use Rattle.std.specs.Prelude.{◌≡◌, ◌++◌, ◌∷◌, [], ℕ, true, length, map, None, IfOk, OnOk, OnErr};
ghost use Rattle.std.specs.List.{list_all, flat_map};
ghost use Rattle.std.specs.Char.{is_ascii_alphanumeric};
ghost use Rattle.global_defs.specs.Key.{sub_of};
ghost use Rattle.global_defs.specs.Valid.{is_name, is_key};
ghost use Rattle.global_defs.specs.Encoded.{encoded, encoded_sub};
ghost use Rattle.global_defs.specs.NodeText.{sub_text, subs_text, node_text};
ghost use Rattle.gvn_key.specs.Decoding.{IsKept, key_read};
ghost use Rattle.gvn_key.specs.Faults.{subs_fault, parts_fault, key_of, child_of, MakesKey};

use super::bytes::{Bytes, NoMemory};
use super::encoding::{push_sub, push_subs};
use super::numeral::is_number;
use super::subs_text::push_subs_text;
use super::zwr::push_zwr;
use global_defs::limits::{LONGEST_KEY, LONGEST_NAME, MOST_SUBS};
use std::alloc::Global;
use std::marker::Model;
use std::sync::Arc;
use thiserror::Error;

/// How many bytes an encoded subscript has beside its own, where nothing is escaped.
const BESIDE_SUB: usize = 3;

/// How many bytes a key's text mostly has beside those of the encoded key.
const BESIDE_TEXT: usize = 2;

/// Why a name and subscripts, or a text, are no key: the first fault from the left.
#[derive(Clone, Copy, Debug, PartialEq, Eq, Error)]
pub enum KeyError {
    /// The name isn't a percent sign or a letter and then letters and digits.
    #[error("not a name")]
    BadName,
    /// The name has more than 31 characters.
    #[error("the name is too long")]
    NameTooLong,
    /// The text of a subscript is neither a numeral nor a string, or a bracket is missing or one too many.
    #[error("not a subscript")]
    BadSub,
    /// A subscript is empty.
    #[error("an empty subscript")]
    NullSub,
    /// There is a 32nd subscript.
    #[error("too many subscripts")]
    TooManySubs,
    /// The encoded key has more than 255 bytes.
    #[error("the key is too long")]
    KeyTooLong,
    /// There was no memory.
    #[error("out of memory")]
    NoMemory,
}

impl From<NoMemory> for KeyError {
    ghost use Rattle.gvn_key.specs.declared.key.KeyError.TheVariants as errors;

    ghost from_gives = { λ _ e. e ≡ errors.NoMemory };

    fn from(_: NoMemory) -> Self {
        KeyError::NoMemory
    }
}

/// A node's key: a name and up to 31 subscripts, each a number or a string, with at most 255 bytes encoded. It keeps its encoded form
/// alone, and copies share that, so that a copy takes no memory.
#[derive(Debug, Drop)]
pub struct Key {
    code: Arc<Bytes, Global>,
}

impl Model for Key {
    ghost use Rattle.global_defs.specs.Key as defs;
    ghost use Rattle.std.specs.Arc.{arc_value};
    ghost use Rattle.gvn_key.specs.Decoding as decoding;

    ghost Value = { defs.Key };

    ghost view = { λ k. decoding.key_read (arc_value k.code) };

    ghost invariant = { λ k. decoding.IsKept (arc_value k.code) };
}

fn all_alphanumeric(bytes: &[u8]) -> bool
    ensures { result ≡ list_all is_ascii_alphanumeric bytes.now }
{
    bytes.iter().all(|b| b.is_ascii_alphanumeric())
}

/// Whether these bytes are a name, of any length: a percent sign or a letter, and then letters and digits.
pub fn is_name(bytes: &[u8]) -> bool
    ensures { result ≡ is_name bytes.now }
{
    match bytes {
        [] => false,
        [first, rest @ ..] => {
            (*first == b'%' || first.is_ascii_alphabetic()) && all_alphanumeric(rest)
        }
    }
}

/// The first fault of subscripts, from the left.
fn subs_fault(subs: &[Bytes]) -> Option<KeyError>
    ensures { result ≡ subs_fault 0 subs.now }
{
    for (i, sub) in subs.iter().enumerate() {
        if sub.is_empty() {
            return Some(KeyError::NullSub);
        }
        if MOST_SUBS <= i {
            return Some(KeyError::TooManySubs);
        }
    }
    None
}

/// The first fault of a name and subscripts, but for the length of the whole.
fn parts_fault(name: &[u8], subs: &[Bytes]) -> Option<KeyError>
    ensures { result ≡ parts_fault name.now subs.now }
{
    if !is_name(name) {
        return Some(KeyError::BadName);
    }
    if LONGEST_NAME < name.len() {
        return Some(KeyError::NameTooLong);
    }
    subs_fault(subs)
}

/// How many bytes the encoded key has at most, where nothing is escaped.
fn room_of(name: &[u8], subs: &[Bytes]) -> usize {
    let mut room = name.len().saturating_add(1);
    for sub in subs {
        room = room.saturating_add(sub.len()).saturating_add(BESIDE_SUB);
    }
    room
}

/// The encoded key of a name and subscripts.
fn encode(alloc: Global, name: &[u8], subs: &[Bytes]) -> Result<Bytes, NoMemory>
    ensures { IfOk result (λ code. code ≡ encoded (key_of name.now subs.now)) }
{
    let mut code = Bytes::with_capacity(alloc, room_of(name, subs))?;
    code.push_all(name)?;
    code.push(0)?;
    push_subs(alloc, subs, &mut code)?;
    Ok(code)
}

impl Key {
    /// The key of a name and subscripts, or the first fault from the left.
    pub fn new(alloc: Global, name: &[u8], subs: &[Bytes]) -> Result<Self, KeyError>
        ensures { MakesKey name.now subs.now result }
    {
        if let Some(fault) = parts_fault(name, subs) {
            return Err(fault);
        }
        let code = encode(alloc, name, subs)?;
        if LONGEST_KEY < code.len() {
            return Err(KeyError::KeyTooLong);
        }
        Ok(Key::made(alloc, code)?)
    }

    /// The key that has these bytes as its encoded form.
    pub(crate) fn made(alloc: Global, code: Bytes) -> Result<Self, NoMemory>
        requires { IsKept code }
        ensures { IfOk result (λ key. key ≡ key_read code) }
    {
        Ok(Key {
            code: Arc::new(alloc, code)?,
        })
    }

    /// The encoded key.
    pub fn as_encoded(&self) -> &[u8]
        ensures value { result.now ≡ encoded self.now }
        ensures valid { is_key self.now ≡ true }
    {
        self.code.as_slice()
    }

    /// The encoded key, as a list that a map's keys compare with.
    pub fn code(&self) -> &Bytes
        ensures value { result.now ≡ encoded self.now }
        ensures valid { is_key self.now ≡ true }
    {
        &self.code
    }

    /// Bytes behind those of all keys that have such a subscript next, and before those of all later keys.
    pub fn past(&self, sub: &[u8]) -> Result<Bytes, NoMemory>
        ensures value { IfOk result (λ made. made ≡ encoded self.now ++ encoded_sub (sub_of sub.now) ++ 255 ∷ []) }
        ensures valid { is_key self.now ≡ true }
    {
        let alloc = self.code.allocator();
        let mut made = self.code.copy()?;
        push_sub(alloc, sub, &mut made)?;
        made.push(255)?;
        Ok(made)
    }

    /// The key of the node below this one that has such a subscript next.
    pub fn child(&self, sub: &[u8]) -> Result<Self, NoMemory>
        requires { is_key (child_of self.now (sub_of sub.now)) ≡ true }
        ensures { IfOk result (λ made. made ≡ child_of self.now (sub_of sub.now)) }
    {
        let alloc = self.code.allocator();
        let mut code = self.code.copy()?;
        push_sub(alloc, sub, &mut code)?;
        Key::made(alloc, code)
    }

    /// Adds the encoded key at the end.
    pub fn encode(&self, out: &mut Bytes) -> Result<(), NoMemory>
        ensures ok { OnOk result (out.new ≡ out.old ++ encoded self.now) }
        ensures err { OnErr result (out.new ≡ out.old) }
    {
        out.push_all(self.code.as_slice())
    }

    /// An equal key.
    pub fn copy(&self) -> Result<Self, NoMemory>
        ensures { IfOk result (λ made. made ≡ self.now) }
    {
        Ok(Key {
            code: Arc::try_clone(&self.code)?,
        })
    }

    /// Adds the key's text at the end, as `^X(1,"a")`.
    pub fn write(&self, out: &mut Bytes) -> Result<(), NoMemory>
        ensures ok { OnOk result (out.new ≡ out.old ++ node_text self.now) }
        ensures err { OnErr result (out.new ≡ out.old) }
    {
        let room = self.as_encoded().len().saturating_add(BESIDE_TEXT);
        let mut text = Bytes::with_capacity(out.allocator(), room)?;
        text.push(b'^')?;
        text.push_all(self.name())?;
        push_subs_text(self.subs_code(), &mut text)?;
        out.push_all(text.as_slice())
    }
}

/// Adds the text of a subscript of these bytes at the end. Without memory some of it may be there.
fn push_sub_text(sub: &[u8], out: &mut Bytes) -> Result<(), NoMemory>
    ensures { OnOk result (out.new ≡ out.old ++ sub_text (sub_of sub.now)) }
{
    if is_number(sub) {
        out.push_all(sub)
    } else {
        push_zwr(sub, out)
    }
}

/// Adds the text of a subscript of these bytes at the end: a number by its numeral, a string in ZWR form.
pub fn write_sub(sub: &[u8], out: &mut Bytes) -> Result<(), NoMemory>
    ensures ok { OnOk result (out.new ≡ out.old ++ sub_text (sub_of sub.now)) }
    ensures err { OnErr result (out.new ≡ out.old) }
{
    let mut text = Bytes::new(out.allocator());
    push_sub_text(sub, &mut text)?;
    out.push_all(text.as_slice())
}
