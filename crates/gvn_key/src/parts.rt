//! Keys from their encoded bytes, and their parts read out of these.
ghost use Rattle.std.specs.Prelude.{◌≡◌, ◌↔◌, ◌<◌, true, length, map, drop, option_map, IsTrue, IfOk, IfSome};
ghost use Rattle.std.specs.List.{list_all, flat_map};
ghost use Rattle.global_defs.specs.Encoded.{encoded, encoded_sub};
ghost use Rattle.global_defs.specs.Evaluation.{first_sub};
ghost use Rattle.global_defs.specs.Key as keys;
ghost use Rattle.global_defs.specs.Key.{sub_of};
ghost use Rattle.global_defs.specs.Valid.{is_key, is_sub};
ghost use Rattle.gvn_key.specs.Decoding.{Decodes, IsCode, sub_below};
ghost use Rattle.gvn_key.specs.Faults.{child_of, front_of};

use super::bytes::{Bytes, NoMemory};
use super::decode::{behind, depth, first_sub, place, subs};
use super::key::Key;
use crate::prefix::KeyPrefix;
use global_defs::limits::LONGEST_KEY;
use std::alloc::Global;

/// Whether some key has these bytes as its encoded form. It takes no memory.
pub fn is_code(bytes: &[u8]) -> bool
    ensures { IsTrue result ↔ IsCode bytes.now }
{
    if bytes.len() > LONGEST_KEY {
        return false;
    }
    let Some(mut prefix) = KeyPrefix::new(bytes.len() as u8) else {
        return false;
    };
    for byte in bytes {
        if !prefix.take(*byte) {
            return false;
        }
    }
    true
}

impl Key {
    /// Where the name ends in the encoded key.
    fn name_end(&self) -> usize
        ensures end { result ≡ length self.now.name }
        ensures within { result < length (encoded self.now) }
    {
        match place(0, self.as_encoded()) {
            Some(end) => end,
            None => unreachable!(),
        }
    }

    /// The name.
    pub fn name(&self) -> &[u8]
        ensures { result.now ≡ self.now.name }
    {
        let end = self.name_end();
        &self.as_encoded()[..end]
    }

    /// The encoded subscripts, one after another.
    pub(crate) fn subs_code(&self) -> &[u8]
        ensures value { result.now ≡ flat_map encoded_sub self.now.subs }
        ensures valid { list_all is_sub self.now.subs ≡ true }
    {
        let end = self.name_end();
        &self.as_encoded()[end + 1..]
    }

    /// How many subscripts there are.
    pub fn depth(&self) -> usize
        ensures { result ≡ length self.now.subs }
    {
        depth(self.subs_code())
    }

    /// The subscripts by their own bytes: of a number its canonical numeral.
    pub fn subs(&self) -> Result<Vec<Bytes>, NoMemory>
        ensures { IfOk result (λ subs. map sub_of subs.items ≡ self.now.subs) }
    {
        match subs(self.code().allocator(), self.subs_code())? {
            Some(subs) => Ok(subs),
            None => unreachable!(),
        }
    }

    /// The own bytes of the subscript at a place from 0, `None` where there are no more than that. No other subscript is read.
    pub fn sub_at(&self, place: usize) -> Result<Option<Bytes>, NoMemory>
        ensures { IfOk result (λ sub. option_map sub_of sub ≡ first_sub (drop place self.now.subs)) }
    {
        first_sub(self.code().allocator(), behind(self.subs_code(), place))
    }

    /// The key of the first so many subscripts: the node itself where it has no more, else one above it.
    pub fn front(&self, count: usize) -> Result<Self, NoMemory>
        ensures { IfOk result (λ key. key ≡ front_of count self.now) }
    {
        let alloc = self.code().allocator();
        let code = self.as_encoded();
        let left = behind(self.subs_code(), count);
        let end = code.len() - left.len();
        Key::made(alloc, Bytes::of(alloc, &code[..end])?)
    }

    /// The key of these bytes, which some key has as its encoded form. They aren't tested again.
    pub fn of_code(alloc: Global, code: &[u8]) -> Result<Self, NoMemory>
        requires { IsCode code.now }
        ensures code { IfOk result (λ key. encoded key ≡ code.now) }
        ensures valid { IfOk result (λ key. is_key key ≡ true) }
    {
        Key::made(alloc, Bytes::of(alloc, code)?)
    }

    /// The own bytes of the subscript at the level below this node, of the key that has these bytes as its encoded form: of a number
    /// its numeral, and `None` where that key isn't one of a descendant. No other subscript is read.
    pub fn next_sub(&self, code: &[u8]) -> Result<Option<Bytes>, NoMemory>
        requires { IsCode code.now }
        ensures next { (key : keys.Key) → is_key key ≡ true → encoded key ≡ code.now → IfOk result (λ sub. option_map sub_of sub ≡ sub_below self.now key) }
        ensures a_key { IfOk result (λ sub. IfSome sub (λ bytes. is_key (child_of self.now (sub_of bytes)) ≡ true)) }
    {
        let own = self.as_encoded();
        if code.starts_with(own) {
            first_sub(self.code().allocator(), &code[own.len()..])
        } else {
            Ok(None)
        }
    }

    /// The key that has these bytes as its encoded form, `None` where no key has them.
    pub fn decode(alloc: Global, bytes: &[u8]) -> Result<Option<Self>, NoMemory>
        ensures { IfOk result (λ found. Decodes bytes.now found) }
    {
        if is_code(bytes) {
            Ok(Some(Key::of_code(alloc, bytes)?))
        } else {
            Ok(None)
        }
    }
}
