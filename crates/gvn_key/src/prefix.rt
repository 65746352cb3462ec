//! Encoded keys of which a front has come.
use super::place::Place;

/// The bytes of an encoded key of a known length, taken one by one. It answers at the first byte from which on no key is left,
/// in a few steps a byte, and takes no memory.
#[derive(Clone, Copy, Debug, PartialEq, Eq)]
pub struct KeyPrefix {
    place: Place,
    left: u8,
}

impl KeyPrefix {
    ghost use Rattle.std.specs.Prelude.{◌≡◌, ◌+◌, ◌∷◌, [], ◌++◌, ◌↔◌, ℕ, List, length, ◌≤◌, IsTrue, IsSome, MatchOption};
    ghost use Rattle.std.specs.Bool.{OnTrue, OnFalse};
    ghost use Rattle.gvn_key.specs.Codes.{IsCode, Begins};
    ghost use Rattle.gvn_key.specs.Rests.{IsAt};

    /// Before the first byte of a key of that length, `None` where no key's encoded form has it: keys have 2 to 255 bytes.
    pub fn new(len: u8) -> Option<Self>
        ensures bound { IsSome result ↔ (2 ≤ len) }
        ensures cases { MatchOption result ((bytes : List ℕ) → IsCode len bytes → ⊥) (λ prefix. IsAt prefix [] len) }
    {
        let place = Place::Name(0);
        if place.fits(len) {
            Some(KeyPrefix { place, left: len })
        } else {
            None
        }
    }

    /// Takes one more byte. It answers whether some key of that length begins with it and those before it; if none does, the
    /// byte isn't taken.
    pub fn take(&mut self, byte: u8) -> bool
        ensures begins { (taken : List ℕ) (len : ℕ) → IsAt self.old taken len → OnTrue result (IsAt self.new (taken ++ byte ∷ []) len) }
        ensures begins_none { (taken : List ℕ) (len : ℕ) → IsAt self.old taken len → OnFalse result (Begins (taken ++ byte ∷ []) len → ⊥) }
        ensures unchanged { OnFalse result (self.new ≡ self.old) }
    {
        if self.left == 0 {
            return false;
        }
        let left = self.left - 1;
        match self.place.step(byte) {
            Some(place) => {
                if place.fits(left) {
                    *self = KeyPrefix { place, left };
                    true
                } else {
                    false
                }
            }
            None => false,
        }
    }

    /// How many bytes are missing. With none missing the bytes taken are a whole key's.
    pub fn left(&self) -> u8
        ensures rest { (taken : List ℕ) (len : ℕ) → IsAt self.now taken len → result + length taken ≡ len }
        ensures whole { (taken : List ℕ) (len : ℕ) → IsAt self.now taken len → result ≡ 0 → IsCode len taken }
    {
        self.left
    }

    /// Whether no byte is missing.
    pub fn is_whole(&self) -> bool
        ensures { (taken : List ℕ) (len : ℕ) → IsAt self.now taken len → IsTrue result ↔ (length taken ≡ len) }
    {
        self.left == 0
    }
}
