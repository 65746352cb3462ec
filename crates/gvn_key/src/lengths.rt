//! How long encoded keys are.
ghost use Rattle.std.specs.Prelude.{◌≤◌, ℕ, List, []};
ghost use Rattle.global_defs.specs.declared.limits.TheConstants.{LONGEST_KEY};
ghost use Rattle.gvn_key.specs.Codes.{IsCode, Begins};

/// An encoded key has 2 to 255 bytes, and there is a key of each such length.
pub fn keys_have_each_length()
    ensures bounds { (len : ℕ) (bytes : List ℕ) → IsCode len bytes → (2 ≤ len) × (len ≤ LONGEST_KEY) }
    ensures each { (len : ℕ) → 2 ≤ len → len ≤ LONGEST_KEY → Begins [] len }
{}
