//! Laws of connections that are over.
ghost use Rattle.std.specs.Prelude.{◌≡◌, ℕ, false, IsTrue, [], ◌∷◌, ◌++◌};
ghost use Rattle.global_defs.specs.Prefix.{IsPrefix};
ghost use Rattle.wire_defs.specs.Links.{Linking, Past, cut_at_once, was_cut, past_since};

/// A connection that was given back is the one of its session that came to be over since then, and of
/// other sessions there is none. Calls one after another tell all theirs, in order.
pub fn what_is_over()
    ensures none { (a b : Linking) (s : ℕ) → b.past ≡ a.past → past_since a b s ≡ [] }
    ensures own { (a b : Linking) (p : Past) → b.past ≡ a.past ++ p ∷ [] → past_since a b p.session ≡ p ∷ [] }
    ensures others { (a b : Linking) (p : Past) (s : ℕ) → b.past ≡ a.past ++ p ∷ [] → (s ≡ p.session → ⊥) → past_since a b s ≡ [] }
    ensures along { (a b c : Linking) (s : ℕ) → IsPrefix a.past b.past → IsPrefix b.past c.past
        → past_since a c s ≡ past_since a b s ++ past_since b c s }
{}

/// A connection that was cut as it was made counts as cut, and one of which no end was found cut doesn't.
pub fn cuts_are_told()
    ensures at_once { (s : ℕ) → IsTrue (was_cut (cut_at_once s)) }
    ensures uncut { (p : Past) → p.cuts ≡ 0 → was_cut p ≡ false }
{}
