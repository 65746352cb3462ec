//! Patterns as an instance file has them.
ghost use Rattle.std.specs.Prelude.{◌≡◌, ◌<◌, ◌↔◌, ℕ, List, true};
ghost use Rattle.global_defs.specs.declared.limits.TheConstants.{MOST_REGIONS};
ghost use Rattle.journal_defs.specs.Instance.{IsInForm, Map};
ghost use Rattle.global_defs.specs.Pattern.{ends_in_star, stem, is_pattern};

/// A text is a pattern where the MAP of its name and its star is a record of its form. It does nothing.
pub fn patterns_have_forms()
    ensures { (region : ℕ) (text : List ℕ) → region < MOST_REGIONS → (is_pattern text ≡ true) ↔ IsInForm (Map region (ends_in_star text) (stem text)) }
{}
