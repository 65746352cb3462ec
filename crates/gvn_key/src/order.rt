//! How keys collate, and which lie under which. Both are told by the encoded keys.
ghost use Rattle.std.specs.Prelude.{◌≡◌, Some, refl};
ghost use Rattle.std.specs.Ordering.{eq_by_cmp};
ghost use Rattle.std.specs.Cmp.{partial_equiv_from_equiv, partial_order_from_agreeing_total};
ghost use Rattle.std.specs.Cmp.Rules.{comparing};
ghost use Rattle.std.proofs.Common.{rules};
ghost use Rattle.std.proofs.lemmas.Cmp.{eq_by_cmp_equiv};
ghost use Rattle.global_defs.specs.Key.{key_cmp};
ghost use Rattle.global_defs.specs.Entry.{is_under};
ghost use Rattle.global_defs.proofs.Order.{key_total};

use super::key::Key;
use super::words::compare_bytes;
use std::cmp::Ordering;

impl Key {
    /// How the key collates with another: names by their bytes, then subscripts one by one, numbers by value before strings,
    /// strings by their bytes, and a node before its descendants.
    pub fn compare(&self, other: &Self) -> Ordering
        ensures { result ≡ key_cmp self.now other.now }
    {
        compare_bytes(self.as_encoded(), other.as_encoded())
    }

    /// Whether the key is the top one or one of its descendants.
    pub fn is_under(&self, top: &Self) -> bool
        ensures { result ≡ is_under top.now self.now }
    {
        self.as_encoded().starts_with(top.as_encoded())
    }
}

impl PartialEq for Key {
    ghost eq = { eq_by_cmp key_cmp };

    ghost laws = { partial_equiv_from_equiv (eq_by_cmp_equiv key_total) };

    fn eq(&self, other: &Self) -> bool {
        self.compare(other) == Ordering::Equal
    }
}

impl Eq for Key {
    ghost laws = { eq_by_cmp_equiv key_total };
}

impl PartialOrd for Key {
    ghost partial_cmp = { λ x y. Some (key_cmp x y) };

    ghost laws = { partial_order_from_agreeing_total key_cmp key_total (λ x y. refl) (λ x y. refl) };

    fn partial_cmp(&self, other: &Self) -> Option<Ordering> {
        Some(self.compare(other))
    }
}

/// M collation.
impl Ord for Key {
    ghost cmp = { key_cmp };

    ghost total = { key_total };

    ghost matches_partial_cmp = { λ x y. refl };

    ghost matches_eq = { λ x y. refl };

    fn cmp(&self, other: &Self) -> Ordering {
        self.compare(other)
    }
}
