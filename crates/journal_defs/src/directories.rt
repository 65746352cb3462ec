//! Small cases of the directory.

ghost use Rattle.std.specs.Prelude.{◌≡◌, true, false, [], ◌∷◌, codes};
ghost use Rattle.journal_defs.specs.Instance.{Map, Cut};
ghost use Rattle.journal_defs.specs.Directory.{region_of, patterns};
ghost use Rattle.journal_defs.specs.Samples.{SITE};

/// An exact name wins over every prefix, a longer prefix over a shorter one, and the first region takes the rest.
pub fn regions_are()
    ensures longer_prefix { region_of (patterns (SITE ∷ Map 1 true (codes "H") ∷ Map 2 true (codes "HI") ∷ Map 3 true (codes "H") ∷ [])) (codes "HIJ") ≡ 2 }
    ensures shorter_later { region_of (patterns (SITE ∷ Map 2 true (codes "HI") ∷ Map 1 true (codes "H") ∷ [])) (codes "HIJ") ≡ 2 }
    ensures exact_name { region_of (patterns (SITE ∷ Map 2 false (codes "H") ∷ Map 1 true (codes "H") ∷ [])) (codes "H") ≡ 2 }
    ensures exact_later { region_of (patterns (SITE ∷ Map 1 true (codes "H") ∷ Map 2 false (codes "H") ∷ [])) (codes "H") ≡ 2 }
    ensures no_exact_name { region_of (patterns (SITE ∷ Map 2 false (codes "H") ∷ Map 1 true (codes "H") ∷ [])) (codes "HI") ≡ 1 }
    ensures no_prefix { region_of (patterns (SITE ∷ Map 1 true (codes "HI") ∷ [])) (codes "H") ≡ 0 }
    ensures the_rest { region_of (patterns (SITE ∷ Cut 0 1 ∷ [])) (codes "X") ≡ 0 }
{}
