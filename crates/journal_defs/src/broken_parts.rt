//! Small cases of the broken list and its text.

ghost use Rattle.std.specs.Prelude.{◌≡◌, [], ◌∷◌, codes};
ghost use Rattle.journal_defs.specs.Instance.{Cut};
ghost use Rattle.journal_defs.specs.Broken.{broken, broken_text};
ghost use Rattle.journal_defs.specs.Samples.{REIGN, SITE, tcom, half_x, half_h, in_regions};

/// All open surviving parts past the length are broken, region by region, also those of a complete entry, and none up to it is.
pub fn broken_parts_are()
    ensures past_the_length { broken (in_regions (SITE ∷ REIGN ∷ []) (tcom 1 (half_x 1 1) ∷ tcom 1 (half_x 2 2) ∷ tcom 1 (half_x 3 3) ∷ [])
        (tcom 1 (half_h 1 1) ∷ tcom 1 (half_h 3 3) ∷ [])) 1
        ≡ record { region = codes "R"; part = half_x 2 2 } ∷ record { region = codes "R"; part = half_x 3 3 } ∷ record { region = codes "H"; part = half_h 3 3 } ∷ [] }
    ensures up_to_the_length { broken (in_regions (SITE ∷ REIGN ∷ []) (tcom 1 (half_x 1 1) ∷ []) (tcom 1 (half_h 1 1) ∷ [])) 1 ≡ [] }
    ensures first_half { broken (in_regions (SITE ∷ REIGN ∷ []) (tcom 1 (half_x 1 1) ∷ []) []) 0 ≡ record { region = codes "R"; part = half_x 1 1 } ∷ [] }
    ensures discarded { broken (in_regions (SITE ∷ REIGN ∷ Cut 0 2 ∷ []) (tcom 1 (half_x 1 1) ∷ []) (tcom 2 (half_h 1 1) ∷ [])) 0
        ≡ record { region = codes "H"; part = half_h 1 1 } ∷ [] }
{}

/// The text has the number after the length, and a line an item.
pub fn broken_text_is()
    ensures lines { broken_text (codes "A") 1 (record { region = codes "R"; part = half_x 2 2 } ∷ record { region = codes "H"; part = half_h 3 3 } ∷ [])
        ≡ codes "GTMRBRK01\\A\\2\nKILL\\2\\R\\1.2\\^X\nSET\\3\\H\\1.3\\^H=\"1\"\n" }
    ensures nothing { broken_text (codes "A") 1 [] ≡ [] }
{}
