// Worlds before anything has happened, and sites that are made.
ghost use Rattle.std.specs.Prelude.{◌≡◌, ℕ, [], ◌∷◌, ◌++◌, List, slice_get, Some};
ghost use Rattle.lineage_defs.specs.Sites.{Site, World, fresh};
ghost use Rattle.lineage_defs.specs.Lineage.{Agree, HasCycles, IsFit};
ghost use Rattle.lineage_defs.specs.Outcomes.{IsAtRest, IsUnused};

/// A world without sites is fit. So are sites at rest that have names of their own, agree, and have
/// used no cycle that they don't know of. A site that is made without entries keeps a world fit where
/// its name was never used.
pub fn worlds_begin_fit()
    ensures empty { IsFit [] }
    ensures at_rest { (w : World) → ((i : ℕ) (a : Site) → slice_get w i ≡ Some a → IsAtRest a)
        → ((i j : ℕ) (a b : Site) → slice_get w i ≡ Some a → slice_get w j ≡ Some b → a.name ≡ b.name → i ≡ j)
        → ((i j : ℕ) (a b : Site) → slice_get w i ≡ Some a → slice_get w j ≡ Some b → Agree a.sequence b.sequence)
        → ((i j : ℕ) (a b : Site) → slice_get w i ≡ Some a → slice_get w j ≡ Some b → HasCycles a.name a.cycle b.sequence)
        → IsFit w }
    ensures made { (w : World) (name : List ℕ) → IsFit w → IsUnused name w → IsFit (w ++ fresh name ∷ []) }
{}
