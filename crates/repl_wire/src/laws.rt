//! That a stream is read in one way.
ghost use Rattle.std.specs.Prelude.{◌≡◌, ◌⊎◌, ℕ, List, ◌∷◌, ◌++◌};
ghost use Rattle.global_defs.specs.Prefix.{IsPrefix};
ghost use Rattle.wire_defs.specs.Frames as defs;
ghost use Rattle.wire_defs.specs.Frames.{AreFrames, BeginsFrame, BeginsNone, IsFrame, spelled_frame};

/// Bytes are well-formed frames and then a rest in one way alone, where the rest begins a frame or where none begins so; and
/// no rest does both. So no frame's bytes begin another's.
pub fn one_reading()
    ensures one { (bytes : List ℕ) (fs gs : List defs.Frame) (r s : List ℕ) → AreFrames bytes fs r → AreFrames bytes gs s
        → BeginsFrame r ⊎ BeginsNone r → BeginsFrame s ⊎ BeginsNone s → (fs ≡ gs) × (r ≡ s) }
    ensures apart { (bytes : List ℕ) → BeginsFrame bytes → BeginsNone bytes → ⊥ }
{}

/// Frames lie apart. Bytes that begin with a well-formed frame's begin with no other frame's, so what a frame's bytes begin with
/// is no frame unless it's all of them. And what was received so far of a stream reads to frames that the stream begins with.
pub fn frames_apart_hold()
    ensures one { (f g : defs.Frame) (x y : List ℕ) → IsFrame f → IsFrame g → spelled_frame f ++ x ≡ spelled_frame g ++ y → (f ≡ g) × (x ≡ y) }
    ensures part { (f g : defs.Frame) (b : ℕ) (more : List ℕ) → IsFrame f → IsFrame g → spelled_frame f ≡ spelled_frame g ++ b ∷ more → ⊥ }
    ensures front { (bytes more : List ℕ) (fs gs : List defs.Frame) (r s : List ℕ) → AreFrames bytes fs r → AreFrames (bytes ++ more) gs s → BeginsFrame s ⊎ BeginsNone s → IsPrefix fs gs }
{}
