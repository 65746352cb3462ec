// Where a direction's bytes are bad.
ghost use Rattle.std.specs.Prelude.{◌≡◌, ℕ, Bool, false, List, ◌++◌};
ghost use Rattle.wire_defs.specs.Frames.{Frame};
ghost use Rattle.ship_defs.specs.Hearing.{Purpose, Heard, Hearing, IsBadFromPrimary, EndsFromPrimary, HasUnfit};
ghost use Rattle.ship_defs.specs.Greeting.{IsBadToPrimary, GreetsWith};

/// The bytes of a direction are bad at one place at most, whether it has ended by then or not. So it is where a Receiver Server looks for
/// what doesn't fit, which leaves the nodes out.
pub fn one_place()
    ensures from_primary { (p : Purpose) (h : Hearing) (bytes : List ℕ) (ended done : Bool) (o q : ℕ)
        → IsBadFromPrimary p h bytes ended o → IsBadFromPrimary p h bytes done q → o ≡ q }
    ensures unfit { (p : Purpose) (h : Heard) (bytes : List ℕ) (ended done : Bool) (o q : ℕ)
        → HasUnfit p h bytes ended o → HasUnfit p h bytes done q → o ≡ q }
    ensures to_primary { (bytes : List ℕ) (ended done : Bool) (o q : ℕ) → IsBadToPrimary bytes ended o → IsBadToPrimary bytes done q → o ≡ q }
{}

/// Bytes that are bad somewhere are no whole direction, which has one last frame.
pub fn not_both()
    ensures from_primary { (p : Purpose) (h : Hearing) (bytes : List ℕ) (ended : Bool) (o : ℕ) (last : Frame)
        → IsBadFromPrimary p h bytes ended o → EndsFromPrimary p h bytes last → ⊥ }
    ensures to_primary { (bytes : List ℕ) (ended : Bool) (o : ℕ) (hello : Frame) → IsBadToPrimary bytes ended o → GreetsWith bytes hello → ⊥ }
    ensures one_last { (p : Purpose) (h : Hearing) (bytes : List ℕ) (f g : Frame) → EndsFromPrimary p h bytes f → EndsFromPrimary p h bytes g → f ≡ g }
    ensures one_hello { (bytes : List ℕ) (f g : Frame) → GreetsWith bytes f → GreetsWith bytes g → f ≡ g }
{}

/// Bytes that are bad stay so at that place, whatever comes behind them.
pub fn grows()
    ensures from_primary { (p : Purpose) (h : Hearing) (bytes more : List ℕ) (ended : Bool) (o : ℕ)
        → IsBadFromPrimary p h bytes false o → IsBadFromPrimary p h (bytes ++ more) ended o }
    ensures unfit { (p : Purpose) (h : Heard) (bytes more : List ℕ) (ended : Bool) (o : ℕ)
        → HasUnfit p h bytes false o → HasUnfit p h (bytes ++ more) ended o }
    ensures to_primary { (bytes more : List ℕ) (ended : Bool) (o : ℕ) → IsBadToPrimary bytes false o → IsBadToPrimary (bytes ++ more) ended o }
{}
