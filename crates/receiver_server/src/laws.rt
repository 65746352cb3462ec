// What a Receiver Server's answers tell of the bytes received.
ghost use Rattle.std.specs.Prelude.{◌≡◌, ◌≢◌, ℕ, Bool, true, List, [], ◌∷◌, ◌++◌};
ghost use Rattle.global_defs.specs.Entry.{Globals};
ghost use Rattle.wire_defs.specs.Frames.{Frame, AreFrames};
ghost use Rattle.ship_defs.specs.Directions.{Admitted};
ghost use Rattle.ship_defs.specs.Arrivals.{Arrival};
ghost use Rattle.ship_defs.specs.Hearing.{Purpose, Heard, Fits, Over, IsOver, IsBadFromPrimary, EndsFromPrimary};
ghost use Rattle.receiver_server.specs.Listenings.{Listening, IsHearing, IsQuiet, IsIdle, IsUnfitBehind, HavePlaces};

/// Where a connection is over, all that was received are the frames that were heard. Where it ended before, it is bad behind them. Both
/// are so by a secondary's own rules where there was room for the nodes of each.
pub fn hearing_is_told()
    ensures over { (begun : Heard) (s : Listening) (received : List ℕ) (put : List Arrival) (frames : List Frame)
        → IsHearing begun s received put frames → IsQuiet s → AreFrames received frames [] }
    ensures early { (begun : Heard) (s : Listening) (received : List ℕ) (put : List Arrival) (frames : List Frame)
        → IsHearing begun s received put frames → IsIdle s → s.heard.last ≢ Over → IsUnfitBehind s.purpose begun frames received true s.offset }
    ensures bad { (p : Purpose) (h : Heard) (g : Globals) (frames : List Frame) (bytes : List ℕ) (ended : Bool) (offset : ℕ)
        → IsUnfitBehind p h frames bytes ended offset → HavePlaces g frames → IsBadFromPrimary p (record { heard = h; globals = g }) bytes ended offset }
    ensures whole { (p : Purpose) (h now : Heard) (g : Globals) (frames : List Frame) (last : Frame) (bytes : List ℕ)
        → AreFrames bytes (frames ++ last ∷ []) [] → Admitted (Fits p) h (frames ++ last ∷ []) now → IsOver now.last → HavePlaces g (frames ++ last ∷ [])
        → EndsFromPrimary p (record { heard = h; globals = g }) bytes last }
{}
