// What a session's sequences are to one another.
ghost use Rattle.std.specs.Prelude.{◌≡◌, ℕ, List, ◌++◌, length, map};
ghost use Rattle.std.specs.List.{AllByRecursion};
ghost use Rattle.global_defs.specs.Entry.{Sequence};
ghost use Rattle.global_defs.specs.Prefix.{IsPrefix};
ghost use Rattle.lineage_defs.specs.Histories.{HasStamps};
ghost use Rattle.wire_defs.specs.Frames.{IsFrame, AreFrames};
ghost use Rattle.ship_defs.specs.Hearing.{Ships, Over};
ghost use Rattle.ship_defs.specs.Shipping.{connection};
ghost use Rattle.ship_defs.specs.Arrivals.{Arrival, BringsTo, IsInOrder};
ghost use Rattle.source_server.specs.Sources.{Shipping};
ghost use Rattle.update_process.specs.Copies.{Copy, next_of};
ghost use Rattle.session_turns.specs.Following.{Followed, HasFit};
ghost use Rattle.session_turns.specs.Sessions.{HasMade, AreFirst};

/// A primary has sent entries of its sequence, behind those that its secondary had; of the bytes sent the first were received, and what arrived
/// with them was applied. Then what the secondary has begins with what it had, and is a prefix of what it received, that of what was sent,
/// and that of the primary's sequence.
pub fn sessions_are_in_order()
    ensures { (begun c : Copy) (put : List Arrival) (f : HasFit begun put) (s : Shipping) (part : Sequence) (size : ℕ) (sent received rest : List ℕ) (given : List (List ℕ)) (r q : Sequence)
        → HasMade (next_of begun) size s sent given → AreFirst (next_of begun) given (map (λ e. e.transaction) part) → size ≡ length (begun.sequence ++ part) → HasStamps s.reigns (begun.sequence ++ part)
        → AllByRecursion IsFrame (connection s.reigns (next_of begun) (map (λ e. e.transaction) part)) → IsPrefix received sent → AreFrames received f.frames rest → Followed begun put c
        → BringsTo begun.sequence received r → BringsTo begun.sequence sent q → IsInOrder begun.sequence c.sequence r q (begun.sequence ++ part) }
{}

/// Where the secondary has heard BYE it has the primary's whole sequence.
pub fn a_bye_tells_all()
    ensures { (begun c : Copy) (put : List Arrival) (f : HasFit begun put) (s : Shipping) (part : Sequence) (size : ℕ) (sent received rest : List ℕ) (given : List (List ℕ))
        → HasMade (next_of begun) size s sent given → AreFirst (next_of begun) given (map (λ e. e.transaction) part) → size ≡ length (begun.sequence ++ part) → HasStamps s.reigns (begun.sequence ++ part)
        → AllByRecursion IsFrame (connection s.reigns (next_of begun) (map (λ e. e.transaction) part)) → IsPrefix received sent → AreFrames received f.frames rest → Followed begun put c
        → f.purpose ≡ Ships → f.now.last ≡ Over → c.sequence ≡ begun.sequence ++ part }
{}
