// What a Source Server has shipped, over its steps.
ghost use Rattle.std.specs.Prelude.{◌≡◌, ℕ, ◌+◌, ◌-◌, ◌++◌, false, true, length, List, [], ◌∷◌};
ghost use Rattle.global_defs.specs.Entry.{Reign};
ghost use Rattle.wire_defs.specs.Frames.{Resume, Bye, spelled_frame};
ghost use Rattle.source_server.specs.Sources.{Shipping, resumed_at, HasSent, HasTaken, HasShipped, AllFrom};

use super::entries::EntrySource;

/// From behind a RESUME on, what a Source Server has sent and made stays the RESUME, the frames of the entries that it took, in order of
/// their numbers, and BYE where it has ended: a step that takes no entry adds none, and one that takes the next entry adds that.
pub fn shipping_goes_on()
    ensures begins { (reigns : List Reign) (from : ℕ) → HasShipped (resumed_at reigns from) (spelled_frame (Resume from)) from [] }
    ensures sent { (a b : Shipping) (sent now : List ℕ) (from : ℕ) (entries : List (List ℕ))
        → HasSent a b sent now → HasShipped a sent from entries → HasShipped b now from entries }
    ensures taken { (entry : List ℕ) (a b : Shipping) (sent now : List ℕ) (from : ℕ) (entries : List (List ℕ))
        → HasTaken entry a b sent now → HasShipped a sent from entries → HasShipped b now from (entries ++ entry ∷ []) }
    ensures ended { (a : Shipping) (sent : List ℕ) (from : ℕ) (entries : List (List ℕ)) → a.ended ≡ false
        → HasShipped a sent from entries → HasShipped (record a { ended = true; pending = a.pending ++ spelled_frame (Bye (a.next - 1)) }) sent from entries }
{}

/// What a source has shown of entries it shows later too, and of one entry more.
pub fn entries_stay<E: EntrySource>()
    ensures kept { (a b : E) (from : ℕ) (entries : List (List ℕ)) → ((n : ℕ) (entry : List ℕ) → E.is_entry a n entry → E.is_entry b n entry)
        → AllFrom (E.is_entry a) from entries → AllFrom (E.is_entry b) from entries }
    ensures more { (a : E) (from : ℕ) (entry : List ℕ) (entries : List (List ℕ)) → AllFrom (E.is_entry a) from entries → E.is_entry a (from + length entries) entry
        → AllFrom (E.is_entry a) from (entries ++ entry ∷ []) }
{}
