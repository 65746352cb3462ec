// The entries of bytes.
ghost use Rattle.std.specs.Prelude.{◌≡◌, ℕ, ◌+◌, Bool, List, ◌++◌, length, map};
ghost use Rattle.global_defs.specs.Entry.{Transaction, Sequence, Reign};
ghost use Rattle.global_defs.specs.Prefix.{IsPrefix};
ghost use Rattle.lineage_defs.specs.Histories.{HasStamps};
ghost use Rattle.std.specs.List.{AllByRecursion};
ghost use Rattle.wire_defs.specs.Frames.{stream, IsFrame};
ghost use Rattle.ship_defs.specs.Shipping.{shipped, shipped_bytes, bytes_from, resumed, resumed_bytes, connection};
ghost use Rattle.ship_defs.specs.Arrivals.{HasEntries, BringsTo};

/// What a Source Server sends by the bytes of entries is the stream of their frames.
pub fn bytes_are_frames()
    ensures shipped { (reigns : List Reign) (first : Bool) (n : ℕ) (ts : List Transaction)
        → shipped_bytes reigns first n (bytes_from n ts) ≡ stream (shipped reigns first n ts) }
    ensures resumed { (reigns : List Reign) (from : ℕ) (ts : List Transaction)
        → resumed_bytes reigns from (bytes_from from ts) ≡ stream (resumed reigns from ts) }
{}

/// Bytes have their entries in one way.
pub fn entries_once()
    ensures { (bytes : List ℕ) (xs ys : Sequence) → HasEntries bytes xs → HasEntries bytes ys → xs ≡ ys }
{}

/// What was received of the bytes sent has the first few of their entries. The entries of what a primary sends, behind what a secondary
/// has of its sequence, are the next ones of that sequence.
pub fn prefixes()
    ensures entries { (received sent : List ℕ) (xs ys : Sequence) → IsPrefix received sent → HasEntries received xs → HasEntries sent ys → IsPrefix xs ys }
    ensures received { (base xs ys : Sequence) (received sent : List ℕ) → IsPrefix received sent → BringsTo base received xs → BringsTo base sent ys → IsPrefix xs ys }
    ensures sent { (reigns : List Reign) (base part seq : Sequence) (sent : List ℕ) → HasStamps reigns (base ++ part)
        → AllByRecursion IsFrame (connection reigns (length base + 1) (map (λ e. e.transaction) part))
        → IsPrefix sent (stream (connection reigns (length base + 1) (map (λ e. e.transaction) part))) → BringsTo base sent seq → IsPrefix seq (base ++ part) }
{}
