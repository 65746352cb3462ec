//! Signs, out of bytes.
ghost use Rattle.std.specs.Prelude.{◌≡◌, ◌∷◌, None, IfSome};
ghost use Rattle.journal_defs.specs.Journal.{JournalRecord, IsJournalBody};
ghost use Rattle.entry_index.specs.RecordSigns.{sign_of};
ghost use Rattle.entry_index.specs.Telling.{TellsSign};

use crate::kinds::{before_sign, mark_sign, start_sign};
use crate::parts::part_sign;
use crate::sign::Sign;

/// What a record of this kind says, by what stands behind the kind.
fn kind_sign(kind: u8, bytes: &[u8]) -> Option<Sign>
    ensures { TellsSign (kind ∷ bytes.now) result }
{
    match kind {
        1 => start_sign(bytes),
        2 => mark_sign(bytes),
        3 => before_sign(bytes),
        5 => part_sign(bytes),
        _ => None,
    }
}

/// What the record says whose body these bytes are, or `None` where they are no record's. It takes no memory.
pub fn read_sign(body: &[u8]) -> Option<Sign>
    ensures found { IfSome result (λ s. (r : JournalRecord) × IsJournalBody body.now r × (s ≡ sign_of r)) }
    ensures none { result ≡ None → (r : JournalRecord) → IsJournalBody body.now r → ⊥ }
{
    match body {
        [] => None,
        [kind, rest @ ..] => kind_sign(*kind, rest),
    }
}
