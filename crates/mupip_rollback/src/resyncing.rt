//! A rollback to what a primary shares.
ghost use Rattle.std.specs.Prelude.{◌≡◌, ◌≤◌, ◌<◌, ◌+◌, ◌-◌, ℕ, List, length, min, IfOk, IfSome, IsErrOf, IsSome};
ghost use Rattle.site_defs.specs.Limits.{LAST_GENERATION};
ghost use Rattle.disk_defs.specs.Disk.{AtEachMoment, MayFail};
ghost use Rattle.global_defs.specs.Entry.{Sequence};
ghost use Rattle.journal_defs.specs.Instance as defs;
ghost use Rattle.journal_defs.specs.Instance.{generation};
ghost use Rattle.journal_defs.specs.Numbers.{INSTANCE};
ghost use Rattle.journal_defs.specs.Sequence.{Records, IsSequence};
ghost use Rattle.journal_defs.specs.Stands.{IsInstance, AreRecords};
ghost use Rattle.site_defs.specs.Contents.{Contents, Leftover};
ghost use Rattle.site_defs.specs.OutsideBlocks.{IsOutsideRollback};
ghost use Rattle.site_defs.specs.Rolling.{rolled, MayRollBack};
ghost use Rattle.site_defs.specs.Stands.{IsSite, HasLeft};
ghost use Rattle.site_store.specs.Needing.{IsFirstWithout, NoneIsWithout};
ghost use Rattle.site_store.specs.Opening.{EachStands};
ghost use Rattle.site_store.specs.Refusing.{IsUnwritten};
ghost use Rattle.mupip_rollback.specs.Rolling.{StandsFor, MayBeRolledBack, MayBeRolledBackWith};
ghost use Rattle.mupip_rollback.specs.Answers.{answer_number};

use crate::error::RollError;
use crate::rolling::{Rolled, rollback};
use receiver_server::Handshake;
use repl_disk::Disk;
use std::alloc::Global;

/// The number that an answer tells, which is that of the first entry to go.
fn first_to_go(answer: &Handshake) -> u64
    ensures { result ≡ answer_number answer.now }
{
    match answer {
        Handshake::Resume(number) | Handshake::RollbackFirst(number) => *number,
    }
}

/// Rolls the site that stands on a disk back to what it shares with a primary, by the primary's answer to its HELLO: the entries before the
/// number that the answer tells stay, and all where there are no more. All else is as in [`rollback`].
///
/// # Errors
/// Those of [`rollback`].
pub fn fetchresync<D: Disk>(
    alloc: Global,
    disk: &mut D,
    answer: &Handshake,
) -> Result<Rolled, RollError>
    requires { 1 ≤ answer_number answer.now }
    ensures read { IfOk result (λ rolled. (c : Contents) × (rolled.kept ≡ min (answer_number answer.now - 1) (length c.sequence)) × (rolled.lost ≡ generation c.instance + 1)) }
    ensures told { IfOk result (λ _. IfSome (D.disk disk.old).content (λ files. (c : Contents) (left : Leftover) → IsSite files c → HasLeft files c left → EachStands (D.disk disk.old) → StandsFor (D.disk disk.new) (rolled (min (answer_number answer.now - 1) (length c.sequence)) left.broken c))) }
    // whether the files are a fit site's or not
    ensures held { IfOk result (λ rolled. IfSome (D.disk disk.old).content (λ files. (u : Records) × (seq : Sequence) × AreRecords files u × IsSequence u seq × (rolled.kept ≡ min (answer_number answer.now - 1) (length seq)) × (rolled.lost ≡ generation u.instance + 1) × (generation u.instance < LAST_GENERATION) × NoneIsWithout u (min (answer_number answer.now - 1) (length seq)))) }
    ensures limit { IsErrOf result RollError.GenLimit → IfSome (D.disk disk.old).content (λ files. (rs : List defs.InstanceRecord) → IsInstance (files INSTANCE) rs → LAST_GENERATION ≤ generation rs) }
    ensures limit_told { IsErrOf result RollError.GenLimit → IfSome (D.disk disk.old).content (λ files. (rs : List defs.InstanceRecord) × IsInstance (files INSTANCE) rs × (LAST_GENERATION ≤ generation rs)) }
    ensures unwritten { IsErrOf result RollError.GenLimit → IsUnwritten (D.disk disk.old) (D.disk disk.new) }
    ensures without { (region g : ℕ) → IsErrOf result (RollError.NoBeforeImage region g) → IfSome (D.disk disk.old).content (λ files. (u : Records) × (seq : Sequence) × AreRecords files u × IsSequence u seq × (generation u.instance < LAST_GENERATION) × IsFirstWithout u (min (answer_number answer.now - 1) (length seq)) region g) }
    ensures untouched { (region generation : ℕ) → IsErrOf result (RollError.NoBeforeImage region generation) → IsUnwritten (D.disk disk.old) (D.disk disk.new) }
    ensures no_forward { (region : ℕ) → IsErrOf result (RollError.NeedForward region) → ⊥ }
    ensures place { (file offset : ℕ) → IsErrOf result (RollError.NotAFile file offset) → IfSome (D.disk disk.old).content (λ files. IsOutsideRollback (answer_number answer.now - 1) files file offset) }
    ensures refused { (file offset : ℕ) → IsErrOf result (RollError.NotAFile file offset) → IfSome (D.disk disk.old).content (λ _. IsUnwritten (D.disk disk.old) (D.disk disk.new)) }
    ensures outside { (file offset : ℕ) → IsErrOf result (RollError.NotAFile file offset) → IfSome (D.disk disk.old).content (λ files. (c : Contents) → IsSite files c → ⊥) }
    ensures any_moment { IfSome (D.disk disk.old).content (λ files. (c : Contents) (left : Leftover) → IsSite files c → HasLeft files c left → EachStands (D.disk disk.old) → AtEachMoment (D.disk disk.old) (D.disk disk.new) (MayBeRolledBack (D.disk disk.old) (answer_number answer.now - 1) left.broken)) }
    // each with what was broken in its own image
    ensures left { IfSome (D.disk disk.old).content (λ files. (c : Contents) → IsSite files c → EachStands (D.disk disk.old) → AtEachMoment (D.disk disk.old) (D.disk disk.new) (MayBeRolledBackWith (D.disk disk.old) (answer_number answer.now - 1))) }
    ensures still_told { IsSome (D.disk disk.old).content → IsSome (D.disk disk.new).content }
    ensures stands { IfSome (D.disk disk.old).content (λ files. (c : Contents) (left : Leftover) → IsSite files c → HasLeft files c left → EachStands (D.disk disk.old) → IfSome (D.disk disk.new).content (λ now. (o : Contents) × MayRollBack (min (answer_number answer.now - 1) (length c.sequence)) left.broken c o × IsSite now o)) }
    ensures simulated { (D.disk disk.new).simulated ≡ (D.disk disk.old).simulated }
    ensures faults { MayFail (D.disk disk.old).faults (D.disk disk.new).faults (λ fault. IsErrOf result (RollError.Failed fault)) }
{
    rollback(alloc, disk, first_to_go(answer) - 1)
}
