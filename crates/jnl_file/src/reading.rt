//! Reading a journal from record to record.
ghost use Rattle.std.specs.Prelude.{◌≡◌, ◌<◌, ◌↔◌, ℕ, List, Some, IfOk, IfSome, OnOk, IsErrOf, IsTrue};
ghost use Rattle.disk_defs.specs.Disk.{Reads, MayFailUncounted};
ghost use Rattle.disk_defs.specs.Gates.{Body, records};
ghost use Rattle.journal_defs.specs.Journal.{JournalRecord};
ghost use Rattle.jnl_record.specs.Values.{record_value};
ghost use Rattle.jnl_file.specs.Reading.{FindsRecord, IsReadRecord, IsNoRecord, MayStand, IsJournalFile};
ghost use Rattle.site_defs.specs.OutsideJournal.{HasWrongRecord};

use crate::error::JournalError;
use gated_file::Gated;
use gvn_key::Bytes;
use jnl_record::{JnlRecord, decode};
use repl_disk::Disk;

/// The record behind the gate at a place and the next gate's place, or `None` at a closed gate. The record's body is read
/// into `body`, which is cleared first and may be used again.
pub fn read_record<D: Disk>(
    gated: &mut Gated,
    disk: &mut D,
    at: u64,
    body: &mut Bytes,
) -> Result<Option<(JnlRecord, u64)>, JournalError>
    ensures found { IfOk result (λ found. IfSome (D.disk disk.old).content (λ files. FindsRecord (files gated.old.file) at found)) }
    ensures further { IfOk result (λ found. IfSome found (λ read. at < read.1)) }
    ensures form { IfOk result (λ found. IfSome found (λ read. IsReadRecord read.0)) }
    ensures outside { IsErrOf result (JournalError.NotARecord at) → IfSome (D.disk disk.old).content (λ files. IsNoRecord (files gated.old.file) at) }
    ensures only_here { (offset : ℕ) → IsErrOf result (JournalError.NotARecord offset) → offset ≡ at }
    ensures same { gated.new ≡ gated.old }
    ensures reads { Reads (D.disk disk.old) (D.disk disk.new) }
    ensures faults { MayFailUncounted (D.disk disk.old).faults (D.disk disk.new).faults (IsErrOf result JournalError.Failed) }
{
    body.clear();
    let Some(next) = gated.next_record(disk, at, body)? else {
        return Ok(None);
    };
    let record = decode(gated.alloc, body.as_slice(), at)?;
    Ok(Some((record, next)))
}

/// Whether a record may be the first of a journal of this region and generation, or a later one.
fn may_stand(what: JnlRecord, is_first: bool, region: u8, generation: u32) -> bool
    ensures { IsTrue result ↔ MayStand is_first region generation (record_value what) }
{
    match what {
        JnlRecord::Pini {
            region: named,
            generation: drawn,
            ..
        } => is_first && named == region && drawn == generation,
        _ => !is_first,
    }
}

/// Reads a whole journal, and sees that it has the records of one of this region and generation.
pub fn read_whole<D: Disk>(
    gated: &mut Gated,
    disk: &mut D,
    region: u8,
    generation: u32,
) -> Result<(), JournalError>
    requires listed { IfSome (D.disk disk.old).content (λ files. (bodies : List Body) × (records (files gated.old.file) ≡ Some bodies)) }
    ensures whole { OnOk result (IfSome (D.disk disk.old).content (λ files. (rs : List JournalRecord) × IsJournalFile region generation (files gated.old.file) rs)) }
    ensures wrong { (offset : ℕ) → IsErrOf result (JournalError.NotARecord offset) → IfSome (D.disk disk.old).content (λ files. HasWrongRecord region generation (files gated.old.file) offset) }
    ensures same { gated.new ≡ gated.old }
    ensures reads { Reads (D.disk disk.old) (D.disk disk.new) }
    ensures faults { MayFailUncounted (D.disk disk.old).faults (D.disk disk.new).faults (IsErrOf result JournalError.Failed) }
{
    let mut body = Bytes::new(gated.alloc);
    let mut at = 0;
    while let Some((record, next)) = read_record(gated, disk, at, &mut body)? {
        if !may_stand(record, at == 0, region, generation) {
            return Err(JournalError::NotARecord { offset: at });
        }
        at = next;
    }
    Ok(())
}
