//! Reading an instance file from record to record.
ghost use Rattle.std.specs.Prelude.{◌≡◌, ◌⊎◌, ◌<◌, ℕ, List, [], length, Some, map, IfOk, IfSome, IsErrOf};
ghost use Rattle.std.specs.List.{AllByRecursion};
ghost use Rattle.disk_defs.specs.Disk.{Reads, MayFailUncounted};
ghost use Rattle.disk_defs.specs.Gates.{Body, records};
ghost use Rattle.gated_file.specs.State.{places};
ghost use Rattle.journal_defs.specs.Instance as defs;
ghost use Rattle.journal_defs.specs.Instance.{IsInForm, IsInstanceBody};
ghost use Rattle.journal_defs.specs.Surviving as surviving;
ghost use Rattle.journal_defs.specs.Stands.{IsInstance};
ghost use Rattle.instance_file.specs.Values.{record_value};
ghost use Rattle.instance_file.specs.Order.{AreInOrder};
ghost use Rattle.site_defs.specs.OutsideInstance.{AreOrdered, HasWrongRecord, HasWrongReign};
ghost use Rattle.instance_file.specs.Reading.{FindsRecord, IsNoRecord};
ghost use Rattle.instance_file.specs.Walks.{IsListed};

use super::error::InstanceError;
use super::following::{generation_after, may_stand, starts_rise};
use super::reading::decode;
use super::record::InstanceRecord;
use super::records::InstanceRecords;
use super::surviving::{bounds_of, surviving_reigns, wrong_reign};
use gated_file::Gated;
use gvn_key::Bytes;
use gvn_model::Reigns;
use repl_disk::Disk;

/// What was read of a file.
#[derive(Drop)]
pub struct Log {
    /// The records.
    pub records: InstanceRecords,
    /// Where their gates stand.
    pub places: Vec<u64>,
}

/// The record behind the gate at a place and the next gate's place, or `None` at a closed gate.
fn read_record<D: Disk>(
    gated: &mut Gated,
    disk: &mut D,
    at: u64,
) -> Result<Option<(InstanceRecord, u64)>, InstanceError>
    ensures found { IfOk result (λ found. IfSome (D.disk disk.old).content (λ files. FindsRecord (files gated.old.file) at found)) }
    ensures form { IfOk result (λ found. IfSome found (λ read. IsInForm (record_value read.0))) }
    ensures further { IfOk result (λ found. IfSome found (λ read. at < read.1)) }
    ensures outside { IsErrOf result (InstanceError.NotARecord at) → IfSome (D.disk disk.old).content (λ files. IsNoRecord (files gated.old.file) at) }
    ensures only_here { (offset : ℕ) → IsErrOf result (InstanceError.NotARecord offset) → offset ≡ at }
    ensures same { gated.new ≡ gated.old }
    ensures reads { Reads (D.disk disk.old) (D.disk disk.new) }
    ensures faults { MayFailUncounted (D.disk disk.old).faults (D.disk disk.new).faults (IsErrOf result InstanceError.Failed) }
{
    let mut body = Bytes::new(gated.alloc);
    let Some(next) = gated.next_record(disk, at, &mut body)? else {
        return Ok(None);
    };
    match decode(gated.alloc, body.as_slice())? {
        None => Err(InstanceError::NotARecord { offset: at }),
        Some(found) => Ok(Some((found, next))),
    }
}

/// Reads all records up to the first that can't stand where it stands.
fn read_log<D: Disk>(gated: &mut Gated, disk: &mut D) -> Result<Log, InstanceError>
    requires listed { IfSome (D.disk disk.old).content (λ files. (bodies : List Body) × (records (files gated.old.file) ≡ Some bodies)) }
    ensures listed { IfOk result (λ log. IfSome (D.disk disk.old).content (λ files. IsListed (files gated.old.file) log.records log.places.items)) }
    ensures ordered { IfOk result (λ log. AreOrdered log.records) }
    ensures form { IfOk result (λ log. AllByRecursion IsInForm log.records) }
    ensures many { IfOk result (λ log. length log.places.items ≡ length log.records) }
    ensures wrong { (offset : ℕ) → IsErrOf result (InstanceError.NotARecord offset) → IfSome (D.disk disk.old).content (λ files. HasWrongRecord (files gated.old.file) offset) }
    ensures same { gated.new ≡ gated.old }
    ensures reads { Reads (D.disk disk.old) (D.disk disk.new) }
    ensures faults { MayFailUncounted (D.disk disk.old).faults (D.disk disk.new).faults (IsErrOf result InstanceError.Failed) }
{
    let mut records = InstanceRecords::new(gated.alloc);
    let mut places = Vec::new(gated.alloc);
    let mut generation = 0;
    let mut at = 0;
    while let Some((added, next)) = read_record(gated, disk, at)? {
        if !may_stand(&added, records.is_empty(), generation) {
            return Err(InstanceError::NotARecord { offset: at });
        }
        generation = generation_after(generation, &added);
        if places.push(at).is_err() {
            return Err(InstanceError::NoMemory);
        }
        records.push(added)?;
        at = next;
    }
    Ok(Log { records, places })
}

/// Reads a whole instance file, and sees that it has the records of one.
pub fn read_whole<D: Disk>(
    gated: &mut Gated,
    disk: &mut D,
) -> Result<(InstanceRecords, Reigns), InstanceError>
    requires listed { IfSome (D.disk disk.old).content (λ files. (bodies : List Body) × (records (files gated.old.file) ≡ Some bodies)) }
    ensures whole { IfOk result (λ read. IfSome (D.disk disk.old).content (λ files. IsInstance (files gated.old.file) read.0)) }
    ensures order { IfOk result (λ read. AreInOrder read.0) }
    ensures form { IfOk result (λ read. AllByRecursion IsInForm read.0) }
    ensures history { IfOk result (λ read. read.1 ≡ surviving.reigns read.0) }
    ensures wrong { (offset : ℕ) → IsErrOf result (InstanceError.NotARecord offset)
        → IfSome (D.disk disk.old).content (λ files. HasWrongRecord (files gated.old.file) offset ⊎ HasWrongReign (files gated.old.file) offset) }
    ensures same { gated.new ≡ gated.old }
    ensures reads { Reads (D.disk disk.old) (D.disk disk.new) }
    ensures faults { MayFailUncounted (D.disk disk.old).faults (D.disk disk.new).faults (IsErrOf result InstanceError.Failed) }
{
    let Log { records, places } = read_log(gated, disk)?;
    let bounds = bounds_of(gated.alloc, records.as_slice())?;
    let history = surviving_reigns(gated.alloc, records.as_slice(), &bounds)?;
    if !starts_rise(history.as_slice()) {
        let offset = wrong_reign(records.as_slice(), &bounds, &places);
        return Err(InstanceError::NotARecord { offset });
    }
    Ok((records, history))
}
