//! A region's journals over its generations.
ghost use Rattle.std.specs.Prelude.{◌≡◌, ◌⊎◌, ◌≤◌, ◌<◌, ◌↔◌, [], ℕ, List, map, Some, IfOk, IfSome, OnOk, IsErrOf, IsTrue};
ghost use Rattle.std.specs.List.{AllByRecursion};
ghost use Rattle.global_defs.specs.declared.limits.TheConstants.{MOST_GENERATIONS, MOST_REGIONS};
ghost use Rattle.disk_defs.specs.Disk.{Image, IsDurable, AtEachMoment, Reads, MayFailUncounted};
ghost use Rattle.disk_defs.specs.Frames.{Only, OthersStay};
ghost use Rattle.disk_defs.specs.Gates.{records};
ghost use Rattle.journal_defs.specs.Numbers.{journal_file};
ghost use Rattle.journal_defs.specs.Sequence.{Placed};
ghost use Rattle.journal_defs.specs.Stands.{IsJournal};
ghost use Rattle.jnl_record.specs.Values.{record_value, placed_value};
ghost use Rattle.jnl_file.specs.Errors.{error_in};
ghost use Rattle.jnl_file.specs.Reading.{IsReadRecord};
ghost use Rattle.jnl_file.specs.Generations.{AreJournals, AreDurable, MayJoin, HasNewer, StopsAt};
ghost use Rattle.site_defs.specs.OutsideJournal.{IsOutsideAfter, IsOutsideGenerations};

use crate::error::{GenerationsError, JournalError};
use crate::journal::journal_file;
use crate::reading::read_record;
use gated_file::{GateError, Gated, see_gates, sync_file};
use gvn_key::Bytes;
use jnl_record::{JnlRecord, PlacedRecord};
use repl_disk::Disk;
use std::alloc::Global;

/// A region's records over its generations.
#[derive(Debug, Drop)]
pub struct Generations {
    /// In journal order: by generation, and then by place.
    pub records: Vec<PlacedRecord>,
    /// The last generation that began, or 0.
    pub last_began: u32,
}

/// Whether a record may be the first of a journal of this region and generation with this one before it, or a later one.
fn may_join(what: &JnlRecord, is_first: bool, region: u8, generation: u32, previous: u32) -> bool
    ensures { IsTrue result ↔ MayJoin is_first region generation previous (record_value what.now) }
{
    match what {
        JnlRecord::Pini {
            region: named,
            generation: drawn,
            previous: before,
            ..
        } => is_first && *named == region && *drawn == generation && *before == previous,
        _ => !is_first,
    }
}

/// Adds the records of a journal to a list, up to its closed gate, and answers the last generation that began.
fn read_on<D: Disk>(
    gated: &mut Gated,
    disk: &mut D,
    region: u8,
    generation: u32,
    previous: u32,
    into: &mut Vec<PlacedRecord>,
) -> Result<u32, JournalError>
    ensures read { IfOk result (λ began. IfSome (D.disk disk.old).content (λ files. HasNewer region generation previous (files gated.old.file) (map placed_value into.old.items) (map placed_value into.new.items) began)) }
    ensures form { OnOk result (AllByRecursion (λ p. IsReadRecord p.what) into.old.items → AllByRecursion (λ p. IsReadRecord p.what) into.new.items) }
    ensures began { IfOk result (λ began. (began ≡ previous) ⊎ (began ≡ generation)) }
    ensures stops { (offset : ℕ) → IsErrOf result (JournalError.NotARecord offset) → IfSome (D.disk disk.old).content (λ files. StopsAt region generation previous (files gated.old.file) offset) }
    ensures same { gated.new ≡ gated.old }
    ensures reads { Reads (D.disk disk.old) (D.disk disk.new) }
    ensures faults { MayFailUncounted (D.disk disk.old).faults (D.disk disk.new).faults (IsErrOf result JournalError.Failed) }
{
    let mut began = previous;
    let mut body = Bytes::new(gated.alloc);
    let mut at = 0;
    while let Some((what, next)) = read_record(gated, disk, at, &mut body)? {
        if !may_join(&what, at == 0, region, generation, previous) {
            return Err(JournalError::NotARecord { offset: at });
        }
        if into.push(PlacedRecord { generation, what }).is_err() {
            return Err(JournalError::NoMemory);
        }
        began = generation;
        at = next;
    }
    Ok(began)
}

/// The same, and where the file is no such journal, the place of its first gate outside the format, or else of its first
/// record that can't stand there.
fn read_journal<D: Disk>(
    gated: &mut Gated,
    disk: &mut D,
    region: u8,
    generation: u32,
    previous: u32,
    into: &mut Vec<PlacedRecord>,
) -> Result<u32, JournalError>
    ensures read { IfOk result (λ began. IfSome (D.disk disk.old).content (λ files. HasNewer region generation previous (files gated.old.file) (map placed_value into.old.items) (map placed_value into.new.items) began)) }
    ensures form { OnOk result (AllByRecursion (λ p. IsReadRecord p.what) into.old.items → AllByRecursion (λ p. IsReadRecord p.what) into.new.items) }
    ensures began { IfOk result (λ began. (began ≡ previous) ⊎ (began ≡ generation)) }
    ensures outside { (offset : ℕ) → IsErrOf result (JournalError.NotARecord offset) → IfSome (D.disk disk.old).content (λ files. IsOutsideAfter region generation previous (files gated.old.file) offset) }
    ensures reads { Reads (D.disk disk.old) (D.disk disk.new) }
    ensures faults { MayFailUncounted (D.disk disk.old).faults (D.disk disk.new).faults (IsErrOf result JournalError.Failed) }
{
    match read_on(gated, disk, region, generation, previous, into) {
        Ok(began) => Ok(began),
        Err(JournalError::NotARecord { offset }) => {
            see_gates(disk, gated.file)?;
            Err(JournalError::NotARecord { offset })
        }
        Err(JournalError::Failed) => Err(JournalError::Failed),
        Err(JournalError::NoMemory) => Err(JournalError::NoMemory),
    }
}

/// Syncs the journal of a generation with this one before it, adds its records to a list, and answers the last generation
/// that began.
fn read_generation<D: Disk>(
    alloc: Global,
    disk: &mut D,
    region: u8,
    generation: u32,
    previous: u32,
    into: &mut Vec<PlacedRecord>,
) -> Result<u32, JournalError>
    requires region { region < MOST_REGIONS }
    requires generation { generation ≤ MOST_GENERATIONS }
    ensures read { IfOk result (λ began. IfSome (D.disk disk.old).content (λ files. HasNewer region generation previous (files (journal_file generation region)) (map placed_value into.old.items) (map placed_value into.new.items) began)) }
    ensures form { OnOk result (AllByRecursion (λ p. IsReadRecord p.what) into.old.items → AllByRecursion (λ p. IsReadRecord p.what) into.new.items) }
    ensures began { IfOk result (λ began. (began ≡ previous) ⊎ (began ≡ generation)) }
    ensures durable { OnOk result (IfSome (D.disk disk.old).content (λ files. IsDurable (D.disk disk.new) (journal_file generation region) (files (journal_file generation region)))) }
    ensures outside { (offset : ℕ) → IsErrOf result (JournalError.NotARecord offset) → IfSome (D.disk disk.old).content (λ files. IsOutsideAfter region generation previous (files (journal_file generation region)) offset) }
    ensures content { (D.disk disk.new).content ≡ (D.disk disk.old).content }
    ensures any_moment { AtEachMoment (D.disk disk.old) (D.disk disk.new) (Image (D.disk disk.old)) }
    ensures frame { OthersStay (Only (journal_file generation region)) (D.disk disk.old) (D.disk disk.new) }
    ensures faults { MayFailUncounted (D.disk disk.old).faults (D.disk disk.new).faults (IsErrOf result JournalError.Failed) }
{
    let file = journal_file(region, generation);
    sync_file(disk, file)?;
    let mut gated = Gated::reading(alloc, file);
    let began = read_journal(&mut gated, disk, region, generation, previous, into)?;
    Ok(began)
}

/// An error of the journal in this file.
fn in_file(file: u32, error: JournalError) -> GenerationsError
    ensures { result ≡ error_in file error }
{
    match error {
        JournalError::Failed => GenerationsError::Failed,
        JournalError::NotARecord { offset } => GenerationsError::NotAFile { file, offset },
        JournalError::NoMemory => GenerationsError::NoMemory,
    }
}

/// Syncs and reads the journals of a region from generation 1 to this one. It writes nothing, and reads each file once.
///
/// # Errors
/// `NotAFile` exactly where some file isn't a journal of its region and generation with the generation before it that
/// began, with the first such file and the place of a gate or a record that can't stand there; `Failed` only where the
/// disk's count rose; and `NoMemory`.
pub fn read_generations<D: Disk>(
    alloc: Global,
    disk: &mut D,
    region: u8,
    last: u32,
) -> Result<Generations, GenerationsError>
    requires region { region < MOST_REGIONS }
    requires last { last ≤ MOST_GENERATIONS }
    ensures read { IfOk result (λ made. IfSome (D.disk disk.old).content (λ files. IsJournal files region last made.last_began (map placed_value made.records.items))) }
    ensures form { IfOk result (λ made. AllByRecursion (λ p. IsReadRecord p.what) made.records.items) }
    ensures began { IfOk result (λ made. made.last_began ≤ last) }
    ensures durable { OnOk result (IfSome (D.disk disk.old).content (AreDurable (D.disk disk.new) region last)) }
    ensures outside { (file offset : ℕ) → IsErrOf result (GenerationsError.NotAFile file offset) → IfSome (D.disk disk.old).content (λ files. IsOutsideGenerations files region last file offset) }
    ensures no_list { (file offset : ℕ) → IsErrOf result (GenerationsError.NotAFile file offset) → IfSome (D.disk disk.old).content (λ files. (began : ℕ) (journal : List Placed) → IsJournal files region last began journal → ⊥) }
    ensures content { (D.disk disk.new).content ≡ (D.disk disk.old).content }
    ensures any_moment { AtEachMoment (D.disk disk.old) (D.disk disk.new) (Image (D.disk disk.old)) }
    ensures frame { OthersStay (AreJournals region last) (D.disk disk.old) (D.disk disk.new) }
    ensures simulated { (D.disk disk.new).simulated ≡ (D.disk disk.old).simulated }
    ensures faults { MayFailUncounted (D.disk disk.old).faults (D.disk disk.new).faults (IsErrOf result GenerationsError.Failed) }
{
    let mut records = Vec::new(alloc);
    let mut last_began = 0;
    for before in 0..last {
        let generation = before + 1;
        match read_generation(alloc, disk, region, generation, last_began, &mut records) {
            Ok(began) => last_began = began,
            Err(error) => return Err(in_file(journal_file(region, generation), error)),
        }
    }
    Ok(Generations {
        records,
        last_began,
    })
}

/// Whether the journal of a generation that isn't drawn yet has no open record. It syncs the file first, and writes
/// nothing. Of a file outside the format it answers `false`.
///
/// # Errors
/// `Failed` only where the disk's count rose, and `NoMemory`.
pub fn is_unbegun<D: Disk>(
    alloc: Global,
    disk: &mut D,
    region: u8,
    generation: u32,
) -> Result<bool, GenerationsError>
    requires region { region < MOST_REGIONS }
    requires generation { generation ≤ MOST_GENERATIONS }
    ensures value { IfOk result (λ unbegun. IfSome (D.disk disk.old).content (λ files. IsTrue unbegun ↔ (records (files (journal_file generation region)) ≡ Some []))) }
    ensures durable { OnOk result (IfSome (D.disk disk.old).content (λ files. IsDurable (D.disk disk.new) (journal_file generation region) (files (journal_file generation region)))) }
    ensures inside { (file offset : ℕ) → IsErrOf result (GenerationsError.NotAFile file offset) → ⊥ }
    ensures content { (D.disk disk.new).content ≡ (D.disk disk.old).content }
    ensures any_moment { AtEachMoment (D.disk disk.old) (D.disk disk.new) (Image (D.disk disk.old)) }
    ensures frame { OthersStay (Only (journal_file generation region)) (D.disk disk.old) (D.disk disk.new) }
    ensures simulated { (D.disk disk.new).simulated ≡ (D.disk disk.old).simulated }
    ensures faults { MayFailUncounted (D.disk disk.old).faults (D.disk disk.new).faults (IsErrOf result GenerationsError.Failed) }
{
    let file = journal_file(region, generation);
    if let Err(error) = sync_file(disk, file) {
        return Err(in_file(file, error.into()));
    }
    match Gated::reading(alloc, file).next_record(disk, 0, &mut Bytes::new(alloc)) {
        Ok(next) => Ok(next.is_none()),
        Err(GateError::NotARecord { .. }) => Ok(false),
        Err(error) => Err(in_file(file, error.into())),
    }
}
