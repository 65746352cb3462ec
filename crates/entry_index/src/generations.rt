//! A region's journals over its generations, by their signs.
ghost use Rattle.std.specs.Prelude.{◌≡◌, ◌⊎◌, ◌≤◌, ◌<◌, ◌↔◌, ℕ, List, IfOk, IfSome, OnOk, IsErrOf, IsTrue};
ghost use Rattle.global_defs.specs.declared.limits.TheConstants.{MOST_GENERATIONS, MOST_REGIONS};
ghost use Rattle.disk_defs.specs.Disk.{Image, IsDurable, AtEachMoment, Reads, MayFailUncounted};
ghost use Rattle.disk_defs.specs.Frames.{Only, OthersStay};
ghost use Rattle.journal_defs.specs.Numbers.{journal_file};
ghost use Rattle.journal_defs.specs.Sequence.{Placed};
ghost use Rattle.journal_defs.specs.Stands.{IsJournal};
ghost use Rattle.jnl_file.specs.Errors.{error_in};
ghost use Rattle.jnl_file.specs.Reading.{IsNoRecord};
ghost use Rattle.jnl_file.specs.Generations.{AreJournals, AreDurable, StopsAt};
ghost use Rattle.site_defs.specs.OutsideJournal.{IsOutsideAfter, IsOutsideGenerations};
ghost use Rattle.entry_index.specs.Order.{AreInOrder};
ghost use Rattle.entry_index.specs.Places.{AreSignsOf};
ghost use Rattle.entry_index.specs.Pieces.{IsPieceOf, FindsSign};
ghost use Rattle.entry_index.specs.Generations.{MayJoin, HasNewerSigns};

use crate::pieces::Pieces;
use crate::placed::PlacedSign;
use crate::sign::Sign;
use crate::telling::read_sign;
use gated_file::{see_gates, sync_file};
use jnl_file::{GenerationsError, JournalError, journal_file};
use repl_disk::Disk;
use std::alloc::Global;

/// What a region's records say over its generations.
#[derive(Debug, Drop)]
pub struct RegionSigns {
    /// In journal order: by generation, and then by place.
    pub signs: Vec<PlacedSign>,
    /// The last generation that began, or 0.
    pub last_began: u32,
}

/// Whether a record may be the first of a journal of this region and generation with this one before it, or a later one.
pub(crate) fn may_join(
    sign: &Sign,
    is_first: bool,
    region: u8,
    generation: u32,
    previous: u32,
) -> bool
    ensures { IsTrue result ↔ MayJoin is_first region generation previous sign.now }
{
    match sign {
        Sign::Pini {
            region: named,
            generation: drawn,
            previous: before,
            ..
        } => is_first && *named == region && *drawn == generation && *before == previous,
        _ => !is_first,
    }
}

/// What the record says behind the gate at a place, and the next gate's place, or `None` at a closed gate.
pub(crate) fn find_sign<D: Disk>(
    pieces: &mut Pieces,
    disk: &mut D,
    at: u64,
) -> Result<Option<(Sign, u64)>, JournalError>
    requires told { IfSome (D.disk disk.old).content (IsPieceOf pieces.old) }
    ensures found { IfOk result (λ found. IfSome (D.disk disk.old).content (λ files. FindsSign (files pieces.old.file) at found)) }
    ensures further { IfOk result (λ found. IfSome found (λ read. at < read.1)) }
    ensures outside { IsErrOf result (JournalError.NotARecord at) → IfSome (D.disk disk.old).content (λ files. IsNoRecord (files pieces.old.file) at) }
    ensures only_here { (offset : ℕ) → IsErrOf result (JournalError.NotARecord offset) → offset ≡ at }
    ensures told { OnOk result (IfSome (D.disk disk.new).content (IsPieceOf pieces.new)) }
    ensures same { pieces.new.file ≡ pieces.old.file }
    ensures reads { Reads (D.disk disk.old) (D.disk disk.new) }
    ensures faults { MayFailUncounted (D.disk disk.old).faults (D.disk disk.new).faults (IsErrOf result JournalError.Failed) }
{
    if pieces.size < 2 {
        return Ok(None);
    }
    let Some(n) = pieces.body_length(disk, at)? else {
        return Ok(None);
    };
    pieces.load(disk, at + 5, n)?;
    match read_sign(pieces.shown(at + 5, n)) {
        Some(sign) => Ok(Some((sign, at + 5 + n))),
        None => Err(JournalError::NotARecord { offset: at }),
    }
}

/// Adds the signs of a journal's records to a list, up to its closed gate, and answers the last generation that began.
fn index_on<D: Disk>(
    pieces: &mut Pieces,
    disk: &mut D,
    region: u8,
    generation: u32,
    previous: u32,
    into: &mut Vec<PlacedSign>,
) -> Result<u32, JournalError>
    requires told { IfSome (D.disk disk.old).content (IsPieceOf pieces.old) }
    requires file { pieces.old.file ≡ journal_file generation region }
    ensures read { IfOk result (λ began. IfSome (D.disk disk.old).content (λ files. HasNewerSigns files region generation previous into.old.items into.new.items began)) }
    ensures began { IfOk result (λ began. (began ≡ previous) ⊎ (began ≡ generation)) }
    ensures stops { (offset : ℕ) → IsErrOf result (JournalError.NotARecord offset) → IfSome (D.disk disk.old).content (λ files. StopsAt region generation previous (files (journal_file generation region)) offset) }
    ensures same { pieces.new.file ≡ pieces.old.file }
    ensures reads { Reads (D.disk disk.old) (D.disk disk.new) }
    ensures faults { MayFailUncounted (D.disk disk.old).faults (D.disk disk.new).faults (IsErrOf result JournalError.Failed) }
{
    let mut began = previous;
    let mut at = 0;
    while let Some((sign, next)) = find_sign(pieces, disk, at)? {
        if !may_join(&sign, at == 0, region, generation, previous) {
            return Err(JournalError::NotARecord { offset: at });
        }
        let placed = PlacedSign {
            generation,
            offset: at,
            sign,
        };
        if into.push(placed).is_err() {
            return Err(JournalError::NoMemory);
        }
        began = generation;
        at = next;
    }
    Ok(began)
}

/// The same, and where the file is no such journal, the place of its first gate outside the format, or else of its first
/// record that can't stand there.
fn index_journal<D: Disk>(
    pieces: &mut Pieces,
    disk: &mut D,
    region: u8,
    generation: u32,
    previous: u32,
    into: &mut Vec<PlacedSign>,
) -> Result<u32, JournalError>
    requires told { IfSome (D.disk disk.old).content (IsPieceOf pieces.old) }
    requires file { pieces.old.file ≡ journal_file generation region }
    ensures read { IfOk result (λ began. IfSome (D.disk disk.old).content (λ files. HasNewerSigns files region generation previous into.old.items into.new.items began)) }
    ensures began { IfOk result (λ began. (began ≡ previous) ⊎ (began ≡ generation)) }
    ensures outside { (offset : ℕ) → IsErrOf result (JournalError.NotARecord offset) → IfSome (D.disk disk.old).content (λ files. IsOutsideAfter region generation previous (files (journal_file generation region)) offset) }
    ensures reads { Reads (D.disk disk.old) (D.disk disk.new) }
    ensures faults { MayFailUncounted (D.disk disk.old).faults (D.disk disk.new).faults (IsErrOf result JournalError.Failed) }
{
    match index_on(pieces, disk, region, generation, previous, into) {
        Ok(began) => Ok(began),
        Err(JournalError::NotARecord { offset }) => {
            see_gates(disk, pieces.file)?;
            Err(JournalError::NotARecord { offset })
        }
        Err(JournalError::Failed) => Err(JournalError::Failed),
        Err(JournalError::NoMemory) => Err(JournalError::NoMemory),
    }
}

/// Syncs the journal of a generation with this one before it, adds the signs of its records to a list, and answers the last
/// generation that began.
fn index_generation<D: Disk>(
    alloc: Global,
    disk: &mut D,
    region: u8,
    generation: u32,
    previous: u32,
    into: &mut Vec<PlacedSign>,
) -> Result<u32, JournalError>
    requires region { region < MOST_REGIONS }
    requires generation { generation ≤ MOST_GENERATIONS }
    ensures read { IfOk result (λ began. IfSome (D.disk disk.old).content (λ files. HasNewerSigns files region generation previous into.old.items into.new.items began)) }
    ensures began { IfOk result (λ began. (began ≡ previous) ⊎ (began ≡ generation)) }
    ensures durable { OnOk result (IfSome (D.disk disk.old).content (λ files. IsDurable (D.disk disk.new) (journal_file generation region) (files (journal_file generation region)))) }
    ensures outside { (offset : ℕ) → IsErrOf result (JournalError.NotARecord offset) → IfSome (D.disk disk.old).content (λ files. IsOutsideAfter region generation previous (files (journal_file generation region)) offset) }
    ensures content { (D.disk disk.new).content ≡ (D.disk disk.old).content }
    ensures any_moment { AtEachMoment (D.disk disk.old) (D.disk disk.new) (Image (D.disk disk.old)) }
    ensures frame { OthersStay (Only (journal_file generation region)) (D.disk disk.old) (D.disk disk.new) }
    ensures faults { MayFailUncounted (D.disk disk.old).faults (D.disk disk.new).faults (IsErrOf result JournalError.Failed) }
{
    let file = journal_file(region, generation);
    sync_file(disk, file)?;
    let mut pieces = Pieces::of(alloc, disk, file)?;
    let began = index_journal(&mut pieces, disk, region, generation, previous, into)?;
    Ok(began)
}

/// An error of the journal in this file.
fn in_file(file: u32, error: JournalError) -> GenerationsError
    ensures { result ≡ error_in file error }
{
    match error {
        JournalError::Failed => GenerationsError::Failed,
        JournalError::NotARecord { offset } => GenerationsError::NotAFile { file, offset },
        JournalError::NoMemory => GenerationsError::NoMemory,
    }
}

/// Syncs the journals of a region from generation 1 to this one and tells their signs. It writes nothing, and reads each file once.
///
/// # Errors
/// `NotAFile` exactly where some file isn't a journal of its region and generation with the generation before it that
/// began, with the first such file and the place of a gate or a record that can't stand there; `Failed` only where the
/// disk's count rose; and `NoMemory`.
pub fn index_generations<D: Disk>(
    alloc: Global,
    disk: &mut D,
    region: u8,
    last: u32,
) -> Result<RegionSigns, GenerationsError>
    requires region { region < MOST_REGIONS }
    requires last { last ≤ MOST_GENERATIONS }
    ensures read { IfOk result (λ made. IfSome (D.disk disk.old).content (λ files. (journal : List Placed) × IsJournal files region last made.last_began journal × AreSignsOf files region made.signs.items journal × AreInOrder made.signs.items journal)) }
    ensures began { IfOk result (λ made. made.last_began ≤ last) }
    ensures durable { OnOk result (IfSome (D.disk disk.old).content (AreDurable (D.disk disk.new) region last)) }
    ensures outside { (file offset : ℕ) → IsErrOf result (GenerationsError.NotAFile file offset) → IfSome (D.disk disk.old).content (λ files. IsOutsideGenerations files region last file offset) }
    ensures no_list { (file offset : ℕ) → IsErrOf result (GenerationsError.NotAFile file offset) → IfSome (D.disk disk.old).content (λ files. (began : ℕ) (journal : List Placed) → IsJournal files region last began journal → ⊥) }
    ensures content { (D.disk disk.new).content ≡ (D.disk disk.old).content }
    ensures any_moment { AtEachMoment (D.disk disk.old) (D.disk disk.new) (Image (D.disk disk.old)) }
    ensures frame { OthersStay (AreJournals region last) (D.disk disk.old) (D.disk disk.new) }
    ensures simulated { (D.disk disk.new).simulated ≡ (D.disk disk.old).simulated }
    ensures faults { MayFailUncounted (D.disk disk.old).faults (D.disk disk.new).faults (IsErrOf result GenerationsError.Failed) }
{
    let mut signs = Vec::new(alloc);
    let mut last_began = 0;
    for before in 0..last {
        let generation = before + 1;
        match index_generation(alloc, disk, region, generation, last_began, &mut signs) {
            Ok(began) => last_began = began,
            Err(error) => return Err(in_file(journal_file(region, generation), error)),
        }
    }
    Ok(RegionSigns { signs, last_began })
}
