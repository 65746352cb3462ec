//! What the records of a site stand for.
ghost use Rattle.std.specs.Prelude.{◌≡◌, ◌⊎◌, ◌<◌, ◌^◌, ℕ, List, length, map, IfOk, IfSome, OnErr, IsErrOf};
ghost use Rattle.disk_defs.specs.Disk.{Reads, MayFail};
ghost use Rattle.global_defs.specs.Entry.{Sequence};
ghost use Rattle.journal_defs.specs.Instance.{site_name};
ghost use Rattle.journal_defs.specs.Broken as texts;
ghost use Rattle.journal_defs.specs.Sequence.{Placed, Records};
ghost use Rattle.entry_index.specs.Found.{AreFound, entry_count};
ghost use Rattle.entry_index.specs.Indexes.{AreSigns};

use crate::error::FilesError;
use crate::past::read_past;
use crate::reading::ReadSite;
use entry_index::EntryIndex;
use global_defs::limits::NUMBERS_END;
use gvn_key::Bytes;
use mupip_recover::write_broken;
use repl_disk::Disk;
use std::alloc::Global;

/// What the records of a site stand for.
#[derive(Drop)]
pub struct Remembered {
    /// Where each entry's parts stand, by the entries' numbers from 1 on.
    pub entries: EntryIndex,
    /// The text of the broken transactions behind them, or no byte where there is none.
    pub broken: Bytes,
}

/// The text of what is broken behind so many entries, or no byte where nothing is. It reads the parts past these alone.
fn broken_text<D: Disk>(
    alloc: Global,
    disk: &mut D,
    read: &ReadSite,
    length: u64,
) -> Result<Bytes, FilesError>
    ensures text { IfOk result (λ made. IfSome (D.disk disk.old).content (λ files. (journal : ℕ → List Placed) → AreSigns files (map (λ s. s.items) read.now.signs.items) journal
        → made ≡ texts.broken_text (site_name read.now.log.records) length (texts.broken (record { instance = read.now.log.records; journal = journal }) length))) }
    ensures outside { (file offset : ℕ) → IsErrOf result (FilesError.NotAFile file offset) → IfSome (D.disk disk.old).content (λ files. (journal : ℕ → List Placed) → AreSigns files (map (λ s. s.items) read.now.signs.items) journal → ⊥) }
    ensures reads { Reads (D.disk disk.old) (D.disk disk.new) }
    ensures faults { MayFail (D.disk disk.old).faults (D.disk disk.new).faults (λ fault. IsErrOf result (FilesError.Failed fault)) }
    ensures causes { OnErr result (((fault : ℕ) × IsErrOf result (FilesError.Failed fault)) ⊎ ((file : ℕ) × (offset : ℕ) × IsErrOf result (FilesError.NotAFile file offset)) ⊎ IsErrOf result FilesError.NoMemory) }
{
    let past = read_past(alloc, disk, &read.signs, length)?;
    let mut text = Bytes::new(alloc);
    write_broken(alloc, &read.log.records, &past, length, &mut text)?;
    Ok(text)
}

/// What the records of a site that was read stand for, with the index of its entries. No record is read again but those of parts past the last
/// entry.
///
/// # Errors
/// `NotAFile`, with the file and the place of a part, only where the files don't have there what was read; `Failed` only where the disk's
/// count rose; and `NoMemory`.
pub fn remember_all<D: Disk>(
    alloc: Global,
    disk: &mut D,
    read: &ReadSite,
    entries: EntryIndex,
) -> Result<Remembered, FilesError>
    ensures broken { IfOk result (λ made. IfSome (D.disk disk.old).content (λ files. (u : Records) (seq : Sequence) → AreFound files read.now.log.records read.now.lowest (map (λ s. s.items) read.now.signs.items) entries u seq
        → made.broken ≡ texts.broken_text (site_name u.instance) (length seq) (texts.broken u (length seq)))) }
    ensures entries { IfOk result (λ made. made.entries ≡ entries) }
    ensures few { IfOk result (λ made. entry_count entries < NUMBERS_END) }
    ensures outside { (file offset : ℕ) → IsErrOf result (FilesError.NotAFile file offset) → IfSome (D.disk disk.old).content (λ files. (u : Records) (seq : Sequence) → AreFound files read.now.log.records read.now.lowest (map (λ s. s.items) read.now.signs.items) entries u seq → ⊥) }
    ensures reads { Reads (D.disk disk.old) (D.disk disk.new) }
    ensures faults { MayFail (D.disk disk.old).faults (D.disk disk.new).faults (λ fault. IsErrOf result (FilesError.Failed fault)) }
    ensures causes { OnErr result (((fault : ℕ) × IsErrOf result (FilesError.Failed fault)) ⊎ ((file : ℕ) × (offset : ℕ) × IsErrOf result (FilesError.NotAFile file offset)) ⊎ IsErrOf result FilesError.NoMemory) }
{
    let length = entries.len();
    if length >= NUMBERS_END {
        return Err(FilesError::NoMemory);
    }
    let broken = broken_text(alloc, disk, read, length)?;
    Ok(Remembered { entries, broken })
}
