//! What an open site shows: its entries and its nodes, as text.
ghost use Rattle.std.specs.Prelude.{◌≡◌, ◌⊎◌, ◌≤◌, ◌<◌, ◌-◌, ◌++◌, ℕ, map, slice_get, IfSome, OnOk, OnErr, IsErrOf};
ghost use Rattle.std.specs.List.{flat_map};
ghost use Rattle.global_defs.specs.declared.limits.TheConstants.{MOST_REGIONS};
ghost use Rattle.disk_defs.specs.Disk.{Reads, MayFail};
ghost use Rattle.global_defs.specs.Entry.{Entry, Sequence};
ghost use Rattle.global_defs.specs.Extract.{entry_text};
ghost use Rattle.global_defs.specs.Prefix.{IsPrefix};
ghost use Rattle.gvt_leaf.specs.Listed.{node_value};
ghost use Rattle.mupip_recover.specs.Stamps.{AreStarts};
ghost use Rattle.entry_index.specs.Indexes.{Indexes};
ghost use Rattle.entry_index.specs.Found.{entry_count};
ghost use Rattle.site_defs.specs.Texts.{node_line};
ghost use Rattle.site_store.specs.Errors.{index_error};
ghost use Rattle.entry_index.specs.Parts.{InFiles};

use crate::error::SiteError;
use entry_index::{EntryIndex, IndexError};
use gvn_key::{Bytes, NoMemory};
use gvn_model::Reigns;
use gvt_leaf::Node;
use jnl_extract::{extract_entry, write_node};
use repl_disk::Disk;

/// An error of the index, on a disk with this count of faults.
pub(crate) fn in_index(error: IndexError, fault: u64) -> SiteError
    ensures { result ≡ index_error fault error }
{
    match error {
        IndexError::Failed => SiteError::Failed { fault },
        IndexError::NotAFile { file, offset } => SiteError::NotAFile { file, offset },
        IndexError::NoMemory => SiteError::NoMemory,
    }
}

/// Adds the extract lines of the entry of that number, read from its places, where there is one. `history` has the surviving reigns, and
/// `starts` what `mupip_recover::starts_of` gives for these.
///
/// # Errors
/// `NotAFile` with the file and the place of a part, only where the files don't have there what the index says, or with file 0 and offset
/// 0 where no reign covers the entry; `Failed` only where the disk's count rose; `NoMemory`. Nothing is added then.
pub fn write_entry<D: Disk>(
    disk: &mut D,
    entries: &EntryIndex,
    history: &Reigns,
    starts: &[u64],
    number: u64,
    out: &mut Bytes,
) -> Result<(), SiteError>
    requires starts { AreStarts history.now starts.now }
    requires first { 1 ≤ number }
    requires regions { entries.now.regions ≤ MOST_REGIONS }
    ensures entry { OnOk result (IfSome (D.disk disk.old).content (λ files. (seq : Sequence) → Indexes (InFiles files) history.now entries.now seq → IfSome (slice_get seq (number - 1)) (λ e. out.new ≡ out.old ++ entry_text number e))) }
    // whatever the disk tells, there are lines of an entry
    ensures some { OnOk result (number ≤ entry_count entries.now → (e : Entry) × (out.new ≡ out.old ++ entry_text number e)) }
    ensures no_entry { entry_count entries.now < number → out.new ≡ out.old }
    ensures without { OnErr result (out.new ≡ out.old) }
    ensures outside { (file offset : ℕ) → IsErrOf result (SiteError.NotAFile file offset) → IfSome (D.disk disk.old).content (λ files. (seq : Sequence) → Indexes (InFiles files) history.now entries.now seq → ⊥) }
    ensures reads { Reads (D.disk disk.old) (D.disk disk.new) }
    ensures faults { MayFail (D.disk disk.old).faults (D.disk disk.new).faults (λ fault. IsErrOf result (SiteError.Failed fault)) }
    ensures causes { OnErr result (((fault : ℕ) × IsErrOf result (SiteError.Failed fault)) ⊎ ((file : ℕ) × (offset : ℕ) × IsErrOf result (SiteError.NotAFile file offset)) ⊎ IsErrOf result SiteError.NoMemory) }
{
    if entries.len() < number {
        return Ok(());
    }
    match entries.read(out.allocator(), disk, history, starts, number) {
        Ok(Some(entry)) => Ok(extract_entry(&entry, out)?),
        Ok(None) => Err(SiteError::NotAFile { file: 0, offset: 0 }),
        Err(error) => Err(in_index(error, disk.faults())),
    }
}

/// Adds a line for each of these nodes.
pub(crate) fn write_nodes(nodes: &[Node], out: &mut Bytes) -> Result<(), NoMemory>
    ensures lines { OnOk result (out.new ≡ out.old ++ flat_map node_line (map node_value nodes.now)) }
    ensures front { OnErr result (IsPrefix out.old out.new) }
{
    for node in nodes {
        write_node(&node.key, node.value, out)?;
    }
    Ok(())
}
