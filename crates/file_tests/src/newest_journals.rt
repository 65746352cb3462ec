//! Entries in two regions on a disk in memory: what their journals have of them, and what a crash leaves.
ghost use Rattle.std.specs.Prelude.{◌≡◌, ◌<◌, [], ◌∷◌, length, Some, IfSome, IfOk, OnOk};
ghost use Rattle.global_defs.specs.declared.limits.TheConstants.{MOST_REGIONS};
ghost use Rattle.disk_defs.specs.Frames.{Only, OthersStay};
ghost use Rattle.disk_defs.specs.Gates.{records};
ghost use Rattle.journal_defs.specs.Numbers.{journal_file};
ghost use Rattle.global_defs.specs.Fields.{IsUpdate, IsTransaction};
ghost use Rattle.gvn_key.specs.Terms.{update_value};
ghost use Rattle.gvn_model.specs.Entries.{transaction_value};
ghost use Rattle.region_journals.specs.Journals.{HasSyncs, IsOpen, AreReady};
ghost use Rattle.region_journals.specs.Logging.{MayBeAppended};

use global_dir::Directory;
use gvn_key::terms::Update;
use gvn_key::{Bytes, Key, NoMemory};
use gvn_model::{Origin, Transaction, Updates};
use jnl_file::{Journal, JournalError, read_generations};
use jnl_record::JnlRecord;
use region_journals::{RegionJournal, RegionJournals};
use repl_disk::{Disk, MemDisk};
use std::alloc::Global;
use std::test::Fail;
use tp_commit::{PartRecords, entry_records};

/// The journal of a region in generation 1, new.
fn begin<D: Disk>(alloc: Global, disk: &mut D, region: u8) -> Result<RegionJournal, JournalError>
    requires region { region < MOST_REGIONS }
    requires empty { IfSome (D.disk disk.old).content (λ files. records (files (journal_file 1 region)) ≡ Some []) }
    ensures open { IfOk result (λ made. IsOpen (D.disk disk.new) 1 HasSyncs region made) }
    ensures frame { OthersStay (Only (journal_file 1 region)) (D.disk disk.old) (D.disk disk.new) }
{
    let journal = Journal::create(alloc, disk, region, true, 1, 0)?;
    Ok(RegionJournal {
        journal,
        appended: false,
    })
}

/// The journals of the regions 0 and 1 in generation 1, new.
fn begin_two<D: Disk>(alloc: Global, disk: &mut D) -> Result<RegionJournals, Fail>
    requires first { IfSome (D.disk disk.old).content (λ files. records (files 24) ≡ Some []) }
    requires second { IfSome (D.disk disk.old).content (λ files. records (files 25) ≡ Some []) }
    ensures { IfOk result (λ made. AreReady (D.disk disk.new) 1 made.journals.items) }
{
    let first = begin(alloc, disk, 0)?;
    let second = begin(alloc, disk, 1)?;
    let mut journals = Vec::new(alloc);
    journals.push(first)?;
    journals.push(second)?;
    Ok(RegionJournals { journals })
}

/// Region 1 has the names that begin with B, and region 0 all others.
fn directory(alloc: Global) -> Result<Directory, Fail> {
    let mut directory = Directory::new(alloc, 2);
    directory.map(1, b"B*")?;
    Ok(directory)
}

/// SET of a name to 1.
fn set(alloc: Global, name: &[u8]) -> Result<Update, Fail>
    ensures { IfOk result (λ u. IsUpdate (update_value u)) }
{
    let key = Key::new(alloc, name, &[])?;
    let _code = key.as_encoded();
    Ok(Update::Set(key, Bytes::of(alloc, b"1")?))
}

/// KILL of a name.
fn kill(alloc: Global, name: &[u8]) -> Result<Update, Fail>
    ensures { IfOk result (λ u. IsUpdate (update_value u)) }
{
    let key = Key::new(alloc, name, &[])?;
    let _code = key.as_encoded();
    Ok(Update::Kill(key))
}

/// SET ^A=1 and SET ^B=1, as the first job of updater 1.
fn in_both(alloc: Global) -> Result<Transaction, Fail>
    ensures { IfOk result (λ t. IsTransaction (transaction_value t)) }
{
    let mut updates = Updates::new(alloc);
    updates.push(set(alloc, b"A")?)?;
    updates.push(set(alloc, b"B")?)?;
    let origin = Origin {
        updater: 1,
        serial: 1,
    };
    Ok(Transaction { origin, updates })
}

/// KILL ^B, as its second job.
fn in_one(alloc: Global) -> Result<Transaction, Fail>
    ensures { IfOk result (λ t. IsTransaction (transaction_value t)) }
{
    let mut updates = Updates::new(alloc);
    updates.push(kill(alloc, b"B")?)?;
    let origin = Origin {
        updater: 1,
        serial: 2,
    };
    Ok(Transaction { origin, updates })
}

/// Appends the parts of an entry.
fn append<D: Disk>(
    journals: &mut RegionJournals,
    disk: &mut D,
    parts: &PartRecords,
) -> Result<(), Fail>
    requires { AreReady (D.disk disk.old) 1 journals.old.journals.items }
    ensures { OnOk result (AreReady (D.disk disk.new) 1 journals.new.journals.items) }
{
    journals.prepare(disk, parts)?;
    journals.append(disk, parts)?;
    Ok(())
}

/// Hardens what was appended.
fn harden<D: Disk>(journals: &mut RegionJournals, disk: &mut D) -> Result<(), Fail>
    requires { AreReady (D.disk disk.old) 1 journals.old.journals.items }
    ensures { OnOk result (AreReady (D.disk disk.new) 1 journals.new.journals.items) }
{
    journals.harden(disk)?;
    Ok(())
}

/// Appends entry 1, which is in both regions.
fn append_first<D: Disk>(
    alloc: Global,
    journals: &mut RegionJournals,
    disk: &mut D,
) -> Result<(), Fail>
    requires { AreReady (D.disk disk.old) 1 journals.old.journals.items }
    ensures { OnOk result (AreReady (D.disk disk.new) 1 journals.new.journals.items) }
{
    let t = in_both(alloc)?;
    let parts = entry_records(alloc, 1, &t, &directory(alloc)?)?;
    append(journals, disk, &parts)
}

/// Appends entry 2, which is in region 1 alone.
fn append_second<D: Disk>(
    alloc: Global,
    journals: &mut RegionJournals,
    disk: &mut D,
) -> Result<(), Fail>
    requires { AreReady (D.disk disk.old) 1 journals.old.journals.items }
    ensures { OnOk result (AreReady (D.disk disk.new) 1 journals.new.journals.items) }
{
    let t = in_one(alloc)?;
    let parts = entry_records(alloc, 2, &t, &directory(alloc)?)?;
    append(journals, disk, &parts)
}

/// New journals to which both entries were appended.
fn append_two<D: Disk>(alloc: Global, disk: &mut D) -> Result<RegionJournals, Fail>
    requires first { IfSome (D.disk disk.old).content (λ files. records (files 24) ≡ Some []) }
    requires second { IfSome (D.disk disk.old).content (λ files. records (files 25) ≡ Some []) }
    ensures { IfOk result (λ made. AreReady (D.disk disk.new) 1 made.journals.items) }
{
    let mut journals = begin_two(alloc, disk)?;
    append_first(alloc, &mut journals, disk)?;
    append_second(alloc, &mut journals, disk)?;
    Ok(journals)
}

/// The name in an update.
fn name_in(update: &Update) -> &[u8] {
    match update {
        Update::Set(key, _) | Update::Kill(key) | Update::ZKill(key) => key.name(),
    }
}

/// Writes of a TCOM its number, mask and count, and each item's position and name.
fn write_record(text: &mut Bytes, what: &JnlRecord) -> Result<(), NoMemory> {
    match what {
        JnlRecord::Pini { .. } => text.push_all(b"PINI"),
        JnlRecord::Tcom {
            number,
            mask,
            count,
            items,
            ..
        } => {
            text.push_decimal(*number)?;
            text.push(b' ')?;
            text.push_decimal(u64::from(*mask))?;
            text.push(b' ')?;
            text.push_decimal(u64::from(*count))?;
            for item in items.as_slice() {
                text.push(b' ')?;
                text.push_decimal(u64::from(item.position))?;
                text.push_all(name_in(&item.update))?;
            }
            Ok(())
        }
        _ => text.push_all(b"other"),
    }
}

/// The records of a region's journal, each with a semicolon behind it.
fn read_text<D: Disk>(alloc: Global, disk: &mut D, region: u8) -> Result<Bytes, Fail>
    requires { region < MOST_REGIONS }
{
    let read = read_generations(alloc, disk, region, 1)?;
    let mut text = Bytes::new(alloc);
    for record in &read.records {
        write_record(&mut text, &record.what)?;
        text.push(b';')?;
    }
    Ok(text)
}

/// Each region has its parts of the entries, and no other record behind its PINI.
#[test]
fn parts_in_their_regions(rt: HostRuntime) -> Result<(), Fail> {
    let alloc = rt.alloc();
    let mut disk = MemDisk::new(alloc)?;
    let mut journals = append_two(alloc, &mut disk)?;
    harden(&mut journals, &mut disk)?;
    let first = read_text(alloc, &mut disk, 0)?;
    assert_eq!(rt; first.as_slice(), b"PINI;1 3 2 0A;".as_slice());
    let second = read_text(alloc, &mut disk, 1)?;
    assert_eq!(rt; second.as_slice(), b"PINI;1 3 2 1B;2 2 1 0B;".as_slice());
    Ok(())
}

/// A crash before the hardening leaves no record of the entries, whether it keeps what was written or not.
#[test]
fn a_crash_before_hardening(rt: HostRuntime) -> Result<(), Fail> {
    let alloc = rt.alloc();
    for pick in 0..2u64 {
        let mut disk = MemDisk::new(alloc)?;
        append_two(alloc, &mut disk)?;
        disk.crash(pick);
        let first = read_text(alloc, &mut disk, 0)?;
        assert_eq!(rt; first.as_slice(), b"PINI;".as_slice());
        let second = read_text(alloc, &mut disk, 1)?;
        assert_eq!(rt; second.as_slice(), b"PINI;".as_slice());
    }
    Ok(())
}

/// A hardening syncs each region twice to which something was appended, and no other.
#[test]
fn two_syncs_a_region_that_waits(rt: HostRuntime) -> Result<(), Fail> {
    let alloc = rt.alloc();
    let mut disk = MemDisk::new(alloc)?;
    let mut journals = begin_two(alloc, &mut disk)?;
    let begun = [disk.syncs(24), disk.syncs(25)];
    append_first(alloc, &mut journals, &mut disk)?;
    harden(&mut journals, &mut disk)?;
    let both = [disk.syncs(24), disk.syncs(25)];
    assert_eq!(rt; both[0].checked_sub(begun[0]), Some(2));
    assert_eq!(rt; both[1].checked_sub(begun[1]), Some(2));
    append_second(alloc, &mut journals, &mut disk)?;
    harden(&mut journals, &mut disk)?;
    assert_eq!(rt; disk.syncs(24).checked_sub(both[0]), Some(0));
    assert_eq!(rt; disk.syncs(25).checked_sub(both[1]), Some(2));
    Ok(())
}

/// An EPOCH of no entries, with one block.
fn epoch() -> JnlRecord
    ensures { MayBeAppended result }
{
    JnlRecord::Epoch {
        closing: false,
        number: 0,
        blocks: 1,
    }
}

/// Appends two EPOCHs to region 1, behind what waits there.
fn append_epochs<D: Disk>(journals: &mut RegionJournals, disk: &mut D) -> Result<(), Fail>
    requires { AreReady (D.disk disk.old) 1 journals.old.journals.items }
    ensures { OnOk result (AreReady (D.disk disk.new) 1 journals.new.journals.items) }
{
    if journals.journals.len() < 2 {
        return Err("one region")?;
    }
    journals.append_records(disk, 1, &[epoch(), epoch()])?;
    Ok(())
}

/// A list of records goes to one region alone, behind what waits there.
#[test]
fn records_in_one_region(rt: HostRuntime) -> Result<(), Fail> {
    let alloc = rt.alloc();
    let mut disk = MemDisk::new(alloc)?;
    let mut journals = append_two(alloc, &mut disk)?;
    append_epochs(&mut journals, &mut disk)?;
    harden(&mut journals, &mut disk)?;
    let first = read_text(alloc, &mut disk, 0)?;
    assert_eq!(rt; first.as_slice(), b"PINI;1 3 2 0A;".as_slice());
    let second = read_text(alloc, &mut disk, 1)?;
    assert_eq!(rt;
        second.as_slice(),
        b"PINI;1 3 2 1B;2 2 1 0B;other;other;".as_slice()
    );
    Ok(())
}

/// So many calls of a disk harden an entry in two regions: two syncs, two gates, and two syncs.
const HARDENING: u64 = 6;

/// Appends entry 1 to new journals, and hardens it where so many calls of the disk succeed. Then it crashes.
fn fail_and_crash<D: Disk>(
    alloc: Global,
    disk: &mut D,
    calls: u64,
    pick: u64,
) -> Result<Option<JournalError>, Fail>
    requires first { IfSome (D.disk disk.old).content (λ files. records (files 24) ≡ Some []) }
    requires second { IfSome (D.disk disk.old).content (λ files. records (files 25) ≡ Some []) }
{
    let mut journals = begin_two(alloc, disk)?;
    append_first(alloc, &mut journals, disk)?;
    disk.fuse(calls);
    let error = journals.harden(disk).err();
    disk.crash(pick);
    Ok(error)
}

/// How many records each region's journal has after that, where the hardening failed just as it had to.
fn left_after(alloc: Global, calls: u64, pick: u64) -> Result<[usize; 2], Fail> {
    let mut disk = MemDisk::new(alloc)?;
    let error = fail_and_crash(alloc, &mut disk, calls, pick)?;
    if error != (calls < HARDENING).then_some(JournalError::Failed) {
        return Err("another answer")?;
    }
    let first = read_generations(alloc, &mut disk, 0, 1)?;
    let second = read_generations(alloc, &mut disk, 1, 1)?;
    Ok([first.records.len(), second.records.len()])
}

/// Each call of a hardening fails in turn. A crash that keeps what was synced has a region's part once the region was synced
/// again, and one that keeps what was written has it once its gate was written.
#[test]
fn a_fault_at_each_call(rt: HostRuntime) -> Result<(), Fail> {
    let alloc = rt.alloc();
    for calls in 0..HARDENING + 1 {
        let synced = left_after(alloc, calls, 0)?;
        assert_eq!(rt;
            synced,
            [1 + usize::from(calls >= 5), 1 + usize::from(calls >= 6)],
            "{calls} calls"
        );
        let written = left_after(alloc, calls, 1)?;
        assert_eq!(rt;
            written,
            [1 + usize::from(calls >= 3), 1 + usize::from(calls >= 4)],
            "{calls} calls"
        );
    }
    Ok(())
}
