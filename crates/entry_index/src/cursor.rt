//! A region's journals, read on from where they were left.
ghost use Rattle.std.specs.Prelude.{◌≡◌, ◌≤◌, ◌<◌, ◌+◌, ℕ, List, [], IfOk, IfSome, OnOk, IsErrOf, IsTrue, Some, None};
ghost use Rattle.global_defs.specs.declared.limits.TheConstants.{MOST_GENERATIONS, MOST_REGIONS};
ghost use Rattle.disk_defs.specs.Disk.{Files, Reads, MayFailUncounted};
ghost use Rattle.journal_defs.specs.Instance as instances;
ghost use Rattle.journal_defs.specs.Sequence.{Placed, part_of};
ghost use Rattle.mupip_recover.specs.Cuts.{AreCuts};
ghost use Rattle.entry_index.specs.Completing.{IsAlone, place_told};
ghost use Rattle.entry_index.specs.Order.{bytes_in};
ghost use Rattle.entry_index.specs.Places.{IsSignOf};
ghost use Rattle.entry_index.specs.Signs.{if_numbered};
ghost use Rattle.entry_index.specs.Cursors.{IsDrawn, IsReady, IsOnWay, IsTold, IsDone, IsSameRegion, Keeps, Takes, ReadsOnBy, ReadsOnFor, ReadsOutBy, Settles, left, placed_by};

use crate::completing::is_alone;
use crate::error::IndexError;
use crate::kept::Kept;
use crate::place::{NOWHERE, PartPlace};
use crate::placed::PlacedSign;
use crate::reader::{Reader, Step};
use crate::signed_part::{PartSign, part_sign};
use gvn_key::NoMemory;
use mupip_recover::Cuts;
use repl_disk::Disk;
use std::alloc::Global;

/// A region's journals on the way through them, and what is kept of their records.
#[derive(Drop)]
pub struct Cursor {
    /// Where it is.
    pub reader: Reader,
    /// The signs of the records before that that are kept.
    pub kept: Kept,
    /// The surviving part that was read last, until it's settled. It's none of those that are kept.
    pub waiting: Option<PartSign>,
}

impl Cursor {
    /// A region's journals up to a generation, of which nothing is read yet.
    pub fn of<D: Disk>(
        alloc: Global,
        disk: &mut D,
        region: u8,
        last: u32,
    ) -> Result<Cursor, IndexError>
        requires region { region < MOST_REGIONS }
        requires last { last ≤ MOST_GENERATIONS }
        ensures ready { IfOk result (λ made. IsReady (D.disk disk.new).content region last made.reader) }
        ensures begun { IfOk result (λ made. IfSome (D.disk disk.old).content (λ files. (instance : List instances.InstanceRecord) (lowest : ℕ) → IsOnWay files instance lowest 0 made [])) }
        ensures told { IfOk result (λ made. (files : Files) (instance : List instances.InstanceRecord) → IsTold files instance 0 made []) }
        ensures never { (file offset : ℕ) → IsErrOf result (IndexError.NotAFile file offset) → ⊥ }
        ensures reads { Reads (D.disk disk.old) (D.disk disk.new) }
        ensures faults { MayFailUncounted (D.disk disk.old).faults (D.disk disk.new).faults (IsErrOf result IndexError.Failed) }
    {
        Ok(Cursor {
            reader: Reader::of(alloc, disk, region, last)?,
            kept: Kept::none(alloc),
            waiting: None,
        })
    }

    /// Takes in what the sign of a part says: a part of a surviving entry waits. Answers false where its number isn't past `low`.
    #[inline(always)]
    fn take_part(&mut self, cuts: &Cuts, low: u64, part: PartSign) -> Result<bool, NoMemory>
        requires cuts { (rs : List instances.InstanceRecord) × AreCuts rs cuts.now }
        requires none { self.old.waiting ≡ None }
        ensures taken { IfOk result (λ more. IsTrue more → (files : Files) (instance : List instances.InstanceRecord) → AreCuts instance cuts.now → (lowest n : ℕ) → n ≤ low → low ≤ n + 1
            → (journal : List Placed) (x : Placed) → IsDrawn x → IsSignOf files self.old.reader.region (placed_by part) x → part.place.offset ≡ bytes_in part.place.generation journal → Keeps files instance lowest self.old.reader.region n self.old.kept journal
            → Takes files instance lowest n low self.new journal x) }
        ensures same { self.new.reader ≡ self.old.reader }
    {
        if !cuts.spare(part.place.generation, part.number) {
            self.kept.keep_part(&part, true)?;
            return Ok(true);
        }
        if part.number <= low {
            return Ok(false);
        }
        self.waiting = Some(part);
        Ok(true)
    }

    /// Takes in what a record says, as [`Cursor::take_part`] does.
    fn take(&mut self, cuts: &Cuts, low: u64, placed: PlacedSign) -> Result<bool, NoMemory>
        requires cuts { (rs : List instances.InstanceRecord) × AreCuts rs cuts.now }
        requires none { self.old.waiting ≡ None }
        ensures taken { IfOk result (λ more. IsTrue more → (files : Files) (instance : List instances.InstanceRecord) → AreCuts instance cuts.now → (lowest n : ℕ) → n ≤ low → low ≤ n + 1
            → (journal : List Placed) (x : Placed) → IsDrawn x → IsSignOf files self.old.reader.region placed x → placed.offset ≡ bytes_in placed.generation journal → Keeps files instance lowest self.old.reader.region n self.old.kept journal
            → Takes files instance lowest n low self.new journal x) }
        ensures same { self.new.reader ≡ self.old.reader }
    {
        match part_sign(&placed) {
            Some(part) => self.take_part(cuts, low, part),
            None => {
                self.kept.keep(placed)?;
                Ok(true)
            }
        }
    }

    /// Reads one record by the disk, or goes on to the next journal at a closed gate. Answers false where no record can be, too.
    #[inline(never)]
    fn step_on<D: Disk>(
        &mut self,
        alloc: Global,
        disk: &mut D,
        cuts: &Cuts,
        low: u64,
    ) -> Result<bool, IndexError>
        requires cuts { (rs : List instances.InstanceRecord) × AreCuts rs cuts.now }
        requires none { self.old.waiting ≡ None }
        requires inside { self.old.reader.generation ≤ self.old.reader.last }
        requires ready { IsReady (D.disk disk.old).content self.old.reader.region self.old.reader.last self.old.reader }
        ensures read { IfOk result (λ more. IsTrue more → IfSome (D.disk disk.old).content (ReadsOnBy cuts.now low self.old self.new)) }
        ensures ready { IfOk result (λ more. IsTrue more → IsReady (D.disk disk.new).content self.old.reader.region self.old.reader.last self.new.reader) }
        ensures further { IfOk result (λ more. IsTrue more → left self.new.reader < left self.old.reader) }
        ensures never { (file offset : ℕ) → IsErrOf result (IndexError.NotAFile file offset) → ⊥ }
        ensures reads { Reads (D.disk disk.old) (D.disk disk.new) }
        ensures faults { MayFailUncounted (D.disk disk.old).faults (D.disk disk.new).faults (IsErrOf result IndexError.Failed) }
    {
        match self.reader.step(alloc, disk)? {
            Step::Read(placed) => Ok(self.take(cuts, low, placed)?),
            Step::Turned => Ok(true),
            Step::NoRecord => Ok(false),
        }
    }

    /// The same, but by what is at hand where that has a part.
    #[inline(always)]
    fn step<D: Disk>(
        &mut self,
        alloc: Global,
        disk: &mut D,
        cuts: &Cuts,
        low: u64,
    ) -> Result<bool, IndexError>
        requires cuts { (rs : List instances.InstanceRecord) × AreCuts rs cuts.now }
        requires none { self.old.waiting ≡ None }
        requires inside { self.old.reader.generation ≤ self.old.reader.last }
        requires ready { IsReady (D.disk disk.old).content self.old.reader.region self.old.reader.last self.old.reader }
        ensures read { IfOk result (λ more. IsTrue more → IfSome (D.disk disk.old).content (ReadsOnBy cuts.now low self.old self.new)) }
        ensures ready { IfOk result (λ more. IsTrue more → IsReady (D.disk disk.new).content self.old.reader.region self.old.reader.last self.new.reader) }
        ensures further { IfOk result (λ more. IsTrue more → left self.new.reader < left self.old.reader) }
        ensures never { (file offset : ℕ) → IsErrOf result (IndexError.NotAFile file offset) → ⊥ }
        ensures reads { Reads (D.disk disk.old) (D.disk disk.new) }
        ensures faults { MayFailUncounted (D.disk disk.old).faults (D.disk disk.new).faults (IsErrOf result IndexError.Failed) }
    {
        match self.reader.pass_part() {
            Some(part) => Ok(self.take_part(cuts, low, part)?),
            None => self.step_on(alloc, disk, cuts, low),
        }
    }

    /// Whether to read no further for now, as [`Kept::rests`] says. A record behind a part asks for no rest.
    #[inline(always)]
    fn rests(&mut self, cuts: &Cuts, settled: u64, lowest: u64) -> Result<bool, NoMemory>
        requires cuts { (rs : List instances.InstanceRecord) × AreCuts rs cuts.now }
        ensures kept { OnOk result ((files : Files) (instance : List instances.InstanceRecord) → AreCuts instance cuts.now → (region : ℕ) (before : List Placed)
            → ((m : ℕ) → settled < m → part_of instance m before ≡ None) → Keeps files instance lowest region settled self.old.kept before → Keeps files instance lowest region settled self.new.kept before) }
        ensures waiting { self.new.waiting ≡ self.old.waiting }
        ensures same { self.new.reader ≡ self.old.reader }
    {
        if self.kept.behind != 0 {
            return Ok(false);
        }
        self.kept.rests(cuts, settled, lowest)
    }

    /// Reads on once so many entries are settled, until a part of a surviving entry waits, or a surviving epoch past these entries was
    /// read to which a target may go back, or all is read. Answers false where such a part isn't past the settled entries, or where no
    /// record can be. Signs before an epoch past which no target goes back are dropped; `lowest` is the lowest target that may be asked
    /// for.
    #[inline(never)]
    pub fn read_on<D: Disk>(
        &mut self,
        alloc: Global,
        disk: &mut D,
        cuts: &Cuts,
        settled: u64,
        lowest: u64,
    ) -> Result<bool, IndexError>
        requires cuts { (rs : List instances.InstanceRecord) × AreCuts rs cuts.now }
        requires ready { IsReady (D.disk disk.old).content self.old.reader.region self.old.reader.last self.old.reader }
        ensures read { IfOk result (λ more. IsTrue more → IfSome (D.disk disk.old).content (ReadsOnFor cuts.now lowest settled self.old self.new)) }
        ensures ready { IfOk result (λ more. IsTrue more → IsReady (D.disk disk.new).content self.old.reader.region self.old.reader.last self.new.reader) }
        ensures never { (file offset : ℕ) → IsErrOf result (IndexError.NotAFile file offset) → ⊥ }
        ensures reads { Reads (D.disk disk.old) (D.disk disk.new) }
        ensures faults { MayFailUncounted (D.disk disk.old).faults (D.disk disk.new).faults (IsErrOf result IndexError.Failed) }
    {
        while self.waiting.is_none() && self.reader.generation <= self.reader.last {
            if self.rests(cuts, settled, lowest)? {
                return Ok(true);
            }
            if !self.step(alloc, disk, cuts, settled)? {
                return Ok(false);
            }
        }
        Ok(true)
    }

    /// What waits, where it's of the entry with this number.
    pub fn part_of(&self, number: u64) -> Option<PartSign>
        ensures { result ≡ if_numbered number self.now.waiting }
    {
        match self.waiting {
            Some(part) => if part.number == number {
                Some(part)
            } else {
                None
            },
            None => None,
        }
    }

    /// Whether what waits is the part of the entry with this number, which has no other one, in this region.
    pub fn has_alone(&self, number: u64, region: u8) -> bool
        requires { region < MOST_REGIONS }
        ensures { IsTrue result → (s : PartSign) × (if_numbered number self.now.waiting ≡ Some s) × IsAlone s region }
    {
        match &self.waiting {
            Some(part) => part.number == number && is_alone(part, region),
            None => false,
        }
    }

    /// Where what waits stands, where it's of the entry with this number.
    pub fn place_of(&self, number: u64) -> PartPlace
        ensures { result ≡ place_told (if_numbered number self.now.waiting) }
    {
        match &self.waiting {
            Some(part) => {
                if part.number == number {
                    part.place
                } else {
                    NOWHERE
                }
            }
            None => NOWHERE,
        }
    }

    /// Settles what waits, where it's of the entry with this number.
    pub fn settle(&mut self, number: u64) -> Result<(), NoMemory>
        ensures settled { OnOk result ((files : Files) (n : ℕ) → number ≡ n + 1 → Settles files n self.old self.new) }
        ensures same { self.new.reader ≡ self.old.reader }
    {
        let Some(part) = &self.waiting else {
            return Ok(());
        };
        if part.number != number {
            return Ok(());
        }
        self.kept.keep_part(part, true)?;
        self.waiting = None;
        Ok(())
    }

    /// Keeps what waits, if something does.
    fn release(&mut self) -> Result<(), NoMemory>
        ensures kept { OnOk result ((files : Files) (instance : List instances.InstanceRecord) (lowest n : ℕ) (journal : List Placed) → IsOnWay files instance lowest n self.old journal → IsOnWay files instance lowest n self.new journal) }
        ensures none { OnOk result (self.new.waiting ≡ None) }
        ensures same { self.new.reader ≡ self.old.reader }
    {
        if let Some(part) = self.waiting {
            self.waiting = None;
            self.kept.keep(part.placed())?;
        }
        Ok(())
    }

    /// Reads all that is left, and keeps the signs of all parts past `low` in it. Answers as [`Cursor::read_on`] does.
    pub fn read_out<D: Disk>(
        &mut self,
        alloc: Global,
        disk: &mut D,
        cuts: &Cuts,
        low: u64,
    ) -> Result<bool, IndexError>
        requires cuts { (rs : List instances.InstanceRecord) × AreCuts rs cuts.now }
        requires ready { IsReady (D.disk disk.old).content self.old.reader.region self.old.reader.last self.old.reader }
        ensures read { IfOk result (λ more. IsTrue more → IfSome (D.disk disk.old).content (ReadsOutBy cuts.now low self.old self.new)) }
        ensures done { IfOk result (λ more. IsTrue more → IsDone self.new) }
        ensures ready { IfOk result (λ more. IsTrue more → IsReady (D.disk disk.new).content self.old.reader.region self.old.reader.last self.new.reader) }
        ensures never { (file offset : ℕ) → IsErrOf result (IndexError.NotAFile file offset) → ⊥ }
        ensures reads { Reads (D.disk disk.old) (D.disk disk.new) }
        ensures faults { MayFailUncounted (D.disk disk.old).faults (D.disk disk.new).faults (IsErrOf result IndexError.Failed) }
    {
        self.release()?;
        while self.reader.generation <= self.reader.last {
            if !self.step(alloc, disk, cuts, low)? {
                return Ok(false);
            }
            self.release()?;
        }
        Ok(true)
    }
}
