//! An instance file that is open for calls.
ghost use Rattle.std.specs.Prelude.{◌≡◌, ◌≤◌, ◌<◌, ◌+◌, ◌-◌, ◌^◌, ◌++◌, ◌∷◌, [], ℕ, List, Bool, length, map, MatchOption, Some, IfSome, IfOk, OnOk, OnErr, IsErrOf};
ghost use Rattle.std.specs.List.{AllByRecursion};
ghost use Rattle.global_defs.specs.declared.limits.TheConstants.{MOST_GENERATIONS, MOST_REGIONS, NUMBERS_END};
ghost use Rattle.disk_defs.specs.Disk.{Image, AtEachMoment, MayFailUncounted};
ghost use Rattle.disk_defs.specs.Frames.{Only, OnlyOn, OthersStay};
ghost use Rattle.disk_defs.specs.Gates.{records};
ghost use Rattle.gated_file.specs.Begin.{KeepsRecords};
ghost use Rattle.global_defs.specs.Fields.{IsReign};
ghost use Rattle.gvn_model.specs.Regions.{named_region};
ghost use Rattle.gvn_model.specs.Reigns.{reign_value};
ghost use Rattle.journal_defs.specs.Numbers.{INSTANCE};
ghost use Rattle.journal_defs.specs.Instance as defs;
ghost use Rattle.journal_defs.specs.Instance.{IsInForm};
ghost use Rattle.journal_defs.specs.Surviving as surviving;
ghost use Rattle.journal_defs.specs.Stands.{IsInstance};
ghost use Rattle.instance_file.specs.Values.{record_value};
ghost use Rattle.instance_file.specs.Order.{AreInOrder};
ghost use Rattle.site_defs.specs.OutsideInstance.{IsOutsideInstance};

use super::appending::put;
use super::error::InstanceError;
use super::following::reigns_after;
use super::record::InstanceRecord;
use super::records::InstanceRecords;
use super::walking::read_whole;
use super::writing::encode;
use gated_file::Gated;
use gvn_key::{Bytes, NoMemory};
use gvn_model::{NamedModes, Reign, Reigns};
use journal_defs::files::INSTANCE_FILE;
use repl_disk::Disk;
use std::alloc::Global;

/// A site's instance file, open for calls.
///
/// Its fields are there for contracts: `HasRecords` says what they have to do with the disk, and a field that was changed by
/// hand leaves nothing of it.
#[derive(Drop)]
pub struct Instance {
    /// The file.
    pub gated: Gated,
    /// Its records, in order.
    pub records: InstanceRecords,
    /// The reigns that no later CUT dropped.
    pub history: Reigns,
    pub ghost surviving: { history ≡ surviving.reigns records },
}

/// Names with their modes, as a list.
fn named_modes(alloc: Global, regions: &[(Bytes, bool)]) -> Result<NamedModes, NoMemory>
    ensures { IfOk result (λ made. made ≡ regions.now) }
{
    let mut made = NamedModes::new(alloc);
    for (name, before) in regions {
        made.push((name.copy()?, *before))?;
    }
    Ok(made)
}

/// A MAP of a pattern, a name or a name and a star, to a region.
fn map_of(alloc: Global, region: u8, pattern: &[u8]) -> Result<InstanceRecord, NoMemory>
    ensures { IfOk result (λ made. record_value made ≡ defs.pattern_record region pattern.now) }
{
    let (name, star) = match pattern {
        [name @ .., b'*'] => (name, true),
        name => (name, false),
    };
    let name = Bytes::of(alloc, name)?;
    Ok(InstanceRecord::Map { region, star, name })
}

impl Instance {
    ghost use Rattle.instance_file.specs.Instance.{HasRecords, IsReady, StandsWith, MayCreate};

    /// Appends a record and puts it on the disk.
    fn append<D: Disk>(&mut self, disk: &mut D, added: InstanceRecord) -> Result<(), InstanceError>
        requires ready { IsReady (D.disk disk.old) self.old }
        requires form { IsInForm (record_value added) }
        requires order { AreInOrder self.old.records → AreInOrder (self.old.records ++ record_value added ∷ []) }
        ensures ready { OnOk result (IsReady (D.disk disk.new) self.new) }
        ensures records { OnOk result (self.new.records ≡ self.old.records ++ record_value added ∷ []) }
        ensures state { OnOk result ((rs : List defs.InstanceRecord) → HasRecords (D.disk disk.old) self.old rs → HasRecords (D.disk disk.new) self.new (rs ++ record_value added ∷ [])) }
        ensures any_moment { (rs : List defs.InstanceRecord) → HasRecords (D.disk disk.old) self.old rs → AtEachMoment (D.disk disk.old) (D.disk disk.new) (OnlyOn (D.disk disk.old) INSTANCE (StandsWith rs (record_value added))) }
        ensures kept { OnErr result (self.new.records ≡ self.old.records) }
        ensures no_memory_ready { IsErrOf result InstanceError.NoMemory → IsReady (D.disk disk.new) self.new }
        ensures no_memory_state { IsErrOf result InstanceError.NoMemory → (rs : List defs.InstanceRecord) → HasRecords (D.disk disk.old) self.old rs → HasRecords (D.disk disk.new) self.new rs }
        ensures no_memory_moment { IsErrOf result InstanceError.NoMemory → AtEachMoment (D.disk disk.old) (D.disk disk.new) (Image (D.disk disk.old)) }
        ensures frame { OthersStay (Only INSTANCE) (D.disk disk.old) (D.disk disk.new) }
        ensures faults { MayFailUncounted (D.disk disk.old).faults (D.disk disk.new).faults (IsErrOf result InstanceError.Failed) }
        ensures outside { (offset : ℕ) → IsErrOf result (InstanceError.NotARecord offset) → ⊥ }
    {
        let body = encode(self.gated.alloc, &added)?;
        let history = reigns_after(&self.history, &added)?;
        self.gated.reserve(disk, 1, body.len() as u64)?;
        self.records.push(added)?;
        if let Err(error) = put(&mut self.gated, disk, body.as_slice()) {
            self.records.drop_last();
            return Err(error.into());
        }
        self.history = history;
        Ok(())
    }

    /// An instance file without records, in a file that has none.
    fn empty<D: Disk>(alloc: Global, disk: &mut D) -> Result<Instance, InstanceError>
        requires empty { IfSome (D.disk disk.old).content (λ files. records (files INSTANCE) ≡ Some []) }
        ensures ready { IfOk result (λ made. IsReady (D.disk disk.new) made) }
        ensures records { IfOk result (λ made. made.records ≡ []) }
        ensures state { IfOk result (λ made. IfSome (D.disk disk.old).content (λ _. HasRecords (D.disk disk.new) made [])) }
        ensures any_moment { IfSome (D.disk disk.old).content (λ _. AtEachMoment (D.disk disk.old) (D.disk disk.new) (KeepsRecords (D.disk disk.old) INSTANCE)) }
        ensures frame { OthersStay (Only INSTANCE) (D.disk disk.old) (D.disk disk.new) }
        ensures faults { MayFailUncounted (D.disk disk.old).faults (D.disk disk.new).faults (IsErrOf result InstanceError.Failed) }
        ensures outside { (offset : ℕ) → IsErrOf result (InstanceError.NotARecord offset) → ⊥ }
    {
        let gated = Gated::fresh(alloc, disk, INSTANCE_FILE)?;
        Ok(Instance {
            gated,
            records: InstanceRecords::new(alloc),
            history: Reigns::new(alloc),
        })
    }

    /// Makes the instance file of a site with this name and these regions, each with whether its mode is BEFORE, in a file that
    /// has no open record: it appends CREATE and puts it on the disk.
    ///
    /// # Errors
    /// `Failed` only where the disk's count rose, and `NoMemory`. A crash may then find CREATE all the same.
    pub fn create<D: Disk>(
        alloc: Global,
        disk: &mut D,
        name: &Bytes,
        regions: &[(Bytes, bool)],
    ) -> Result<Instance, InstanceError>
        requires form { IsInForm (defs.Create name.now (map named_region regions.now)) }
        requires empty { IfSome (D.disk disk.old).content (λ files. records (files INSTANCE) ≡ Some []) }
        ensures ready { IfOk result (λ made. IsReady (D.disk disk.new) made) }
        ensures records { IfOk result (λ made. made.records ≡ defs.Create name.now (map named_region regions.now) ∷ []) }
        ensures state { IfOk result (λ made. IfSome (D.disk disk.old).content (λ _. HasRecords (D.disk disk.new) made (defs.Create name.now (map named_region regions.now) ∷ []))) }
        ensures any_moment { IfSome (D.disk disk.old).content (λ _. AtEachMoment (D.disk disk.old) (D.disk disk.new) (MayCreate (D.disk disk.old) (defs.Create name.now (map named_region regions.now)))) }
        ensures frame { OthersStay (Only INSTANCE) (D.disk disk.old) (D.disk disk.new) }
        ensures faults { MayFailUncounted (D.disk disk.old).faults (D.disk disk.new).faults (IsErrOf result InstanceError.Failed) }
        ensures outside { (offset : ℕ) → IsErrOf result (InstanceError.NotARecord offset) → ⊥ }
    {
        let mut instance = Instance::empty(alloc, disk)?;
        let name = name.copy()?;
        let regions = named_modes(alloc, regions)?;
        instance.append(disk, InstanceRecord::Create { name, regions })?;
        Ok(instance)
    }

    /// Takes up the instance file with the records that it has, perhaps none. It syncs the file first, and makes one of less
    /// than two bytes as `create` begins it.
    ///
    /// # Errors
    /// `NotARecord` exactly where the file isn't an instance file, with the place of the first gate that is outside the format;
    /// or else of the first body that is no record's, or that of a record that can't follow those before it; or else, among the
    /// reigns that survive at the file's end, of the first that doesn't begin past the one before it. `Failed` only where the
    /// disk's count rose; and `NoMemory`.
    pub fn attach<D: Disk>(alloc: Global, disk: &mut D) -> Result<Instance, InstanceError>
        ensures ready { IfOk result (λ made. IsReady (D.disk disk.new) made) }
        ensures reads { IfOk result (λ made. IfSome (D.disk disk.old).content (λ files. IsInstance (files INSTANCE) made.records)) }
        ensures state { IfOk result (λ made. IfSome (D.disk disk.old).content (λ _. HasRecords (D.disk disk.new) made made.records)) }
        ensures outside { (offset : ℕ) → IsErrOf result (InstanceError.NotARecord offset) → IfSome (D.disk disk.old).content (λ files. IsOutsideInstance (files INSTANCE) offset) }
        ensures no_list { (offset : ℕ) → IsErrOf result (InstanceError.NotARecord offset) → IfSome (D.disk disk.old).content (λ files. (rs : List defs.InstanceRecord) → IsInstance (files INSTANCE) rs → ⊥) }
        ensures any_moment { IfSome (D.disk disk.old).content (λ _. AtEachMoment (D.disk disk.old) (D.disk disk.new) (KeepsRecords (D.disk disk.old) INSTANCE)) }
        ensures frame { OthersStay (Only INSTANCE) (D.disk disk.old) (D.disk disk.new) }
        ensures faults { MayFailUncounted (D.disk disk.old).faults (D.disk disk.new).faults (IsErrOf result InstanceError.Failed) }
    {
        let mut gated = Gated::attach(alloc, disk, INSTANCE_FILE)?;
        let (records, history) = read_whole(&mut gated, disk)?;
        Ok(Instance {
            gated,
            records,
            history,
        })
    }

    /// Appends a REIGN, of its form, whose start is past that of every surviving reign, and puts it on the disk.
    ///
    /// # Errors
    /// `Failed` only where the disk's count rose; a crash may then find the record all the same. `NoMemory`, after which all is
    /// as before.
    pub fn reign<D: Disk>(&mut self, disk: &mut D, r: &Reign) -> Result<(), InstanceError>
        requires ready { IsReady (D.disk disk.old) self.old }
        requires created { 0 < length self.old.records }
        requires form { IsReign (reign_value r.now) }
        requires past { AllByRecursion (λ q. q.start < r.now.start) (surviving.reigns self.old.records) }
        ensures ready { OnOk result (IsReady (D.disk disk.new) self.new) }
        ensures records { OnOk result (self.new.records ≡ self.old.records ++ defs.Reigned (reign_value r.now) ∷ []) }
        ensures state { OnOk result ((rs : List defs.InstanceRecord) → HasRecords (D.disk disk.old) self.old rs → HasRecords (D.disk disk.new) self.new (rs ++ defs.Reigned (reign_value r.now) ∷ [])) }
        ensures any_moment { (rs : List defs.InstanceRecord) → HasRecords (D.disk disk.old) self.old rs → AtEachMoment (D.disk disk.old) (D.disk disk.new) (OnlyOn (D.disk disk.old) INSTANCE (StandsWith rs (defs.Reigned (reign_value r.now)))) }
        ensures kept { OnErr result (self.new.records ≡ self.old.records) }
        ensures no_memory_ready { IsErrOf result InstanceError.NoMemory → IsReady (D.disk disk.new) self.new }
        ensures no_memory_state { IsErrOf result InstanceError.NoMemory → (rs : List defs.InstanceRecord) → HasRecords (D.disk disk.old) self.old rs → HasRecords (D.disk disk.new) self.new rs }
        ensures no_memory_moment { IsErrOf result InstanceError.NoMemory → AtEachMoment (D.disk disk.old) (D.disk disk.new) (Image (D.disk disk.old)) }
        ensures frame { OthersStay (Only INSTANCE) (D.disk disk.old) (D.disk disk.new) }
        ensures faults { MayFailUncounted (D.disk disk.old).faults (D.disk disk.new).faults (IsErrOf result InstanceError.Failed) }
        ensures outside { (offset : ℕ) → IsErrOf result (InstanceError.NotARecord offset) → ⊥ }
    {
        let reign = r.copy()?;
        self.append(disk, InstanceRecord::Reign(reign))
    }

    /// Appends a CUT to the first n entries, with a generation past that of every other CUT, and puts it on the disk.
    ///
    /// # Errors
    /// `Failed` only where the disk's count rose; a crash may then find the record all the same. `NoMemory`, after which all is
    /// as before.
    pub fn cut<D: Disk>(
        &mut self,
        disk: &mut D,
        n: u64,
        generation: u32,
    ) -> Result<(), InstanceError>
        requires ready { IsReady (D.disk disk.old) self.old }
        requires created { 0 < length self.old.records }
        requires length { n < NUMBERS_END }
        requires past { defs.generation self.old.records < generation }
        requires generation { generation ≤ MOST_GENERATIONS }
        ensures ready { OnOk result (IsReady (D.disk disk.new) self.new) }
        ensures records { OnOk result (self.new.records ≡ self.old.records ++ defs.Cut n generation ∷ []) }
        ensures state { OnOk result ((rs : List defs.InstanceRecord) → HasRecords (D.disk disk.old) self.old rs → HasRecords (D.disk disk.new) self.new (rs ++ defs.Cut n generation ∷ [])) }
        ensures any_moment { (rs : List defs.InstanceRecord) → HasRecords (D.disk disk.old) self.old rs → AtEachMoment (D.disk disk.old) (D.disk disk.new) (OnlyOn (D.disk disk.old) INSTANCE (StandsWith rs (defs.Cut n generation))) }
        ensures kept { OnErr result (self.new.records ≡ self.old.records) }
        ensures no_memory_ready { IsErrOf result InstanceError.NoMemory → IsReady (D.disk disk.new) self.new }
        ensures no_memory_state { IsErrOf result InstanceError.NoMemory → (rs : List defs.InstanceRecord) → HasRecords (D.disk disk.old) self.old rs → HasRecords (D.disk disk.new) self.new rs }
        ensures no_memory_moment { IsErrOf result InstanceError.NoMemory → AtEachMoment (D.disk disk.old) (D.disk disk.new) (Image (D.disk disk.old)) }
        ensures frame { OthersStay (Only INSTANCE) (D.disk disk.old) (D.disk disk.new) }
        ensures faults { MayFailUncounted (D.disk disk.old).faults (D.disk disk.new).faults (IsErrOf result InstanceError.Failed) }
        ensures outside { (offset : ℕ) → IsErrOf result (InstanceError.NotARecord offset) → ⊥ }
    {
        let added = InstanceRecord::Cut {
            length: n,
            generation,
        };
        self.append(disk, added)
    }

    /// Appends a MAP of a pattern, a name or a name and a star, to a region of the site, and puts it on the disk.
    ///
    /// # Errors
    /// `Failed` only where the disk's count rose; a crash may then find the record all the same. `NoMemory`, after which all is
    /// as before.
    pub fn map<D: Disk>(
        &mut self,
        disk: &mut D,
        region: u8,
        pattern: &[u8],
    ) -> Result<(), InstanceError>
        requires ready { IsReady (D.disk disk.old) self.old }
        requires created { region < length (defs.regions self.old.records) }
        requires form { IsInForm (defs.pattern_record region pattern.now) }
        ensures ready { OnOk result (IsReady (D.disk disk.new) self.new) }
        ensures records { OnOk result (self.new.records ≡ self.old.records ++ defs.pattern_record region pattern.now ∷ []) }
        ensures state { OnOk result ((rs : List defs.InstanceRecord) → HasRecords (D.disk disk.old) self.old rs → HasRecords (D.disk disk.new) self.new (rs ++ defs.pattern_record region pattern.now ∷ [])) }
        ensures any_moment { (rs : List defs.InstanceRecord) → HasRecords (D.disk disk.old) self.old rs → AtEachMoment (D.disk disk.old) (D.disk disk.new) (OnlyOn (D.disk disk.old) INSTANCE (StandsWith rs (defs.pattern_record region pattern.now))) }
        ensures kept { OnErr result (self.new.records ≡ self.old.records) }
        ensures no_memory_ready { IsErrOf result InstanceError.NoMemory → IsReady (D.disk disk.new) self.new }
        ensures no_memory_state { IsErrOf result InstanceError.NoMemory → (rs : List defs.InstanceRecord) → HasRecords (D.disk disk.old) self.old rs → HasRecords (D.disk disk.new) self.new rs }
        ensures no_memory_moment { IsErrOf result InstanceError.NoMemory → AtEachMoment (D.disk disk.old) (D.disk disk.new) (Image (D.disk disk.old)) }
        ensures frame { OthersStay (Only INSTANCE) (D.disk disk.old) (D.disk disk.new) }
        ensures faults { MayFailUncounted (D.disk disk.old).faults (D.disk disk.new).faults (IsErrOf result InstanceError.Failed) }
        ensures outside { (offset : ℕ) → IsErrOf result (InstanceError.NotARecord offset) → ⊥ }
    {
        let added = map_of(self.gated.alloc, region, pattern)?;
        self.append(disk, added)
    }

    /// Appends a MODE of a region of the site, which holds for its later generations, and puts it on the disk.
    ///
    /// # Errors
    /// `Failed` only where the disk's count rose; a crash may then find the record all the same. `NoMemory`, after which all is
    /// as before.
    pub fn mode<D: Disk>(
        &mut self,
        disk: &mut D,
        region: u8,
        before: bool,
    ) -> Result<(), InstanceError>
        requires ready { IsReady (D.disk disk.old) self.old }
        requires created { region < length (defs.regions self.old.records) }
        requires form { region < MOST_REGIONS }
        ensures ready { OnOk result (IsReady (D.disk disk.new) self.new) }
        ensures records { OnOk result (self.new.records ≡ self.old.records ++ defs.Mode region before ∷ []) }
        ensures state { OnOk result ((rs : List defs.InstanceRecord) → HasRecords (D.disk disk.old) self.old rs → HasRecords (D.disk disk.new) self.new (rs ++ defs.Mode region before ∷ [])) }
        ensures any_moment { (rs : List defs.InstanceRecord) → HasRecords (D.disk disk.old) self.old rs → AtEachMoment (D.disk disk.old) (D.disk disk.new) (OnlyOn (D.disk disk.old) INSTANCE (StandsWith rs (defs.Mode region before))) }
        ensures kept { OnErr result (self.new.records ≡ self.old.records) }
        ensures no_memory_ready { IsErrOf result InstanceError.NoMemory → IsReady (D.disk disk.new) self.new }
        ensures no_memory_state { IsErrOf result InstanceError.NoMemory → (rs : List defs.InstanceRecord) → HasRecords (D.disk disk.old) self.old rs → HasRecords (D.disk disk.new) self.new rs }
        ensures no_memory_moment { IsErrOf result InstanceError.NoMemory → AtEachMoment (D.disk disk.old) (D.disk disk.new) (Image (D.disk disk.old)) }
        ensures frame { OthersStay (Only INSTANCE) (D.disk disk.old) (D.disk disk.new) }
        ensures faults { MayFailUncounted (D.disk disk.old).faults (D.disk disk.new).faults (IsErrOf result InstanceError.Failed) }
        ensures outside { (offset : ℕ) → IsErrOf result (InstanceError.NotARecord offset) → ⊥ }
    {
        self.append(disk, InstanceRecord::Mode { region, before })
    }

    /// The reigns that no later CUT dropped.
    pub fn history(&self) -> &Reigns
        ensures { result.now ≡ surviving.reigns self.now.records }
    {
        &self.history
    }

    /// The cycle of a new reign: one more than the greatest of all reigns, dropped ones included, or 1 where there is none. It's
    /// `None` exactly where a reign has the greatest cycle that there is.
    pub fn draw_cycle(&self) -> Option<u32>
        ensures { MatchOption result (defs.greatest_cycle self.now.records ≡ 2 ^ 32 - 1) (λ cycle. cycle ≡ defs.greatest_cycle self.now.records + 1) }
    {
        self.records.greatest_cycle().checked_add(1)
    }

    /// All records, in their order.
    pub fn records(&self) -> &InstanceRecords
        ensures { result.now ≡ self.now.records }
    {
        &self.records
    }
}
