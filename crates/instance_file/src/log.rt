//! Reading an instance file alone, and opening it for calls then.
ghost use Rattle.std.specs.Prelude.{◌≡◌, ℕ, List, IfSome, IfOk, OnOk, IsErrOf};
ghost use Rattle.std.specs.List.{AllByRecursion};
ghost use Rattle.disk_defs.specs.Disk.{Image, IsDurable, AtEachMoment, MayFailUncounted};
ghost use Rattle.disk_defs.specs.Frames.{Only, OthersStay};
ghost use Rattle.gated_file.specs.Begin.{KeepsRecords};
ghost use Rattle.journal_defs.specs.Numbers.{INSTANCE};
ghost use Rattle.journal_defs.specs.Instance as defs;
ghost use Rattle.journal_defs.specs.Instance.{IsInForm};
ghost use Rattle.journal_defs.specs.Surviving as surviving;
ghost use Rattle.journal_defs.specs.Stands.{IsInstance};
ghost use Rattle.instance_file.specs.Order.{AreInOrder};
ghost use Rattle.site_defs.specs.OutsideInstance.{IsOutsideInstance};
ghost use Rattle.instance_file.specs.Instance.{HasRecords, IsReady};

use super::error::InstanceError;
use super::instance::Instance;
use super::records::InstanceRecords;
use super::walking::read_whole;
use gated_file::{Gated, see_gates, sync_file};
use gvn_model::Reigns;
use journal_defs::files::INSTANCE_FILE;
use repl_disk::Disk;
use std::alloc::Global;

/// What an instance file says.
#[derive(Drop)]
pub struct InstanceLog {
    /// Its records, in order.
    pub records: InstanceRecords,
    /// The reigns that no later CUT dropped.
    pub history: Reigns,
    pub ghost surviving: { history ≡ surviving.reigns records },
}

impl InstanceLog {
    /// Syncs the instance file and reads its records, perhaps none. It writes nothing.
    ///
    /// # Errors
    /// `NotARecord` exactly where the file isn't an instance file, with the place of a gate or a record that can't stand there, `Failed` only where the disk's count rose, and `NoMemory`.
    pub fn read<D: Disk>(alloc: Global, disk: &mut D) -> Result<InstanceLog, InstanceError>
        ensures reads { IfOk result (λ log. IfSome (D.disk disk.old).content (λ files. IsInstance (files INSTANCE) log.records)) }
        ensures order { IfOk result (λ log. AreInOrder log.records) }
        ensures form { IfOk result (λ log. AllByRecursion IsInForm log.records) }
        ensures durable { OnOk result (IfSome (D.disk disk.old).content (λ files. IsDurable (D.disk disk.new) INSTANCE (files INSTANCE))) }
        ensures outside { (offset : ℕ) → IsErrOf result (InstanceError.NotARecord offset) → IfSome (D.disk disk.old).content (λ files. IsOutsideInstance (files INSTANCE) offset) }
        ensures no_list { (offset : ℕ) → IsErrOf result (InstanceError.NotARecord offset) → IfSome (D.disk disk.old).content (λ files. (rs : List defs.InstanceRecord) → IsInstance (files INSTANCE) rs → ⊥) }
        ensures content { (D.disk disk.new).content ≡ (D.disk disk.old).content }
        ensures any_moment { AtEachMoment (D.disk disk.old) (D.disk disk.new) (Image (D.disk disk.old)) }
        ensures frame { OthersStay (Only INSTANCE) (D.disk disk.old) (D.disk disk.new) }
        ensures faults { MayFailUncounted (D.disk disk.old).faults (D.disk disk.new).faults (IsErrOf result InstanceError.Failed) }
    {
        sync_file(disk, INSTANCE_FILE)?;
        see_gates(disk, INSTANCE_FILE)?;
        let (records, history) = read_whole(&mut Gated::reading(alloc, INSTANCE_FILE), disk)?;
        Ok(InstanceLog { records, history })
    }
}

impl Instance {
    /// Opens the instance file for calls, whose records were read. It syncs the file first, and makes one of less than two
    /// bytes as `create` begins it. It goes from gate to gate, and reads no body.
    ///
    /// # Errors
    /// `Failed` only where the disk's count rose, and `NoMemory`. `NotARecord` only where the disk doesn't tell its files.
    pub fn open<D: Disk>(
        alloc: Global,
        disk: &mut D,
        log: InstanceLog,
    ) -> Result<Instance, InstanceError>
        requires told { IfSome (D.disk disk.old).content (λ files. IsInstance (files INSTANCE) log.records) }
        ensures ready { IfOk result (λ made. IsReady (D.disk disk.new) made) }
        ensures records { IfOk result (λ made. made.records ≡ log.records) }
        ensures state { IfOk result (λ made. IfSome (D.disk disk.old).content (λ _. HasRecords (D.disk disk.new) made log.records)) }
        ensures any_moment { IfSome (D.disk disk.old).content (λ _. AtEachMoment (D.disk disk.old) (D.disk disk.new) (KeepsRecords (D.disk disk.old) INSTANCE)) }
        ensures frame { OthersStay (Only INSTANCE) (D.disk disk.old) (D.disk disk.new) }
        ensures faults { MayFailUncounted (D.disk disk.old).faults (D.disk disk.new).faults (IsErrOf result InstanceError.Failed) }
        ensures outside { (offset : ℕ) → IsErrOf result (InstanceError.NotARecord offset) → IfSome (D.disk disk.old).content (λ _. ⊥) }
    {
        let InstanceLog { records, history } = log;
        let gated = Gated::attach(alloc, disk, INSTANCE_FILE)?;
        Ok(Instance {
            gated,
            records,
            history,
        })
    }
}
