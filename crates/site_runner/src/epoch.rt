// EPOCH.
ghost use Rattle.std.specs.Prelude.{IfOk, OnOk, OnErr};
ghost use Rattle.world_defs.specs.Meaning.{row_at};
ghost use Rattle.world_defs.specs.rows.Epoch as rows;
ghost use Rattle.site_store.specs.Owning.{disk_of};
ghost use Rattle.site_runner.specs.Ending.{primary, primary_after, is_done_at, StaysReady};
ghost use Rattle.site_runner.specs.Executes.{Leaves};
ghost use Rattle.site_runner.specs.Sites.{IsReadyOpen, IsReadySlot};
ghost use Rattle.site_runner.specs.Steps.{ExecutesAt, IsCutAt};

use super::ending::{Ended, opened};
use super::marking::tell_epoch;
use super::slot::Slot;
use gvn_key::{Bytes, NoMemory};
use repl_disk::Disk;
use repl_section::Reign;
use site_store::nothing_is_left;
use world_laws::leftovers::leftovers_hold;

/// Brings an open site to an epoch.
fn mark<D: Disk>(reign: &mut Reign<D>, name: &[u8], text: &mut Bytes) -> Result<Ended, NoMemory>
    requires { IsReadyOpen D.disk reign.old }
    ensures ready { IfOk result (StaysReady D.disk reign.new) }
    ensures done { IfOk result (λ ended. ExecutesAt (rows.epoch name.now) (D.disk (disk_of reign.old.site)) (primary name.now reign.old) (D.disk (disk_of reign.new.site)) (primary_after name.now reign.new ended) text.old text.new (is_done_at ended)) }
    ensures cut_off { OnErr result (IsCutAt (rows.epoch name.now) (D.disk (disk_of reign.old.site)) (primary name.now reign.old) (D.disk (disk_of reign.new.site))) }
{
    leftovers_hold();
    let taken = reign.site.epoch();
    nothing_is_left(&reign.site);
    tell_epoch(taken, b"EPOCH ", reign.site.sequence_length(), name, text)
}

/// Brings an open site to an epoch, and leaves it open.
pub fn epoch<D: Disk>(
    mut reign: Box<Reign<D>>,
    name: Bytes,
    text: &mut Bytes,
) -> (Slot<D>, Result<Ended, NoMemory>)
    requires { IsReadyOpen D.disk reign.value }
    ensures ready { OnOk result.1 (IsReadySlot D.disk result.0) }
    ensures left { Leaves D.disk (row_at rows.epoch) (Slot.Open reign name) result text.old text.new }
{
    let ended = mark(reign.as_mut(), name.as_slice(), text);
    opened(reign, name, ended)
}
