// STOP.
ghost use Rattle.std.specs.Prelude.{OnOk};
ghost use Rattle.world_defs.specs.Meaning.{row_at};
ghost use Rattle.world_defs.specs.rows.Stop as rows;
ghost use Rattle.site_runner.specs.Executes.{Leaves};
ghost use Rattle.site_runner.specs.Sites.{IsReadyOpen, IsReadySlot};

use super::ending::{Ended, closed};
use super::marking::tell_epoch;
use super::slot::Slot;
use gvn_key::{Bytes, NoMemory};
use repl_disk::Disk;
use repl_section::Reign;
use world_laws::leftovers::leftovers_hold;

/// Brings an open site to a closing epoch, and closes it.
pub fn stop<D: Disk>(
    reign: Box<Reign<D>>,
    name: Bytes,
    text: &mut Bytes,
) -> (Slot<D>, Result<Ended, NoMemory>)
    requires { IsReadyOpen D.disk reign.value }
    ensures ready { OnOk result.1 (IsReadySlot D.disk result.0) }
    ensures left { Leaves D.disk (row_at rows.stop) (Slot.Open reign name) result text.old text.new }
{
    leftovers_hold();
    let reign = Box::into_inner(reign);
    let length = reign.site.sequence_length();
    let (disk, taken) = reign.site.close();
    let ended = tell_epoch(taken, b"DOWN ", length, name.as_slice(), text);
    closed(disk, name, ended)
}
