// RUN.
ghost use Rattle.std.specs.Prelude.{OnOk};
ghost use Rattle.command_defs.specs.Commands.{UsesUp};
ghost use Rattle.repl_script.specs.Places.{at_all};
ghost use Rattle.world_defs.specs.Meaning.{row_at};
ghost use Rattle.world_defs.specs.rows.Run.{run};
ghost use Rattle.site_runner.specs.Executes.{Leaves};
ghost use Rattle.site_runner.specs.Sites.{IsReadyOpen, IsReadySlot};

use super::ending::Ended;
use super::slot::Slot;
use super::text::{write_numbered, write_undecided};
use gvn_key::{Bytes, NoMemory};
use gvn_model::Jobs;
use repl_disk::Disk;
use repl_section::{Reign, RunError};
use site_store::nothing_is_left;
use std::alloc::Global;
use world_laws::leftovers::leftovers_hold;

/// Decides updaters' jobs at an open site, one after another in the order of their first lines. A section counts as not done: no
/// command goes on behind it. A site whose disk has failed is given up.
pub fn run_section<D: Disk>(
    alloc: Global,
    mut reign: Box<Reign<D>>,
    name: Bytes,
    mut jobs: Jobs,
    order: &[u8],
    text: &mut Bytes,
) -> (Slot<D>, Result<Ended, NoMemory>)
    requires whole { UsesUp (at_all jobs) order.now }
    requires ready { IsReadyOpen D.disk reign.value }
    ensures ready { OnOk result.1 (IsReadySlot D.disk result.0) }
    ensures left { Leaves D.disk (row_at (run (at_all jobs) order.now)) (Slot.Open reign name) result text.old text.new }
{
    leftovers_hold();
    let open = reign.as_mut();
    match open.run(alloc, &mut jobs, order, text) {
        Ok(()) => {
            nothing_is_left(&open.site);
            let length = open.site.sequence_length();
            let written = write_numbered(text, name.as_slice(), b"AT ", length);
            (Slot::Open { reign, name }, Ended::Undone.after(written))
        }
        Err(RunError::Failed { undecided }) => {
            let disk = Box::into_inner(reign).site.abandon();
            let fault = disk.faults();
            let written = write_undecided(text, name.as_slice(), fault, undecided);
            (
                Slot::Failed { disk, name, fault },
                Ended::Failed { fault }.after(written),
            )
        }
        Err(RunError::NoMemory) => (Slot::Open { reign, name }, Err(NoMemory)),
    }
}
