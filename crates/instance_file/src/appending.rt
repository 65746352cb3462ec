//! Appending one body that is on the disk behind an open gate when the call answers.
ghost use Rattle.std.specs.Prelude.{◌≡◌, ◌≤◌, ◌++◌, ◌∷◌, [], List, length, OnOk, OnErr, IsErrOf};
ghost use Rattle.disk_defs.specs.Disk.{AtEachMoment, HasCause};
ghost use Rattle.disk_defs.specs.Frames.{Only, OnlyOn, OthersStay};
ghost use Rattle.disk_defs.specs.Gates.{Body, IsBody, Stands};
ghost use Rattle.gated_file.specs.State.{settled};
ghost use Rattle.gated_file.specs.Gated.{IsReady, HasState};

use gated_file::{GateError, Gated};
use repl_disk::Disk;

/// Appends a body for which there is room, syncs it, opens its gate, and syncs that. It takes no memory.
pub fn put<D: Disk>(gated: &mut Gated, disk: &mut D, body: &[u8]) -> Result<(), GateError>
    requires ready { IsReady (D.disk disk.old) gated.old }
    requires size { IsBody body.now }
    requires bodies { 1 ≤ gated.old.bodies_left }
    requires bytes { length body.now ≤ gated.old.bytes_left }
    requires syncs { 2 ≤ gated.old.syncs_left }
    ensures ready { OnOk result (IsReady (D.disk disk.new) gated.new) }
    ensures state { OnOk result ((bodies : List Body) → HasState (D.disk disk.old) gated.old (settled bodies)
        → HasState (D.disk disk.new) gated.new (settled (bodies ++ body.now ∷ []))) }
    ensures any_moment { (bodies : List Body) → HasState (D.disk disk.old) gated.old (settled bodies)
        → AtEachMoment (D.disk disk.old) (D.disk disk.new) (OnlyOn (D.disk disk.old) gated.old.file (Stands bodies (body.now ∷ []))) }
    ensures file { gated.new.file ≡ gated.old.file }
    ensures frame { OthersStay (Only gated.old.file) (D.disk disk.old) (D.disk disk.new) }
    ensures cause { HasCause (D.disk disk.old).faults (D.disk disk.new).faults result }
    ensures failed { OnErr result (IsErrOf result GateError.Failed) }
{
    gated.append_body(disk, body)?;
    gated.sync(disk)?;
    gated.open_gates(disk)?;
    gated.sync(disk)
}
