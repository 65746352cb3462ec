//! What an open site has on its disk. Each function does nothing: its contract states a law over definitions alone.
ghost use Rattle.std.specs.Prelude.{ℕ, true, take};
ghost use Rattle.disk_defs.specs.Disk.{Files, Image};
ghost use Rattle.site_defs.specs.Contents.{Contents, NO_LEFTOVER};
ghost use Rattle.site_defs.specs.Fronts.{with_sequence};
ghost use Rattle.site_defs.specs.Stands.{HasLeft};
ghost use Rattle.site_store.specs.Owning.{IsOpenSite, disk_of};

use crate::site::Site;
use repl_disk::Disk;

/// Nothing lies behind the hardened entries of a site that is open: no part past them is open, and the broken-transaction file of the
/// next generation has no byte. It does nothing.
pub fn nothing_is_left<D: Disk>(site: &Site<D>)
    ensures { (c : Contents) (h : ℕ) (f : Files) → IsOpenSite D.disk true c h site.now → Image (D.disk (disk_of site.now)) f → HasLeft f (with_sequence c (take h c.sequence)) NO_LEFTOVER }
{}
