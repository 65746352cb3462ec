//! Whether there is room for a transaction's nodes.
ghost use Rattle.std.specs.Prelude.{◌≡◌, ◌⊎◌, ◌≤◌, ℕ, length, OnOk, OnErr, IsErrOf};
ghost use Rattle.region_store.specs.Joined.{joined};
ghost use Rattle.site_store.specs.Site.{HasRoomFor};

use crate::error::SiteError;
use global_defs::limits::MOST_NODES;
use gvn_globals::Overlay;
use gvn_model::Updates;
use region_store::Regions;
use std::alloc::Global;

/// Makes these updates over the globals, and looks after each of them how many nodes there are.
fn check_each(alloc: Global, globals: &Regions, updates: &Updates) -> Result<(), SiteError>
    requires { 1 ≤ length updates.now }
    ensures fits { OnOk result (HasRoomFor (joined globals.now) updates.now) }
    ensures full { (nodes : ℕ) → IsErrOf result (SiteError.Full nodes) → HasRoomFor (joined globals.now) updates.now → ⊥ }
    ensures causes { OnErr result (((nodes : ℕ) × IsErrOf result (SiteError.Full nodes)) ⊎ IsErrOf result SiteError.NoMemory) }
{
    let mut overlay = Overlay::new(alloc, globals);
    for update in updates.as_slice() {
        overlay.apply(update)?;
        let nodes = overlay.nodes();
        if MOST_NODES < nodes {
            return Err(SiteError::Full { nodes });
        }
    }
    Ok(())
}

/// Whether at most 100,000 nodes stand after each of these updates. Each one adds one node at most, so that few updates on few
/// nodes need no look.
///
/// # Errors
/// `Full` exactly where more nodes would stand after one of them, with how many, and `NoMemory`.
pub fn check_room(alloc: Global, globals: &Regions, updates: &Updates) -> Result<(), SiteError>
    requires { 1 ≤ length updates.now }
    ensures fits { OnOk result (HasRoomFor (joined globals.now) updates.now) }
    ensures full { (nodes : ℕ) → IsErrOf result (SiteError.Full nodes) → HasRoomFor (joined globals.now) updates.now → ⊥ }
    ensures causes { OnErr result (((nodes : ℕ) × IsErrOf result (SiteError.Full nodes)) ⊎ IsErrOf result SiteError.NoMemory) }
{
    let most = MOST_NODES as usize;
    let nodes = globals.nodes() as usize;
    if nodes <= most && updates.len() <= most - nodes {
        return Ok(());
    }
    check_each(alloc, globals, updates)
}
