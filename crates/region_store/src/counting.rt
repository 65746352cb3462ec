//! How many nodes there are, and how many a list of updates sets in a region.
ghost use Rattle.std.specs.Prelude.{◌≡◌, ◌≤◌, ◌∷◌, [], map, length};
ghost use Rattle.global_defs.specs.declared.limits.TheConstants.{MOST_REGIONS};
ghost use Rattle.journal_defs.specs.Fit.{key_of};
ghost use Rattle.block_laws.specs.Nodes.{updates_in, sum_below};
ghost use Rattle.gvn_key.specs.Terms.{update_value};
ghost use Rattle.gvt_leaf.specs.Stored.{sets_in};
ghost use Rattle.region_store.specs.Counts.{nodes_at};

use crate::region::Region;
use global_dir::Directory;
use gvn_key::terms::Update;
use gvt_leaf::sets_of;

/// The name of the global that an update changes.
pub(crate) fn name_of(update: &Update) -> &[u8]
    ensures { result.now ≡ (key_of (update_value update.now)).name }
{
    match update {
        Update::Set(key, _) => key.name(),
        Update::Kill(key) => key.name(),
        Update::ZKill(key) => key.name(),
    }
}

/// How many nodes an update sets in a region.
fn sets_there(directory: &Directory, region: usize, update: &Update) -> usize
    ensures sets { result ≡ sets_in (updates_in directory.now.patterns region (update_value update.now ∷ [])) }
    ensures few { result ≤ 1 }
{
    if directory.region_of(name_of(update)) as usize == region {
        sets_of(update)
    } else {
        0
    }
}

/// How many nodes these updates set in a region, each as often as it is set.
pub(crate) fn count_sets_in(directory: &Directory, region: usize, updates: &[Update]) -> usize
    ensures { result ≡ sets_in (updates_in directory.now.patterns region (map update_value updates.now)) }
{
    let mut sets = 0;
    for update in updates {
        sets += sets_there(directory, region, update);
    }
    sets
}

/// How many nodes the regions have. There are at most 8 of them.
pub(crate) fn count_nodes(regions: &[Region]) -> u64
    requires { length regions.now ≤ MOST_REGIONS }
    ensures { result ≡ sum_below (length regions.now) (nodes_at regions.now) }
{
    let mut nodes = 0;
    for region in regions {
        nodes += u64::from(region.nodes());
    }
    nodes
}
