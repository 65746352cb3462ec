//! Whether the nodes of a region may be its own.
ghost use Rattle.std.specs.Prelude.{◌≡◌, ◌<◌, ◌==◌, true, false, map, take, IfOk};
ghost use Rattle.std.specs.List.{list_all};
ghost use Rattle.std.specs.FinMap as globals;
ghost use Rattle.global_defs.specs.Entry.{Sequence};
ghost use Rattle.journal_defs.specs.Directory.{region_of};
ghost use Rattle.journal_defs.specs.Sound.{region_state};
ghost use Rattle.gvt_leaf.specs.Listed.{node_value};
ghost use Rattle.region_opening.specs.Opening.{are_home};

use global_dir::Directory;
use gvn_key::NoMemory;
use gvt_leaf::Node;
use region_store::Region;
use std::alloc::Global;

/// Whether each of these nodes stands in the region of its name.
fn are_home(directory: &Directory, number: usize, nodes: &[Node<'_>]) -> bool
    ensures { result ≡ list_all (λ e. region_of directory.now.patterns e.0.name == number) (map node_value nodes.now) }
{
    nodes.iter().all(|node| directory.region_of(node.key.name()) as usize == number)
}

/// Whether the nodes may be the region's part of the state of so many entries: each stands in the region of its name, and there is
/// none where there is no entry. Where the site has one region it looks at no node.
pub(crate) fn may_be_its_own(
    alloc: Global,
    directory: &Directory,
    number: usize,
    region: &Region,
    entries: u64,
) -> Result<bool, NoMemory>
    requires number { number < directory.now.regions }
    ensures home { IfOk result (λ may. may ≡ true → are_home directory.now.patterns number region.now.globals ≡ true) }
    ensures none { IfOk result (λ may. may ≡ true → entries ≡ 0 → region.now.globals ≡ globals.empty) }
    ensures others { IfOk result (λ may. may ≡ false → (seq : Sequence) → region.now.globals ≡ region_state directory.now.patterns number (take entries seq) → ⊥) }
{
    if entries == 0 {
        return Ok(region.nodes() == 0);
    }
    if directory.regions() == 1 {
        // (one region takes every name)
        return Ok(true);
    }
    let nodes = region.list(alloc)?;
    Ok(are_home(directory, number, &nodes))
}
