//! What the instance file of a site says of it.
ghost use Rattle.std.specs.Prelude.{◌≡◌, ◌⊎◌, ◌<◌, ℕ, length, map, Some, None, IfOk, OnErr, IsErrOf};
ghost use Rattle.gvn_model.specs.Regions.{named_region};
ghost use Rattle.journal_defs.specs.Numbers.{INSTANCE};
ghost use Rattle.site_files.specs.Loading.{IsDirectory};
ghost use Rattle.site_store.specs.Finding.{IsLaidOut};
ghost use Rattle.site_store.specs.Opening.{region_value};

use crate::error::SiteError;
use global_dir::Directory;
use gvn_key::{Bytes, NoMemory};
use gvn_model::NamedModes;
use instance_file::InstanceRecords;
use site_files::directory_of;
use std::alloc::Global;

/// A region's name, and whether its blocks are kept as they were before they change.
#[derive(Debug, Drop)]
pub struct RegionSpec {
    pub name: Bytes,
    pub before: bool,
}

/// What the instance file of a site says of it.
#[derive(Drop)]
pub struct Layout {
    /// The site's name.
    pub name: Bytes,
    /// Its regions, 1 to 8 of them, by their numbers from 0 on.
    pub regions: Vec<RegionSpec>,
    /// Which region each name of a global belongs to.
    pub directory: Directory,
    /// The greatest generation of its journals, or 0 where none was drawn.
    pub generation: u32,
}

/// Regions as a layout has them.
pub(crate) fn specs_of(
    alloc: Global,
    regions: &[(Bytes, bool)],
) -> Result<Vec<RegionSpec>, NoMemory>
    ensures { IfOk result (λ made. map region_value made.items ≡ map named_region regions.now) }
{
    let mut made = Vec::new(alloc);
    for (name, before) in regions {
        made.push(RegionSpec {
            name: name.copy()?,
            before: *before,
        })?;
    }
    Ok(made)
}

/// Regions as the instance file takes them.
pub(crate) fn named_modes(alloc: Global, regions: &[RegionSpec]) -> Result<NamedModes, NoMemory>
    ensures { IfOk result (λ made. map named_region made ≡ map region_value regions.now) }
{
    let mut made = NamedModes::new(alloc);
    for region in regions {
        made.push((region.name.copy()?, region.before))?;
    }
    Ok(made)
}

/// The layout that these records give, if there is one. Where they have no region, more than eight, or a MAP of another one they are
/// no site's.
pub fn layout_of(alloc: Global, records: &InstanceRecords) -> Result<Option<Layout>, SiteError>
    ensures layout { IfOk result (λ found. IsLaidOut records.now found) }
    ensures outside { (file offset : ℕ) → IsErrOf result (SiteError.NotAFile file offset) → (0 < length records.now) × IsDirectory records.now None }
    ensures place { (file offset : ℕ) → IsErrOf result (SiteError.NotAFile file offset) → (file ≡ INSTANCE) × (offset ≡ 0) }
    ensures causes { OnErr result (((file : ℕ) × (offset : ℕ) × IsErrOf result (SiteError.NotAFile file offset)) ⊎ IsErrOf result SiteError.NoMemory) }
{
    if records.is_empty() {
        return Ok(None);
    }
    let Some(directory) = directory_of(alloc, records)? else {
        return Err(SiteError::NotAFile { file: 0, offset: 0 });
    };
    Ok(Some(Layout {
        name: Bytes::of(alloc, records.name())?,
        regions: specs_of(alloc, records.regions())?,
        directory,
        generation: records.generation(),
    }))
}
