//! The directory that the records of an instance file give.
ghost use Rattle.std.specs.Prelude.{◌≡◌, ◌↔◌, ◌≤◌, ◌<◌, ◌++◌, ◌∷◌, [], map, IfOk, IfSome, IsSome, IsTrue};
ghost use Rattle.std.specs.List.{AllByRecursion};
ghost use Rattle.instance_file.specs.Values.{record_value};
ghost use Rattle.journal_defs.specs.Directory.{patterns};
ghost use Rattle.site_files.specs.Loading.{IsDirectory};

use global_defs::limits::MOST_REGIONS;
use global_dir::Directory;
use gvn_key::NoMemory;
use instance_file::{InstanceRecord, InstanceRecords};
use std::alloc::Global;

/// Adds the pattern of a MAP to a directory. It answers `false` where the directory has no region of that number.
fn add_pattern(directory: &mut Directory, given: &InstanceRecord) -> Result<bool, NoMemory>
    ensures regions { directory.new.regions ≡ directory.old.regions }
    ensures fits { IfOk result (λ fits. IsTrue fits ↔ AllByRecursion (λ p. p.region < directory.old.regions) (patterns (record_value given.now ∷ []))) }
    ensures patterns { IfOk result (λ fits. IsTrue fits → directory.new.patterns ≡ directory.old.patterns ++ patterns (record_value given.now ∷ [])) }
{
    let InstanceRecord::Map { region, star, name } = given else {
        return Ok(true);
    };
    if directory.regions() <= *region {
        return Ok(false);
    }
    directory.add(*region, *star, name.as_slice())?;
    Ok(true)
}

/// The directory of so many regions that these records give, or `None` where a MAP names another one.
fn mapped(
    alloc: Global,
    regions: u8,
    records: &[InstanceRecord],
) -> Result<Option<Directory>, NoMemory>
    requires some { 1 ≤ regions }
    requires few { regions ≤ MOST_REGIONS }
    ensures regions { IfOk result (λ made. IfSome made (λ d. d.regions ≡ regions)) }
    ensures patterns { IfOk result (λ made. IfSome made (λ d. d.patterns ≡ patterns (map record_value records.now))) }
    ensures fits { IfOk result (λ made. IsSome made ↔ AllByRecursion (λ p. p.region < regions) (patterns (map record_value records.now))) }
{
    let mut directory = Directory::new(alloc, regions);
    for record in records {
        if !add_pattern(&mut directory, record)? {
            return Ok(None);
        }
    }
    Ok(Some(directory))
}

/// The directory that these records give, or `None` where there is no region, more than eight, or a MAP of another one.
pub fn directory_of(alloc: Global, records: &InstanceRecords) -> Result<Option<Directory>, NoMemory>
    ensures directory { IfOk result (λ made. IsDirectory records.now made) }
    ensures mapped { IfOk result (λ made. IfSome made (λ d. AllByRecursion (λ p. p.region < d.regions) (patterns records.now))) }
{
    let count = records.region_count();
    if count == 0 || usize::from(MOST_REGIONS) < count {
        return Ok(None);
    }
    mapped(alloc, count as u8, records.as_slice())
}
