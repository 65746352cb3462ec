//! Directories.
ghost use Rattle.std.specs.Prelude.{◌≡◌, ◌↔◌, ◌≤◌, ◌<◌, ℕ, List, true, false, [], map, IfOk, OnOk, OnErr, IsErrOf};
ghost use Rattle.global_defs.specs.declared.limits.TheConstants.{MOST_REGIONS};
ghost use Rattle.journal_defs.specs.Directory as defs;
ghost use Rattle.journal_defs.specs.Directory.{region_of};
ghost use Rattle.global_defs.specs.Pattern.{ends_in_star, stem, is_pattern};
ghost use Rattle.global_dir.specs.Texts.{pattern_of};
ghost use Rattle.global_dir.specs.Directory.{pattern_value, with_pattern, is_mapped, pattern_with};

use super::error::DirError;
use super::pattern::{Pattern, is_global_name, split_pattern};
use gvn_key::{Bytes, NoMemory};
use std::alloc::Global;
use std::marker::Model;

/// Which region takes the global of a name, among 1 to 8 regions that are numbered from 0.
#[derive(Debug, Drop)]
pub struct Directory {
    regions: u8,
    patterns: Vec<Pattern>,
}

impl Model for Directory {
    ghost use Rattle.std.specs.Prelude.{◌≤◌, ◌<◌, map};
    ghost use Rattle.global_defs.specs.declared.limits.TheConstants.{MOST_REGIONS};
    ghost use Rattle.std.specs.List.{AllByRecursion};
    ghost use Rattle.global_dir.specs.Directory.{Mapping, pattern_value};

    ghost Value = { Mapping };

    ghost view = { λ d. record { regions = d.regions; patterns = map pattern_value d.patterns.items } };

    ghost invariant = { λ d. (1 ≤ d.regions) × (d.regions ≤ MOST_REGIONS) × AllByRecursion (λ p. p.region < d.regions) (map pattern_value d.patterns.items) };
}

/// Whether one of the patterns is written so, whatever its region.
fn is_mapped(patterns: &[Pattern], star: bool, name: &[u8]) -> bool
    ensures { result ≡ is_mapped (map pattern_value patterns.now) star name.now }
{
    for pattern in patterns {
        if pattern.star == star && pattern.name.as_slice() == name {
            return true;
        }
    }
    false
}

/// The region of a name by these patterns.
fn region_by(patterns: &[Pattern], name: &[u8]) -> u8
    ensures { result ≡ region_of (map pattern_value patterns.now) name.now }
{
    let mut best: Option<&Pattern> = None;
    for pattern in patterns {
        if pattern.matches(name) && pattern.beats(best) {
            best = Some(pattern);
        }
    }
    match best {
        Some(pattern) => pattern.region,
        None => 0,
    }
}

fn copy_all(alloc: Global, patterns: &[Pattern]) -> Result<Vec<Pattern>, NoMemory>
    ensures { IfOk result (λ made. made.items ≡ patterns.now) }
{
    let mut made = Vec::new(alloc);
    for pattern in patterns {
        made.push(pattern.copy()?)?;
    }
    Ok(made)
}

impl Directory {
    /// A directory of so many regions, 1 to 8, and no patterns, so region 0 takes each name. It takes no memory yet.
    pub fn new(alloc: Global, regions: u8) -> Self
        requires some { 1 ≤ regions }
        requires few { regions ≤ MOST_REGIONS }
        ensures regions { result.regions ≡ regions }
        ensures patterns { result.patterns ≡ [] }
    {
        Directory {
            regions,
            patterns: Vec::new(alloc),
        }
    }

    /// How many regions there are.
    pub fn regions(&self) -> u8
        ensures count { result ≡ self.now.regions }
        ensures some { 1 ≤ result }
        ensures few { result ≤ MOST_REGIONS }
        ensures there { (name : List ℕ) → region_of self.now.patterns name < result }
    {
        self.regions
    }

    /// All patterns, in the order of their mapping.
    pub fn patterns(&self) -> &[Pattern]
        ensures { map pattern_value result.now ≡ self.now.patterns }
    {
        &self.patterns
    }

    /// The region that takes a name. It looks at each pattern once.
    pub fn region_of(&self, name: &[u8]) -> u8
        ensures value { result ≡ region_of self.now.patterns name.now }
        ensures there { result < self.now.regions }
    {
        region_by(&self.patterns, name)
    }

    /// Maps a pattern that is taken apart already, whatever its name, also where it is mapped already: the earlier one then wins.
    /// Without memory nothing has changed.
    pub fn add(&mut self, region: u8, star: bool, name: &[u8]) -> Result<(), NoMemory>
        requires { region < self.old.regions }
        ensures ok { OnOk result (self.new ≡ with_pattern self.old (pattern_with region star name.now)) }
        ensures err { OnErr result (self.new ≡ self.old) }
    {
        let name = Bytes::of(*self.patterns.allocator(), name)?;
        self.patterns.push(Pattern { region, star, name })?;
        Ok(())
    }

    /// Maps a pattern, as it's written, to a region.
    ///
    /// # Errors
    /// `BadPattern`, `NoRegion`, `TwiceMapped`, the first one that has its cause, or `NoMemory`. Nothing has changed then.
    pub fn map(&mut self, region: u8, pattern: &[u8]) -> Result<(), DirError>
        ensures ok { OnOk result (self.new ≡ with_pattern self.old (pattern_of region pattern.now)) }
        ensures err { OnErr result (self.new ≡ self.old) }
        ensures bad_pattern { IsErrOf result DirError.BadPattern ↔ (is_pattern pattern.now ≡ false) }
        ensures no_region { IsErrOf result DirError.NoRegion ↔ ((is_pattern pattern.now ≡ true) × (self.old.regions ≤ region)) }
        ensures twice { IsErrOf result DirError.TwiceMapped ↔ ((is_pattern pattern.now ≡ true) × (region < self.old.regions) × (is_mapped self.old.patterns (ends_in_star pattern.now) (stem pattern.now) ≡ true)) }
    {
        let (name, star) = split_pattern(pattern);
        if !is_global_name(name) {
            return Err(DirError::BadPattern);
        }
        if self.regions <= region {
            return Err(DirError::NoRegion);
        }
        if is_mapped(&self.patterns, star, name) {
            return Err(DirError::TwiceMapped);
        }
        self.add(region, star, name)?;
        Ok(())
    }

    /// An equal directory.
    pub fn copy(&self) -> Result<Self, NoMemory>
        ensures { IfOk result (λ made. made ≡ self.now) }
    {
        Ok(Directory {
            regions: self.regions,
            patterns: copy_all(*self.patterns.allocator(), &self.patterns)?,
        })
    }
}
