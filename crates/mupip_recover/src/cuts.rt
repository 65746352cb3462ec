//! The cuts of an instance file, searched by generation.
ghost use Rattle.std.specs.Prelude.{◌≡◌, List, map, IfOk};
ghost use Rattle.std.specs.List.{filter_map};
ghost use Rattle.std.specs.List.Sorted.{IsPermutation, IsNonDecreasingBy};
ghost use Rattle.journal_defs.specs.Instance as instances;
ghost use Rattle.journal_defs.specs.Surviving.{survives};
ghost use Rattle.instance_file.specs.Values.{record_value};
ghost use Rattle.mupip_recover.specs.Cuts.{cut_in, AreCuts};

use super::minima::{how_many_up_to, minima_of};
use gvn_key::NoMemory;
use instance_file::{InstanceRecord, InstanceRecords};
use std::alloc::Global;

/// A CUT.
#[derive(Debug, Drop)]
pub struct Cut {
    /// The generation that begins with it.
    pub generation: u64,
    /// How many entries it leaves.
    pub length: u64,
}

/// The cuts of an instance file, by their generations. The fields are there for contracts.
#[derive(Debug, Drop)]
pub struct Cuts {
    /// Their generations, which don't fall.
    pub generations: Vec<u64>,
    /// For each cut the least length of that and of those behind it.
    pub lengths: Vec<u64>,
}

/// The cut that a record is.
fn cut_of(found: &InstanceRecord) -> Option<Cut>
    ensures { result ≡ cut_in (record_value found.now) }
{
    match found {
        InstanceRecord::Cut { length, generation } => Some(Cut {
            generation: u64::from(*generation),
            length: *length,
        }),
        _ => None,
    }
}

/// The cuts among these records, in their order.
fn cuts_among(alloc: Global, records: &[InstanceRecord]) -> Result<Vec<Cut>, NoMemory>
    ensures { IfOk result (λ made. made.items ≡ filter_map (λ r. cut_in (record_value r)) records.now) }
{
    Ok(records.iter().filter_map(cut_of).collect(alloc)?)
}

/// Sorts cuts by their generations.
fn sort(cuts: &mut Vec<Cut>)
    ensures permutation { IsPermutation cuts.old.items cuts.new.items }
    ensures sorted { IsNonDecreasingBy (λ x. x.generation) cuts.new.items }
{
    cuts.sort_unstable_by_key(|cut| cut.generation);
}

/// The generation of each cut.
fn generations_of(alloc: Global, cuts: &[Cut]) -> Result<Vec<u64>, NoMemory>
    ensures { IfOk result (λ made. made.items ≡ map (λ x. x.generation) cuts.now) }
{
    Ok(cuts.iter().map(|cut| cut.generation).collect(alloc)?)
}

/// How many entries each cut leaves.
fn lengths_of(alloc: Global, cuts: &[Cut]) -> Result<Vec<u64>, NoMemory>
    ensures { IfOk result (λ made. made.items ≡ map (λ x. x.length) cuts.now) }
{
    Ok(cuts.iter().map(|cut| cut.length).collect(alloc)?)
}

impl Cuts {
    /// The cuts among these records.
    pub fn of(alloc: Global, instance: &InstanceRecords) -> Result<Cuts, NoMemory>
        ensures { IfOk result (AreCuts instance.now) }
    {
        let mut cuts = cuts_among(alloc, instance.as_slice())?;
        sort(&mut cuts);
        let lengths = lengths_of(alloc, &cuts)?;
        Ok(Cuts {
            generations: generations_of(alloc, &cuts)?,
            lengths: minima_of(alloc, &lengths)?,
        })
    }

    /// Whether what has this generation and this number survives all of them.
    pub fn spare(&self, generation: u32, number: u64) -> bool
        requires { (rs : List instances.InstanceRecord) × AreCuts rs self.now }
        ensures { (rs : List instances.InstanceRecord) → AreCuts rs self.now → result ≡ survives rs generation number }
    {
        let passed = how_many_up_to(&self.generations, u64::from(generation));
        match self.lengths.get(passed) {
            None => true,
            Some(length) => number <= *length,
        }
    }
}
