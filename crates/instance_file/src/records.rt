//! Lists of records.
ghost use Rattle.std.specs.Prelude.{◌≡◌, ◌==◌, ◌<◌, [], ◌∷◌, ◌++◌, true, length, map, Some, slice_get, List, OnOk, OnErr};
ghost use Rattle.std.specs.Option.{unwrap_or};
ghost use Rattle.gvn_model.specs.Regions.{named_region};
ghost use Rattle.journal_defs.specs.Instance as defs;
ghost use Rattle.instance_file.specs.Values.{record_value};

use super::record::InstanceRecord;
use gvn_key::{Bytes, NoMemory};
use std::alloc::Global;
use std::marker::Model;

/// The mode that a record gives a region.
fn mode_given(given: &InstanceRecord, region: u8) -> Option<bool>
    ensures { result ≡ defs.mode_in (record_value given.now) region }
{
    match given {
        InstanceRecord::Create { regions, .. } => match regions.as_slice().get(region as usize) {
            Some((_, before)) => Some(*before),
            None => None,
        },
        InstanceRecord::Mode { region: of, before } if *of == region => Some(*before),
        _ => None,
    }
}

/// The records of an instance file, in their order. A call that answers [`NoMemory`] changes nothing.
#[derive(Debug, Drop)]
pub struct InstanceRecords {
    items: Vec<InstanceRecord>,
}

impl Model for InstanceRecords {
    ghost use Rattle.std.specs.Prelude.{List, map};
    ghost use Rattle.journal_defs.specs.Instance as defs;
    ghost use Rattle.instance_file.specs.Values.{record_value};

    ghost Value = { List defs.InstanceRecord };

    ghost view = { λ r. map record_value r.items.items };
}

impl InstanceRecords {
    /// An empty list. It takes no memory yet.
    pub fn new(alloc: Global) -> Self
        ensures { result ≡ [] }
    {
        InstanceRecords {
            items: Vec::new(alloc),
        }
    }

    /// How many records there are.
    pub fn len(&self) -> usize
        ensures { result ≡ length self.now }
    {
        self.items.len()
    }

    /// Whether there is no record.
    pub fn is_empty(&self) -> bool
        ensures { result ≡ (length self.now == 0) }
    {
        self.items.is_empty()
    }

    /// The record at place `i`, from 0.
    pub fn item(&self, i: usize) -> &InstanceRecord
        requires { i < length self.now }
        ensures { slice_get self.now i ≡ Some (record_value result.now) }
    {
        &self.items[i]
    }

    /// All the records.
    pub fn as_slice(&self) -> &[InstanceRecord]
        ensures { map record_value result.now ≡ self.now }
    {
        &self.items
    }

    /// The name in the CREATE that they begin with, or no byte where they begin with another one.
    pub fn name(&self) -> &[u8]
        ensures { result.now ≡ defs.site_name self.now }
    {
        match self.as_slice() {
            [InstanceRecord::Create { name, .. }, ..] => name.as_slice(),
            _ => &[],
        }
    }

    /// The regions in the CREATE that they begin with, each with whether its mode is BEFORE, or none where they begin with another one.
    pub fn regions(&self) -> &[(Bytes, bool)]
        ensures { map named_region result.now ≡ defs.regions self.now }
    {
        match self.as_slice() {
            [InstanceRecord::Create { regions, .. }, ..] => regions.as_slice(),
            _ => &[],
        }
    }

    /// How many regions the CREATE names that they begin with, or 0 where they begin with another one.
    pub fn region_count(&self) -> usize
        ensures { result ≡ length (defs.regions self.now) }
    {
        match self.as_slice() {
            [InstanceRecord::Create { regions, .. }, ..] => regions.len(),
            _ => 0,
        }
    }

    /// The mode of a region by them: the last one that it was given, or BEFORE.
    pub fn mode(&self, region: u8) -> bool
        ensures { result ≡ unwrap_or (defs.mode_of self.now region) true }
    {
        let records = self.as_slice();
        let mut mode = None;
        for given in records {
            mode = mode_given(given, region).or(mode);
        }
        mode.unwrap_or(true)
    }

    /// The greatest generation of a CUT, or 0.
    pub fn generation(&self) -> u32
        ensures { result ≡ defs.generation self.now }
    {
        let records = self.as_slice();
        let mut greatest = 0;
        for record in records {
            if let InstanceRecord::Cut { generation, .. } = record {
                greatest = (*generation).max(greatest);
            }
        }
        greatest
    }

    /// The greatest cycle of a REIGN, or 0.
    pub(crate) fn greatest_cycle(&self) -> u32
        ensures { result ≡ defs.greatest_cycle self.now }
    {
        let records = self.as_slice();
        let mut greatest = 0;
        for record in records {
            if let InstanceRecord::Reign(reign) = record {
                greatest = reign.stamp.cycle.max(greatest);
            }
        }
        greatest
    }

    /// Adds a record at the end.
    pub fn push(&mut self, added: InstanceRecord) -> Result<(), NoMemory>
        ensures ok { OnOk result (self.new ≡ self.old ++ record_value added ∷ []) }
        ensures err { OnErr result (self.new ≡ self.old) }
    {
        self.items.push(added)?;
        Ok(())
    }

    /// Takes the last record away.
    pub(crate) fn drop_last(&mut self)
        requires { 0 < length self.old }
        ensures { (rs : List defs.InstanceRecord) (r : defs.InstanceRecord) → self.old ≡ rs ++ r ∷ [] → self.new ≡ rs }
    {
        self.items.pop();
    }
}
