//! Broken transactions: what stands past the length of a site, as the text of a file for the operator.
//!
//! Where memory runs out part of a line may have been added, except by the public call.
ghost use Rattle.std.specs.Prelude.{◌≡◌, ◌+◌, ◌<◌, ◌^◌, ◌∷◌, [], ◌++◌, List, map, IfOk, IfSome, OnOk, OnErr};
ghost use Rattle.std.specs.List.{flat_map};
ghost use Rattle.std.specs.Option.{option_map};
ghost use Rattle.global_defs.specs.Extract.{field};
ghost use Rattle.global_defs.specs.NodeText.{node_text};
ghost use Rattle.gvn_model.specs.Regions.{named_region};
ghost use Rattle.journal_defs.specs.Instance as instances;
ghost use Rattle.journal_defs.specs.Broken as defs;
ghost use Rattle.gvn_key.specs.Terms.{update_value};
ghost use Rattle.gvn_model.specs.Items.{item_value};
ghost use Rattle.jnl_record.specs.Values.{record_value, placed_value};
ghost use Rattle.mupip_recover.specs.Site.{journal_of, site_records};
ghost use Rattle.mupip_recover.specs.Cuts.{AreCuts};
ghost use Rattle.mupip_recover.specs.Parts.{part_value};
ghost use Rattle.mupip_recover.specs.Broken.{broken_value, broken_in, broken_of, Adds};

use super::cuts::Cuts;
use super::part::Part;
use super::table::surviving_part;
use gvn_key::terms::Update;
use gvn_key::{Bytes, Key, NoMemory, zwr_write};
use gvn_model::{Item, Origin};
use instance_file::InstanceRecords;
use jnl_record::PlacedRecord;
use std::alloc::Global;

/// The first line: the site's name, and the number behind the length.
fn write_header(site: &[u8], length: u64, out: &mut Bytes) -> Result<(), NoMemory>
    requires { length + 1 < 2 ^ 64 }
    ensures { OnOk result (out.new ≡ out.old ++ defs.header site.now length) }
{
    out.push_all(b"GTMRBRK01\\")?;
    out.push_all(site)?;
    out.push_all(b"\\")?;
    out.push_decimal(length + 1)?;
    out.push_all(b"\n")
}

/// The fields that each line of a part has: the entry's number, the region's name and the job.
fn fields_of(alloc: Global, region: &[u8], part: &Part) -> Result<Bytes, NoMemory>
    ensures { IfOk result (λ made. made ≡ defs.part_fields (broken_value region.now part.now)) }
{
    let Origin { updater, serial } = part.origin;
    let mut made = Bytes::of(alloc, b"\\")?;
    made.push_decimal(part.number)?;
    made.push_all(b"\\")?;
    made.push_all(region)?;
    made.push_all(b"\\")?;
    made.push_decimal(u64::from(updater))?;
    made.push_all(b".")?;
    made.push_decimal(u64::from(serial))?;
    Ok(made)
}

/// The beginning of a line: its word, the fields, and a node.
fn write_node(word: &[u8], fields: &[u8], key: &Key, out: &mut Bytes) -> Result<(), NoMemory>
    ensures { OnOk result (out.new ≡ out.old ++ (word.now ++ fields.now ++ field (node_text key.now))) }
{
    out.push_all(word)?;
    out.push_all(fields)?;
    out.push_all(b"\\")?;
    key.write(out)
}

/// The line of an update.
fn write_update(fields: &[u8], update: &Update, out: &mut Bytes) -> Result<(), NoMemory>
    ensures { OnOk result (out.new ≡ out.old ++ defs.update_line fields.now (update_value update.now)) }
{
    match update {
        Update::Set(key, value) => {
            write_node(b"SET", fields, key, out)?;
            out.push_all(b"=")?;
            zwr_write(value.as_slice(), out)?;
        }
        Update::Kill(key) => write_node(b"KILL", fields, key, out)?,
        Update::ZKill(key) => write_node(b"ZKILL", fields, key, out)?,
    }
    out.push_all(b"\n")
}

/// The lines of items, in order.
fn write_items(fields: &[u8], items: &[Item], out: &mut Bytes) -> Result<(), NoMemory>
    ensures { OnOk result (out.new ≡ out.old ++ flat_map (λ i. defs.update_line fields.now i.update) (map item_value items.now)) }
{
    for item in items {
        write_update(fields, &item.update, out)?;
    }
    Ok(())
}

/// The lines of a part.
fn write_part(region: &[u8], part: &Part, out: &mut Bytes) -> Result<(), NoMemory>
    ensures { OnOk result (out.new ≡ out.old ++ defs.part_text (broken_value region.now part.now)) }
{
    let fields = fields_of(out.allocator(), region, part)?;
    write_items(fields.as_slice(), part.items.as_slice(), out)
}

/// What a file of broken transactions is told from, beside the records of regions.
#[derive(Clone, Copy, Debug)]
struct Past<'a> {
    cuts: &'a Cuts,
    /// The site's name.
    site: &'a [u8],
    /// How many entries the site's sequence has.
    length: u64,
}

impl Past<'_> {
    /// Adds the lines of a part past the length, and before those of the first one the header.
    fn add_part(&self, region: &[u8], part: &Part, text: &mut Bytes) -> Result<(), NoMemory>
        requires { self.now.length + 1 < 2 ^ 64 }
        ensures { OnOk result (Adds self.now.site.now self.now.length (broken_value region.now part.now ∷ []) text.old text.new) }
    {
        if text.is_empty() {
            write_header(self.site, self.length, text)?;
        }
        write_part(region, part, text)
    }

    /// The part that a record is, where it survives and its number is past the length.
    fn part<'a>(&self, placed: &'a PlacedRecord) -> Option<Part<'a>>
        requires { (rs : List instances.InstanceRecord) × AreCuts rs self.now.cuts.now }
        ensures part { (rs : List instances.InstanceRecord) → AreCuts rs self.now.cuts.now
            → option_map part_value result ≡ defs.part_past rs self.now.length placed.now.generation (record_value placed.now.what) }
        ensures room { IfSome result (λ _. self.now.length + 1 < 2 ^ 64) }
    {
        let part = surviving_part(self.cuts, placed)?;
        if self.length < part.number {
            Some(part)
        } else {
            None
        }
    }

    /// Adds the lines of a record, where it is a part that survives and is past the length.
    fn add_placed(
        &self,
        region: &[u8],
        placed: &PlacedRecord,
        text: &mut Bytes,
    ) -> Result<(), NoMemory>
        requires { (rs : List instances.InstanceRecord) × AreCuts rs self.now.cuts.now }
        ensures { OnOk result ((rs : List instances.InstanceRecord) → AreCuts rs self.now.cuts.now
            → Adds self.now.site.now self.now.length (broken_in rs self.now.length region.now (placed_value placed.now ∷ [])) text.old text.new) }
    {
        match self.part(placed) {
            None => Ok(()),
            Some(part) => self.add_part(region, &part, text),
        }
    }

    /// Adds the lines of a region's records, in their order.
    fn add_journal(
        &self,
        region: &[u8],
        journal: &[PlacedRecord],
        text: &mut Bytes,
    ) -> Result<(), NoMemory>
        requires { (rs : List instances.InstanceRecord) × AreCuts rs self.now.cuts.now }
        ensures { OnOk result ((rs : List instances.InstanceRecord) → AreCuts rs self.now.cuts.now
            → Adds self.now.site.now self.now.length (broken_in rs self.now.length region.now (map placed_value journal.now)) text.old text.new) }
    {
        for placed in journal {
            self.add_placed(region, placed, text)?;
        }
        Ok(())
    }

    /// Adds the lines of the region at a place, whose records are the list at that place if there is one.
    fn add_region(
        &self,
        place: usize,
        region: &[u8],
        journals: &[Vec<PlacedRecord>],
        text: &mut Bytes,
    ) -> Result<(), NoMemory>
        requires { (rs : List instances.InstanceRecord) × AreCuts rs self.now.cuts.now }
        ensures { OnOk result ((rs : List instances.InstanceRecord) → AreCuts rs self.now.cuts.now
            → Adds self.now.site.now self.now.length (broken_in rs self.now.length region.now (journal_of (map (λ j. j.items) journals.now) place)) text.old text.new) }
    {
        match journals.get(place) {
            None => Ok(()),
            Some(journal) => self.add_journal(region, journal, text),
        }
    }

    /// Adds the lines of all regions, in their order.
    fn add_regions(
        &self,
        regions: &[(Bytes, bool)],
        journals: &[Vec<PlacedRecord>],
        text: &mut Bytes,
    ) -> Result<(), NoMemory>
        requires { (rs : List instances.InstanceRecord) × AreCuts rs self.now.cuts.now }
        ensures { OnOk result ((rs : List instances.InstanceRecord) → AreCuts rs self.now.cuts.now
            → Adds self.now.site.now self.now.length (broken_of rs self.now.length (map (λ j. j.items) journals.now) (map named_region regions.now)) text.old text.new) }
    {
        for (place, (region, _before)) in regions.iter().enumerate() {
            self.add_region(place, region.as_slice(), journals, text)?;
        }
        Ok(())
    }
}

/// Adds the text of a file of broken transactions at the end: what stands past the length of a site's sequence, also of
/// entries that are complete. Nothing is added where nothing stands there.
///
/// `journals` has a list for each region, from region 0 on, in journal order. The records are gone through once. Which cuts a
/// record has to survive is looked up by its generation.
pub fn write_broken(
    alloc: Global,
    instance: &InstanceRecords,
    journals: &[Vec<PlacedRecord>],
    length: u64,
    out: &mut Bytes,
) -> Result<(), NoMemory>
    ensures ok { OnOk result (out.new ≡ out.old
        ++ defs.broken_text (instances.site_name instance.now) length (defs.broken (site_records instance.now (map (λ j. j.items) journals.now)) length)) }
    ensures err { OnErr result (out.new ≡ out.old) }
{
    let cuts = Cuts::of(alloc, instance)?;
    let site = instance.name();
    let past = Past {
        cuts: &cuts,
        site,
        length,
    };
    let mut text = Bytes::new(alloc);
    past.add_regions(instance.regions(), journals, &mut text)?;
    out.push_all(text.as_slice())
}
