//! Records, as bytes.
ghost use Rattle.std.specs.Prelude.{◌≡◌, ◌++◌, map, All, IfOk, OnOk};
ghost use Rattle.std.specs.List.{flat_map};
ghost use Rattle.global_defs.specs.Fields as fields;
ghost use Rattle.global_defs.specs.Fields.{IsReign};
ghost use Rattle.gvn_model.specs.Regions.{named_region};
ghost use Rattle.gvn_model.specs.Reigns.{reign_value};
ghost use Rattle.journal_defs.specs.Instance.{spelled_region, spelled_record, Reigned, IsInForm};
ghost use Rattle.instance_file.specs.Values.{record_value};
ghost use Rattle.instance_file.specs.Fields.{IsRegion};

use super::record::InstanceRecord;
use gvn_key::{Bytes, NoMemory};
use gvn_model::Reign;
use repl_fields::write_short;
use std::alloc::Global;

/// 1 for true and 0 for false.
fn flag_byte(flag: bool) -> u8
    ensures { result ≡ fields.flag flag }
{
    u8::from(flag)
}

/// Adds a region's name and its mode at the end.
fn write_region(name: &Bytes, before: bool, out: &mut Bytes) -> Result<(), NoMemory>
    requires { IsRegion (named_region (name.now, before)) }
    ensures { OnOk result (out.new ≡ out.old ++ spelled_region (named_region (name.now, before))) }
{
    write_short(name.as_slice(), out)?;
    out.push(flag_byte(before))
}

/// Adds regions at the end, one behind the other.
fn write_regions(regions: &[(Bytes, bool)], out: &mut Bytes) -> Result<(), NoMemory>
    requires { All (λ r. IsRegion (named_region r)) regions.now }
    ensures { OnOk result (out.new ≡ out.old ++ flat_map spelled_region (map named_region regions.now)) }
{
    for (name, before) in regions {
        write_region(name, *before, out)?;
    }
    Ok(())
}

/// Adds a REIGN at the end.
fn write_reign(reign: &Reign, out: &mut Bytes) -> Result<(), NoMemory>
    requires { IsReign (reign_value reign.now) }
    ensures { OnOk result (out.new ≡ out.old ++ spelled_record (Reigned (reign_value reign.now))) }
{
    out.push(2)?;
    write_short(reign.stamp.root.as_slice(), out)?;
    out.push_all(&reign.stamp.cycle.to_be_bytes())?;
    out.push_all(&reign.start.to_be_bytes())
}

/// Adds a record's body at the end.
fn write_record(r: &InstanceRecord, out: &mut Bytes) -> Result<(), NoMemory>
    requires { IsInForm (record_value r.now) }
    ensures { OnOk result (out.new ≡ out.old ++ spelled_record (record_value r.now)) }
{
    match r {
        InstanceRecord::Create { name, regions } => {
            out.push_all(&[1, 1])?;
            write_short(name.as_slice(), out)?;
            out.push(regions.len() as u8)?;
            write_regions(regions.as_slice(), out)
        }
        InstanceRecord::Reign(reign) => write_reign(reign, out),
        InstanceRecord::Cut { length, generation } => {
            out.push(3)?;
            out.push_all(&length.to_be_bytes())?;
            out.push_all(&generation.to_be_bytes())
        }
        InstanceRecord::Map { region, star, name } => {
            out.push_all(&[4, *region, flag_byte(*star)])?;
            write_short(name.as_slice(), out)
        }
        InstanceRecord::Mode { region, before } => {
            out.push_all(&[5, *region, flag_byte(*before)])
        }
    }
}

/// A record's body.
pub fn encode(alloc: Global, r: &InstanceRecord) -> Result<Bytes, NoMemory>
    requires { IsInForm (record_value r.now) }
    ensures { IfOk result (λ body. body ≡ spelled_record (record_value r.now)) }
{
    let mut body = Bytes::new(alloc);
    write_record(r, &mut body)?;
    Ok(body)
}
