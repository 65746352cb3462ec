//! Records, as bytes.
ghost use Rattle.std.specs.Prelude.{◌≡◌, ◌++◌, map, All, OnOk, OnErr};
ghost use Rattle.std.specs.List.{flat_map};
ghost use Rattle.global_defs.specs.Fields as fields;
ghost use Rattle.global_defs.specs.Fields.{IsUpdate};
ghost use Rattle.global_defs.specs.Prefix.{IsPrefix};
ghost use Rattle.gvn_model.specs.Items.{item_value};
ghost use Rattle.journal_defs.specs.Journal.{spelled_item, spelled_record, IsInForm};
ghost use Rattle.jnl_record.specs.Heads.{spelled_head};
ghost use Rattle.jnl_record.specs.Values.{record_value, IsFirstVersion};

use super::parts::Head;
use super::record::JnlRecord;
use gvn_key::{Bytes, NoMemory};
use gvn_model::Item;
use repl_fields::write_update;

/// Room for most records.
const SHORT_RECORD: usize = 128;

/// Adds an item at the end: 04, its position, and its update.
fn write_item(item: &Item, out: &mut Bytes) -> Result<(), NoMemory>
    requires { IsUpdate (item_value item.now).update }
    ensures ok { OnOk result (out.new ≡ out.old ++ spelled_item (item_value item.now)) }
    ensures front { OnErr result (IsPrefix out.old out.new) }
{
    out.push(4)?;
    out.push_all(&item.position.to_be_bytes())?;
    write_update(&item.update, out)
}

/// Adds items at the end, one behind the other.
fn write_items(items: &[Item], out: &mut Bytes) -> Result<(), NoMemory>
    requires { All (λ i. IsUpdate (item_value i).update) items.now }
    ensures ok { OnOk result (out.new ≡ out.old ++ flat_map spelled_item (map item_value items.now)) }
    ensures front { OnErr result (IsPrefix out.old out.new) }
{
    for item in items {
        write_item(item, out)?;
    }
    Ok(())
}

/// Adds how a TCOM begins at the end, behind its kind.
fn write_head(head: Head, out: &mut Bytes) -> Result<(), NoMemory>
    ensures ok { OnOk result (out.new ≡ out.old ++ spelled_head head) }
    ensures front { OnErr result (IsPrefix out.old out.new) }
{
    out.push_all(&head.number.to_be_bytes())?;
    out.push_all(&[head.mask, head.origin.updater])?;
    out.push_all(&head.origin.serial.to_be_bytes())?;
    out.push_all(&head.count.to_be_bytes())?;
    out.push_all(&head.items.to_be_bytes())
}

/// 1 for true and 0 for false.
fn flag_byte(flag: bool) -> u8
    ensures { result ≡ fields.flag flag }
{
    u8::from(flag)
}

/// Adds a record's body at the end. Without memory a part of it may be there.
fn write_record(r: &JnlRecord, out: &mut Bytes) -> Result<(), NoMemory>
    requires form { IsInForm (record_value r.now) }
    requires version { IsFirstVersion r.now }
    ensures ok { OnOk result (out.new ≡ out.old ++ spelled_record (record_value r.now)) }
    ensures front { OnErr result (IsPrefix out.old out.new) }
{
    match r {
        JnlRecord::Pini {
            version,
            region,
            before,
            generation,
            previous,
        } => {
            out.push_all(&[1, *version, *region, flag_byte(*before)])?;
            out.push_all(&generation.to_be_bytes())?;
            out.push_all(&previous.to_be_bytes())
        }
        JnlRecord::Epoch {
            closing,
            number,
            blocks,
        } => {
            out.push_all(&[2, flag_byte(*closing)])?;
            out.push_all(&number.to_be_bytes())?;
            out.push_all(&blocks.to_be_bytes())
        }
        JnlRecord::Pblk { block, image } => {
            out.push(3)?;
            out.push_all(&block.to_be_bytes())?;
            out.push_all(image.as_slice())
        }
        JnlRecord::Tcom {
            number,
            mask,
            origin,
            count,
            items,
        } => {
            let head = Head {
                number: *number,
                mask: *mask,
                origin: *origin,
                count: *count,
                items: items.len() as u16,
            };
            out.push(5)?;
            write_head(head, out)?;
            write_items(items.as_slice(), out)
        }
    }
}

/// Adds a record's body at the end. Without memory nothing is added.
pub fn encode(r: &JnlRecord, out: &mut Bytes) -> Result<(), NoMemory>
    requires form { IsInForm (record_value r.now) }
    requires version { IsFirstVersion r.now }
    ensures ok { OnOk result (out.new ≡ out.old ++ spelled_record (record_value r.now)) }
    ensures err { OnErr result (out.new ≡ out.old) }
{
    let before = out.len();
    out.reserve(SHORT_RECORD)?;
    match write_record(r, out) {
        Ok(()) => Ok(()),
        Err(error) => {
            out.truncate(before);
            Err(error)
        }
    }
}
