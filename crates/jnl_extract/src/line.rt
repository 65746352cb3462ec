// The lines of an entry. Where memory runs out part of a line may have been added.
ghost use Rattle.std.specs.Prelude.{◌≡◌, ◌∷◌, ◌++◌, map, OnOk, OnErr};
ghost use Rattle.std.specs.Fmt.{decimal};
ghost use Rattle.std.specs.List.{flat_map};
ghost use Rattle.global_defs.specs.Extract.{field, entry_fields, update_line, bracket_line};
ghost use Rattle.global_defs.specs.Prefix.{IsPrefix};
ghost use Rattle.gvn_key.specs.Terms.{update_value};
ghost use Rattle.gvn_model.specs.Entries.{entry_value};

use gvn_key::terms::Update;
use gvn_key::{Bytes, NoMemory, zwr_write};
use gvn_model::{Entry, Origin, Stamp};

fn write_number(number: u64, out: &mut Bytes) -> Result<(), NoMemory>
    ensures ok { OnOk result (out.new ≡ out.old ++ field (decimal number)) }
    ensures front { OnErr result (IsPrefix out.old out.new) }
{
    out.push_all(b"\\")?;
    out.push_decimal(number)
}

fn write_stamp(stamp: &Stamp, out: &mut Bytes) -> Result<(), NoMemory>
    ensures ok { OnOk result (out.new ≡ out.old ++ field (stamp.now.root ++ 46 ∷ decimal stamp.now.cycle)) }
    ensures front { OnErr result (IsPrefix out.old out.new) }
{
    out.push_all(b"\\")?;
    out.push_all(stamp.root.as_slice())?;
    out.push_all(b".")?;
    out.push_decimal(u64::from(stamp.cycle))
}

fn write_origin(origin: Origin, out: &mut Bytes) -> Result<(), NoMemory>
    ensures ok { OnOk result (out.new ≡ out.old ++ field (decimal origin.updater ++ 46 ∷ decimal origin.serial)) }
    ensures front { OnErr result (IsPrefix out.old out.new) }
{
    out.push_all(b"\\")?;
    out.push_decimal(u64::from(origin.updater))?;
    out.push_all(b".")?;
    out.push_decimal(u64::from(origin.serial))
}

/// The fields that each line of an entry has.
fn write_fields(e: &Entry, out: &mut Bytes) -> Result<(), NoMemory>
    ensures ok { OnOk result (out.new ≡ out.old ++ entry_fields e.now.number (entry_value e.now)) }
    ensures front { OnErr result (IsPrefix out.old out.new) }
{
    write_number(e.number, out)?;
    write_stamp(&e.stamp, out)?;
    write_origin(e.transaction.origin, out)
}

/// The line of one update.
pub(crate) fn write_update(e: &Entry, update: &Update, out: &mut Bytes) -> Result<(), NoMemory>
    ensures ok { OnOk result (out.new ≡ out.old ++ update_line e.now.number (entry_value e.now) (update_value update.now)) }
    ensures front { OnErr result (IsPrefix out.old out.new) }
{
    match update {
        Update::Set(key, value) => {
            out.push_all(b"SET")?;
            write_fields(e, out)?;
            out.push_all(b"\\")?;
            key.write(out)?;
            out.push_all(b"=")?;
            zwr_write(value.as_slice(), out)?;
        }
        Update::Kill(key) => {
            out.push_all(b"KILL")?;
            write_fields(e, out)?;
            out.push_all(b"\\")?;
            key.write(out)?;
        }
        Update::ZKill(key) => {
            out.push_all(b"ZKILL")?;
            write_fields(e, out)?;
            out.push_all(b"\\")?;
            key.write(out)?;
        }
    }
    out.push_all(b"\n")
}

/// The line that begins or ends an entry of more than one update.
pub(crate) fn write_bracket(word: &[u8], e: &Entry, out: &mut Bytes) -> Result<(), NoMemory>
    ensures ok { OnOk result (out.new ≡ out.old ++ bracket_line word.now e.now.number (entry_value e.now)) }
    ensures front { OnErr result (IsPrefix out.old out.new) }
{
    out.push_all(word)?;
    write_fields(e, out)?;
    out.push_all(b"\n")
}

/// The lines of updates, in order.
pub(crate) fn write_updates(e: &Entry, updates: &[Update], out: &mut Bytes) -> Result<(), NoMemory>
    ensures ok { OnOk result (out.new ≡ out.old
        ++ flat_map (update_line e.now.number (entry_value e.now)) (map update_value updates.now)) }
    ensures front { OnErr result (IsPrefix out.old out.new) }
{
    for update in updates {
        write_update(e, update, out)?;
    }
    Ok(())
}
