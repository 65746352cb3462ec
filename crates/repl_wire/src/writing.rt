//! Frames as bytes.
ghost use Rattle.std.specs.Prelude.{◌≡◌, ◌++◌, ◌≤◌, ◌<◌, ◌^◌, ◌∷◌, ℕ, length, OnOk, OnErr, map, take, drop, List};
ghost use Rattle.std.specs.List.{flat_map, AllByRecursion};
ghost use Rattle.std.specs.Int.{to_be_bytes, w16, w32, w64};
ghost use Rattle.global_defs.specs.declared.limits.TheConstants.{LONGEST_BODY};
ghost use Rattle.global_defs.specs.Fields.{IsReign, IsUpdate, IsTransaction, spelled_update};
ghost use Rattle.global_defs.specs.Entry as entries;
ghost use Rattle.global_defs.specs.Prefix.{IsPrefix};
ghost use Rattle.gvn_key.specs.Terms.{update_value};
ghost use Rattle.gvn_model.specs.Reigns.{reign_value};
ghost use Rattle.gvn_model.specs.Entries.{transaction_value, history_value};
ghost use Rattle.wire_defs.specs.Frames.{spelled_frame, spelled_reign, frame_body, entry_bytes, IsFrame, HasFields};
ghost use Rattle.wire_defs.specs.Frames as defs;
ghost use Rattle.repl_wire.specs.Values.{frame_value};

use super::frame::Frame;
use gvn_key::terms::Update;
use gvn_key::{Bytes, NoMemory};
use gvn_model::{History, Origin, Reign, Transaction};
use repl_fields::{write_short, write_update};

/// Adds a reign at the end.
fn write_reign(reign: &Reign, out: &mut Bytes) -> Result<(), NoMemory>
    requires { IsReign (reign_value reign.now) }
    ensures { OnOk result (out.new ≡ out.old ++ spelled_reign (reign_value reign.now)) }
{
    write_short(reign.stamp.root.as_slice(), out)?;
    out.push_all(&reign.stamp.cycle.to_be_bytes())?;
    out.push_all(&reign.start.to_be_bytes())
}

/// Adds reigns at the end.
fn write_reigns(reigns: &[Reign], out: &mut Bytes) -> Result<(), NoMemory>
    requires { AllByRecursion IsReign (map reign_value reigns.now) }
    ensures { OnOk result (out.new ≡ out.old ++ flat_map spelled_reign (map reign_value reigns.now)) }
{
    for reign in reigns {
        write_reign(reign, out)?;
    }
    Ok(())
}

/// Adds updates at the end.
fn write_updates(updates: &[Update], out: &mut Bytes) -> Result<(), NoMemory>
    requires { AllByRecursion IsUpdate (map update_value updates.now) }
    ensures ok { OnOk result (out.new ≡ out.old ++ flat_map spelled_update (map update_value updates.now)) }
    ensures err { OnErr result (IsPrefix out.old out.new) }
{
    for update in updates {
        write_update(update, out)?;
    }
    Ok(())
}

/// Adds what stands before an entry's updates at the end.
fn write_head(number: u64, origin: Origin, count: u16, out: &mut Bytes) -> Result<(), NoMemory>
    ensures ok { OnOk result (out.new ≡ out.old ++ (to_be_bytes w64 number ++ origin.updater ∷ to_be_bytes w32 origin.serial ++ to_be_bytes w16 count)) }
    ensures err { OnErr result (IsPrefix out.old out.new) }
{
    out.push_all(&number.to_be_bytes())?;
    out.push(origin.updater)?;
    out.push_all(&origin.serial.to_be_bytes())?;
    out.push_all(&count.to_be_bytes())
}

/// Adds the bytes of the entry of that number at the end: the number, the updater, the serial, how many updates it has, and these.
/// After [`NoMemory`] a part of them may have been added.
pub fn write_entry(number: u64, transaction: &Transaction, out: &mut Bytes) -> Result<(), NoMemory>
    requires { IsTransaction (transaction_value transaction.now) }
    ensures ok { OnOk result (out.new ≡ out.old ++ entry_bytes number (transaction_value transaction.now)) }
    ensures err { OnErr result (IsPrefix out.old out.new) }
{
    write_head(
        number,
        transaction.origin,
        transaction.updates.len() as u16,
        out,
    )?;
    write_updates(transaction.updates.as_slice(), out)
}

/// Adds the body of a HELLO at the end.
fn write_hello(
    version: u8,
    name: &Bytes,
    history: &History,
    out: &mut Bytes,
) -> Result<(), NoMemory>
    requires { HasFields (defs.Hello version name.now (history_value history.now)) }
    ensures { OnOk result (out.new ≡ out.old ++ frame_body (defs.Hello version name.now (history_value history.now))) }
{
    out.push(version)?;
    write_short(name.as_slice(), out)?;
    out.push_all(&history.length.to_be_bytes())?;
    out.push_all(&(history.reigns.len() as u32).to_be_bytes())?;
    write_reigns(history.reigns.as_slice(), out)
}

/// Adds a frame's body at the end.
fn write_body(frame: &Frame, out: &mut Bytes) -> Result<(), NoMemory>
    requires { HasFields (frame_value frame.now) }
    ensures { OnOk result (out.new ≡ out.old ++ frame_body (frame_value frame.now)) }
{
    match frame {
        Frame::Hello {
            version,
            name,
            history,
        } => write_hello(*version, name, history, out),
        Frame::Resume(n) | Frame::RollbackFirst(n) | Frame::Bye(n) => out.push_all(
            &n.to_be_bytes(),
        ),
        Frame::History(reign) => write_reign(reign, out),
        Frame::Entry(number, transaction) => write_entry(*number, transaction, out),
    }
}

/// A frame's type.
fn type_byte(frame: &Frame) -> u8
    ensures { result ≡ defs.frame_type (frame_value frame.now) }
{
    match frame {
        Frame::Hello { .. } => 1,
        Frame::Resume(_) => 2,
        Frame::RollbackFirst(_) => 3,
        Frame::History(_) => 4,
        Frame::Entry(..) => 5,
        Frame::Bye(_) => 6,
    }
}

/// What stands before an entry's bytes in an ENTRY: the type, and how many bytes the entry has.
pub fn entry_head(length: u32) -> [u8; 5]
    ensures { result ≡ 5 ∷ to_be_bytes w32 length }
{
    let [a, b, c, d] = length.to_be_bytes();
    [5, a, b, c, d]
}

/// Adds an ENTRY at the end by the bytes of its entry, as a pool or a file gives them. After [`NoMemory`] a part of it may have
/// been added.
pub fn write_entry_frame(entry: &[u8], out: &mut Bytes) -> Result<(), NoMemory>
    requires { length entry.now ≤ LONGEST_BODY }
    ensures ok { OnOk result (out.new ≡ out.old ++ (5 ∷ to_be_bytes w32 (length entry.now) ++ entry.now)) }
    ensures frame { (n : ℕ) (t : entries.Transaction) → entry.now ≡ entry_bytes n t → OnOk result (out.new ≡ out.old ++ spelled_frame (defs.Entry n t)) }
    ensures err { OnErr result (IsPrefix out.old out.new) }
{
    out.push_all(&entry_head(entry.len() as u32))?;
    out.push_all(entry)
}

/// Adds a well-formed frame at the end. After [`NoMemory`] a part of it may have been added.
pub fn write_frame(frame: &Frame, out: &mut Bytes) -> Result<(), NoMemory>
    requires { IsFrame (frame_value frame.now) }
    ensures ok { OnOk result (out.new ≡ out.old ++ spelled_frame (frame_value frame.now)) }
    ensures err { OnErr result (IsPrefix out.old out.new) }
{
    let mut body = Bytes::new(out.allocator());
    write_body(frame, &mut body)?;
    out.push(type_byte(frame))?;
    out.push_all(&(body.len() as u32).to_be_bytes())?;
    out.push_all(body.as_slice())
}
