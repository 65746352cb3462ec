//! Entries as the lines of an extract, both ways, and the lines of a ZWRITE.
#![tactic(auto)]

mod cut;
mod fields;
mod laws;
mod line;
mod lines;
mod node;
mod reading;
mod stage;
mod update;

ghost use Rattle.std.specs.Prelude.{◌≡◌, ◌++◌, OnOk, OnErr};
ghost use Rattle.global_defs.specs.Extract.{entry_text, header};
ghost use Rattle.global_defs.specs.Prefix.{IsPrefix};
ghost use Rattle.gvn_model.specs.Entries.{entry_value};

use gvn_key::terms::Update;
use gvn_key::{Bytes, NoMemory};
use gvn_model::Entry;
pub use laws::{
    a_text_has_one_first_bad_line, a_text_is_one_extract,
    an_extract_has_the_entries_from_its_number, updates_of_their_form_are_spelled,
};
use line::{write_bracket, write_update, write_updates};
pub use node::write_node;
pub use reading::{Extract, ExtractError, read_extract};
pub use update::read_update;

/// How many bytes a line mostly has at most beside those of the encoded key and the value.
const BESIDE_TEXTS: usize = 64;

/// Adds the lines of an entry at the end: one line for its update, or a line for each between a TSTART
/// and a TCOM line. Without memory nothing is added.
pub fn extract_entry(e: &Entry, out: &mut Bytes) -> Result<(), NoMemory>
    ensures ok { OnOk result (out.new ≡ out.old ++ entry_text e.now.number (entry_value e.now)) }
    ensures err { OnErr result (out.new ≡ out.old) }
{
    let before = out.len();
    out.reserve(room_of(e))?;
    match write_entry(e, out) {
        Ok(()) => Ok(()),
        Err(error) => {
            out.truncate(before);
            Err(error)
        }
    }
}

/// How many bytes the line of one update mostly has at most. Other entries' lines grow.
fn room_of(e: &Entry) -> usize {
    match e.transaction.updates.as_slice() {
        [Update::Set(key, value)] => BESIDE_TEXTS
            .saturating_add(key.as_encoded().len())
            .saturating_add(value.len()),
        _ => BESIDE_TEXTS,
    }
}

fn write_entry(e: &Entry, out: &mut Bytes) -> Result<(), NoMemory>
    ensures ok { OnOk result (out.new ≡ out.old ++ entry_text e.now.number (entry_value e.now)) }
    ensures front { OnErr result (IsPrefix out.old out.new) }
{
    match e.transaction.updates.as_slice() {
        [] => Ok(()),
        [update] => write_update(e, update, out),
        updates => {
            write_bracket(b"TSTART", e, out)?;
            write_updates(e, updates, out)?;
            write_bracket(b"TCOM", e, out)
        }
    }
}

fn push_header(site: &[u8], from: u64, out: &mut Bytes) -> Result<(), NoMemory>
    ensures ok { OnOk result (out.new ≡ out.old ++ header site.now from) }
    ensures front { OnErr result (IsPrefix out.old out.new) }
{
    out.push_all(b"GTMRJEX01\\")?;
    out.push_all(site)?;
    out.push_all(b"\\")?;
    out.push_decimal(from)?;
    out.push_all(b"\n")
}

/// Adds the first line of an extract at the end: the site's name, and the number that the extract
/// begins with. Without memory nothing is added.
pub fn write_header(site: &[u8], from: u64, out: &mut Bytes) -> Result<(), NoMemory>
    ensures ok { OnOk result (out.new ≡ out.old ++ header site.now from) }
    ensures err { OnErr result (out.new ≡ out.old) }
{
    let before = out.len();
    match push_header(site, from, out) {
        Ok(()) => Ok(()),
        Err(error) => {
            out.truncate(before);
            Err(error)
        }
    }
}
