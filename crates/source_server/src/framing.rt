// The bytes of the frames that a Source Server makes.
ghost use Rattle.std.specs.Prelude.{◌≡◌, ◌++◌, ◌<◌, ◌^◌, length, option_map, OnOk, OnErr, IfSome};
ghost use Rattle.global_defs.specs.Fields.{IsReign};
ghost use Rattle.global_defs.specs.Prefix.{IsPrefix};
ghost use Rattle.gvn_model.specs.Reigns.{reign_value};
ghost use Rattle.wire_defs.specs.Frames.{stream};
ghost use Rattle.ship_defs.specs.Shipping.{entry_frame};
ghost use Rattle.source_server.specs.Framing.{histories};

use gvn_key::{Bytes, NoMemory};
use gvn_model::Reign;
use repl_wire::{Frame, entry_head, write_frame};

// Adds the HISTORY of a reign, where there is one.
#[tactic(auto, using(crate::proofs::Made::history_form))]
fn write_history(reign: Option<&Reign>, out: &mut Bytes) -> Result<(), NoMemory>
    requires { IfSome reign (λ r. IsReign (reign_value r.now)) }
    ensures { OnOk result (out.new ≡ out.old ++ stream (histories (option_map (λ r. reign_value r.now) reign.entry))) }
{
    match reign {
        Some(reign) => write_frame(&Frame::History(reign.copy()?), out),
        None => Ok(()),
    }
}

// Adds an ENTRY with these bytes, behind the HISTORY of a reign where there is one.
pub(crate) fn write_next(
    reign: Option<&Reign>,
    entry: &[u8],
    out: &mut Bytes,
) -> Result<(), NoMemory>
    requires form { IfSome reign (λ r. IsReign (reign_value r.now)) }
    requires size { length entry.now < 2 ^ 32 }
    ensures { OnOk result (out.new ≡ out.old ++ (stream (histories (option_map (λ r. reign_value r.now) reign.entry)) ++ entry_frame entry.now)) }
{
    write_history(reign, out)?;
    out.push_all(&entry_head(entry.len() as u32))?;
    out.push_all(entry)
}
