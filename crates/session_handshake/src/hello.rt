// The HELLO of a secondary, and whether a primary admits one.
ghost use Rattle.std.specs.Prelude.{◌≡◌, ◌↔◌, ◌+◌, ◌≤◌, ◌<◌, IsTrue, IfOk, map, take, length};
ghost use Rattle.std.specs.List.{AllByRecursion};
ghost use Rattle.global_defs.specs.declared.limits.TheConstants.{NUMBERS_END};
ghost use Rattle.global_defs.specs.Entry as defs;
ghost use Rattle.global_defs.specs.Fields.{IsReign, IsSiteName};
ghost use Rattle.global_defs.specs.Rising.{StartsRise, begun_by};
ghost use Rattle.gvn_model.specs.Reigns.{reign_value};
ghost use Rattle.gvn_model.specs.Entries.{history_value};
ghost use Rattle.wire_defs.specs.Frames.{spelled_frame};
ghost use Rattle.ship_defs.specs.Greeting as ship;
ghost use Rattle.session_handshake.specs.Answering.{TellsHistory};

use global_defs::limits::MOST_REIGNS;
use gvn_key::{Bytes, NoMemory};
use gvn_model::{History, Reign, Reigns};
use repl_wire::{Frame, write_frame};
use std::alloc::Global;

// The reigns that have begun by a number, or one more than there may be of them.
fn told_reigns(alloc: Global, reigns: &[Reign], number: u64) -> Result<Reigns, NoMemory>
    ensures { IfOk result (λ told. told ≡ take (MOST_REIGNS + 1) (begun_by number (map reign_value reigns.now))) }
{
    let mut told = Reigns::new(alloc);
    for reign in reigns {
        if reign.start <= number && told.len() <= MOST_REIGNS {
            told.push(reign.copy()?)?;
        }
    }
    Ok(told)
}

// A history as a HELLO tells it.
fn carried(alloc: Global, mine: &History) -> Result<History, NoMemory>
    ensures { IfOk result (λ h. history_value h ≡ ship.carried (history_value mine.now)) }
{
    Ok(History {
        length: mine.length,
        reigns: told_reigns(alloc, mine.reigns.as_slice(), mine.length)?,
    })
}

// The bytes of a secondary's HELLO.
pub(crate) fn hello(alloc: Global, name: &Bytes, mine: &History) -> Result<Bytes, NoMemory>
    requires few { mine.now.length < NUMBERS_END }
    requires form { AllByRecursion IsReign (history_value mine.now).reigns }
    requires name { IsSiteName name.now }
    ensures { IfOk result (λ bytes. bytes ≡ spelled_frame (ship.greeting name.now (history_value mine.now))) }
{
    let frame = Frame::Hello {
        version: 1,
        name: name.copy()?,
        history: carried(alloc, mine)?,
    };
    let mut bytes = Bytes::new(alloc);
    write_frame(&frame, &mut bytes)?;
    Ok(bytes)
}

// Whether the starts of reigns rise, from 1 on.
fn starts_rise(reigns: &[Reign]) -> bool
    ensures { IsTrue result ↔ StartsRise 0 (map reign_value reigns.now) }
{
    let mut low = 0;
    for reign in reigns {
        if reign.start <= low {
            return false;
        }
        low = reign.start;
    }
    true
}

// Whether all of these reigns have begun by a number.
fn have_begun(reigns: &[Reign], number: u64) -> bool
    ensures { IsTrue result ↔ AllByRecursion (λ (r : defs.Reign). r.start ≤ number) (map reign_value reigns.now) }
{
    for reign in reigns {
        if number < reign.start {
            return false;
        }
    }
    true
}

// Whether a primary admits a HELLO of that history.
pub(crate) fn is_admitted(history: &History) -> bool
    ensures { IsTrue result ↔ TellsHistory (history_value history.now) }
{
    let reigns = history.reigns.as_slice();
    reigns.len() <= MOST_REIGNS && starts_rise(reigns) && have_begun(reigns, history.length)
}
