//! What one more record makes of those before it.
ghost use Rattle.std.specs.Prelude.{◌≡◌, ◌<◌, ◌↔◌, ◌++◌, ◌∷◌, [], map, List, IsTrue, IfOk};
ghost use Rattle.global_defs.specs.Rising.{StartsRise};
ghost use Rattle.gvn_model.specs.Reigns.{reign_value};
ghost use Rattle.journal_defs.specs.Instance as defs;
ghost use Rattle.journal_defs.specs.Surviving as surviving;
ghost use Rattle.instance_file.specs.Values.{record_value};
ghost use Rattle.instance_file.specs.Order.{MayStand, last_after};

use super::record::InstanceRecord;
use gvn_key::NoMemory;
use gvn_model::{Reign, Reigns};

/// Whether a record may be the first, or a later one behind a last CUT of this generation.
pub fn may_stand(added: &InstanceRecord, is_first: bool, last: u32) -> bool
    ensures { IsTrue result ↔ MayStand is_first last (record_value added.now) }
{
    match added {
        InstanceRecord::Create { .. } => is_first,
        InstanceRecord::Cut { generation, .. } => !is_first && last < *generation,
        _ => !is_first,
    }
}

/// The generation of the last CUT, behind one more record.
pub fn generation_after(last: u32, added: &InstanceRecord) -> u32
    ensures { result ≡ last_after last (record_value added.now) }
{
    match added {
        InstanceRecord::Cut { generation, .. } => *generation,
        _ => last,
    }
}

/// The surviving reigns behind one more record.
pub fn reigns_after(before: &Reigns, added: &InstanceRecord) -> Result<Reigns, NoMemory>
    ensures { IfOk result (λ made. (rs : List defs.InstanceRecord) → before.now ≡ surviving.reigns rs → made ≡ surviving.reigns (rs ++ record_value added.now ∷ [])) }
{
    match added {
        InstanceRecord::Reign(reign) => {
            let mut reigns = before.copy()?;
            reigns.push(reign.copy()?)?;
            Ok(reigns)
        }
        InstanceRecord::Cut { length, .. } => before.begun_by(*length),
        _ => before.copy(),
    }
}

/// Whether the starts of reigns rise, from 1 on.
pub fn starts_rise(reigns: &[Reign]) -> bool
    ensures { IsTrue result ↔ StartsRise 0 (map reign_value reigns.now) }
{
    let mut low = 0;
    for reign in reigns {
        if reign.start <= low {
            return false;
        }
        low = reign.start;
    }
    true
}
