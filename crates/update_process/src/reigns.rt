// Reigns that a site may adopt.
ghost use Rattle.std.specs.Prelude.{◌≡◌, ◌↔◌, ◌<◌, ◌^◌, Some, None, IsTrue, map};
ghost use Rattle.std.specs.List.{last_or};
ghost use Rattle.global_defs.specs.declared.limits.TheConstants.{NUMBERS_END};
ghost use Rattle.gvn_model.specs.Reigns.{reign_value};
ghost use Rattle.gvn_model.specs.Entries.{history_value};
ghost use Rattle.update_process.specs.Copies.{MayAdopt};

use gvn_model::{History, Reign};

// Whether two reigns are one.
fn is_same(first: &Reign, second: &Reign) -> bool
    ensures { IsTrue result ↔ (reign_value first.now ≡ reign_value second.now) }
{
    first.start == second.start
        && first.stamp.cycle == second.stamp.cycle
        && first.stamp.root.as_slice() == second.stamp.root.as_slice()
}

// Whether it is the last of these reigns as it stands.
fn is_last(reign: &Reign, reigns: &[Reign]) -> bool
    ensures { IsTrue result ↔ (last_or None (map reign_value reigns.now) ≡ Some (reign_value reign.now)) }
{
    if reigns.is_empty() {
        return false;
    }
    is_same(&reigns[reigns.len() - 1], reign)
}

// Whether a site with that history may adopt the reign.
pub(crate) fn may_adopt(history: &History, reign: &Reign) -> bool
    requires { history.now.length < NUMBERS_END }
    ensures { IsTrue result ↔ MayAdopt (history_value history.now) (reign_value reign.now) }
{
    reign.start == history.length + 1 || is_last(reign, history.reigns.as_slice())
}
