//! Whether a journal's record may hold a transaction.
ghost use Rattle.std.specs.Prelude.{◌≤◌, length, IsTrue};
ghost use Rattle.std.specs.List.{AllByRecursion};
ghost use Rattle.global_defs.specs.Fields.{IsUpdate};
ghost use Rattle.gvn_key.specs.Terms.{update_value};

use global_defs::limits::LONGEST_VALUE;
use gvn_key::terms::Update;
use gvn_model::Updates;

/// How many updates a transaction may have.
const MOST_UPDATES: usize = global_defs::limits::MOST_UPDATES as usize;

/// Whether a journal's record may hold an update. Each key that there is has a code, which isn't empty.
fn fits(update: &Update) -> bool
    ensures { IsTrue result → IsUpdate (update_value update.now) }
{
    match update {
        Update::Set(key, value) => !key.as_encoded().is_empty() && value.len() <= LONGEST_VALUE,
        Update::Kill(key) => !key.as_encoded().is_empty(),
        Update::ZKill(key) => !key.as_encoded().is_empty(),
    }
}

/// Whether a journal's record may hold these updates.
pub fn all_fit(updates: &Updates) -> bool
    ensures few { IsTrue result → length updates.now ≤ 256 }
    ensures each { IsTrue result → AllByRecursion IsUpdate updates.now }
{
    if MOST_UPDATES < updates.len() {
        return false;
    }
    for update in updates.as_slice() {
        if !fits(update) {
            return false;
        }
    }
    true
}
