//! Updates.
ghost use Rattle.std.specs.Prelude.{◌≡◌, IfOk};
ghost use Rattle.gvn_key.specs.Terms.{update_value};
ghost use Rattle.journal_defs.specs.Fit.{key_of};

use gvn_key::NoMemory;
use gvn_key::terms::Update;

/// The name of the global that an update changes.
pub fn name_of(update: &Update) -> &[u8]
    ensures { result.now ≡ (key_of (update_value update.now)).name }
{
    match update {
        Update::Set(key, _) => key.name(),
        Update::Kill(key) => key.name(),
        Update::ZKill(key) => key.name(),
    }
}

/// An equal update.
pub fn copy_update(update: &Update) -> Result<Update, NoMemory>
    ensures { IfOk result (λ made. update_value made ≡ update_value update.now) }
{
    Ok(match update {
        Update::Set(key, value) => Update::Set(key.copy()?, value.copy()?),
        Update::Kill(key) => Update::Kill(key.copy()?),
        Update::ZKill(key) => Update::ZKill(key.copy()?),
    })
}
