// What EPOCH and STOP share.
ghost use Rattle.std.specs.Prelude.{◌≡◌, ◌++◌, ℕ, IfOk, OnOk, OnErr, IsErrOf};
ghost use Rattle.std.specs.Fmt.{decimal};
ghost use Rattle.world_defs.specs.Answers.{line, fault_line};
ghost use Rattle.site_runner.specs.declared.ending.Ended.TheVariants.{Done, Failed};

use super::answering::fail;
use super::ending::Ended;
use super::text::write_numbered;
use gvn_key::{Bytes, NoMemory};
use site_store::SiteError;

/// Adds what became of an epoch of an open site: a line of that word and of how many entries there are, or of the call that failed.
pub fn tell_epoch(
    taken: Result<(), SiteError>,
    word: &[u8],
    length: u64,
    name: &[u8],
    text: &mut Bytes,
) -> Result<Ended, NoMemory>
    ensures done { OnOk taken (IfOk result (λ ended. (ended ≡ Done) × (text.new ≡ text.old ++ line name.now (word.now ++ decimal length)))) }
    ensures failed { OnErr taken (IfOk result (λ ended. (fault : ℕ) × IsErrOf taken (SiteError.Failed fault) × (ended ≡ Failed fault) × (text.new ≡ text.old ++ fault_line name.now fault))) }
{
    match taken {
        Ok(()) => {
            write_numbered(text, name, word, length)?;
            Ok(Ended::Done)
        }
        Err(SiteError::Failed { fault }) => fail(text, name, fault),
        Err(_) => Err(NoMemory),
    }
}
