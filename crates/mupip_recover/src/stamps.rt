//! Which reign an entry was made in.
ghost use Rattle.std.specs.Prelude.{◌≡◌, List, map, IfOk};
ghost use Rattle.std.specs.Option.{option_map};
ghost use Rattle.global_defs.specs.Entry as defs;
ghost use Rattle.global_defs.specs.Prefix as prefix;
ghost use Rattle.gvn_model.specs.Reigns.{stamp_value, reign_value};
ghost use Rattle.mupip_recover.specs.Stamps.{AreStarts};

use super::minima::{how_many_up_to, minima_of};
use gvn_key::NoMemory;
use gvn_model::{Reign, Stamp};
use std::alloc::Global;

/// Where reigns start.
fn numbers_of(alloc: Global, reigns: &[Reign]) -> Result<Vec<u64>, NoMemory>
    ensures { IfOk result (λ made. made.items ≡ map (λ r. r.start) reigns.now) }
{
    Ok(reigns.iter().map(|reign| reign.start).collect(alloc)?)
}

/// For each reign the least start of that and the later ones, for [`stamp_at`].
pub fn starts_of(alloc: Global, reigns: &[Reign]) -> Result<Vec<u64>, NoMemory>
    ensures { IfOk result (λ made. AreStarts (map reign_value reigns.now) made.items) }
{
    let numbers = numbers_of(alloc, reigns)?;
    minima_of(alloc, &numbers)
}

/// The stamp of the last of the reigns, with the starts that [`starts_of`] gives, that has begun by the entry of a number; `None` where
/// none has.
pub fn stamp_at<'a>(reigns: &'a [Reign], starts: &[u64], number: u64) -> Option<&'a Stamp>
    requires { AreStarts (map reign_value reigns.now) starts.now }
    ensures { option_map (λ s. stamp_value s.now) result ≡ prefix.stamp_at number (map reign_value reigns.now) }
{
    let begun = how_many_up_to(starts, number);
    if begun == 0 {
        return None;
    }
    let reign = reigns.get(begun - 1)?;
    Some(&reign.stamp)
}
