//! The least of what is still to come, and searches by it.
ghost use Rattle.std.specs.Prelude.{◌≡◌, IfOk};
ghost use Rattle.std.specs.List.Sorted.{IsNonDecreasing};
ghost use Rattle.mupip_recover.specs.Minima.{minima, up_to};

use gvn_key::NoMemory;
use std::alloc::Global;

/// For each place the least of the values from there on.
pub fn minima_of(alloc: Global, values: &[u64]) -> Result<Vec<u64>, NoMemory>
    ensures { IfOk result (λ made. made.items ≡ minima values.now) }
{
    let mut made = Vec::with_capacity(alloc, values.len())?;
    let mut least = None;
    for value in values.iter().rev() {
        let next = match least {
            None => *value,
            Some(low) => (*value).min(low),
        };
        made.push(next)?;
        least = Some(next);
    }
    made.reverse();
    Ok(made)
}

/// How many of the values, which don't fall, are up to a limit.
pub fn how_many_up_to(values: &[u64], limit: u64) -> usize
    requires { IsNonDecreasing values.now }
    ensures { result ≡ up_to limit values.now }
{
    values.partition_point(|value| *value <= limit)
}
