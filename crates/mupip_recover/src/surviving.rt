//! Which records still count.
ghost use Rattle.std.specs.Prelude.{◌≡◌};
ghost use Rattle.std.specs.List.{list_all};
ghost use Rattle.journal_defs.specs.Surviving as defs;
ghost use Rattle.instance_file.specs.Values.{record_value};

use instance_file::{InstanceRecord, InstanceRecords};

/// Whether an instance record leaves what has this generation and this number.
fn spares(generation: u32, number: u64, kept: &InstanceRecord) -> bool
    ensures { result ≡ defs.spares generation number (record_value kept.now) }
{
    match kept {
        InstanceRecord::Cut {
            length,
            generation: begun,
        } => *begun <= generation || number <= *length,
        _ => true,
    }
}

/// Whether each of these records leaves it.
fn all_spare(generation: u32, number: u64, records: &[InstanceRecord]) -> bool
    ensures { result ≡ list_all (λ r. defs.spares generation number (record_value r)) records.now }
{
    records.iter().all(|kept| spares(generation, number, kept))
}

/// Whether a TCOM or an EPOCH of this generation with this number survives.
pub fn survives(instance: &InstanceRecords, generation: u32, number: u64) -> bool
    ensures { result ≡ defs.survives instance.now generation number }
{
    all_spare(generation, number, instance.as_slice())
}
