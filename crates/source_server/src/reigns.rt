// Which reign an entry is of, by how many have begun before it.
ghost use Rattle.std.specs.Prelude.{◌≡◌, ◌-◌, ◌+◌, ◌<◌, ◌≤◌, length, drop, take, map, slice_get, Some, IfSome, option_map};
ghost use Rattle.std.specs.List.{AllByRecursion};
ghost use Rattle.global_defs.specs.Entry as defs;
ghost use Rattle.global_defs.specs.Fields.{IsReign};
ghost use Rattle.global_defs.specs.Rising.{StartsRise};
ghost use Rattle.gvn_model.specs.Reigns.{reign_value};
ghost use Rattle.ship_defs.specs.Shipping.{reign_at, announced};
ghost use Rattle.source_server.specs.Framing.{histories};

use gvn_model::Reign;

// How many of these reigns begin below a number.
pub(crate) fn begun_below(reigns: &[Reign], number: u64) -> usize
    requires least { 1 ≤ number }
    requires rising { StartsRise 0 (map reign_value reigns.now) }
    ensures within { result ≤ length reigns.now }
    ensures earlier { AllByRecursion (λ (r : defs.Reign). r.start < number) (take result (map reign_value reigns.now)) }
    ensures later { StartsRise (number - 1) (drop result (map reign_value reigns.now)) }
{
    for i in 0..reigns.len() {
        if number <= reigns[i].start {
            return i;
        }
    }
    reigns.len()
}

// How many begin below the next number.
pub(crate) fn begun_behind(reigns: &[Reign], begun: usize, number: u64) -> usize
    requires least { 1 ≤ number }
    requires within { begun ≤ length reigns.now }
    requires earlier { AllByRecursion (λ (r : defs.Reign). r.start < number) (take begun (map reign_value reigns.now)) }
    requires later { StartsRise (number - 1) (drop begun (map reign_value reigns.now)) }
    ensures within { (begun ≤ result) × (result ≤ begun + 1) × (result ≤ length reigns.now) }
    ensures earlier { AllByRecursion (λ (r : defs.Reign). r.start < number + 1) (take result (map reign_value reigns.now)) }
    ensures later { StartsRise number (drop result (map reign_value reigns.now)) }
    ensures begins { begun < result → (r : defs.Reign) × (slice_get (map reign_value reigns.now) begun ≡ Some r) × (r.start ≡ number) }
{
    if begun == reigns.len() {
        return begun;
    }
    if reigns[begun].start == number {
        return begun + 1;
    }
    begun
}

// The reign of a HISTORY that stands before the entry of that number.
pub(crate) fn announced_reign(
    reigns: &[Reign],
    begun: usize,
    first: bool,
    number: u64,
) -> Option<&Reign>
    requires form { AllByRecursion IsReign (map reign_value reigns.now) }
    requires least { 1 ≤ number }
    requires within { begun ≤ length reigns.now }
    requires earlier { AllByRecursion (λ (r : defs.Reign). r.start < number) (take begun (map reign_value reigns.now)) }
    requires later { StartsRise (number - 1) (drop begun (map reign_value reigns.now)) }
    ensures form { IfSome result (λ r. IsReign (reign_value r.now)) }
    ensures is { histories (option_map (λ r. reign_value r.now) result) ≡ announced first number (reign_at number (map reign_value reigns.now)) }
{
    if begun < begun_behind(reigns, begun, number) {
        return Some(&reigns[begun]);
    }
    if first && begun != 0 {
        return Some(&reigns[begun - 1]);
    }
    None
}
