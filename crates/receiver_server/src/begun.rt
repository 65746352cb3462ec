// Which reigns have begun by a number.
ghost use Rattle.std.specs.Prelude.{◌≡◌, ◌↔◌, ◌≤◌, None, IsTrue, length, map, option_map, IfSome};
ghost use Rattle.std.specs.List.{AllByRecursion, last_or};
ghost use Rattle.global_defs.specs.Fields.{IsReign};
ghost use Rattle.global_defs.specs.Rising.{begun_by};
ghost use Rattle.gvn_model.specs.Reigns.{reign_value};

use gvn_model::Reign;

// How many of these reigns have begun by a number, and the last of those.
pub(crate) fn begun(reigns: &[Reign], number: u64) -> (usize, Option<&Reign>)
    ensures count { result.0 ≡ length (begun_by number (map reign_value reigns.now)) }
    ensures last { option_map (λ r. reign_value r.now) result.1 ≡ last_or None (begun_by number (map reign_value reigns.now)) }
{
    let mut count = 0;
    let mut last = None;
    for reign in reigns {
        if reign.start <= number {
            count += 1;
            last = Some(reign);
        }
    }
    (count, last)
}

// Whether two reigns are one.
pub(crate) fn is_same(first: &Reign, second: &Reign) -> bool
    ensures { IsTrue result ↔ (reign_value first.now ≡ reign_value second.now) }
{
    first.start == second.start
        && first.stamp.cycle == second.stamp.cycle
        && first.stamp.root.as_slice() == second.stamp.root.as_slice()
}
