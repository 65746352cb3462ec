// How far the histories of two sites agree.
ghost use Rattle.std.specs.Prelude.{◌≡◌, ◌↔◌, IsTrue};
ghost use Rattle.gvn_model.specs.Reigns.{stamp_value};
ghost use Rattle.gvn_model.specs.Entries.{history_value};
ghost use Rattle.lineage_defs.specs.Histories.{IsCommonOf};

use gvn_model::{History, Stamp};

/// Whether two stamps are one.
fn is_same(first: &Stamp, second: &Stamp) -> bool
    ensures { IsTrue result ↔ (stamp_value first.now ≡ stamp_value second.now) }
{
    first.cycle == second.cycle && first.root.as_slice() == second.root.as_slice()
}

/// The greatest number, at most both lengths, at which both histories have one stamp, or 0. The
/// reigns are looked at once each, from the last ones on, and no further than that number.
pub fn common(a: &History, b: &History) -> u64
    ensures { IsCommonOf result (history_value a.now) (history_value b.now) }
{
    let mut most = a.length.min(b.length);
    let mut first = a.reigns.as_slice();
    let mut second = b.reigns.as_slice();
    while let ([first_earlier @ .., mine], [second_earlier @ .., its]) = (first, second) {
        if most < mine.start {
            first = first_earlier;
        } else if most < its.start {
            second = second_earlier;
        } else if is_same(&mine.stamp, &its.stamp) {
            return most;
        } else if mine.start < its.start {
            most = its.start - 1;
            second = second_earlier;
        } else {
            most = mine.start.saturating_sub(1);
            first = first_earlier;
        }
    }
    0
}
