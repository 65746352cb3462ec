//! Reigns and updates of which so many are to come.
ghost use Rattle.std.specs.Prelude.{◌≡◌, ◌<◌, ◌≤◌, ◌+◌, ◌*◌, ◌-◌, ◌^◌, ◌↔◌, ℕ, IsTrue};
ghost use Rattle.repl_wire.specs.Layout.{Sized, Reigned, Updated, ReignCount, UpdateCount, Valued, Cycling, Ended};
ghost use Rattle.repl_wire.specs.Scans.{Awaits, HoldsSome, HoldsReigns, HoldsUpdates};

use super::field::{ByteField, NumberField, Part, Scan};
use super::front::Front;
use global_defs::limits::LONGEST_BODY;

/// Whether so many bytes are this many reigns, behind fields of `low` to `high` bytes.
pub fn holds_reigns(low: u32, high: u32, count: u32, bytes: u32) -> bool
    ensures { IsTrue result ↔ HoldsReigns low high count bytes }
{
    let bytes = u64::from(bytes);
    let count = u64::from(count);
    u64::from(low) + 14 * count <= bytes && bytes <= u64::from(high) + 28 * count
}

/// Whether so many bytes are fields of `fields` bytes and some reigns, or none.
pub fn holds_some(fields: u32, bytes: u32) -> bool
    requires { fields ≤ 12 }
    ensures { IsTrue result ↔ HoldsSome fields bytes }
{
    (bytes == fields || fields + 14 <= bytes) && bytes <= LONGEST_BODY
}

/// Whether so many bytes are this many updates, behind fields of `low` to `high` bytes.
pub fn holds_updates(low: u32, high: u32, count: u32, bytes: u32) -> bool
    ensures { IsTrue result ↔ HoldsUpdates low high count bytes }
{
    let bytes = u64::from(bytes);
    let count = u64::from(count);
    u64::from(low) + 4 * count <= bytes && bytes <= u64::from(high) + 1759 * count
}

/// Behind a whole frame.
pub fn ended() -> Scan
    ensures { Awaits result Ended }
{
    Scan {
        part: Part::Whole,
        left: 0,
        items: 0,
    }
}

/// Before so many reigns.
pub fn reigns_begun(count: u32, left: u32) -> Scan
    requires { HoldsReigns 0 0 count left }
    ensures { Awaits result (Sized (Reigned count) left) }
{
    if count == 0 {
        return ended();
    }
    Scan {
        part: Part::Byte(ByteField::RootLength),
        left: left - 1,
        items: count - 1,
    }
}

/// Before so many updates.
pub fn updates_begun(count: u32, left: u32) -> Scan
    requires { HoldsUpdates 0 0 count left }
    ensures { Awaits result (Sized (Updated count) left) }
{
    if count == 0 {
        return ended();
    }
    Scan {
        part: Part::Byte(ByteField::Tag),
        left: left - 1,
        items: count - 1,
    }
}

/// Before a count of reigns and the reigns.
pub fn reign_count_begun(left: u32) -> Scan
    requires { HoldsSome 4 left }
    ensures { Awaits result (Sized ReignCount left) }
{
    let left = left - 4;
    Scan {
        part: Part::Number(
            NumberField::ReignCount,
            Front::new(4, u64::from(left.div_ceil(28)), u64::from(left / 14)),
        ),
        left,
        items: 0,
    }
}

/// Before a count of updates and the updates.
pub fn update_count_begun(left: u32) -> Scan
    requires least { 6 ≤ left }
    requires most { left ≤ 450306 }
    ensures { Awaits result (Sized UpdateCount left) }
{
    let left = left - 2;
    Scan {
        part: Part::Number(
            NumberField::UpdateCount,
            Front::new(
                2,
                u64::from(left.div_ceil(1759)),
                u64::from((left / 4).min(256)),
            ),
        ),
        left,
        items: 0,
    }
}

/// Before a value behind its length, and so many updates.
pub fn value_begun(left: u32, items: u32) -> Scan
    requires { HoldsUpdates 2 1502 items left }
    ensures { Awaits result (Sized (Valued (Updated items)) left) }
{
    let left = u64::from(left) - 2;
    let count = u64::from(items);
    let low = left.saturating_sub(1759 * count);
    let high = (left - 4 * count).min(1500);
    Scan {
        part: Part::Number(NumberField::ValueLength, Front::new(2, low, high)),
        left: left as u32,
        items,
    }
}

/// Before a reign's cycle, its start and so many reigns.
pub fn cycle_begun(left: u32, items: u32) -> Scan
    requires { HoldsReigns 12 12 items left }
    ensures { Awaits result (Sized (Cycling (Reigned items)) left) }
{
    Scan {
        part: Part::Number(NumberField::Cycle, Front::new(4, 1, 0xffff_ffff)),
        left: left - 4,
        items,
    }
}
