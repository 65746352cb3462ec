//! What comes behind a field.
ghost use Rattle.std.specs.Prelude.{◌≡◌, ◌<◌, ◌≤◌, ◌+◌, ◌*◌, ◌-◌, ◌^◌, ◌↔◌, ℕ, IsTrue};
ghost use Rattle.global_defs.specs.declared.limits.TheConstants.{NUMBERS_END};
ghost use Rattle.repl_wire.specs.Kinds.{least_body, most_body};
ghost use Rattle.repl_wire.specs.Layout.{Sized, Body, Bodied, Alone, Typed, Reigned, Updated, Updater, Sited, Rooted, Tagged, Keyed, Versioned, Skipped};
ghost use Rattle.repl_wire.specs.Scans.{Awaits, AwaitsIfAny, BehindByte, BehindNumber, BehindName, ByteFits, NumberFits, NameFits, KeyFits, SiteFits, RootFits, TagFits, KeyLengthFits};

use super::field::{ByteField, Kind, NumberField, Part, Scan};
use super::front::Front;
use super::items::{
    cycle_begun, ended, holds_reigns, holds_some, holds_updates, reign_count_begun, reigns_begun,
    update_count_begun, updates_begun,
};
use global_defs::limits::LONGEST_BODY;
use gvn_key::KeyPrefix;

/// The last number of 40 bits.
const LAST: u64 = global_defs::limits::NUMBERS_END - 1;

/// Before a body that is a number.
fn alone(low: u64, high: u64) -> Scan
    requires bounds { low ≤ high }
    requires small { high ≤ NUMBERS_END }
    ensures { Awaits result (Sized (Alone low high) 8) }
{
    Scan {
        part: Part::Number(NumberField::Alone, Front::new(8, low, high)),
        left: 0,
        items: 0,
    }
}

/// Before a body of that type and length.
pub fn body_begun(kind: Kind, len: u32) -> Scan
    requires least { least_body kind ≤ len }
    requires most { len ≤ most_body kind }
    ensures { Awaits result (Sized (Body kind) len) }
{
    match kind {
        Kind::Hello => Scan {
            part: Part::Byte(ByteField::Version),
            left: len - 1,
            items: 0,
        },
        Kind::Resume => alone(1, LAST + 1),
        Kind::RollbackFirst => alone(1, LAST),
        Kind::History => reigns_begun(1, len),
        Kind::Entry => Scan {
            part: Part::Number(NumberField::EntryNumber, Front::new(8, 1, LAST)),
            left: len - 8,
            items: 0,
        },
        Kind::Bye => alone(0, LAST),
    }
}

/// In how many bytes a body of that type can be.
fn body_lengths(kind: Kind) -> (u32, u32)
    ensures least { result.0 ≡ least_body kind }
    ensures most { result.1 ≡ most_body kind }
{
    match kind {
        Kind::Hello => (15, LONGEST_BODY),
        Kind::Resume | Kind::RollbackFirst | Kind::Bye => (8, 8),
        Kind::History => (14, 28),
        Kind::Entry => (19, 450_319),
    }
}

/// Before the length of a body of that type, and the body.
fn body_length_begun(kind: Kind) -> Scan
    ensures { Awaits result (Bodied kind) }
{
    let (least, most) = body_lengths(kind);
    Scan {
        part: Part::Number(
            NumberField::BodyLength(kind),
            Front::new(4, u64::from(least), u64::from(most)),
        ),
        left: 0,
        items: 0,
    }
}

/// Behind a frame's type.
fn type_read(byte: u8) -> Option<Scan>
    ensures { AwaitsIfAny result (Typed byte) }
{
    match Kind::of(byte) {
        None => None,
        Some(kind) => Some(body_length_begun(kind)),
    }
}

/// Behind a HELLO's version.
fn version_read(byte: u8, left: u32) -> Option<Scan>
    requires { ByteFits ByteField.Version left 0 }
    ensures { AwaitsIfAny result (Sized (Versioned byte) left) }
{
    if byte != 1 {
        return None;
    }
    Some(Scan {
        part: Part::Byte(ByteField::SiteLength),
        left: left - 1,
        items: 0,
    })
}

/// Whether a site's name of that length leaves as many bytes as can stand behind one.
fn fits_site(length: u8, left: u32) -> bool
    ensures { IsTrue result ↔ SiteFits length left }
{
    let length = u32::from(length);
    1 <= length && length <= 15 && length <= left && holds_some(12, left - length)
}

/// Behind the length of a site's name.
fn site_length_read(byte: u8, left: u32) -> Option<Scan>
    requires { ByteFits ByteField.SiteLength left 0 }
    ensures { AwaitsIfAny result (Sized (Sited byte) left) }
{
    if !fits_site(byte, left) {
        return None;
    }
    Some(Scan {
        part: Part::Name {
            first: true,
            missing: byte,
            site: true,
        },
        left: left - u32::from(byte),
        items: 0,
    })
}

/// Whether a root's name of that length leaves as many bytes as can stand behind one.
fn fits_root(length: u8, left: u32, items: u32) -> bool
    ensures { IsTrue result ↔ RootFits length left items }
{
    let length = u32::from(length);
    1 <= length && length <= 15 && length <= left && holds_reigns(12, 12, items, left - length)
}

/// Behind the length of a root's name.
fn root_length_read(byte: u8, left: u32, items: u32) -> Option<Scan>
    requires { ByteFits ByteField.RootLength left items }
    ensures { AwaitsIfAny result (Sized (Rooted (Reigned items) byte) left) }
{
    if !fits_root(byte, left, items) {
        return None;
    }
    Some(Scan {
        part: Part::Name {
            first: true,
            missing: byte,
            site: false,
        },
        left: left - u32::from(byte),
        items,
    })
}

/// Behind an updater.
fn updater_read(byte: u8, left: u32) -> Option<Scan>
    requires { ByteFits ByteField.Updater left 0 }
    ensures { AwaitsIfAny result (Sized (Updater byte) left) }
{
    if byte < 1 || 64 < byte {
        return None;
    }
    Some(Scan {
        part: Part::Number(NumberField::Serial, Front::new(4, 1, 0xffff_ffff)),
        left: left - 4,
        items: 0,
    })
}

/// Whether the bytes behind an update's tag can be the rest of it, and so many updates.
fn fits_tag(tag: u8, left: u32, items: u32) -> bool
    ensures { IsTrue result ↔ TagFits tag left items }
{
    if tag == 1 {
        return holds_updates(5, 1758, items, left);
    }
    2 <= tag && tag <= 3 && holds_updates(3, 256, items, left)
}

/// Behind what an update does.
fn tag_read(byte: u8, left: u32, items: u32) -> Option<Scan>
    requires { ByteFits ByteField.Tag left items }
    ensures { AwaitsIfAny result (Sized (Tagged (Updated items) byte) left) }
{
    if !fits_tag(byte, left, items) {
        return None;
    }
    Some(Scan {
        part: Part::Byte(ByteField::KeyLength(byte == 1)),
        left: left - 1,
        items,
    })
}

/// Whether the bytes behind a key can be the rest of its update, and so many updates.
fn holds_behind_key(set: bool, left: u32, items: u32) -> bool
    ensures { IsTrue result ↔ KeyFits set left items }
{
    if set {
        holds_updates(2, 1502, items, left)
    } else {
        holds_updates(0, 0, items, left)
    }
}

/// Whether a key of that length leaves as many bytes as can stand behind it.
fn fits_key(set: bool, length: u8, left: u32, items: u32) -> bool
    ensures { IsTrue result ↔ KeyLengthFits set length left items }
{
    let length = u32::from(length);
    length <= left && holds_behind_key(set, left - length, items)
}

/// Behind the length of a key.
fn key_length_read(set: bool, byte: u8, left: u32, items: u32) -> Option<Scan>
    requires { ByteFits (ByteField.KeyLength set) left items }
    ensures { AwaitsIfAny result (Sized (Keyed set (Updated items) byte) left) }
{
    if !fits_key(set, byte, left, items) {
        return None;
    }
    match KeyPrefix::new(byte) {
        None => None,
        Some(prefix) => Some(Scan {
            part: Part::Key { set, prefix },
            left: left - u32::from(byte),
            items,
        }),
    }
}

/// Behind a field of one byte.
pub fn byte_read(field: ByteField, byte: u8, left: u32, items: u32) -> Option<Scan>
    requires { ByteFits field left items }
    ensures { AwaitsIfAny result (BehindByte field left items byte) }
{
    match field {
        ByteField::Type => type_read(byte),
        ByteField::Version => version_read(byte, left),
        ByteField::SiteLength => site_length_read(byte, left),
        ByteField::RootLength => root_length_read(byte, left, items),
        ByteField::Updater => updater_read(byte, left),
        ByteField::Tag => tag_read(byte, left, items),
        ByteField::KeyLength(set) => key_length_read(set, byte, left, items),
    }
}

/// Behind a value's length.
fn value_length_read(length: u16, left: u32, items: u32) -> Scan
    requires { NumberFits NumberField.ValueLength length length left items }
    ensures { Awaits result (Sized (Skipped length (Updated items)) left) }
{
    if length == 0 {
        return updates_begun(items, left);
    }
    Scan {
        part: Part::Value { missing: length },
        left: left - u32::from(length),
        items,
    }
}

/// Behind a number.
pub fn number_read(field: NumberField, number: u64, left: u32, items: u32) -> Scan
    requires fits { NumberFits field number number left items }
    requires small { number ≤ NUMBERS_END }
    ensures { Awaits result (BehindNumber field left items number) }
{
    match field {
        NumberField::BodyLength(kind) => body_begun(kind, number as u32),
        NumberField::Length => reign_count_begun(left),
        NumberField::ReignCount => reigns_begun(number as u32, left),
        NumberField::Cycle => Scan {
            part: Part::Number(NumberField::Start, Front::new(8, 1, LAST + 1)),
            left: left - 8,
            items,
        },
        NumberField::Start => reigns_begun(items, left),
        NumberField::Alone => ended(),
        NumberField::EntryNumber => Scan {
            part: Part::Byte(ByteField::Updater),
            left: left - 1,
            items: 0,
        },
        NumberField::Serial => update_count_begun(left),
        NumberField::UpdateCount => updates_begun(number as u32, left),
        NumberField::ValueLength => value_length_read(number as u16, left, items),
    }
}

/// Behind a name.
pub fn name_read(site: bool, left: u32, items: u32) -> Scan
    requires { NameFits site left items }
    ensures { Awaits result (Sized (BehindName site items) left) }
{
    if site {
        Scan {
            part: Part::Number(NumberField::Length, Front::new(8, 0, LAST)),
            left: left - 8,
            items: 0,
        }
    } else {
        cycle_begun(left, items)
    }
}
