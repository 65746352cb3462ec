//! Frames that are scanned byte by byte: a byte is taken exactly where some well-formed frame goes on with it.
ghost use Rattle.std.specs.Prelude.{◌≡◌, ◌↔◌, ◌∷◌, ◌-◌, ◌≤◌, IsTrue};
ghost use Rattle.repl_wire.specs.Fronts.{IsMet};
ghost use Rattle.repl_wire.specs.Layout.{Framed, Sized, Updated, BehindKey, Skipped, names};
ghost use Rattle.repl_wire.specs.Scans.{Awaits, AwaitsIfAny, IsSound, Completing, Fits, NumberFits, KeyFits, Accepts};

use super::bodies::{byte_read, name_read, number_read};
use super::field::{ByteField, NumberField, Part, Scan};
use super::front::Front;
use super::items::{updates_begun, value_begun};
use gvn_key::KeyPrefix;

/// Behind these bytes of a number, perhaps all of them.
fn number_behind(field: NumberField, front: Front, left: u32, items: u32) -> Scan
    requires met { IsMet front }
    requires few { front.missing ≤ 8 }
    requires fits { NumberFits field front.low front.high left items }
    ensures { Awaits result (Accepts (Part.Number field front) left items) }
{
    if front.missing == 0 {
        return number_read(field, front.value, left, items);
    }
    Scan {
        part: Part::Number(field, front),
        left,
        items,
    }
}

/// Behind one byte more of a number.
fn number_taken(field: NumberField, front: Front, left: u32, items: u32, byte: u8) -> Option<Scan>
    requires { Fits (Part.Number field front) left items }
    ensures { AwaitsIfAny result (λ w. Accepts (Part.Number field front) left items (byte ∷ w)) }
{
    match front.take(byte) {
        None => None,
        Some(front) => Some(number_behind(field, front, left, items)),
    }
}

/// Whether a name goes on with the byte.
fn is_in_name(first: bool, byte: u8) -> bool
    ensures { result ≡ names first byte }
{
    if first {
        byte.is_ascii_alphabetic()
    } else {
        byte.is_ascii_alphanumeric()
    }
}

/// Behind one byte more of a name.
fn name_taken(first: bool, missing: u8, site: bool, left: u32, items: u32, byte: u8) -> Option<Scan>
    requires { Fits (Part.Name first missing site) left items }
    ensures { AwaitsIfAny result (λ w. Accepts (Part.Name first missing site) left items (byte ∷ w)) }
{
    if !is_in_name(first, byte) {
        return None;
    }
    if missing == 1 {
        return Some(name_read(site, left, items));
    }
    Some(Scan {
        part: Part::Name {
            first: false,
            missing: missing - 1,
            site,
        },
        left,
        items,
    })
}

/// Behind a key.
fn key_read(set: bool, left: u32, items: u32) -> Scan
    requires { KeyFits set left items }
    ensures { Awaits result (Sized (BehindKey set (Updated items)) left) }
{
    if set {
        value_begun(left, items)
    } else {
        updates_begun(items, left)
    }
}

/// Behind one byte more of a key.
fn key_taken(set: bool, prefix: KeyPrefix, left: u32, items: u32, byte: u8) -> Option<Scan>
    requires { Fits (Part.Key set prefix) left items }
    ensures { AwaitsIfAny result (λ w. Accepts (Part.Key set prefix) left items (byte ∷ w)) }
{
    let mut prefix = prefix;
    if !prefix.take(byte) {
        return None;
    }
    if prefix.left() == 0 {
        return Some(key_read(set, left, items));
    }
    Some(Scan {
        part: Part::Key { set, prefix },
        left,
        items,
    })
}

/// Behind one byte more of a value.
fn value_taken(missing: u16, left: u32, items: u32) -> Scan
    requires { Fits (Part.Value missing) left items }
    ensures { Awaits result (Skipped (missing - 1) (Sized (Updated items) left)) }
{
    if missing == 1 {
        return updates_begun(items, left);
    }
    Scan {
        part: Part::Value {
            missing: missing - 1,
        },
        left,
        items,
    }
}

impl Scan {
    /// Before a frame.
    pub fn new() -> Self
        ensures { Awaits result Framed }
    {
        Scan {
            part: Part::Byte(ByteField::Type),
            left: 0,
            items: 0,
        }
    }

    /// Whether the frame is whole.
    pub fn is_whole(&self) -> bool
        ensures { IsTrue result ↔ (self.now.part ≡ Part.Whole) }
    {
        matches!(self.part, Part::Whole)
    }

    /// Behind one byte more, `None` where no frame goes on so.
    pub fn take(self, byte: u8) -> Option<Self>
        requires { IsSound self }
        ensures { AwaitsIfAny result (λ w. Completing self (byte ∷ w)) }
    {
        match self.part {
            Part::Byte(field) => byte_read(field, byte, self.left, self.items),
            Part::Number(field, front) => number_taken(field, front, self.left, self.items, byte),
            Part::Name {
                first,
                missing,
                site,
            } => name_taken(first, missing, site, self.left, self.items, byte),
            Part::Key { set, prefix } => key_taken(set, prefix, self.left, self.items, byte),
            Part::Value { missing } => Some(value_taken(missing, self.left, self.items)),
            Part::Whole => None,
        }
    }
}
