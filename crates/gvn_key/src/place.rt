//! Places in an encoded key: what may come next, and in how many bytes the key can end.
ghost use Rattle.std.specs.Prelude.{◌≡◌};
ghost use Rattle.gvn_key.specs.Steps.{is_name_byte, in_name, at_boundary, at_exponent, in_digits, in_text, in_escape, step, fills, digits_fit, fits};

use super::digits::Number;
use super::numeral_front::Numeral;

/// How many characters a name may have.
const LONGEST_NAME: u8 = global_defs::limits::LONGEST_NAME as u8;

/// How many subscripts a key may have.
const MOST_SUBS: u8 = global_defs::limits::MOST_SUBS as u8;

/// Where the bytes of a key have come to. The first number of a subscript's place is how many more may stand behind it.
#[derive(Clone, Copy, Debug, PartialEq, Eq)]
pub enum Place {
    /// In the name, behind so many characters.
    Name(u8),
    /// Where the key may end, or one of so many subscripts may begin.
    Boundary(u8),
    /// Behind the byte that says that a number is negative, or positive.
    Exponent(u8, bool),
    /// Among a number's digits.
    Digits(u8, Number),
    /// In a string.
    Text(u8, Numeral),
    /// Behind the first byte of an escape in a string.
    Escape(u8, Numeral),
}

/// Whether a byte may stand behind so many characters of a name.
fn is_name_byte(count: u8, byte: u8) -> bool
    ensures { result ≡ is_name_byte count byte }
{
    if count == 0 {
        byte == b'%' || byte.is_ascii_alphabetic()
    } else {
        byte.is_ascii_alphanumeric()
    }
}

fn in_name(count: u8, byte: u8) -> Option<Place>
    ensures { result ≡ in_name count byte }
{
    if byte == 0 && 0 < count {
        Some(Place::Boundary(MOST_SUBS))
    } else if is_name_byte(count, byte) && count < LONGEST_NAME {
        Some(Place::Name(count + 1))
    } else {
        None
    }
}

fn at_boundary(subs: u8, byte: u8) -> Option<Place>
    ensures { result ≡ at_boundary subs byte }
{
    if subs == 0 {
        return None;
    }
    let behind = subs - 1;
    match byte {
        1 => Some(Place::Exponent(behind, true)),
        2 => Some(Place::Boundary(behind)),
        3 => Some(Place::Exponent(behind, false)),
        4 => Some(Place::Text(behind, Numeral::Empty)),
        _ => None,
    }
}

fn at_exponent(subs: u8, negative: bool, byte: u8) -> Option<Place>
    ensures { result ≡ at_exponent subs negative byte }
{
    match Number::of(negative, byte) {
        Some(number) => Some(Place::Digits(subs, number)),
        None => None,
    }
}

fn in_digits(subs: u8, number: Number, byte: u8) -> Option<Place>
    ensures { result ≡ in_digits subs number byte }
{
    let end = if number.negative { 255 } else { 0 };
    if byte == end && number.last.may_end() {
        return Some(Place::Boundary(subs));
    }
    match number.taking(byte) {
        Some(more) => Some(Place::Digits(subs, more)),
        None => None,
    }
}

fn in_text(subs: u8, numeral: Numeral, byte: u8) -> Option<Place>
    ensures { result ≡ in_text subs numeral byte }
{
    match byte {
        0 => {
            if numeral.is_string() {
                Some(Place::Boundary(subs))
            } else {
                None
            }
        }
        1 => Some(Place::Escape(subs, numeral)),
        _ => Some(Place::Text(subs, numeral.reading(byte))),
    }
}

/// The byte 0 is written as 1 and 1, and the byte 1 as 1 and 2.
fn in_escape(subs: u8, numeral: Numeral, byte: u8) -> Option<Place>
    ensures { result ≡ in_escape subs numeral byte }
{
    match byte {
        1 => Some(Place::Text(subs, numeral.reading(0))),
        2 => Some(Place::Text(subs, numeral.reading(1))),
        _ => None,
    }
}

/// Whether so many subscripts at most can have exactly so many bytes: one has 1 byte, or 3 and more.
fn fills(subs: u8, bytes: u8) -> bool
    ensures { result ≡ fills subs bytes }
{
    match subs {
        0 => bytes == 0,
        1 => bytes != 2,
        _ => true,
    }
}

/// Whether a number's other digits, its end and subscripts behind it can have exactly so many bytes.
fn digits_fit(subs: u8, number: Number, bytes: u8) -> bool
    ensures { result ≡ digits_fit subs number bytes }
{
    let least = if number.last.may_end() { 0 } else { 1 };
    if number.room < least || bytes <= least {
        return false;
    }
    let rest = bytes - least - 1;
    match subs {
        0 => rest <= number.room - least,
        1 => rest != 2 || least < number.room,
        _ => true,
    }
}

impl Place {
    /// The place behind one byte more, `None` where no key has it there.
    pub fn step(self, byte: u8) -> Option<Self>
        ensures { result ≡ step self byte }
    {
        match self {
            Place::Name(count) => in_name(count, byte),
            Place::Boundary(subs) => at_boundary(subs, byte),
            Place::Exponent(subs, negative) => at_exponent(subs, negative, byte),
            Place::Digits(subs, number) => in_digits(subs, number, byte),
            Place::Text(subs, numeral) => in_text(subs, numeral, byte),
            Place::Escape(subs, numeral) => in_escape(subs, numeral, byte),
        }
    }

    /// Whether some key goes on here and has exactly so many bytes more.
    pub fn fits(self, bytes: u8) -> bool
        ensures { result ≡ fits self bytes }
    {
        match self {
            Place::Name(count) => { if count == 0 { 2 <= bytes } else { 1 <= bytes } }
            Place::Boundary(subs) => fills(subs, bytes),
            Place::Exponent(subs, _) => 3 <= bytes && (0 < subs || bytes <= 20),
            Place::Digits(subs, number) => digits_fit(subs, number, bytes),
            Place::Text(_, numeral) => 2 <= bytes || (bytes == 1 && numeral.is_string()),
            Place::Escape(_, _) => 2 <= bytes,
        }
    }
}
