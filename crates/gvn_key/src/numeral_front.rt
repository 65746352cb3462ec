//! Whether a string's bytes so far are a canonical numeral, which no string subscript may be.
ghost use Rattle.std.specs.Prelude.{◌≡◌};
ghost use Rattle.gvn_key.specs.Steps.{is_string, first_read, whole_digit, fraction_digit, numeral_read};

use super::digits::Last;

/// How many digits a number may have.
const MOST_DIGITS: u8 = 18;

/// What the bytes so far begin.
#[derive(Clone, Copy, Debug, PartialEq, Eq)]
pub enum Numeral {
    /// There are none yet.
    Empty,
    /// The number 0.
    Nought,
    /// A minus sign.
    Minus,
    /// So many digits before the point.
    Whole(u8),
    /// A point, so many digits before and behind it, and the last one behind it.
    Fraction(u8, Last),
    /// No canonical numeral of at most 18 digits begins so.
    Unlike,
}

/// The state behind a first byte, or behind the sign: a digit other than 0, or a point.
fn first_read(byte: u8) -> Numeral
    ensures { result ≡ first_read byte }
{
    match byte {
        b'.' => Numeral::Fraction(0, Last::Absent),
        b'1'..=b'9' => Numeral::Whole(1),
        _ => Numeral::Unlike,
    }
}

/// The state behind so many digits before the point and one byte more.
fn whole_read(count: u8, byte: u8) -> Numeral
    ensures { result ≡ whole_digit count byte }
{
    if byte == b'.' {
        Numeral::Fraction(count, Last::Absent)
    } else if byte.is_ascii_digit() && count < MOST_DIGITS {
        Numeral::Whole(count + 1)
    } else {
        Numeral::Unlike
    }
}

/// The state behind a point, so many digits and one byte more.
fn fraction_read(count: u8, byte: u8) -> Numeral
    ensures { result ≡ fraction_digit count byte }
{
    if byte.is_ascii_digit() && count < MOST_DIGITS {
        Numeral::Fraction(count + 1, Last::of(byte))
    } else {
        Numeral::Unlike
    }
}

impl Numeral {
    /// Whether the bytes so far are a string: some bytes, and no canonical numeral of at most 18 digits.
    pub fn is_string(self) -> bool
        ensures { result ≡ is_string self }
    {
        match self {
            Numeral::Empty | Numeral::Nought | Numeral::Whole(_) => false,
            Numeral::Minus | Numeral::Unlike => true,
            Numeral::Fraction(_, last) => !last.may_end(),
        }
    }

    /// The state behind one byte more.
    pub fn reading(self, byte: u8) -> Self
        ensures { result ≡ numeral_read self byte }
    {
        match self {
            Numeral::Empty => match byte {
                b'0' => Numeral::Nought,
                b'-' => Numeral::Minus,
                _ => first_read(byte),
            },
            Numeral::Minus => first_read(byte),
            Numeral::Whole(count) => whole_read(count, byte),
            Numeral::Fraction(count, _) => fraction_read(count, byte),
            Numeral::Nought | Numeral::Unlike => Numeral::Unlike,
        }
    }
}
