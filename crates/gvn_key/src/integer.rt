//! Canonical integers: what is counted with, read and written.
ghost use Rattle.std.specs.Prelude.{◌≡◌, ◌<◌, ◌≤◌, ◌^◌, ◌++◌, ◌&&◌, pos, true, not, length, OnOk, OnErr};
ghost use Rattle.std.specs.List.{list_all, list_any};
ghost use Rattle.std.specs.Char.{is_ascii_digit};
ghost use Rattle.std.specs.Str.Parse.{digits_value};
ghost use Rattle.global_defs.specs.Numeral.{is_point, is_number, integer_of, integer_text};

use super::bytes::{Bytes, NoMemory};
use super::decode::value;
use super::numeral::is_number;

/// Whether these bytes are a canonical integer of at most 18 digits.
fn is_integer(text: &[u8]) -> bool
    ensures { result ≡ (is_number text.now && not (list_any is_point text.now)) }
{
    is_number(text) && !text.contains(&b'.')
}

/// The number that at most 18 digits write.
fn whole(digits: &[u8]) -> i64
    requires digits { list_all is_ascii_digit digits.now ≡ true }
    requires count { length digits.now ≤ 18 }
    ensures value { result ≡ pos (digits_value 10 digits.now) }
    ensures bound { digits_value 10 digits.now < 10 ^ 18 }
{
    value(digits) as i64
}

/// The number that a canonical integer of at most 18 digits is; of other text nothing.
pub fn integer_of(text: &[u8]) -> Option<i64>
    ensures { result ≡ integer_of text.now }
{
    if !is_integer(text) {
        return None;
    }
    match text {
        [] => None,
        [first, digits @ ..] => {
            if *first == b'-' {
                Some(-whole(digits))
            } else {
                Some(whole(text))
            }
        }
    }
}

/// Adds the text of an integer at the end.
pub fn write_integer(number: i64, out: &mut Bytes) -> Result<(), NoMemory>
    ensures ok { OnOk result (out.new ≡ out.old ++ integer_text number) }
    ensures err { OnErr result (out.new ≡ out.old) }
{
    if 0 <= number {
        return out.push_decimal(number.unsigned_abs());
    }
    let mut text = Bytes::of(out.allocator(), b"-")?;
    text.push_decimal(number.unsigned_abs())?;
    out.push_all(text.as_slice())
}
