//! Subscripts as bytes that collate as the subscripts do.
ghost use Rattle.std.specs.Prelude.{◌≡◌, ◌≤◌, ◌+◌, ◌-◌, ◌++◌, true, length, map, position, replicate, IfOk, OnOk};
ghost use Rattle.std.specs.List.{flat_map};
ghost use Rattle.std.specs.Str.Parse.{AllDigits};
ghost use Rattle.global_defs.specs.Key.{sub_of, Number, Text};
ghost use Rattle.global_defs.specs.Numeral.{is_point, is_number, all_digits, digits_at, magnitude, value_of};
ghost use Rattle.global_defs.specs.Encoded.{significant, positive_sub, negative_sub, escaped, encoded_sub};
ghost use Rattle.gvn_key.specs.Stripped.{stripped, signed, number_code, with_zeros};

use super::bytes::{Bytes, NoMemory};
use super::numeral::{is_number, point};
use std::alloc::Global;

/// As many zeros as digits may stand behind a point.
const ZEROS: [u8; 18] = [b'0'; 18];

/// How many digits a number has before and behind its point, with all its zeros.
const MOST_DIGITS: usize = 36;

/// So many zeros.
fn zeros(count: usize) -> &'static [u8]
    requires { count ≤ 18 }
    ensures { result.now ≡ replicate count 48 }
{
    &ZEROS[..count]
}

/// The digits of 10 ^ 18 times a number with these digits before and behind its point.
fn all_digits(alloc: Global, whole: &[u8], fraction: &[u8]) -> Result<Bytes, NoMemory>
    ensures { IfOk result (λ made. made ≡ all_digits whole.now fraction.now) }
{
    let mut digits = Bytes::with_capacity(alloc, MOST_DIGITS)?;
    digits.push_all(whole)?;
    digits.push_all(fraction)?;
    digits.push_all(zeros(ZEROS.len().saturating_sub(fraction.len())))?;
    Ok(digits)
}

/// Digits without the zeros at the front.
fn stripped(digits: &[u8]) -> &[u8]
    ensures value { result.now ≡ stripped digits.now }
    ensures shorter { length result.now ≤ length digits.now }
{
    let mut rest = digits;
    while let [b'0', more @ ..] = rest {
        rest = more;
    }
    rest
}

/// Digits without the zeros at the end.
pub fn significant(digits: &[u8]) -> &[u8]
    ensures { result.now ≡ significant digits.now }
{
    let mut end = digits.len();
    while 0 < end && digits[end - 1] == b'0' {
        end -= 1;
    }
    &digits[..end]
}

/// A positive number by its digits and the count of zeros behind them: the exponent, the digits, the end.
fn push_positive(digits: &[u8], zeros: usize, out: &mut Bytes) -> Result<(), NoMemory>
    requires { length digits.now + zeros ≤ 36 }
    ensures { OnOk result (out.new ≡ out.old ++ positive_sub (digits.now ++ replicate zeros 48)) }
{
    out.push(3)?;
    out.push(46 + (digits.len() + zeros) as u8)?;
    out.push_all(significant(digits))?;
    out.push(0)
}

/// Digits turned round, so that the larger one comes first. No digit is above 105.
pub fn push_reversed(digits: &[u8], out: &mut Bytes) -> Result<(), NoMemory>
    ensures { OnOk result (out.new ≡ out.old ++ map (λ d. 105 - d) digits.now) }
{
    for digit in digits {
        out.push(105u8.saturating_sub(*digit))?;
    }
    Ok(())
}

/// A negative number by the digits of its magnitude and the count of zeros behind them.
fn push_negative(digits: &[u8], zeros: usize, out: &mut Bytes) -> Result<(), NoMemory>
    requires { length digits.now + zeros ≤ 36 }
    ensures { OnOk result (out.new ≡ out.old ++ negative_sub (digits.now ++ replicate zeros 48)) }
{
    out.push(1)?;
    out.push(209 - (digits.len() + zeros) as u8)?;
    push_reversed(significant(digits), out)?;
    out.push(255)
}

/// A number by its sign, the digits of its magnitude and the count of zeros behind them. No digit is 0, whatever the count.
fn push_signed(negative: bool, digits: &[u8], zeros: usize, out: &mut Bytes) -> Result<(), NoMemory>
    requires { length digits.now + zeros ≤ 36 }
    ensures { OnOk result (out.new ≡ out.old ++ number_code negative (with_zeros zeros digits.now)) }
{
    if digits.is_empty() {
        out.push(2)
    } else if negative {
        push_negative(digits, zeros, out)
    } else {
        push_positive(digits, zeros, out)
    }
}

/// A number by its sign and what stands behind it. The zeros behind a whole number are counted, and not written first.
fn push_magnitude(
    alloc: Global,
    negative: bool,
    bytes: &[u8],
    out: &mut Bytes,
) -> Result<(), NoMemory>
    requires digits { AllDigits 10 (digits_at bytes.now (position is_point bytes.now)) }
    requires few { length (digits_at bytes.now (position is_point bytes.now)) ≤ 36 }
    ensures { OnOk result (out.new ≡ out.old ++ encoded_sub (Number (signed negative (magnitude bytes.now)))) }
{
    match point(bytes) {
        None => push_signed(negative, stripped(bytes), ZEROS.len(), out),
        Some(i) => {
            let digits = all_digits(alloc, &bytes[..i], &bytes[i + 1..])?;
            push_signed(negative, stripped(digits.as_slice()), 0, out)
        }
    }
}

/// A number by its numeral.
fn push_number(alloc: Global, numeral: &[u8], out: &mut Bytes) -> Result<(), NoMemory>
    requires { is_number numeral.now ≡ true }
    ensures { OnOk result (out.new ≡ out.old ++ encoded_sub (Number (value_of numeral.now))) }
{
    if numeral.starts_with(b"-") {
        push_magnitude(alloc, true, &numeral[1..], out)
    } else {
        push_magnitude(alloc, false, numeral, out)
    }
}

/// A byte of a string, so that no byte is 0.
fn push_escaped(byte: u8, out: &mut Bytes) -> Result<(), NoMemory>
    ensures { OnOk result (out.new ≡ out.old ++ escaped byte) }
{
    match byte {
        0 => out.push_all(&[1, 1]),
        1 => out.push_all(&[1, 2]),
        _ => out.push(byte),
    }
}

fn push_all_escaped(bytes: &[u8], out: &mut Bytes) -> Result<(), NoMemory>
    ensures { OnOk result (out.new ≡ out.old ++ flat_map escaped bytes.now) }
{
    for byte in bytes {
        push_escaped(*byte, out)?;
    }
    Ok(())
}

/// A string.
fn push_string(bytes: &[u8], out: &mut Bytes) -> Result<(), NoMemory>
    ensures { OnOk result (out.new ≡ out.old ++ encoded_sub (Text bytes.now)) }
{
    out.push(4)?;
    push_all_escaped(bytes, out)?;
    out.push(0)
}

/// A subscript.
pub fn push_sub(alloc: Global, sub: &[u8], out: &mut Bytes) -> Result<(), NoMemory>
    ensures { OnOk result (out.new ≡ out.old ++ encoded_sub (sub_of sub.now)) }
{
    if is_number(sub) {
        push_number(alloc, sub, out)
    } else {
        push_string(sub, out)
    }
}

/// Subscripts one after another.
pub fn push_subs(alloc: Global, subs: &[Bytes], out: &mut Bytes) -> Result<(), NoMemory>
    ensures { OnOk result (out.new ≡ out.old ++ flat_map encoded_sub (map sub_of subs.now)) }
{
    for sub in subs {
        push_sub(alloc, sub.as_slice(), out)?;
    }
    Ok(())
}
