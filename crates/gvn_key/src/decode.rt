//! Subscripts from their encoded bytes.
ghost use Rattle.std.specs.Prelude.{◌≡◌, ◌+◌, ◌-◌, ◌<◌, ◌≤◌, ◌^◌, ◌++◌, ◌∷◌, [], ℕ, List, true, false, drop, length, option_map, position, ◌==◌, map, replicate, not, IfOk, OnOk, IfSome};
ghost use Rattle.std.specs.List.{list_all, flat_map};
ghost use Rattle.std.specs.Char.{is_ascii_digit};
ghost use Rattle.std.specs.Str.Parse.{digits_value};
ghost use Rattle.global_defs.specs.Encoded.{significant, encoded_sub};
ghost use Rattle.global_defs.specs.NodeText.{pointed, magnitude_text};
ghost use Rattle.global_defs.specs.Key.{Sub};
ghost use Rattle.global_defs.specs.Valid.{is_sub};
ghost use Rattle.gvn_key.specs.Decoding.{AddsRead, ReadsSubs, first_read, end_byte, sub_end, unescaped, are_whole, padded, number_read, positive_read, negative_read, sub_read};

use super::bytes::{Bytes, NoMemory};
use super::encoding::{push_reversed, significant};
use super::numeral::are_digits;
use std::alloc::Global;

/// A number is kept as the whole number that is so many times larger.
const SCALE: u64 = 1_000_000_000_000_000_000;

/// How many digits a number can have, 18 before its point and 18 behind it.
const MOST_DIGITS: usize = 36;

/// How many of them stand behind the point.
const FRACTION: usize = 18;

/// Room for a minus sign, 18 digits and a point.
const LONGEST_NUMERAL: usize = 20;

/// The zeros behind a number's digits.
const ZEROS: [u8; 36] = [b'0'; 36];

/// The byte that ends a subscript that begins with this one. A 2 is a whole subscript, the number 0.
fn end_byte(kind: u8) -> u8
    ensures { result ≡ end_byte kind }
{
    match kind {
        1 => 255,
        2 => 2,
        _ => 0,
    }
}

/// Where a byte first stands.
pub fn place(byte: u8, bytes: &[u8]) -> Option<usize>
    ensures place { result ≡ position (λ b. b == byte) bytes.now }
    ensures within { IfSome result (λ i. i < length bytes.now) }
{
    bytes.iter().position(|b| *b == byte)
}

/// Where the first subscript ends.
pub(crate) fn sub_end(bytes: &[u8]) -> Option<usize>
    ensures place { result ≡ sub_end bytes.now }
    ensures within { IfSome result (λ last. last < length bytes.now) }
{
    match bytes {
        [] => None,
        [kind, ..] => place(end_byte(*kind), bytes),
    }
}

/// Whether no byte is a 1, which begins an escape.
pub(crate) fn has_no_escapes(bytes: &[u8]) -> bool
    ensures { result ≡ list_all (λ b. not (b == 1)) bytes.now }
{
    bytes.iter().all(|b| *b != 1)
}

/// The bytes of a string from their escaped form: 1 and 1 is 0, 1 and 2 is 1.
pub(crate) fn unescaped(alloc: Global, bytes: &[u8]) -> Result<Bytes, NoMemory>
    ensures { IfOk result (λ made. made ≡ unescaped false bytes.now) }
{
    if has_no_escapes(bytes) {
        return Bytes::of(alloc, bytes);
    }
    let mut made = Bytes::with_capacity(alloc, bytes.len())?;
    let mut escaping = false;
    for byte in bytes {
        if escaping {
            made.push(byte.saturating_sub(1))?;
            escaping = false;
        } else if *byte == 1 {
            escaping = true;
        } else {
            made.push(*byte)?;
        }
    }
    Ok(made)
}

/// The number that these digits write.
pub fn value(digits: &[u8]) -> u128
    requires digits { list_all is_ascii_digit digits.now ≡ true }
    requires count { length digits.now ≤ 36 }
    ensures value { result ≡ digits_value 10 digits.now }
    ensures bound { result < 10 ^ 36 }
{
    let mut value: u128 = 0;
    for digit in digits {
        value = value * 10 + u128::from(*digit - b'0');
    }
    value
}

/// Adds the numeral of a number from 10 ^ 18 times it.
fn push_magnitude(magnitude: u128, out: &mut Bytes) -> Result<(), NoMemory>
    requires { magnitude < 10 ^ 36 }
    ensures { OnOk result (out.new ≡ out.old ++ magnitude_text magnitude) }
{
    let whole = (magnitude / u128::from(SCALE)) as u64;
    let fraction = (magnitude % u128::from(SCALE)) as u64;
    if whole != 0 {
        out.push_decimal(whole)?;
    }
    let mut digits = Bytes::new(out.allocator());
    digits.push_decimal(SCALE + fraction)?;
    match digits.as_slice() {
        [] => Ok(()),
        [_, fraction @ ..] => push_fraction(fraction, out),
    }
}

/// Adds a point and digits up to the last that isn't 0, nothing where all of them are.
fn push_fraction(digits: &[u8], out: &mut Bytes) -> Result<(), NoMemory>
    ensures { OnOk result (out.new ≡ out.old ++ pointed (significant digits.now)) }
{
    let digits = significant(digits);
    if digits.is_empty() {
        return Ok(());
    }
    out.push(b'.')?;
    out.push_all(digits)
}

/// So many zeros.
fn zeros(count: usize) -> &'static [u8]
    requires { count ≤ 36 }
    ensures { result.now ≡ replicate count 48 }
{
    &ZEROS[..count]
}

/// Digits with zeros behind them, so many in all.
fn padded(alloc: Global, count: usize, digits: &[u8]) -> Result<Bytes, NoMemory>
    requires count { count ≤ 36 }
    requires fits { length digits.now ≤ count }
    requires digits { list_all is_ascii_digit digits.now ≡ true }
    ensures value { IfOk result (λ made. made ≡ padded count digits.now) }
    ensures len { IfOk result (λ made. length made ≤ 36) }
    ensures digits { IfOk result (λ made. list_all is_ascii_digit made ≡ true) }
{
    let mut made = Bytes::of(alloc, digits)?;
    made.push_all(zeros(count.saturating_sub(digits.len())))?;
    Ok(made)
}

/// Whether these digits, up to the last that isn't 0, are those of 10 ^ 18 times a whole number with so many digits.
fn are_whole(count: usize, digits: &[u8]) -> bool
    ensures { result ≡ are_whole count digits.now }
{
    match digits {
        [] => false,
        [first, ..] => *first != b'0' && digits.len() + FRACTION <= count,
    }
}

/// Adds the numeral of a number without a sign by the count of digits of 10 ^ 18 times it, and these digits up to the last
/// that isn't 0.
fn push_digits(count: usize, digits: &[u8], out: &mut Bytes) -> Result<(), NoMemory>
    requires count { count ≤ 36 }
    requires fits { length digits.now ≤ count }
    requires digits { list_all is_ascii_digit digits.now ≡ true }
    ensures { OnOk result (out.new ≡ out.old ++ magnitude_text (digits_value 10 (padded count digits.now))) }
{
    if are_whole(count, digits) {
        out.push_all(digits)?;
        out.push_all(zeros(count - FRACTION - digits.len()))
    } else {
        let all = padded(out.allocator(), count, digits)?;
        push_magnitude(value(all.as_slice()), out)
    }
}

/// Adds a numeral by the count of digits of 10 ^ 18 times its number, and these digits up to the last that isn't 0. Answers whether they
/// are such digits: else nothing is added.
fn push_number(
    negative: bool,
    count: usize,
    digits: &[u8],
    out: &mut Bytes,
) -> Result<bool, NoMemory>
    ensures { IfOk result (λ found. AddsRead (number_read negative count digits.now) out.old out.new found) }
{
    if MOST_DIGITS < count || count < digits.len() || !are_digits(digits) {
        return Ok(false);
    }
    if negative {
        out.push(b'-')?;
    }
    push_digits(count, digits, out)?;
    Ok(true)
}

/// Adds the numeral of a positive number: the exponent and the digits. Answers whether there is one.
pub(crate) fn push_positive(bytes: &[u8], out: &mut Bytes) -> Result<bool, NoMemory>
    ensures { IfOk result (λ found. AddsRead (positive_read bytes.now) out.old out.new found) }
{
    match bytes {
        [] => Ok(false),
        [exponent, digits @ ..] => {
            let count = usize::from(exponent.saturating_sub(46));
            push_number(false, count, digits, out)
        }
    }
}

/// Adds the numeral of a negative number: the exponent and the digits, both turned round. Answers whether there is one.
pub(crate) fn push_negative(bytes: &[u8], out: &mut Bytes) -> Result<bool, NoMemory>
    ensures { IfOk result (λ found. AddsRead (negative_read bytes.now) out.old out.new found) }
{
    match bytes {
        [] => Ok(false),
        [exponent, turned @ ..] => {
            let mut digits = Bytes::new(out.allocator());
            push_reversed(turned, &mut digits)?;
            let count = usize::from(209u8.saturating_sub(*exponent));
            push_number(true, count, digits.as_slice(), out)
        }
    }
}

/// The numeral of a positive number.
fn positive(alloc: Global, bytes: &[u8]) -> Result<Option<Bytes>, NoMemory>
    ensures { IfOk result (λ read. read ≡ positive_read bytes.now) }
{
    let mut text = Bytes::with_capacity(alloc, LONGEST_NUMERAL)?;
    let found = push_positive(bytes, &mut text)?;
    Ok(if found { Some(text) } else { None })
}

/// The numeral of a negative number.
fn negative(alloc: Global, bytes: &[u8]) -> Result<Option<Bytes>, NoMemory>
    ensures { IfOk result (λ read. read ≡ negative_read bytes.now) }
{
    let mut text = Bytes::with_capacity(alloc, LONGEST_NUMERAL)?;
    let found = push_negative(bytes, &mut text)?;
    Ok(if found { Some(text) } else { None })
}

/// The own bytes of a subscript from its encoded form without the last byte: of a number its numeral.
fn sub(alloc: Global, bytes: &[u8]) -> Result<Option<Bytes>, NoMemory>
    ensures { IfOk result (λ read. read ≡ sub_read bytes.now) }
{
    match bytes {
        [] => Ok(Some(Bytes::of(alloc, b"0")?)),
        [4, string @ ..] => Ok(Some(unescaped(alloc, string)?)),
        [3, rest @ ..] => positive(alloc, rest),
        [1, rest @ ..] => negative(alloc, rest),
        _ => Ok(None),
    }
}

/// The own bytes of each subscript.
pub fn subs(alloc: Global, bytes: &[u8]) -> Result<Option<Vec<Bytes>>, NoMemory>
    ensures { IfOk result (λ read. ReadsSubs bytes.now (option_map (λ texts. texts.items) read)) }
{
    let mut subs = Vec::new(alloc);
    let mut rest = bytes;
    while !rest.is_empty() {
        let Some(last) = sub_end(rest) else {
            return Ok(None);
        };
        let Some(text) = sub(alloc, &rest[..last])? else {
            return Ok(None);
        };
        subs.push(text)?;
        rest = &rest[last + 1..];
    }
    Ok(Some(subs))
}

/// The own bytes of the first subscript, `None` where there is none.
pub fn first_sub(alloc: Global, bytes: &[u8]) -> Result<Option<Bytes>, NoMemory>
    ensures { IfOk result (λ read. read ≡ first_read (sub_end bytes.now) bytes.now) }
{
    match sub_end(bytes) {
        Some(last) => sub(alloc, &bytes[..last]),
        None => Ok(None),
    }
}

/// How many subscripts these bytes have.
pub fn depth(bytes: &[u8]) -> usize
    ensures { (subs : List Sub) → list_all is_sub subs ≡ true → flat_map encoded_sub subs ≡ bytes.now → result ≡ length subs }
{
    let mut count = 0;
    let mut rest = bytes;
    while let Some(last) = sub_end(rest) {
        rest = &rest[last + 1..];
        count += 1;
    }
    count
}

/// The bytes of the subscripts behind the first so many.
pub fn behind(bytes: &[u8], count: usize) -> &[u8]
    ensures { (subs : List Sub) → list_all is_sub subs ≡ true → flat_map encoded_sub subs ≡ bytes.now → result.now ≡ flat_map encoded_sub (drop count subs) }
{
    let mut rest = bytes;
    for _i in 0..count {
        let Some(last) = sub_end(rest) else {
            return rest;
        };
        rest = &rest[last + 1..];
    }
    rest
}
