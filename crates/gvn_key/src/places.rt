//! Where the first byte of a kind stands. Eight are looked at at once where there are so many.
ghost use Rattle.std.specs.Prelude.{◌≡◌, ◌+◌, ◌<◌, ◌≤◌, length, not, nat_lt, position, IfSome};
ghost use Rattle.std.specs.Char.{is_ascii_alphanumeric, is_ascii_digit};
ghost use Rattle.gvn_key.specs.Places.{IsFirstIn, AllFail, first_set};

use std::simd::prelude::*;

/// How many bytes are looked at at once.
const LANES: usize = 8;

/// How many where there are fewer.
const HALF: usize = 4;

/// The place of a mask's lowest bit, or how many lanes it has where none is set.
#[inline(always)]
fn first_set(mask: u64, lanes: usize) -> usize
    ensures { result ≡ first_set mask lanes }
{
    if mask == 0 {
        lanes
    } else {
        mask.trailing_zeros() as usize
    }
}

/// How many letters and digits stand before the first other byte of eight from a place on.
#[inline(always)]
fn letters_run(bytes: &[u8], at: usize) -> usize
    requires { at + 8 ≤ length bytes.now }
    ensures { IsFirstIn (λ b. not (is_ascii_alphanumeric b)) bytes.now at 8 result }
{
    let v = u8x8::from_slice(&bytes[at..]);
    let from_a = (v | u8x8::splat(0x20)) - u8x8::splat(b'a');
    let from_0 = v - u8x8::splat(b'0');
    let others = from_a.simd_ge(u8x8::splat(26)) & from_0.simd_ge(u8x8::splat(10));
    first_set(others.to_bitmask(), LANES)
}

/// The same of digits.
#[inline(always)]
fn digits_run(bytes: &[u8], at: usize) -> usize
    requires { at + 8 ≤ length bytes.now }
    ensures { IsFirstIn (λ b. not (is_ascii_digit b)) bytes.now at 8 result }
{
    let from_0 = u8x8::from_slice(&bytes[at..]) - u8x8::splat(b'0');
    first_set(from_0.simd_ge(u8x8::splat(10)).to_bitmask(), LANES)
}

/// The same of digits and four bytes.
#[inline(always)]
fn digits_half(bytes: &[u8], at: usize) -> usize
    requires { at + 4 ≤ length bytes.now }
    ensures { IsFirstIn (λ b. not (is_ascii_digit b)) bytes.now at 4 result }
{
    let from_0 = u8x4::from_slice(&bytes[at..]) - u8x4::splat(b'0');
    first_set(from_0.simd_ge(u8x4::splat(10)).to_bitmask(), HALF)
}

/// The same of bytes that end no string and begin no escape.
#[inline(always)]
fn text_run(bytes: &[u8], at: usize) -> usize
    requires { at + 8 ≤ length bytes.now }
    ensures { IsFirstIn (λ b. nat_lt b 2) bytes.now at 8 result }
{
    let v = u8x8::from_slice(&bytes[at..]);
    first_set(v.simd_lt(u8x8::splat(2)).to_bitmask(), LANES)
}

/// The same of four bytes.
#[inline(always)]
fn text_half(bytes: &[u8], at: usize) -> usize
    requires { at + 4 ≤ length bytes.now }
    ensures { IsFirstIn (λ b. nat_lt b 2) bytes.now at 4 result }
{
    let v = u8x4::from_slice(&bytes[at..]);
    first_set(v.simd_lt(u8x4::splat(2)).to_bitmask(), HALF)
}

/// Where the first byte stands that is no letter and no digit.
pub fn other(bytes: &[u8]) -> Option<usize>
    ensures place { result ≡ position (λ b. not (is_ascii_alphanumeric b)) bytes.now }
    ensures within { IfSome result (λ i. i < length bytes.now) }
{
    let mut at = 0;
    while bytes.len() - at >= LANES {
        let run = letters_run(bytes, at);
        if run < LANES {
            return Some(at + run);
        }
        at += LANES;
    }
    while at < bytes.len() {
        if !bytes[at].is_ascii_alphanumeric() {
            return Some(at);
        }
        at += 1;
    }
    None
}

/// Where the first byte stands that is no digit, of those from a place on.
#[inline(always)]
fn digits_tail(bytes: &[u8], from: usize) -> Option<usize>
    requires inside { from ≤ length bytes.now }
    requires before { AllFail (λ b. not (is_ascii_digit b)) bytes.now 0 from }
    ensures place { result ≡ position (λ b. not (is_ascii_digit b)) bytes.now }
    ensures within { IfSome result (λ i. i < length bytes.now) }
{
    let mut at = from;
    while at < bytes.len() {
        if !bytes[at].is_ascii_digit() {
            return Some(at);
        }
        at += 1;
    }
    None
}

/// Where the first byte stands that is no digit.
pub fn digits_end(bytes: &[u8]) -> Option<usize>
    ensures place { result ≡ position (λ b. not (is_ascii_digit b)) bytes.now }
    ensures within { IfSome result (λ i. i < length bytes.now) }
{
    let mut at = 0;
    while bytes.len() - at >= LANES {
        let run = digits_run(bytes, at);
        if run < LANES {
            return Some(at + run);
        }
        at += LANES;
    }
    if bytes.len() - at < HALF {
        return digits_tail(bytes, at);
    }
    let run = digits_half(bytes, at);
    if run < HALF {
        return Some(at + run);
    }
    digits_tail(bytes, at + HALF)
}

/// Where the first byte stands that ends a string or begins an escape, of those from a place on.
#[inline(always)]
fn text_tail(bytes: &[u8], from: usize) -> Option<usize>
    requires inside { from ≤ length bytes.now }
    requires before { AllFail (λ b. nat_lt b 2) bytes.now 0 from }
    ensures place { result ≡ position (λ b. nat_lt b 2) bytes.now }
    ensures within { IfSome result (λ i. i < length bytes.now) }
{
    let mut at = from;
    while at < bytes.len() {
        if bytes[at] < 2 {
            return Some(at);
        }
        at += 1;
    }
    None
}

/// Where the first byte stands that ends a string or begins an escape.
pub fn text_end(bytes: &[u8]) -> Option<usize>
    ensures place { result ≡ position (λ b. nat_lt b 2) bytes.now }
    ensures within { IfSome result (λ i. i < length bytes.now) }
{
    let mut at = 0;
    while bytes.len() - at >= LANES {
        let run = text_run(bytes, at);
        if run < LANES {
            return Some(at + run);
        }
        at += LANES;
    }
    if bytes.len() - at < HALF {
        return text_tail(bytes, at);
    }
    let run = text_half(bytes, at);
    if run < HALF {
        return Some(at + run);
    }
    text_tail(bytes, at + HALF)
}
