//! Bytes compared some at a time.
ghost use Rattle.std.specs.Prelude.{◌≡◌, ◌≤◌, ◌+◌, length, min, take, drop};
ghost use Rattle.std.specs.Int.{from_be_bytes, w32, w64};
ghost use Rattle.std.specs.Ordering.{nat_cmp};
ghost use Rattle.std.specs.Cmp.Lexicographic.{slice_cmp};

use std::cmp::Ordering;

/// How many bytes are compared at once.
const WORD: usize = 8;

/// How many of shorter lists.
const HALF: usize = 4;

/// The number that eight bytes spell.
pub fn word_at(bytes: &[u8], at: usize) -> u64
    requires { at + 8 ≤ length bytes.now }
    ensures { result ≡ from_be_bytes w64 (take 8 (drop at bytes.now)) }
{
    u64::from_be_bytes([
        bytes[at],
        bytes[at + 1],
        bytes[at + 2],
        bytes[at + 3],
        bytes[at + 4],
        bytes[at + 5],
        bytes[at + 6],
        bytes[at + 7],
    ])
}

/// The number that four bytes spell.
pub fn half_at(bytes: &[u8], at: usize) -> u32
    requires { at + 4 ≤ length bytes.now }
    ensures { result ≡ from_be_bytes w32 (take 4 (drop at bytes.now)) }
{
    u32::from_be_bytes([bytes[at], bytes[at + 1], bytes[at + 2], bytes[at + 3]])
}

/// How two lists of eight bytes and more compare, of which the shorter has so many. The last word may stand over the one before.
fn compare_long(one: &[u8], other: &[u8], n: usize) -> Ordering
    requires long { 8 ≤ n }
    requires all { n ≡ min (length one.now) (length other.now) }
    ensures { result ≡ slice_cmp nat_cmp one.now other.now }
{
    for i in 0..(n - 1) / WORD {
        let left = word_at(one, i * WORD);
        let right = word_at(other, i * WORD);
        if left != right {
            return left.cmp(&right);
        }
    }
    let left = word_at(one, n - WORD);
    let right = word_at(other, n - WORD);
    if left != right {
        return left.cmp(&right);
    }
    one.len().cmp(&other.len())
}

/// How two lists compare, of which the shorter has four to eight bytes.
fn compare_short(one: &[u8], other: &[u8], n: usize) -> Ordering
    requires long { 4 ≤ n }
    requires short { n ≤ 8 }
    requires all { n ≡ min (length one.now) (length other.now) }
    ensures { result ≡ slice_cmp nat_cmp one.now other.now }
{
    let left = half_at(one, 0);
    let right = half_at(other, 0);
    if left != right {
        return left.cmp(&right);
    }
    let left = half_at(one, n - HALF);
    let right = half_at(other, n - HALF);
    if left != right {
        return left.cmp(&right);
    }
    one.len().cmp(&other.len())
}

/// How two lists of bytes compare: byte by byte, a prefix first.
pub fn compare_bytes(one: &[u8], other: &[u8]) -> Ordering
    ensures { result ≡ slice_cmp nat_cmp one.now other.now }
{
    let n = one.len().min(other.len());
    if n < HALF {
        one.cmp(other)
    } else if n < WORD {
        compare_short(one, other, n)
    } else {
        compare_long(one, other, n)
    }
}
