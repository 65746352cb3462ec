//! Bytes compared some at a time.
ghost use Rattle.std.specs.Prelude.{◌≡◌, ◌≤◌, length, take};
ghost use Rattle.std.specs.Bool.{OnTrue};

use crate::words::{half_at, word_at};

/// How many bytes are compared at once.
const WORD: usize = 8;

/// How many of a shorter front.
const HALF: usize = 4;

/// Whether the first eight bytes and more of two are the same.
fn is_same_long(one: &[u8], other: &[u8], n: usize) -> bool
    requires long { 8 ≤ n }
    requires one { n ≤ length one.now }
    requires other { n ≤ length other.now }
    ensures { OnTrue result (take n one.now ≡ take n other.now) }
{
    for i in 0..(n - 1) / WORD {
        if word_at(one, i * WORD) != word_at(other, i * WORD) {
            return false;
        }
    }
    word_at(one, n - WORD) == word_at(other, n - WORD)
}

/// Whether the first four to eight bytes of two are the same.
fn is_same_short(one: &[u8], other: &[u8], n: usize) -> bool
    requires long { 4 ≤ n }
    requires short { n ≤ 8 }
    requires one { n ≤ length one.now }
    requires other { n ≤ length other.now }
    ensures { OnTrue result (take n one.now ≡ take n other.now) }
{
    if half_at(one, 0) != half_at(other, 0) {
        return false;
    }
    half_at(one, n - HALF) == half_at(other, n - HALF)
}

/// Whether the first so many bytes of two are the same.
pub fn is_same_front(one: &[u8], other: &[u8], n: usize) -> bool
    requires one { n ≤ length one.now }
    requires other { n ≤ length other.now }
    ensures { OnTrue result (take n one.now ≡ take n other.now) }
{
    if n < HALF {
        one[..n] == other[..n]
    } else if n < WORD {
        is_same_short(one, other, n)
    } else {
        is_same_long(one, other, n)
    }
}
