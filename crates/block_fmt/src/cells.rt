//! Cells as bytes, one behind another.
ghost use Rattle.std.specs.Prelude.{◌≡◌, ◌≤◌, ◌+◌, ◌-◌, ◌++◌, length, take, drop, vec_len, vec_capacity};
ghost use Rattle.global_defs.specs.declared.limits.TheConstants.{LONGEST_KEY, LONGEST_VALUE};
ghost use Rattle.journal_defs.specs.Leaves.{spelled_cell};
ghost use Rattle.block_fmt.specs.Read.{first_cell, written, BeginWithCell};

use crate::bytes::{number_at, push_all, write_at};

/// Half of the bytes that a block has for cells. Two small buffers are made faster than a large one.
const HALF: usize = 2044;

/// The key of the cell that stands at a place.
pub fn key_at(bytes: &[u8], at: usize) -> &[u8]
    requires { BeginWithCell (drop at bytes.now) }
    ensures { result.now ≡ (first_cell (drop at bytes.now)).0 }
{
    let from = at + 1;
    &bytes[from..from + usize::from(bytes[at])]
}

/// The value of the cell that stands at a place.
pub fn value_at(bytes: &[u8], at: usize) -> &[u8]
    requires { BeginWithCell (drop at bytes.now) }
    ensures { result.now ≡ (first_cell (drop at bytes.now)).1 }
{
    let from = at + 1 + usize::from(bytes[at]);
    &bytes[from + 2..from + 2 + number_at(bytes, from)]
}

/// Adds a cell's bytes.
fn push_cell(bytes: &mut Vec<u8>, key: &[u8], value: &[u8])
    requires key { length key.now ≤ LONGEST_KEY }
    requires value { length value.now ≤ LONGEST_VALUE }
    requires room { vec_len bytes.old + length (spelled_cell (key.now, value.now)) ≤ vec_capacity bytes.old }
    ensures items { bytes.new.items ≡ bytes.old.items ++ spelled_cell (key.now, value.now) }
    ensures capacity { vec_capacity bytes.old ≤ vec_capacity bytes.new }
{
    push_all(bytes, &[key.len() as u8]);
    push_all(bytes, key);
    push_all(bytes, &(value.len() as u16).to_be_bytes());
    push_all(bytes, value);
}

/// Writes a cell over as many bytes at a place.
fn put_over(bytes: &mut Vec<u8>, at: usize, key: &[u8], value: &[u8])
    requires key { length key.now ≤ LONGEST_KEY }
    requires value { length value.now ≤ LONGEST_VALUE }
    requires inside { at + length (spelled_cell (key.now, value.now)) ≤ vec_len bytes.old }
    ensures items { bytes.new.items ≡ written bytes.old.items at (spelled_cell (key.now, value.now)) }
    ensures capacity { vec_capacity bytes.old ≤ vec_capacity bytes.new }
{
    write_at(bytes, at, &[key.len() as u8]);
    write_at(bytes, at + 1, key);
    write_at(
        bytes,
        at + 1 + key.len(),
        &(value.len() as u16).to_be_bytes(),
    );
    write_at(bytes, at + 1 + key.len() + 2, value);
}

/// Writes the bytes between two places to the front of a buffer.
fn keep_part(out: &mut [u8], bytes: &[u8], from: usize, to: usize)
    requires order { from ≤ to }
    requires inside { to ≤ length bytes.now }
    requires room { to - from ≤ length out.old }
    ensures { take (to - from) out.new ≡ take (to - from) (drop from bytes.now) }
{
    out[..to - from].copy_from_slice(&bytes[from..to]);
}

/// Puts a cell in place of the bytes between two places, and moves those behind.
fn put_moving(bytes: &mut Vec<u8>, from: usize, to: usize, key: &[u8], value: &[u8])
    requires order { from ≤ to }
    requires inside { to ≤ vec_len bytes.old }
    requires small { vec_len bytes.old ≤ 4088 }
    requires key { length key.now ≤ LONGEST_KEY }
    requires value { length value.now ≤ LONGEST_VALUE }
    requires room { vec_len bytes.old + length (spelled_cell (key.now, value.now)) ≤ vec_capacity bytes.old + (to - from) }
    ensures items { bytes.new.items ≡ take from bytes.old.items ++ (spelled_cell (key.now, value.now) ++ drop to bytes.old.items) }
    ensures capacity { vec_capacity bytes.old ≤ vec_capacity bytes.new }
{
    let mut near = [0; HALF];
    let mut far = [0; HALF];
    let end = bytes.len();
    let middle = end.min(to + HALF);
    keep_part(&mut near, bytes, to, middle);
    keep_part(&mut far, bytes, middle, end);
    bytes.truncate(from);
    push_cell(bytes, key, value);
    push_all(bytes, &near[..middle - to]);
    push_all(bytes, &far[..end - middle]);
}

/// Puts a cell in place of the bytes between two places.
pub fn put_between(bytes: &mut Vec<u8>, from: usize, to: usize, key: &[u8], value: &[u8])
    requires order { from ≤ to }
    requires inside { to ≤ vec_len bytes.old }
    requires small { vec_len bytes.old ≤ 4088 }
    requires key { length key.now ≤ LONGEST_KEY }
    requires value { length value.now ≤ LONGEST_VALUE }
    requires room { vec_len bytes.old + length (spelled_cell (key.now, value.now)) ≤ vec_capacity bytes.old + (to - from) }
    ensures items { bytes.new.items ≡ take from bytes.old.items ++ (spelled_cell (key.now, value.now) ++ drop to bytes.old.items) }
    ensures capacity { vec_capacity bytes.old ≤ vec_capacity bytes.new }
{
    if to - from == key.len() + value.len() + 3 {
        put_over(bytes, from, key, value);
    } else {
        put_moving(bytes, from, to, key, value);
    }
}

/// Takes the bytes between two places away.
pub fn cut_between(bytes: &mut Vec<u8>, from: usize, to: usize)
    requires order { from ≤ to }
    requires inside { to ≤ vec_len bytes.old }
    requires small { vec_len bytes.old ≤ 4088 }
    ensures items { bytes.new.items ≡ take from bytes.old.items ++ drop to bytes.old.items }
    ensures capacity { vec_capacity bytes.old ≤ vec_capacity bytes.new }
{
    let mut near = [0; HALF];
    let mut far = [0; HALF];
    let end = bytes.len();
    let middle = end.min(to + HALF);
    keep_part(&mut near, bytes, to, middle);
    keep_part(&mut far, bytes, middle, end);
    bytes.truncate(from);
    push_all(bytes, &near[..middle - to]);
    push_all(bytes, &far[..end - middle]);
}
