// What a ring carries.
ghost use Rattle.std.specs.Prelude.{◌≡◌, ◌≤◌, ℕ, length, take, map, nat_lt, false};
ghost use Rattle.repl_link.specs.Items.{Byte, End, bytes_of, has_end, is_end, EndsLast, AreBefore};

use rtrb::Protocol;
use std::alloc::Global;
use std::marker::Model;

// The number of the mark behind the last byte.
const END: u16 = 256;

/// One place of a ring: a byte, or the mark behind the last byte. It is one number, so that many are copied at once.
#[derive(Clone, Copy)]
pub struct Item {
    code: u16,
}

impl Model for Item {
    ghost use Rattle.std.specs.Prelude.{◌≤◌};
    ghost use Rattle.std.proofs.Common.{ap};
    ghost use Rattle.repl_link.specs.Items.{Symbol, symbol_of, code_of};
    ghost use Rattle.repl_link.specs.EndLaws.{code_of_symbol};

    ghost Value = { Symbol };

    ghost view = { λ i. symbol_of i.code };

    ghost invariant = { λ i. i.code ≤ 256 };

    ghost inverse = { λ s. record { code = code_of s } };

    ghost inverse_ok = { λ a h. ap (λ n. record { code = n }) (code_of_symbol a.code h) };
}

impl Item {
    // The mark behind the last byte.
    pub(crate) fn end() -> Self
        ensures { result ≡ End }
    {
        Item { code: END }
    }

    fn of(byte: u8) -> Self
        ensures { result ≡ Byte byte }
    {
        Item { code: byte as u16 }
    }

    fn is_end(self) -> bool
        ensures { result ≡ is_end self }
    {
        END <= self.code
    }

    // The byte, where it is one.
    fn byte(self) -> u8
        requires { is_end self ≡ false }
        ensures { self ≡ Byte result }
    {
        (self.code & 0xff) as u8
    }
}

/// Behind the mark of the end nothing is put into a ring.
pub struct MarkLast;

impl Protocol<Item> for MarkLast {
    ghost use Rattle.std.specs.Prelude.{◌≡◌, false};
    ghost use Rattle.repl_link.specs.Items.{has_end};

    ghost allows = { λ before _. has_end before ≡ false };
}

/// What tells the ring of one direction from all others, as contracts see it. No value of it is made.
pub struct Line {
    pub(crate) words: *mut u64,
    pub(crate) slots: *mut Item,
    pub(crate) names: (u64, (u64, u64)),
    pub(crate) heap: Global,
}

// Writes bytes to the front of the items.
pub(crate) fn fill(items: &mut [Item], bytes: &[u8])
    requires { length bytes.now ≤ length items.old }
    ensures { take (length bytes.now) items.new ≡ map Byte bytes.now }
{
    for i in 0..bytes.len() {
        items[i] = Item::of(bytes[i]);
    }
}

// How many items stand in front of the mark of the end, which is the last of them where it is among them.
fn before_mark(items: &[Item]) -> usize
    requires { EndsLast items.now }
    ensures most { result ≤ length items.now }
    ensures before { AreBefore items.now result }
{
    let count = items.len();
    if count == 0 {
        return 0;
    }
    let last = count - 1;
    if items[last].is_end() {
        return last;
    }
    count
}

// Copies the bytes of items of which none is the mark.
fn copy_all(items: &[Item], buffer: &mut [u8])
    requires fits { length items.now ≤ length buffer.old }
    requires plain { has_end items.now ≡ false }
    ensures { take (length items.now) items.now ≡ map Byte (take (length items.now) buffer.new) }
{
    for i in 0..items.len() {
        buffer[i] = items[i].byte();
    }
}

// Copies the bytes in front of the end, and answers how many there are.
pub(crate) fn copy_bytes(items: &[Item], buffer: &mut [u8]) -> usize
    requires fits { length items.now ≤ length buffer.old }
    requires last { EndsLast items.now }
    ensures bytes { take result buffer.new ≡ bytes_of items.now }
    ensures count { result ≡ length (bytes_of items.now) }
    ensures most { result ≤ length items.now }
    ensures end { has_end items.now ≡ nat_lt result (length items.now) }
{
    let count = before_mark(items);
    copy_all(&items[..count], buffer);
    count
}
