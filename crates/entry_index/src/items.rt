//! Items that are passed over, but for their positions.
ghost use Rattle.std.specs.Prelude.{◌≡◌, ◌+◌, ◌<◌, ◌^◌, ◌++◌, ◌∷◌, [], List, length};
ghost use Rattle.std.specs.Option.{option_map};
ghost use Rattle.journal_defs.specs.Journal.{Item};
ghost use Rattle.entry_index.specs.Fields.{Sees, item, items};
ghost use Rattle.entry_index.specs.RecordSigns.{span_of};

use crate::sign::Span;
use crate::updates::past_update;
use repl_fields::{read_u8, read_u16};

/// How the positions lie of items and one more behind them.
fn with_one_more(span: Span, position: u16) -> Span
    requires { span.many + 1 < 2 ^ 16 }
    ensures { (list : List Item) (i : Item) → i.position ≡ position → span ≡ span_of list → result ≡ span_of (list ++ i ∷ []) }
{
    if span.many == 0 {
        return Span {
            first: position,
            many: 1,
            in_a_row: true,
        };
    }
    let next = u32::from(span.first) + u32::from(span.many);
    Span {
        first: span.first,
        many: span.many + 1,
        in_a_row: span.in_a_row && u32::from(position) == next,
    }
}

/// The position of an item of a transaction of `count` updates, from `low` on, and what follows the item.
#[inline(always)]
fn read_item(low: u16, count: u16, bytes: &[u8]) -> Option<(u16, &[u8])>
    ensures { Sees (item low count) (λ i. i.position) bytes.now (option_map (λ p. (p.0, p.1.now)) result) }
{
    let Some((4, rest)) = read_u8(bytes) else {
        return None;
    };
    let Some((position, rest)) = read_u16(rest) else {
        return None;
    };
    if position < low || count <= position {
        return None;
    }
    match past_update(rest) {
        None => None,
        Some(others) => Some((position, others)),
    }
}

/// How the positions lie of so many items of a transaction of `count` updates, which rise, and what follows the items.
#[inline(always)]
pub fn read_items(n: u16, count: u16, bytes: &[u8]) -> Option<(Span, &[u8])>
    ensures { Sees (items 0 n count) span_of bytes.now (option_map (λ p. (p.0, p.1.now)) result) }
{
    let mut span = Span {
        first: 0,
        many: 0,
        in_a_row: true,
    };
    let mut low = 0;
    let mut rest = bytes;
    for _ in 0..n {
        let (position, others) = read_item(low, count, rest)?;
        span = with_one_more(span, position);
        low = position + 1;
        rest = others;
    }
    Some((span, rest))
}
