//! Keys of the commonest forms. Other keys are told byte by byte.
ghost use Rattle.std.specs.Prelude.{◌≡◌, ◌+◌, ◌-◌, ◌∷◌, ◌<◌, ◌≤◌, length, slice_index, IfSome};
ghost use Rattle.gvn_key.specs.Plain.{BeginWithText, BeginWithWhole, BeginWithSub, HasText, is_whole_number, begins_numeral};

use crate::places::{digits_end, text_end};
use crate::told::Seen;
use global_defs::limits::LONGEST_KEY;

/// The byte of the exponent of a whole number with no digit.
const EXPONENT: usize = 64;

/// The same of a whole number with 18 digits.
const LAST_EXPONENT: u8 = 82;

/// Whether these are the digits of a whole number with this exponent's byte, up to the last that isn't 0.
fn is_whole_number(exponent: u8, digits: &[u8]) -> bool
    ensures { result ≡ is_whole_number exponent digits.now }
{
    match digits {
        [] => false,
        [first, ..] => {
            *first != b'0'
                && digits[digits.len() - 1] != b'0'
                && EXPONENT + digits.len() <= usize::from(exponent)
                && exponent <= LAST_EXPONENT
        }
    }
}

/// How many bytes a positive whole number has that begins here, behind the byte of its kind.
#[inline(always)]
fn whole_size(bytes: &[u8]) -> Option<usize>
    ensures whole { IfSome result (λ n. BeginWithWhole n bytes.now) }
    ensures some { IfSome result (λ n. 0 < length bytes.now) }
    ensures text { IfSome result (λ n. HasText 2 49 57 (slice_index bytes.now 0 - 64) (n + 1) (3 ∷ bytes.now)) }
    ensures inside { IfSome result (λ n. n ≤ length bytes.now) }
{
    match bytes {
        [] => None,
        [exponent, rest @ ..] => {
            let end = digits_end(rest)?;
            if rest[end] == 0 && is_whole_number(*exponent, &rest[..end]) {
                Some(end + 2)
            } else {
                None
            }
        }
    }
}

/// Whether numerals begin with this byte.
fn begins_numeral(byte: u8) -> bool
    ensures { result ≡ begins_numeral byte }
{
    byte.is_ascii_digit() || byte == b'-' || byte == b'.'
}

/// How many bytes a string has that begins here, behind the byte of its kind, where it has no escapes and begins as no numeral.
fn text_size(bytes: &[u8]) -> Option<usize>
    ensures text { IfSome result (λ n. BeginWithText n bytes.now) }
    ensures any { IfSome result (λ n. HasText 1 3 255 255 (n + 1) (4 ∷ bytes.now)) }
    ensures inside { IfSome result (λ n. n ≤ length bytes.now) }
{
    let end = text_end(bytes)?;
    if bytes[end] == 0 && end > 0 && !begins_numeral(bytes[0]) {
        Some(end + 1)
    } else {
        None
    }
}

/// A subscript that bytes begin with: how many bytes it has, and what is told of its text.
#[derive(Clone, Copy, Debug)]
pub struct Plain {
    size: usize,
    seen: Seen,
}

impl Plain {
    /// How many bytes it has.
    pub fn size(self) -> usize
        ensures { result ≡ self.size }
    {
        self.size
    }

    /// What is told of its text.
    pub fn seen(self) -> Seen
        ensures { result ≡ self.seen }
    {
        self.seen
    }
}

/// The positive whole number that these bytes are behind the byte of its kind.
#[inline(always)]
fn whole_behind(bytes: &[u8]) -> Option<Plain>
    ensures sub { IfSome result (λ p. BeginWithSub p.size (3 ∷ bytes.now)) }
    ensures text { IfSome result (λ p. HasText p.seen.from p.seen.low p.seen.most p.seen.longest p.size (3 ∷ bytes.now)) }
    ensures from { IfSome result (λ p. p.seen.from ≤ 2) }
    ensures inside { IfSome result (λ p. p.size ≤ length bytes.now + 1) }
{
    let size = whole_size(bytes)?;
    let longest = usize::from(bytes[0]).saturating_sub(EXPONENT);
    Some(Plain {
        size: size + 1,
        seen: Seen::text(2, longest, b'1', b'9'),
    })
}

/// The string that these bytes are behind the byte of its kind. Its last character may be any past 2.
#[inline(always)]
fn text_behind(bytes: &[u8]) -> Option<Plain>
    ensures sub { IfSome result (λ p. BeginWithSub p.size (4 ∷ bytes.now)) }
    ensures text { IfSome result (λ p. HasText p.seen.from p.seen.low p.seen.most p.seen.longest p.size (4 ∷ bytes.now)) }
    ensures from { IfSome result (λ p. p.seen.from ≤ 2) }
    ensures inside { IfSome result (λ p. p.size ≤ length bytes.now + 1) }
{
    let size = text_size(bytes)?;
    Some(Plain {
        size: size + 1,
        seen: Seen::text(1, LONGEST_KEY, 3, u8::MAX),
    })
}

/// The subscript whose first byte is of this kind, behind which these stand.
#[inline(always)]
fn sub_behind(kind: u8, bytes: &[u8]) -> Option<Plain>
    ensures sub { IfSome result (λ p. BeginWithSub p.size (kind ∷ bytes.now)) }
    ensures text { IfSome result (λ p. 0 < p.seen.longest → HasText p.seen.from p.seen.low p.seen.most p.seen.longest p.size (kind ∷ bytes.now)) }
    ensures from { IfSome result (λ p. p.seen.from ≤ 2) }
    ensures inside { IfSome result (λ p. p.size ≤ length bytes.now + 1) }
{
    match kind {
        2 => Some(Plain {
            size: 1,
            seen: Seen::nothing(),
        }),
        3 => whole_behind(bytes),
        4 => text_behind(bytes),
        _ => None,
    }
}

/// The subscript that these bytes begin with, where it is 0, a positive whole number or a plain string.
#[inline(always)]
pub fn read_sub(bytes: &[u8]) -> Option<Plain>
    ensures sub { IfSome result (λ p. BeginWithSub p.size bytes.now) }
    ensures text { IfSome result (λ p. 0 < p.seen.longest → HasText p.seen.from p.seen.low p.seen.most p.seen.longest p.size bytes.now) }
    ensures from { IfSome result (λ p. p.seen.from ≤ 2) }
    ensures inside { IfSome result (λ p. p.size ≤ length bytes.now) }
{
    match bytes {
        [] => None,
        [kind, rest @ ..] => sub_behind(*kind, rest),
    }
}
