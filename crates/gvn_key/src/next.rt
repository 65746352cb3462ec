//! Keys read one behind another. Most differ from the one before in their last subscript alone, or in its last character.
ghost use Rattle.std.specs.Prelude.{◌≡◌, ◌≤◌, ◌<◌, ◌↔◌, length, IfSome, IfNone, IsTrue};
ghost use Rattle.std.specs.Bool.{OnTrue};
ghost use Rattle.std.specs.declared.cmp.Ordering.TheVariants.{Less};
ghost use Rattle.std.specs.Ordering.{nat_cmp};
ghost use Rattle.std.specs.Cmp.Lexicographic.{slice_cmp};
ghost use Rattle.gvn_key.specs.Decoding.{IsCode};
ghost use Rattle.gvn_key.specs.Next.{Tells, Follows};
ghost use Rattle.gvn_key.specs.Plain.{BeginWithName};

use crate::name::name_len;
use crate::parts::is_code;
use crate::plain::read_sub;
use crate::told::Seen;
use global_defs::limits::{LONGEST_KEY, MOST_SUBS};
use std::cmp::Ordering;

/// What a key's bytes tell whose subscripts stand from a place on, if these are 0, positive whole numbers and plain strings.
#[inline(always)]
fn plain_subs(bytes: &[u8], end: usize) -> Option<Seen>
    requires name { BeginWithName end bytes.now }
    requires short { length bytes.now ≤ LONGEST_KEY }
    requires inside { end < length bytes.now }
    ensures code { IfSome result (λ seen. IsCode bytes.now) }
    ensures tells { IfSome result (λ seen. Tells seen bytes.now) }
{
    let mut at = end + 1;
    let mut seen = Seen::nothing();
    for _ in 0..MOST_SUBS {
        let Some(sub) = read_sub(&bytes[at..]) else {
            break;
        };
        seen = sub.seen().behind(at);
        at += sub.size();
    }
    if at == bytes.len() { Some(seen) } else { None }
}

/// What a key's bytes tell, if its subscripts are 0, positive whole numbers and plain strings.
#[inline(always)]
fn plain_key(bytes: &[u8]) -> Option<Seen>
    ensures code { IfSome result (λ seen. IsCode bytes.now) }
    ensures tells { IfSome result (λ seen. Tells seen bytes.now) }
{
    let end = name_len(bytes)?;
    if bytes.len() > LONGEST_KEY {
        return None;
    }
    plain_subs(bytes, end)
}

/// Whether these bytes are the encoded form of a key. What they tell of the key behind it is then known in place of what was.
pub fn first_key(seen: &mut Seen, bytes: &[u8]) -> bool
    ensures code { IsTrue result ↔ IsCode bytes.now }
    ensures tells { OnTrue result (Tells seen.new bytes.now) }
{
    match plain_key(bytes) {
        Some(told) => {
            *seen = told;
            true
        }
        None => {
            *seen = Seen::nothing();
            is_code(bytes)
        }
    }
}

/// Whether these bytes are the encoded form of a key.
#[inline(never)]
pub fn is_key(bytes: &[u8]) -> bool
    ensures { IsTrue result ↔ IsCode bytes.now }
{
    match plain_key(bytes) {
        Some(_) => true,
        None => is_code(bytes),
    }
}

/// Whether these bytes are those of a key that is past another, of which it is known what its bytes tell. What these tell is then known
/// in place of that.
pub fn next_key(last: &[u8], seen: &mut Seen, next: &[u8]) -> bool
    requires { Tells seen.old last.now }
    ensures follows { IsTrue result ↔ Follows last.now next.now }
    ensures tells { OnTrue result (Tells seen.new next.now) }
{
    if seen.ends_alike(last, next) {
        return true;
    }
    if last.cmp(next) != Ordering::Less {
        return false;
    }
    first_key(seen, next)
}
