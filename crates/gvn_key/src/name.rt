//! The name that a key's bytes begin with.
ghost use Rattle.std.specs.Prelude.{◌≡◌, ◌<◌, ◌==◌, ◌||◌, length, IfSome};
ghost use Rattle.std.specs.Char.{is_ascii_alphabetic};
ghost use Rattle.gvn_key.specs.Plain.{BeginWithName};

use crate::places::other;

/// How many characters a name may have behind its first one.
const MOST_OTHERS: usize = 30;

/// Whether names begin with this byte: a percent sign or a letter.
fn begins_name(byte: u8) -> bool
    ensures { result ≡ (byte == 37 || is_ascii_alphabetic byte) }
{
    byte == b'%' || byte.is_ascii_alphabetic()
}

/// The length of the name that these bytes begin with, and that a 0 ends. `None` where they begin with none.
pub fn name_len(bytes: &[u8]) -> Option<usize>
    ensures name { IfSome result (λ n. BeginWithName n bytes.now) }
    ensures inside { IfSome result (λ n. n < length bytes.now) }
{
    match bytes {
        [] => None,
        [first, rest @ ..] => {
            let others = other(rest)?;
            if begins_name(*first) && others <= MOST_OTHERS && rest[others] == 0 {
                Some(others + 1)
            } else {
                None
            }
        }
    }
}
