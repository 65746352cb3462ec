//! Texts cut at a byte, and the numbers and names in them.
ghost use Rattle.std.specs.Prelude.{◌≡◌, ◌≢◌, ◌<◌, ◌^◌, ◌==◌, ◌++◌, ◌∷◌, ◌⊎◌, ℕ, List, false, length, get_or, decimal, position, MatchBool, MatchOption, IfSome};
ghost use Rattle.std.specs.List.{list_all, list_any};
ghost use Rattle.std.specs.Char.{is_ascii_alphanumeric};
ghost use Rattle.jnl_extract.specs.Lines.{is_site_name};

use global_defs::limits::LONGEST_SITE_NAME;

/// Where the first such byte is.
fn place_of(text: &[u8], byte: u8) -> Option<usize>
    ensures place { result ≡ position (λ b. b == byte) text.now }
    ensures within { IfSome result (λ i. i < length text.now) }
{
    text.iter().position(|b| *b == byte)
}

/// What stands before the first such byte, and what stands behind it.
pub(crate) fn cut(text: &[u8], byte: u8) -> Option<(&[u8], &[u8])>
    ensures cases { MatchOption result ((a b : List ℕ) → text.now ≡ a ++ byte ∷ b → ⊥) (λ p. text.now ≡ p.0.now ++ byte ∷ p.1.now) }
    ensures first { IfSome result (λ p. list_any (λ b. b == byte) p.0.now ≡ false) }
{
    match place_of(text, byte) {
        None => None,
        Some(i) => Some((&text[..i], &text[i + 1..])),
    }
}

/// Whether a text begins with a plus sign, or with a zero that isn't all of it.
fn begins_badly(text: &[u8]) -> bool
    ensures { MatchBool result ((get_or text.now 0 0 ≡ 43) ⊎ ((get_or text.now 0 0 ≡ 48) × (length text.now ≢ 1)))
        ((get_or text.now 0 0 ≢ 43) × (get_or text.now 0 0 ≡ 48 → length text.now ≡ 1)) }
{
    match text {
        [] => false,
        [first, rest @ ..] => *first == b'+' || (*first == b'0' && !rest.is_empty()),
    }
}

/// The number that a text is in digits, without a leading zero and a sign.
pub(crate) fn read_number(text: &[u8]) -> Option<u64>
    ensures { MatchOption result ((k : ℕ) → k < 2 ^ 64 → text.now ≡ decimal k → ⊥) (λ k. (k < 2 ^ 64) × (text.now ≡ decimal k)) }
{
    if begins_badly(text) {
        return None;
    }
    match std::str::from_utf8(text) {
        Err(_) => None,
        Ok(digits) => match digits.parse::<u64>() {
            Err(_) => None,
            Ok(number) => Some(number),
        },
    }
}

fn all_alphanumeric(bytes: &[u8]) -> bool
    ensures { result ≡ list_all is_ascii_alphanumeric bytes.now }
{
    bytes.iter().all(|b| b.is_ascii_alphanumeric())
}

/// Whether a text is the name of a site: a letter, and then letters and digits, at most 15 characters.
pub(crate) fn is_site_name(text: &[u8]) -> bool
    ensures { result ≡ is_site_name text.now }
{
    match text {
        [] => false,
        [first, rest @ ..] => {
            first.is_ascii_alphabetic() && all_alphanumeric(rest) && rest.len() < LONGEST_SITE_NAME
        }
    }
}
