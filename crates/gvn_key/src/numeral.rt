//! Canonical numerals: which subscripts are numbers.
ghost use Rattle.std.specs.Prelude.{◌≡◌, ◌<◌, length, position, IfSome};
ghost use Rattle.std.specs.List.{list_all};
ghost use Rattle.std.specs.Char.{is_ascii_digit};
ghost use Rattle.global_defs.specs.Numeral.{is_point, is_number, is_whole, is_fraction, is_positive, is_numeral};

/// How many digits a number may have.
const MOST_DIGITS: usize = 18;

/// Whether all bytes are digits.
pub fn are_digits(bytes: &[u8]) -> bool
    ensures { result ≡ list_all is_ascii_digit bytes.now }
{
    bytes.iter().all(|b| b.is_ascii_digit())
}

/// Digits, one at least, that don't begin with 0.
fn is_whole(bytes: &[u8]) -> bool
    ensures { result ≡ is_whole bytes.now }
{
    are_digits(bytes) && !bytes.is_empty() && bytes[0] != b'0'
}

/// Digits, one at least, that don't end with 0.
fn is_fraction(bytes: &[u8]) -> bool
    ensures { result ≡ is_fraction bytes.now }
{
    are_digits(bytes) && !bytes.is_empty() && bytes[bytes.len() - 1] != b'0'
}

/// Where the first point stands.
pub fn point(bytes: &[u8]) -> Option<usize>
    ensures place { result ≡ position is_point bytes.now }
    ensures within { IfSome result (λ i. i < length bytes.now) }
{
    bytes.iter().position(|b| *b == b'.')
}

/// A number above 0: digits, or a point and a fraction, or both.
fn is_positive(bytes: &[u8]) -> bool
    ensures { result ≡ is_positive bytes.now }
{
    match point(bytes) {
        None => is_whole(bytes),
        Some(i) => (i == 0 || is_whole(&bytes[..i])) && is_fraction(&bytes[i + 1..]),
    }
}

/// A canonical numeral, with any count of digits.
fn is_numeral(bytes: &[u8]) -> bool
    ensures { result ≡ is_numeral bytes.now }
{
    match bytes {
        [] => false,
        [first, rest @ ..] => {
            (*first == b'0' && rest.is_empty())
                || (if *first == b'-' {
                    is_positive(rest)
                } else {
                    is_positive(bytes)
                })
        }
    }
}

/// Whether a subscript of these bytes is a number: a canonical numeral of at most 18 digits.
/// Every other subscript is a string.
pub fn is_number(bytes: &[u8]) -> bool
    ensures { result ≡ is_number bytes.now }
{
    is_numeral(bytes) && bytes.iter().filter(|b| b.is_ascii_digit()).count() <= MOST_DIGITS
}
