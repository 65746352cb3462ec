// The forms of parts.
ghost use Rattle.std.specs.Prelude.{◌≡◌, ◌≤◌, ◌<◌, ◌^◌, true, IfSome};
ghost use Rattle.std.specs.List.{list_all};
ghost use Rattle.std.specs.Option.{SomeIff};
ghost use Rattle.std.specs.Char.{is_ascii_alphanumeric, is_ascii_digit};
ghost use Rattle.std.specs.Str.Parse.{digits_value};
ghost use Rattle.global_defs.specs.Numeral.{is_whole};
ghost use Rattle.command_defs.specs.Parts.{is_lettered, is_name, is_digits, number_form, either_form};
ghost use Rattle.global_defs.specs.Pattern.{is_global_name, is_pattern};

use global_defs::limits::LONGEST_SITE_NAME;

/// How many characters a global's name may have.
const LONGEST_GLOBAL: usize = global_defs::limits::LONGEST_NAME;

fn all_alphanumeric(bytes: &[u8]) -> bool
    ensures { result ≡ list_all is_ascii_alphanumeric bytes.now }
{
    bytes.iter().all(|b| b.is_ascii_alphanumeric())
}

/// Whether these bytes are a letter and then letters and digits.
fn is_lettered(bytes: &[u8]) -> bool
    ensures { result ≡ is_lettered bytes.now }
{
    match bytes {
        [] => false,
        [first, rest @ ..] => first.is_ascii_alphabetic() && all_alphanumeric(rest),
    }
}

/// Whether these bytes are the name of a site or a region.
pub fn is_name(bytes: &[u8]) -> bool
    ensures { result ≡ is_name bytes.now }
{
    is_lettered(bytes) && bytes.len() <= LONGEST_SITE_NAME
}

/// Whether these bytes are the name of a global: a percent sign or a letter, and then letters and digits.
fn is_global_name(bytes: &[u8]) -> bool
    ensures { result ≡ is_global_name bytes.now }
{
    match bytes {
        [] => false,
        [first, rest @ ..] => {
            (*first == b'%' || first.is_ascii_alphabetic())
                && all_alphanumeric(rest)
                && bytes.len() <= LONGEST_GLOBAL
        }
    }
}

/// Whether these bytes are a pattern: a global's name, or one and a star.
pub fn is_pattern(bytes: &[u8]) -> bool
    ensures { result ≡ is_pattern bytes.now }
{
    match bytes {
        [name @ .., b'*'] => is_global_name(name),
        name => is_global_name(name),
    }
}

fn all_digits(bytes: &[u8]) -> bool
    ensures { result ≡ list_all is_ascii_digit bytes.now }
{
    bytes.iter().all(|b| b.is_ascii_digit())
}

/// Whether these bytes are digits that begin with no zero.
fn is_whole(bytes: &[u8]) -> bool
    ensures { result ≡ is_whole bytes.now }
{
    all_digits(bytes) && !bytes.is_empty() && bytes[0] != b'0'
}

/// Whether these bytes are digits without a leading zero.
fn is_digits(bytes: &[u8]) -> bool
    ensures { result ≡ is_digits bytes.now }
{
    is_whole(bytes) || bytes == b"0".as_slice()
}

/// The number that digits write, where 64 bits hold it.
fn digits_value(digits: &[u8]) -> Option<u64>
    requires { list_all is_ascii_digit digits.now ≡ true }
    ensures { SomeIff result (digits_value 10 digits.now < 2 ^ 64) (digits_value 10 digits.now) }
{
    let mut value: u64 = 0;
    for digit in digits {
        value = value
            .checked_mul(10)?
            .checked_add(u64::from(*digit - b'0'))?;
    }
    Some(value)
}

/// The number in digits from the least to the greatest one that these bytes are.
pub fn number_of(least: u64, most: u64, text: &[u8]) -> Option<u64>
    ensures value { result ≡ number_form least most text.now }
    ensures within { IfSome result (λ number. (least ≤ number) × (number ≤ most)) }
{
    if !is_digits(text) {
        return None;
    }
    let number = digits_value(text)?;
    if least <= number && number <= most {
        Some(number)
    } else {
        None
    }
}

/// Whether a word is the first of two, or the second.
pub fn is_first(first: &[u8], second: &[u8], text: &[u8]) -> Option<bool>
    ensures { result ≡ either_form first.now second.now text.now }
{
    if text == first {
        return Some(true);
    }
    if text == second {
        return Some(false);
    }
    None
}
