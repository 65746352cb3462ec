//! Patterns, as text and taken apart.
ghost use Rattle.std.specs.Prelude.{◌≡◌, IfOk};
ghost use Rattle.std.specs.List.{list_all};
ghost use Rattle.std.specs.Char.{is_ascii_alphanumeric};
ghost use Rattle.journal_defs.specs.Directory.{is_matched, is_beaten};
ghost use Rattle.global_defs.specs.Pattern.{ends_in_star, stem, is_global_name};
ghost use Rattle.std.specs.Option.{option_map};
ghost use Rattle.global_dir.specs.Directory.{pattern_value, standing};

use global_defs::limits::LONGEST_NAME;
use gvn_key::{Bytes, NoMemory};

/// Whether all bytes are letters and digits.
fn all_alphanumeric(bytes: &[u8]) -> bool
    ensures { result ≡ list_all is_ascii_alphanumeric bytes.now }
{
    bytes.iter().all(|byte| byte.is_ascii_alphanumeric())
}

/// Whether bytes are the name of a global: a percent sign or a letter, and then letters and digits, at most 31 characters.
pub fn is_global_name(bytes: &[u8]) -> bool
    ensures { result ≡ is_global_name bytes.now }
{
    match bytes {
        [first, rest @ ..] => {
            (*first == b'%' || first.is_ascii_alphabetic())
                && all_alphanumeric(rest)
                && bytes.len() <= LONGEST_NAME
        }
        [] => false,
    }
}

/// The text without the star at its end, and whether it has one there.
pub fn split_pattern(text: &[u8]) -> (&[u8], bool)
    ensures stem { result.0.now ≡ stem text.now }
    ensures star { result.1 ≡ ends_in_star text.now }
{
    match text {
        [name @ .., b'*'] => (name, true),
        name => (name, false),
    }
}

/// A global's name, or with a star each name that begins with it, and the region that takes it.
#[derive(Debug, Drop)]
pub struct Pattern {
    pub region: u8,
    pub star: bool,
    pub name: Bytes,
}

impl Pattern {
    /// Whether the pattern takes a name.
    pub fn matches(&self, name: &[u8]) -> bool
        ensures { result ≡ is_matched name.now (pattern_value self.now) }
    {
        name.starts_with(self.name.as_slice()) && (self.star || name.len() == self.name.len())
    }

    /// Whether this pattern wins over the best one so far, or over the rest where there is none: an exact name wins over each
    /// prefix, a longer prefix over a shorter one.
    pub fn beats(&self, best: Option<&Pattern>) -> bool
        ensures { result ≡ is_beaten (standing (option_map (λ p. p.now) best.entry)) (pattern_value self.now) }
    {
        match best {
            Some(other) => other.star && (!self.star || other.name.len() < self.name.len()),
            None => !self.star || !self.name.is_empty(),
        }
    }

    /// An equal pattern.
    pub fn copy(&self) -> Result<Self, NoMemory>
        ensures { IfOk result (λ made. made ≡ self.now) }
    {
        Ok(Pattern {
            region: self.region,
            star: self.star,
            name: self.name.copy()?,
        })
    }
}
