// Lists of bytes behind their lengths.
ghost use Rattle.std.specs.Prelude.{◌<◌, ◌^◌, length};
ghost use Rattle.std.specs.Option.{option_map};
ghost use Rattle.global_defs.specs.Fields.{short, long};
ghost use Rattle.repl_fields.specs.Reading.{ReadsField};

use super::numbers::{read_u8, read_u16};

/// Bytes behind a length of one byte, and what follows them.
pub fn read_short(bytes: &[u8]) -> Option<(&[u8], &[u8])>
    ensures { ReadsField (λ s. length s < 2 ^ 8) short bytes.now (option_map (λ p. (p.0.now, p.1.now)) result) }
{
    match read_u8(bytes) {
        None => None,
        Some((count, rest)) => {
            if rest.len() < usize::from(count) {
                return None;
            }
            Some(rest.split_at(usize::from(count)))
        }
    }
}

/// Bytes behind a length of two bytes, and what follows them.
pub fn read_long(bytes: &[u8]) -> Option<(&[u8], &[u8])>
    ensures { ReadsField (λ s. length s < 2 ^ 16) long bytes.now (option_map (λ p. (p.0.now, p.1.now)) result) }
{
    match read_u16(bytes) {
        None => None,
        Some((count, rest)) => {
            if rest.len() < usize::from(count) {
                return None;
            }
            Some(rest.split_at(usize::from(count)))
        }
    }
}
