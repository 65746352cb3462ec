// Numbers, big-endian.
ghost use Rattle.std.specs.Prelude.{◌<◌, ◌^◌, ◌∷◌, [], ℕ};
ghost use Rattle.std.specs.Option.{option_map};
ghost use Rattle.std.specs.Int.{to_be_bytes, w16, w32, w64};
ghost use Rattle.repl_fields.specs.Reading.{ReadsField};

/// A byte, and what follows it.
pub fn read_u8(bytes: &[u8]) -> Option<(u8, &[u8])>
    ensures { ReadsField (λ n. n < 2 ^ 8) (λ n. n ∷ []) bytes.now (option_map (λ p. (p.0, p.1.now)) result) }
{
    match bytes {
        [a, rest @ ..] => Some((*a, rest)),
        _ => None,
    }
}

/// A number of two bytes, and what follows it.
pub fn read_u16(bytes: &[u8]) -> Option<(u16, &[u8])>
    ensures { ReadsField (λ n. n < 2 ^ 16) (to_be_bytes w16) bytes.now (option_map (λ p. (p.0, p.1.now)) result) }
{
    match bytes {
        [a, b, rest @ ..] => Some((u16::from_be_bytes([*a, *b]), rest)),
        _ => None,
    }
}

/// A number of four bytes, and what follows it.
pub fn read_u32(bytes: &[u8]) -> Option<(u32, &[u8])>
    ensures { ReadsField (λ n. n < 2 ^ 32) (to_be_bytes w32) bytes.now (option_map (λ p. (p.0, p.1.now)) result) }
{
    match bytes {
        [a, b, c, d, rest @ ..] => Some((u32::from_be_bytes([*a, *b, *c, *d]), rest)),
        _ => None,
    }
}

/// A number of eight bytes, and what follows it.
pub fn read_u64(bytes: &[u8]) -> Option<(u64, &[u8])>
    ensures { ReadsField (λ n. n < 2 ^ 64) (to_be_bytes w64) bytes.now (option_map (λ p. (p.0, p.1.now)) result) }
{
    match bytes {
        [a, b, c, d, e, f, g, h, rest @ ..] => {
            Some((u64::from_be_bytes([*a, *b, *c, *d, *e, *f, *g, *h]), rest))
        }
        _ => None,
    }
}
