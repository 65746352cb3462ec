//! Bytes of a block read and written.
ghost use Rattle.std.specs.Prelude.{◌≡◌, ◌≤◌, ◌+◌, ◌-◌, ◌++◌, ◌↔◌, length, take, drop, replicate, vec_len, vec_capacity, IsTrue};
ghost use Rattle.std.specs.Int.{from_be_bytes, w16, w32};
ghost use Rattle.block_fmt.specs.Read.{written};

/// The number that two bytes spell.
pub fn number_at(bytes: &[u8], at: usize) -> usize
    requires { at + 2 ≤ length bytes.now }
    ensures { result ≡ from_be_bytes w16 (take 2 (drop at bytes.now)) }
{
    usize::from(u16::from_be_bytes([bytes[at], bytes[at + 1]]))
}

/// Adds bytes for which there is room.
pub fn push_all(bytes: &mut Vec<u8>, more: &[u8])
    requires { vec_len bytes.old + length more.now ≤ vec_capacity bytes.old }
    ensures items { bytes.new.items ≡ bytes.old.items ++ more.now }
    ensures capacity { vec_capacity bytes.old ≤ vec_capacity bytes.new }
{
    if bytes.extend_from_slice(more).is_err() {
        unreachable!();
    }
}

/// Writes bytes over those at a place.
pub fn put_bytes(out: &mut [u8], at: usize, bytes: &[u8])
    requires { at + length bytes.now ≤ length out.old }
    ensures { take (at + length bytes.now) out.new ≡ take at out.old ++ bytes.now }
{
    out[at..at + bytes.len()].copy_from_slice(bytes);
}

/// Writes bytes over those of a list at a place.
pub fn write_at(bytes: &mut Vec<u8>, at: usize, part: &[u8])
    requires { at + length part.now ≤ vec_len bytes.old }
    ensures items { bytes.new.items ≡ written bytes.old.items at part.now }
    ensures capacity { vec_capacity bytes.old ≤ vec_capacity bytes.new }
{
    bytes[at..at + part.len()].copy_from_slice(part);
}

/// Writes zeros from a place on.
pub fn fill_zeros(out: &mut [u8], at: usize)
    requires { at ≤ length out.old }
    ensures { out.new ≡ take at out.old ++ replicate (length out.old - at) 0 }
{
    out[at..].fill(0);
}

/// The number that four bytes spell.
pub fn long_number_at(bytes: &[u8], at: usize) -> u32
    requires { at + 4 ≤ length bytes.now }
    ensures { result ≡ from_be_bytes w32 (take 4 (drop at bytes.now)) }
{
    u32::from_be_bytes([bytes[at], bytes[at + 1], bytes[at + 2], bytes[at + 3]])
}

/// Whether all bytes are zeros.
pub fn is_zero(bytes: &[u8]) -> bool
    ensures { IsTrue result ↔ (bytes.now ≡ replicate (length bytes.now) 0) }
{
    for byte in bytes {
        if *byte != 0 {
            return false;
        }
    }
    true
}

/// The bytes from a place on.
pub fn bytes_from(bytes: &[u8], at: usize) -> &[u8]
    requires { at ≤ length bytes.now }
    ensures { result.now ≡ drop at bytes.now }
{
    &bytes[at..]
}
