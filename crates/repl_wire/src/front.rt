//! Numbers of which the first bytes have come.
ghost use Rattle.std.specs.Prelude.{◌≡◌, ◌≤◌, ◌<◌, ◌^◌, ◌+◌, ◌*◌, ◌-◌, ◌↔◌, IsTrue, MatchOption};
ghost use Rattle.repl_wire.specs.Fronts.{unit, IsOpen, IsMet, taken};

/// A big-endian number of which so many bytes are missing, and the numbers between which it is to be.
#[derive(Clone, Copy, Debug)]
pub struct Front {
    /// The number that its bytes so far are.
    pub value: u64,
    pub missing: u8,
    pub low: u64,
    pub high: u64,
}

/// How many numbers are spelled in so many bytes.
fn unit(missing: u8) -> u64
    requires { missing < 8 }
    ensures { result ≡ unit missing }
{
    match missing {
        0 => 1,
        1 => 0x100,
        2 => 0x1_0000,
        3 => 0x100_0000,
        4 => 0x1_0000_0000,
        5 => 0x100_0000_0000,
        6 => 0x1_0000_0000_0000,
        _ => 0x100_0000_0000_0000,
    }
}

/// Whether some number from `low` to `high` is among the `unit` ones from `value` times `unit` on.
fn meets(value: u64, unit: u64, low: u64, high: u64) -> bool
    requires { 0 < unit }
    ensures { IsTrue result ↔ (value * unit ≤ high) × (low < (value + 1) * unit) }
{
    value <= high / unit && low / unit <= value
}

impl Front {
    /// A number of so many bytes, none of which has come.
    pub fn new(missing: u8, low: u64, high: u64) -> Self
        ensures { result ≡ record { value = 0; missing = missing; low = low; high = high } }
    {
        Front {
            value: 0,
            missing,
            low,
            high,
        }
    }

    /// The number with one byte more, where some number between its bounds begins so.
    pub fn take(self, byte: u8) -> Option<Self>
        requires { IsOpen self }
        ensures { MatchOption result (IsMet (taken self byte) → ⊥) (λ front. (front ≡ taken self byte) × IsMet front) }
    {
        let value = self.value * 256 + u64::from(byte);
        let missing = self.missing - 1;
        if !meets(value, unit(missing), self.low, self.high) {
            return None;
        }
        Some(Front {
            value,
            missing,
            low: self.low,
            high: self.high,
        })
    }
}
