//! The digits of a number subscript, behind its exponent.
ghost use Rattle.std.specs.Prelude.{◌≡◌};
ghost use Rattle.gvn_key.specs.Steps.{turned, end_byte, last_of, least, may_end, digit_taken, count_of, number_of};

/// The last digit that was taken.
#[derive(Clone, Copy, Debug, PartialEq, Eq)]
pub enum Last {
    /// There is none yet.
    Absent,
    /// A 0, which may not be the last one.
    Zero,
    /// From 1 to 9.
    Other,
}

impl Last {
    /// The last digit's kind.
    pub fn of(digit: u8) -> Self
        ensures { result ≡ last_of digit }
    {
        if digit == b'0' {
            Last::Zero
        } else {
            Last::Other
        }
    }

    /// Whether digits may end here: one at least, and no 0 at the end.
    pub fn may_end(self) -> bool
        ensures { result ≡ may_end self }
    {
        match self {
            Last::Other => true,
            _ => false,
        }
    }
}

/// How far the digits of a number have come.
#[derive(Clone, Copy, Debug, PartialEq, Eq)]
pub struct Number {
    /// Whether it is below 0, so that its digits are turned round.
    pub negative: bool,
    /// How many digits may still come.
    pub room: u8,
    /// The digit before the next one.
    pub last: Last,
}

impl Number {
    /// A number before its first digit, by the byte of its exponent.
    pub fn of(negative: bool, exponent: u8) -> Option<Self>
        ensures { result ≡ number_of negative exponent }
    {
        let count = if negative {
            209u8.saturating_sub(exponent)
        } else {
            exponent.saturating_sub(46)
        };
        if 1 <= count && count <= 36 {
            Some(Number {
                negative,
                room: count.min(18),
                last: Last::Absent,
            })
        } else {
            None
        }
    }

    /// The number with one digit more.
    pub fn taking(&self, byte: u8) -> Option<Self>
        ensures { result ≡ digit_taken self.now byte }
    {
        let digit = if self.negative {
            105u8.saturating_sub(byte)
        } else {
            byte
        };
        let leads = self.last == Last::Absent && digit == b'0';
        if digit.is_ascii_digit() && 0 < self.room && !leads {
            Some(Number {
                negative: self.negative,
                room: self.room - 1,
                last: Last::of(digit),
            })
        } else {
            None
        }
    }
}
