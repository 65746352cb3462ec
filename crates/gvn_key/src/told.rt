//! What a key's bytes tell of those that may stand behind them.
ghost use Rattle.std.specs.Prelude.{◌≡◌, ◌≤◌, ◌<◌, ◌+◌, ℕ, List};
ghost use Rattle.std.specs.Bool.{OnTrue};
ghost use Rattle.std.specs.declared.cmp.Ordering.TheVariants.{Less};
ghost use Rattle.std.specs.Ordering.{nat_cmp};
ghost use Rattle.std.specs.Cmp.Lexicographic.{slice_cmp};
ghost use Rattle.global_defs.specs.declared.limits.TheConstants.{LONGEST_KEY};
ghost use Rattle.gvn_key.specs.Decoding.{IsCode};
ghost use Rattle.gvn_key.specs.Next.{Tells};

use crate::fronts::is_same_front;

/// So many bytes at most stand before the last byte of a key.
const MOST_BEFORE: usize = 254;

/// What a key's bytes tell that makes the test of the key behind it short: where the text of the last subscript begins, how long it may
/// be, and which bytes it may have.
#[derive(Clone, Copy, Debug)]
pub struct Seen {
    from: usize,
    longest: usize,
    low: u8,
    most: u8,
}

impl Seen {
    /// What any bytes tell: nothing.
    pub fn nothing() -> Self
        ensures from { result.from ≡ 0 }
        ensures longest { result.longest ≡ 0 }
        ensures tells { (bytes : List ℕ) → Tells result bytes }
    {
        Seen {
            from: 0,
            longest: 0,
            low: 0,
            most: 0,
        }
    }

    /// What is told of a text from a place on, which may have so many bytes, these ones, and as its last none but the lowest of them.
    pub(crate) fn text(from: usize, longest: usize, low: u8, most: u8) -> Self
        ensures from { result.from ≡ from }
        ensures longest { result.longest ≡ longest }
        ensures low { result.low ≡ low }
        ensures most { result.most ≡ most }
    {
        Seen {
            from,
            longest,
            low,
            most,
        }
    }

    /// The same of a subscript that begins at a place of a key, whose bytes are at most 255.
    pub(crate) fn behind(self, at: usize) -> Self
        requires place { at ≤ LONGEST_KEY }
        requires from { self.from ≤ 2 }
        ensures from { result.from ≡ at + self.from }
        ensures longest { result.longest ≤ self.longest }
        ensures short { 0 < result.longest → result.from + result.longest ≤ 254 }
        ensures low { result.low ≡ self.low }
        ensures most { result.most ≡ self.most }
    {
        let from = at + self.from;
        Seen {
            from,
            longest: self.longest.min(MOST_BEFORE.saturating_sub(from)),
            low: self.low,
            most: self.most,
        }
    }

    /// Whether these bytes are those of a key that differ from others only in the text, from a place on where one byte stands, and
    /// then the last one.
    pub(crate) fn ends_alike(&self, last: &[u8], next: &[u8]) -> bool
        requires { Tells self.now last.now }
        ensures code { OnTrue result (IsCode next.now) }
        ensures order { OnTrue result (slice_cmp nat_cmp last.now next.now ≡ Less) }
        ensures tells { OnTrue result (Tells self.now next.now) }
    {
        let len = next.len();
        if len < 2 {
            return false;
        }
        let place = len - 2;
        if place <= self.from || place >= last.len() || place - self.from >= self.longest {
            return false;
        }
        let byte = next[place];
        if byte <= last[place] || byte < self.low || byte > self.most || next[len - 1] != 0 {
            return false;
        }
        is_same_front(last, next, place)
    }
}
