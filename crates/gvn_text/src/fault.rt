//! Why a text is no statement.
ghost use Rattle.std.specs.Prelude.{◌≡◌, Some, None};
ghost use Rattle.script_defs.specs.Parts.{place, bad, too_long};
ghost use Rattle.gvn_text.specs.Reads.{fault_value};

use gvn_key::NoMemory;
use thiserror::Error;

/// Why a text is no statement: its first fault, at a place from 0. A place of 2 ^ 32 or more is told as 2 ^ 32 - 1.
#[derive(Clone, Copy, Debug, PartialEq, Eq, Error)]
pub enum TextError {
    /// A piece of a value is missing, or a quoted one isn't closed.
    #[error("a missing or unclosed piece at {at}")]
    BadQuote { at: u32 },
    /// Every other fault. A word, a key and an integer are named at their first byte.
    #[error("a wrong byte at {at}")]
    BadChar { at: u32 },
    /// The value has more than 1,500 bytes, and all else is well. The place is the value's first byte.
    #[error("a value that is too long at {at}")]
    ValueTooLong { at: u32 },
    /// There was no memory.
    #[error("out of memory")]
    NoMemory,
}

/// A fault, and the part that has it.
#[derive(Clone, Copy, Debug, PartialEq, Eq)]
pub struct Fault {
    /// Where the part that is missing, too much or not of its form begins, from 0. A word, a key with its subscripts, a value
    /// and an integer are a part each; a part that is missing begins where it would stand.
    pub part: u32,
    /// The fault.
    pub error: TextError,
}

impl From<NoMemory> for Fault {
    ghost use Rattle.std.specs.Prelude.{◌≡◌, None};
    ghost use Rattle.gvn_text.specs.Reads.{fault_value};

    ghost from_gives = { λ _ e. fault_value e ≡ None };

    fn from(_: NoMemory) -> Self {
        Fault {
            part: 0,
            error: TextError::NoMemory,
        }
    }
}

/// How many bytes of a text of that length stand before what is left of it.
pub fn place(len: usize, left: &[u8]) -> u32
    ensures { result ≡ place len left.now }
{
    len.saturating_sub(left.len()).min(4_294_967_295) as u32
}

/// What is left begins with a part that is missing, too much or not of its form.
pub fn bad(len: usize, left: &[u8]) -> Fault
    ensures { fault_value result ≡ Some (bad len left.now) }
{
    let at = place(len, left);
    Fault {
        part: at,
        error: TextError::BadChar { at },
    }
}

/// What is left begins with a value that is too long.
pub fn too_long(len: usize, left: &[u8]) -> Fault
    ensures { fault_value result ≡ Some (too_long len left.now) }
{
    let at = place(len, left);
    Fault {
        part: at,
        error: TextError::ValueTooLong { at },
    }
}
