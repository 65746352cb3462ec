// Why a line is bad.
ghost use Rattle.std.specs.Prelude.{◌≡◌, Some};
ghost use Rattle.command_defs.specs.Parts.{column};
ghost use Rattle.repl_script.specs.Reads.{fault_value};

use gvn_key::NoMemory;

/// Why a line isn't taken.
#[derive(Clone, Copy)]
pub enum Fault {
    /// It's bad at that column, from 1.
    Bad { column: u32 },
    /// There was no memory.
    NoMemory,
}

impl From<NoMemory> for Fault {
    ghost use Rattle.std.specs.Prelude.{◌≡◌, None};
    ghost use Rattle.repl_script.specs.Reads.{fault_value};

    ghost from_gives = { λ _ e. fault_value e ≡ None };

    fn from(_: NoMemory) -> Self {
        Fault::NoMemory
    }
}

/// The column, from 1, of what is left of a line of that length.
pub fn column(len: u16, left: &[u8]) -> u32
    ensures { result ≡ column len left.now }
{
    u32::from(len).saturating_sub(left.len().min(65_535) as u32) + 1
}

/// What is left begins with a part that is missing, is too much or isn't of its form.
pub fn bad(len: u16, left: &[u8]) -> Fault
    ensures { fault_value result ≡ Some (column len left.now) }
{
    Fault::Bad {
        column: column(len, left),
    }
}
