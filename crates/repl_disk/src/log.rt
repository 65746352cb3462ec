//! What only clauses read of a memory disk: its calls since the last crash, and bytes. It takes no memory.
ghost use Rattle.std.specs.Prelude.{◌≡◌, ℕ, List, [], ◌∷◌, ◌++◌};
ghost use Rattle.std.specs.Borrow.{ftrue};
ghost use Rattle.repl_disk.specs.Mem.{Call, Wrote, Synced};

use std::marker::Model;

/// Bytes that a file had, or that were written.
#[derive(Drop)]
pub struct Bytes {
    pub ghost items: { List ℕ },
}

impl Model for Bytes {
    ghost also_owns = { λ _. ftrue };
}

impl Bytes {
    pub fn none() -> Bytes
        ensures { result.items ≡ [] }
    {
        Bytes {}
    }

    pub fn of(_bytes: &[u8]) -> Bytes
        ensures { result.items ≡ _bytes.now }
    {
        Bytes {}
    }

    /// The same bytes, and these behind them.
    pub fn with(&self, _bytes: &[u8]) -> Bytes
        ensures { result.items ≡ self.now.items ++ _bytes.now }
    {
        Bytes {}
    }
}

/// Calls that changed what files have, or what is on the disk, the oldest first.
#[derive(Drop)]
pub struct Calls {
    pub ghost items: { List Call },
}

impl Model for Calls {
    ghost also_owns = { λ _. ftrue };
}

impl Calls {
    pub fn none() -> Calls
        ensures { result.items ≡ [] }
    {
        Calls {}
    }

    /// The same calls, and one that wrote so many bytes from a place on.
    pub fn with_write(&self, _file: u32, _at: u64, _n: u64) -> Calls
        ensures { result.items ≡ self.now.items ++ Wrote _file _at _n ∷ [] }
    {
        Calls {}
    }

    /// The same calls, and a sync of a file that succeeded.
    pub fn with_sync(&self, _file: u32) -> Calls
        ensures { result.items ≡ self.now.items ++ Synced _file ∷ [] }
    {
        Calls {}
    }
}
