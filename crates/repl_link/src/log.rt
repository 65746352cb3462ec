// The connections that are over. Only clauses read it, and it takes no memory.
ghost use Rattle.std.specs.Prelude.{◌≡◌, List, [], ◌∷◌, ◌++◌};
ghost use Rattle.std.specs.Borrow.{ftrue};
ghost use Rattle.wire_defs.specs.Links.{Past};

use crate::mem_rx::MemRx;
use crate::mem_tx::MemTx;
use crate::traits::Ends;
use std::marker::Model;

#[derive(Drop)]
pub(crate) struct Log {
    pub(crate) ghost past: { List Past },
}

impl Model for Log {
    ghost also_owns = { λ _. ftrue };
}

impl Log {
    ghost use Rattle.wire_defs.specs.Links.{past_of};
    ghost use Rattle.repl_link.specs.MemEnds.{mem_sending, mem_receiving};

    pub(crate) fn new() -> Log
        ensures { result.past ≡ [] }
    {
        Log {}
    }

    // The same connections, and one more.
    pub(crate) fn with(&self, _session: u32, _ends: &Ends<MemTx, MemRx>) -> Log
        ensures { result.past ≡ self.now.past ++ past_of _session (mem_sending _ends.now.up_tx)
            (mem_receiving _ends.now.up_rx) (mem_sending _ends.now.down_tx) (mem_receiving _ends.now.down_rx) ∷ [] }
    {
        Log {}
    }
}
