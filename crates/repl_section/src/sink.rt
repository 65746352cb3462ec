//! Where replies go.
ghost use Rattle.std.specs.Prelude.{List, [], ◌∷◌, ◌++◌, OnOk};
ghost use Rattle.global_defs.specs.Serial.{Replied};
ghost use Rattle.repl_section.specs.Replies.{replied_value};

use gvn_key::NoMemory;
use gvn_model::{Origin, Reply};

/// What takes the replies to jobs.
pub trait ReplySink {
    /// From the first of two states to the second exactly these replies were given, in this order.
    ghost gave: { Self → Self → List Replied → Type 0 };

    /// Gives it the reply to a job of this origin.
    fn give(&mut self, origin: Origin, reply: Reply) -> Result<(), NoMemory>
        ensures { OnOk result (gave self.old self.new (replied_value origin reply ∷ [])) };

    // None is given where nothing is done.
    ghost none: { (s : Self) → gave s s [] };

    // What was given after other replies stands behind them.
    ghost further: { (a b c : Self) (first more : List Replied) → gave a b first → gave b c more → gave a c (first ++ more) };
}
