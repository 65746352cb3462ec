//! What became of a job, before its updater is told.
ghost use Rattle.std.specs.Prelude.{◌≡◌, ◌≤◌, [], ◌∷◌, IfSome, OnOk};
ghost use Rattle.site_store.specs.Owning.{memory_of};
ghost use Rattle.repl_section.specs.Replies.{named, replied_value};

use crate::reign::Reign;
use crate::sink::ReplySink;
use gvn_key::NoMemory;
use gvn_model::{Origin, Reply};
use repl_disk::Disk;
use std::marker::Model;

/// A job that was decided, with the reply to it. Where its entry isn't hardened yet the reply has to wait.
#[derive(Debug, Drop)]
pub struct Decision {
    origin: Origin,
    reply: Reply,
}

impl Model for Decision {
    ghost use Rattle.global_defs.specs.Serial.{Replied};
    ghost use Rattle.repl_section.specs.Replies.{replied_value};

    ghost Value = { Replied };

    ghost view = { λ d. replied_value d.origin d.reply };
}

impl Decision {
    /// That a job of this origin has this reply.
    pub(crate) fn of(origin: Origin, reply: Reply) -> Decision
        ensures { result ≡ replied_value origin reply }
    {
        Decision { origin, reply }
    }

    /// The number of the job's entry, which has to be hardened before the reply may be released; `None` where it has none.
    pub fn entry(&self) -> Option<u64>
        ensures { result ≡ named self.now.reply }
    {
        match &self.reply {
            Reply::Seq(number, _) => Some(*number),
            Reply::Read(_) | Reply::RolledBack(_) => None,
        }
    }
}

impl<D: Disk> Reign<D> {
    /// Gives a decision's reply to its updater. The entry that it names, if it names one, has to be hardened.
    pub fn release<S: ReplySink>(&self, decision: Decision, sink: &mut S) -> Result<(), NoMemory>
        requires hardened { IfSome (named decision.reply) (λ number. number ≤ (memory_of self.now.site).hardened) }
        ensures { OnOk result (S.gave sink.old sink.new (decision ∷ [])) }
    {
        sink.give(decision.origin, decision.reply)
    }
}
