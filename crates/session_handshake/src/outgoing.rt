// Bytes that are to be sent.
ghost use Rattle.std.specs.Prelude.{◌≡◌, ◌≢◌, ◌+◌, ◌<◌, ◌≤◌, ◌++◌, [], length, false, IsTrue, OnOk, OnErr};
ghost use Rattle.wire_defs.specs.Links.{SameSending, counted};

use gvn_key::Bytes;
use repl_link::{Cut, LinkTx};
use std::marker::Model;

// Bytes of which some were sent. Contracts see those that weren't.
#[derive(Drop)]
pub(crate) struct Outgoing {
    bytes: Bytes,
    at: usize,
}

impl Model for Outgoing {
    ghost use Rattle.std.specs.Prelude.{◌≤◌, List, ℕ, drop, length};

    ghost Value = { List ℕ };

    ghost view = { λ o. drop o.at o.bytes };

    ghost invariant = { λ o. o.at ≤ length o.bytes };
}

impl Outgoing {
    pub(crate) fn new(bytes: Bytes) -> Outgoing
        ensures { result ≡ bytes }
    {
        Outgoing { bytes, at: 0 }
    }

    // What wasn't sent.
    fn rest(&self) -> &[u8]
        ensures { result.now ≡ self.now }
    {
        &self.bytes.as_slice()[self.at..]
    }

    // Sends some of them, where any are left.
    pub(crate) fn send<T: LinkTx>(&mut self, tx: &mut T) -> Result<(), Cut>
        ensures line { T.line tx.new ≡ T.line tx.old }
        ensures same { SameSending (T.sending tx.old) (T.sending tx.new) }
        ensures finished { (T.sending tx.new).finished ≡ (T.sending tx.old).finished }
        ensures sent { IsTrue (T.sending tx.old).told → (T.sending tx.new).sent ++ self.new ≡ (T.sending tx.old).sent ++ self.old }
        ensures fewer { length self.new ≤ length self.old }
        ensures moves { IsTrue (T.sending tx.old).told → 0 < (T.sending tx.old).free → self.old ≢ [] → OnOk result (length self.new < length self.old) }
        ensures tires { (T.sending tx.old).told ≡ false → OnOk result (length self.new + (T.sending tx.new).patience ≤ length self.old + (T.sending tx.old).patience) }
        ensures cut { OnErr result ((T.sending tx.new).cuts ≡ counted (T.sending tx.old).cuts 1) }
        ensures uncut { OnOk result ((T.sending tx.new).cuts ≡ (T.sending tx.old).cuts) }
    {
        if self.rest().is_empty() {
            return Ok(());
        }
        let left = self.rest().len();
        match tx.send(self.rest()) {
            Ok(sent) => {
                self.at = self.bytes.len() - (left - sent);
                Ok(())
            }
            Err(error) => Err(error),
        }
    }
}
