// Which frames fit, and what arrives with them.
ghost use Rattle.std.specs.Prelude.{◌≡◌, ◌⊎◌, ◌↔◌, ◌+◌, ◌<◌, ◌≤◌, ◌^◌, [], ◌∷◌, Some, None, IsTrue, map, option_map, option_to_list, IfOk, IfSome};
ghost use Rattle.std.specs.List.{AllByRecursion};
ghost use Rattle.global_defs.specs.declared.limits.TheConstants.{NUMBERS_END};
ghost use Rattle.global_defs.specs.Fields.{IsReign, IsNumber, IsTransaction};
ghost use Rattle.gvn_model.specs.Reigns.{reign_value};
ghost use Rattle.gvn_model.specs.Entries.{history_value, transaction_value};
ghost use Rattle.wire_defs.specs.Frames.{IsFrame};
ghost use Rattle.wire_defs.specs.Frames as defs;
ghost use Rattle.repl_wire.specs.Values.{frame_value};
ghost use Rattle.recv_pool.specs.Pools.{arrival_value, reign_of};
ghost use Rattle.ship_defs.specs.Hearing as ship;
ghost use Rattle.ship_defs.specs.Hearing.{MayReign, unbegun};
ghost use Rattle.ship_defs.specs.Arrivals.{IsArrival, arrived};
ghost use Rattle.receiver_server.specs.Hearings.{purpose_value, reign_behind, IsHeard, MayCome, behind};

use super::begun::{begun, is_same};
use global_defs::limits::MOST_REIGNS;
use gvn_key::NoMemory;
use gvn_model::{History, Reign};
use recv_pool::Arrived;
use repl_wire::Frame;
use std::marker::Model;
use std::mem;

/// What a connection is for.
#[derive(Clone, Copy, Debug, PartialEq, Eq)]
pub enum Purpose {
    /// START and FETCHRESYNC: the primary's answer is its last frame.
    Asks,
    /// A section.
    Ships,
}

// Which frame came last.
#[derive(Drop)]
pub(crate) enum Last {
    Unbegun,
    Resumed,
    Reigning(Reign),
    Shipped,
    Over,
}

// What a secondary has, with all that it was sent.
#[derive(Drop)]
pub(crate) struct Hearer {
    pub(crate) count: u64,
    pub(crate) reigns: usize,
    pub(crate) reign: Option<Reign>,
    pub(crate) last: Last,
}

impl Model for Hearer {
    ghost use Rattle.std.specs.Prelude.{option_map};
    ghost use Rattle.gvn_model.specs.Reigns.{reign_value};
    ghost use Rattle.ship_defs.specs.Hearing as ship;
    ghost use Rattle.receiver_server.specs.Hearings.{last_value, IsHeard};

    ghost Value = { ship.Heard };

    ghost view = { λ h. record { count = h.count; reigns = h.reigns; reign = option_map reign_value h.reign; last = last_value h.last } };

    ghost invariant = { λ h. IsHeard (record { count = h.count; reigns = h.reigns; reign = option_map reign_value h.reign; last = last_value h.last }) };
}

impl Hearer {
    // Before the first byte, of a secondary with that history.
    pub(crate) fn new(mine: &History) -> Result<Hearer, NoMemory>
        requires few { mine.now.length < NUMBERS_END }
        requires form { AllByRecursion IsReign (history_value mine.now).reigns }
        ensures { IfOk result (λ h. h ≡ unbegun (history_value mine.now)) }
    {
        let (reigns, last) = begun(mine.reigns.as_slice(), mine.length);
        let reign = match last {
            Some(reign) => Some(reign.copy()?),
            None => None,
        };
        Ok(Hearer {
            count: mine.length,
            reigns,
            reign,
            last: Last::Unbegun,
        })
    }

    // Whether the last frame has come.
    pub(crate) fn is_over(&self) -> bool
        ensures { IsTrue result ↔ (self.now.last ≡ ship.Over) }
    {
        match self.last {
            Last::Over => true,
            _ => false,
        }
    }

    fn is_unbegun(&self) -> bool
        ensures { IsTrue result ↔ ship.IsUnbegun self.now.last }
    {
        match self.last {
            Last::Unbegun => true,
            _ => false,
        }
    }

    // Whether a HISTORY or a BYE may come.
    fn is_between(&self) -> bool
        ensures { IsTrue result ↔ ship.IsBetween self.now.last }
    {
        match self.last {
            Last::Resumed | Last::Shipped => true,
            _ => false,
        }
    }

    // Whether an ENTRY may come.
    fn is_under(&self) -> bool
        ensures { IsTrue result ↔ ship.IsUnder self.now.last }
    {
        match self.last {
            Last::Reigning(_) | Last::Shipped => true,
            _ => false,
        }
    }

    // Whether a HISTORY may tell that reign.
    fn may_reign(&self, reign: &Reign) -> bool
        requires { IsReign (reign_value reign.now) }
        ensures { IsTrue result ↔ MayReign self.now (reign_value reign.now) }
    {
        if reign.start - 1 == self.count && self.reigns < MOST_REIGNS {
            return true;
        }
        match &self.reign {
            Some(last) => is_same(last, reign),
            None => false,
        }
    }

    // Whether the frame may come next, but for its nodes.
    pub(crate) fn may_come(&self, frame: &Frame) -> bool
        requires { IsFrame (frame_value frame.now) }
        ensures { IsTrue result ↔ MayCome self.now (frame_value frame.now) }
    {
        match frame {
            Frame::Hello { .. } => false,
            Frame::Resume(number) => self.is_unbegun() && *number - 1 == self.count,
            Frame::RollbackFirst(number) => self.is_unbegun() && *number <= self.count,
            Frame::History(reign) => self.is_between() && self.may_reign(reign),
            Frame::Entry(number, _) => self.is_under() && *number - 1 == self.count,
            Frame::Bye(length) => self.is_between() && *length == self.count,
        }
    }

    // The reign of a HISTORY that came last.
    pub(crate) fn reign_told(&self) -> Result<Option<Reign>, NoMemory>
        ensures { IfOk result (λ r. reign_of r ≡ reign_behind self.now.last) }
    {
        match &self.last {
            Last::Reigning(reign) => Ok(Some(reign.copy()?)),
            _ => Ok(None),
        }
    }

    // With the next entry.
    fn enter(&mut self)
        requires under { ship.IsUnder self.old.last }
        requires few { self.old.count + 1 < NUMBERS_END }
        ensures entered { self.new ≡ ship.entered self.old self.old.last }
        ensures knew { IsHeard self.old }
    {
        self.count += 1;
        if let Last::Shipped = self.last {
            return;
        }
        match mem::replace(&mut self.last, Last::Shipped) {
            Last::Reigning(reign) if reign.start == self.count => {
                self.reigns += 1;
                self.reign = Some(reign);
            }
            _ => {}
        }
    }

    // Takes the frame that comes next, and answers what arrives with it.
    pub(crate) fn hear(
        &mut self,
        purpose: Purpose,
        at: u64,
        frame: Frame,
        reign: Option<Reign>,
    ) -> Option<Arrived>
        requires form { IsFrame (frame_value frame) }
        requires may { MayCome self.old (frame_value frame) }
        requires told { reign_of reign ≡ reign_behind self.old.last }
        ensures heard { self.new ≡ behind (purpose_value purpose) self.old (frame_value frame) }
        ensures arrives { arrived at (reign_behind self.old.last) (frame_value frame) ≡ option_to_list (option_map arrival_value result) }
        ensures form { IfSome result (λ x. IsArrival (arrival_value x)) }
    {
        match frame {
            Frame::Hello { .. } => None,
            Frame::Resume(_) => {
                self.last = match purpose {
                    Purpose::Asks => Last::Over,
                    Purpose::Ships => Last::Resumed,
                };
                None
            }
            Frame::RollbackFirst(_) | Frame::Bye(_) => {
                self.last = Last::Over;
                None
            }
            Frame::History(told) => {
                self.last = Last::Reigning(told);
                None
            }
            Frame::Entry(number, transaction) => {
                self.enter();
                Some(Arrived {
                    at,
                    number,
                    transaction,
                    reign,
                })
            }
        }
    }
}
