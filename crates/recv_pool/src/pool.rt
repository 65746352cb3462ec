// The two ends of a receive pool.
ghost use Rattle.std.specs.Prelude.{◌≡◌, ◌+◌, ◌<◌, ◌≤◌, [], ◌∷◌, ◌++◌, IsTrue, IfOk, IfErr, IsOk, OnOk, MatchOption, length, ◌↔◌};
ghost use Rattle.global_defs.specs.Prefix.{IsPrefix};
ghost use Rattle.ship_defs.specs.Arrivals.{IsArrival};
ghost use Rattle.recv_pool.specs.Pools.{arrival_value, put_in, free, taken, known, IsPool, SameIn, SameOut};
ghost use Rattle.rtrb.specs.Ring as ring;

use super::arrived::{Arrived, OfForm};
use gvn_key::NoMemory;
use rtrb::{Consumer, Producer, RingBuffer};
use std::alloc::Global;

/// The end that a Receiver Server puts entries into.
#[derive(Drop)]
pub struct PoolIn {
    pub(crate) ring: Producer<Arrived, Global, OfForm>,
}

/// The end that an Update Process takes entries from.
#[derive(Drop)]
pub struct PoolOut {
    pub(crate) ring: Consumer<Arrived, Global, OfForm>,
}

/// A pool with so many places.
pub fn make(alloc: Global, places: usize) -> Result<(PoolIn, PoolOut), NoMemory>
    ensures pool { IfOk result (λ r. IsPool r.0 r.1) }
    ensures empty { IfOk result (λ r. (put_in r.0 ≡ []) × (taken r.1 ≡ []) × (known r.1 ≡ [])) }
    ensures free { IfOk result (λ r. free r.0 ≡ places) }
    ensures places { IfOk result (λ r. ring.producer_capacity r.0.ring ≡ places) }
{
    let (into, out) = RingBuffer::with_protocol::<Global, OfForm>(alloc, places)?;
    Ok((PoolIn { ring: into }, PoolOut { ring: out }))
}

/// Lets each end know all that is free or put. Then what was put is what was taken and what is known to be next.
pub fn beside(into: &mut PoolIn, out: &mut PoolOut)
    requires pool { IsPool into.old out.old }
    ensures same { SameIn into.old into.new × SameOut out.old out.new }
    ensures put { put_in into.new ≡ put_in into.old }
    ensures taken { taken out.new ≡ taken out.old }
    ensures all { taken out.new ++ known out.new ≡ put_in into.new }
    ensures free { ring.producer_capacity into.new.ring ≤ free into.new + length (known out.new) }
{
    into.ring.slots_beside(&mut out.ring);
    show(into, out);
}

/// Lets the end that takes know all that was put, and the other end what it knew.
pub fn show(into: &mut PoolIn, out: &mut PoolOut)
    requires pool { IsPool into.old out.old }
    ensures same { SameIn into.old into.new × SameOut out.old out.new }
    ensures put { put_in into.new ≡ put_in into.old }
    ensures taken { taken out.new ≡ taken out.old }
    ensures all { taken out.new ++ known out.new ≡ put_in into.new }
    ensures free { free into.old ≤ free into.new }
{
    out.ring.slots_beside(&mut into.ring);
}

impl PoolIn {
    /// Whether there is a free place.
    pub fn has_place(&mut self) -> bool
        ensures same { SameIn self.old self.new }
        ensures put { put_in self.new ≡ put_in self.old }
        ensures free { free self.old ≤ free self.new }
        ensures is { IsTrue result ↔ (0 < free self.new) }
    {
        self.ring.slots() != 0
    }

    /// Puts an entry where a place is known to be free.
    pub fn put(&mut self, arrived: Arrived)
        requires form { IsArrival (arrival_value arrived) }
        requires place { 0 < free self.old }
        ensures same { SameIn self.old self.new }
        ensures put { put_in self.new ≡ put_in self.old ++ arrival_value arrived ∷ [] }
        ensures free { free self.old ≡ free self.new + 1 }
    {
        self.ring.push_reserved(arrived);
    }
}

impl PoolOut {
    /// Takes the next entry, if one has come. It is there where this end knows one.
    pub fn take(&mut self) -> Option<Arrived>
        ensures same { SameOut self.old self.new }
        ensures taken { MatchOption result (taken self.new ≡ taken self.old) (λ x. taken self.new ≡ taken self.old ++ arrival_value x ∷ []) }
        ensures form { MatchOption result (known self.new ≡ []) (λ x. IsArrival (arrival_value x)) }
        ensures known { MatchOption result (known self.old ≡ []) (λ x. IsPrefix (known self.old) (arrival_value x ∷ known self.new)) }
    {
        match self.ring.pop() {
            Ok(arrived) => Some(arrived),
            Err(_) => None,
        }
    }
}
