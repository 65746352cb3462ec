//! The kinds of step on the pool's words: what each one tells the seat that makes it.
use crate::views::View;
use atomic_table::{Join, Play, Split, TableRule};
use std::marker::{Brand, PhantomData};

/// The rule of the pool's table, by the count of its data words and the number of its first entry.
pub struct Rules;

impl TableRule<(), View, (u64, u64)> for Rules {
    ghost use Rattle.pool_rule.specs.Rule.{Pooled, writer};

    ghost holds = { λ key s. Pooled key.0 key.1 s };

    ghost first = { λ key. writer key.0 key.1 };
}

/// What a step needs that its word doesn't carry: the bytes of an entry, or an address.
pub trait Pick {
    ghost use Rattle.std.specs.Prelude.{ℕ, List};

    ghost bytes: { List ℕ };

    ghost at: { ℕ };
}

impl Pick for Brand {
    ghost use Rattle.std.specs.Prelude.{[]};

    ghost bytes = { [] };

    ghost at = { 0 };
}

// Kind 1.
pub(crate) struct Claim<J> {
    of: PhantomData<J>,
}

impl<J: Pick> Play<(), View> for Claim<J> {
    ghost use Rattle.pool_rule.specs.Rule.{Claimed};

    ghost then = { Claimed J.bytes };
}

// Kind 2.
pub(crate) struct Store;

impl Play<(), View> for Store {
    ghost use Rattle.pool_rule.specs.Rule.{Stored};

    ghost then = { Stored };
}

// Kind 3.
pub(crate) struct Harden;

impl Play<(), View> for Harden {
    ghost use Rattle.pool_rule.specs.Rule.{Hardened};

    ghost then = { Hardened };
}

// Kind 4.
pub(crate) struct LoadHard;

impl Play<(), View> for LoadHard {
    ghost use Rattle.pool_rule.specs.Rule.{SawHard};

    ghost then = { SawHard };
}

// Kind 5.
pub(crate) struct LoadWord<J> {
    of: PhantomData<J>,
}

impl<J: Pick> Play<(), View> for LoadWord<J> {
    ghost use Rattle.pool_rule.specs.Rule.{SawWord};

    ghost then = { SawWord J.at };
}

// Kind 6.
pub(crate) struct LoadClaim;

impl Play<(), View> for LoadClaim {
    ghost use Rattle.pool_rule.specs.Rule.{SawClaim};

    ghost then = { SawClaim };
}

// Kind 7: a new reader, or a note of the writer's list.
pub(crate) struct Note;

impl Split<View> for Note {
    ghost use Rattle.pool_rule.specs.Rule.{reader};

    ghost left = { λ v. v };

    ghost right = { reader };
}

// Kind 8: a reader takes a note, and moves to an address.
pub(crate) struct TakeNote<J> {
    of: PhantomData<J>,
}

impl<J: Pick> Join<View> for TakeNote<J> {
    ghost use Rattle.std.specs.Prelude.{[], ◌∷◌, ◌++◌, max};
    ghost use Rattle.pool_rule.specs.Rule.{blank, number_at};

    ghost both = { λ v w. record v { hardened = max v.hardened w.hardened; place = J.at; next = number_at v w J.at; note_first = w.first; notes = v.notes ++ w.entries ∷ [] } };

    ghost spent = { blank };
}

// The look at the claimed count that ends it.
pub(crate) struct Place;

impl Play<(), View> for Place {
    ghost use Rattle.pool_rule.specs.Rule.{Placed};

    ghost then = { Placed };
}

// Kind 8: the writer takes a reader.
pub(crate) struct TakeReader;

impl Join<View> for TakeReader {
    ghost use Rattle.std.specs.Prelude.{max};
    ghost use Rattle.pool_rule.specs.Rule.{blank};

    ghost both = { λ v w. record v { told_got = w.got; told_notes = w.notes; told_hard = max w.hardened w.hard; told_claim = w.claim } };

    ghost spent = { blank };
}

// The look at the claimed count that ends it.
pub(crate) struct Settle;

impl Play<(), View> for Settle {
    ghost use Rattle.pool_rule.specs.Rule.{Settled};

    ghost then = { Settled };
}
