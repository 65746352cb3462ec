//! The places where cells begin.
ghost use Rattle.std.specs.Prelude.{◌≡◌, ◌≤◌, ◌<◌, ◌+◌, ◌-◌, ◌^◌, ◌++◌, ◌∷◌, length, take, drop, map, slice_index, vec_len, vec_capacity};
ghost use Rattle.std.specs.List.{AllByRecursion};
ghost use Rattle.block_fmt.specs.Read.{moved, CanMove};

/// Moves places by as much as their first one moves.
fn shift(places: &mut [u16], old: usize, new: usize)
    requires can { CanMove old new places.old }
    requires near { new < 2 ^ 16 }
    ensures { places.new ≡ map (moved old new) places.old }
{
    for place in places.iter_mut() {
        *place = (usize::from(*place) - old + new) as u16;
    }
}

/// Moves the places from j on.
fn shift_from(places: &mut Vec<u16>, j: usize, old: usize, new: usize)
    requires inside { j ≤ vec_len places.old }
    requires can { CanMove old new (drop j places.old.items) }
    requires near { new < 2 ^ 16 }
    ensures items { places.new.items ≡ take j places.old.items ++ map (moved old new) (drop j places.old.items) }
    ensures capacity { vec_capacity places.old ≤ vec_capacity places.new }
{
    if old != new {
        shift(&mut places[j..], old, new);
    }
}

/// Takes the places from i up to j away.
fn remove_run(places: &mut Vec<u16>, i: usize, j: usize)
    requires order { i ≤ j }
    requires inside { j ≤ vec_len places.old }
    ensures items { places.new.items ≡ take i places.old.items ++ drop j places.old.items }
    ensures capacity { vec_capacity places.old ≤ vec_capacity places.new }
{
    for _ in i..j {
        places.remove(i);
    }
}

/// Gives a cell its place, in place of the cells from i up to j, which end at `to`: so many bytes stand there instead.
pub fn put_place(places: &mut Vec<u16>, i: usize, j: usize, from: usize, to: usize, size: usize)
    requires order { i ≤ j }
    requires one { j ≤ i + 1 }
    requires inside { j ≤ vec_len places.old }
    requires here { i < j → slice_index places.old.items i ≡ from }
    requires near { from + size < 2 ^ 16 }
    requires can { CanMove to (from + size) (drop j places.old.items) }
    requires room { i ≡ j → vec_len places.old < vec_capacity places.old }
    ensures items { places.new.items ≡ take i places.old.items ++ from ∷ map (moved to (from + size)) (drop j places.old.items) }
    ensures capacity { vec_capacity places.old ≤ vec_capacity places.new }
{
    shift_from(places, j, to, from + size);
    if i == j && places.insert(i, from as u16).is_err() {
        unreachable!();
    }
}

/// Takes the places from i up to j away, and moves the others by as much as their cells move.
pub fn cut_places(places: &mut Vec<u16>, i: usize, j: usize, from: usize, to: usize)
    requires order { i ≤ j }
    requires inside { j ≤ vec_len places.old }
    requires near { from < 2 ^ 16 }
    requires can { CanMove to from (drop j places.old.items) }
    ensures items { places.new.items ≡ take i places.old.items ++ map (moved to from) (drop j places.old.items) }
    ensures capacity { vec_capacity places.old ≤ vec_capacity places.new }
{
    shift_from(places, j, to, from);
    remove_run(places, i, j);
}

/// Adds places, moved back by so much.
pub fn push_places(places: &mut Vec<u16>, more: &[u16], back: usize)
    requires behind { AllByRecursion (λ p. back ≤ p) more.now }
    requires near { back < 2 ^ 16 }
    requires room { vec_len places.old + length more.now ≤ vec_capacity places.old }
    ensures items { places.new.items ≡ places.old.items ++ map (λ p. p - back) more.now }
    ensures capacity { vec_capacity places.old ≤ vec_capacity places.new }
{
    for place in more {
        if places.push(*place - back as u16).is_err() {
            unreachable!();
        }
    }
}

/// The places from i on.
pub fn places_from(places: &[u16], i: usize) -> &[u16]
    requires { i ≤ length places.now }
    ensures { result.now ≡ drop i places.now }
{
    &places[i..]
}
