// How many bytes a call may move.
ghost use Rattle.std.specs.Prelude.{◌≡◌, ◌≢◌, ◌-◌, ◌<◌, ◌≤◌, IfSome, option_map};
ghost use Rattle.std.specs.Option.{ForSome};

// How many bytes one call moves at most.
pub(crate) const PIECE: usize = 4096;

// The bytes wanted, or fewer where fewer are left before a cut.
pub(crate) fn at_most(left: Option<u64>, wanted: usize) -> usize
    ensures wanted { result ≤ wanted }
    ensures left { IfSome left (λ most. result ≤ most) }
    ensures some { 0 < wanted → left ≢ Some 0 → 0 < result }
{
    match left {
        Some(most) if most < wanted as u64 => most as usize,
        _ => wanted,
    }
}

// What is left before a cut once so many bytes were moved.
pub(crate) fn less(left: Option<u64>, moved: usize) -> Option<u64>
    requires { ForSome left (λ most. moved ≤ most) }
    ensures { result ≡ option_map (λ most. most - moved) left }
{
    match left {
        Some(most) => Some(most - moved as u64),
        None => None,
    }
}
