//! Fields that records alone have.
ghost use Rattle.std.specs.Prelude.{◌≡◌, ◌∷◌, [], List, ℕ, Bool, length};
ghost use Rattle.std.specs.Option.{option_map};
ghost use Rattle.global_defs.specs.Fields.{flag};
ghost use Rattle.repl_fields.specs.Reading.{ReadsField};

use global_defs::limits::BLOCK;

/// A byte that is 1 for true and 0 for false, and what follows it.
pub fn read_flag(bytes: &[u8]) -> Option<(bool, &[u8])>
    ensures { ReadsField (λ (_ : Bool). Unit {0}) (λ b. flag b ∷ []) bytes.now (option_map (λ p. (p.0, p.1.now)) result) }
{
    match bytes {
        [0, rest @ ..] => Some((false, rest)),
        [1, rest @ ..] => Some((true, rest)),
        _ => None,
    }
}

/// The bytes of a block, and what follows them.
pub fn read_image(bytes: &[u8]) -> Option<(&[u8], &[u8])>
    ensures { ReadsField (λ (image : List ℕ). length image ≡ 4096) (λ image. image) bytes.now (option_map (λ p. (p.0.now, p.1.now)) result) }
{
    if bytes.len() < BLOCK {
        return None;
    }
    Some(bytes.split_at(BLOCK))
}
