// A primary's answer to a HELLO.
ghost use Rattle.std.specs.Prelude.{◌≡◌, ◌∷◌, ◌++◌, ◌<◌, ◌^◌};
ghost use Rattle.std.specs.Int.{to_be_bytes, w64};
ghost use Rattle.global_defs.specs.declared.limits.TheConstants.{NUMBERS_END};
ghost use Rattle.gvn_model.specs.Entries.{history_value};
ghost use Rattle.wire_defs.specs.Frames.{spelled_frame};
ghost use Rattle.ship_defs.specs.Greeting.{IsAnswer};
ghost use Rattle.receiver_server.specs.Answers.{answer_frame};

use gvn_model::History;
use receiver_server::Handshake;
use resync_core::common;

// What a primary answers a secondary that told it this history.
pub(crate) fn answer(theirs: &History, its: &History) -> Handshake
    requires { its.now.length < NUMBERS_END }
    ensures { IsAnswer (history_value theirs.now) (history_value its.now) (answer_frame result) }
{
    let shared = common(theirs, its);
    if shared == its.length {
        Handshake::Resume(its.length + 1)
    } else {
        Handshake::RollbackFirst(shared + 1)
    }
}

// A frame of that type whose body is a number.
fn numbered(kind: u8, number: u64) -> [u8; 13]
    ensures { result ≡ kind ∷ 0 ∷ 0 ∷ 0 ∷ 8 ∷ to_be_bytes w64 number }
{
    let [a, b, c, d, e, f, g, h] = number.to_be_bytes();
    [kind, 0, 0, 0, 8, a, b, c, d, e, f, g, h]
}

// The bytes of an answer.
pub(crate) fn answer_bytes(answer: Handshake) -> [u8; 13]
    ensures { result ≡ spelled_frame (answer_frame answer) }
{
    match answer {
        Handshake::Resume(number) => numbered(2, number),
        Handshake::RollbackFirst(number) => numbered(3, number),
    }
}
