//! How many bytes a frame has, without writing it.
ghost use Rattle.std.specs.Prelude.{◌≡◌, ◌≤◌, length, map};
ghost use Rattle.std.specs.List.{AllByRecursion};
ghost use Rattle.global_defs.specs.declared.limits.TheConstants.{LONGEST_BODY};
ghost use Rattle.global_defs.specs.Fields.{IsReign, IsUpdate, spelled_update};
ghost use Rattle.gvn_key.specs.Terms.{update_value};
ghost use Rattle.gvn_model.specs.Reigns.{reign_value};
ghost use Rattle.wire_defs.specs.Frames.{spelled_frame, spelled_reign, frame_body, IsFrame};
ghost use Rattle.repl_wire.specs.Values.{frame_value};
ghost use Rattle.repl_wire.specs.Totals.{total};

use super::frame::Frame;
use gvn_key::terms::Update;
use gvn_model::Reign;

/// How many bytes a reign has.
fn reign_length(reign: &Reign) -> u64
    requires { IsReign (reign_value reign.now) }
    ensures { result ≡ length (spelled_reign (reign_value reign.now)) }
{
    13 + reign.stamp.root.len() as u64
}

/// How many bytes reigns have.
fn reigns_length(reigns: &[Reign]) -> u64
    requires form { AllByRecursion IsReign (map reign_value reigns.now) }
    requires most { total spelled_reign (map reign_value reigns.now) ≤ LONGEST_BODY }
    ensures { result ≡ total spelled_reign (map reign_value reigns.now) }
{
    let mut sum = 0;
    for reign in reigns {
        sum += reign_length(reign);
    }
    sum
}

/// How many bytes an update has.
fn update_length(update: &Update) -> u64
    requires { IsUpdate (update_value update.now) }
    ensures { result ≡ length (spelled_update (update_value update.now)) }
{
    match update {
        Update::Set(key, value) => 4 + key.as_encoded().len() as u64 + value.len() as u64,
        Update::Kill(key) | Update::ZKill(key) => 2 + key.as_encoded().len() as u64,
    }
}

/// How many bytes updates have.
fn updates_length(updates: &[Update]) -> u64
    requires form { AllByRecursion IsUpdate (map update_value updates.now) }
    requires most { total spelled_update (map update_value updates.now) ≤ LONGEST_BODY }
    ensures { result ≡ total spelled_update (map update_value updates.now) }
{
    let mut sum = 0;
    for update in updates {
        sum += update_length(update);
    }
    sum
}

/// How many bytes a frame's body has.
fn body_length(frame: &Frame) -> u64
    requires { IsFrame (frame_value frame.now) }
    ensures { result ≡ length (frame_body (frame_value frame.now)) }
{
    match frame {
        Frame::Hello { name, history, .. } => {
            14 + name.len() as u64 + reigns_length(history.reigns.as_slice())
        }
        Frame::Resume(_) | Frame::RollbackFirst(_) | Frame::Bye(_) => 8,
        Frame::History(reign) => reign_length(reign),
        Frame::Entry(_, transaction) => 15 + updates_length(transaction.updates.as_slice()),
    }
}

/// How many bytes a frame has, its type and its length with them: where it begins and this many further on the next one begins.
pub fn frame_length(frame: &Frame) -> u64
    requires { IsFrame (frame_value frame.now) }
    ensures { result ≡ length (spelled_frame (frame_value frame.now)) }
{
    5 + body_length(frame)
}
