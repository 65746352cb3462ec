//! A scan over many bytes.
ghost use Rattle.std.specs.Prelude.{◌≡◌, ◌≤◌};
ghost use Rattle.repl_wire.specs.Scans.{IsSound, Completing};
ghost use Rattle.repl_wire.specs.Feeds.{Runs, Passes};

use super::field::{Part, Scan};

/// What bytes lead to.
#[derive(Clone, Copy, Debug)]
pub enum Ran {
    /// They are the beginning of a frame.
    Open(Scan),
    /// The first so many of them complete the frame.
    Whole(usize),
    /// No frame goes on so.
    Bad,
}

// Behind those of the next bytes that are in a value, of so many at most, but for the value's last: how many they are.
fn pass(scan: Scan, most: usize) -> (Scan, usize)
    ensures few { result.1 ≤ most }
    ensures passes { Passes scan result.1 result.0 }
{
    match scan.part {
        Part::Value { missing } if missing > 1 => {
            let count = (missing - 1).min(most.min(u16::MAX as usize) as u16);
            let behind = Scan {
                part: Part::Value {
                    missing: missing - count,
                },
                left: scan.left,
                items: scan.items,
            };
            (behind, count as usize)
        }
        _ => (scan, 0),
    }
}

/// Takes bytes until the frame is whole, or no frame goes on.
pub fn run(scan: Scan, bytes: &[u8]) -> Ran
    requires sound { IsSound scan }
    requires begun { scan.part ≡ Part.Whole → ⊥ }
    ensures { Runs result (Completing scan) bytes.now }
{
    let mut scan = scan;
    let mut i = 0;
    while i < bytes.len() {
        let (behind, passed) = pass(scan, bytes.len() - i);
        scan = behind;
        i += passed;
        if passed == 0 {
            match scan.take(bytes[i]) {
                None => return Ran::Bad,
                Some(next) => {
                    if next.is_whole() {
                        return Ran::Whole(i + 1);
                    }
                    scan = next;
                    i += 1;
                }
            }
        }
    }
    Ran::Open(scan)
}
