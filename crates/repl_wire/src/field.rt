//! What comes next in a frame.
ghost use Rattle.std.specs.Prelude.{◌≡◌, MatchOption};
ghost use Rattle.repl_wire.specs.Kinds.{type_of};

use super::front::Front;
use gvn_key::KeyPrefix;

/// The types of frames.
#[derive(Clone, Copy, Debug)]
pub enum Kind {
    Hello,
    Resume,
    RollbackFirst,
    History,
    Entry,
    Bye,
}

impl Kind {
    /// The type that a frame's first byte is.
    pub fn of(byte: u8) -> Option<Kind>
        ensures { MatchOption result ((kind : Kind) → type_of kind ≡ byte → ⊥) (λ kind. type_of kind ≡ byte) }
    {
        match byte {
            1 => Some(Kind::Hello),
            2 => Some(Kind::Resume),
            3 => Some(Kind::RollbackFirst),
            4 => Some(Kind::History),
            5 => Some(Kind::Entry),
            6 => Some(Kind::Bye),
            _ => None,
        }
    }
}

/// A field of one byte.
#[derive(Clone, Copy, Debug)]
pub enum ByteField {
    Type,
    Version,
    SiteLength,
    RootLength,
    Updater,
    /// What an update does.
    Tag,
    /// The length of the key of a SET, or of another update.
    KeyLength(bool),
}

/// A number of more bytes.
#[derive(Clone, Copy, Debug)]
pub enum NumberField {
    /// The length of a frame's body.
    BodyLength(Kind),
    /// The length of a secondary's sequence.
    Length,
    ReignCount,
    Cycle,
    Start,
    /// A body that is a number.
    Alone,
    EntryNumber,
    Serial,
    UpdateCount,
    ValueLength,
}

/// What comes next, and how much of it has come.
#[derive(Clone, Copy, Debug)]
pub enum Part {
    Byte(ByteField),
    Number(NumberField, Front),
    /// A name of which so many bytes are missing: whether they are all, and whether it's a site's or a root's.
    Name {
        first: bool,
        missing: u8,
        site: bool,
    },
    /// The key of a SET, or of another update.
    Key {
        set: bool,
        prefix: KeyPrefix,
    },
    /// A value of which so many bytes are missing.
    Value {
        missing: u16,
    },
    /// Nothing.
    Whole,
}

/// How far a frame has come.
#[derive(Clone, Copy, Debug)]
pub struct Scan {
    pub part: Part,
    /// How many bytes of the frame stand behind the part, once its length is known.
    pub left: u32,
    /// How many reigns or updates stand behind the one that the part is in.
    pub items: u32,
}
