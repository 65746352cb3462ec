//! Frames, lists of them, and what can be wrong with bytes.
ghost use Rattle.std.specs.Prelude.{◌≡◌, ◌==◌, ◌<◌, [], ◌∷◌, ◌++◌, length, map, Some, slice_get, OnOk, OnErr};
ghost use Rattle.repl_wire.specs.Values.{frame_value};

use gvn_key::{Bytes, NoMemory};
use gvn_model::{History, Reign, Transaction};
use std::alloc::{AllocError, Global};
use std::marker::Model;
use thiserror::Error;

/// A message between a primary and a secondary.
#[derive(Debug, Drop)]
pub enum Frame {
    /// A secondary's first frame.
    Hello {
        /// The version of the protocol, 1.
        version: u8,
        /// The secondary's name.
        name: Bytes,
        /// The secondary's length and its surviving reigns.
        history: History,
    },
    /// The entries follow from this number on.
    Resume(u64),
    /// The secondary has to roll back the entries from this number on.
    RollbackFirst(u64),
    /// The reign of the entries that follow.
    History(Reign),
    /// The entry of this number.
    Entry(u64, Transaction),
    /// The primary's last frame: how many entries it has.
    Bye(u64),
}

/// A list of frames, in the order in which they came. A call that answers [`NoMemory`] changes nothing.
#[derive(Debug, Drop)]
pub struct FrameList {
    items: Vec<Frame>,
}

impl Model for FrameList {
    ghost use Rattle.std.specs.Prelude.{List, map};
    ghost use Rattle.wire_defs.specs.Frames as defs;
    ghost use Rattle.repl_wire.specs.Values.{frame_value};

    ghost Value = { List defs.Frame };

    ghost view = { λ list. map frame_value list.items.items };
}

impl FrameList {
    /// An empty list. It takes no memory yet.
    pub fn new(alloc: Global) -> Self
        ensures { result ≡ [] }
    {
        FrameList {
            items: Vec::new(alloc),
        }
    }

    /// These frames, in their memory.
    pub fn of(items: Vec<Frame>) -> Self
        ensures { result ≡ map frame_value items.items }
    {
        FrameList { items }
    }

    /// How many frames there are.
    pub fn len(&self) -> usize
        ensures { result ≡ length self.now }
    {
        self.items.len()
    }

    /// Whether there is no frame.
    pub fn is_empty(&self) -> bool
        ensures { result ≡ (length self.now == 0) }
    {
        self.items.is_empty()
    }

    /// The frame at place `i`, from 0.
    pub fn item(&self, i: usize) -> &Frame
        requires { i < length self.now }
        ensures { slice_get self.now i ≡ Some (frame_value result.now) }
    {
        &self.items[i]
    }

    /// All the frames.
    pub fn as_slice(&self) -> &[Frame]
        ensures { map frame_value result.now ≡ self.now }
    {
        &self.items
    }

    /// All the frames by value. The list's memory goes with them.
    pub fn into_vec(self) -> Vec<Frame>
        ensures { map frame_value result.items ≡ self }
    {
        let FrameList { items } = self;
        items
    }

    /// Takes all frames away. The memory stays with the list.
    pub fn clear(&mut self)
        ensures { self.new ≡ [] }
    {
        self.items.clear();
    }

    /// Adds a frame at the end.
    #[inline(always)]
    pub fn push(&mut self, frame: Frame) -> Result<(), NoMemory>
        ensures ok { OnOk result (self.new ≡ self.old ++ frame_value frame ∷ []) }
        ensures err { OnErr result (self.new ≡ self.old) }
    {
        self.items.push(frame)?;
        Ok(())
    }
}

/// Why bytes weren't taken.
#[derive(Clone, Copy, Debug, PartialEq, Eq, Error)]
pub enum FrameError {
    /// No well-formed frame begins as the bytes at this offset do, counted from the connection's first byte.
    #[error("bad frame at {offset}")]
    BadFrame {
        /// Where the frame begins.
        offset: u64,
    },
    #[error("out of memory")]
    NoMemory,
}

impl From<NoMemory> for FrameError {
    ghost use Rattle.std.specs.Prelude.{◌≡◌};
    ghost use Rattle.repl_wire.specs.declared.frame.FrameError.TheVariants as errors;

    ghost from_gives = { λ _ e. e ≡ errors.NoMemory };

    fn from(_: NoMemory) -> Self {
        FrameError::NoMemory
    }
}

impl From<AllocError> for FrameError {
    ghost use Rattle.std.specs.Prelude.{◌≡◌};
    ghost use Rattle.repl_wire.specs.declared.frame.FrameError.TheVariants as errors;

    ghost from_gives = { λ _ e. e ≡ errors.NoMemory };

    fn from(_: AllocError) -> Self {
        FrameError::NoMemory
    }
}
