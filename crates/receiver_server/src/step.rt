// What a step answers.

/// A primary's answer to a HELLO.
#[derive(Clone, Copy, Debug, PartialEq, Eq)]
pub enum Handshake {
    /// The entries follow from this number on.
    Resume(u64),
    /// The entries from this number on have to be rolled back first.
    RollbackFirst(u64),
}

/// What a step did.
#[derive(Clone, Copy, Debug, PartialEq, Eq)]
pub enum Step {
    /// Bytes were received.
    Received,
    /// The primary's answer was heard.
    Answered(Handshake),
    /// Another frame was heard, and the entry that arrived with it was put into the pool.
    Heard,
    /// Nothing has come yet, or the pool has no place.
    Waits,
    /// The connection's last frame was heard, and nothing stands behind it so far.
    Over,
    /// The primary has ended before its last frame. That is a bad frame at [`Receiver::offset`](super::Receiver::offset), but where the
    /// primary failed.
    Ended,
}

/// Why a step heard nothing.
#[derive(Clone, Copy, Debug, PartialEq, Eq)]
pub enum HearError {
    /// The link is cut.
    Cut,
    /// No frame that fits stands there. It stands once all entries before it were applied: an earlier one may have too many nodes.
    BadFrame {
        /// Where it would begin.
        offset: u64,
    },
    /// Memory was refused. A later step goes on where this one stopped.
    NoMemory,
}
