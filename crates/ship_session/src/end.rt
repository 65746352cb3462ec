// How a session ended.

/// How a session ended.
#[derive(Debug, Drop)]
pub enum SessionEnd<P> {
    /// The secondary has got a BYE. It has so many entries, all that the primary has.
    At(u64),
    /// Four connections of the session were cut.
    LinkCut,
    /// From this number on the secondary's entries aren't the primary's, and have to be rolled back first.
    RollbackFirst(u64),
    /// The bytes that came over the last connection have no admissible frame there.
    BadFrame {
        /// Counted from the connection's first byte.
        offset: u64,
    },
    /// The primary couldn't read an entry. The secondary has all that was sent before.
    Failed(P),
}
