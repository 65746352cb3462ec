//! What a read answers.

/// What a read answers, by the two counts that it loaded.
#[derive(Clone, Copy, Debug, PartialEq, Eq)]
pub enum ReadAnswer {
    /// The reader has the bytes of its next entry, and moved on.
    Got,
    /// The hardened count isn't past the reader's place.
    NotYet,
    /// The claimed count is greater than the reader's place plus the pool's words: the entry isn't whole any more.
    Overwritten,
}
