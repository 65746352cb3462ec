//! What a seat knows.
use std::collections::LinkedList;

/// What a seat knows of the pool. No value of it is made: it exists in contracts alone.
pub struct View {
    /// False once the seat is spent.
    pub live: bool,
    /// True of the writer's seat alone.
    pub writes: bool,
    /// How many data words the pool has.
    pub size: u64,
    /// The number of the pool's first entry.
    pub first: u64,
    /// The bytes of each entry that the writer claimed words for. A reader has the list as it was when its seat was made.
    pub entries: LinkedList<LinkedList<u8>>,
    /// How many data words the writer has stored.
    pub written: u64,
    /// The hardened count that the writer stored last, in words. A reader has the greatest one that it was told: as it was
    /// when its seat was made, or when a note that it took was made.
    pub hardened: u64,
    /// The address at which the reader's next entry begins.
    pub place: u64,
    /// The number of that entry.
    pub next: u64,
    /// The hardened count that the reader loaded last.
    pub hard: u64,
    /// The claimed count that the reader loaded last.
    pub claim: u64,
    /// How often the reader loaded the hardened count.
    pub hard_loads: u64,
    /// How often the reader loaded the claimed count to check what it holds.
    pub claim_loads: u64,
    /// The words that the reader loaded since its last check, each with its address.
    pub held: LinkedList<(u64, u64)>,
    /// The entries that the reader got, each with its number.
    pub got: LinkedList<(u64, LinkedList<u8>)>,
    /// The number of the first entry in the note that the reader took last.
    pub note_first: u64,
    /// The notes of the writer's list that the reader was given.
    pub notes: LinkedList<LinkedList<LinkedList<u8>>>,
    /// What a reader that the writer took in had got.
    pub told_got: LinkedList<(u64, LinkedList<u8>)>,
    /// The notes that it had been given.
    pub told_notes: LinkedList<LinkedList<LinkedList<u8>>>,
    /// The greatest hardened count that it had loaded or been told.
    pub told_hard: u64,
    /// The claimed count that it had loaded last.
    pub told_claim: u64,
}
