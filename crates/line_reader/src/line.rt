//! How a line ends, and what reading one answers where it fails.

/// How a line ends.
#[derive(Clone, Copy, Debug, PartialEq, Eq)]
pub enum LineEnd {
    /// With a line feed.
    Feed,
    /// At the end of the input, behind one byte at least.
    Input,
    /// There is no byte more.
    Nothing,
    /// It has more than 4,096 bytes.
    TooLong,
}

/// Why a line wasn't read.
#[derive(Clone, Copy, Debug, PartialEq, Eq)]
pub enum LineError {
    /// A read failed: the source's count of faults has risen.
    Failed,
    /// There was no memory.
    NoMemory,
}
