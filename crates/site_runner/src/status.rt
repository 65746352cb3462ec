/// How a run ended. The program's exit statuses are 0 to 6, in this order.
#[derive(Clone, Copy, Debug, PartialEq, Eq)]
pub enum Status {
    /// The script was read to its end and all its output was written.
    Ok,
    /// The words are no command line; nothing was read or written.
    BadWords,
    /// The first line outside the form of a script, and where in it, both from 1.
    BadLine { line: u32, column: u32 },
    /// There are more than 100,000 lines.
    ScriptTooLong,
    /// A read of the script failed.
    SourceFault,
    /// A write of the output failed.
    SinkFault,
    /// There was no memory.
    NoMemory,
}
