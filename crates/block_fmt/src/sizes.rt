//! How large a block and its parts are.

/// Where the cells of a block begin.
pub const HEAD: usize = 8;

/// How many bytes a block has for cells.
pub const ROOM: usize = 4088;

/// At most so many cells have room in a block: each has five bytes and more.
pub const MOST_CELLS: usize = 817;
