//! Sizes in the layout of a database, in bytes.

/// A page.
pub const PAGE_SIZE: usize = 4096;

/// The fields of a header, with which its page begins.
pub(crate) const HEADER_SIZE: usize = 52;

/// The fields of a free page, with which it begins.
pub(crate) const FREE_SIZE: usize = 8;

/// The head of a bucket page: its cells begin behind it.
pub const CELLS_AT: usize = 16;

/// What a bucket page has for its cells.
pub const CELLS_ROOM: usize = PAGE_SIZE - CELLS_AT;

/// The head of a cell: the length of its key and that of its value.
pub const CELL_HEAD: usize = 6;

/// The longest value that stands in its cell.
pub const MOST_INLINE: usize = 255;

/// The head of a value page: its bytes of the value begin behind it.
pub const VALUE_AT: usize = 16;

/// The most bytes of a value that a value page holds.
pub const VALUE_ROOM: usize = PAGE_SIZE - VALUE_AT;
