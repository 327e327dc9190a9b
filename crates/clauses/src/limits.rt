// The limits of document 01 (specs/Limit.antt).

// Bytes of a text.
pub const MAX_TEXT: usize = 65536;

// V.
pub const MAX_NETS: u32 = 1024;

// C.
pub const MAX_CLAUSES: u32 = 4096;

// Entries of a literal row.
pub const MAX_ENTRIES: usize = 16384;

// The codes of literals and constants are below this.
pub const CODES: usize = 2 * MAX_NETS as usize + 2;

// Numbers of a text: its header has ten bytes or more, and each number two, but for one at the text's end.
pub const MAX_NUMBERS: usize = (MAX_TEXT - 10) / 2;
