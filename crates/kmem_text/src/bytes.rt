//! The bytes that the grammar gives a meaning of their own.

pub const TAB: u8 = b'\t';

pub const LINE_FEED: u8 = b'\n';

pub const CARRIAGE_RETURN: u8 = b'\r';

pub const SPACE: u8 = b' ';

/// Begins a comment where it begins the first token of a line.
pub const COMMENT_SIGN: u8 = b'#';
