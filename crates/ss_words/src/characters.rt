//! The bytes of a text, each by the name of its character. The definitions read these names too.

/// The tab, which is a blank too.
pub const TAB: u8 = b'\t';
/// The byte that ends a line.
pub const LINE_FEED: u8 = b'\n';
/// The byte that is dropped at a line's end.
pub const CARRIAGE_RETURN: u8 = b'\r';
/// The first of the bytes that are allowed in a line, apart from the tab.
pub const BLANK: u8 = b' ';
/// Two of them begin or end a comment.
pub const QUOTE: u8 = b'\'';

pub const OPENING_PARENTHESIS: u8 = b'(';

pub const CLOSING_PARENTHESIS: u8 = b')';

pub const ASTERISK: u8 = b'*';

pub const PLUS_SIGN: u8 = b'+';

pub const COMMA: u8 = b',';

pub const MINUS_SIGN: u8 = b'-';
/// The stop, which is allowed in a name and dropped at its end.
pub const STOP: u8 = b'.';
/// The digit whose value is 0.
pub const ZERO: u8 = b'0';

pub const LESS_SIGN: u8 = b'<';

pub const EQUALS_SIGN: u8 = b'=';

pub const GREATER_SIGN: u8 = b'>';
/// The last of the bytes that are allowed in a line.
pub const TILDE: u8 = b'~';
