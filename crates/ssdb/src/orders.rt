//! The commands that the program obeys itself, before the prompt sees their lines.
use ss_console::LONGEST_LINE;

/// A command of the program.
#[derive(Clone, Copy, Debug, PartialEq, Eq)]
pub enum Order<'a> {
    /// READ FROM: the lines of the file of this path come next.
    ReadFrom(&'a [u8]),
    /// LOG TO: what is read and printed goes to the file of this path, too.
    LogTo(&'a [u8]),
    /// LOG: it goes to no file any more.
    LogEnd,
    /// RELOAD: model and data are read again.
    Reload,
}

/// The fewest letters of a word that is cut.
const FEWEST_LETTERS: usize = 3;

/// Whether a byte separates the words of a line.
fn is_blank(byte: u8) -> bool {
    byte == b' ' || byte == b'\t'
}

/// The first word of a line, and what comes after it, without blanks at both ends.
fn first_word(line: &[u8]) -> (&[u8], &[u8]) {
    let text = line.trim_ascii();
    for at in 0..text.len() {
        if is_blank(text[at]) {
            return (&text[..at], text[at..].trim_ascii());
        }
    }
    (text, &[])
}

/// The path after a word, if the text begins with that word and has one.
fn path_after<'a>(word: &[u8], text: &'a [u8]) -> Option<&'a [u8]> {
    let (first, path) = first_word(text);
    if path.is_empty() || !first.eq_ignore_ascii_case(word) {
        return None;
    }
    Some(path)
}

/// Whether a word is another one, or at least three letters of its beginning.
fn is_cut(word: &[u8], whole: &[u8]) -> bool {
    word.len() >= FEWEST_LETTERS
        && word.len() <= whole.len()
        && word.eq_ignore_ascii_case(&whole[..word.len()])
}

/// The command of the program in a line, if it is one, with words in any case. A path is the rest
/// of the line as it is written. A line that is too long is none.
pub fn order_in(line: &[u8]) -> Option<Order<'_>> {
    if line.len() > LONGEST_LINE {
        return None;
    }
    let (verb, rest) = first_word(line);
    if verb.eq_ignore_ascii_case(b"READ") {
        return path_after(b"FROM", rest).map(Order::ReadFrom);
    }
    if verb.eq_ignore_ascii_case(b"LOG") && !rest.is_empty() {
        return path_after(b"TO", rest).map(Order::LogTo);
    }
    if verb.eq_ignore_ascii_case(b"LOG") {
        return Some(Order::LogEnd);
    }
    if is_cut(verb, b"RELOAD") && rest.is_empty() {
        return Some(Order::Reload);
    }
    None
}
