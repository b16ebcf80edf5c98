//! The kinds of a line's bytes: run, blank, sign and stray bytes; and whether a word begins at one.
#![tactic(auto, unfolding(crate::specs::Columns::begins_run, crate::specs::Columns::begins_word))]

ghost use Rattle.std.specs.Prelude.{◌≡◌, ◌≤◌, is_some, length, take_while};
ghost use Rattle.ss_words.specs.TextBytes.{in_run, is_allowed, is_blank, is_joined, is_stray, one_byte_sign};
ghost use Rattle.ss_columns.specs.Columns.{begins_run, begins_word};

use ss_words::characters::{
    ASTERISK, BLANK, CLOSING_PARENTHESIS, COMMA, EQUALS_SIGN, GREATER_SIGN, LESS_SIGN, MINUS_SIGN,
    OPENING_PARENTHESIS, PLUS_SIGN, STOP, TAB, TILDE,
};

/// A letter, a digit or a stop.
#[tactic(auto, unfolding(ss_words::specs::TextBytes::in_run))]
pub fn in_run(byte: u8) -> bool
    ensures { result ≡ in_run byte }
{
    byte.is_ascii_alphabetic() || byte.is_ascii_digit() || byte == STOP
}

/// How many bytes at the front are of a run.
pub fn run_len(rest: &[u8]) -> usize
    ensures len { result ≡ length (take_while in_run rest.now) }
    ensures in_range { result ≤ length rest.now }
{
    rest.iter().take_while(|byte| in_run(**byte)).count()
}

/// A byte that a line may contain.
#[tactic(auto, unfolding(ss_words::specs::TextBytes::is_allowed))]
pub fn is_allowed(byte: u8) -> bool
    ensures { result ≡ is_allowed byte }
{
    byte == TAB || (byte >= BLANK && byte <= TILDE)
}

/// A blank or a tab.
#[tactic(auto, unfolding(ss_words::specs::TextBytes::is_blank))]
fn is_blank(byte: u8) -> bool
    ensures { result ≡ is_blank byte }
{
    byte == BLANK || byte == TAB
}

#[tactic(auto, unfolding(ss_words::specs::TextBytes::one_byte_sign))]
fn is_sign(byte: u8) -> bool
    ensures { result ≡ is_some (one_byte_sign byte) }
{
    byte == PLUS_SIGN
        || byte == MINUS_SIGN
        || byte == ASTERISK
        || byte == OPENING_PARENTHESIS
        || byte == CLOSING_PARENTHESIS
        || byte == COMMA
        || byte == EQUALS_SIGN
        || byte == LESS_SIGN
        || byte == GREATER_SIGN
}

/// A byte that a line may not contain, or that is outside comments and no blank, run or sign.
/// `plain` is the byte with comments made blank.
#[tactic(auto, unfolding(ss_words::specs::TextBytes::is_stray))]
pub fn is_stray(byte: u8, plain: u8) -> bool
    ensures { result ≡ is_stray byte plain }
{
    !(is_allowed(byte) && (in_run(plain) || is_blank(plain) || is_sign(plain)))
}

/// A byte belongs to the same run or sign as the byte before it.
#[tactic(auto, unfolding(ss_words::specs::TextBytes::is_joined))]
pub fn is_joined(last: u8, byte: u8) -> bool
    ensures { result ≡ is_joined last byte }
{
    (in_run(last) && in_run(byte))
        || ((last == LESS_SIGN || last == GREATER_SIGN) && byte == EQUALS_SIGN)
}

/// A run with a letter or a digit begins here.
fn begins_run(mut rest: &[u8]) -> bool
    ensures { result ≡ begins_run rest.entry.now }
{
    while let [byte, behind @ ..] = rest {
        if !in_run(*byte) {
            return false;
        }
        if *byte != STOP {
            return true;
        }
        rest = behind;
    }
    false
}

/// A word begins here, after the byte `last`.
pub fn begins_word(last: u8, rest: &[u8]) -> bool
    ensures { result ≡ begins_word last rest.now }
{
    let [byte, ..] = rest else {
        return false;
    };
    !is_joined(last, *byte) && (begins_run(rest) || is_sign(*byte))
}
