//! The kinds of the bytes of a line.
#![tactic(auto, unfolding(crate::proofs::Unfoldings::bytes_together))]

ghost use Rattle.std.specs.Prelude.{◌≡◌};
ghost use Rattle.std.specs.List.{list_all};
ghost use Rattle.ss_words.specs.TextBytes.{is_allowed, is_blank, in_run, one_byte_sign, sign_from};

use crate::characters::{
    ASTERISK, BLANK, CLOSING_PARENTHESIS, COMMA, EQUALS_SIGN, GREATER_SIGN, LESS_SIGN, MINUS_SIGN,
    OPENING_PARENTHESIS, PLUS_SIGN, STOP, TAB, TILDE,
};
use crate::word::Sign;

// A byte that is allowed in a line.
pub fn is_allowed(byte: u8) -> bool
    ensures { result ≡ is_allowed byte }
{
    byte == TAB || (byte >= BLANK && byte <= TILDE)
}

// Each byte is allowed in a line.
pub fn all_allowed(bytes: &[u8]) -> bool
    ensures { result ≡ list_all is_allowed bytes.now }
{
    bytes.iter().all(|byte| is_allowed(*byte))
}

// A blank or a tab.
pub fn is_blank(byte: u8) -> bool
    ensures { result ≡ is_blank byte }
{
    byte == BLANK || byte == TAB
}

// A letter, a digit or a stop.
pub fn in_run(byte: u8) -> bool
    ensures { result ≡ in_run byte }
{
    byte.is_ascii_alphabetic() || byte.is_ascii_digit() || byte == STOP
}

fn one_byte_sign(byte: u8) -> Option<Sign>
    ensures { result ≡ one_byte_sign byte }
{
    match byte {
        PLUS_SIGN => Some(Sign::Plus),
        MINUS_SIGN => Some(Sign::Minus),
        ASTERISK => Some(Sign::Star),
        OPENING_PARENTHESIS => Some(Sign::Open),
        CLOSING_PARENTHESIS => Some(Sign::Close),
        COMMA => Some(Sign::Comma),
        EQUALS_SIGN => Some(Sign::Equal),
        LESS_SIGN => Some(Sign::Less),
        GREATER_SIGN => Some(Sign::Greater),
        _ => None,
    }
}

// The sign that begins with a byte in front of the byte `next`.
pub fn sign_from(byte: u8, next: u8) -> Option<Sign>
    ensures { result ≡ sign_from byte next }
{
    if byte == LESS_SIGN && next == EQUALS_SIGN {
        Some(Sign::LessEqual)
    } else if byte == GREATER_SIGN && next == EQUALS_SIGN {
        Some(Sign::GreaterEqual)
    } else {
        one_byte_sign(byte)
    }
}
