//! Words of a text as the scan gives them, with their lines.
use crate::name::Name;
use std::marker::Model;

/// A sign of the language; the two-byte ones are one sign.
#[derive(Clone, Copy, Debug, PartialEq, Eq)]
pub enum Sign {
    Plus,
    Minus,
    Star,
    Open,
    Close,
    Comma,
    Equal,
    Less,
    Greater,
    LessEqual,
    GreaterEqual,
}

/// The kind of a word (docs/LANGUAGE.md, "Words").
#[derive(Debug, Drop)]
pub enum WordKind {
    /// Letters in upper case, digits and stops, with a letter and no stop at the end; at most 80
    /// bytes.
    Name(Name),
    /// From 0 to 2^63 - 1.
    Number(u64),
    Sign(Sign),
    /// The lines of a picture, 1 to 100 of them, each of at most 132 bytes, without their line
    /// ends.
    Picture(Box<Vec<Vec<u8>>>),
}

/// A word and the line on which it begins; lines count from 1.
#[derive(Debug, Drop)]
pub struct Word {
    pub line: usize,
    pub kind: WordKind,
}

/// The words of a text, in order. Contracts see the list of them as pure data.
#[derive(Debug, Drop)]
pub struct Words {
    pub list: Vec<Word>,
}

impl Model for Words {
    ghost use Rattle.std.specs.Prelude.{List, map};
    ghost use Rattle.ss_words.specs.Words.{WordAt, word_at};

    ghost Value = { List WordAt };

    ghost view = { λ a. map word_at a.list.items };
}
