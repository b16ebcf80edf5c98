//! Plain words: the words as the grammar sees them, each still next to the word that it comes from.
use crate::mark::Mark;
use crate::name::Name;
use crate::word::{Word, WordKind};

/// The kind of a plain word (docs/LANGUAGE.md, "Plain words"). A name and a picture are those of
/// the word that it comes from.
#[derive(Clone, Copy, Debug)]
pub enum Plain<'a> {
    /// A name that is no reserved word, in upper case.
    Name(&'a Name),
    /// From 0 to 2^63 - 1.
    Number(u64),
    /// A reserved word or a sign.
    Mark(Mark),
    /// The lines of a picture.
    Picture(&'a [Vec<u8>]),
}

impl<'a> Plain<'a> {
    ghost use Rattle.std.specs.Prelude.{◌≡◌};
    ghost use Rattle.ss_words.specs.Plain.{plain_of};
    ghost use Rattle.ss_words.specs.PlainRules.{mark_in};

    /// The reserved word or sign that it is; `None` if it is a name, a number or a picture.
    pub fn mark(&self) -> Option<Mark>
        ensures { result ≡ mark_in (plain_of self.now) }
    {
        match self {
            Plain::Mark(mark) => Some(*mark),
            _ => None,
        }
    }
}

/// A plain word: the word from which it comes, the place of that word in the list of words, from
/// 0, and the reserved word or sign that it is, if it is one.
#[derive(Clone, Copy, Debug)]
pub struct PlainWord<'a> {
    pub word: &'a Word,
    pub index: u32,
    pub mark: Option<Mark>,
}

impl<'a> PlainWord<'a> {
    ghost use Rattle.std.specs.Prelude.{◌≡◌};
    ghost use Rattle.ss_words.specs.Plain.{plain_of, plain_in};

    /// The line that it is on, from 1.
    pub fn line(&self) -> usize
        ensures { result ≡ self.now.word.now.line }
    {
        self.word.line
    }

    /// Its kind.
    pub fn kind(&self) -> Plain<'a>
        ensures { plain_of result ≡ plain_in self.now }
    {
        if let Some(mark) = self.mark {
            return Plain::Mark(mark);
        }
        match &self.word.kind {
            WordKind::Name(name) => Plain::Name(name),
            WordKind::Number(number) => Plain::Number(*number),
            WordKind::Sign(sign) => Plain::Mark(Mark::Sign(*sign)),
            WordKind::Picture(lines) => Plain::Picture(lines),
        }
    }
}
