//! The words found so far.
ghost use Rattle.std.specs.Prelude.{◌≡◌, Some};
ghost use Rattle.ss_words.specs.Words.{kind_of};
ghost use Rattle.ss_words.specs.TextRuns.{is_name, line_count};
ghost use Rattle.ss_words.specs.TextScan.{called_after, count_after};

use crate::fault::TextFault;
use crate::limits::MOST_PICTURE_LINES;
use crate::scan::names::Names;
use crate::scan::run::{Spelling, upper_case};
use crate::word::{Word, WordKind, Words};
use std::alloc::{AllocError, Global};
use std::marker::Model;

/// The words of the text so far, and the facts about them that matter to a picture that they may
/// call at their end.
#[derive(Drop)]
pub struct Collected {
    alloc: Global,
    words: Vec<Word>,
    names: Names,
    ends_in_as: bool,
    ends_in_print: bool,
    calls_picture: bool,
    // The number directly after the nearest PRINT, if it counts a picture's lines.
    lines: Option<u64>,
}

impl Model for Collected {
    ghost use Rattle.std.specs.Prelude.{List, map};
    ghost use Rattle.ss_words.specs.Words.{WordAt, word_at};
    ghost use Rattle.ss_words.specs.TextScan.{IsTracked, nearest};

    ghost Value = { List WordAt };

    ghost view = { λ a. map word_at a.words.items };

    ghost invariant = { λ a.
        IsTracked a.ends_in_as a.ends_in_print a.calls_picture a.lines
        (nearest (map word_at a.words.items)) };
}

// A word is this name, which is in upper case.
#[tactic(auto, unfolding(crate::specs::TextRuns::is_name))]
fn is_name(word: &WordKind, name: &[u8]) -> bool
    ensures { result ≡ is_name name.now (kind_of word.now) }
{
    match word {
        WordKind::Name(found) => found.bytes() == name,
        _ => false,
    }
}

// The count of a picture's lines that a word directly after PRINT gives.
#[tactic(auto, unfolding(crate::specs::TextRuns::line_count))]
fn line_count(word: &WordKind) -> Option<u64>
    ensures { result ≡ line_count (Some (kind_of word.now)) }
{
    match word {
        WordKind::Number(number) => {
            if *number >= 1 && *number <= MOST_PICTURE_LINES {
                Some(*number)
            } else {
                None
            }
        }
        _ => None,
    }
}

// The words, which end in AS or do not, call a picture once this word joins them.
fn called_after(word: &WordKind, behind_as: bool) -> bool
    ensures { result ≡ called_after (kind_of word.now) behind_as }
{
    is_name(word, b"THUS") || (is_name(word, b"FOLLOWS") && behind_as)
}

// The count of a picture's lines that is kept once this word joins the words.
fn count_after(word: &WordKind, behind_print: bool, count: Option<u64>) -> Option<u64>
    ensures { result ≡ count_after (kind_of word.now) behind_print count }
{
    if is_name(word, b"PRINT") {
        None
    } else if behind_print {
        line_count(word)
    } else {
        count
    }
}

impl Collected {
    ghost use Rattle.std.specs.Prelude.{[], ◌++◌, ◌∷◌, MatchResult, IfOk};
    ghost use Rattle.ss_words.specs.declared.fault.TextFault.TheVariants.{Memory};
    ghost use Rattle.ss_words.specs.TextWords.{on_line};
    ghost use Rattle.ss_words.specs.TextScan.{nearest};
    ghost use Rattle.ss_words.specs.TextRuns.{calls_picture, picture_lines};
    ghost use Rattle.ss_words.specs.TextSpelling.{spelled_word};

    pub fn new(alloc: Global) -> Self
        ensures { result ≡ [] }
    {
        Collected {
            alloc,
            words: Vec::new(alloc),
            names: Names::new(alloc),
            ends_in_as: false,
            ends_in_print: false,
            calls_picture: false,
            lines: None,
        }
    }

    pub fn alloc(&self) -> Global {
        self.alloc
    }

    // The word that a run spells.
    pub fn spelled(&mut self, run: &[u8], spelling: Spelling) -> Result<WordKind, AllocError>
        ensures same { self.new ≡ self.old }
        ensures spelled { IfOk result (λ k. kind_of k ≡ spelled_word run.now spelling) }
    {
        match spelling {
            Spelling::Name => {
                let name = self.names.name(upper_case(self.alloc, run)?)?;
                Ok(WordKind::Name(name))
            }
            Spelling::Number(number) => Ok(WordKind::Number(number)),
        }
    }

    pub fn push(&mut self, line: usize, kind: WordKind) -> Result<(), TextFault>
        ensures { MatchResult result
            (λ _. self.new ≡ self.old ++ on_line line (kind_of kind) ∷ [])
            (λ f. f ≡ Memory) }
    {
        let is_as = is_name(&kind, b"AS");
        let is_print = is_name(&kind, b"PRINT");
        let calls_picture = called_after(&kind, self.ends_in_as);
        let lines = count_after(&kind, self.ends_in_print, self.lines);
        self.words.push(Word { line, kind })?;
        self.ends_in_as = is_as;
        self.ends_in_print = is_print;
        self.calls_picture = calls_picture;
        self.lines = lines;
        Ok(())
    }

    // The words end in THUS, or in AS FOLLOWS.
    pub fn calls_picture(&self) -> bool
        ensures { result ≡ calls_picture (nearest self.now) }
    {
        self.calls_picture
    }

    // How many lines the picture has that the words call at their end.
    pub fn picture_lines(&self) -> Option<u64>
        ensures { result ≡ picture_lines (nearest self.now) }
    {
        self.lines
    }

    pub fn into_words(self) -> Words
        ensures { result ≡ self }
    {
        let Collected {
            alloc: _,
            words,
            names: _,
            ends_in_as: _,
            ends_in_print: _,
            calls_picture: _,
            lines: _,
        } = self;
        Words { list: words }
    }
}
