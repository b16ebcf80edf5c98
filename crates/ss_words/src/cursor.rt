//! The cursor over plain words from which a parser reads.
#![tactic(auto, using(crate::proofs::Marks::taken), unfolding(crate::proofs::Unfoldings::cursor_together))]

ghost use Rattle.std.specs.Prelude.{IfOk, IfErr, OnErr, IsTrue, length, map, option_map, ◌≡◌, ◌==◌, ◌≤◌};
ghost use Rattle.std.specs.Prelude.{◌<◌, ◌-◌, Ok, Some};
ghost use Rattle.ss_words.specs.declared.refusal.Refusal.TheVariants.{Unexpected};
ghost use Rattle.ss_words.specs.Reading.{Gives, rest_of};
ghost use Rattle.ss_words.specs.Plain.{first, plain_of, plains_of, word_lines};
ghost use Rattle.ss_words.specs.Noting.{line};
ghost use Rattle.ss_words.specs.Marks as marks;

use crate::mark::Mark;
use crate::name::Name;
use crate::plain_word::{Plain, PlainWord};
use crate::refusal::Refusal;
use std::alloc::{AllocError, Global};
use std::marker::Model;

/// The plain words that are still to be read. After a refusal the word that was refused is the next
/// one: a call that reads one word has passed nothing, and one that reads several has passed those
/// before it.
#[derive(Drop)]
pub struct Cursor<'a> {
    alloc: Global,
    rest: &'a [PlainWord<'a>],
}

impl<'a> Model for Cursor<'a> {
    ghost use Rattle.std.specs.Prelude.{List};
    ghost use Rattle.ss_words.specs.Plain.{Plain, plains_of};

    ghost Value = { List Plain };

    ghost view = { λ cursor. plains_of cursor.rest.now };
}

impl<'a> Cursor<'a> {
    /// A cursor before these words. Its reader allocates from `alloc`.
    pub fn new(alloc: Global, words: &'a [PlainWord<'a>]) -> Self
        ensures { result ≡ plains_of words.now }
    {
        Cursor { alloc, rest: words }
    }

    /// The allocator of its reader.
    pub fn alloc(&self) -> Global {
        self.alloc
    }

    /// How many words are left.
    pub fn len(&self) -> usize
        ensures { result ≡ length self.now }
    {
        self.rest.len()
    }

    /// Whether no word is left.
    pub fn is_empty(&self) -> bool
        ensures { result ≡ (length self.now == 0) }
    {
        self.rest.is_empty()
    }

    /// The next word, which stays the next one; `None` if none is left.
    pub fn peek(&self) -> Option<Plain<'a>>
        ensures { first self.now ≡ option_map plain_of result }
    {
        match self.rest {
            [word, ..] => Some(word.kind()),
            [] => None,
        }
    }

    /// Whether the next word is this mark; false if none is left.
    pub fn is_next(&self, mark: Mark) -> bool
        ensures { result ≡ marks.is mark (first self.now) }
    {
        match self.rest {
            [word, ..] => is_mark(word.kind(), mark),
            [] => false,
        }
    }

    /// Passes the next word, if there is one.
    pub fn pass(&mut self)
        ensures exact { self.new ≡ rest_of self.old }
        ensures shorter { length self.new ≡ length self.old - 1 }
    {
        if let [_, rest @ ..] = self.rest {
            self.rest = rest;
        }
    }

    /// Passes this mark. `Unexpected` if another word or none is in its place.
    pub fn expect(&mut self, mark: Mark) -> Result<(), Refusal>
        ensures exact { Gives (λ x. tt) result self.new (marks.expect mark self.old) }
        // No memory is taken, so no other refusal; of `Memory` `exact` says nothing.
        ensures unexpected { IfErr result (λ e. e ≡ Unexpected) }
        ensures shorter { length self.new ≤ length self.old }
        ensures taken { IfOk result (λ _. length self.new < length self.old) }
    {
        if !self.is_next(mark) {
            return Err(Refusal::Unexpected);
        }
        self.pass();
        Ok(())
    }

    /// Whether the next word is this mark, which is then passed.
    pub fn eat(&mut self, mark: Mark) -> bool
        ensures exact { marks.eat mark self.old ≡ (Ok result, self.new) }
        ensures shorter { length self.new ≤ length self.old }
        ensures taken { IsTrue result → length self.new < length self.old }
    {
        let found = self.is_next(mark);
        if found {
            self.pass();
        }
        found
    }

    /// Passes a name and gives a copy of it. `Unexpected` if the next word is no name or none is
    /// left, `Memory` if the copy was refused.
    pub fn name(&mut self) -> Result<Name, Refusal>
        ensures exact { Gives (λ n. n) result self.new (marks.a_name self.old) }
        // Also if memory is refused, of which `exact` says nothing.
        ensures stays { OnErr result (self.new ≡ self.old) }
        ensures shorter { length self.new ≤ length self.old }
        ensures taken { IfOk result (λ _. length self.new < length self.old) }
    {
        let Some(Plain::Name(name)) = self.peek() else {
            return Err(Refusal::Unexpected);
        };
        let name = name.share()?;
        self.pass();
        Ok(name)
    }

    /// Passes a number. `Unexpected` if the next word is no number or none is left.
    pub fn number(&mut self) -> Result<u64, Refusal>
        ensures exact { Gives (λ n. n) result self.new (marks.a_number self.old) }
        // No memory is taken, so no other refusal; of `Memory` `exact` says nothing.
        ensures unexpected { IfErr result (λ e. e ≡ Unexpected) }
        ensures shorter { length self.new ≤ length self.old }
        ensures taken { IfOk result (λ _. length self.new < length self.old) }
    {
        let Some(Plain::Number(number)) = self.peek() else {
            return Err(Refusal::Unexpected);
        };
        self.pass();
        Ok(number)
    }

    /// Passes a picture and gives a copy of its lines. `Unexpected` if the next word is no picture
    /// or none is left, `Memory` if the memory for the copy was refused.
    pub fn picture(&mut self) -> Result<Vec<Vec<u8>>, Refusal>
        ensures exact { Gives (λ v. map (λ l. l.items) v.items) result self.new
            (marks.a_picture self.old) }
        // Also if memory is refused, of which `exact` says nothing.
        ensures stays { OnErr result (self.new ≡ self.old) }
        ensures shorter { length self.new ≤ length self.old }
        ensures taken { IfOk result (λ _. length self.new < length self.old) }
    {
        let Some(Plain::Picture(lines)) = self.peek() else {
            return Err(Refusal::Unexpected);
        };
        let lines = copied(self.alloc, lines)?;
        self.pass();
        Ok(lines)
    }

    /// The line of the next word, from 1, if the words that are left are the last ones of `text`; 0
    /// if none is left.
    pub fn line(&self, text: &[PlainWord<'_>]) -> usize
        ensures { result ≡ line (word_lines text.now) (length text.now - length self.now) }
    {
        let at = text.len().saturating_sub(self.rest.len());
        match text.get(at) {
            Some(word) => word.line(),
            None => 0,
        }
    }
}

// A plain word is this mark.
fn is_mark(kind: Plain<'_>, mark: Mark) -> bool
    ensures { result ≡ marks.is mark (Some (plain_of kind.entry)) }
{
    match kind {
        Plain::Mark(found) => is_same(mark, found),
        _ => false,
    }
}

// Two marks are one.
fn is_same(mark: Mark, found: Mark) -> bool
    ensures { result ≡ marks.same_mark mark found }
{
    match (mark, found) {
        (Mark::Sign(sign), Mark::Sign(found)) => sign == found,
        (Mark::Reserved(word), Mark::Reserved(found)) => word == found,
        _ => false,
    }
}

// A copy of these lines.
fn copied(alloc: Global, lines: &[Vec<u8>]) -> Result<Vec<Vec<u8>>, AllocError>
    ensures { IfOk result
        (λ copy. map (λ line. line.items) copy.items ≡ map (λ line. line.items) lines.now) }
{
    let mut copy = Vec::with_capacity(alloc, lines.len())?;
    for line in lines {
        copy.push(Vec::from_slice(alloc, line)?)?;
    }
    Ok(copy)
}
