//! The lines of a text, one after another.
ghost use Rattle.std.specs.Prelude.{◌≡◌, ◌+◌, ◌<◌, ◌≤◌, ◌^◌, ◌==◌, [], ◌∷◌, length, nat_le, position, MatchOption};
ghost use Rattle.std.specs.Prelude.{IfNone, OnSome};
ghost use Rattle.ss_words.specs.declared.characters.TheConstants.{LINE_FEED};
ghost use Rattle.ss_words.specs.TextLines.{text_lines, without_return};

use crate::characters::{CARRIAGE_RETURN, LINE_FEED};

/// The rest of a text, and how many of its lines have been taken.
#[derive(Clone, Copy)]
pub struct Lines<'a> {
    pub rest: &'a [u8],
    pub taken: usize,
    ghost fits: { taken + length rest.now < 2 ^ 63 },
}

// A line without the carriage return at its end.
fn without_return(line: &[u8]) -> &[u8]
    ensures { result.now ≡ without_return line.now }
{
    if line.is_empty() {
        return line;
    }
    let last = line.len() - 1;
    if line[last] == CARRIAGE_RETURN {
        &line[..last]
    } else {
        line
    }
}

// The place of the first line feed.
fn line_feed(text: &[u8]) -> Option<usize>
    ensures { result ≡ position (λ b. b == LINE_FEED) text.now }
{
    text.iter().position(|byte| *byte == LINE_FEED)
}

impl<'a> Lines<'a> {
    pub fn new(text: &'a [u8]) -> Self
        ensures rest { result.rest.now ≡ text.now }
        ensures taken { result.taken ≡ 0 }
    {
        Lines {
            rest: text,
            taken: 0,
        }
    }

    // Takes the next line, without its line end.
    pub fn next(&mut self) -> Option<&'a [u8]>
        ensures line { MatchOption result (text_lines self.old.rest.now ≡ [])
            (λ l. text_lines self.old.rest.now ≡ l.now ∷ text_lines self.new.rest.now) }
        ensures taken { OnSome result (self.new.taken ≡ self.old.taken + 1) }
        ensures shorter { OnSome result (length self.new.rest.now < length self.old.rest.now) }
        ensures none { IfNone result (self.new ≡ self.old) }
    {
        let text = self.rest;
        match line_feed(text) {
            Some(end) => {
                self.rest = &text[end + 1..];
                self.taken += 1;
                Some(without_return(&text[..end]))
            }
            None => {
                let line = without_return(text);
                if line.is_empty() {
                    return None;
                }
                self.rest = &[];
                self.taken += 1;
                Some(line)
            }
        }
    }

    // At least `count` lines are left.
    pub fn has(&self, count: usize) -> bool
        ensures { result ≡ nat_le count (length (text_lines self.now.rest.now)) }
    {
        let mut left = *self;
        for _line in 0..count {
            let Some(_) = left.next() else {
                return false;
            };
        }
        true
    }
}
