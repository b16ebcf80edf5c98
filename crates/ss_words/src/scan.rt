//! A model's text to its words, byte by byte from the left (docs/LANGUAGE.md, "Words").
mod bytes;
mod collected;
mod line;
mod lines;
mod names;
mod picture;
mod run;

ghost use Rattle.std.specs.Prelude.{◌≡◌, Ok, MatchResult};
ghost use Rattle.ss_words.specs.declared.fault.TextFault.TheVariants.{Refused};
ghost use Rattle.ss_words.specs.TextWords.{words_of, IsRefusalOf};

use crate::fault::{TextFault, TextRule};
use crate::word::Words;
use collected::Collected;
use line::scan_line;
use lines::Lines;
use picture::scan_picture;
pub use run::without_stops;
use std::alloc::Global;

/// The words of a model's text, or its refusal: of all rules from L1 to L5 that the text breaks,
/// the one at the earliest place, and at one place the one of the lowest number, with the line of
/// that place; lines count from 1. `Memory` comes only if the memory for the words was refused.
/// Reads each byte a fixed number of times.
pub fn words(alloc: Global, text: &[u8]) -> Result<Words, TextFault>
    ensures { MatchResult result (λ ws. words_of text.now ≡ Ok ws)
        (λ f. IsRefusalOf f (words_of text.now)) }
{
    let mut words = Collected::new(alloc);
    let mut lines = Lines::new(text);
    while let Some(line) = lines.next() {
        scan_line(&mut words, line, &lines)?;
        scan_picture(&mut words, &mut lines)?;
    }
    Ok(words.into_words())
}

// The refusal of a text that breaks a rule at a line.
fn refused(rule: TextRule, line: usize) -> TextFault
    ensures { result ≡ Refused rule line }
{
    TextFault::Refused { rule, line }
}
