//! The names that commands speak of.
ghost use Rattle.std.specs.Prelude.{◌≡◌, ℕ, ◌≤◌, List, take, length, None, Some};
ghost use Rattle.std.specs.List.{list_all};
ghost use Rattle.ss_words.specs.TextBytes.{in_run};
ghost use Rattle.ss_words.specs.TextRuns.{has_letter};
ghost use Rattle.ss_debug.specs.CommandLines.{is_command_name, name_of};
ghost use Rattle.ss_debug.specs.declared.limits.TheConstants.{LONGEST_NAME};

use crate::limits::LONGEST_NAME;
use ss_words::without_stops;
use std::marker::Model;

/// A name of the language in upper case. It keeps its bytes in place, so that a command takes no
/// memory.
#[derive(Drop)]
pub struct Name {
    bytes: [u8; LONGEST_NAME],
    length: usize,
}

impl Model for Name {
    ghost Value = { List ℕ };

    ghost view = { λ n. take n.length n.bytes };

    ghost invariant = { λ n. n.length ≤ LONGEST_NAME };
}

#[tactic(auto, unfolding(ss_words::specs::TextBytes::in_run))]
fn is_name_byte(b: u8) -> bool
    ensures { result ≡ in_run b }
{
    b.is_ascii_alphabetic() || b.is_ascii_digit() || b == b'.'
}

fn is_run(word: &[u8]) -> bool
    ensures { result ≡ list_all in_run word.now }
{
    word.iter().all(|b| is_name_byte(*b))
}

fn has_letter(word: &[u8]) -> bool
    ensures { result ≡ has_letter word.now }
{
    word.iter().any(|b| b.is_ascii_alphabetic())
}

fn is_name(word: &[u8]) -> bool
    ensures { result ≡ is_command_name word.now }
{
    is_run(word) && has_letter(word) && word.len() <= LONGEST_NAME
}

impl Name {
    /// The name that a word in upper case is: letters, digits and stops, a letter among them, in at
    /// most `LONGEST_NAME` bytes; the stops at its end are dropped.
    #[tactic(auto, using(crate::proofs::Names::take_front), unfolding(crate::specs::CommandLines::name_of))]
    pub(crate) fn of(word: &[u8]) -> Option<Name>
        ensures { result ≡ name_of word.now }
    {
        if !is_name(word) {
            return None;
        }
        let kept = without_stops(word);
        let mut bytes = [0u8; LONGEST_NAME];
        bytes[..kept.len()].copy_from_slice(kept);
        Some(Name {
            bytes,
            length: kept.len(),
        })
    }

    /// The name's bytes, in upper case.
    pub fn as_slice(&self) -> &[u8]
        ensures { result.now ≡ self.now }
    {
        &self.bytes[..self.length]
    }
}
