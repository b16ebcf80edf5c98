//! Runs of letters, digits and stops.
ghost use Rattle.std.specs.Prelude.{◌≡◌, ◌≤◌, ◌==◌, length, map, take_while, SomeIff, IfOk};
ghost use Rattle.std.specs.List.{list_any};
ghost use Rattle.std.specs.Char.{to_ascii_uppercase};
ghost use Rattle.ss_words.specs.declared.characters.TheConstants.{STOP};
ghost use Rattle.ss_words.specs.declared.limits.TheConstants.{LARGEST_NUMBER};
ghost use Rattle.ss_words.specs.TextBytes.{in_run};
ghost use Rattle.ss_words.specs.TextRuns.{without_stops, number_of, has_letter};
ghost use Rattle.ss_words.specs.TextSpelling.{spelling_of};

use crate::characters::{STOP, ZERO};
use crate::limits::LARGEST_NUMBER;
use crate::scan::bytes::in_run;
use std::alloc::{AllocError, Global};

/// The spelling of a run; without bytes it spells the number 0.
#[derive(Clone, Copy)]
pub enum Spelling {
    Name,
    Number(u64),
}

// How many bytes at the front are of a run.
pub fn run_len(line: &[u8]) -> usize
    ensures len { result ≡ length (take_while in_run line.now) }
    ensures in_range { result ≤ length line.now }
{
    line.iter().take_while(|byte| in_run(**byte)).count()
}

/// A run of letters, digits and stops without the stops at its end.
pub fn without_stops(run: &[u8]) -> &[u8]
    ensures kept { result.now ≡ without_stops run.now }
    ensures shorter { length result.now ≤ length run.now }
{
    let mut len = run.len();
    while len > 0 {
        if run[len - 1] != STOP {
            return &run[..len];
        }
        len -= 1;
    }
    &run[..0]
}

fn has_letter(run: &[u8]) -> bool
    ensures { result ≡ has_letter run.now }
{
    run.iter().any(|byte| byte.is_ascii_alphabetic())
}

fn has_stop(run: &[u8]) -> bool
    ensures { result ≡ list_any (λ b. b == STOP) run.now }
{
    run.iter().any(|byte| *byte == STOP)
}

// The number that digits spell, if it is not above the largest.
fn number_of(digits: &[u8]) -> Option<u64>
    ensures { SomeIff result (number_of digits.now ≤ LARGEST_NUMBER) (number_of digits.now) }
{
    let mut number = 0u64;
    for byte in digits {
        let digit = byte.saturating_sub(ZERO) as u64;
        if number > (LARGEST_NUMBER - digit) / 10 {
            return None;
        }
        number = 10 * number + digit;
    }
    Some(number)
}

// The spelling of a run without stops at its end; nothing if it has digits with a stop left in them
// or its number is too large.
#[tactic(auto, unfolding(crate::specs::TextRuns::is_bad_number))]
pub fn spelling_of(run: &[u8]) -> Option<Spelling>
    ensures { result ≡ spelling_of run.now }
{
    if has_letter(run) {
        return Some(Spelling::Name);
    }
    if has_stop(run) {
        return None;
    }
    match number_of(run) {
        Some(number) => Some(Spelling::Number(number)),
        None => None,
    }
}

pub fn upper_case(alloc: Global, run: &[u8]) -> Result<Vec<u8>, AllocError>
    ensures { IfOk result (λ name. name.items ≡ map to_ascii_uppercase run.now) }
{
    run.iter()
        .map(|byte| byte.to_ascii_uppercase())
        .collect(alloc)
}
