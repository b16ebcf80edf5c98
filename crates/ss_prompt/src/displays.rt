//! Questions that are answered at each stop.
ghost use Rattle.std.specs.Prelude.{◌≡◌, ◌<◌, ◌++◌, length, OnOk, IfOk, IfSome, option_map};
ghost use Rattle.ss_machine.specs.Moment.{position};
ghost use Rattle.ss_prompt.specs.PromptState.{text_shown, shown_at, answers_to};
ghost use Rattle.ss_prompt.specs.Displays.{place_among, shown_text};
ghost use Rattle.ss_prompt.specs.Valued.{Suits};

use crate::shown::Shown;
use ss_check::SymbolTable;
use ss_debug::Debugger;
use ss_expressions::{Meant, meaning_of};
use ss_links::SetBoard;
use ss_trace::{push_answer, push_asked};
use std::alloc::{AllocError, Global};

/// What is printed at each stop, as it is asked, in upper case and least digits.
pub(crate) fn asked_text(alloc: Global, shown: &Shown) -> Result<Vec<u8>, AllocError>
    ensures { IfOk result (λ text. text.items ≡ shown_text shown.now) }
{
    let mut asked = Vec::new(alloc);
    match shown {
        Shown::Asked(question) => push_asked(question, &mut asked)?,
        Shown::Text(text, _) => asked.extend_from_slice(text.as_slice())?,
    }
    Ok(asked)
}

/// The place among some of a question that is asked so.
pub(crate) fn place_among(
    alloc: Global,
    displays: &[Shown],
    text: &[u8],
) -> Result<Option<usize>, AllocError>
    ensures place { IfOk result (λ place. place ≡ place_among displays.now text.now) }
    ensures within { IfOk result (λ place. IfSome place (λ i. i < length displays.now)) }
{
    let Some((first, behind)) = displays.split_first() else {
        return Ok(None);
    };
    let other = asked_text(alloc, first)?;
    if other.as_slice() == text {
        return Ok(Some(0));
    }
    match place_among(alloc, behind, text)? {
        None => Ok(None),
        Some(place) => Ok(Some(place + 1)),
    }
}

/// Appends a text that was asked in the section with this number, with its value in the state of
/// the machine, if a symbol table is kept.
fn push_text<S: SetBoard>(
    debugger: &Debugger<S>,
    symbols: Option<&SymbolTable>,
    text: &[u8],
    section: usize,
    answer: &mut Vec<u8>,
) -> Result<(), AllocError>
    requires { Suits debugger.now.machine.input.program (option_map (λ s. s.now) symbols) }
    ensures { OnOk result (answer.new.items ≡ answer.old.items
        ++ text_shown (option_map (λ s. s.now) symbols.entry) debugger.now.machine.input
        (position debugger.now.machine) text.now section) }
{
    let Some(symbols) = symbols else {
        return Ok(());
    };
    let machine = debugger.machine();
    machine.known();
    match meaning_of(*answer.allocator(), machine, symbols, section, text)? {
        Some(Meant::As(meaning)) => meaning.push_displayed(answer, machine, text),
        _ => Ok(()),
    }
}

/// Appends what is printed at a stop, in the state of the machine.
fn push_shown<S: SetBoard>(
    debugger: &Debugger<S>,
    symbols: Option<&SymbolTable>,
    shown: &Shown,
    answer: &mut Vec<u8>,
) -> Result<(), AllocError>
    requires { Suits debugger.now.machine.input.program (option_map (λ s. s.now) symbols) }
    ensures { OnOk result (answer.new.items ≡ answer.old.items
        ++ shown_at (option_map (λ s. s.now) symbols.entry) debugger.now.machine.input
        (position debugger.now.machine) shown.now) }
{
    match shown {
        Shown::Asked(question) => push_answer(debugger, question, answer),
        Shown::Text(text, section) => {
            push_text(debugger, symbols, text.as_slice(), *section, answer)
        }
    }
}

/// Appends all that is printed at a stop, in the state of the machine.
pub(crate) fn push_answers<S: SetBoard>(
    debugger: &Debugger<S>,
    symbols: Option<&SymbolTable>,
    displays: &[Shown],
    answer: &mut Vec<u8>,
) -> Result<(), AllocError>
    requires { Suits debugger.now.machine.input.program (option_map (λ s. s.now) symbols) }
    ensures { OnOk result (answer.new.items ≡ answer.old.items
        ++ answers_to (option_map (λ s. s.now) symbols.entry) debugger.now.machine.input
        (position debugger.now.machine) displays.now) }
{
    let Some((first, behind)) = displays.split_first() else {
        return Ok(());
    };
    push_shown(debugger, symbols, first, answer)?;
    push_answers(debugger, symbols, behind, answer)
}
