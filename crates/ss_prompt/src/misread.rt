//! Lines in which a command asks for something in a text that is neither an expression nor a
//! condition.
ghost use Rattle.std.specs.Prelude.{◌≡◌, Bool, true, IfOk, OnErr, is_some, option_map};
ghost use Rattle.ss_prompt.specs.Misread as spec;
ghost use Rattle.ss_prompt.specs.declared.commands.PromptCommand.TheVariants as prompt;

use crate::commands::PromptCommand;
use crate::histories::text_with_rows;
use crate::manner::Manner;
use ss_sentences::line_misread as text_misread;
use std::alloc::{AllocError, Global};

/// Where a command asks for something in a text, by its manner; HISTORY only if the text has no
/// number of rows behind it.
fn meant_place(manner: Manner, text: &[u8]) -> Option<(usize, bool)>
    ensures { (n : Bool) → result ≡ spec.text_place (prompt.Meant manner text.now n) }
{
    match manner {
        Manner::RunChange | Manner::BackChange => Some((2, false)),
        Manner::Why | Manner::Display | Manner::Undisplay => Some((1, false)),
        Manner::History => match text_with_rows(text) {
            None => Some((1, false)),
            Some(_) => None,
        },
    }
}

/// Where a command asks for something in a text, if it does: how many words of the line come before
/// the text, and whether it has to be a condition; else it may be an expression too.
fn text_place(command: &PromptCommand) -> Option<(usize, bool)>
    ensures { result ≡ spec.text_place command.now }
{
    match command {
        PromptCommand::Value(..) => Some((1, false)),
        PromptCommand::Until(..) => Some((2, true)),
        PromptCommand::BreakWhen(..) => Some((3, true)),
        PromptCommand::Meant(manner, text, _) => meant_place(*manner, text.as_slice()),
        _ => None,
    }
}

/// Why the text in a line with this command is not what it has to be, if there is a text and it is
/// not: the answer to the line. `AllocError` if memory was refused, which is only if there is a text.
#[tactic(auto, unfolding(crate::specs::Misread::line_misread))]
pub fn line_misread(
    alloc: Global,
    command: &PromptCommand,
    line: &[u8],
) -> Result<Option<Vec<u8>>, AllocError>
    ensures said { IfOk result (λ said. option_map (λ s. s.items) said
        ≡ spec.line_misread command.now line.now) }
    ensures memory { OnErr result (is_some (spec.text_place command.now) ≡ true) }
{
    match text_place(command) {
        None => Ok(None),
        Some((words, is_condition)) => text_misread(alloc, words, is_condition, line),
    }
}
