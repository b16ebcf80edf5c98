//! The questions that `--watch` and `--result` name, as the prompt takes them (docs/PROMPT.md).
ghost use Rattle.std.specs.Prelude.{◌≡◌, IfOk};
ghost use Rattle.ssrun.specs.Questions.{asked_after, asked_by, question_of};

use ss_program::Program;
use ss_prompt::{Missing, PromptCommand, prompt_command};
use ss_trace::Question;
use std::alloc::{AllocError, Global};

/// The question of a command of the prompt that is WHY, or the name in it that the model hasn't.
fn asked_by(command: PromptCommand) -> Option<Result<Question, Missing>>
    ensures { result ≡ asked_by command }
{
    match command {
        PromptCommand::Why(question) => Some(Ok(question)),
        PromptCommand::Missing(missing) => Some(Err(missing)),
        _ => None,
    }
}

/// The question that a text asks about a program after these words of the prompt, or the name in it
/// that the program hasn't; none if the text asks nothing there.
fn asked_after(
    alloc: Global,
    program: &Program,
    head: &[u8],
    text: &[u8],
) -> Result<Option<Result<Question, Missing>>, AllocError>
    ensures { IfOk result (λ asked. asked ≡ asked_after program.now head.now text.now) }
{
    let mut line = Vec::from_slice(alloc, head)?;
    line.extend_from_slice(text)?;
    Ok(asked_by(prompt_command(program, &line)))
}

/// The question that a text asks about a program after WHY at the prompt, or the name in it that
/// the program hasn't; else that of a name alone, which is a set's or a variable's; none if the
/// text asks nothing.
pub(crate) fn question_of(
    alloc: Global,
    program: &Program,
    text: &[u8],
) -> Result<Option<Result<Question, Missing>>, AllocError>
    ensures { IfOk result (λ asked. asked ≡ question_of program.now text.now) }
{
    if let Some(asked) = asked_after(alloc, program, b"WHY ", text)? {
        return Ok(Some(asked));
    }
    if let Some(Ok(set)) = asked_after(alloc, program, b"WHY SET ", text)? {
        return Ok(Some(Ok(set)));
    }
    asked_after(alloc, program, b"WHY VAR ", text)
}
