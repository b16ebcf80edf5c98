//! The suspicious parts of a model.
ghost use Rattle.std.specs.Prelude.{◌≡◌, ◌++◌, IfOk};
ghost use Rattle.ss_names.specs.Unused.{program_warnings};
ghost use Rattle.ss_names.specs.Warnings.{warnings};
ghost use Rattle.ss_run.specs.Warned.{IsWarned};

use ss_names::{push_program_warnings, push_warnings};
use ss_program::Program;
use ss_session::{LoadFault, load_program};
use std::alloc::{AllocError, Global};

/// The warnings of a model's words.
fn words_warnings(alloc: Global, model: &[u8]) -> Result<Vec<u8>, AllocError>
    ensures { IfOk result (λ text. text.items ≡ warnings model.now) }
{
    let mut text = Vec::new(alloc);
    push_warnings(alloc, model, &mut text)?;
    Ok(text)
}

/// The warnings of a model's words, and after them those of its program.
fn program_told(alloc: Global, model: &[u8], program: &Program) -> Result<Vec<u8>, AllocError>
    ensures { IfOk result (λ text. text.items
        ≡ warnings model.now ++ program_warnings program.now model.now) }
{
    let mut text = words_warnings(alloc, model)?;
    push_program_warnings(alloc, program, model, &mut text)?;
    Ok(text)
}

/// The warnings of a model (docs/SENTENCES.md), each with its line: those of its words, and after
/// them those of its program, if it is one. The only error is that memory was refused.
pub fn model_warnings(alloc: Global, model: &[u8]) -> Result<Vec<u8>, AllocError>
    ensures { IfOk result (λ text. IsWarned model.now text.items) }
{
    match load_program(alloc, model) {
        Ok(program) => {
            let told = program_told(alloc, model, &program);
            program.end();
            told
        }
        Err(LoadFault::Memory) => Err(AllocError),
        Err(LoadFault::Text { .. }) => words_warnings(alloc, model),
        Err(LoadFault::Check { wrong, .. }) => {
            drop(wrong);
            words_warnings(alloc, model)
        }
    }
}
