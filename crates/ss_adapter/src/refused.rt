//! The explanation of the refusal of a model.
ghost use Rattle.std.specs.Prelude.{◌≡◌, IfOk};
ghost use Rattle.ss_prompt.specs.Explained.{check_explanation};
ghost use Rattle.ss_adapter.specs.Refused.{IsExplained};

use ss_prompt::{CheckRefusal, push_check_explanation};
use ss_sentences::text_refusal;
use ss_session::LoadFault;
use std::alloc::{AllocError, Global};

/// The explanation of a rule of the checker that refuses a model.
fn check_explanation(
    alloc: Global,
    model: &[u8],
    refusal: CheckRefusal<'_>,
) -> Result<Vec<u8>, AllocError>
    ensures { IfOk result (λ text. text.items ≡ check_explanation model.now refusal.entry.rule
        refusal.entry.line refusal.entry.wrong.now) }
{
    let mut text = Vec::new(alloc);
    push_check_explanation(alloc, model, refusal, &mut text)?;
    Ok(text)
}

/// The explanation of the refusal of a model: its rule, the line, the word and its place, and the
/// words that could be there.
pub fn explanation(alloc: Global, model: &[u8], fault: &LoadFault) -> Result<Vec<u8>, AllocError>
    ensures { IfOk result (λ text. IsExplained fault.now model.now text.items) }
{
    match fault {
        LoadFault::Text { .. } => text_refusal(alloc, model),
        LoadFault::Check { rule, line, wrong } => {
            let (rule, line) = (*rule, *line);
            check_explanation(alloc, model, CheckRefusal { rule, line, wrong })
        }
        LoadFault::Memory => Ok(Vec::new(alloc)),
    }
}
