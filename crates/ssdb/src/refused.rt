//! The text that is written for a refused model.
ghost use Rattle.std.specs.Prelude.{◌≡◌, ◌-◌, ◌^◌, ◌<◌, IfOk};
ghost use Rattle.ss_session.specs.Load.{IsLoadFault};
ghost use Rattle.ssdb.specs.Refused.{refused_model_text, IsTextTold, IsTold, IsRefusalWritten};
ghost use Rattle.ssdb.specs.Failures.{faults_after_fault};
ghost use Rattle.ssdb.specs.Seen.{seen_of};

use crate::end::PromptFault;
use ss_console::{Console, Cut, put_all};
use ss_prompt::{CheckRefusal, push_check_explanation};
use ss_sentences::text_refusal;
use ss_session::{LoadFault, refusal_text};
use std::alloc::{AllocError, Global};

/// The text for a model that a rule of the checker refuses.
fn check_told(alloc: Global, model: &[u8], refusal: CheckRefusal<'_>) -> Result<Vec<u8>, AllocError>
    ensures { IfOk result (λ text. text.items ≡ refused_model_text model.now refusal.entry.rule
        refusal.entry.line refusal.entry.wrong.now) }
{
    let mut text = refusal_text(alloc, refusal.rule.code(), refusal.line)?;
    push_check_explanation(alloc, model, refusal, &mut text)?;
    Ok(text)
}

/// The text for a model whose text is refused.
fn text_told(alloc: Global, model: &[u8], code: &str, line: usize) -> Result<Vec<u8>, AllocError>
    ensures { IfOk result (λ text. IsTextTold model.now code.now line text.items) }
{
    let said = text_refusal(alloc, model)?;
    let mut told = refusal_text(alloc, code, line)?;
    told.extend_from_slice(&said)?;
    Ok(told)
}

/// The text for a refused model.
fn told(alloc: Global, model: &[u8], fault: &LoadFault) -> Result<Vec<u8>, AllocError>
    requires { IsLoadFault fault.now model.now }
    ensures { IfOk result (λ text. IsTold model.now text.items) }
{
    match fault {
        LoadFault::Memory => Err(AllocError),
        LoadFault::Text { rule, line } => text_told(alloc, model, rule.code(), *line),
        LoadFault::Check { rule, line, wrong } => {
            let (rule, line) = (*rule, *line);
            check_told(alloc, model, CheckRefusal { rule, line, wrong })
        }
    }
}

/// Writes the text for a refused model, and gives the reason for which there is no dialogue.
#[tactic(auto, using(ss_console::proofs::Parts::no_prompt))]
pub fn refuse<C: Console>(
    alloc: Global,
    model: &[u8],
    fault: &LoadFault,
    console: &mut C,
) -> PromptFault
    requires puts { (C.faults console.old).puts < 2 ^ 64 - 1 }
    requires fault { IsLoadFault fault.now model.now }
    ensures told { IsRefusalWritten model.now (seen_of (C.terminal console.old) (C.left console.old)
        (C.left console.new) (C.log console.old) (C.log console.new)) result }
    ensures faults { C.faults console.new ≡ faults_after_fault result (C.faults console.old) }
{
    let Ok(text) = told(alloc, model, fault) else {
        return PromptFault::Memory;
    };
    match put_all(console, &text) {
        Ok(()) => PromptFault::Refused,
        Err(_) => PromptFault::Cut(Cut::Write),
    }
}
