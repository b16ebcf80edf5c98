//! The words for who completes words.
ghost use Rattle.std.specs.Prelude.{◌≡◌, ◌-◌, ◌^◌, ◌<◌, IfErr, IfOk};
ghost use Rattle.ssdb.specs.Completion.{TellsWords, IsWordsCut};
ghost use Rattle.ssdb.specs.Failures.{faults_after_end};
ghost use Rattle.ssdb.specs.Seen.{seen_of};

use crate::end::{PromptEnd, PromptFault};
use crate::refused::refuse;
use ss_console::{Console, Cut, put_all};
use ss_prompt::push_completions;
use ss_session::load_program;
use std::alloc::Global;

/// Writes the words that may be in a line of a dialogue about a model (docs/PROMPT.md), a line
/// each.
///
/// A refused model is reported as before a dialogue. Gives `Memory` if memory was refused; then
/// nothing is written.
#[tactic(auto, using(ss_console::proofs::Parts::no_prompt))]
pub fn tell_words<C: Console>(
    alloc: Global,
    model: &[u8],
    console: &mut C,
) -> Result<PromptEnd, PromptFault>
    requires { (C.faults console.old).puts < 2 ^ 64 - 1 }
    ensures ok { IfOk result (λ end. TellsWords model.now (seen_of (C.terminal console.old)
        (C.left console.old) (C.left console.new) (C.log console.old) (C.log console.new)) end) }
    ensures err { IfErr result (λ fault. IsWordsCut model.now (seen_of (C.terminal console.old)
        (C.left console.old) (C.left console.new) (C.log console.old) (C.log console.new)) fault) }

    // It is cut short by exactly the one call that failed.
    ensures faults { C.faults console.new ≡ faults_after_end result (C.faults console.old) }
{
    match load_program(alloc, model) {
        Ok(program) => {
            let mut text = Vec::new(alloc);
            let pushed = push_completions(&mut text, &program);
            program.end();
            pushed?;
            match put_all(console, &text) {
                Ok(()) => Ok(PromptEnd::Done),
                Err(_) => Err(PromptFault::Cut(Cut::Write)),
            }
        }
        Err(fault) => Err(refuse(alloc, model, &fault, console)),
    }
}
