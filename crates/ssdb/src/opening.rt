//! A whole dialogue over a model and its data.
ghost use Rattle.std.specs.Prelude.{◌≡◌, ◌-◌, ◌^◌, ◌<◌, OnOk, IfOk, IfErr, IfSome};
ghost use Rattle.std.specs.Prelude.{option_map};
ghost use Rattle.std.specs.Vec.{vec_capacity};
ghost use Rattle.ss_console.specs.declared.lines.TheConstants.{LONGEST_LINE};
ghost use Rattle.ss_console.specs.Event.{Adds, write_events};
ghost use Rattle.ss_state.specs.Run.{run};
ghost use Rattle.ss_prompt.specs.PromptState.{greeting};
ghost use Rattle.ss_prompt.specs.Resume.{resume_lines};
ghost use Rattle.ssdb.specs.Opening.{greeting_at, end_of_status, EndsWell, HoldFails, GreetingFails};
ghost use Rattle.ssdb.specs.Opening.{HoldsFrom, StopsFrom, IsHeld, IsStopped};
ghost use Rattle.ssdb.specs.Failures.{faults_after_end};
ghost use Rattle.ssdb.specs.Seen.{seen_of};

use crate::end::{Held, PromptEnd, PromptFault};
use crate::refused::refuse;
use ss_console::{Console, Cut, LONGEST_LINE, converse, put_all};
use ss_links::SetBoard;
use ss_prompt::{Prompt, Sources, source_lines};
use ss_session::{Opened, open_debugger_with_symbols};
use ss_state::Status;
use std::alloc::Global;

fn end(status: Status) -> PromptEnd
    ensures { result ≡ end_of_status status }
{
    match status {
        Status::Faulted(_) => PromptEnd::Faulted,
        Status::Ready | Status::Stopped | Status::Finished => PromptEnd::Done,
    }
}

/// Writes the position of the debugger.
#[tactic(auto, using(ss_console::proofs::Parts::no_prompt))]
fn put_greeting<S: SetBoard, C: Console>(
    alloc: Global,
    prompt: &Prompt<'_, S>,
    console: &mut C,
) -> Result<(), PromptFault>
    requires { (C.faults console.old).puts < 2 ^ 64 - 1 }
    ensures ok { OnOk result (Adds (C.log console.old) (C.log console.new)
        (write_events (greeting prompt.now)) × (C.faults console.new ≡ C.faults console.old)) }
    ensures err { IfErr result (λ fault. GreetingFails (greeting prompt.now)
        (C.log console.old) (C.log console.new) fault) }
    ensures faults { C.faults console.new ≡ faults_after_end result (C.faults console.old) }
    ensures lines { C.left console.new ≡ C.left console.old }
    ensures terminal { C.terminal console.new ≡ C.terminal console.old }
{
    let mut text = Vec::new(alloc);
    prompt.push_greeting(&mut text)?;
    match put_all(console, &text) {
        Ok(()) => Ok(()),
        Err(_) => Err(PromptFault::Cut(Cut::Write)),
    }
}

/// Writes the position of the debugger at a terminal, before the first line is read.
#[tactic(auto, using(ss_console::proofs::Parts::no_prompt))]
fn greet<S: SetBoard, C: Console>(
    alloc: Global,
    prompt: &Prompt<'_, S>,
    console: &mut C,
) -> Result<(), PromptFault>
    requires { (C.faults console.old).puts < 2 ^ 64 - 1 }
    ensures ok { OnOk result (Adds (C.log console.old) (C.log console.new)
        (write_events (greeting_at (C.terminal console.old) prompt.now))
        × (C.faults console.new ≡ C.faults console.old)) }
    ensures err { IfErr result (λ fault. GreetingFails
        (greeting_at (C.terminal console.old) prompt.now)
        (C.log console.old) (C.log console.new) fault) }
    ensures faults { C.faults console.new ≡ faults_after_end result (C.faults console.old) }
    ensures lines { C.left console.new ≡ C.left console.old }
    ensures terminal { C.terminal console.new ≡ C.terminal console.old }
{
    if console.is_terminal() {
        return put_greeting(alloc, prompt, console);
    }
    Ok(())
}

/// The lines that lead a new dialogue to the place of a prompt; none if memory for them is refused.
fn resume_of<S: SetBoard>(prompt: &Prompt<'_, S>) -> Option<Vec<u8>>
    ensures { IfSome (option_map (λ text. text.items) result)
        (λ lines. lines ≡ resume_lines prompt.now) }
{
    match prompt.resume_lines() {
        Ok(lines) => Some(lines),
        Err(_) => None,
    }
}

/// Answers the lines of a console, and gives how that ended, and the lines that lead there again.
fn hold<S: SetBoard, C: Console>(
    alloc: Global,
    prompt: &mut Prompt<'_, S>,
    line: &mut Vec<u8>,
    console: &mut C,
) -> Result<Held, PromptFault>
    requires room { LONGEST_LINE < vec_capacity line.old }
    requires reads { (C.faults console.old).reads < 2 ^ 64 - 1 }
    requires puts { (C.faults console.old).puts < 2 ^ 64 - 1 }
    ensures ok { OnOk result (EndsWell prompt.old prompt.new (C.log console.old)
        (seen_of (C.terminal console.old) (C.left console.old) (C.left console.new)
        (C.log console.old) (C.log console.new))) }
    ensures end { IfOk result
        (λ it. it.end ≡ end_of_status (run prompt.new.input prompt.new.debugger.position).status) }
    ensures resume { IfOk result
        (λ it. IfSome (option_map (λ text. text.items) it.resume)
        (λ lines. lines ≡ resume_lines prompt.new)) }
    ensures err { IfErr result (λ fault. HoldFails prompt.old prompt.new (C.log console.old)
        (seen_of (C.terminal console.old) (C.left console.old) (C.left console.new)
        (C.log console.old) (C.log console.new)) fault) }

    // It is cut short by exactly the one call that failed.
    ensures faults { C.faults console.new ≡ faults_after_end result (C.faults console.old) }
{
    let mut answer = Vec::new(alloc);
    converse(prompt, console, line, &mut answer)?;
    Ok(Held {
        end: end(prompt.status()),
        resume: resume_of(prompt),
    })
}

/// A whole dialogue of a prompt: the greeting, and the answers to the lines of a console.
#[tactic(auto, using(crate::proofs::Openings::holds))]
fn greet_and_hold<S: SetBoard, C: Console>(
    alloc: Global,
    mut prompt: Prompt<'_, S>,
    line: &mut Vec<u8>,
    console: &mut C,
) -> Result<Held, PromptFault>
    requires room { LONGEST_LINE < vec_capacity line.old }
    requires reads { (C.faults console.old).reads < 2 ^ 64 - 1 }
    requires puts { (C.faults console.old).puts < 2 ^ 64 - 1 }
    ensures ok { IfOk result (λ it. HoldsFrom prompt.entry (seen_of (C.terminal console.old)
        (C.left console.old) (C.left console.new) (C.log console.old) (C.log console.new))
        it.end (option_map (λ text. text.items) it.resume)) }
    ensures err { IfErr result (λ fault. StopsFrom prompt.entry (seen_of (C.terminal console.old)
        (C.left console.old) (C.left console.new) (C.log console.old) (C.log console.new)) fault) }
    ensures faults { C.faults console.new ≡ faults_after_end result (C.faults console.old) }
{
    let ended = match greet(alloc, &prompt, console) {
        Ok(()) => hold(alloc, &mut prompt, line, console),
        Err(fault) => Err(fault),
    };
    prompt.into_debugger().end();
    ended
}

/// Reads a model and answers the lines of a console about its run over its data (docs/PROMPT.md).
///
/// A refused model is reported there. Gives `Memory` if memory was refused before anything was
/// written. After a dialogue that ended, the lines are given that lead a new one to the same place.
#[tactic(auto, using(crate::proofs::Openings::none, ss_console::proofs::Parts::no_prompt))]
pub fn open_prompt<C: Console>(
    alloc: Global,
    model: &[u8],
    data_text: &[u8],
    console: &mut C,
) -> Result<Held, PromptFault>
    requires reads { (C.faults console.old).reads < 2 ^ 64 - 1 }
    requires puts { (C.faults console.old).puts < 2 ^ 64 - 1 }
    ensures ok { IfOk result (λ it. IsHeld model.now data_text.now
        (seen_of (C.terminal console.old) (C.left console.old) (C.left console.new)
        (C.log console.old) (C.log console.new))
        it.end (option_map (λ text. text.items) it.resume)) }
    ensures err { IfErr result (λ fault. IsStopped model.now data_text.now
        (seen_of (C.terminal console.old) (C.left console.old) (C.left console.new)
        (C.log console.old) (C.log console.new)) fault) }

    // It is cut short by exactly the one call that failed.
    ensures faults { C.faults console.new ≡ faults_after_end result (C.faults console.old) }
{
    let mut line = Vec::with_capacity(alloc, LONGEST_LINE + 1)?;
    let lines = source_lines(alloc, model)?;
    match open_debugger_with_symbols(alloc, model, data_text) {
        Ok(opened) => {
            let Opened { debugger, symbols } = opened;
            let sources = Sources {
                model,
                lines,
                data_text,
                symbols: &symbols,
            };
            let prompt = Prompt::new(alloc, debugger, sources);
            greet_and_hold(alloc, prompt, &mut line, console)
        }
        Err(fault) => Err(refuse(alloc, model, &fault, console)),
    }
}
