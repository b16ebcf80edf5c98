//! launch: a model becomes a run.
ghost use Rattle.std.specs.Prelude.{◌≡◌, ◌≢◌, ◌+◌, ◌-◌, ◌^◌, ◌<◌, ◌≤◌, IfOk, OnOk, MatchOption};
ghost use Rattle.ss_check.specs.Asked.{IsSymbolsOf};
ghost use Rattle.ss_session.specs.Load.{IsLoadFault};
ghost use Rattle.ss_session.specs.declared.load.LoadFault.{LoadFault};
ghost use Rattle.ss_session.specs.declared.load.LoadFault.TheVariants.{Memory};
ghost use Rattle.ss_messages.specs.Messages.{posted_all};
ghost use Rattle.ss_prompt.specs.Names.{warnings_told};
ghost use Rattle.ss_adapter.specs.Before.{warning_events, answer_to_launch, answer_to_refused_launch};
ghost use Rattle.ss_adapter.specs.Before.{IsLaunched, IsRefusedLaunch, fault_line};
ghost use Rattle.ss_adapter.specs.Desk.{new_desk};
ghost use Rattle.ss_adapter.specs.Turn.{adapter_state_of};

use crate::desk::Desk;
use crate::launched::Launched;
use crate::refused::explanation;
use ss_messages::{NOTHING, Post, Request, Source, Stops, output_body, without_last};
use ss_names::{push_program_warnings, push_warnings};
use ss_program::Program;
use ss_session::{LoadFault, Opened, open_debugger_with_symbols, refusal_text};
use std::alloc::{AllocError, Global};

/// The line of a refused model.
fn fault_line(alloc: Global, fault: &LoadFault) -> Result<Vec<u8>, AllocError>
    ensures { IfOk result (λ text. text.items ≡ fault_line fault.now) }
{
    match fault {
        LoadFault::Text { rule, line } => refusal_text(alloc, rule.code(), *line),
        LoadFault::Check { rule, line, .. } => refusal_text(alloc, rule.code(), *line),
        LoadFault::Memory => Ok(Vec::new(alloc)),
    }
}

/// Answers launch with the line of a refused model, and its explanation.
#[tactic(auto, unfolding(ss_messages::specs::Messages::posted_all))]
fn refuse(
    request: &Request,
    post: &mut Post,
    fault: &LoadFault,
    said: &[u8],
) -> Result<(), AllocError>
    requires { post.old.sent + 1 < 2 ^ 64 - 1 }
    ensures { OnOk result (post.new ≡ posted_all request.now post.old
        (answer_to_refused_launch (fault_line fault.now) said.now)) }
{
    let mut line = fault_line(post.alloc(), fault)?;
    post.fail(request, without_last(&line))?;
    line.extend_from_slice(said)?;
    let body = output_body(post.alloc(), b"stderr", &line)?;
    post.event(request, b"output", &body)
}

/// Sends the warnings of a model, if there are some.
#[tactic(auto, unfolding(ss_messages::specs::Messages::posted_all))]
fn tell_warnings(request: &Request, post: &mut Post, warnings: &[u8]) -> Result<(), AllocError>
    requires { post.old.sent < 2 ^ 64 - 1 }
    ensures sent { OnOk result (post.new
        ≡ posted_all request.now post.old (warning_events warnings.now)) }
    ensures count { OnOk result (post.new.sent ≤ post.old.sent + 1) }
{
    if warnings.is_empty() {
        return Ok(());
    }
    let body = output_body(post.alloc(), b"console", warnings)?;
    post.event(request, b"output", &body)
}

/// Answers launch with the run of a model, which is warned of this, over its data, at its start.
fn accept(request: &Request, post: &mut Post, warnings: &[u8]) -> Result<(), AllocError>
    requires { post.old.sent + 2 < 2 ^ 64 - 1 }
    ensures { OnOk result (post.new
        ≡ posted_all request.now post.old (answer_to_launch warnings.now)) }
{
    post.reply(request, NOTHING)?;
    tell_warnings(request, post, warnings)?;
    post.event(request, b"initialized", NOTHING)
}

/// The warnings of a model.
#[tactic(auto, unfolding(ss_prompt::specs::Names::warnings_told))]
fn warnings(alloc: Global, program: &Program, model: &[u8]) -> Result<Vec<u8>, AllocError>
    ensures { IfOk result (λ text. text.items ≡ warnings_told program.now model.now) }
{
    let mut text = Vec::new(alloc);
    push_warnings(alloc, model, &mut text)?;
    push_program_warnings(alloc, program, model, &mut text)?;
    Ok(text)
}

/// Answers launch with the run of a model's program, and the warnings of the model.
fn tell_opened(
    request: &Request,
    post: &mut Post,
    program: &Program,
    model: &[u8],
) -> Result<(), AllocError>
    requires { post.old.sent + 2 < 2 ^ 64 - 1 }
    ensures { OnOk result (post.new ≡ posted_all request.now post.old
        (answer_to_launch (warnings_told program.now model.now))) }
{
    let text = warnings(post.alloc(), program, model)?;
    accept(request, post, &text)
}

/// How an editor has a run opened.
#[derive(Clone, Copy)]
pub struct Opening<'a> {
    /// The model, as the editor knows it.
    pub source: Source<'a>,
    /// The stops of the run.
    pub stops: Stops,
}

/// Answers launch of a model that is refused for this.
///
/// `AllocError` if memory was refused, now or while the model was read.
fn tell_refused(
    request: &Request,
    post: &mut Post,
    model: &[u8],
    fault: &LoadFault,
) -> Result<(), AllocError>
    requires { post.old.sent + 1 < 2 ^ 64 - 1 }
    ensures fault { OnOk result (fault.now ≢ Memory) }
    ensures sent { OnOk result (IsRefusedLaunch fault.now model.now request.now post.old post.new) }
{
    match fault {
        LoadFault::Memory => Err(AllocError),
        _ => {
            let said = explanation(post.alloc(), model, fault)?;
            refuse(request, post, fault, &said)
        }
    }
}

/// A copy of a path, and one of a model.
fn copies(alloc: Global, path: &[u8], model: &[u8]) -> Result<(Vec<u8>, Vec<u8>), AllocError>
    ensures { IfOk result (λ it. (it.0.items ≡ path.now) × (it.1.items ≡ model.now)) }
{
    let path = path.to_vec(alloc)?;
    let model = model.to_vec(alloc)?;
    Ok((path, model))
}

/// The run of a model that is opened, with nothing set.
fn run_of(
    alloc: Global,
    opening: Opening<'_>,
    model: &[u8],
    opened: Opened,
) -> Result<Launched, AllocError>
    requires { IsSymbolsOf opened.debugger.machine.input.program opened.symbols }
    ensures { IfOk result (λ run. run ≡ adapter_state_of opened.debugger
        (new_desk opening.entry.source.path.now model.now opened.symbols
        opening.entry.source.counting opening.entry.stops)) }
{
    let Opened { debugger, symbols } = opened;
    match copies(alloc, opening.source.path, model) {
        Ok((path, bytes)) => {
            let desk = Desk::new(path, bytes, symbols, opening.source.counting, opening.stops);
            Ok(Launched::new(debugger, desk))
        }
        Err(error) => {
            drop(symbols);
            debugger.end();
            Err(error)
        }
    }
}

/// Launches the run of a model that is opened, and answers the request.
fn begin(
    request: &Request,
    post: &mut Post,
    opening: Opening<'_>,
    model: &[u8],
    opened: Opened,
) -> Result<Launched, AllocError>
    requires symbols { IsSymbolsOf opened.debugger.machine.input.program opened.symbols }
    requires room { post.old.sent + 2 < 2 ^ 64 - 1 }
    ensures run { IfOk result (λ run. run ≡ adapter_state_of opened.debugger
        (new_desk opening.entry.source.path.now model.now opened.symbols
        opening.entry.source.counting opening.entry.stops)) }
    ensures sent { IfOk result (λ run. post.new ≡ posted_all request.now post.old
        (answer_to_launch (warnings_told run.input.program model.now))) }
{
    let run = run_of(post.alloc(), opening, model, opened)?;
    match tell_opened(request, post, run.program(), model) {
        Ok(()) => Ok(run),
        Err(error) => {
            run.end();
            Err(error)
        }
    }
}

/// Launches the run of a model over its data, and answers the request.
///
/// `None` if the model is refused; the answer says why, and on which line. `AllocError` if memory
/// was refused.
pub fn launch(
    request: &Request,
    post: &mut Post,
    opening: Opening<'_>,
    model: &[u8],
    text: &[u8],
) -> Result<Option<Launched>, AllocError>
    requires { post.old.sent + 2 < 2 ^ 64 - 1 }
    ensures run { IfOk result (λ opened. MatchOption opened
        ((fault : LoadFault) × (fault ≢ Memory) × IsLoadFault fault model.now
        × IsRefusedLaunch fault model.now request.now post.old post.new)
        (λ run. IsLaunched model.now text.now opening.entry.source.path.now
        opening.entry.source.counting opening.entry.stops run
        × (post.new ≡ posted_all request.now post.old
        (answer_to_launch (warnings_told run.input.program model.now))))) }
{
    match open_debugger_with_symbols(post.alloc(), model, text) {
        Ok(opened) => Ok(Some(begin(request, post, opening, model, opened)?)),
        Err(fault) => {
            let told = tell_refused(request, post, model, &fault);
            drop(fault);
            told?;
            Ok(None)
        }
    }
}
