//! Requests that ask about the run.
ghost use Rattle.std.specs.Prelude.{◌≡◌, ◌+◌, ◌-◌, ◌^◌, ◌<◌, ◌∷◌, [], codes, IfOk, OnOk};
ghost use Rattle.ss_check.specs.Asked.{IsSymbolsOf};
ghost use Rattle.ss_machine.specs.Moment.{position};
ghost use Rattle.ss_state.specs.Run.{run};
ghost use Rattle.ss_debug.specs.View.{debugger_state_of};
ghost use Rattle.ss_messages.specs.Bodies.{list_body, result_body};
ghost use Rattle.ss_messages.specs.Messages.{posted_all, reply};
ghost use Rattle.ss_trace.specs.Value.{value_at};
ghost use Rattle.ss_scopes.specs.Variables.{scopes_text, variables_text};
ghost use Rattle.ss_adapter.specs.Looking.{exception_by, asked_of};
ghost use Rattle.ss_adapter.specs.Completions.{targets_before};
ghost use Rattle.ss_adapter.specs.Watch.{info_of};
ghost use Rattle.ss_adapter.specs.Turn.{adapter_state_of, report_at, answer_to_text, answer_to_asked};
ghost use Rattle.ss_adapter.specs.Turn.{answer_on_fault};
ghost use Rattle.ss_adapter.specs.Turn.{source_messages, answer_with_frames};
ghost use Rattle.ss_adapter.specs.Turn.{answer_about_run, answer_to_terminate};

use crate::completions::completions;
use crate::desk::Desk;
use crate::fixed::{CAPABILITIES, THREADS};
use crate::looking::{asked, exception};
use crate::pen::Pen;
use crate::telling::{tell_here, tell_over};
use crate::watch::info;
use ss_debug::Debugger;
use ss_expressions::{asked_answer, value_asked};
use ss_links::SetBoard;
use ss_messages::{
    Command, NOTHING, Post, Request, Source, Wanted, content_body, frames_body, list_body,
    result_body, sources_body, units_within, within_units, without_last,
};
use ss_program::Program;
use ss_readings::push_value;
use ss_scopes::{Page, push_frames, push_scopes, push_variables, question_value};
use ss_trace::Question;
use std::alloc::{AllocError, Global};

/// A text that is no question of the debugger, and why.
#[derive(Clone, Copy)]
struct NoQuestion<'a> {
    text: &'a [u8],
    reason: &'static [u8],
}

/// Answers a text that is no question: its value in the present state, as that of an expression
/// or a condition.
#[tactic(auto, unfolding(ss_messages::specs::Messages::posted_all))]
fn answer_text<S: SetBoard>(
    debugger: &Debugger<S>,
    desk: &Desk,
    request: &Request,
    post: &mut Post,
    asked: NoQuestion<'_>,
) -> Result<(), AllocError>
    requires symbols { IsSymbolsOf debugger.now.machine.input.program desk.now.symbols }
    requires sent { post.old.sent < 2 ^ 64 - 1 }
    ensures { OnOk result (post.new ≡ posted_all request.now post.old
        (answer_to_text (adapter_state_of debugger.now desk.now) asked.entry.text.now
        asked.entry.reason.now)) }
{
    let (alloc, machine) = (post.alloc(), debugger.machine());
    machine.known();
    let (section, _) = machine.place();
    if let Some(value) = value_asked(alloc, machine, &desk.symbols, section, asked.text)? {
        let mut said = Vec::new(alloc);
        push_value(&mut said, &Some(value))?;
        let body = result_body(alloc, &said)?;
        return post.reply(request, &body);
    }
    match asked_answer(alloc, machine, &desk.symbols, asked.text)? {
        Some(said) => post.fail(request, without_last(&said)),
        None => post.fail(request, asked.reason),
    }
}

/// Answers a question.
#[tactic(auto, unfolding(ss_messages::specs::Messages::posted_all))]
fn answer_question<S: SetBoard>(
    debugger: &Debugger<S>,
    request: &Request,
    post: &mut Post,
    question: &Question,
) -> Result<(), AllocError>
    requires { post.old.sent < 2 ^ 64 - 1 }
    ensures { OnOk result (post.new ≡ posted_all request.now post.old (reply (result_body
        (value_at debugger.now.machine.input question.now (position debugger.now.machine))) ∷ [])) }
{
    let value = question_value(post.alloc(), debugger, question)?;
    let body = result_body(post.alloc(), &value)?;
    post.reply(request, &body)
}

/// Answers the question, the expression or the condition that a text is.
fn ask<S: SetBoard>(
    debugger: &Debugger<S>,
    desk: &Desk,
    request: &Request,
    post: &mut Post,
    text: &[u8],
) -> Result<(), AllocError>
    requires symbols { IsSymbolsOf debugger.now.machine.input.program desk.now.symbols }
    requires sent { post.old.sent < 2 ^ 64 - 1 }
    ensures { OnOk result (post.new ≡ posted_all request.now post.old
        (answer_to_asked (adapter_state_of debugger.now desk.now) text.now
        (asked_of debugger.now.machine.input.program text.now))) }
{
    match asked(post.alloc(), debugger.machine().program(), text)? {
        Some(Ok(question)) => answer_question(debugger, request, post, &question),
        Some(Err(_)) => {
            let reason = b"nothing has this name";
            answer_text(debugger, desk, request, post, NoQuestion { text, reason })
        }
        None => {
            let reason = b"no question";
            answer_text(debugger, desk, request, post, NoQuestion { text, reason })
        }
    }
}

/// Answers with the fault at the position of the run.
#[tactic(auto, unfolding(ss_messages::specs::Messages::posted_all))]
fn tell_exception<S: SetBoard>(
    debugger: &Debugger<S>,
    request: &Request,
    post: &mut Post,
) -> Result<(), AllocError>
    requires { post.old.sent < 2 ^ 64 - 1 }
    ensures { OnOk result (post.new ≡ posted_all request.now post.old (answer_on_fault
        (exception_by (run debugger.now.machine.input (position debugger.now.machine)).status))) }
{
    match exception(post.alloc(), debugger.machine())? {
        Some(body) => post.reply(request, &body),
        None => post.fail(request, b"no fault"),
    }
}

/// Answers with the content of a source; the report is number 1.
#[tactic(auto, unfolding(ss_messages::specs::Messages::posted_all))]
fn tell_source<S: SetBoard>(
    debugger: &Debugger<S>,
    request: &Request,
    post: &mut Post,
    reference: u64,
) -> Result<(), AllocError>
    requires { post.old.sent < 2 ^ 64 - 1 }
    ensures { OnOk result (post.new ≡ posted_all request.now post.old (source_messages
        (report_at debugger.now.machine.input (debugger_state_of debugger.now)) reference)) }
{
    if reference != 1 {
        return post.fail(request, b"no source");
    }
    debugger.machine().known();
    let body = content_body(post.alloc(), debugger.machine().report())?;
    post.reply(request, &body)
}

/// Answers with a page of the frames.
#[tactic(auto, unfolding(ss_messages::specs::Messages::posted_all))]
fn tell_frames<S: SetBoard>(
    debugger: &Debugger<S>,
    source: Source<'_>,
    request: &Request,
    post: &mut Post,
    page: Page,
) -> Result<(), AllocError>
    requires { post.old.sent < 2 ^ 64 - 1 }
    ensures { OnOk result (post.new ≡ posted_all request.now post.old (answer_with_frames
        debugger.now.machine.input (run debugger.now.machine.input (position debugger.now.machine))
        source.entry.path.now source.entry.counting page.start page.count)) }
{
    let machine = debugger.machine();
    machine.known();
    let mut text = Vec::new(post.alloc());
    push_frames(&mut text, machine, source, page)?;
    let body = frames_body(post.alloc(), &text, machine.frames() as u64)?;
    post.reply(request, &body)
}

/// Answers with the scopes of a frame.
#[tactic(auto, unfolding(ss_messages::specs::Messages::posted_all))]
fn tell_scopes<S: SetBoard>(
    debugger: &Debugger<S>,
    request: &Request,
    post: &mut Post,
    frame: u64,
) -> Result<(), AllocError>
    requires { post.old.sent < 2 ^ 64 - 1 }
    ensures { OnOk result (post.new ≡ posted_all request.now post.old (reply
        (list_body (codes "scopes") (scopes_text debugger.now.machine.input
        (position debugger.now.machine) frame)) ∷ [])) }
{
    let mut text = Vec::new(post.alloc());
    push_scopes(&mut text, debugger.machine(), frame)?;
    let body = list_body(post.alloc(), b"scopes", &text)?;
    post.reply(request, &body)
}

/// Answers with the variables that are wanted.
#[tactic(auto, unfolding(ss_messages::specs::Messages::posted_all))]
fn tell_variables<S: SetBoard>(
    debugger: &Debugger<S>,
    request: &Request,
    post: &mut Post,
    wanted: Wanted,
) -> Result<(), AllocError>
    requires { post.old.sent < 2 ^ 64 - 1 }
    ensures { OnOk result (post.new ≡ posted_all request.now post.old (reply
        (list_body (codes "variables") (variables_text debugger.now.machine.input
        (position debugger.now.machine) wanted)) ∷ [])) }
{
    let mut text = Vec::new(post.alloc());
    push_variables(&mut text, debugger, wanted)?;
    let body = list_body(post.alloc(), b"variables", &text)?;
    post.reply(request, &body)
}

/// Answers whether a name in a reference may be a data break point.
#[tactic(auto, unfolding(ss_messages::specs::Messages::posted_all))]
fn tell_info(
    program: &Program,
    request: &Request,
    post: &mut Post,
    reference: u64,
    name: &[u8],
) -> Result<(), AllocError>
    requires { post.old.sent < 2 ^ 64 - 1 }
    ensures { OnOk result (post.new ≡ posted_all request.now post.old
        (reply (info_of program.now reference name.now) ∷ [])) }
{
    let body = info(post.alloc(), program, reference, name)?;
    post.reply(request, &body)
}

/// The items of the words that may be typed in a text, before a column.
fn targets(
    pen: Pen,
    program: &Program,
    section: usize,
    text: &[u8],
    column: u64,
) -> Result<Vec<u8>, AllocError>
    ensures { IfOk result (λ items. items.items
        ≡ targets_before program.now section pen.counting text.now column) }
{
    let units = pen.counting.meant_column(column).saturating_sub(1);
    let before = within_units(pen.alloc, text, units)?;
    let end = pen.counting.shown_column(units_within(text, units) + 1);
    completions(pen.alloc, program, section, &before, end)
}

/// The body with the words that may be typed in a text, before a column, with the locals of the
/// section in which the run is.
fn completions_body<S: SetBoard>(
    debugger: &Debugger<S>,
    pen: Pen,
    text: &[u8],
    column: u64,
) -> Result<Vec<u8>, AllocError>
    ensures { IfOk result (λ body. body.items ≡ list_body (codes "targets") (targets_before
        debugger.now.machine.input.program
        (run debugger.now.machine.input (position debugger.now.machine)).frame.section
        pen.counting text.now column)) }
{
    let machine = debugger.machine();
    machine.known();
    let (section, _) = machine.place();
    let items = targets(pen, machine.program(), section, text, column)?;
    list_body(pen.alloc, b"targets", &items)
}

/// Ends the run for the editor.
#[tactic(auto, unfolding(ss_messages::specs::Messages::posted_all))]
pub fn terminate(request: &Request, post: &mut Post) -> Result<(), AllocError>
    requires { post.old.sent + 2 < 2 ^ 64 - 1 }
    ensures { OnOk result (post.new ≡ posted_all request.now post.old answer_to_terminate) }
{
    post.reply(request, NOTHING)?;
    tell_over(request, post)
}

/// Answers a request that asks about the run.
#[tactic(auto, unfolding(ss_messages::specs::Messages::posted_all, crate::specs::Turn::answer_about_run))]
pub fn look<S: SetBoard>(
    debugger: &Debugger<S>,
    desk: &Desk,
    request: &Request,
    post: &mut Post,
) -> Result<(), AllocError>
    requires symbols { IsSymbolsOf debugger.now.machine.input.program desk.now.symbols }
    requires sent { post.old.sent + 2 < 2 ^ 64 - 1 }
    ensures { OnOk result (post.new ≡ posted_all request.now post.old
        (answer_about_run (adapter_state_of debugger.now desk.now) request.now.command)) }
{
    match &request.command {
        Command::Initialize(_) => post.reply(request, CAPABILITIES),
        Command::Launch(_, _, _) => post.fail(request, b"a run is launched already"),
        Command::Threads => post.reply(request, THREADS),
        Command::StackTrace(start, levels) => {
            let page = Page {
                start: *start as usize,
                count: *levels as usize,
            };
            tell_frames(debugger, desk.source(), request, post, page)
        }
        Command::Scopes(frame) => tell_scopes(debugger, request, post, *frame),
        Command::Variables(wanted) => tell_variables(debugger, request, post, *wanted),
        Command::DataBreakpointInfo(reference, name) => {
            let program = debugger.machine().program();
            tell_info(program, request, post, *reference, name.as_slice())
        }
        Command::Completions(text, column) => {
            let body = completions_body(debugger, desk.pen(post), text.as_slice(), *column)?;
            post.reply(request, &body)
        }
        Command::Ask(text) => ask(debugger, desk, request, post, text.as_slice()),
        Command::Source(reference) => tell_source(debugger, request, post, *reference),
        Command::LoadedSources => {
            let body = sources_body(post.alloc(), &desk.path)?;
            post.reply(request, &body)
        }
        Command::ExceptionInfo => tell_exception(debugger, request, post),
        Command::Pause => tell_here(debugger, request, post, b"pause"),
        Command::Terminate => terminate(request, post),
        Command::Missing(argument) => post.fail(request, argument.wanted_text()),
        Command::Unknown => post.fail(request, b"unknown request"),
        _ => post.reply(request, NOTHING),
    }
}
