//! The console: a line is answered as at the prompt.
ghost use Rattle.std.specs.Prelude.{◌≡◌, ◌+◌, ◌-◌, ◌^◌, ◌<◌, ◌∷◌, [], true, false, IfOk, OnOk};
ghost use Rattle.ss_check.specs.Asked.{IsSymbolsOf};
ghost use Rattle.ss_debug.specs.LineTable.{without_line};
ghost use Rattle.ss_debug.specs.View.{debugger_state_of};
ghost use Rattle.ss_messages.specs.Bodies.{result_body};
ghost use Rattle.ss_messages.specs.Messages.{posted_all, reply};
ghost use Rattle.ss_adapter.specs.Console.{has_place, point_told, first_line};
ghost use Rattle.ss_adapter.specs.Console.{desk_with, desk_showing};
ghost use Rattle.ss_adapter.specs.Turn.{adapter_state_of, console_answer, console_after};
ghost use Rattle.ss_adapter.specs.Turn.{behind_command, left_at, desk_after, answer_to_line, behind_line};
ghost use Rattle.ss_adapter.specs.Turn.{console_command, answer_to_command, after_command};

use crate::breaks::next_line;
use crate::desk::{Desk, MOST_WATCHED};
use crate::telling::{MovementEnd, tell_movement};
use ss_debug::{Command, Debugger, split_line};
use ss_links::SetBoard;
use ss_messages::{Post, Request, Source, new_point_body, removed_point_body, result_body};
use ss_program::Program;
use ss_prompt::{LentModel, PromptCommand, answer_command, line_misread, prompt_command};
use std::alloc::{AllocError, Global};

/// Whether a place is on a line.
fn has_place(program: &Program, line: u32) -> bool
    ensures { result ≡ has_place program.now line }
{
    match next_line(program, u64::from(line)) {
        Some(nearest) => nearest == line,
        None => false,
    }
}

/// Drops a line of some.
fn drop_line(lines: &mut Vec<u32>, line: u32)
    ensures { lines.new.items ≡ without_line line lines.old.items }
{
    lines.retain(|other| *other != line);
}

/// A line of the model before a command of the console and after it.
#[derive(Clone, Copy)]
struct TurnedLine {
    /// Its number.
    line: u32,
    /// Whether it was a break line before.
    was_set: bool,
    /// Whether it is one after.
    is_set: bool,
}

/// Notes a line, if it became a break line, as if a request for lines had set it, or is none any
/// more.
fn note_break(desk: &mut Desk, turned: TurnedLine) -> Result<(), AllocError>
    ensures symbols { desk.new.symbols ≡ desk.old.symbols }
    ensures desk { OnOk result (desk.new
        ≡ desk_with desk.old turned.line turned.is_set turned.was_set) }
{
    if turned.is_set && !turned.was_set {
        desk.set.push(turned.line)?;
    }
    if turned.was_set && !turned.is_set {
        drop_line(&mut desk.set, turned.line);
        drop_line(&mut desk.sections, turned.line);
    }
    Ok(())
}

/// Sends the event for a line, if it became a break line or is none any more: that its break point
/// is new, or is removed.
#[tactic(auto, unfolding(ss_messages::specs::Messages::posted_all))]
fn tell_point(
    program: &Program,
    source: Source<'_>,
    request: &Request,
    post: &mut Post,
    turned: TurnedLine,
) -> Result<(), AllocError>
    requires { post.old.sent < 2 ^ 64 - 1 }
    ensures { OnOk result (post.new ≡ posted_all request.now post.old
        (point_told program.now source.entry.path.now source.entry.counting turned.line
        turned.is_set turned.was_set)) }
{
    let line = turned.line;
    let id = u64::from(line) + MOST_WATCHED as u64;
    let body = match (turned.is_set, turned.was_set) {
        (true, false) => {
            let has_place = has_place(program, line);
            new_point_body(post.alloc(), id, has_place, u64::from(line), source)?
        }
        (false, true) => removed_point_body(post.alloc(), id)?,
        _ => return Ok(()),
    };
    post.event(request, b"breakpoint", &body)
}

/// The first line of an answer.
fn first_line(alloc: Global, answer: &[u8]) -> Result<Vec<u8>, AllocError>
    ensures { IfOk result (λ line. line.items ≡ first_line answer.now) }
{
    let (first, _) = split_line(answer);
    let mut line = first.to_vec(alloc)?;
    line.push(b'\n')?;
    Ok(line)
}

/// Obeys a command as the prompt does, and replies with the prompt's answer; returns that.
#[tactic(auto, using(crate::proofs::Consoles::left_behind), unfolding(ss_messages::specs::Messages::posted_all))]
fn say<S: SetBoard>(
    debugger: &mut Debugger<S>,
    desk: &mut Desk,
    request: &Request,
    post: &mut Post,
    command: PromptCommand,
) -> Result<Vec<u8>, AllocError>
    requires symbols { IsSymbolsOf debugger.old.machine.input.program desk.old.symbols }
    requires sent { post.old.sent < 2 ^ 64 - 1 }
    ensures input { debugger.new.machine.input ≡ debugger.old.machine.input }
    ensures symbols { desk.new.symbols ≡ desk.old.symbols }
    ensures sent { OnOk result (post.new ≡ posted_all request.now post.old (reply (result_body
        (console_answer (adapter_state_of debugger.old desk.old) command)) ∷ [])) }
    ensures count { OnOk result (post.new.sent ≡ post.old.sent + 1) }
    ensures said { IfOk result (λ answer. answer.items
        ≡ console_answer (adapter_state_of debugger.old desk.old) command) }
    ensures debugger { OnOk result (debugger_state_of debugger.new
        ≡ (console_after (adapter_state_of debugger.old desk.old) command).debugger) }
    ensures desk { OnOk result (desk.new ≡ desk_showing desk.old
        (console_after (adapter_state_of debugger.old desk.old) command).displays) }
{
    let alloc = post.alloc();
    let model = LentModel {
        text: &desk.model,
        symbols: &desk.symbols,
    };
    let mut answer = Vec::new(alloc);
    answer_command(debugger, model, &mut desk.displays, command, &mut answer)?;
    let body = result_body(alloc, &answer)?;
    post.reply(request, &body)?;
    Ok(answer)
}

/// Obeys a command that is a movement, and sends its stop.
#[tactic(auto, unfolding(ss_messages::specs::Messages::posted_all))]
fn obey_movement<S: SetBoard>(
    debugger: &mut Debugger<S>,
    desk: &mut Desk,
    request: &Request,
    post: &mut Post,
    command: PromptCommand,
) -> Result<(), AllocError>
    requires symbols { IsSymbolsOf debugger.old.machine.input.program desk.old.symbols }
    requires sent { post.old.sent + 3 < 2 ^ 64 - 1 }
    ensures input { debugger.new.machine.input ≡ debugger.old.machine.input }
    ensures symbols { desk.new.symbols ≡ desk.old.symbols }
    ensures sent { OnOk result (post.new ≡ posted_all request.now post.old
        (reply (result_body (console_answer (adapter_state_of debugger.old desk.old) command))
        ∷ behind_command (adapter_state_of debugger.old desk.old) command true)) }
    ensures state { OnOk result (adapter_state_of debugger.new desk.new
        ≡ left_at (adapter_state_of debugger.old desk.old)
        (console_after (adapter_state_of debugger.old desk.old) command)
        (desk_after (adapter_state_of debugger.old desk.old) command true)) }
{
    let answer = say(debugger, desk, request, post, command)?;
    let line = first_line(post.alloc(), &answer)?;
    let end = MovementEnd {
        answer: &line,
        changed: None,
    };
    tell_movement(debugger, desk, request, post, end)
}

/// Obeys a command that is no movement, and sends the event for the line that becomes a break line,
/// or is none any more, if there is one.
#[tactic(auto, unfolding(ss_messages::specs::Messages::posted_all))]
fn obey_standing<S: SetBoard>(
    debugger: &mut Debugger<S>,
    desk: &mut Desk,
    request: &Request,
    post: &mut Post,
    command: PromptCommand,
) -> Result<(), AllocError>
    requires symbols { IsSymbolsOf debugger.old.machine.input.program desk.old.symbols }
    requires sent { post.old.sent + 1 < 2 ^ 64 - 1 }
    ensures input { debugger.new.machine.input ≡ debugger.old.machine.input }
    ensures symbols { desk.new.symbols ≡ desk.old.symbols }
    ensures sent { OnOk result (post.new ≡ posted_all request.now post.old
        (reply (result_body (console_answer (adapter_state_of debugger.old desk.old) command))
        ∷ behind_command (adapter_state_of debugger.old desk.old) command false)) }
    ensures state { OnOk result (adapter_state_of debugger.new desk.new
        ≡ left_at (adapter_state_of debugger.old desk.old)
        (console_after (adapter_state_of debugger.old desk.old) command)
        (desk_after (adapter_state_of debugger.old desk.old) command false)) }
{
    let Some(line) = command.point(debugger.machine().program()) else {
        say(debugger, desk, request, post, command)?;
        return Ok(());
    };
    let was_set = debugger.is_break_line(line as usize);
    say(debugger, desk, request, post, command)?;
    let is_set = debugger.is_break_line(line as usize);
    let turned = TurnedLine {
        line,
        was_set,
        is_set,
    };
    note_break(desk, turned)?;
    let program = debugger.machine().program();
    tell_point(program, desk.source(), request, post, turned)
}

/// A command as the console takes it: CLEAR needs a line, since an editor hears of one line at a
/// time.
fn console_command(command: PromptCommand) -> PromptCommand
    ensures { result ≡ console_command command }
{
    match command {
        PromptCommand::ClearAll => PromptCommand::Plain(Command::Bad),
        other => other,
    }
}

/// Obeys a command of the console.
fn obey_command<S: SetBoard>(
    debugger: &mut Debugger<S>,
    desk: &mut Desk,
    request: &Request,
    post: &mut Post,
    command: PromptCommand,
) -> Result<(), AllocError>
    requires symbols { IsSymbolsOf debugger.old.machine.input.program desk.old.symbols }
    requires sent { post.old.sent + 3 < 2 ^ 64 - 1 }
    ensures input { debugger.new.machine.input ≡ debugger.old.machine.input }
    ensures symbols { desk.new.symbols ≡ desk.old.symbols }
    ensures sent { OnOk result (post.new ≡ posted_all request.now post.old
        (answer_to_command (adapter_state_of debugger.old desk.old) command)) }
    ensures state { OnOk result (adapter_state_of debugger.new desk.new
        ≡ after_command (adapter_state_of debugger.old desk.old) command) }
{
    if command.is_movement() {
        obey_movement(debugger, desk, request, post, command)
    } else {
        obey_standing(debugger, desk, request, post, command)
    }
}

/// Answers a line as the prompt does, but for CLEAR without a line: if a command asks for something
/// in a text that is not what it has to be, it says so, and nothing changes.
#[tactic(auto, unfolding(ss_messages::specs::Messages::posted_all))]
pub fn obey_line<S: SetBoard>(
    debugger: &mut Debugger<S>,
    desk: &mut Desk,
    request: &Request,
    post: &mut Post,
    line: &[u8],
) -> Result<(), AllocError>
    requires symbols { IsSymbolsOf debugger.old.machine.input.program desk.old.symbols }
    requires sent { post.old.sent + 3 < 2 ^ 64 - 1 }
    ensures input { debugger.new.machine.input ≡ debugger.old.machine.input }
    ensures symbols { desk.new.symbols ≡ desk.old.symbols }
    ensures sent { OnOk result (post.new ≡ posted_all request.now post.old
        (answer_to_line (adapter_state_of debugger.old desk.old) line.now)) }
    ensures state { OnOk result (adapter_state_of debugger.new desk.new
        ≡ behind_line (adapter_state_of debugger.old desk.old) line.now) }
{
    let command = prompt_command(debugger.machine().program(), line);
    match line_misread(post.alloc(), &command, line)? {
        Some(misread) => {
            let body = result_body(post.alloc(), &misread)?;
            post.reply(request, &body)
        }
        None => obey_command(debugger, desk, request, post, console_command(command)),
    }
}
