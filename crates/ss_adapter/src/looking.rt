//! The parts of a state that replies show.
ghost use Rattle.std.specs.Prelude.{◌≡◌, ◌++◌, ◌+◌, ◌<◌, codes, decimal, IfOk, option_map};
ghost use Rattle.ss_debug.specs.Move.{line_at};
ghost use Rattle.ss_machine.specs.Moment.{position};
ghost use Rattle.ss_state.specs.Run.{run};
ghost use Rattle.ss_adapter.specs.Looking.{reason_at, is_hit, hit_at, is_end, is_over, exception_by};
ghost use Rattle.ss_adapter.specs.Looking.{named_in, named_by, asked_of, question_of, question_fault};
ghost use Rattle.ss_adapter.specs.Places.{line_id};

use crate::desk::MOST_WATCHED;
use itoa::Buffer;
use ss_debug::{Command, Debugger};
use ss_links::SetBoard;
use ss_machine::Machine;
use ss_messages::exception_body;
use ss_program::Program;
use ss_prompt::{Manner, Missing, PromptCommand, asked_of_program, bare_question, prompt_command};
use ss_sentences::fault_sentence;
use ss_state::Status;
use ss_trace::{Question, is_ready_now};
use std::alloc::{AllocError, Global};

/// Why the run stops at its position.
pub fn reason<S: SetBoard>(debugger: &Debugger<S>) -> &'static [u8]
    ensures { result.now ≡ reason_at debugger.now.machine.input debugger.now.breaks
        (position debugger.now.machine) }
{
    let machine = debugger.machine();
    machine.known();
    match machine.status() {
        Status::Faulted(_) => b"exception",
        Status::Stopped | Status::Finished => b"end",
        Status::Ready => {
            if machine.position() == 0 {
                return b"entry";
            }
            if debugger.stands_on_break() {
                return b"breakpoint";
            }
            b"step"
        }
    }
}

/// The line of the place at which the run is.
fn present_line<S: SetBoard>(machine: &Machine<S>) -> usize
    ensures { result ≡ line_at machine.now.input (position machine.now) }
{
    machine.known();
    let (section, place) = machine.place();
    machine.program().spot(section, place).line
}

/// The number of the break point of a line.
fn line_id(line: usize) -> Option<u64>
    ensures { result ≡ line_id line }
{
    match u32::try_from(line) {
        Ok(line) => Some(u64::from(line) + MOST_WATCHED as u64),
        Err(_) => None,
    }
}

/// Whether the run stops because of a break line.
fn is_hit<S: SetBoard>(debugger: &Debugger<S>) -> bool
    ensures { result ≡ is_hit debugger.now.machine.input debugger.now.breaks
        (position debugger.now.machine) }
{
    is_ready_now(debugger) && debugger.machine().position() != 0 && debugger.stands_on_break()
}

/// The break line at which the run stops, if it stops because of that.
pub fn hit<S: SetBoard>(debugger: &Debugger<S>) -> Option<u64>
    ensures { result ≡ hit_at debugger.now.machine.input debugger.now.breaks
        (position debugger.now.machine) }
{
    if is_hit(debugger) {
        return line_id(present_line(debugger.machine()));
    }
    None
}

/// Whether a run has ended with this status, by no fault.
fn is_end(status: Status) -> bool
    ensures { result ≡ is_end status }
{
    match status {
        Status::Stopped | Status::Finished => true,
        _ => false,
    }
}

/// Whether the run is over for the editor: it is at its end, and doesn't stop there.
pub fn is_over<S: SetBoard>(machine: &Machine<S>, at_end: bool) -> bool
    ensures { result ≡ is_over at_end (run machine.now.input (position machine.now)).status }
{
    machine.known();
    !at_end && is_end(machine.status())
}

/// The word of a fault.
fn fault_word(alloc: Global, number: u8) -> Result<Vec<u8>, AllocError>
    ensures { IfOk result (λ text. text.items ≡ codes "FAULT F" ++ decimal number) }
{
    let mut text = Vec::from_slice(alloc, b"FAULT F")?;
    let mut buffer = Buffer::new();
    text.extend_from_slice(buffer.format(number).as_bytes())?;
    Ok(text)
}

/// The body about a fault, if the run is at one.
pub fn exception<S: SetBoard>(
    alloc: Global,
    machine: &Machine<S>,
) -> Result<Option<Vec<u8>>, AllocError>
    ensures { IfOk result (λ body. option_map (λ b. b.items) body
        ≡ exception_by (run machine.now.input (position machine.now)).status) }
{
    machine.known();
    match machine.status() {
        Status::Faulted(fault) => {
            let word = fault_word(alloc, fault.number())?;
            Ok(Some(exception_body(alloc, &word, fault_sentence(fault))?))
        }
        _ => Ok(None),
    }
}

/// The question of a command of the debugger, as a program has its names, or which of them it
/// hasn't.
fn named_in(program: &Program, command: Command) -> Option<Result<Question, Missing>>
    ensures { result ≡ named_in program.now command }
{
    match command {
        Command::Show(question) => Some(asked_of_program(program, Question::Shown(question))),
        _ => None,
    }
}

/// The question that a line of the prompt asks, or has answered at each stop, as that of a bare
/// name; or the name in it that the program hasn't.
fn named_by(program: &Program, command: PromptCommand) -> Option<Result<Question, Missing>>
    ensures { result ≡ named_by program.now command }
{
    match command {
        PromptCommand::Plain(command) => named_in(program, command),
        PromptCommand::Ask(question) | PromptCommand::Display(question) => Some(Ok(question)),
        PromptCommand::Missing(missing) => Some(Err(missing)),
        PromptCommand::Meant(Manner::Display, text, _) => bare_question(program, text.as_slice()),
        _ => None,
    }
}

/// A text after the beginning of a line.
fn line_behind(alloc: Global, head: &'static [u8], text: &[u8]) -> Result<Vec<u8>, AllocError>
    ensures { IfOk result (λ line. line.items ≡ head.now ++ text.now) }
{
    let mut line = Vec::from_slice(alloc, head)?;
    line.extend_from_slice(text)?;
    Ok(line)
}

/// The question that an expression is, as a program has its names, or the name in it that the
/// program hasn't. The expression is a text that may follow DISPLAY, or a line of the prompt.
pub fn asked(
    alloc: Global,
    program: &Program,
    text: &[u8],
) -> Result<Option<Result<Question, Missing>>, AllocError>
    ensures { IfOk result (λ asked. asked ≡ asked_of program.now text.now) }
{
    let line = line_behind(alloc, b"DISPLAY ", text)?;
    if let Some(asked) = named_by(program, prompt_command(program, &line)) {
        return Ok(Some(asked));
    }
    Ok(named_by(program, prompt_command(program, text)))
}

/// The same, if the program has its names.
pub fn question(
    alloc: Global,
    program: &Program,
    text: &[u8],
) -> Result<Option<Question>, AllocError>
    ensures { IfOk result (λ question. question ≡ question_of program.now text.now) }
{
    match asked(alloc, program, text)? {
        Some(Ok(question)) => Ok(Some(question)),
        _ => Ok(None),
    }
}

/// Why a text is no question on a program, if it is none.
pub fn question_fault(asked: &Option<Result<Question, Missing>>) -> Option<&'static [u8]>
    ensures { option_map (λ text. text.now) result ≡ question_fault asked.now }
{
    match asked {
        None => Some(b"no question"),
        Some(Err(_)) => Some(b"nothing has this name"),
        Some(Ok(_)) => None,
    }
}
